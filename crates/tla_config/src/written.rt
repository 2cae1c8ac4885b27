//! Where a value that is written ends, within the limits of values or beyond them.

ghost use Rattle.std.specs.Prelude.{◌≡◌, ◌≤◌, ◌<◌, ◌+◌, ◌↔◌, ℕ, false, List, length, slice_get, IfOk, IfErr, IsTrue};
ghost use Rattle.tla_lex.specs.declared.token.Kind.TheVariants as k;
ghost use Rattle.tla_config.specs.Private.Fronts.{kind_at};
ghost use Rattle.tla_config.specs.Private.LiteralEnds as ends;

use crate::keyword::keyword_of;
use crate::tokens::{digits_at, is_kind, token_at};
use tla_lex::{Kind, Token};
use tla_tree::slice_of;

/// Whether the token writes a value by itself.
fn writes_value(text: &[u8], token: Token) -> bool
    ensures { result ≡ ends.writes_value text.now token }
{
    match token.kind {
        Kind::True | Kind::False | Kind::Digits | Kind::Text => true,
        Kind::Name => keyword_of(slice_of(text, token)).is_none(),
        _ => false,
    }
}

/// The token after a value of one token, or after `-` and a number. An error is the token at which there is none.
#[tactic(auto, using(crate::proofs::LiteralEnds::minus_ends, crate::proofs::LiteralEnds::minus_none, crate::proofs::LiteralEnds::token_ends, crate::proofs::LiteralEnds::token_none, crate::proofs::LiteralEnds::past_none))]
fn atom_end(text: &[u8], tokens: &[Token], at: usize) -> Result<usize, usize>
    requires { kind_at k.LeftBrace (slice_get tokens.now at) ≡ false }
    ensures found { IfOk result (λ to. ends.EndsAt text.now tokens.now at to) }
    ensures none { IfErr result (λ n. ends.NoneEnds text.now tokens.now at) }
    ensures within { IfOk result (λ to. (at < to) × (to ≤ length tokens.now)) }
{
    if is_kind(Kind::Minus, tokens, at) {
        return match digits_at(tokens, at + 1) {
            Some(_) => Ok(at + 2),
            None => Err(at + 1),
        };
    }
    let Some(t) = token_at(tokens, at) else {
        return Err(at);
    };
    if writes_value(text, t) {
        Ok(at + 1)
    } else {
        Err(at)
    }
}

/// The token after a value that has no first member to read: one that is no set, or `{}`. An error is the token at
/// which there is none.
#[tactic(auto, using(crate::proofs::LiteralEnds::empty_ends))]
fn part_end(text: &[u8], tokens: &[Token], at: usize) -> Result<usize, usize>
    requires { ends.opens_members (slice_get tokens.now at) (slice_get tokens.now (at + 1))
        ≡ false }
    ensures found { IfOk result (λ to. ends.EndsAt text.now tokens.now at to) }
    ensures none { IfErr result (λ n. ends.NoneEnds text.now tokens.now at) }
    ensures within { IfOk result (λ to. (at < to) × (to ≤ length tokens.now)) }
{
    if is_kind(Kind::LeftBrace, tokens, at) {
        Ok(at + 2)
    } else {
        atom_end(text, tokens, at)
    }
}

/// Whether a set opens here that has a member.
fn opens_members(tokens: &[Token], at: usize) -> bool
    ensures value { result
        ≡ ends.opens_members (slice_get tokens.now at) (slice_get tokens.now (at + 1)) }
    ensures within { IsTrue result → at < length tokens.now }
{
    is_kind(Kind::LeftBrace, tokens, at) && !is_kind(Kind::RightBrace, tokens, at + 1)
}

/// A token, and how many sets are open before it.
#[derive(Clone, Copy)]
struct Inside {
    at: usize,
    deep: usize,
}

/// Passes the braces that close sets.
fn closed(tokens: &[Token], inside: Inside) -> Inside
    requires { inside.at ≤ length tokens.now }
    ensures same { (text : List ℕ) (to : ℕ)
        → ends.Completes text tokens.now result.deep result.at to
        ↔ ends.Completes text tokens.now inside.deep inside.at to }
    ensures stops { 0 < result.deep
        → kind_at k.RightBrace (slice_get tokens.now result.at) ≡ false }
    ensures fewer { result.deep ≤ inside.deep }
    ensures onward { inside.at ≤ result.at }
    ensures within { result.at ≤ length tokens.now }
{
    let mut at = inside.at;
    let mut deep = inside.deep;
    while deep > 0 && is_kind(Kind::RightBrace, tokens, at) {
        deep -= 1;
        at += 1;
    }
    Inside { at, deep }
}

/// The token after the value that is written here. An error is the token at which it breaks off.
pub fn literal_end(text: &[u8], tokens: &[Token], from: usize) -> Result<usize, usize>
    ensures found { IfOk result (λ to. ends.EndsAt text.now tokens.now from to) }
    ensures none { IfErr result (λ n. ends.NoneEnds text.now tokens.now from) }
{
    let mut deep: usize = 0;
    let mut at = from;
    while at < tokens.len() {
        if opens_members(tokens, at) {
            deep += 1;
            at += 1;
        } else {
            let end = part_end(text, tokens, at)?;
            let after = closed(tokens, Inside { at: end, deep });
            if after.deep == 0 {
                return Ok(after.at);
            }
            if !is_kind(Kind::Comma, tokens, after.at) {
                return Err(after.at);
            }
            deep = after.deep;
            at = after.at + 1;
        }
    }
    Err(at)
}
