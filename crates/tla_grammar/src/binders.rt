//! Refusals of binders, and of the forms among them that are left out: quantifiers and CHOOSE without a set.

ghost use Rattle.std.specs.Prelude.{◌≡◌, ◌+◌, IsTrue};
ghost use Rattle.tla_grammar.specs.LeftOut as left_out;
ghost use Rattle.tla_grammar.specs.Refusals.{Refuses};

use crate::refusal::Refusal;
use crate::tokens::{is_kind, refused, seen};
use tla_lex::{Kind, Token};

fn is_quantifier(kind: Kind) -> bool
    ensures { result ≡ left_out.is_quantifier kind }
{
    matches!(kind, Kind::ForAll | Kind::Exists)
}

/// Whether there is a quantifier over names without a set here, all right of the column.
fn is_unbounded(tokens: &[Token], column: u128, from: usize) -> bool
    ensures { IsTrue result → left_out.IsUnbounded tokens.now from }
{
    let Some(t) = seen(tokens, column, from) else {
        return false;
    };
    if !is_quantifier(t.kind) {
        return false;
    }
    let mut at = from + 1;
    for _turn in 0..tokens.len() {
        if !is_kind(Kind::Name, seen(tokens, column, at)) {
            return false;
        }
        if is_kind(Kind::Colon, seen(tokens, column, at + 1)) {
            return true;
        }
        if !is_kind(Kind::Comma, seen(tokens, column, at + 1)) {
            return false;
        }
        at += 2;
    }
    false
}

/// Whether there is a CHOOSE over one name without a set here, all right of the column.
fn is_unbounded_choice(tokens: &[Token], column: u128, from: usize) -> bool
    ensures { IsTrue result → left_out.IsUnboundedChoice tokens.now from }
{
    is_kind(Kind::Choose, seen(tokens, column, from))
        && from < tokens.len()
        && is_kind(Kind::Name, seen(tokens, column, from + 1))
        && is_kind(Kind::Colon, seen(tokens, column, from + 2))
}

/// Whether there is a CHOOSE over a tuple of names without a set here, all right of the column.
fn is_unbounded_tuple(tokens: &[Token], column: u128, from: usize) -> bool
    ensures { IsTrue result → left_out.IsUnboundedTuple tokens.now from }
{
    if !is_kind(Kind::Choose, seen(tokens, column, from)) {
        return false;
    }
    if !is_kind(Kind::LeftTuple, seen(tokens, column, from + 1)) {
        return false;
    }
    let mut at = from + 2;
    for _turn in 0..tokens.len() {
        if !is_kind(Kind::Name, seen(tokens, column, at)) {
            return false;
        }
        if is_kind(Kind::RightTuple, seen(tokens, column, at + 1)) {
            return is_kind(Kind::Colon, seen(tokens, column, at + 2));
        }
        if !is_kind(Kind::Comma, seen(tokens, column, at + 1)) {
            return false;
        }
        at += 2;
    }
    false
}

/// The refusal of a token in the binders of the form at `form`: the form, if it is left out, else the token.
#[tactic(auto, unfolding(crate::specs::LeftOut::BeginsLeftOut))]
pub fn refused_binder(tokens: &[Token], column: u128, form: Option<usize>, at: usize) -> Refusal
    ensures { Refuses tokens.now result }
{
    let Some(start) = form else {
        return refused(tokens, column, at);
    };
    if is_unbounded(tokens, column, start) {
        return Refusal::LeftOut(start);
    }
    if is_unbounded_choice(tokens, column, start) {
        return Refusal::LeftOut(start);
    }
    if is_unbounded_tuple(tokens, column, start) {
        return Refusal::LeftOut(start);
    }
    refused(tokens, column, at)
}
