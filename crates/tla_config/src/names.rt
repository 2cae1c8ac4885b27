//! Lists of names.

ghost use Rattle.std.specs.Prelude.{◌≤◌, ◌<◌, length, IfSome, IfOk, IfErr, OnOk};
ghost use Rattle.tla_config.specs.Private.Gives as spec;

use crate::refusal::Refusal;
use crate::tokens::{is_kind, name_at};
use std::alloc::Global;
use tla_lex::{Kind, Token};
use tla_tree::{Written, push};

/// Names, and the number of the token after the last.
#[derive(Drop)]
pub struct ParsedNames {
    pub names: Vec<Written>,
    pub end: usize,
}

/// The name at this token.
pub fn name(alloc: Global, text: &[u8], tokens: &[Token], at: usize) -> Result<Written, Refusal>
    ensures gives { spec.GivesName text.now tokens.now at result }
    ensures because { IfErr result (λ e. spec.Because e spec.Nowhere spec.Nowhere spec.Anything) }
    ensures within { OnOk result (at < length tokens.now) }
{
    match name_at(text, tokens, at) {
        Some(t) => Ok(Written::of_token(alloc, text, t)?),
        None => Err(Refusal::Unexpected(at)),
    }
}

/// Where the next name of a list is, if the list continues after this token.
pub fn next_name(text: &[u8], tokens: &[Token], at: usize) -> Option<usize>
    ensures goes_on { spec.GoesOn text.now tokens.now at result }
    ensures order { IfSome result (λ next. at ≤ next) }
{
    if is_kind(Kind::Comma, tokens, at) {
        return Some(at + 1);
    }
    match name_at(text, tokens, at) {
        Some(_) => Some(at),
        None => None,
    }
}

/// One or more names, with or without commas between them.
pub fn names(
    alloc: Global,
    text: &[u8],
    tokens: &[Token],
    from: usize,
) -> Result<ParsedNames, Refusal>
    ensures gives { spec.GivesNames text.now tokens.now from result }
    ensures because { IfErr result (λ e. spec.Because e spec.Nowhere spec.Nowhere spec.Anything) }
    ensures within { IfOk result (λ x. (from < x.end) × (x.end ≤ length tokens.now)) }
{
    let mut names = Vec::new(alloc);
    let mut at = from;
    loop {
        let name = name(alloc, text, tokens, at)?;
        push(&mut names, name)?;
        match next_name(text, tokens, at + 1) {
            Some(next) => at = next,
            None => return Ok(ParsedNames { names, end: at + 1 }),
        }
    }
}
