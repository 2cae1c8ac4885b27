//! Names with commas between them, and what an entry of a binder has before `\in`.

ghost use Rattle.std.specs.Prelude.{◌≡◌, ◌+◌, ◌≤◌, ◌++◌, ◌∷◌, [], length, IfErr, OnOk};
ghost use Rattle.tla_expressions.specs.ReadingLists as lists;
ghost use Rattle.tla_expressions.specs.Gives.{GivesNames, GivesPattern};

use std::alloc::Global;
use tla_grammar::{Refusal, is_kind, name_at, refused, refused_parameter, seen};
use tla_lex::{Kind, Token};
use tla_tree::{Pattern, Written, push};

/// Names, and the number of the token after the last.
#[derive(Drop)]
pub struct ParsedNames {
    pub names: Vec<Written>,
    pub end: usize,
}

/// Names with commas between them.
#[tactic(auto, using(crate::proofs::NameLists::names_more, crate::proofs::NameLists::names_last, crate::proofs::NameLists::names_none, crate::proofs::NameLists::names_full))]
pub fn names(
    alloc: Global,
    text: &[u8],
    tokens: &[Token],
    column: u128,
    from: usize,
) -> Result<ParsedNames, Refusal>
    requires { from ≤ length tokens.now }
    ensures { GivesNames text.now tokens.now result
        (lists.names text.now tokens.now (length tokens.now) [] column from) }
{
    let mut names = Vec::new(alloc);
    let mut at = from;
    for _turn in 0..tokens.len() {
        let Some(name) = name_at(seen(tokens, column, at)) else {
            return Err(refused(tokens, column, at));
        };
        let name = Written::of_token(alloc, text, name)?;
        push(&mut names, name)?;
        if !is_kind(Kind::Comma, seen(tokens, column, at + 1)) {
            return Ok(ParsedNames { names, end: at + 1 });
        }
        at += 2;
    }
    Err(refused(tokens, column, at))
}

/// Names with commas between them, as the parameters of the definition at `form`, which may be left out for them.
pub fn parameters(
    alloc: Global,
    text: &[u8],
    tokens: &[Token],
    column: u128,
    form: usize,
    from: usize,
) -> Result<ParsedNames, Refusal>
    requires { from ≤ length tokens.now }
    ensures { GivesNames text.now tokens.now result
        (lists.names text.now tokens.now (length tokens.now) [] column from) }
{
    match names(alloc, text, tokens, column, from) {
        Err(Refusal::Unexpected(at)) => Err(refused_parameter(tokens, column, form, at)),
        answer => answer,
    }
}

/// What an entry of a binder has before `\in`, and the number of the token after it.
#[derive(Drop)]
pub struct ParsedPattern {
    pub pattern: Pattern,
    pub end: usize,
}

/// A tuple of names, after `<<`.
#[tactic(auto, unfolding(crate::specs::ReadingLists::tuple_of_names))]
fn tuple_of_names(
    alloc: Global,
    text: &[u8],
    tokens: &[Token],
    column: u128,
    from: usize,
) -> Result<ParsedPattern, Refusal>
    requires { from ≤ length tokens.now }
    ensures { GivesPattern text.now tokens.now result
        (lists.tuple_of_names text.now tokens.now column from) }
{
    let found = names(alloc, text, tokens, column, from)?;
    if !is_kind(Kind::RightTuple, seen(tokens, column, found.end)) {
        return Err(refused(tokens, column, found.end));
    }
    Ok(ParsedPattern {
        pattern: Pattern::Tuple(found.names),
        end: found.end + 1,
    })
}

/// Names, or a tuple of names.
#[tactic(auto, unfolding(crate::specs::ReadingLists::pattern))]
pub fn pattern(
    alloc: Global,
    text: &[u8],
    tokens: &[Token],
    column: u128,
    from: usize,
) -> Result<ParsedPattern, Refusal>
    requires { from ≤ length tokens.now }
    ensures { GivesPattern text.now tokens.now result
        (lists.pattern text.now tokens.now column from) }
{
    if is_kind(Kind::LeftTuple, seen(tokens, column, from)) {
        return tuple_of_names(alloc, text, tokens, column, from + 1);
    }
    let found = names(alloc, text, tokens, column, from)?;
    Ok(ParsedPattern {
        pattern: Pattern::Each(found.names),
        end: found.end,
    })
}

/// One name, or a tuple of names.
#[tactic(auto, unfolding(crate::specs::ReadingLists::single))]
pub fn single(
    alloc: Global,
    text: &[u8],
    tokens: &[Token],
    column: u128,
    from: usize,
) -> Result<ParsedPattern, Refusal>
    requires { from ≤ length tokens.now }
    ensures { GivesPattern text.now tokens.now result
        (lists.single text.now tokens.now column from) }
{
    if is_kind(Kind::LeftTuple, seen(tokens, column, from)) {
        return tuple_of_names(alloc, text, tokens, column, from + 1);
    }
    let Some(name) = name_at(seen(tokens, column, from)) else {
        return Err(refused(tokens, column, from));
    };
    let mut names = Vec::new(alloc);
    push(&mut names, Written::of_token(alloc, text, name)?)?;
    Ok(ParsedPattern {
        pattern: Pattern::Each(names),
        end: from + 1,
    })
}
