//! The text of an expression.

use std::alloc::{AllocError, Global};
use tla_hints::{closes_bracket, opens_bracket};
use tla_lex::{Place, Token};
use tla_page::places::Sources;
use tla_tree::{Arm, Expr, slice_of};

/// The length in bytes after which the text of an expression is cut.
const LONGEST_TEXT: usize = 80;

/// The index of the first token of an expression.
pub(crate) fn first_token(tokens: &[Token], expr: &Expr) -> Option<usize> {
    token_at(tokens, expr.place())
}

fn token_at(tokens: &[Token], place: Place) -> Option<usize> {
    tokens.iter().position(|token| token.place == place)
}

/// The index of the last token of an expression.
#[cycle(last)]
pub(crate) fn last_token(tokens: &[Token], expr: &Expr) -> Option<usize> {
    match expr {
        Expr::Name(name) => token_at(tokens, name.place),
        Expr::Number(place, _)
        | Expr::Text(place, _)
        | Expr::Constant(place, _)
        | Expr::At(place) => token_at(tokens, *place),
        Expr::Field(_, _, name) => token_at(tokens, name.place),
        Expr::Call(name, _) => closing_of(tokens, number_after(token_at(tokens, name.place))),
        Expr::Index(_, function, _) => closing_of(
            tokens,
            number_after(last_token(tokens, function)),
        ),
        Expr::Fair(_, _, subscript, _) => closing_of(
            tokens,
            number_after(last_token(tokens, subscript)),
        ),
        Expr::Prime(_, inner) => number_after(last_token(tokens, inner)),
        Expr::Unary(_, _, last)
        | Expr::Binary(_, _, _, _, last)
        | Expr::Quantified(_, _, _, last)
        | Expr::Choose(_, _, _, last)
        | Expr::If(_, _, _, last)
        | Expr::Let(_, _, last)
        | Expr::Action(_, _, _, last)
        | Expr::Case(_, _, Some(last)) => last_token(tokens, last),
        Expr::Case(_, arms, None) => last_of_arms(tokens, arms),
        Expr::Junction(_, _, items) | Expr::Product(_, _, items) => last_of_all(tokens, items),
        _ => closing_of(tokens, first_token(tokens, expr)),
    }
}

/// The index of the last token of the last of some expressions.
#[cycle(last)]
fn last_of_all(tokens: &[Token], items: &[Expr]) -> Option<usize> {
    let mut last = None;
    for item in items {
        last = last_token(tokens, item);
    }
    last
}

/// The index of the last token of the last of some arms.
#[cycle(last)]
fn last_of_arms(tokens: &[Token], arms: &[Arm]) -> Option<usize> {
    let mut last = None;
    for arm in arms {
        last = last_token(tokens, &arm.value);
    }
    last
}

/// The index plus 1.
fn number_after(number: Option<usize>) -> Option<usize> {
    match number {
        Some(number) => number.checked_add(1),
        None => None,
    }
}

/// The index of the token that closes the bracket that a token opens.
fn closing_of(tokens: &[Token], open: Option<usize>) -> Option<usize> {
    let open = open?;
    let mut depth = 0usize;
    for (index, token) in tokens.iter().enumerate().skip(open) {
        if opens_bracket(token.kind) {
            depth = depth.saturating_add(1);
        } else if closes_bracket(token.kind) {
            depth = depth.saturating_sub(1);
            if depth == 0 {
                return Some(index);
            }
        }
    }
    None
}

/// The text of an expression in one line, without comments, or its beginning; empty if it isn't found. The only error
/// is that memory ran out.
pub(crate) fn text_of(
    alloc: Global,
    sources: &Sources<'_>,
    tokens: &[Token],
    expr: &Expr,
) -> Result<Vec<u8>, AllocError> {
    match (first_token(tokens, expr), last_token(tokens, expr)) {
        (Some(first), Some(last)) => text_between(alloc, sources.module, tokens, first, last),
        (_, _) => Ok(Vec::new(alloc)),
    }
}

/// The text from one token to another.
pub(crate) fn text_between(
    alloc: Global,
    module: &[u8],
    tokens: &[Token],
    first: usize,
    last: usize,
) -> Result<Vec<u8>, AllocError> {
    let mut text = Vec::new(alloc);
    let mut end = None;
    for token in tokens.iter().take(last.saturating_add(1)).skip(first) {
        if end.is_some_and(|end| token.start > end) {
            text.push(b' ')?;
        }
        if text.len() > LONGEST_TEXT {
            text.extend_from_slice(b"..")?;
            break;
        }
        text.extend_from_slice(slice_of(module, *token))?;
        end = Some(token.end);
    }
    Ok(text)
}
