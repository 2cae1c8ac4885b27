//! Brackets and words that are still open.

use crate::places::is_before;
use std::alloc::{AllocError, Global};
use tla_lex::{Kind, Place, Token};

/// An opening token, and the text of the token that closes it.
#[derive(Clone, Copy, Debug)]
pub struct Open {
    pub token: Token,
    pub wanted: &'static str,
}

/// Whether a token opens a bracket.
pub fn opens_bracket(kind: Kind) -> bool {
    matches!(
        kind,
        Kind::LeftParen | Kind::LeftBracket | Kind::LeftBrace | Kind::LeftTuple
    )
}

/// Whether a token closes a bracket.
pub fn closes_bracket(kind: Kind) -> bool {
    matches!(
        kind,
        Kind::RightParen
            | Kind::RightBracket
            | Kind::RightBracketSubscript
            | Kind::RightBrace
            | Kind::RightTuple
            | Kind::RightTupleSubscript
    )
}

/// The text that has to close what a token opens: a bracket, an IF, a LET, or names before a colon.
fn wanted_after(kind: Kind) -> Option<&'static str> {
    match kind {
        Kind::LeftParen => Some(")"),
        Kind::LeftBracket => Some("]"),
        Kind::LeftBrace => Some("}"),
        Kind::LeftTuple => Some(">>"),
        Kind::If => Some("THEN"),
        Kind::Let => Some("IN"),
        Kind::ForAll | Kind::Exists | Kind::Choose => Some(":"),
        _ => None,
    }
}

/// Whether a token closes what waits for the text `wanted`.
pub fn is_closed_by(wanted: &str, kind: Kind) -> bool {
    match kind {
        Kind::RightParen => wanted == ")",
        Kind::RightBracket | Kind::RightBracketSubscript => wanted == "]",
        Kind::RightBrace => wanted == "}",
        Kind::RightTuple | Kind::RightTupleSubscript => wanted == ">>",
        Kind::Then => wanted == "THEN",
        Kind::Else => wanted == "ELSE",
        Kind::In => wanted == "IN",
        Kind::Colon => wanted == ":",
        _ => false,
    }
}

/// Updates the list of open tokens with the next token. The only error is that memory ran out.
fn take_up(open: &mut Vec<Open>, token: Token) -> Result<(), AllocError> {
    if let Some(wanted) = wanted_after(token.kind) {
        open.push(Open { token, wanted })?;
        return Ok(());
    }
    let Some(last) = open.last().copied() else {
        return Ok(());
    };
    if !is_closed_by(last.wanted, token.kind) {
        return Ok(());
    }
    let _ = open.pop();
    if token.kind == Kind::Then {
        open.push(Open {
            token: last.token,
            wanted: "ELSE",
        })?;
    }
    Ok(())
}

/// The last token before a place that opens something that no token before the place closes. The only error is that
/// memory ran out.
pub fn innermost_open(
    alloc: Global,
    tokens: &[Token],
    place: Place,
) -> Result<Option<Open>, AllocError> {
    let mut open = Vec::new(alloc);
    for token in tokens.iter().take_while(|t| is_before(t.place, place)) {
        take_up(&mut open, *token)?;
    }
    Ok(open.pop())
}
