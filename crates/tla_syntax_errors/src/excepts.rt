//! Parts of EXCEPT.

use tla_finding::finding::Finding;
use tla_finding::spot::Spot;
use tla_hints::Open;
use tla_lex::Kind;

const PARTS: &str = "write [f EXCEPT ![x] = e, ![y] = d], or [r EXCEPT !.a = e]";

/// Finds what is wrong in the EXCEPT that is open.
pub(crate) fn find(finding: &mut Finding, spot: &Spot<'_>, open: Option<Open>) -> bool {
    let Some(open) = open else {
        return false;
    };
    if !has_except(spot, open) {
        return false;
    }
    let title = if spot.back(1) == Some(Kind::Bang) {
        "after '!' EXCEPT has '[' or '.'"
    } else if spot.back(1) == Some(Kind::Comma) {
        "each part of EXCEPT begins with '!'"
    } else {
        match spot.kind(spot.at) {
            Some(Kind::MapsTo) => "'|->' where EXCEPT has '='",
            Some(Kind::Arrow) => "'->' where EXCEPT has '='",
            Some(Kind::Colon) => "':' where EXCEPT has '='",
            Some(Kind::Define) => "'==' where EXCEPT has '='",
            _ => return false,
        }
    };
    finding.say(spot.place(spot.at), &[title]);
    finding.hint(&[PARTS]);
    true
}

/// Whether EXCEPT follows the open bracket.
fn has_except(spot: &Spot<'_>, open: Open) -> bool {
    let before = spot.tokens.get(..spot.at).unwrap_or(&[]);
    let mut inside = before.iter().filter(|token| token.start > open.token.start);
    open.token.kind == Kind::LeftBracket && inside.any(|token| token.kind == Kind::Except)
}
