//! Wrong symbols in declarations: a colon after the keyword, or a value for a name of a list.

use crate::heads::begins_list;
use tla_finding::finding::Finding;
use tla_finding::spot::Spot;
use tla_lex::Kind;

/// Finds a colon after the keyword of a unit, or a symbol that assigns a value to a name of a list.
pub(crate) fn find(finding: &mut Finding, spot: &Spot<'_>) -> bool {
    match spot.kind(spot.at) {
        Some(Kind::Colon) => find_colon(finding, spot),
        Some(Kind::Equal | Kind::Member) => find_value(finding, spot),
        Some(Kind::Define) => is_one_line(spot) && find_value(finding, spot),
        _ => false,
    }
}

/// Finds a colon right after the keyword of a unit.
fn find_colon(finding: &mut Finding, spot: &Spot<'_>) -> bool {
    let is_word = matches!(
        spot.back(1),
        Some(Kind::Variable | Kind::Constant | Kind::Assume | Kind::Extends | Kind::Theorem)
    );
    if is_word {
        let word = spot.word(spot.at.saturating_sub(1));
        finding.say(spot.place(spot.at), &["':' after ", word]);
        finding.hint(&["remove the ':'"]);
    }
    is_word
}

/// Whether the keyword of a list, a name and the token are in one line.
fn is_one_line(spot: &Spot<'_>) -> bool {
    let word = spot.at.saturating_sub(2);
    matches!(spot.kind(word), Some(Kind::Variable | Kind::Constant))
        && spot.place(word).line == spot.place(spot.at).line
}

/// Finds that a value is assigned to a name of a list.
fn find_value(finding: &mut Finding, spot: &Spot<'_>) -> bool {
    let Some(word) = list_word(spot) else {
        return false;
    };
    let sign = spot.word(spot.at);
    let name = spot.word(spot.at.saturating_sub(1));
    let value = spot.rest_of_line(spot.at.saturating_add(1));
    finding.say(spot.place(spot.at), &["'", sign, "' in a list of names"]);
    if spot.is(word, Kind::Variable) {
        finding.hint(&["a variable gets its first value in Init: ", name, " = .."]);
    } else if spot.is(spot.at, Kind::Define) {
        finding.hint(&[
            "a definition has no word before it: write ",
            name,
            " == ",
            value,
        ]);
    } else {
        finding.hint(&[
            "a constant gets its value in the configuration: CONSTANT ",
            name,
            " = ..",
        ]);
    }
    true
}

/// The index of the keyword of the list of names that contains a token.
fn list_word(spot: &Spot<'_>) -> Option<usize> {
    if spot.back(1) != Some(Kind::Name) || !begins_list(spot, spot.at) {
        return None;
    }
    for count in 2..spot.tokens.len() {
        let index = spot.at.checked_sub(count)?;
        if matches!(spot.kind(index)?, Kind::Variable | Kind::Constant) {
            return Some(index);
        }
    }
    None
}
