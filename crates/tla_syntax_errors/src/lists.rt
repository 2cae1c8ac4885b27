//! Commas and lists.

use crate::heads::{begins_list, begins_unit_line, name_before, say_comma, say_operator};
use crate::kinds::ends_operand;
use tla_finding::finding::Finding;
use tla_finding::spot::Spot;
use tla_hints::Open;
use tla_lex::Kind;

/// Finds what is wrong with a list of names, a comma, or a bracket that was taken for an argument.
pub(crate) fn find(finding: &mut Finding, spot: &Spot<'_>, open: Option<Open>) -> bool {
    match spot.kind(spot.at) {
        Some(Kind::Define) => find_name(finding, spot) || find_unfinished(finding, spot),
        Some(Kind::Comma) if open.is_none() => find_comma(finding, spot),
        Some(Kind::MapsTo) => find_applied(finding, spot, open),
        _ => false,
    }
}

/// Finds that a list of names before a definition ends with a comma, or is empty.
fn find_name(finding: &mut Finding, spot: &Spot<'_>) -> bool {
    let Some(last) = spot.at.checked_sub(2) else {
        return false;
    };
    if !begins_list(spot, spot.at) {
        return false;
    }
    if spot.is(last, Kind::Comma) {
        finding.say(spot.place(last), &["a comma after the last name of a list"]);
        finding.hint(&["remove the comma"]);
    } else {
        finding.say(
            spot.place(last),
            &["a name is missing after ", spot.word(last)],
        );
        finding.hint(&["write the names, with commas between them"]);
    }
    true
}

/// Finds a definition without a name, or one before which an expression is incomplete.
fn find_unfinished(finding: &mut Finding, spot: &Spot<'_>) -> bool {
    if spot.begins_line(spot.at) {
        finding.say(spot.place(spot.at), &["a name is missing before '=='"]);
        finding.hint(&["a definition is written Name == .."]);
        return true;
    }
    let Some(head) = name_before(spot) else {
        return false;
    };
    let Some(before) = head.checked_sub(1) else {
        return false;
    };
    let is_finished = spot.kind(before).is_none_or(ends_operand);
    if is_finished || !begins_unit_line(spot, head) {
        return false;
    }
    finding.say(
        spot.place(head),
        &["an expression is missing before '", spot.word(head), "'"],
    );
    finding.hint(&["write one after '", spot.word(before), "'"]);
    if spot.is(before, Kind::Box) {
        finding.hint(&["the empty sequence is << >>, and the empty set {}"]);
    }
    true
}

/// Finds a comma outside of brackets.
fn find_comma(finding: &mut Finding, spot: &Spot<'_>) -> bool {
    if spot.back(2) == Some(Kind::Name) && begins_list(spot, spot.at) {
        say_comma(finding, spot, spot.at.saturating_sub(1));
        return true;
    }
    finding.say(spot.place(spot.at), &["a comma outside of brackets"]);
    let before = spot.tokens.get(..spot.at).unwrap_or(&[]);
    let line = spot.place(spot.at).line;
    let is_unchanged = before.iter().any(|token| token.place.line == line
        && token.kind == Kind::Unchanged);
    if is_unchanged {
        finding.hint(&["write UNCHANGED <<x, y>> for several variables"]);
    } else {
        finding.hint(&["a tuple is written <<a, b>>"]);
    }
    true
}

/// Finds that the bracket of a record was parsed as an argument of the expression before it.
fn find_applied(finding: &mut Finding, spot: &Spot<'_>, open: Option<Open>) -> bool {
    let Some(index) = open.and_then(|open| spot.index_at(open.token.place)) else {
        return false;
    };
    let before = index.checked_sub(1).and_then(|before| spot.kind(before));
    let is_applied = before.is_some_and(ends_operand) && spot.is(index, Kind::LeftBracket);
    if is_applied {
        say_operator(finding, spot, index, None);
    }
    is_applied
}
