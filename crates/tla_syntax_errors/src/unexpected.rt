//! Unexpected tokens.

use crate::heads::say_operator;
use crate::kinds::{begins_operand, begins_unit, closes, ends_operand, may_begin_operand};
use crate::{cases, declared, excepts, heads, lists, pairs, signs};
use tla_config::Source;
use tla_finding::finding::Finding;
use tla_finding::spot::Spot;
use tla_hints::{Open, command_meant, innermost_open, is_closed_by, word_meant};
use tla_lex::{Kind, Place};
use tla_page::places::word;

/// Finds why a token is unexpected.
pub fn find(finding: &mut Finding, spot: &Spot<'_>) {
    let open = open_before(finding, spot);
    let found = cases::find(finding, spot)
        || declared::find(finding, spot)
        || lists::find(finding, spot, open)
        || excepts::find(finding, spot, open)
        || pairs::find(finding, spot, open)
        || signs::find(finding, spot, open)
        || find_word(finding, spot)
        || heads::find(finding, spot, open)
        || find_open(finding, spot, open);
    if !found {
        find_sides(finding, spot, open);
    }
}

/// Finds what is missing in an item of a list with a token left of the bullet.
pub fn find_left(finding: &mut Finding, spot: &Spot<'_>) {
    let open = open_before(finding, spot);
    let is_bullet = matches!(spot.kind(spot.at), Some(Kind::And | Kind::Or));
    if is_bullet || spot.is_head(spot.at) {
        find_bullet(finding, spot, open);
    } else {
        finding.hint(&["move this to the right of the bullet"]);
        if let Some(open) = open {
            show_open(finding, spot, open);
        }
    }
}

/// Finds what is missing in the item before a bullet or before a definition.
fn find_bullet(finding: &mut Finding, spot: &Spot<'_>, open: Option<Open>) {
    let is_finished = spot.back(1).is_some_and(ends_operand);
    match open {
        Some(open) => say_open(finding, spot, open),
        None if is_finished => finding.hint(&["move this to the right of the bullet"]),
        None => {
            let before = spot.word(spot.at.saturating_sub(1));
            finding.say(
                spot.place(spot.at),
                &["an expression is missing before '", spot.word(spot.at), "'"],
            );
            finding.hint(&["write one after '", before, "'"]);
        }
    }
}

/// The innermost open token before the token.
fn open_before(finding: &mut Finding, spot: &Spot<'_>) -> Option<Open> {
    match innermost_open(finding.alloc(), spot.tokens, spot.place(spot.at)) {
        Ok(open) => open,
        Err(_) => {
            finding.refuse();
            None
        }
    }
}

/// Finds a word of another language, or an operator with a backslash that isn't supported.
fn find_word(finding: &mut Finding, spot: &Spot<'_>) -> bool {
    let next = spot.at.saturating_add(1);
    let (word, sign) = if spot.is(spot.at, Kind::Difference) && spot.touches_before(next) {
        (spot.word(next), "\\")
    } else {
        (spot.word(spot.at), "")
    };
    if !sign.is_empty() && heads::is_infix_definition(spot, spot.at) {
        return false;
    }
    let is_name = spot.is(spot.at, Kind::Name) || !sign.is_empty();
    let meant = if sign.is_empty() {
        word_meant(word)
    } else {
        command_meant(word)
    };
    match meant {
        Some(_) if is_name && word == "in" && sign.is_empty() => {
            let is_in_let = heads::is_in_let(finding, spot);
            heads::say_member(finding, spot, spot.at, is_in_let);
            true
        }
        Some(meant) if is_name => {
            finding.say(spot.place(spot.at), &["'", sign, word, "' is no operator"]);
            finding.hint(&["write ", meant]);
            true
        }
        _ => false,
    }
}

/// Finds an open token before a token that can't be inside it.
fn find_open(finding: &mut Finding, spot: &Spot<'_>, open: Option<Open>) -> bool {
    let Some(kind) = spot.kind(spot.at) else {
        return false;
    };
    let Some(open) = open else {
        return closes(kind) && say_closed(finding, spot);
    };
    let leaves = begins_unit(kind) || closes(kind) || spot.begins_line(spot.at);
    let leaves = leaves && !is_closed_by(open.wanted, kind);
    if leaves {
        say_open(finding, spot, open);
    }
    leaves
}

/// Says that a token closes nothing.
fn say_closed(finding: &mut Finding, spot: &Spot<'_>) -> bool {
    let word = spot.word(spot.at);
    finding.say(spot.place(spot.at), &["'", word, "' closes nothing"]);
    finding.hint(&["remove it, or write what it closes"]);
    true
}

/// Says that something is open, and shows where.
fn say_open(finding: &mut Finding, spot: &Spot<'_>, open: Open) {
    finding.say(
        spot.place(spot.at),
        &["'", open.wanted, "' is missing before this"],
    );
    show_open(finding, spot, open);
}

/// Shows the open token, and says what has to close it.
fn show_open(finding: &mut Finding, spot: &Spot<'_>, open: Open) {
    let token = open.token;
    show_wanted(finding, token.place, word(spot.text, &token), open.wanted);
}

pub(crate) fn show_wanted(finding: &mut Finding, place: Place, word: &str, wanted: &str) {
    let texts = ["'", word, "' is open here, and wants '", wanted, "'"];
    finding.show_beside(Source::Module, place, &texts);
}

/// Finds what is missing between a token and the one before.
fn find_sides(finding: &mut Finding, spot: &Spot<'_>, open: Option<Open>) {
    let (Some(kind), Some(before)) = (spot.kind(spot.at), spot.back(1)) else {
        return;
    };
    let word = spot.word(spot.at.saturating_sub(1));
    if ends_operand(before) && begins_operand(kind) {
        if heads::say_backslash(finding, spot, spot.at) {
            return;
        }
        say_operator(finding, spot, spot.at, open);
        if let Some(open) = open {
            show_open(finding, spot, open);
        }
    } else if is_empty_call(spot) {
        let name = spot.word(spot.at.saturating_sub(2));
        finding.say(
            spot.place(spot.at),
            &["no argument in the parentheses of '", name, "'"],
        );
        finding.hint(&["write ", name, " alone, if it takes none"]);
    } else if !ends_operand(before) && !may_begin_operand(kind) {
        finding.say(
            spot.place(spot.at),
            &["an expression is missing before '", spot.word(spot.at), "'"],
        );
        finding.hint(&["write one after '", word, "'"]);
    } else if heads::begins_unit_line(spot, spot.at) && !begins_unit(kind) {
        say_no_unit(finding, spot);
    } else if heads::begins_list(spot, spot.at) {
        finding.say(
            spot.place(spot.at),
            &["'", spot.word(spot.at), "' in a list of names"],
        );
        finding.hint(&["a name has letters, digits and _; a comment begins with \\*"]);
    }
}

/// Whether a token closes the parentheses after a name, with nothing in them.
fn is_empty_call(spot: &Spot<'_>) -> bool {
    spot.is(spot.at, Kind::RightParen)
        && spot.back(1) == Some(Kind::LeftParen)
        && spot.back(2) == Some(Kind::Name)
}

/// Says that a symbol begins no unit.
fn say_no_unit(finding: &mut Finding, spot: &Spot<'_>) {
    let place = spot.place(spot.at);
    if heads::defines_later(spot, place.line) {
        finding.say(place, &["the definition of an operator before its operand"]);
        finding.hint(&["write Op(a) == .., and Op(a) where it is used"]);
    } else {
        finding.say(place, &["'", spot.word(spot.at), "' begins no unit"]);
        finding.hint(&["a definition is written Name == ..; a comment begins with \\*"]);
    }
}
