//! Characters that begin no token.

use crate::finding::Finding;
use tla_hints::{front, line_of, sign_cure, symbols};
use tla_lex::Place;

/// Finds what to write in place of the character at a place.
pub fn find(finding: &mut Finding, text: &[u8], place: Place) {
    let rest = rest_of(text, place);
    if find_symbols(finding, rest, place) {
        return;
    }
    if let Some((sign, cure)) = sign_cure(rest) {
        say_sign(finding, place, sign, cure);
    } else if let Some(letter) = first_non_ascii(rest) {
        finding.say(place, &["'", letter, "' is not ASCII"]);
        finding.hint(&["a name has the letters a to z and A to Z, digits and _"]);
    } else if rest.as_bytes().first().is_some_and(|b| b.is_ascii_digit()) {
        finding.say(place, &["neither a number nor a name"]);
        finding.hint(&["a number has digits alone, and a name a letter at least"]);
    } else if rest.starts_with("\\") {
        finding.hint(&["in a text the escapes are \\\" \\\\ \\t \\n \\f \\r"]);
    }
}

/// Says what to write in place of a character, or of two that begin no comment.
fn say_sign(finding: &mut Finding, place: Place, sign: &str, cure: &str) {
    if sign == "//" || sign == "/*" {
        finding.say(place, &["'", sign, "' begins no comment"]);
    } else {
        let character = sign.get(..1).unwrap_or(sign);
        finding.say(place, &["unknown character '", character, "'"]);
    }
    finding.hint(&[cure]);
}

/// The first character of a text, unless it is ASCII.
fn first_non_ascii(text: &str) -> Option<&str> {
    let first = *text.as_bytes().first()?;
    if first < 192 {
        None
    } else if first < 224 {
        text.get(..2)
    } else if first < 240 {
        text.get(..3)
    } else {
        text.get(..4)
    }
}

/// Finds why the text of a configuration can't be read at a place, unless a token is missing there.
pub fn find_unread(finding: &mut Finding, text: &[u8], place: Place) -> bool {
    let rest = rest_of(text, place);
    if str::from_utf8(text).is_err() {
        finding.say(place, &["not UTF-8"]);
        finding.hint(&["save the file as UTF-8"]);
    } else if rest.starts_with("\"") {
        finding.say(place, &["a string is not closed on its line"]);
        finding.hint(&["write the closing \" in the same line"]);
    } else if rest.starts_with("(*") {
        finding.say(place, &["a comment is not closed"]);
        finding.hint(&["write *) where it ends; comments nest"]);
    } else if !rest.is_empty() {
        find(finding, text, place);
        if finding.title.is_empty() {
            finding.say(place, &["unknown character"]);
        }
    }
    !finding.title.is_empty()
}

/// Finds the Unicode characters of a line, if one is at this place.
fn find_symbols(finding: &mut Finding, rest: &str, place: Place) -> bool {
    let [symbols, more] = symbols();
    find_first(finding, rest, place, symbols);
    find_first(finding, rest, place, more);
    if finding.title.is_empty() {
        return false;
    }
    hint_others(finding, rest, symbols);
    hint_others(finding, rest, more);
    true
}

/// Says what to write for the character of a table with which a text begins.
fn find_first(
    finding: &mut Finding,
    rest: &str,
    place: Place,
    table: &'static [(&'static str, &'static str)],
) {
    for (symbol, ascii) in table {
        if rest.starts_with(*symbol) {
            finding.say(place, &["'", symbol, "' is not ASCII"]);
            finding.hint(&["write ", ascii, " for ", symbol]);
        }
    }
}

/// Says what to write for the characters of a table that a text has further on.
fn hint_others(finding: &mut Finding, rest: &str, table: &'static [(&'static str, &'static str)]) {
    for (symbol, ascii) in table {
        if !rest.starts_with(*symbol) && rest.contains(*symbol) {
            finding.hint(&["write ", ascii, " for ", symbol]);
        }
    }
}

/// The rest of a line from a place.
fn rest_of(text: &[u8], place: Place) -> &str {
    let Some(line) = line_of(text, place.line) else {
        return "";
    };
    let before = front(line, place.column);
    let rest = line.get(before.len()..).unwrap_or(&[]);
    str::from_utf8(rest).unwrap_or("")
}
