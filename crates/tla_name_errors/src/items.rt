//! Syntax errors in items of CONSTANT.

use crate::config_names::statement_before;
use tla_config::Source;
use tla_finding::finding::Finding;
use tla_finding::spot::Spot;
use tla_hints::{closes_bracket, innermost_open, opens_bracket};
use tla_lex::{Kind, Place, Token};
use tla_page::places::word;

/// Finds what to write for an item of CONSTANT with a syntax error.
pub(crate) fn find(finding: &mut Finding, spot: &Spot<'_>) -> bool {
    if !is_in_constants(spot) {
        return false;
    }
    find_quotes(finding, spot)
        || find_parameters(finding, spot)
        || find_bare(finding, spot)
        || find_unclosed(finding, spot)
        || find_value(finding, spot)
}

/// Finds what is missing in the item at the end of a configuration. The token is the last one.
pub(crate) fn find_end(finding: &mut Finding, last: &Spot<'_>, place: Place) -> bool {
    if !is_in_constants(last) {
        return false;
    }
    if find_open(finding, last, place) {
        return true;
    }
    let is_bare = last.is(last.at, Kind::Name) && is_bare_name(last, last.at);
    if is_bare {
        say_bare(finding, place, last.word(last.at));
    }
    is_bare
}

/// Finds the bracket that is open before a place.
pub(crate) fn find_open(finding: &mut Finding, spot: &Spot<'_>, place: Place) -> bool {
    let open = match innermost_open(finding.alloc(), spot.tokens, place) {
        Ok(open) => open,
        Err(_) => {
            finding.refuse();
            None
        }
    };
    let Some(open) = open else {
        return false;
    };
    finding.say(place, &["'", open.wanted, "' is missing before this"]);
    let sign = word(spot.text, &open.token);
    show_wanted(finding, open.token.place, sign, open.wanted);
    true
}

fn show_wanted(finding: &mut Finding, place: Place, sign: &str, wanted: &str) {
    let texts = ["'", sign, "' is open here, and wants '", wanted, "'"];
    finding.show_beside(Source::Configuration, place, &texts);
}

/// Finds that a bracket is open before an item.
fn find_unclosed(finding: &mut Finding, spot: &Spot<'_>) -> bool {
    let begins = spot.begins_line(spot.at) && begins_item(spot, spot.at);
    begins && find_open(finding, spot, spot.place(spot.at))
}

/// Whether a token is in a statement CONSTANT.
fn is_in_constants(spot: &Spot<'_>) -> bool {
    statement_before(spot).starts_with("CONSTANT")
}

/// Finds a text in single quotes.
fn find_quotes(finding: &mut Finding, spot: &Spot<'_>) -> bool {
    let is_quote = spot.is(spot.at, Kind::Prime);
    if is_quote {
        finding.say(spot.place(spot.at), &["a text in single quotes"]);
        finding.hint(&["write a text as \"..\", or a name alone for a model value"]);
    }
    is_quote
}

/// Finds parameters after the name of an item.
fn find_parameters(finding: &mut Finding, spot: &Spot<'_>) -> bool {
    let before = spot.at.saturating_sub(1);
    let is_after_name = spot.is(before, Kind::Name) && is_bare_name(spot, before);
    if !spot.is(spot.at, Kind::LeftParen) || !is_after_name {
        return false;
    }
    let name = spot.word(before);
    finding.say(
        spot.place(spot.at),
        &["an item names '", name, "' without its parameters"],
    );
    finding.hint(&[
        "define Op with as many parameters in the module, and write ",
        name,
        " <- Op here",
    ]);
    true
}

/// Finds a name without `=` or `<-` after it.
fn find_bare(finding: &mut Finding, spot: &Spot<'_>) -> bool {
    let Some(before) = spot.at.checked_sub(1) else {
        return false;
    };
    let is_bare = spot.is(before, Kind::Name)
        && is_bare_name(spot, before)
        && sign_before(spot) != Some(spot.at);
    if is_bare && !find_open(finding, spot, spot.place(spot.at)) {
        say_bare(finding, spot.place(spot.at), spot.word(before));
    }
    is_bare
}

/// Whether a name begins an item: a comma or the keyword is before it, or it begins its line.
fn is_bare_name(spot: &Spot<'_>, index: usize) -> bool {
    let Some(before) = index.checked_sub(1) else {
        return false;
    };
    let begins = spot.begins_line(index) && !is_sign(spot, before);
    begins || spot.is(before, Kind::Comma) || spot.word(before).starts_with("CONSTANT")
}

/// Says that a name has no value.
fn say_bare(finding: &mut Finding, place: Place, name: &str) {
    finding.say(place, &["'=' is missing after '", name, "'"]);
    finding.hint(&[
        "write ",
        name,
        " = 3, or ",
        name,
        " <- Op; a set is written {a, b}",
    ]);
}

/// Finds what to write for a value that is an expression, or that follows another symbol than `=`.
fn find_value(finding: &mut Finding, spot: &Spot<'_>) -> bool {
    let Some(sign) = sign_before(spot) else {
        return false;
    };
    let name = spot.word(sign.saturating_sub(1));
    let first = value_after(spot, sign);
    let value = value_text(spot, first);
    if !spot.is(sign, Kind::Equal) && is_plain(spot, first) {
        let title = match spot.kind(sign) {
            Some(Kind::Substitute) => "'<-' wants the name of a definition",
            _ => "an item gives its value by '='",
        };
        finding.say(spot.place(spot.at), &[title]);
        finding.hint(&["write ", name, " = ", value]);
    } else {
        say_expression(finding, spot, name, value);
    }
    true
}

/// Says how a constant gets the value of an expression.
fn say_expression(finding: &mut Finding, spot: &Spot<'_>, name: &str, value: &str) {
    finding.say(
        spot.place(spot.at),
        &["the value of ", name, " is an expression"],
    );
    let define = [
        "define ",
        name,
        "Value == ",
        value,
        " in the module, and write ",
    ];
    finding.hint_of(&define, &[name, " <- ", name, "Value here"]);
}

/// Whether a token is between the name and the value of an item: `=`, `==`, `<-`, or the `:` of `:=`.
fn is_sign(spot: &Spot<'_>, index: usize) -> bool {
    matches!(
        spot.kind(index),
        Some(Kind::Equal | Kind::Define | Kind::Substitute | Kind::Colon)
    )
}

/// The index of the symbol between the name and the value of the item that contains a token: in the line of the token,
/// or before a value that begins in that line.
fn sign_before(spot: &Spot<'_>) -> Option<usize> {
    let line = spot.place(spot.at).line;
    for count in 0..spot.tokens.len() {
        let index = spot.at.checked_sub(count)?;
        if is_sign(spot, index) && spot.kind(index.checked_sub(1)?) == Some(Kind::Name) {
            let first = value_after(spot, index);
            let is_here = spot.place(index).line == line || spot.place(first).line == line;
            return is_here.then_some(index);
        }
    }
    None
}

/// The index of the token with which the value after a symbol begins.
fn value_after(spot: &Spot<'_>, sign: usize) -> usize {
    let next = sign.saturating_add(1);
    if spot.is(sign, Kind::Colon) && spot.is(next, Kind::Equal) {
        next.saturating_add(1)
    } else {
        next
    }
}

/// The tokens of a value from its first on, up to the end of its line or the next item, and of further lines while a
/// bracket is open.
fn value_tokens<'a>(spot: &Spot<'a>, first: usize) -> &'a [Token] {
    let rest = spot.tokens.get(first..).unwrap_or(&[]);
    let line = spot.place(first).line;
    let mut deep: usize = 0;
    for (index, token) in rest.iter().enumerate() {
        let is_next = token.place.line != line || begins_item(spot, first.saturating_add(index));
        if deep == 0 && is_next {
            return rest.get(..index).unwrap_or(rest);
        }
        if opens_bracket(token.kind) {
            deep = deep.saturating_add(1);
        } else if closes_bracket(token.kind) {
            deep = deep.saturating_sub(1);
        }
    }
    rest
}

/// Whether the next item begins at a token: a name and its symbol, or the comma before them.
fn begins_item(spot: &Spot<'_>, index: usize) -> bool {
    let name = if spot.is(index, Kind::Comma) {
        index.saturating_add(1)
    } else {
        index
    };
    spot.is(name, Kind::Name) && is_sign(spot, name.saturating_add(1))
}

/// The text of a value, or `..` if it has several lines.
fn value_text<'a>(spot: &Spot<'a>, first: usize) -> &'a str {
    let text = written_value(spot, first);
    if text.contains("\n") { ".." } else { text }
}

fn written_value<'a>(spot: &Spot<'a>, first: usize) -> &'a str {
    let tokens = value_tokens(spot, first);
    let (Some(begin), Some(last)) = (tokens.first(), tokens.last()) else {
        return "";
    };
    let text = spot.text.get(begin.start..last.end).unwrap_or(&[]);
    str::from_utf8(text).unwrap_or("")
}

/// Whether a value is just a number, a string, a name or a truth value, or a set of these.
fn is_plain(spot: &Spot<'_>, first: usize) -> bool {
    value_tokens(spot, first).iter().all(|token| {
        matches!(
            token.kind,
            Kind::Digits
                | Kind::Text
                | Kind::True
                | Kind::False
                | Kind::LeftBrace
                | Kind::RightBrace
                | Kind::Comma
                | Kind::Name
        )
    })
}
