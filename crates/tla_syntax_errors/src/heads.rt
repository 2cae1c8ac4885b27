//! Names that begin a unit unintentionally, and heads of definitions.

use crate::cases;
use crate::kinds::ends_operand;
use crate::names::{is_form, near_reserved};
use crate::unexpected::show_wanted;
use std::alloc::{AllocError, Global};
use tla_finding::finding::Finding;
use tla_finding::spot::Spot;
use tla_hints::{
    BACKSLASHED, LEFT_OUT, Open, STATEMENTS, closes_bracket, command_meant, form_cure,
    innermost_open, meant, opens_bracket, statement_cure, word_meant,
};
use tla_lex::{Kind, Token};
use tla_parse::parse_module;

/// The index of the first token of a module's units, after its name and a separator.
const FIRST_UNIT: usize = 2;

/// A name that begins a unit or a definition of LET, and where the first unit or definition begins.
#[derive(Clone, Copy)]
struct Head {
    from: usize,
    at: usize,
}

/// Finds what is missing at the name that begins a unit, or a definition of LET, and that the token can't follow.
/// Returns whether there is such a name.
pub(crate) fn find(finding: &mut Finding, spot: &Spot<'_>, open: Option<Open>) -> bool {
    match open_head(finding.alloc(), spot, open) {
        Ok(Some(head)) => {
            say_parameters(finding, spot, head);
            return true;
        }
        Ok(None) => {}
        Err(_) => finding.refuse(),
    }
    match head_of(finding.alloc(), spot) {
        Ok(Some(head)) => {
            say(finding, spot, head);
            true
        }
        Ok(None) => false,
        Err(_) => {
            finding.refuse();
            false
        }
    }
}

/// The name that begins a unit and whose parameters are open.
fn open_head(
    alloc: Global,
    spot: &Spot<'_>,
    open: Option<Open>,
) -> Result<Option<Head>, AllocError> {
    let index = open.and_then(|open| spot.index_at(open.token.place));
    let Some(at) = index.and_then(|index| index.checked_sub(1)) else {
        return Ok(None);
    };
    let from = FIRST_UNIT;
    if from <= at && spot.is(at, Kind::Name) && are_units(alloc, spot, from, at)? {
        Ok(Some(Head { from, at }))
    } else {
        Ok(None)
    }
}

/// Says what is wrong in the parameters of a definition.
fn say_parameters(finding: &mut Finding, spot: &Spot<'_>, head: Head) {
    let name = spot.word(head.at);
    let place = spot.place(head.at);
    if spot.is(spot.at, Kind::RightParen) && spot.back(1) == Some(Kind::LeftParen) {
        finding.say(
            spot.place(spot.at),
            &["no parameter in the parentheses of '", name, "'"],
        );
        finding.hint(&["write ", name, " == .., without parentheses"]);
    } else if defines_later(spot, place.line) {
        finding.say(
            spot.place(spot.at),
            &["a parameter of '", name, "' is a name"],
        );
        finding.hint(&[
            "write ",
            name,
            "(a, b) == .., or ",
            name,
            "[x \\in S] == .. for a function",
        ]);
    } else if spot.begins_line(head.at) {
        finding.say(place, &["'==' is missing after '", name, "'"]);
        finding.hint(&["a definition is written ", name, " == .."]);
    } else {
        say_operator(finding, spot, head.at, None);
    }
}

/// The name that begins a unit and comes, with its parameters, right before this token.
fn head_of(alloc: Global, spot: &Spot<'_>) -> Result<Option<Head>, AllocError> {
    let (Some(from), Some(at)) = (region(alloc, spot)?, name_before(spot)) else {
        return Ok(None);
    };
    if from <= at && are_units(alloc, spot, from, at)? {
        Ok(Some(Head { from, at }))
    } else {
        Ok(None)
    }
}

/// Where the units begin, or the definitions of the open LET; none if something else is open.
fn region(alloc: Global, spot: &Spot<'_>) -> Result<Option<usize>, AllocError> {
    let Some(open) = innermost_open(alloc, spot.tokens, spot.place(spot.at))? else {
        return Ok(Some(FIRST_UNIT));
    };
    if open.token.kind != Kind::Let {
        return Ok(None);
    }
    match spot.index_at(open.token.place) {
        Some(index) => Ok(index.checked_add(1)),
        None => Ok(None),
    }
}

/// The name that, with its parameters, is right before this token: `x`, `Op(a, b)` or `f[x \in S]`.
pub(crate) fn name_before(spot: &Spot<'_>) -> Option<usize> {
    let last = spot.at.checked_sub(1)?;
    match spot.kind(last)? {
        Kind::Name => Some(last),
        Kind::RightParen | Kind::RightBracket => {
            let name = opening_of(spot, last)?.checked_sub(1)?;
            spot.is(name, Kind::Name).then_some(name)
        }
        _ => None,
    }
}

/// The index of the bracket that the one at this index closes.
fn opening_of(spot: &Spot<'_>, closing: usize) -> Option<usize> {
    let mut deep: usize = 0;
    for count in 0..spot.tokens.len() {
        let index = closing.checked_sub(count)?;
        let kind = spot.kind(index)?;
        if closes_bracket(kind) {
            deep = deep.saturating_add(1);
        } else if opens_bracket(kind) {
            deep = deep.saturating_sub(1);
            if deep == 0 {
                return Some(index);
            }
        }
    }
    None
}

/// Whether the tokens from one index up to another are complete units. The only error is that memory ran out.
fn are_units(alloc: Global, spot: &Spot<'_>, from: usize, to: usize) -> Result<bool, AllocError> {
    let mut tokens: Vec<Token> = Vec::new(alloc);
    tokens.extend_from_slice(spot.tokens.get(..FIRST_UNIT).unwrap_or(&[]))?;
    tokens.extend_from_slice(spot.tokens.get(from..to).unwrap_or(&[]))?;
    if let Some(closing) = spot.tokens.last() {
        tokens.push(*closing)?;
    }
    Ok(parse_module(alloc, spot.text, &tokens).is_ok())
}

/// Says what is missing.
fn say(finding: &mut Finding, spot: &Spot<'_>, head: Head) {
    let name = spot.word(head.at);
    let place = spot.place(head.at);
    if let Some(cure) = form_cure(name) {
        finding.say(place, &["'", name, "' is left out of the language"]);
        finding.hint(&[cure]);
    } else if is_listed(spot, head) {
        say_comma(finding, spot, head.at);
    } else if name == "in" {
        say_in(finding, spot, head);
    } else if is_definition(spot, head) {
        say_definition(finding, spot, head);
    } else if let Some(meant) = word_meant(name) {
        finding.say(place, &["'", name, "' is no operator"]);
        finding.hint(&["write ", meant]);
    } else if !say_backslash(finding, spot, head.at) && !say_arm(finding, spot, head) {
        say_between(finding, spot, head);
    }
}

/// Says that an operator is missing before a name, or the IN of the LET before it.
fn say_between(finding: &mut Finding, spot: &Spot<'_>, head: Head) {
    let open = let_of(spot, head);
    say_operator(finding, spot, head.at, open);
    if let Some(open) = open {
        show_wanted(finding, open.token.place, "LET", "IN");
    }
}

/// The LET in which a name seems to begin a definition.
fn let_of(spot: &Spot<'_>, head: Head) -> Option<Open> {
    if head.from <= FIRST_UNIT {
        return None;
    }
    let token = spot.token(head.from.checked_sub(1)?)?;
    Some(Open {
        token,
        wanted: "IN",
    })
}

/// Says what to write for `in`: `\in`, or IN if a LET is before it.
fn say_in(finding: &mut Finding, spot: &Spot<'_>, head: Head) {
    if let Some(start) = small_let(spot, head.at) {
        finding.say(spot.place(start), &["'let' is no reserved word"]);
        finding.hint(&["write LET and IN in capital letters"]);
    } else {
        say_member(finding, spot, head.at, head.from > FIRST_UNIT);
    }
}

/// Says what to write for `in` or `not in`.
pub(crate) fn say_member(finding: &mut Finding, spot: &Spot<'_>, at: usize, is_in_let: bool) {
    let before = at.saturating_sub(1);
    if spot.word(before) == "not" {
        finding.say(spot.place(before), &["'not in' is no operator"]);
        finding.hint(&["write \\notin"]);
    } else {
        finding.say(spot.place(at), &["'in' is no operator"]);
        finding.hint(&["write ", if is_in_let { "IN" } else { "\\in" }]);
    }
}

/// The `let` in small letters before a token, in the same unit.
fn small_let(spot: &Spot<'_>, at: usize) -> Option<usize> {
    for count in 1..spot.tokens.len() {
        let index = at.checked_sub(count)?;
        if spot.is(index, Kind::Name) && spot.word(index).eq_ignore_ascii_case("let") {
            return Some(index);
        }
        if begins_unit_line(spot, index) {
            return None;
        }
    }
    None
}

/// Whether a token begins its line, no further to the right than the first unit.
pub(crate) fn begins_unit_line(spot: &Spot<'_>, at: usize) -> bool {
    spot.begins_line(at) && spot.place(at).column <= spot.place(FIRST_UNIT).column
}

/// Whether the innermost open token before a token is a LET.
pub(crate) fn is_in_let(finding: &mut Finding, spot: &Spot<'_>) -> bool {
    match innermost_open(finding.alloc(), spot.tokens, spot.place(spot.at)) {
        Ok(open) => open.is_some_and(|open| open.token.kind == Kind::Let),
        Err(_) => {
            finding.refuse();
            false
        }
    }
}

/// Says that `[]` is missing before an arm of CASE.
fn say_arm(finding: &mut Finding, spot: &Spot<'_>, head: Head) -> bool {
    let first = Spot {
        at: head.at,
        ..*spot
    };
    cases::find_arm(finding, &first)
}

/// Whether a definition was meant: a name begins its line, no further to the right than the first unit or definition,
/// or `=` follows it in a LET.
fn is_definition(spot: &Spot<'_>, head: Head) -> bool {
    let first = spot.place(head.from).column;
    let is_own_line = spot.begins_line(head.at) && spot.place(head.at).column <= first;
    is_own_line || (head.from > FIRST_UNIT && spot.is(spot.at, Kind::Equal))
}

/// Whether a symbol is in the head of an infix definition: its line has one token before it, and `==` after it.
pub(crate) fn is_infix_definition(spot: &Spot<'_>, sign: usize) -> bool {
    spot.begins_line(sign.saturating_sub(1)) && defines_later(spot, spot.place(sign).line)
}

/// Says that the operator before a name, with its backslash, is unknown.
pub(crate) fn say_backslash(finding: &mut Finding, spot: &Spot<'_>, at: usize) -> bool {
    let word = at.saturating_sub(1);
    let sign = at.saturating_sub(2);
    if !spot.is(sign, Kind::Difference) || !spot.touches_before(word) {
        return false;
    }
    if is_infix_definition(spot, sign) {
        return false;
    }
    let name = spot.word(word);
    let near = match meant(finding.alloc(), name, &BACKSLASHED) {
        Ok(near) => near,
        Err(_) => {
            finding.refuse();
            None
        }
    };
    match (command_meant(name), near) {
        (Some(meant), _) => finding.hint(&["write ", meant]),
        (None, Some(near)) => finding.hint(&["did you mean \\", near, "?"]),
        (None, None) => return false,
    }
    finding.say(spot.place(sign), &["'\\", name, "' is no operator"]);
    true
}

/// Whether a name continues the list of an EXTENDS, VARIABLE or CONSTANT.
fn is_listed(spot: &Spot<'_>, head: Head) -> bool {
    if spot.is(spot.at, Kind::Equal) || spot.is(spot.at, Kind::Colon) {
        return false;
    }
    let goes_on = !spot.begins_line(head.at) || spot.begins_line(spot.at);
    goes_on && begins_list(spot, head.at)
}

/// Whether only names, commas and placeholders of parameters are between a token and the EXTENDS, VARIABLE or CONSTANT
/// before it.
pub(crate) fn begins_list(spot: &Spot<'_>, at: usize) -> bool {
    for count in 1..spot.tokens.len() {
        let Some(kind) = at.checked_sub(count).and_then(|index| spot.kind(index)) else {
            return false;
        };
        match kind {
            Kind::Name | Kind::Comma | Kind::LeftParen | Kind::RightParen | Kind::Underscore => {}
            _ => return matches!(kind, Kind::Extends | Kind::Variable | Kind::Constant),
        }
    }
    false
}

/// Says that a comma is missing before a name of a list.
pub(crate) fn say_comma(finding: &mut Finding, spot: &Spot<'_>, at: usize) {
    let before = spot.word(at.saturating_sub(1));
    let name = spot.word(at);
    finding.say(
        spot.place(at),
        &["a comma is missing between '", before, "' and '", name, "'"],
    );
    finding.hint(&["write ", before, ", ", name]);
}

/// Says that a definition has no `==`.
fn say_definition(finding: &mut Finding, spot: &Spot<'_>, head: Head) {
    let name = head_text(spot, head);
    let place = spot.place(head.at);
    if say_statement(finding, spot, head.at) {
        return;
    }
    if spot.is(spot.at, Kind::Equal) {
        finding.say(spot.place(spot.at), &["'=' where a definition has '=='"]);
        finding.hint(&["write ", name, " == ..: = compares two values"]);
    } else if defines_later(spot, place.line) {
        say_infix(finding, spot, head);
    } else if let Some(open) = let_without_in(spot, head) {
        finding.say(place, &["'IN' is missing before this"]);
        show_wanted(finding, spot.place(open), spot.word(open), "IN");
    } else if !say_reserved(finding, spot, head.at) {
        finding.say(place, &["'==' is missing after '", name, "'"]);
        finding.hint(&["a definition is written ", name, " == .."]);
    }
}

/// Says that a word begins a statement of a configuration, not a unit.
fn say_statement(finding: &mut Finding, spot: &Spot<'_>, at: usize) -> bool {
    let word = spot.word(at);
    let is_statement = STATEMENTS.contains(&word) || LEFT_OUT.contains(&word);
    if is_statement {
        finding.say(
            spot.place(at),
            &["'", word, "' is a statement of the configuration"],
        );
        match statement_cure(word) {
            Some(cure) => finding.hint(&[cure]),
            None => finding.hint(&["write it there, where a formula is given by its name"]),
        }
    }
    is_statement
}

/// Says that a definition has its name between its operands, or a word before its name.
fn say_infix(finding: &mut Finding, spot: &Spot<'_>, head: Head) {
    let place = spot.place(head.at);
    if say_reserved(finding, spot, head.at) {
        return;
    }
    if spot.is(spot.at, Kind::Name) && spot.back(1) == Some(Kind::Name) {
        let word = spot.word(head.at);
        finding.say(place, &["'", word, "' begins no unit"]);
        finding.hint(&[
            "write ",
            spot.word(spot.at),
            " == .., without a word before it",
        ]);
    } else {
        finding.say(
            place,
            &["the definition of an operator between its operands"],
        );
        finding.hint(&["write Op(a, b) == .., and Op(a, b) where it is used"]);
    }
}

/// The LET whose body seems to begin at a name: left of its first definition, or with a prime.
fn let_without_in(spot: &Spot<'_>, head: Head) -> Option<usize> {
    let is_left = spot.place(head.at).column < spot.place(head.from).column;
    let is_body = head.from > FIRST_UNIT && (is_left || spot.is(spot.at, Kind::Prime));
    if is_body {
        head.from.checked_sub(1)
    } else {
        None
    }
}

/// Says that a name begins no unit, if it is near to a reserved word.
fn say_reserved(finding: &mut Finding, spot: &Spot<'_>, at: usize) -> bool {
    let name = spot.word(at);
    let Some(word) = reserved_near(finding, name) else {
        return false;
    };
    finding.say(spot.place(at), &["'", name, "' begins no unit"]);
    finding.hint(&["did you mean ", word, "?"]);
    hint_form(finding, word);
    true
}

/// Says what to write instead of a form, if it is one that isn't supported.
fn hint_form(finding: &mut Finding, word: &str) {
    if is_form(word)
        && let Some(cure) = form_cure(word)
    {
        finding.hint(&[cure]);
    }
}

/// A name with its parameters, as it is written.
fn head_text<'a>(spot: &Spot<'a>, head: Head) -> &'a str {
    let (Some(first), Some(next)) = (spot.token(head.at), spot.token(spot.at)) else {
        return "";
    };
    let text = spot.text.get(first.start..next.start).unwrap_or(&[]);
    str::from_utf8(text).unwrap_or("").trim()
}

/// Whether `==` follows this token in a line.
pub(crate) fn defines_later(spot: &Spot<'_>, line: u64) -> bool {
    let rest = spot.tokens.get(spot.at..).unwrap_or(&[]);
    rest.iter()
        .take_while(|token| token.place.line == line)
        .any(|token| token.kind == Kind::Define)
}

/// Says that an operator or a comma is missing before a token, or that something is still open.
pub(crate) fn say_operator(finding: &mut Finding, spot: &Spot<'_>, at: usize, open: Option<Open>) {
    let is_word = hint_words(finding, spot, at);
    let is_listed = !is_word && open.is_some_and(|open| is_list(spot, open));
    finding.place = spot.place(at);
    finding.title.put_text(if is_listed {
        "a comma, an operator"
    } else {
        "an operator"
    });
    if let Some(open) = open {
        finding.title.put(&[" or '", open.wanted, "'"]);
    }
    let before = spot.word(at.saturating_sub(1));
    let name = spot.word(at);
    finding
        .title
        .put(&[" is missing between '", before, "' and '", name, "'"]);
    if is_word || hint_shapes(finding, spot, at) {
        return;
    }
    if spot.begins_line(at) {
        finding.hint(&["between two conditions write /\\ or \\/"]);
    } else if open.is_none() {
        finding.hint(&["write the operator that belongs between them"]);
    }
}

/// Whether commas may be in the open bracket.
fn is_list(spot: &Spot<'_>, open: Open) -> bool {
    match open.token.kind {
        Kind::LeftBrace | Kind::LeftTuple | Kind::LeftBracket => true,
        Kind::LeftParen => {
            let index = spot.index_at(open.token.place);
            let before = index.and_then(|index| index.checked_sub(1));
            before.is_some_and(|before| spot.is(before, Kind::Name))
        }
        _ => false,
    }
}

/// Adds a hint on what the word before a token, or that token, was meant for. The word is a prefix operator if no
/// operand is before it.
fn hint_words(finding: &mut Finding, spot: &Spot<'_>, at: usize) -> bool {
    let before = spot.word(at.saturating_sub(1));
    let is_prefix = match at.checked_sub(2) {
        Some(index) => !spot.kind(index).is_some_and(ends_operand),
        None => true,
    };
    let is_hinted = if is_prefix {
        ask_reserved(finding, before) || hint_meant(finding, before)
    } else {
        hint_meant(finding, before) || ask_reserved(finding, before)
    };
    let name = spot.word(at);
    is_hinted || hint_meant(finding, name) || ask_reserved(finding, name)
}

fn hint_meant(finding: &mut Finding, name: &str) -> bool {
    let meant = word_meant(name);
    if let Some(meant) = meant {
        finding.help.put(&["hint: write ", meant]);
        finding.help.put(&[" for ", name, "\n"]);
    }
    meant.is_some()
}

fn ask_reserved(finding: &mut Finding, name: &str) -> bool {
    let word = reserved_near(finding, name);
    if let Some(word) = word {
        finding.ask(word, name);
        hint_form(finding, word);
    }
    word.is_some()
}

/// Adds a hint on what two adjacent names were meant for, by the tokens before them.
fn hint_shapes(finding: &mut Finding, spot: &Spot<'_>, at: usize) -> bool {
    let first = spot.word(at.saturating_sub(1));
    let second = spot.word(at);
    let lead = at.checked_sub(2).and_then(|index| spot.kind(index));
    match lead {
        Some(Kind::WeakFairness | Kind::StrongFairness) => {
            let sign = spot.word(at.saturating_sub(2));
            finding.hint(&["write ", sign, first, "(", second, ")"]);
            true
        }
        Some(Kind::Unchanged) => {
            finding.hint(&["write UNCHANGED <<", first, ", ", second, ">>"]);
            true
        }
        _ if first.ends_with("_") => {
            finding.hint(&["a subscript follows the bracket: [Next]_vars"]);
            true
        }
        _ => false,
    }
}

/// The reserved word that is near to a name.
fn reserved_near(finding: &mut Finding, name: &str) -> Option<&'static str> {
    match near_reserved(finding.alloc(), name) {
        Ok(word) => word,
        Err(_) => {
            finding.refuse();
            None
        }
    }
}
