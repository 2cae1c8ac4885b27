//! Syntax errors of a configuration.

use crate::config_names::{has_word, statement_before, statement_index};
use crate::items;
use std::alloc::{AllocError, Global};
use tla_finding::characters;
use tla_finding::finding::Finding;
use tla_finding::spot::Spot;
use tla_hints::{LEFT_OUT, STATEMENTS, meant_within, statement_cure};
use tla_lex::{Kind, Place};

/// The greatest edit distance from a statement of a word in capital letters that begins a line.
const MOST_EDITS: usize = 2;

/// The statements that name formulas.
const FORMULAS: [&str; 7] = [
    "INIT",
    "NEXT",
    "SPECIFICATION",
    "INVARIANT",
    "INVARIANTS",
    "CONSTRAINT",
    "CONSTRAINTS",
];

/// The shortest word for which a nearest statement is searched.
const SHORTEST_WORD: usize = 3;

/// Finds why a token of a configuration is unexpected. `names` are those of the module.
pub fn find(finding: &mut Finding, spot: &Spot<'_>, names: &[&str]) {
    let is_found = find_unfinished(finding, spot)
        || find_misspelt(finding, spot, names)
        || find_sign(finding, spot)
        || items::find(finding, spot)
        || find_formula(finding, spot)
        || find_comment(finding, spot);
    if is_found {
        return;
    }
    let place = spot.place(spot.at);
    let word = spot.word(spot.at);
    let before = spot.word(spot.at.saturating_sub(1));
    if before == "CHECK_DEADLOCK" {
        finding.say(place, &["CHECK_DEADLOCK takes TRUE or FALSE"]);
        finding.hint(&["write CHECK_DEADLOCK FALSE, in capital letters"]);
    } else if is_statement(before) {
        finding.say(place, &["a name is missing after ", before]);
        finding.hint(&["name a definition of the module, or remove ", before]);
    } else if word == "CHECK_DEADLOCK" {
        finding.say(place, &["CHECK_DEADLOCK a second time"]);
        finding.hint(&["remove one of them"]);
    } else {
        finding.say(place, &["'", word, "' begins no statement"]);
        finding.hint(&[
            "the statements are INIT, NEXT, SPECIFICATION, INVARIANT, CONSTRAINT, CONSTANT and CHECK_DEADLOCK",
        ]);
    }
}

/// Finds a symbol between the keyword of a statement and its names.
fn find_sign(finding: &mut Finding, spot: &Spot<'_>) -> bool {
    let before = spot.word(spot.at.saturating_sub(1));
    let is_sign = matches!(
        spot.kind(spot.at),
        Some(Kind::Equal | Kind::Define | Kind::Colon | Kind::Substitute)
    );
    if !is_sign || !is_statement(before) {
        return false;
    }
    let sign = spot.word(spot.at);
    let rest = spot.rest_of_line(spot.at.saturating_add(1));
    finding.say(
        spot.place(spot.at),
        &["'", sign, "' after the word of a statement"],
    );
    finding.hint(&["write ", before, " ", rest, ", without '", sign, "'"]);
    true
}

/// Finds a formula, or a second name, in a statement that takes one name of a definition.
fn find_formula(finding: &mut Finding, spot: &Spot<'_>) -> bool {
    let Some(word) = formula_word(spot) else {
        return false;
    };
    let place = spot.place(spot.at);
    if spot.is(spot.at, Kind::Name) {
        finding.say(place, &["a second name after ", word]);
        finding.hint(&[word, " takes one name: define one formula of the two"]);
    } else if spot.is(spot.at, Kind::Comma) {
        finding.say(place, &["a comma after the name of ", word]);
        finding.hint(&["remove it: ", word, " takes one name"]);
    } else {
        finding.say(place, &[word, " takes a name, and no formula"]);
        hint_formula(finding, spot, word);
    }
    true
}

/// Says how to name a formula in a statement.
fn hint_formula(finding: &mut Finding, spot: &Spot<'_>, word: &str) {
    let name = if word == "INIT" {
        "Init"
    } else if word == "NEXT" {
        "Next"
    } else if word == "SPECIFICATION" {
        "Spec"
    } else {
        "Ok"
    };
    let formula = spot.rest_of_line(statement_index(spot).saturating_add(1));
    say_formula(finding, word, name, formula);
}

fn say_formula(finding: &mut Finding, word: &str, name: &str, formula: &str) {
    let define = [
        "define ",
        name,
        " == ",
        formula,
        " in the module, and write ",
    ];
    finding.hint_of(&define, &[word, " ", name, " here"]);
}

/// Finds what is missing in the item before a statement: a closing bracket, or its value.
fn find_unfinished(finding: &mut Finding, spot: &Spot<'_>) -> bool {
    if !is_statement(spot.word(spot.at)) {
        return false;
    }
    if matches!(spot.back(1), Some(Kind::Equal | Kind::Substitute)) {
        let sign = spot.word(spot.at.saturating_sub(1));
        finding.say(
            spot.place(spot.at),
            &["a value is missing before '", spot.word(spot.at), "'"],
        );
        finding.hint(&["write one after '", sign, "'"]);
        return true;
    }
    items::find_open(finding, spot, spot.place(spot.at))
}

/// The keyword of the statement that takes a formula, if a name is before the token in its line.
fn formula_word<'a>(spot: &Spot<'a>) -> Option<&'a str> {
    let word = statement_before(spot);
    let is_formula = FORMULAS.contains(&word);
    let is_after_name = matches!(spot.back(1), Some(Kind::Name | Kind::Prime));
    let goes_on = is_after_name && !spot.begins_line(spot.at);
    (is_formula && goes_on).then_some(word)
}

/// Finds a comment of another language, or a module instead of a configuration.
fn find_comment(finding: &mut Finding, spot: &Spot<'_>) -> bool {
    let place = spot.place(spot.at);
    let word = spot.word(spot.at);
    if spot.is(spot.at, Kind::Separator) {
        finding.say(place, &["this begins a module, and no configuration"]);
        finding.hint(&["name the module first, and the configuration second"]);
        return true;
    }
    let is_comment = word == "--" || word == "%" || word == "*";
    if !is_comment && !spot.is(spot.at, Kind::NotEqual) {
        return false;
    }
    finding.say(place, &["'", word, "' begins no comment"]);
    finding.hint(&["a comment begins with \\*"]);
    true
}

/// Finds what is missing where a configuration ends, or the character at which it can't be read.
pub fn find_end(finding: &mut Finding, spot: &Spot<'_>, place: Place, names: &[&str]) {
    let last = Spot {
        at: spot.tokens.len().saturating_sub(1),
        ..*spot
    };
    if find_misspelt(finding, &last, names) {
        return;
    }
    if characters::find_unread(finding, spot.text, place) {
        return;
    }
    if items::find_end(finding, &last, place) {
        return;
    }
    let word = last.word(last.at);
    finding.say(place, &["something is missing after '", word, "'"]);
    if word == "CHECK_DEADLOCK" {
        finding.hint(&["write CHECK_DEADLOCK FALSE"]);
    } else if is_statement(word) {
        finding.hint(&["name a definition of the module, or remove ", word]);
    } else {
        finding.hint(&["write what follows, or remove it"]);
    }
}

/// Whether a word begins a supported statement.
fn is_statement(word: &str) -> bool {
    STATEMENTS.contains(&word)
}

/// Finds the misspelt keyword of a statement at a token, or among the names before it.
pub(crate) fn find_misspelt(finding: &mut Finding, spot: &Spot<'_>, names: &[&str]) -> bool {
    for count in 0..spot.tokens.len() {
        let Some(index) = spot.at.checked_sub(count) else {
            return false;
        };
        let word = spot.word(index);
        if count > 0 && is_statement(word) {
            return false;
        }
        let may_begin = count == 0 || spot.begins_line(index) || is_upper(word);
        let is_name = (&*names).contains(&word) || is_first_name(spot, index);
        let most = if spot.begins_line(index) && is_upper(word) {
            MOST_EDITS
        } else {
            0
        };
        if may_begin && !is_name && say_misspelt(finding, spot, index, most) {
            return true;
        }
    }
    false
}

/// Whether a token is the first name after the keyword of a statement.
fn is_first_name(spot: &Spot<'_>, index: usize) -> bool {
    match index.checked_sub(1) {
        Some(before) => is_statement(spot.word(before)),
        None => false,
    }
}

/// Whether a word has no lower-case letter.
fn is_upper(word: &str) -> bool {
    !word.as_bytes().iter().any(|b| b.is_ascii_lowercase())
}

/// The places of misspelt keywords of statements: each begins a line, and a name follows it. The only error is that
/// memory ran out.
pub fn misspelt_places(
    alloc: Global,
    spot: &Spot<'_>,
    names: &[&str],
) -> Result<Vec<Place>, AllocError> {
    let mut places = Vec::new(alloc);
    for index in 0..spot.tokens.len() {
        let word = spot.word(index);
        let is_name = (&*names).contains(&word) || is_first_name(spot, index);
        if !is_name
            && begins_names(spot, index)
            && statement_near(alloc, word, MOST_EDITS)?.is_some()
        {
            places.push(spot.place(index))?;
        }
    }
    Ok(places)
}

/// Whether a word in capital letters begins a line, and a name or a truth value follows it.
fn begins_names(spot: &Spot<'_>, index: usize) -> bool {
    let is_before_name = matches!(
        spot.kind(index.saturating_add(1)),
        Some(Kind::Name | Kind::True | Kind::False)
    );
    let is_word = spot.is(index, Kind::Name) && is_upper(spot.word(index));
    is_before_name && is_word && spot.begins_line(index)
}

/// Says which statement was meant by a word, if it is near to one.
fn say_misspelt(finding: &mut Finding, spot: &Spot<'_>, index: usize, most: usize) -> bool {
    let word = spot.word(index);
    match statement_near(finding.alloc(), word, most) {
        Ok(Some(statement)) => {
            finding.say(spot.place(index), &["unknown statement '", word, "'"]);
            finding.hint(&["did you mean ", statement, "?"]);
            hint_left_out(finding, spot, statement);
            true
        }
        Ok(None) => false,
        Err(_) => {
            finding.refuse();
            false
        }
    }
}

/// Hints what to do about a statement that isn't supported.
pub fn hint_left_out(finding: &mut Finding, spot: &Spot<'_>, word: &str) {
    if word.starts_with("ACTION_CONSTRAINT") && has_word(spot, "SPECIFICATION") {
        finding.hint(&[
            "make it a conjunct: define Bounded == Next /\\ Limit, and write INIT Init and NEXT Bounded in place of SPECIFICATION",
        ]);
    } else if let Some(cure) = statement_cure(word) {
        finding.hint(&[cure]);
    }
}

/// The statement that is near to a word, ignoring case, with at most `most` edits, or more for a long word. The only
/// error is that memory ran out.
fn statement_near(
    alloc: Global,
    word: &str,
    most: usize,
) -> Result<Option<&'static str>, AllocError> {
    if is_statement(word) || word.len() < SHORTEST_WORD {
        return Ok(None);
    }
    for statement in STATEMENTS.iter().chain(LEFT_OUT.iter()) {
        if statement.eq_ignore_ascii_case(word) {
            return Ok(Some(*statement));
        }
    }
    if most > 0
        && let Some(statement) = begun_by(word)
    {
        return Ok(Some(statement));
    }
    let most = most.min(word.len() / 2);
    match meant_within(alloc, word, &STATEMENTS, most)? {
        Some(statement) => Ok(Some(statement)),
        None => meant_within(alloc, word, &LEFT_OUT, most),
    }
}

/// The first statement that begins with a word.
fn begun_by(word: &str) -> Option<&'static str> {
    for statement in STATEMENTS.iter().chain(LEFT_OUT.iter()) {
        if statement.starts_with(word) {
            return Some(*statement);
        }
    }
    None
}
