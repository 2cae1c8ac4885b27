//! Wrong names in a configuration.

use crate::arguments::put_arguments;
use crate::configuration::find_misspelt;
use crate::unknown::hint_module;
use std::alloc::{AllocError, Global};
use tla_finding::finding::Finding;
use tla_finding::spot::Spot;
use tla_hints::{STATEMENTS, meant, module_with};
use tla_lex::Kind;
use tla_page::output::Output;
use tla_page::units::{Known, Role, known_name, words_of};

/// Finds what was meant by a name of a configuration that the module doesn't define.
pub fn find_unknown(finding: &mut Finding, spot: &Spot<'_>, known: &[Known<'_>]) {
    let name = spot.word(spot.at);
    let place = spot.place(spot.at);
    let alloc = finding.alloc();
    let Ok(names) = words_of(alloc, known) else {
        return finding.refuse();
    };
    if find_misspelt(finding, spot, &names) {
        return;
    }
    if let Some(module) = module_with(name.as_bytes()) {
        return say_library(finding, spot, module);
    }
    match known_name(known, name) {
        Some(one) => {
            say_role(finding, spot, &one);
            finding.show_name(one.place, name, one.role.brought_in(), " here");
        }
        None => hint_near(finding, spot, known),
    }
}

/// Says that a statement names an operator of a library module, or which module has to be extended for the name of an
/// item.
fn say_library(finding: &mut Finding, spot: &Spot<'_>, module: &str) {
    let name = spot.word(spot.at);
    if is_item(spot) || is_meaning(spot) {
        return hint_module(finding, name, module);
    }
    let what = ["'", name, "' is an operator of ", module];
    finding.say(spot.place(spot.at), &what);
    finding.title.put_text(", and no definition");
    hint_definition(finding, spot);
}

/// Hints at a definition to name instead.
fn hint_definition(finding: &mut Finding, spot: &Spot<'_>) {
    let before = if is_meaning(spot) {
        "<-"
    } else {
        statement_before(spot)
    };
    finding.hint(&[
        "write a definition in the module, and name that after ",
        before,
    ]);
}

/// Says that a name can't be used at its place, by its role.
fn say_role(finding: &mut Finding, spot: &Spot<'_>, one: &Known<'_>) {
    let place = spot.place(spot.at);
    if is_item(spot) {
        finding.say_what(place, one.name, one.role.noun(), ", and no constant");
        finding.hint(&[
            "only a CONSTANT or a definition gets a value here: remove the item, or declare ",
            one.name,
            " as a CONSTANT",
        ]);
    } else {
        finding.say_what(place, one.name, one.role.noun(), ", and no definition");
        hint_definition(finding, spot);
    }
}

/// The names of these roles.
fn names_of<'a>(
    alloc: Global,
    known: &[Known<'a>],
    roles: &[Role],
) -> Result<Vec<&'a str>, AllocError> {
    let mut names = Vec::new(alloc);
    for one in known {
        if roles.contains(&one.role) {
            names.push(one.name)?;
        }
    }
    Ok(names)
}

/// The keyword of the statement that contains a token.
pub(crate) fn statement_before<'a>(spot: &Spot<'a>) -> &'a str {
    let word = spot.word(statement_index(spot));
    if STATEMENTS.contains(&word) {
        word
    } else {
        "the statement"
    }
}

/// The index of the keyword of the statement that contains a token, or that of the first token.
pub(crate) fn statement_index(spot: &Spot<'_>) -> usize {
    for count in 0..spot.tokens.len() {
        let Some(index) = spot.at.checked_sub(count) else {
            return 0;
        };
        if STATEMENTS.contains(&spot.word(index)) {
            return index;
        }
    }
    0
}

/// Whether a token is the name of an item of CONSTANT, before `=` or `<-`.
fn is_item(spot: &Spot<'_>) -> bool {
    matches!(spot.ahead(1), Some(Kind::Equal | Kind::Substitute))
}

/// Whether a token is the name after the `<-` of an item.
fn is_meaning(spot: &Spot<'_>) -> bool {
    spot.back(1) == Some(Kind::Substitute)
}

/// Adds the nearest name of the module, or what is missing in the module.
fn hint_near(finding: &mut Finding, spot: &Spot<'_>, known: &[Known<'_>]) {
    let name = spot.word(spot.at);
    let alloc = finding.alloc();
    let of_items = is_item(spot);
    let wanted = if of_items {
        words_of(alloc, known)
    } else {
        names_of(alloc, known, &[Role::Operator, Role::Function])
    };
    let near = match wanted {
        Ok(names) => meant(alloc, name, &names),
        Err(error) => Err(error),
    };
    match near {
        Ok(Some(other)) => finding.hint(&["did you mean '", other, "'?"]),
        Ok(None) if of_items => finding.hint(&[
            "the module has no CONSTANT ",
            name,
            ": declare it there, or remove the item",
        ]),
        Ok(None) => finding.hint(&["define ", name, " in the module, or remove it here"]),
        Err(_) => finding.refuse(),
    }
}

/// Finds the operator with arguments that a statement names.
pub fn find_arguments(finding: &mut Finding, spot: &Spot<'_>, known: &[Known<'_>]) {
    let name = spot.word(spot.at);
    let Some(one) = known_name(known, name) else {
        return;
    };
    let mut title = Output::new(finding.alloc(), false);
    if is_item(spot) {
        title.put(&["'", name, "' takes "]);
        put_arguments(&mut title, one.arity);
        put_other(&mut title, spot, known);
        finding.hint(&["c <- Op wants an Op with as many parameters as c; c = value wants none"]);
    } else {
        title.put_text(statement_before(spot));
        title.put(&[" names ", name, ", which takes "]);
        put_arguments(&mut title, one.arity);
        finding.hint(&[
            "define one without parameters, as All == \\A x \\in S : ",
            name,
            "(x)",
        ]);
    }
    finding.title = title;
    finding.show_name(one.place, name, one.role.brought_in(), " here");
}

/// Adds how many arguments the operator takes by which an item replaces a name.
fn put_other(title: &mut Output, spot: &Spot<'_>, known: &[Known<'_>]) {
    let other = spot.word(spot.at.saturating_add(2));
    if spot.ahead(1) == Some(Kind::Substitute)
        && let Some(other) = known_name(known, other)
    {
        title.put(&[", and '", other.name, "' "]);
        title.put_number(other.arity as u128);
    }
}

/// Finds which statement of the behaviour is missing or superfluous.
pub fn find_behaviour(finding: &mut Finding, spot: Option<&Spot<'_>>, tokens: &Spot<'_>) {
    if let Some(spot) = spot {
        return say_second(finding, spot);
    }
    let has_init = has_word(tokens, "INIT");
    let has_next = has_word(tokens, "NEXT");
    let missing = match (has_init, has_next) {
        (true, _) => "NEXT is missing",
        (false, true) => "INIT is missing",
        (false, false) => "INIT and NEXT are missing",
    };
    finding.title.put_text(missing);
    finding.hint(&[
        "write INIT Init and NEXT Next with the names of the module, or SPECIFICATION Spec",
    ]);
}

/// Says that a statement of the behaviour is superfluous.
fn say_second(finding: &mut Finding, spot: &Spot<'_>) {
    let word = spot.word(spot.at);
    let before = Spot {
        tokens: spot.tokens.get(..spot.at).unwrap_or(&[]),
        ..*spot
    };
    if has_word(&before, word) {
        finding.say(spot.place(spot.at), &["a second ", word]);
        finding.hint(&["keep one of the two"]);
    } else {
        finding.say(spot.place(spot.at), &["a second behaviour: ", word]);
        finding.hint(&["keep INIT and NEXT, or SPECIFICATION, but not both"]);
    }
}

/// Finds the definition through which an item leads back to its own name.
pub fn find_circle(finding: &mut Finding, spot: &Spot<'_>, known: &[Known<'_>]) {
    let name = spot.word(spot.at);
    let other = spot.word(spot.at.saturating_add(2));
    finding.say(
        spot.place(spot.at),
        &["'", name, "' means ", other, ", which leads back to ", name],
    );
    finding.hint(&[
        "define ",
        other,
        " without ",
        name,
        ", and without names that lead to it",
    ]);
    if let Some(one) = known_name(known, other) {
        finding.show_name(one.place, other, one.role.brought_in(), " here");
    }
}

/// Says that a value exceeds the limits.
pub fn find_large(finding: &mut Finding, spot: &Spot<'_>) {
    let name = spot.word(spot.at);
    finding.say(
        spot.place(spot.at),
        &["the value of ", name, " is too large"],
    );
    finding.hint(&[
        "a number is from -9223372036854775808 to 9223372036854775807; a set has at most 1,000,000 elements, and is nested at most 64 deep",
    ]);
}

/// Whether a word is among the tokens.
pub(crate) fn has_word(spot: &Spot<'_>, word: &str) -> bool {
    for index in 0..spot.tokens.len() {
        if spot.word(index) == word {
            return true;
        }
    }
    false
}
