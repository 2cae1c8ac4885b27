//! Errors in the formula of SPECIFICATION.

use crate::reach::Definitions;
use std::alloc::{AllocError, Global};
use tla_config::Source;
use tla_finding::finding::Finding;
use tla_hints::{closes_bracket, opens_bracket};
use tla_lex::{Kind, Place, Token};
use tla_page::output::Output;
use tla_page::places::word;
use tla_page::units::Role;

/// A part `[][A]_v`: its `[]`, and the tokens of the subscript.
#[derive(Clone, Copy)]
struct Step<'a> {
    token: Token,
    subscript: &'a [Token],
}

/// Finds why the formula of SPECIFICATION doesn't have the required form.
pub fn find<'a>(finding: &mut Finding, definitions: &Definitions<'a>, name: &'a str) {
    match steps_of(finding.alloc(), definitions, name) {
        Ok(steps) => find_by_steps(finding, definitions, name, &steps),
        Err(_) => finding.refuse(),
    }
}

/// Says that the formula of SPECIFICATION is a value, which an item at a place assigns to the name that it means.
pub fn say_value(finding: &mut Finding, name: &str, meant: &str, place: Place) {
    finding
        .title
        .put(&["SPECIFICATION names ", name, ", which is a value"]);
    let texts = ["CONSTANT gives ", meant, " a value here"];
    finding.show_beside(Source::Configuration, place, &texts);
    finding.hint(&["leave that item out: ", meant, " is defined in the module"]);
}

/// The parts `[][A]_v` of a definition and of those that it leads to. The only error is that memory ran out.
fn steps_of<'a>(
    alloc: Global,
    definitions: &Definitions<'a>,
    name: &'a str,
) -> Result<Vec<Step<'a>>, AllocError> {
    let mut steps = Vec::new(alloc);
    for reached in definitions.definitions_reached(alloc, name)? {
        let tokens = definitions.tokens_of(reached);
        for (index, pair) in tokens.windows(2).enumerate() {
            if let [token, next] = pair
                && token.kind == Kind::Box
                && next.kind == Kind::LeftBracket
            {
                let rest = tokens.get(index.saturating_add(1)..).unwrap_or(&[]);
                steps.push(Step {
                    token: *token,
                    subscript: subscript_of(rest),
                })?;
            }
        }
    }
    Ok(steps)
}

/// The subscript of the `[A]_v` with which tokens begin.
fn subscript_of(tokens: &[Token]) -> &[Token] {
    let rest = after_closing(tokens);
    match rest.first() {
        Some(token) if opens_bracket(token.kind) => {
            let after = after_closing(rest).len();
            rest.get(..rest.len().saturating_sub(after)).unwrap_or(rest)
        }
        Some(_) => rest.get(..1).unwrap_or(rest),
        None => rest,
    }
}

/// The tokens after the bracket that closes the one with which these begin.
fn after_closing(tokens: &[Token]) -> &[Token] {
    let mut deep: usize = 0;
    for (index, token) in tokens.iter().enumerate() {
        if opens_bracket(token.kind) {
            deep = deep.saturating_add(1);
        } else if closes_bracket(token.kind) {
            deep = deep.saturating_sub(1);
            if deep == 0 {
                return tokens.get(index.saturating_add(1)..).unwrap_or(&[]);
            }
        }
    }
    &[]
}

fn find_by_steps(
    finding: &mut Finding,
    definitions: &Definitions<'_>,
    name: &str,
    steps: &[Step<'_>],
) {
    match steps {
        [] => find_no_step(finding, definitions, name),
        [step] => find_in_step(finding, definitions, name, step),
        [_, second, ..] => {
            finding.title.put(&[
                "SPECIFICATION names ",
                name,
                ", which has two parts [][A]_v",
            ]);
            finding.hint(&["write one: [][A \\/ B]_vars"]);
            let place = second.token.place;
            finding.show_beside(Source::Module, place, &["the second one"]);
        }
    }
}

/// Says that a part `[][A]_v` is missing.
fn find_no_step(finding: &mut Finding, definitions: &Definitions<'_>, name: &str) {
    finding.title.put(&[
        "SPECIFICATION names ",
        name,
        ", which has no part [][Next]_vars",
    ]);
    let tokens = definitions.tokens_of(name);
    let has_brackets = tokens
        .iter()
        .any(|token| token.kind == Kind::RightBracketSubscript);
    if has_brackets {
        finding.hint(&["write [] before [Next]_vars: it holds at every step"]);
    } else if let Some(other) = specification_among(definitions) {
        finding.hint(&["did you mean SPECIFICATION ", other, "?"]);
    } else if primed_alone(tokens).is_some() {
        finding.hint(&["it is an action: write NEXT ", name, ", and INIT Init"]);
    } else if name == "Init" {
        finding.hint(&["write Spec == Init /\\ [][Next]_vars, and name that, or INIT and NEXT"]);
    } else {
        finding.hint(&[
            "write ",
            name,
            " == Init /\\ [][Next]_vars, or INIT and NEXT",
        ]);
    }
    show_defined(finding, name, tokens);
}

/// The first definition that has a part `[][A]_v` itself.
fn specification_among<'a>(definitions: &Definitions<'a>) -> Option<&'a str> {
    for one in definitions.known {
        let tokens = definitions.tokens_of(one.name);
        if one.role == Role::Operator && has_step(tokens) {
            return Some(one.name);
        }
    }
    None
}

/// Whether `[][` is among tokens.
fn has_step(tokens: &[Token]) -> bool {
    for pair in tokens.windows(2) {
        if let [token, next] = pair
            && token.kind == Kind::Box
            && next.kind == Kind::LeftBracket
        {
            return true;
        }
    }
    false
}

/// Says which variables are missing in the subscript, or which conjunct doesn't have the required form.
fn find_in_step(finding: &mut Finding, definitions: &Definitions<'_>, name: &str, step: &Step<'_>) {
    match uncovered_variables(finding.alloc(), definitions, step.subscript) {
        Ok(names) if names.is_empty() => find_conjunct(finding, definitions, name),
        Ok(names) => say_lacking(finding, name, step, &names),
        Err(_) => finding.refuse(),
    }
}

/// The variables that a subscript doesn't cover. The only error is out of memory.
fn uncovered_variables<'a>(
    alloc: Global,
    definitions: &Definitions<'a>,
    subscript: &[Token],
) -> Result<Vec<&'a str>, AllocError> {
    let mut covered = Vec::new(alloc);
    for token in subscript {
        let name = word(definitions.text, token);
        covered.push(name)?;
        for reached in definitions.definitions_reached(alloc, name)? {
            add_words(&mut covered, definitions, reached)?;
        }
    }
    let mut names = Vec::new(alloc);
    for one in definitions.known {
        if one.role == Role::Variable && !covered.contains(&one.name) {
            names.push(one.name)?;
        }
    }
    Ok(names)
}

fn add_words<'a>(
    words: &mut Vec<&'a str>,
    definitions: &Definitions<'a>,
    name: &str,
) -> Result<(), AllocError> {
    if !definitions.is_defined(name) {
        return Ok(());
    }
    for token in definitions.tokens_of(name) {
        words.push(word(definitions.text, token))?;
    }
    Ok(())
}

fn say_lacking(finding: &mut Finding, name: &str, step: &Step<'_>, names: &[&str]) {
    let mut list = Output::new(finding.alloc(), false);
    for (index, lacking) in names.iter().enumerate() {
        list.put_text(if index == 0 { "" } else { ", " });
        list.put_text(lacking);
    }
    let Ok(bytes) = list.bytes() else {
        return finding.refuse();
    };
    let lacked = str::from_utf8(bytes).unwrap_or("");
    finding.title.put(&["SPECIFICATION names ", name, ", whose subscript lacks "]);
    finding.title.put_text(lacked);
    finding.hint(&["the subscript of [][Next]_vars has to cover every variable"]);
    if let Some(first) = step.subscript.first() {
        let texts = ["the subscript lacks ", lacked];
        finding.show_beside(Source::Module, first.place, &texts);
    }
}

/// Says which conjunct is neither the initial predicate, nor `[][A]_v`, nor fairness.
fn find_conjunct(finding: &mut Finding, definitions: &Definitions<'_>, name: &str) {
    finding.title.put(&[
        "SPECIFICATION names ",
        name,
        ", which is not Init /\\ [][Next]_vars",
    ]);
    let tokens = definitions.tokens_of(name);
    for pair in tokens.windows(2) {
        if let [token, next] = pair
            && is_property(token.kind, next.kind)
        {
            finding.hint(&[
                "leave properties out of it: only WF_vars(A) and SF_vars(A) may follow",
            ]);
            finding.show_beside(Source::Module, token.place, &["a property"]);
            return;
        }
    }
    finding.hint(&["it is a conjunction of Init, without primes, one [][Next]_vars, and fairness"]);
    if let Some(place) = primed_alone(tokens) {
        let texts = ["a next value outside of [][Next]_vars"];
        finding.show_beside(Source::Module, place, &texts);
    } else if tokens.get(2).is_some_and(|token| token.kind == Kind::Box) {
        finding.hint(&["write Init /\\ before [][Next]_vars"]);
        show_defined(finding, name, tokens);
    } else {
        show_defined(finding, name, tokens);
    }
}

/// The place of the first prime or UNCHANGED outside of brackets.
fn primed_alone(tokens: &[Token]) -> Option<Place> {
    let mut deep: usize = 0;
    for token in tokens {
        if opens_bracket(token.kind) {
            deep = deep.saturating_add(1);
        } else if closes_bracket(token.kind) {
            deep = deep.saturating_sub(1);
        } else if deep == 0 && matches!(token.kind, Kind::Prime | Kind::Unchanged) {
            return Some(token.place);
        }
    }
    None
}

/// Shows the definition with these tokens.
fn show_defined(finding: &mut Finding, name: &str, tokens: &[Token]) {
    if let Some(first) = tokens.first() {
        finding.show_beside(
            Source::Module,
            first.place,
            &["'", name, "' is defined here"],
        );
    }
}

/// Whether a token begins a temporal property.
fn is_property(kind: Kind, next: Kind) -> bool {
    match kind {
        Kind::Diamond | Kind::LeadsTo => true,
        Kind::Box => next != Kind::LeftBracket,
        _ => false,
    }
}
