//! Unknown names of a module.

use crate::reach::Definitions;
use std::alloc::{AllocError, Global};
use tla_config::Source;
use tla_finding::finding::Finding;
use tla_finding::spot::Spot;
use tla_hints::{
    LIBRARY, closes_bracket, command_meant, innermost_open, is_before, library_cure, meant,
    module_with, opens_bracket, plain_cure, word_meant,
};
use tla_lex::{Kind, Place, Token};
use tla_page::definitions::definition_at;
use tla_page::units::{Known, Role, extends, known_name};
use tla_tree::Unit;

/// Finds what was meant by an unknown name.
pub fn find(finding: &mut Finding, spot: &Spot<'_>, units: &[Unit], known: &[Known<'_>]) {
    let name = spot.word(spot.at);
    let is_found = find_defined(finding, spot, units, known)
        || find_backslashed(finding, spot)
        || find_in_modules(finding, spot);
    if is_found {
        return;
    }
    if spot.back(1) == Some(Kind::LeftBrace) && spot.ahead(1) == Some(Kind::Member) {
        finding.hint(&[
            "write {",
            name,
            " \\in S : p}, with ':' before the condition",
        ]);
    } else if is_bound_for_arrow(spot) {
        finding.hint(&[
            "write [",
            name,
            " \\in S |-> e]: [S -> T] is a set of functions",
        ]);
    } else if let Some(meant) = meant_here(spot) {
        finding.hint(&["write ", meant]);
    } else {
        hint_near(finding, spot, units, known);
    }
}

/// What to write for a word of another language, of fairness or of CASE.
fn meant_here(spot: &Spot<'_>) -> Option<&'static str> {
    let name = spot.word(spot.at);
    let is_called = spot.ahead(1) == Some(Kind::LeftParen);
    let is_arm = spot.back(1) == Some(Kind::Box) && spot.ahead(1) == Some(Kind::Arrow);
    if is_called && name == "WF" {
        Some("WF_vars(A)")
    } else if is_called && name == "SF" {
        Some("SF_vars(A)")
    } else if is_arm && is_default(name) {
        Some("OTHER")
    } else {
        word_meant(name)
    }
}

/// Whether a name is the word of other languages for OTHER.
fn is_default(name: &str) -> bool {
    name.eq_ignore_ascii_case("OTHER")
        || name.eq_ignore_ascii_case("OTHERWISE")
        || name.eq_ignore_ascii_case("DEFAULT")
}

/// Finds what was meant by a name with a backslash.
fn find_backslashed(finding: &mut Finding, spot: &Spot<'_>) -> bool {
    if spot.back(1) != Some(Kind::Difference) || !spot.touches_before(spot.at) {
        return false;
    }
    let name = spot.word(spot.at);
    let cure = if name == "not" && spot.ahead(1) == Some(Kind::Member) {
        Some("\\notin")
    } else {
        command_meant(name)
    };
    let Some(cure) = cure else {
        return false;
    };
    let sign = spot.place(spot.at.saturating_sub(1));
    finding.say(sign, &["'\\", name, "' is no operator"]);
    finding.hint(&["write ", cure]);
    true
}

/// Finds where an unknown name is defined.
fn find_defined(
    finding: &mut Finding,
    spot: &Spot<'_>,
    units: &[Unit],
    known: &[Known<'_>],
) -> bool {
    let name = spot.word(spot.at);
    let place = spot.place(spot.at);
    if definition_at(units, place) == name || is_in_its_let(finding, spot, name) {
        hint_recursion(finding, name);
        return true;
    }
    match known_name(known, name) {
        Some(later) => {
            say_later(finding, spot, units, known, &later);
            true
        }
        None => find_later_in_let(finding, spot, units),
    }
}

/// Says that a name is introduced after its use.
fn say_later(
    finding: &mut Finding,
    spot: &Spot<'_>,
    units: &[Unit],
    known: &[Known<'_>],
    later: &Known<'_>,
) {
    let name = spot.word(spot.at);
    let own = definition_at(units, spot.place(spot.at));
    if leads_back(finding, spot, known, name, own) {
        say_circle(finding, name, own);
    } else if matches!(later.role, Role::Variable | Role::Constant) {
        finding.hint(&["move the declaration of ", name, " above its use"]);
    } else {
        finding.hint(&["move the definition of ", name, " above its use"]);
    }
    finding.show_name(
        later.place,
        name,
        later.role.brought_in(),
        " here, below its use",
    );
}

fn say_circle(finding: &mut Finding, name: &str, own: &str) {
    finding.hint(&[
        "recursion is left out: ",
        name,
        " leads back to ",
        own,
        ". Write a definition for each depth, or let a variable carry the result from step to step",
    ]);
}

/// Whether a definition leads to another.
fn leads_back(
    finding: &mut Finding,
    spot: &Spot<'_>,
    known: &[Known<'_>],
    name: &str,
    own: &str,
) -> bool {
    let definitions = Definitions {
        text: spot.text,
        tokens: spot.tokens,
        known,
        statements: &[],
    };
    match definitions.leads_to(finding.alloc(), name, own) {
        Ok(leads) => leads,
        Err(_) => {
            finding.refuse();
            false
        }
    }
}

/// Finds where a name is defined further down in the same LET.
fn find_later_in_let(finding: &mut Finding, spot: &Spot<'_>, units: &[Unit]) -> bool {
    let name = spot.word(spot.at);
    let own = definition_at(units, spot.place(spot.at));
    let Some(place) = defined_later(spot, units, name, own) else {
        return false;
    };
    finding.hint(&["move the definition of ", name, " above its use"]);
    let texts = ["'", name, "' is defined here, below its use"];
    finding.show_beside(Source::Module, place, &texts);
    true
}

/// Where a name is defined after a token, in the same definition.
fn defined_later(spot: &Spot<'_>, units: &[Unit], name: &str, own: &str) -> Option<Place> {
    let first = spot.at.saturating_add(1);
    for (index, token) in spot.tokens.iter().enumerate().skip(first) {
        let is_name = token.kind == Kind::Name && spot.word(index) == name;
        if is_name && spot.is_head(index) {
            let is_here = definition_at(units, token.place) == own;
            return is_here.then_some(token.place);
        }
    }
    None
}

fn hint_recursion(finding: &mut Finding, name: &str) {
    finding.hint(&[
        "recursion is left out: ",
        name,
        " can't use itself. Write a definition for each depth, or let a variable carry the result from step to step",
    ]);
}

/// Whether a name is defined by the LET that is open at its use, that is, used in its own definition.
fn is_in_its_let(finding: &mut Finding, spot: &Spot<'_>, name: &str) -> bool {
    let open = match innermost_let(finding.alloc(), spot) {
        Ok(open) => open,
        Err(_) => {
            finding.refuse();
            return false;
        }
    };
    let Some(open) = open else {
        return false;
    };
    let before = spot.tokens.get(..spot.at).unwrap_or(&[]);
    for (index, token) in before.iter().enumerate() {
        if token.start > open.start && spot.word(index) == name && spot.is_head(index) {
            return true;
        }
    }
    false
}

/// The innermost LET that is open at a token. The only error is that memory ran out.
fn innermost_let(alloc: Global, spot: &Spot<'_>) -> Result<Option<Token>, AllocError> {
    let mut place = spot.place(spot.at);
    for _ in 0..spot.tokens.len() {
        match innermost_open(alloc, spot.tokens, place)? {
            Some(open) if open.token.kind == Kind::Let => return Ok(Some(open.token)),
            Some(open) => place = open.token.place,
            None => return Ok(None),
        }
    }
    Ok(None)
}

/// Finds the module that has a name, or what to write if that can't be extended.
fn find_in_modules(finding: &mut Finding, spot: &Spot<'_>) -> bool {
    let name = spot.word(spot.at);
    if let Some(module) = module_with(name.as_bytes()) {
        hint_module(finding, name, module);
        return true;
    }
    let cure = if spot.ahead(1) == Some(Kind::LeftParen) {
        library_cure(name)
    } else {
        plain_cure(name)
    };
    match cure {
        Some(cure) => {
            finding.hint(&[cure]);
            true
        }
        None => false,
    }
}

/// Says to which module a name belongs.
pub(crate) fn hint_module(finding: &mut Finding, name: &str, module: &str) {
    finding.hint(&[
        "'",
        name,
        "' is of ",
        module,
        ": write ",
        module,
        " under EXTENDS",
    ]);
}

/// Whether a name is bound as in `[x \in S -> e]`.
fn is_bound_for_arrow(spot: &Spot<'_>) -> bool {
    if spot.back(1) != Some(Kind::LeftBracket) || spot.ahead(1) != Some(Kind::Member) {
        return false;
    }
    let mut deep: usize = 0;
    for token in spot.tokens.get(spot.at..).unwrap_or(&[]) {
        if opens_bracket(token.kind) {
            deep = deep.saturating_add(1);
        } else if closes_bracket(token.kind) {
            if deep == 0 {
                return false;
            }
            deep = deep.saturating_sub(1);
        } else if deep == 0 && token.kind == Kind::Arrow {
            return true;
        }
    }
    false
}

/// Adds the nearest name in scope, or that the name has to be declared.
fn hint_near(finding: &mut Finding, spot: &Spot<'_>, units: &[Unit], known: &[Known<'_>]) {
    let name = spot.word(spot.at);
    let found = hint_known(finding, name, spot.place(spot.at), known)
        || hint_local(finding, spot, units, known)
        || hint_library(finding, name, units);
    if !found {
        finding.hint(&[
            "define ",
            name,
            " above its use, or declare it as a CONSTANT or a VARIABLE",
        ]);
        if spot.back(1) == Some(Kind::LeftBracket) && spot.ahead(1) == Some(Kind::Arrow) {
            finding.hint(&["a record is written [", name, " |-> e]"]);
        }
    }
}

/// Adds the nearest name that the units introduce before a place.
fn hint_known(finding: &mut Finding, name: &str, place: Place, known: &[Known<'_>]) -> bool {
    let near = match names_above(finding.alloc(), known, place) {
        Ok(names) => meant(finding.alloc(), name, &names),
        Err(error) => Err(error),
    };
    ask_near(finding, near)
}

/// Adds the nearest name before the place in the same definition.
fn hint_local(finding: &mut Finding, spot: &Spot<'_>, units: &[Unit], known: &[Known<'_>]) -> bool {
    let near = match local_names(finding.alloc(), spot, units, known) {
        Ok(names) => meant(finding.alloc(), spot.word(spot.at), &names),
        Err(error) => Err(error),
    };
    ask_near(finding, near)
}

/// Adds the nearest operator of the modules that can be extended, and its module.
fn hint_library(finding: &mut Finding, name: &str, units: &[Unit]) -> bool {
    let near = meant(finding.alloc(), name, &LIBRARY);
    let Ok(Some(other)) = near else {
        return ask_near(finding, near);
    };
    finding.hint(&["did you mean '", other, "'?"]);
    if let Some(module) = module_with(other.as_bytes())
        && !extends(units, module)
    {
        hint_module(finding, other, module);
    }
    true
}

/// Asks whether a name was meant, if one is near.
fn ask_near(finding: &mut Finding, near: Result<Option<&str>, AllocError>) -> bool {
    match near {
        Ok(Some(other)) => {
            finding.hint(&["did you mean '", other, "'?"]);
            true
        }
        Ok(None) => false,
        Err(_) => {
            finding.refuse();
            false
        }
    }
}

/// The names that the units introduce before a place, except those of assumptions.
fn names_above<'a>(
    alloc: Global,
    known: &[Known<'a>],
    place: Place,
) -> Result<Vec<&'a str>, AllocError> {
    let mut names = Vec::new(alloc);
    for one in known {
        if is_before(one.place, place) && one.role != Role::Assumption {
            names.push(one.name)?;
        }
    }
    Ok(names)
}

/// The names in the definition of a place that are before it.
fn local_names<'a>(
    alloc: Global,
    spot: &Spot<'a>,
    units: &[Unit],
    known: &[Known<'_>],
) -> Result<Vec<&'a str>, AllocError> {
    let mut names = Vec::new(alloc);
    let own = definition_at(units, spot.place(spot.at));
    let Some(defined) = known_name(known, own) else {
        return Ok(names);
    };
    let before = spot.tokens.get(..spot.at).unwrap_or(&[]);
    for (index, token) in before.iter().enumerate() {
        if token.kind == Kind::Name && is_before(defined.place, token.place) {
            names.push(spot.word(index))?;
        }
    }
    Ok(names)
}
