//! Forms that tlacheck doesn't support.

use tla_finding::finding::Finding;
use tla_finding::spot::Spot;
use tla_hints::{MODULES, form_cure, meant, module_cure};
use tla_lex::Kind;

/// Finds what to write instead of a form that isn't supported.
pub fn find(finding: &mut Finding, spot: &Spot<'_>, name: &str) {
    let place = spot.place(spot.at);
    if spot.is(spot.at, Kind::Bang) {
        return find_bang(finding, spot);
    }
    match form_cure(name) {
        Some(cure) => {
            let texts = match spot.kind(spot.at) {
                Some(Kind::ForAll | Kind::Exists | Kind::Choose) => ["'", name, "' without a set"],
                Some(Kind::Module) => ["a second ", name, " in a file"],
                _ => ["'", name, "' is left out of the language"],
            };
            finding.say(place, &texts);
            finding.hint(&[cure]);
        }
        None if is_extended(spot) => find_module(finding, spot, name),
        None => {
            finding.say(place, &["'", name, "' takes an operator as an argument"]);
            finding.hint(&[
                "write ",
                name,
                " out for each operator that it is used with",
            ]);
        }
    }
}

/// Finds what `!` was meant for.
fn find_bang(finding: &mut Finding, spot: &Spot<'_>) {
    let place = spot.place(spot.at);
    let next = spot.at.saturating_add(1);
    if spot.is(next, Kind::Equal) && spot.touches_before(next) {
        finding.say(place, &["'!=' is no operator"]);
        finding.hint(&["write # or /="]);
    } else if spot.back(1) == Some(Kind::Name) && spot.touches_before(spot.at) {
        let module = spot.word(spot.at.saturating_sub(1));
        finding.say(
            place,
            &["'", module, "!' names another module, which is left out"],
        );
        finding.hint(&[
            "copy the definition of ",
            spot.word(next),
            " into this module",
        ]);
    } else {
        finding.say(place, &["'!' is no operator here"]);
        finding.hint(&["write ~ for not, as in ~(a = b)"]);
    }
}

/// Whether a token is a name under EXTENDS.
fn is_extended(spot: &Spot<'_>) -> bool {
    if spot.back(1) == Some(Kind::Name) {
        return false;
    }
    for count in 1..spot.tokens.len() {
        match spot.back(count) {
            Some(Kind::Name | Kind::Comma) => {}
            Some(kind) => return kind == Kind::Extends,
            None => return false,
        }
    }
    false
}

/// Finds what to write instead of a module that can't be extended.
fn find_module(finding: &mut Finding, spot: &Spot<'_>, name: &str) {
    finding.say(
        spot.place(spot.at),
        &["the module '", name, "' can't be extended"],
    );
    if let Some(cure) = module_cure(name) {
        return finding.hint(&[cure]);
    }
    match meant(finding.alloc(), name, &MODULES) {
        Ok(Some(module)) => finding.hint(&["did you mean ", module, "?"]),
        Ok(None) => finding.hint(&[
            "copy the definitions of ",
            name,
            " that are used into this module: one file is read",
        ]),
        Err(_) => finding.refuse(),
    }
}
