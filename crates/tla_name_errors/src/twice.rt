//! Names that are introduced twice.

use tla_config::Source;
use tla_finding::finding::Finding;
use tla_finding::spot::Spot;
use tla_hints::{is_before, module_with};
use tla_lex::{Kind, Place};
use tla_page::definitions::definition_at;
use tla_page::units::{Known, known_name};
use tla_tree::Unit;

/// Finds where a name of a module is introduced first.
pub fn find(finding: &mut Finding, spot: &Spot<'_>, units: &[Unit], known: &[Known<'_>]) {
    let name = spot.word(spot.at);
    let place = spot.place(spot.at);
    if is_field(spot, spot.at) {
        finding.say(place, &["the field '", name, "' twice"]);
        finding.hint(&["name each field once"]);
        return;
    }
    finding.say(place, &["'", name, "' has a meaning already"]);
    finding.hint(&["take another name: no name hides another"]);
    match first_of(spot, units, known) {
        Some(first) => {
            finding.show_beside(Source::Module, first, &["the first '", name, "' is here"]);
        }
        None => hint_library(finding, name),
    }
}

/// Says to which extended module a name belongs, if there is one.
fn hint_library(finding: &mut Finding, name: &str) {
    if let Some(module) = module_with(name.as_bytes()) {
        say_module(finding, name, module);
    }
}

fn say_module(finding: &mut Finding, name: &str, module: &str) {
    finding.hint(&["'", name, "' is an operator of ", module]);
}

/// Whether a token is a field of a record, or of a set of records.
fn is_field(spot: &Spot<'_>, at: usize) -> bool {
    let next = spot.kind(at.saturating_add(1));
    matches!(next, Some(Kind::MapsTo | Kind::Colon))
}

/// Where the name at a token is introduced before: by a unit, or in the same definition.
fn first_of(spot: &Spot<'_>, units: &[Unit], known: &[Known<'_>]) -> Option<Place> {
    let name = spot.word(spot.at);
    let place = spot.place(spot.at);
    if let Some(one) = known_name(known, name)
        && is_before(one.place, place)
    {
        return Some(one.place);
    }
    let own = known_name(known, definition_at(units, place))?;
    let before = spot.tokens.get(..spot.at)?;
    for (index, token) in before.iter().enumerate() {
        if is_before(own.place, token.place) && spot.word(index) == name {
            return Some(token.place);
        }
    }
    None
}

/// Finds the first item for a name of a configuration.
pub fn find_item(finding: &mut Finding, spot: &Spot<'_>) {
    let name = spot.word(spot.at);
    finding.say(spot.place(spot.at), &["a second value for '", name, "'"]);
    finding.hint(&["remove one of the two items"]);
    let before = spot.tokens.get(..spot.at).unwrap_or(&[]);
    for (index, token) in before.iter().enumerate() {
        let next = spot.kind(index.saturating_add(1));
        let is_item = matches!(next, Some(Kind::Equal | Kind::Substitute));
        if is_item && spot.word(index) == name {
            let texts = ["the first one is here"];
            return finding.show_beside(Source::Configuration, token.place, &texts);
        }
    }
}
