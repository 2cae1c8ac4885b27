//! Further unknown names after the first.

use crate::arguments::given_arguments;
use crate::statements::{config_of, formulas_named, item_name, items_of};
use std::alloc::{AllocError, Global};
use tla_config::{DefsCode, Statement};
use tla_finding::spot::Spot;
use tla_hints::module_with;
use tla_lex::Place;
use tla_names::variables;
use tla_page::output::Output;
use tla_page::units::{Known, Role, known_name, known_names, text_of};
use tla_tree::{Declaration, Unit, Word, Written};

/// How many names are reported after the first.
pub const MOST_NAMES: usize = 9;

/// The places of the names that would be unknown in a module if the first unknown one were known, each name once: at
/// most one more than are reported. The only error is that memory ran out.
pub fn unknown_places(
    alloc: Global,
    spot: &Spot<'_>,
    units: Vec<Unit>,
) -> Result<Vec<Place>, AllocError> {
    let mut places = Vec::new(alloc);
    let mut left = units;
    let mut last = *spot;
    for _ in 0..MOST_NAMES.saturating_add(1) {
        left = with_known(alloc, left, &last)?;
        let Some(place) = unknown_place(alloc, &left) else {
            break;
        };
        let Some(next) = Spot::of(spot.text, spot.tokens, place) else {
            break;
        };
        places.push(place)?;
        last = next;
    }
    drop(left);
    Ok(places)
}

/// The places of the names in statements of a configuration that aren't names of these units, each name once, except
/// those that were reported. The only error is that memory ran out.
pub fn unknown_statements(
    alloc: Global,
    configuration: &[u8],
    units: &[Unit],
    reported: &[&str],
) -> Result<Vec<Place>, AllocError> {
    let Some(config) = config_of(alloc, configuration) else {
        return Ok(Vec::new(alloc));
    };
    let places = unknown_among(alloc, reported, units, config.statements());
    drop(config);
    places
}

/// The places of the names in these statements that aren't names of these units.
fn unknown_among(
    alloc: Global,
    reported: &[&str],
    units: &[Unit],
    statements: &[Statement],
) -> Result<Vec<Place>, AllocError> {
    let known = known_names(alloc, units)?;
    let mut places = unknown_items(alloc, reported, &known, statements)?;
    for one in unknown_formulas(alloc, reported, &known, statements)? {
        places.push(one)?;
    }
    Ok(places)
}

/// The places of the items for names that the module doesn't have, each name once.
fn unknown_items(
    alloc: Global,
    reported: &[&str],
    known: &[Known<'_>],
    statements: &[Statement],
) -> Result<Vec<Place>, AllocError> {
    let mut places = Vec::new(alloc);
    let mut met = Vec::new(alloc);
    for item in items_of(alloc, statements)? {
        let written = item_name(item);
        let name = text_of(written);
        let is_met = (&*reported).contains(&name) || met.contains(&name);
        let is_known = known_name(known, name).is_some() || module_with(name.as_bytes()).is_some();
        if !is_met && !is_known {
            met.push(name)?;
            places.push(written.place)?;
        }
    }
    Ok(places)
}

/// The places of the names of formulas in statements that are no definitions, each name once.
fn unknown_formulas(
    alloc: Global,
    reported: &[&str],
    known: &[Known<'_>],
    statements: &[Statement],
) -> Result<Vec<Place>, AllocError> {
    let mut places = Vec::new(alloc);
    let mut met = Vec::new(alloc);
    for one in formulas_named(alloc, statements)? {
        let is_met = (&*reported).contains(&one.name) || met.contains(&one.name);
        if !is_met && !is_definition(known, one.name) {
            met.push(one.name)?;
            places.push(one.place)?;
        }
    }
    Ok(places)
}

/// The other constants without a value, separated by commas; empty if there are none. The only error is that memory ran
/// out.
pub fn other_constants(
    alloc: Global,
    known: &[Known<'_>],
    configuration: &[u8],
    first: &str,
) -> Result<Output, AllocError> {
    let mut list = Output::new(alloc, false);
    let Some(config) = config_of(alloc, configuration) else {
        return Ok(list);
    };
    for one in known {
        let is_other = one.role == Role::Constant && one.name != first;
        if is_other && !has_item(alloc, config.statements(), one.name)? {
            list.put_text(if list.is_empty() { "" } else { ", " });
            list.put_text(one.name);
        }
    }
    drop(config);
    Ok(list)
}

/// Whether there is an item for a name.
fn has_item(alloc: Global, statements: &[Statement], name: &str) -> Result<bool, AllocError> {
    for item in items_of(alloc, statements)? {
        if text_of(item_name(item)) == name {
            return Ok(true);
        }
    }
    Ok(false)
}

fn is_definition(known: &[Known<'_>], name: &str) -> bool {
    match known_name(known, name) {
        Some(one) => !matches!(one.role, Role::Variable | Role::Constant),
        None => false,
    }
}

/// The place of the first unknown name of units, if it is the first error.
fn unknown_place(alloc: Global, units: &[Unit]) -> Option<Place> {
    let error = variables(alloc, units).err()?;
    if error.code == DefsCode::UnknownName {
        error.place
    } else {
        None
    }
}

/// These units, changed so that the name at a token is known: its module is extended, or it is declared
/// and no longer defined.
fn with_known(alloc: Global, units: Vec<Unit>, spot: &Spot<'_>) -> Result<Vec<Unit>, AllocError> {
    let name = spot.word(spot.at);
    let mut all = Vec::new(alloc);
    match module_with(name.as_bytes()) {
        Some(module) => all.push(extends_unit(alloc, spot, module)?)?,
        None => all.push(constant_unit(alloc, spot)?)?,
    }
    for unit in units {
        if brings_in(alloc, &unit, name)? {
            drop(unit);
        } else {
            all.push(unit)?;
        }
    }
    Ok(all)
}

/// Whether a unit introduces a name.
fn brings_in(alloc: Global, unit: &Unit, name: &str) -> Result<bool, AllocError> {
    let known: Vec<Known<'_>> = known_names(alloc, std::slice::from_ref(unit))?;
    Ok(known.iter().any(|one| one.name == name))
}

/// A unit that extends a module.
fn extends_unit(alloc: Global, spot: &Spot<'_>, module: &str) -> Result<Unit, AllocError> {
    let place = spot.place(spot.at);
    let mut names = Vec::new(alloc);
    names.push(written_at(alloc, place, module)?)?;
    Ok(Unit::Extends(place, names))
}

/// A unit that declares the name at a token, with as many arguments as it has there.
fn constant_unit(alloc: Global, spot: &Spot<'_>) -> Result<Unit, AllocError> {
    let place = spot.place(spot.at);
    let mut declarations = Vec::new(alloc);
    declarations.push(Declaration {
        name: written_at(alloc, place, spot.word(spot.at))?,
        arity: given_arguments(spot),
    })?;
    Ok(Unit::Constants(place, declarations))
}

fn written_at(alloc: Global, place: Place, name: &str) -> Result<Written, AllocError> {
    Ok(Written {
        place,
        word: Word::new(name.as_bytes().to_vec(alloc)?),
    })
}
