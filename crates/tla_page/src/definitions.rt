//! The definitions of a module.

use crate::places::core_place;
use std::alloc::{AllocError, Global};
use tla_hints::is_before;
use tla_lex::Place;
use tla_tree::{Definition, Unit, Written};

/// The name of the definition that contains a place, or the empty text.
pub fn definition_at(units: &[Unit], place: Place) -> &str {
    match unit_at(units, place) {
        Some(unit) => start_of(unit).0,
        None => "",
    }
}

/// The parameters of the definition that contains a place.
pub fn parameters_at(units: &[Unit], place: Place) -> &[Written] {
    match unit_at(units, place) {
        Some(
            Unit::Defines(Definition::Operator(_, parameters, _))
            | Unit::Local(_, Definition::Operator(_, parameters, _)),
        ) => parameters.as_slice(),
        _ => &[],
    }
}

/// The unit that contains a place.
fn unit_at(units: &[Unit], place: Place) -> Option<&Unit> {
    let mut found = None;
    for unit in units {
        let (_, start) = start_of(unit);
        if is_before(place, start) {
            return found;
        }
        found = Some(unit);
    }
    found
}

/// Where the units of a module begin, in the order of the text.
pub fn definition_starts(
    alloc: Global,
    units: &[Unit],
) -> Result<Vec<tla_core::Place>, AllocError> {
    let mut starts = Vec::new(alloc);
    for unit in units {
        let (_, start) = start_of(unit);
        starts.push(core_place(start))?;
    }
    Ok(starts)
}

/// Where a unit begins, and the name that it defines; the empty text if it defines none.
fn start_of(unit: &Unit) -> (&str, Place) {
    match unit {
        Unit::Operator(name, _) => (text_of(name), name.place),
        Unit::Defines(definition) => {
            let name = name_of(definition);
            (text_of(name), name.place)
        }
        Unit::Local(place, definition) => (text_of(name_of(definition)), *place),
        Unit::Separator(place)
        | Unit::Extends(place, _)
        | Unit::Variables(place, _)
        | Unit::Constants(place, _)
        | Unit::Assume(place, _, _)
        | Unit::Theorem(place, _, _) => ("", *place),
    }
}

fn name_of(definition: &Definition) -> &Written {
    match definition {
        Definition::Operator(name, _, _) => name,
        Definition::Function(name, _, _) => name,
    }
}

fn text_of(written: &Written) -> &str {
    str::from_utf8(written.word.as_bytes()).unwrap_or("")
}
