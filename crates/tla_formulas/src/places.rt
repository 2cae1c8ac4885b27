//! Where the formulas of names in a configuration begin.

use tla_items::Items;
use tla_lex::Place;
use tla_tree::{Definition, Unit, Written};

/// The units of a module, and the items that replace names.
#[derive(Clone, Copy)]
pub struct Places<'t, 'a> {
    units: &'a [Unit],
    items: &'t Items<'a>,
}

/// Where the body of a definition begins, if this unit is the one of this name.
fn begins_in(unit: &Unit, name: &[u8]) -> Option<Place> {
    match unit {
        Unit::Operator(written, body)
        | Unit::Assume(_, Some(written), body)
        | Unit::Defines(Definition::Operator(written, _, body))
        | Unit::Local(_, Definition::Operator(written, _, body)) => {
            if written.word.as_bytes() == name {
                Some(body.place())
            } else {
                None
            }
        }
        Unit::Defines(Definition::Function(written, _, _))
        | Unit::Local(_, Definition::Function(written, _, _)) => {
            if written.word.as_bytes() == name {
                Some(written.place)
            } else {
                None
            }
        }
        _ => None,
    }
}

impl<'t, 'a> Places<'t, 'a> {
    /// Where formulas begin in these units, if the configuration has these items.
    pub fn of(units: &'a [Unit], items: &'t Items<'a>) -> Places<'t, 'a> {
        Places { units, items }
    }

    /// Where the formula of a name in the configuration begins.
    pub fn begins(&self, name: &Written) -> Place {
        let Some(meant) = self.items.stands_for(name.word.as_bytes()) else {
            return name.place;
        };
        let mut left = self.units;
        while let [first, rest @ ..] = left {
            if let Some(place) = begins_in(first, meant) {
                return place;
            }
            left = rest;
        }
        name.place
    }
}
