//! An action and its parts.

use std::alloc::{AllocError, Global};
use tla_core::{Core, Place};

/// An action, and which of its parts are searched for.
#[derive(Clone, Copy)]
pub struct Action<'a> {
    pub core: &'a Core,
    /// The places where the definitions of its module begin, in the order of the text.
    pub starts: &'a [Place],
    /// The parts to skip.
    pub skipped: &'a [ActionPart],
}

/// A part of an action.
#[derive(Clone, Copy, Debug, PartialEq, Eq)]
pub struct ActionPart {
    pub place: Place,
    /// The place of the innermost conjunction whose leading conjunct contains it.
    pub within: Option<Place>,
}

/// The parts of an action, each once, in the order in which they are read. The only error is that memory ran out.
pub fn action_parts(alloc: Global, action: Action<'_>) -> Result<Vec<ActionPart>, AllocError> {
    let mut parts = Vec::new(alloc);
    gather(action.core, None, action.starts, &mut parts)?;
    Ok(parts)
}

#[cycle(parted)]
fn gather(
    core: &Core,
    within: Option<Place>,
    starts: &[Place],
    parts: &mut Vec<ActionPart>,
) -> Result<(), AllocError> {
    match core {
        Core::Disjunction(_, disjuncts) => gather_all(disjuncts, within, starts, parts),
        Core::ForSome(_, _, body) | Core::Destructure(_, _, body) => {
            gather(body, within, starts, parts)
        }
        Core::Conjunction(place, conjuncts) => match leading_conjunct(*place, conjuncts, starts) {
            Some(index) => gather_at(conjuncts, index, *place, starts, parts),
            None => add(*place, within, parts),
        },
        _ => add(core.place(), within, parts),
    }
}

#[cycle(parted)]
fn gather_all(
    disjuncts: &[Core],
    within: Option<Place>,
    starts: &[Place],
    parts: &mut Vec<ActionPart>,
) -> Result<(), AllocError> {
    for disjunct in disjuncts {
        gather(disjunct, within, starts, parts)?;
    }
    Ok(())
}

/// Adds the parts of one conjunct of the conjunction at a place.
#[cycle(parted)]
fn gather_at(
    conjuncts: &[Core],
    index: usize,
    place: Place,
    starts: &[Place],
    parts: &mut Vec<ActionPart>,
) -> Result<(), AllocError> {
    match conjuncts.get(index) {
        Some(conjunct) => gather(conjunct, Some(place), starts, parts),
        None => Ok(()),
    }
}

/// Adds a part, unless it is there already.
fn add(place: Place, within: Option<Place>, parts: &mut Vec<ActionPart>) -> Result<(), AllocError> {
    let part = ActionPart { place, within };
    if !parts.contains(&part) {
        parts.push(part)?;
    }
    Ok(())
}

/// The leading conjunct of a conjunction, which contains its parts: the only one with primed variables that branches
/// (is a disjunction or a `\E`, or contains such a conjunct). If none branches: the only one with primed variables, if
/// it belongs to another definition.
pub(crate) fn leading_conjunct(
    place: Place,
    conjuncts: &[Core],
    starts: &[Place],
) -> Option<usize> {
    match only_conjunct(conjuncts, true) {
        Found::One(index) => Some(index),
        Found::Many => None,
        Found::None => match only_conjunct(conjuncts, false) {
            Found::One(index) => {
                let called = conjuncts.get(index)?.place();
                if definition(called, starts) == definition(place, starts) {
                    None
                } else {
                    Some(index)
                }
            }
            Found::None | Found::Many => None,
        },
    }
}

/// No conjunct, exactly one, or several.
#[derive(Clone, Copy)]
enum Found {
    None,
    One(usize),
    Many,
}

/// The only conjunct with primed variables; with `branch`, the only one that branches.
#[cycle(leading_conjunct)]
fn only_conjunct(conjuncts: &[Core], branch: bool) -> Found {
    let mut found = Found::None;
    let mut index = 0usize;
    for conjunct in conjuncts {
        if (!branch || branches(conjunct)) && conjunct.is_primed() {
            found = match found {
                Found::None => Found::One(index),
                Found::One(_) | Found::Many => Found::Many,
            };
        }
        index = index.saturating_add(1);
    }
    found
}

/// Whether a part is a disjunction or a `\E`, or has such a conjunct.
#[cycle(leading_conjunct)]
fn branches(core: &Core) -> bool {
    match core {
        Core::Disjunction(_, _) | Core::ForSome(_, _, _) => true,
        Core::Conjunction(_, conjuncts) => matches!(only_conjunct(conjuncts, true), Found::One(_)),
        _ => false,
    }
}

/// The number of the definition that contains a place: how many begin at it or before it.
fn definition(place: Place, starts: &[Place]) -> usize {
    starts
        .iter()
        .filter(|start| !is_after(**start, place))
        .count()
}

/// Whether a place comes after another one.
fn is_after(place: Place, other: Place) -> bool {
    place.line > other.line || (place.line == other.line && place.column > other.column)
}
