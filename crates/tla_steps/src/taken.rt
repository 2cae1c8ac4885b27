//! The parts of an action that are TRUE of a step.

use crate::action::{Action, ActionPart, leading_conjunct};
use crate::chosen::Taken;
use crate::walk::Walk;
use std::alloc::Global;
use tla_core::{Core, Fault, Opening, Place, memory};
use tla_eval::Partial;
use tla_value::State;

/// A step whose parts are searched for.
#[derive(Clone, Copy)]
struct Step<'a> {
    next: &'a Partial,
    action: Action<'a>,
    /// The innermost conjunction that the search entered.
    within: Option<Place>,
}

impl<'a> Step<'a> {
    /// The same step, inside the conjunction at a place.
    fn inside(&self, place: Place) -> Step<'a> {
        Step {
            next: self.next,
            action: self.action,
            within: Some(place),
        }
    }

    /// Whether a part is skipped.
    fn skips(&self, part: &Core) -> bool {
        self.action.skipped.contains(&ActionPart {
            place: part.place(),
            within: self.within,
        })
    }
}

/// The next values of a step to a state. The only error is that memory ran out.
pub fn next_values(alloc: Global, state: &State) -> Result<Partial, Fault> {
    let values = state.values();
    let mut next = Partial::unset(alloc, values.len())?;
    for (variable, value) in values.iter().enumerate() {
        let Ok(copy) = value.copy(alloc) else {
            return Err(memory());
        };
        if variable < next.variables() {
            next.set(variable, copy);
        }
    }
    Ok(next)
}

/// The parts of an action that are TRUE of a step, in the order of the text, with at most `budget` evaluations. A part
/// that faults isn't TRUE. The only error is that memory ran out.
pub fn taken_parts(
    alloc: Global,
    action: Action<'_>,
    now: &State,
    next: &Partial,
    budget: &mut u64,
) -> Result<Vec<Taken>, Fault> {
    let step = Step {
        next,
        action,
        within: None,
    };
    let mut walk = Walk::new(alloc, Some(now), *budget);
    let mut found = Vec::new(alloc);
    let outcome = find_taken(action.core, &step, &mut walk, &mut found);
    *budget = walk.budget();
    outcome?;
    Ok(found)
}

/// Finds the parts under disjunctions and `\E` that are TRUE.
#[cycle(taken)]
fn find_taken(
    part: &Core,
    step: &Step<'_>,
    walk: &mut Walk<'_>,
    found: &mut Vec<Taken>,
) -> Result<(), Fault> {
    match part {
        Core::Disjunction(_, parts) => find_in_disjuncts(parts, step, walk, found),
        Core::ForSome(place, set, body) => find_by_element(body, set, *place, step, walk, found),
        Core::Destructure(place, openings, body) => {
            find_by_items(body, openings, *place, step, walk, found)
        }
        Core::Conjunction(place, conjuncts) => {
            let Some(index) = leading_conjunct(*place, conjuncts, step.action.starts) else {
                return add_if_true(part, step, walk, found);
            };
            let count = found.len();
            find_at(conjuncts, index, &step.inside(*place), walk, found)?;
            if found.len() > count && walk.truth(part, step.next)? != Some(true) {
                found.truncate(count);
            }
            Ok(())
        }
        _ => add_if_true(part, step, walk, found),
    }
}

#[cycle(taken)]
fn find_in_disjuncts(
    parts: &[Core],
    step: &Step<'_>,
    walk: &mut Walk<'_>,
    found: &mut Vec<Taken>,
) -> Result<(), Fault> {
    for part in parts {
        find_taken(part, step, walk, found)?;
    }
    Ok(())
}

#[cycle(taken)]
fn find_by_element(
    body: &Core,
    set: &Core,
    place: Place,
    step: &Step<'_>,
    walk: &mut Walk<'_>,
    found: &mut Vec<Taken>,
) -> Result<(), Fault> {
    let Some(elements) = walk.elements(set, step.next)? else {
        return Ok(());
    };
    let count = walk.len();
    for element in elements {
        walk.bind(place, element)?;
        let outcome = find_taken(body, step, walk, found);
        walk.truncate(count);
        outcome?;
    }
    Ok(())
}

/// Searches the body under the items of destructured elements, if each element fits its pattern.
#[cycle(taken)]
fn find_by_items(
    body: &Core,
    openings: &[Opening],
    place: Place,
    step: &Step<'_>,
    walk: &mut Walk<'_>,
    found: &mut Vec<Taken>,
) -> Result<(), Fault> {
    let count = walk.len();
    if !walk.open(place, openings)? {
        return Ok(());
    }
    let outcome = find_taken(body, step, walk, found);
    walk.truncate(count);
    outcome
}

/// Finds the parts of one conjunct.
#[cycle(taken)]
fn find_at(
    conjuncts: &[Core],
    index: usize,
    step: &Step<'_>,
    walk: &mut Walk<'_>,
    found: &mut Vec<Taken>,
) -> Result<(), Fault> {
    match conjuncts.get(index) {
        Some(conjunct) => find_taken(conjunct, step, walk, found),
        None => Ok(()),
    }
}

fn add_if_true(
    part: &Core,
    step: &Step<'_>,
    walk: &mut Walk<'_>,
    found: &mut Vec<Taken>,
) -> Result<(), Fault> {
    if !step.skips(part) && walk.truth(part, step.next)? == Some(true) {
        add(part, step, walk, found)?;
    }
    Ok(())
}

fn add(part: &Core, step: &Step<'_>, walk: &Walk<'_>, found: &mut Vec<Taken>) -> Result<(), Fault> {
    found.push(Taken {
        place: part.place(),
        within: step.within,
        chosen: walk.bound_choices()?,
    })?;
    Ok(())
}
