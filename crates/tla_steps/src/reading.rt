//! The part of an action at which its reading faults.

use crate::culprit::{Culprit, Hunt, accuse, hunt_in};
use std::alloc::Global;
use tla_core::{Core, Fault};
use tla_eval::Partial;
use tla_reading::is_unset;
use tla_value::State;

/// The node at which the reading of an action faults, if at most `budget` evaluations find it. The only error is that
/// memory ran out.
pub fn culprit_of_reading<'a>(
    alloc: Global,
    action: &'a Core,
    fault: &Fault,
    variables: usize,
    now: Option<&State>,
    budget: u64,
) -> Result<Option<Culprit<'a>>, Fault> {
    let unset = Partial::unset(alloc, variables)?;
    let mut hunt = Hunt::new(alloc, fault, now, budget);
    hunt_in_reading(action, &unset, &mut hunt)?;
    Ok(hunt.into_culprit())
}

/// Descends from a part whose reading faults.
#[cycle(reading)]
fn hunt_in_reading<'a>(
    part: &'a Core,
    from: &Partial,
    hunt: &mut Hunt<'a, '_>,
) -> Result<(), Fault> {
    if is_evaluated(part, from) {
        return hunt_in(part, from, hunt);
    }
    hunt.nodes.push(part)?;
    if !hunt_in_steps(part, from, hunt)? {
        accuse(part, from, hunt)?;
    }
    Ok(())
}

/// Whether a part is evaluated as a whole, not read part by part.
fn is_evaluated(part: &Core, from: &Partial) -> bool {
    match part {
        Core::Destructure(_, _, _) => false,
        Core::Conjunction(_, _)
        | Core::Disjunction(_, _)
        | Core::ForAll(_, _, _)
        | Core::ForSome(_, _, _)
        | Core::If(_, _, _, _)
        | Core::Cases(_, _, _) => !part.is_primed(),
        Core::Equal(_, left, _) | Core::Member(_, left, _) => !is_unset_next(left, from),
        _ => true,
    }
}

/// Whether an expression is a next value that isn't set.
pub(crate) fn is_unset_next(core: &Core, from: &Partial) -> bool {
    match core {
        Core::Next(_, variable) => is_unset(from, *variable),
        _ => false,
    }
}

/// Descends to the first part that faults; false if none does.
#[cycle(reading)]
fn hunt_in_steps<'a>(
    part: &'a Core,
    from: &Partial,
    hunt: &mut Hunt<'a, '_>,
) -> Result<bool, Fault> {
    match part {
        Core::Conjunction(_, parts) => hunt_in_turn(parts, from, hunt),
        Core::Disjunction(_, parts) => hunt_in_line(parts, from, hunt),
        Core::ForSome(_, set, body) => {
            Ok(hunt.descend(set, from)? || hunt_by_choice(body, set, part, from, hunt)?)
        }
        Core::ForAll(_, set, body) => {
            Ok(hunt.descend(set, from)? || hunt_in_elements(body, set, part, from, hunt)?)
        }
        Core::If(_, condition, yes, no) => match hunt.walk.truth(condition, from)? {
            Some(true) => hunt_if_faulty(yes, from, hunt),
            Some(false) => hunt_if_faulty(no, from, hunt),
            None => hunt.descend(condition, from),
        },
        Core::Cases(_, arms, None) => hunt_in_arms(arms, from, hunt),
        Core::Cases(_, arms, Some(last)) => {
            Ok(hunt_in_arms(arms, from, hunt)? || hunt_if_faulty(last, from, hunt)?)
        }
        Core::Destructure(place, openings, body) => {
            let count = hunt.walk.len();
            if !hunt.walk.open(*place, openings)? {
                return Ok(false);
            }
            let outcome = hunt_if_faulty(body, from, hunt);
            hunt.walk.truncate(count);
            outcome
        }
        Core::Equal(_, _, value) | Core::Member(_, _, value) => hunt.descend(value, from),
        _ => Ok(false),
    }
}

/// Descends from a part, if its reading faults; else returns false.
#[cycle(reading)]
fn hunt_if_faulty<'a>(
    part: &'a Core,
    from: &Partial,
    hunt: &mut Hunt<'a, '_>,
) -> Result<bool, Fault> {
    let is_faulty = hunt.walk.reading_fault(part, from)? == Some(hunt.fault);
    if is_faulty {
        hunt_in_reading(part, from, hunt)?;
    }
    Ok(is_faulty)
}

/// Reads the parts one after the other, from each state that those before lead to.
#[cycle(reading)]
fn hunt_in_turn<'a>(
    parts: &'a [Core],
    from: &Partial,
    hunt: &mut Hunt<'a, '_>,
) -> Result<bool, Fault> {
    let mut states = one(from, hunt)?;
    for part in parts {
        match hunt_or_read(part, &states, hunt)? {
            Some(reached) => states = reached,
            None => return Ok(true),
        }
    }
    Ok(false)
}

/// A list of one state.
fn one(from: &Partial, hunt: &Hunt<'_, '_>) -> Result<Vec<Partial>, Fault> {
    let alloc = hunt.walk.alloc();
    let mut states = Vec::new(alloc);
    states.push(from.copy(alloc)?)?;
    Ok(states)
}

/// The states that a part leads to from these. If its reading has the fault, descends, and returns none.
#[cycle(reading)]
fn hunt_or_read<'a>(
    part: &'a Core,
    states: &[Partial],
    hunt: &mut Hunt<'a, '_>,
) -> Result<Option<Vec<Partial>>, Fault> {
    let mut all = Vec::new(hunt.walk.alloc());
    for state in states {
        match hunt.walk.states_of(part, state)? {
            Some(reached) => {
                let mut more = reached;
                all.append(&mut more)?;
            }
            None => {
                if hunt_if_faulty(part, state, hunt)? {
                    return Ok(None);
                }
            }
        }
    }
    Ok(Some(all))
}

/// Reads the parts from one state.
#[cycle(reading)]
fn hunt_in_line<'a>(
    parts: &'a [Core],
    from: &Partial,
    hunt: &mut Hunt<'a, '_>,
) -> Result<bool, Fault> {
    for part in parts {
        if hunt_if_faulty(part, from, hunt)? {
            return Ok(true);
        }
    }
    Ok(false)
}

/// Descends into the first condition that faults, or into the first arm whose condition is TRUE.
#[cycle(reading)]
fn hunt_in_arms<'a>(
    arms: &'a [(Core, Core)],
    from: &Partial,
    hunt: &mut Hunt<'a, '_>,
) -> Result<bool, Fault> {
    for (condition, value) in arms {
        match hunt.walk.truth(condition, from)? {
            Some(true) => return hunt_if_faulty(value, from, hunt),
            Some(false) => {}
            None => return hunt.descend(condition, from),
        }
    }
    Ok(false)
}

/// Reads a body at each element.
#[cycle(reading)]
fn hunt_by_choice<'a>(
    body: &'a Core,
    set: &'a Core,
    part: &'a Core,
    from: &Partial,
    hunt: &mut Hunt<'a, '_>,
) -> Result<bool, Fault> {
    let Some(elements) = hunt.walk.elements(set, from)? else {
        return Ok(false);
    };
    let count = hunt.walk.len();
    for element in elements {
        hunt.walk.bind(part.place(), element)?;
        let outcome = hunt_if_faulty(body, from, hunt);
        hunt.walk.truncate(count);
        if outcome? {
            return Ok(true);
        }
    }
    Ok(false)
}

/// Reads a body at one element after the other, from each state that those before lead to.
#[cycle(reading)]
fn hunt_in_elements<'a>(
    body: &'a Core,
    set: &'a Core,
    part: &'a Core,
    from: &Partial,
    hunt: &mut Hunt<'a, '_>,
) -> Result<bool, Fault> {
    let Some(elements) = hunt.walk.elements(set, from)? else {
        return Ok(false);
    };
    let count = hunt.walk.len();
    let mut states = one(from, hunt)?;
    for element in elements {
        hunt.walk.bind(part.place(), element)?;
        let outcome = hunt_or_read(body, &states, hunt);
        hunt.walk.truncate(count);
        match outcome? {
            Some(reached) => states = reached,
            None => return Ok(true),
        }
    }
    Ok(false)
}
