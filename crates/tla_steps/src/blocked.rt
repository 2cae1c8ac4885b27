//! Why an action makes no step: the conjuncts that stop its parts.

use crate::reading::is_unset_next;
use crate::reason::{Reason, Verdict, find_reasons, reason_at};
use crate::walk::Walk;
use std::alloc::Global;
use tla_core::{Core, Fault, Opening, Place};
use tla_eval::Partial;
use tla_value::State;

/// How many choices of a `\E` are examined.
const MOST_CHOICES: usize = 3;

/// A part of an action that makes no step.
#[derive(Drop)]
pub struct Blocked<'a> {
    pub part: &'a Core,
    /// Why it makes none, for the first choices.
    pub reasons: Vec<Reason<'a>>,
    /// How many choices were examined.
    pub choices: usize,
    /// How many more choices there are.
    pub more: usize,
}

/// A state without next values, and what was found.
#[derive(Drop)]
struct Blocks<'a> {
    unset: Partial,
    found: Vec<Blocked<'a>>,
}

/// The parts of an action that makes no step, in the order of the text, and why each makes none, with at most `budget`
/// evaluations. The only error is that memory ran out.
pub fn blocked_parts<'a>(
    alloc: Global,
    action: &'a Core,
    variables: usize,
    now: Option<&State>,
    budget: u64,
) -> Result<Vec<Blocked<'a>>, Fault> {
    let mut walk = Walk::new(alloc, now, budget);
    let mut blocks = Blocks {
        unset: Partial::unset(alloc, variables)?,
        found: Vec::new(alloc),
    };
    find_blocked(action, &mut walk, &mut blocks)?;
    Ok(blocks.found)
}

/// Finds the parts under disjunctions and `\E`.
#[cycle(blocked)]
fn find_blocked<'a>(
    part: &'a Core,
    walk: &mut Walk<'_>,
    blocks: &mut Blocks<'a>,
) -> Result<(), Fault> {
    match part {
        Core::Disjunction(_, parts) => find_in_disjuncts(parts, walk, blocks),
        Core::ForSome(_, set, body) => find_by_element(body, set, part, walk, blocks),
        Core::Destructure(place, openings, body) => find_by_items(
            body, openings, *place, walk, blocks,
        ),
        _ => add_blocked(part, walk, blocks),
    }
}

#[cycle(blocked)]
fn find_in_disjuncts<'a>(
    parts: &'a [Core],
    walk: &mut Walk<'_>,
    blocks: &mut Blocks<'a>,
) -> Result<(), Fault> {
    for part in parts {
        find_blocked(part, walk, blocks)?;
    }
    Ok(())
}

#[cycle(blocked)]
fn find_by_element<'a>(
    body: &'a Core,
    set: &'a Core,
    part: &'a Core,
    walk: &mut Walk<'_>,
    blocks: &mut Blocks<'a>,
) -> Result<(), Fault> {
    let Some(elements) = walk.elements(set, &blocks.unset)? else {
        return Ok(());
    };
    if elements.is_empty() {
        return add_blocked(part, walk, blocks);
    }
    let count = walk.len();
    for element in elements {
        walk.bind(part.place(), element)?;
        let outcome = find_blocked(body, walk, blocks);
        walk.truncate(count);
        outcome?;
    }
    Ok(())
}

#[cycle(blocked)]
fn find_by_items<'a>(
    body: &'a Core,
    openings: &'a [Opening],
    place: Place,
    walk: &mut Walk<'_>,
    blocks: &mut Blocks<'a>,
) -> Result<(), Fault> {
    let count = walk.len();
    if !walk.open(place, openings)? {
        return Ok(());
    }
    let outcome = find_blocked(body, walk, blocks);
    walk.truncate(count);
    outcome
}

/// Adds why a part makes no step, for one more choice.
fn add_blocked<'a>(
    part: &'a Core,
    walk: &mut Walk<'_>,
    blocks: &mut Blocks<'a>,
) -> Result<(), Fault> {
    let place = part.place();
    if blocks.found.iter().all(|b| b.part.place() != place) {
        let reasons = Vec::new(walk.alloc());
        blocks.found.push(Blocked {
            part,
            reasons,
            choices: 0,
            more: 0,
        })?;
    }
    for blocked in blocks.found.iter_mut() {
        if blocked.part.place() == place {
            return add_choice(part, &blocks.unset, walk, blocked);
        }
    }
    Ok(())
}

fn add_choice<'a>(
    part: &'a Core,
    unset: &Partial,
    walk: &mut Walk<'_>,
    blocked: &mut Blocked<'a>,
) -> Result<(), Fault> {
    if blocked.choices >= MOST_CHOICES {
        blocked.more = blocked.more.saturating_add(1);
        return Ok(());
    }
    blocked.choices = blocked.choices.saturating_add(1);
    find_stop(part, unset, walk, blocked)
}

/// Finds why a part leads to no state.
#[cycle(stop)]
fn find_stop<'a>(
    part: &'a Core,
    from: &Partial,
    walk: &mut Walk<'_>,
    blocked: &mut Blocked<'a>,
) -> Result<(), Fault> {
    match part {
        Core::Destructure(place, openings, body) => {
            stop_by_items(body, openings, *place, from, walk, blocked)
        }
        Core::Conjunction(_, parts) => stop_in_turn(parts, from, walk, blocked),
        Core::Disjunction(_, parts) => stop_in_each(parts, from, walk, blocked),
        Core::ForSome(_, set, body) => stop_by_element(body, set, part, from, walk, blocked),
        Core::ForAll(place, set, body) if part.is_primed() => {
            stop_in_elements(body, set, *place, from, walk, blocked)
        }
        Core::If(_, condition, yes, no) => match walk.truth(condition, from)? {
            Some(true) => find_stop(yes, from, walk, blocked),
            Some(false) => find_stop(no, from, walk, blocked),
            None => Ok(()),
        },
        Core::Cases(_, arms, None) => {
            stop_in_arm(arms, from, walk, blocked)?;
            Ok(())
        }
        Core::Cases(_, arms, Some(last)) => {
            if !stop_in_arm(arms, from, walk, blocked)? {
                find_stop(last, from, walk, blocked)?;
            }
            Ok(())
        }
        Core::Member(_, element, _) if is_unset_next(element, from) => {
            add_reason(part, Verdict::NoElement, from, walk, blocked)
        }
        _ => find_false(part, from, walk, blocked),
    }
}

/// Finds why a part that is only evaluated is FALSE.
fn find_false<'a>(
    part: &'a Core,
    from: &Partial,
    walk: &mut Walk<'_>,
    blocked: &mut Blocked<'a>,
) -> Result<(), Fault> {
    if walk.truth(part, from)? == Some(false) {
        find_reasons(part, false, from, walk, &mut blocked.reasons)?;
    }
    Ok(())
}

fn add_reason<'a>(
    part: &'a Core,
    verdict: Verdict,
    from: &Partial,
    walk: &mut Walk<'_>,
    blocked: &mut Blocked<'a>,
) -> Result<(), Fault> {
    let reason = reason_at(part, verdict, from, walk)?;
    blocked.reasons.push(reason)?;
    Ok(())
}

/// Finds the first conjunct that leads to no state, and why.
#[cycle(stop)]
fn stop_in_turn<'a>(
    parts: &'a [Core],
    from: &Partial,
    walk: &mut Walk<'_>,
    blocked: &mut Blocked<'a>,
) -> Result<(), Fault> {
    let mut states = vec![in walk.alloc(); from.copy(walk.alloc())?]?;
    for part in parts {
        let Some(reached) = reached_from_all(part, &states, walk)? else {
            return Ok(());
        };
        if reached.is_empty() {
            return match states.last() {
                Some(last) => find_stop(part, last, walk, blocked),
                None => Ok(()),
            };
        }
        states = reached;
    }
    Ok(())
}

/// The states that a part leads to from any of these.
pub(crate) fn reached_from_all(
    part: &Core,
    states: &[Partial],
    walk: &mut Walk<'_>,
) -> Result<Option<Vec<Partial>>, Fault> {
    let mut all = Vec::new(walk.alloc());
    for state in states {
        match walk.states_of(part, state)? {
            Some(reached) => {
                let mut more = reached;
                all.append(&mut more)?;
            }
            None => return Ok(None),
        }
    }
    Ok(Some(all))
}

#[cycle(stop)]
fn stop_in_each<'a>(
    parts: &'a [Core],
    from: &Partial,
    walk: &mut Walk<'_>,
    blocked: &mut Blocked<'a>,
) -> Result<(), Fault> {
    for part in parts {
        find_stop(part, from, walk, blocked)?;
    }
    Ok(())
}

/// Finds why the arm that is taken leads to no state; false if no condition is TRUE.
#[cycle(stop)]
fn stop_in_arm<'a>(
    arms: &'a [(Core, Core)],
    from: &Partial,
    walk: &mut Walk<'_>,
    blocked: &mut Blocked<'a>,
) -> Result<bool, Fault> {
    for (condition, value) in arms {
        if walk.truth(condition, from)? == Some(true) {
            find_stop(value, from, walk, blocked)?;
            return Ok(true);
        }
    }
    Ok(false)
}

/// Finds why the body leads to no state at the first elements.
#[cycle(stop)]
fn stop_by_element<'a>(
    body: &'a Core,
    set: &'a Core,
    part: &'a Core,
    from: &Partial,
    walk: &mut Walk<'_>,
    blocked: &mut Blocked<'a>,
) -> Result<(), Fault> {
    let Some(elements) = walk.elements(set, from)? else {
        return Ok(());
    };
    if elements.is_empty() {
        return add_reason(part, Verdict::NoElement, from, walk, blocked);
    }
    if !part.is_primed() {
        return add_reason(part, Verdict::False, from, walk, blocked);
    }
    let count = walk.len();
    let more = elements.len().saturating_sub(MOST_CHOICES);
    blocked.more = blocked.more.saturating_add(more);
    for element in elements.into_iter().take(MOST_CHOICES) {
        walk.bind(part.place(), element)?;
        let outcome = find_stop(body, from, walk, blocked);
        walk.truncate(count);
        outcome?;
    }
    Ok(())
}

/// Finds the first element at which the body leads to no state, and why.
#[cycle(stop)]
fn stop_in_elements<'a>(
    body: &'a Core,
    set: &'a Core,
    place: Place,
    from: &Partial,
    walk: &mut Walk<'_>,
    blocked: &mut Blocked<'a>,
) -> Result<(), Fault> {
    let Some(elements) = walk.elements(set, from)? else {
        return Ok(());
    };
    let count = walk.len();
    let mut states = vec![in walk.alloc(); from.copy(walk.alloc())?]?;
    for element in elements {
        walk.bind(place, element)?;
        let outcome = next_states(body, &states, walk, blocked);
        walk.truncate(count);
        match outcome? {
            Some(reached) => states = reached,
            None => return Ok(()),
        }
    }
    Ok(())
}

/// The states that a body leads to from these; if there are none, finds why, and returns none.
#[cycle(stop)]
fn next_states<'a>(
    body: &'a Core,
    states: &[Partial],
    walk: &mut Walk<'_>,
    blocked: &mut Blocked<'a>,
) -> Result<Option<Vec<Partial>>, Fault> {
    let Some(reached) = reached_from_all(body, states, walk)? else {
        return Ok(None);
    };
    if !reached.is_empty() {
        return Ok(Some(reached));
    }
    if let Some(last) = states.last() {
        find_stop(body, last, walk, blocked)?;
    }
    Ok(None)
}

#[cycle(stop)]
fn stop_by_items<'a>(
    body: &'a Core,
    openings: &'a [Opening],
    place: Place,
    from: &Partial,
    walk: &mut Walk<'_>,
    blocked: &mut Blocked<'a>,
) -> Result<(), Fault> {
    let count = walk.len();
    if !walk.open(place, openings)? {
        return Ok(());
    }
    let outcome = find_stop(body, from, walk, blocked);
    walk.truncate(count);
    outcome
}
