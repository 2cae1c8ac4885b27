//! The parts that leave a variable without a next value.

use crate::blocked::reached_from_all;
use crate::chosen::Chosen;
use crate::walk::Walk;
use std::alloc::{AllocError, Global};
use tla_core::{Core, Fault, Opening, Place};
use tla_eval::Partial;
use tla_reading::is_unset;
use tla_value::State;

/// The places of the parts of an action that may leave a variable without a next value, in the order of the text. The
/// only error is that memory ran out.
pub fn lacking_parts(
    alloc: Global,
    action: &Core,
    variable: usize,
) -> Result<Vec<Place>, AllocError> {
    let mut places = Vec::new(alloc);
    gather(action, variable, &mut places)?;
    Ok(places)
}

#[cycle(gathered)]
fn gather(part: &Core, variable: usize, places: &mut Vec<Place>) -> Result<(), AllocError> {
    if sets_always(part, variable) {
        return Ok(());
    }
    match part {
        Core::Disjunction(_, parts) => gather_all(parts, variable, places),
        Core::ForSome(_, _, body) | Core::Destructure(_, _, body) => gather(body, variable, places),
        Core::Conjunction(place, parts) => match setting(parts, variable) {
            Some(index) => gather_at(parts, index, variable, places),
            None => add(*place, places),
        },
        Core::If(_, _, yes, no) => {
            gather(yes, variable, places)?;
            gather(no, variable, places)
        }
        Core::Cases(_, arms, None) => gather_arms(arms, variable, places),
        Core::Cases(_, arms, Some(other)) => {
            gather_arms(arms, variable, places)?;
            gather(other, variable, places)
        }
        _ => add(part.place(), places),
    }
}

fn add(place: Place, places: &mut Vec<Place>) -> Result<(), AllocError> {
    if !places.contains(&place) {
        places.push(place)?;
    }
    Ok(())
}

#[cycle(gathered)]
fn gather_all(parts: &[Core], variable: usize, places: &mut Vec<Place>) -> Result<(), AllocError> {
    for part in parts {
        gather(part, variable, places)?;
    }
    Ok(())
}

#[cycle(gathered)]
fn gather_at(
    parts: &[Core],
    index: usize,
    variable: usize,
    places: &mut Vec<Place>,
) -> Result<(), AllocError> {
    match parts.get(index) {
        Some(part) => gather(part, variable, places),
        None => Ok(()),
    }
}

#[cycle(gathered)]
fn gather_arms(
    arms: &[(Core, Core)],
    variable: usize,
    places: &mut Vec<Place>,
) -> Result<(), AllocError> {
    for arm in arms {
        gather(&arm.1, variable, places)?;
    }
    Ok(())
}

/// The index of the first conjunct that may set a variable.
fn setting(parts: &[Core], variable: usize) -> Option<usize> {
    parts.iter().position(|part| may_set(part, variable))
}

/// Whether every path through a part sets the variable.
#[cycle(sets)]
fn sets_always(part: &Core, variable: usize) -> bool {
    match part {
        Core::Equal(_, left, _) | Core::Member(_, left, _) => is_next(left, variable),
        Core::Conjunction(_, parts) => some_sets(parts, variable),
        Core::Disjunction(_, parts) => all_set(parts, variable),
        Core::ForAll(_, _, body) | Core::ForSome(_, _, body) | Core::Destructure(_, _, body) => {
            sets_always(body, variable)
        }
        Core::If(_, _, yes, no) => sets_always(yes, variable) && sets_always(no, variable),
        Core::Cases(_, arms, None) => arms_set(arms, variable),
        Core::Cases(_, arms, Some(other)) => {
            arms_set(arms, variable) && sets_always(other, variable)
        }
        _ => false,
    }
}

#[cycle(sets)]
fn some_sets(parts: &[Core], variable: usize) -> bool {
    for part in parts {
        if sets_always(part, variable) {
            return true;
        }
    }
    false
}

#[cycle(sets)]
fn all_set(parts: &[Core], variable: usize) -> bool {
    for part in parts {
        if !sets_always(part, variable) {
            return false;
        }
    }
    true
}

#[cycle(sets)]
fn arms_set(arms: &[(Core, Core)], variable: usize) -> bool {
    for arm in arms {
        if !sets_always(&arm.1, variable) {
            return false;
        }
    }
    true
}

/// Whether some path through a part sets the variable.
#[cycle(may_set)]
pub fn may_set(part: &Core, variable: usize) -> bool {
    match part {
        Core::Equal(_, left, _) | Core::Member(_, left, _) => is_next(left, variable),
        Core::Conjunction(_, parts) | Core::Disjunction(_, parts) => one_may_set(parts, variable),
        Core::ForAll(_, _, body) | Core::ForSome(_, _, body) | Core::Destructure(_, _, body) => {
            may_set(body, variable)
        }
        Core::If(_, _, yes, no) => may_set(yes, variable) || may_set(no, variable),
        Core::Cases(_, arms, None) => arm_may_set(arms, variable),
        Core::Cases(_, arms, Some(other)) => {
            arm_may_set(arms, variable) || may_set(other, variable)
        }
        _ => false,
    }
}

#[cycle(may_set)]
fn one_may_set(parts: &[Core], variable: usize) -> bool {
    for part in parts {
        if may_set(part, variable) {
            return true;
        }
    }
    false
}

#[cycle(may_set)]
fn arm_may_set(arms: &[(Core, Core)], variable: usize) -> bool {
    for arm in arms {
        if may_set(&arm.1, variable) {
            return true;
        }
    }
    false
}

fn is_next(core: &Core, variable: usize) -> bool {
    matches!(core, Core::Next(_, set) if *set == variable)
}

/// A part that leaves a variable without a next value, and the values that the `\E` above it chose, the outermost
/// first.
#[derive(Drop)]
pub struct LackingPart<'a> {
    pub part: &'a Core,
    pub chosen: Vec<Chosen>,
}

/// A variable, and the first part that is found to leave it without a next value.
#[derive(Drop)]
struct Lack<'a> {
    variable: usize,
    found: Option<LackingPart<'a>>,
}

/// The first part of an action that leads to a state in which a variable has no next value, if at most `budget`
/// evaluations find it. The only error is that memory ran out.
pub fn lacking_part<'a>(
    alloc: Global,
    action: &'a Core,
    variable: usize,
    variables: usize,
    now: Option<&State>,
    budget: u64,
) -> Result<Option<LackingPart<'a>>, Fault> {
    let mut walk = Walk::new(alloc, now, budget);
    let mut lack = Lack {
        variable,
        found: None,
    };
    let unset = Partial::unset(alloc, variables)?;
    find_lack(action, &unset, &mut walk, &mut lack)?;
    Ok(lack.found)
}

/// Searches the parts under disjunctions and `\E`.
#[cycle(lack)]
fn find_lack<'a>(
    part: &'a Core,
    from: &Partial,
    walk: &mut Walk<'_>,
    lack: &mut Lack<'a>,
) -> Result<(), Fault> {
    if lack.found.is_some() {
        return Ok(());
    }
    match part {
        Core::Disjunction(_, parts) => find_in_disjuncts(parts, from, walk, lack),
        Core::ForSome(place, set, body) => find_by_element(body, set, *place, from, walk, lack),
        Core::Destructure(place, openings, body) => {
            find_by_items(body, openings, *place, from, walk, lack)
        }
        _ => find_in_part(part, from, walk, lack),
    }
}

/// Finds the innermost part of a part that leads to a state in which the variable has no next value.
#[cycle(lack)]
fn find_in_part<'a>(
    part: &'a Core,
    from: &Partial,
    walk: &mut Walk<'_>,
    lack: &mut Lack<'a>,
) -> Result<(), Fault> {
    if !leads_to_lack(part, from, lack.variable, walk)? {
        return Ok(());
    }
    find_below(part, from, walk, lack)?;
    if lack.found.is_none() {
        lack.found = Some(LackingPart {
            part,
            chosen: walk.bound_choices()?,
        });
    }
    Ok(())
}

/// Whether a part leads to a state in which a variable has no next value.
fn leads_to_lack(
    part: &Core,
    from: &Partial,
    variable: usize,
    walk: &mut Walk<'_>,
) -> Result<bool, Fault> {
    match walk.states_of(part, from)? {
        Some(states) => Ok(states.iter().any(|state| is_unset(state, variable))),
        None => Ok(false),
    }
}

/// Descends into the conjunct that sets the variable, or into the branch that is taken.
#[cycle(lack)]
fn find_below<'a>(
    part: &'a Core,
    from: &Partial,
    walk: &mut Walk<'_>,
    lack: &mut Lack<'a>,
) -> Result<(), Fault> {
    match part {
        Core::Conjunction(_, parts) => find_in_conjuncts(parts, from, walk, lack),
        Core::If(_, condition, yes, no) => match walk.truth(condition, from)? {
            Some(true) => find_lack(yes, from, walk, lack),
            Some(false) => find_lack(no, from, walk, lack),
            None => Ok(()),
        },
        Core::Cases(_, arms, None) => {
            find_in_arm(arms, from, walk, lack)?;
            Ok(())
        }
        Core::Cases(_, arms, Some(other)) => {
            if !find_in_arm(arms, from, walk, lack)? {
                find_lack(other, from, walk, lack)?;
            }
            Ok(())
        }
        _ => Ok(()),
    }
}

#[cycle(lack)]
fn find_in_disjuncts<'a>(
    parts: &'a [Core],
    from: &Partial,
    walk: &mut Walk<'_>,
    lack: &mut Lack<'a>,
) -> Result<(), Fault> {
    for part in parts {
        find_lack(part, from, walk, lack)?;
    }
    Ok(())
}

/// Descends into the first conjunct that may set the variable, from the states that those before it lead to.
#[cycle(lack)]
fn find_in_conjuncts<'a>(
    parts: &'a [Core],
    from: &Partial,
    walk: &mut Walk<'_>,
    lack: &mut Lack<'a>,
) -> Result<(), Fault> {
    let variable = lack.variable;
    let mut states = vec![in walk.alloc(); from.copy(walk.alloc())?]?;
    for part in parts {
        if may_set(part, variable) {
            return find_from_each(part, &states, walk, lack);
        }
        match reached_from_all(part, &states, walk)? {
            Some(reached) => states = reached,
            None => return Ok(()),
        }
    }
    Ok(())
}

#[cycle(lack)]
fn find_from_each<'a>(
    part: &'a Core,
    states: &[Partial],
    walk: &mut Walk<'_>,
    lack: &mut Lack<'a>,
) -> Result<(), Fault> {
    for state in states {
        find_lack(part, state, walk, lack)?;
    }
    Ok(())
}

/// Descends into the arm that is taken; false if no condition is TRUE.
#[cycle(lack)]
fn find_in_arm<'a>(
    arms: &'a [(Core, Core)],
    from: &Partial,
    walk: &mut Walk<'_>,
    lack: &mut Lack<'a>,
) -> Result<bool, Fault> {
    for (condition, value) in arms {
        if walk.truth(condition, from)? == Some(true) {
            find_lack(value, from, walk, lack)?;
            return Ok(true);
        }
    }
    Ok(false)
}

#[cycle(lack)]
fn find_by_element<'a>(
    body: &'a Core,
    set: &Core,
    place: Place,
    from: &Partial,
    walk: &mut Walk<'_>,
    lack: &mut Lack<'a>,
) -> Result<(), Fault> {
    let Some(elements) = walk.elements(set, from)? else {
        return Ok(());
    };
    let count = walk.len();
    for element in elements {
        walk.bind(place, element)?;
        let outcome = find_lack(body, from, walk, lack);
        walk.truncate(count);
        outcome?;
    }
    Ok(())
}

#[cycle(lack)]
fn find_by_items<'a>(
    body: &'a Core,
    openings: &[Opening],
    place: Place,
    from: &Partial,
    walk: &mut Walk<'_>,
    lack: &mut Lack<'a>,
) -> Result<(), Fault> {
    let count = walk.len();
    if !walk.open(place, openings)? {
        return Ok(());
    }
    let outcome = find_lack(body, from, walk, lack);
    walk.truncate(count);
    outcome
}
