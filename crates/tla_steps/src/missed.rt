//! Updates of EXCEPT that change nothing, since the function has no value at the argument.

use crate::culprit::value_at;
use crate::walk::Walk;
use std::alloc::Global;
use tla_core::{Core, Fault, Opening, Place};
use tla_eval::Partial;
use tla_value::{State, Value};

/// An update that changes nothing.
#[derive(Drop)]
pub struct Missed<'a> {
    pub except: &'a Core,
    /// The function that has no value at the argument.
    pub function: Value,
    pub argument: Value,
}

/// Adds the updates that change nothing in a step of an action, one for each EXCEPT, with at most `budget` evaluations.
/// Examines only next values that are an EXCEPT. The only error is that memory ran out.
pub fn add_missed<'a>(
    alloc: Global,
    action: &'a Core,
    now: &State,
    next: &Partial,
    budget: &mut u64,
    found: &mut Vec<Missed<'a>>,
) -> Result<(), Fault> {
    let mut walk = Walk::new(alloc, Some(now), *budget);
    let outcome = find_missed(action, next, &mut walk, found);
    *budget = walk.budget();
    outcome
}

/// Whether some next value in an action is an EXCEPT.
#[cycle(update)]
pub fn has_update(part: &Core) -> bool {
    match part {
        Core::Conjunction(_, parts) | Core::Disjunction(_, parts) => one_has_update(parts),
        Core::ForAll(_, _, body) | Core::ForSome(_, _, body) | Core::Destructure(_, _, body) => {
            has_update(body)
        }
        Core::If(_, _, yes, no) => has_update(yes) || has_update(no),
        Core::Equal(_, left, value) => is_next(left) && is_update(value),
        _ => false,
    }
}

#[cycle(update)]
fn one_has_update(parts: &[Core]) -> bool {
    for part in parts {
        if has_update(part) {
            return true;
        }
    }
    false
}

fn is_next(core: &Core) -> bool {
    matches!(core, Core::Next(_, _))
}

/// Whether a value is an EXCEPT, or may be one.
#[cycle(is_update)]
fn is_update(value: &Core) -> bool {
    match value {
        Core::Except(_, _, _) => true,
        Core::If(_, _, yes, no) => is_update(yes) || is_update(no),
        _ => false,
    }
}

/// Searches the parts that are TRUE.
#[cycle(missed)]
fn find_missed<'a>(
    part: &'a Core,
    next: &Partial,
    walk: &mut Walk<'_>,
    found: &mut Vec<Missed<'a>>,
) -> Result<(), Fault> {
    if !has_update(part) {
        return Ok(());
    }
    match part {
        Core::Disjunction(_, parts) => find_in_all(parts, next, walk, found),
        Core::ForAll(place, set, body) | Core::ForSome(place, set, body) => {
            find_by_element(body, set, *place, next, walk, found)
        }
        Core::Destructure(place, openings, body) => {
            find_by_items(body, openings, *place, next, walk, found)
        }
        Core::If(_, condition, yes, no) => match walk.truth(condition, next)? {
            Some(true) => find_missed(yes, next, walk, found),
            Some(false) => find_missed(no, next, walk, found),
            None => Ok(()),
        },
        _ => find_if_true(part, next, walk, found),
    }
}

/// Searches a conjunction or an equality that is TRUE.
#[cycle(missed)]
fn find_if_true<'a>(
    part: &'a Core,
    next: &Partial,
    walk: &mut Walk<'_>,
    found: &mut Vec<Missed<'a>>,
) -> Result<(), Fault> {
    if walk.truth(part, next)? != Some(true) {
        return Ok(());
    }
    match part {
        Core::Conjunction(_, parts) => find_in_all(parts, next, walk, found),
        Core::Equal(_, _, value) => find_in_value(value, next, walk, found),
        _ => Ok(()),
    }
}

#[cycle(missed)]
fn find_in_all<'a>(
    parts: &'a [Core],
    next: &Partial,
    walk: &mut Walk<'_>,
    found: &mut Vec<Missed<'a>>,
) -> Result<(), Fault> {
    for part in parts {
        find_missed(part, next, walk, found)?;
    }
    Ok(())
}

#[cycle(missed)]
fn find_by_element<'a>(
    body: &'a Core,
    set: &Core,
    place: Place,
    next: &Partial,
    walk: &mut Walk<'_>,
    found: &mut Vec<Missed<'a>>,
) -> Result<(), Fault> {
    let Some(elements) = walk.elements(set, next)? else {
        return Ok(());
    };
    let count = walk.len();
    for element in elements {
        walk.bind(place, element)?;
        let outcome = find_missed(body, next, walk, found);
        walk.truncate(count);
        outcome?;
    }
    Ok(())
}

#[cycle(missed)]
fn find_by_items<'a>(
    body: &'a Core,
    openings: &[Opening],
    place: Place,
    next: &Partial,
    walk: &mut Walk<'_>,
    found: &mut Vec<Missed<'a>>,
) -> Result<(), Fault> {
    let count = walk.len();
    if !walk.open(place, openings)? {
        return Ok(());
    }
    let outcome = find_missed(body, next, walk, found);
    walk.truncate(count);
    outcome
}

/// Finds the updates of a value that change nothing.
#[cycle(values)]
fn find_in_value<'a>(
    value: &'a Core,
    next: &Partial,
    walk: &mut Walk<'_>,
    found: &mut Vec<Missed<'a>>,
) -> Result<(), Fault> {
    match value {
        Core::Except(_, function, updates) => match walk.value(function, next)? {
            Some(old) => find_in_updates(updates, value, &old, next, walk, found),
            None => Ok(()),
        },
        Core::If(_, condition, yes, no) => match walk.truth(condition, next)? {
            Some(true) => find_in_value(yes, next, walk, found),
            Some(false) => find_in_value(no, next, walk, found),
            None => Ok(()),
        },
        _ => Ok(()),
    }
}

/// Follows the path of each update into the old value. Of all updates but the first, it follows only the first step of
/// the path, since the first update may have changed what comes after.
#[cycle(values)]
fn find_in_updates<'a>(
    updates: &'a [(Vec<Core>, Core)],
    except: &'a Core,
    old: &Value,
    next: &Partial,
    walk: &mut Walk<'_>,
    found: &mut Vec<Missed<'a>>,
) -> Result<(), Fault> {
    let mut is_first = true;
    for (keys, value) in updates {
        let count = if is_first { keys.len() } else { 1 };
        let path = keys.get(..count).unwrap_or(&[]);
        let outer = walk.len();
        if follow(path, except, old, next, walk, found)? && is_first {
            let outcome = find_in_value(value, next, walk, found);
            walk.truncate(outer);
            outcome?;
        }
        walk.truncate(outer);
        is_first = false;
    }
    Ok(())
}

/// Follows a path into a function, and binds the value at its end; false if there is none.
fn follow<'a>(
    path: &[Core],
    except: &'a Core,
    function: &Value,
    next: &Partial,
    walk: &mut Walk<'_>,
    found: &mut Vec<Missed<'a>>,
) -> Result<bool, Fault> {
    let mut at = function;
    for key in path {
        let Some(argument) = walk.value(key, next)? else {
            return Ok(false);
        };
        match value_at(at, &argument) {
            Some(value) => at = value,
            None => {
                add(except, walk.copy(at)?, argument, found)?;
                return Ok(false);
            }
        }
    }
    walk.bind_old(at)?;
    Ok(true)
}

/// Adds an update, unless one of the same EXCEPT was added already.
fn add<'a>(
    except: &'a Core,
    function: Value,
    argument: Value,
    found: &mut Vec<Missed<'a>>,
) -> Result<(), Fault> {
    if found
        .iter()
        .all(|missed| missed.except.place() != except.place())
    {
        found.push(Missed {
            except,
            function,
            argument,
        })?;
    }
    Ok(())
}
