//! Why an expression is TRUE or FALSE: the parts that decide it.

use crate::chosen::Chosen;
use crate::stray::{Stray, stray_in};
use crate::walk::Walk;
use std::alloc::Global;
use tla_core::{Core, Fault, Opening, Place, Unary};
use tla_eval::Partial;
use tla_value::{State, Value};

/// For how many elements the reason why a `\E` is FALSE is shown.
const MOST_ELEMENTS: usize = 3;

/// The result of a deciding part.
#[derive(Clone, Copy, Debug, PartialEq, Eq)]
pub enum Verdict {
    True,
    False,
    /// The set of a quantifier is empty.
    NoElement,
}

/// An operand of a node, and its value.
#[derive(Drop)]
pub struct Operand<'a> {
    /// The index of the operand.
    pub number: usize,
    pub core: &'a Core,
    pub value: Value,
}

/// A part that decides the truth value of the whole, and has no deciding parts itself.
#[derive(Drop)]
pub struct Reason<'a> {
    pub part: &'a Core,
    pub verdict: Verdict,
    /// The values of the bound names in scope, the outermost first.
    pub chosen: Vec<Chosen>,
    /// The sides of a comparison, or the set of a quantifier.
    pub operands: Vec<Operand<'a>>,
    /// Why the left side of a membership isn't in the right side.
    pub stray: Option<Stray<'a>>,
}

/// The parts because of which a state predicate is FALSE, with at most `budget` evaluations. The only error is that
/// memory ran out.
pub fn reasons_against<'a>(
    alloc: Global,
    predicate: &'a Core,
    now: Option<&State>,
    budget: u64,
) -> Result<Vec<Reason<'a>>, Fault> {
    let next = Partial::unset(alloc, 0)?;
    let mut walk = Walk::new(alloc, now, budget);
    let mut found = Vec::new(alloc);
    find_reasons(predicate, false, &next, &mut walk, &mut found)?;
    Ok(found)
}

/// Finds why a part has this truth value.
#[cycle(reasons)]
pub(crate) fn find_reasons<'a>(
    part: &'a Core,
    holds: bool,
    next: &Partial,
    walk: &mut Walk<'_>,
    found: &mut Vec<Reason<'a>>,
) -> Result<(), Fault> {
    if find_in_parts(part, holds, next, walk, found)? {
        return Ok(());
    }
    let verdict = if holds { Verdict::True } else { Verdict::False };
    found.push(reason_at(part, verdict, next, walk)?)?;
    Ok(())
}

/// Finds why a part has this truth value in its own parts; false if none of them decides.
#[cycle(reasons)]
fn find_in_parts<'a>(
    part: &'a Core,
    holds: bool,
    next: &Partial,
    walk: &mut Walk<'_>,
    found: &mut Vec<Reason<'a>>,
) -> Result<bool, Fault> {
    match part {
        Core::Conjunction(_, parts) if holds => find_in_each(parts, true, next, walk, found),
        Core::Conjunction(_, parts) => find_in_first(parts, false, next, walk, found),
        Core::Disjunction(_, parts) if holds => find_in_first(parts, true, next, walk, found),
        Core::Disjunction(_, parts) => find_in_each(parts, false, next, walk, found),
        Core::Unary(_, Unary::Not, operand) => {
            find_reasons(operand, !holds, next, walk, found)?;
            Ok(true)
        }
        Core::Implies(_, left, right) => {
            if holds && find_if_is(left, false, next, walk, found)? {
                return Ok(true);
            }
            find_if_is(right, holds, next, walk, found)
        }
        Core::ForAll(place, set, body) if !holds => {
            find_by_element(body, set, *place, false, next, walk, found)
        }
        Core::ForSome(place, set, body) if holds => {
            find_by_element(body, set, *place, true, next, walk, found)
        }
        Core::ForSome(_, set, body) => find_by_each(body, set, part, next, walk, found),
        Core::Destructure(place, openings, body) => {
            find_by_items(body, openings, *place, holds, next, walk, found)
        }
        _ => find_in_branch(part, holds, next, walk, found),
    }
}

/// Finds why the branch of IF or CASE that is taken has this truth value; false if none is taken.
#[cycle(reasons)]
fn find_in_branch<'a>(
    part: &'a Core,
    holds: bool,
    next: &Partial,
    walk: &mut Walk<'_>,
    found: &mut Vec<Reason<'a>>,
) -> Result<bool, Fault> {
    match part {
        Core::If(_, condition, yes, no) => match walk.truth(condition, next)? {
            Some(true) => find_if_is(yes, holds, next, walk, found),
            Some(false) => find_if_is(no, holds, next, walk, found),
            None => Ok(false),
        },
        Core::Cases(_, arms, None) => {
            let taken = find_in_arm(arms, holds, next, walk, found)?;
            Ok(taken == Some(true))
        }
        Core::Cases(_, arms, Some(last)) => match find_in_arm(arms, holds, next, walk, found)? {
            Some(is_found) => Ok(is_found),
            None => find_if_is(last, holds, next, walk, found),
        },
        _ => Ok(false),
    }
}

/// Finds why a part has this truth value; false if it hasn't.
#[cycle(reasons)]
fn find_if_is<'a>(
    part: &'a Core,
    holds: bool,
    next: &Partial,
    walk: &mut Walk<'_>,
    found: &mut Vec<Reason<'a>>,
) -> Result<bool, Fault> {
    if walk.truth(part, next)? != Some(holds) {
        return Ok(false);
    }
    find_reasons(part, holds, next, walk, found)?;
    Ok(true)
}

/// Finds why the first of these parts that has this truth value has it.
#[cycle(reasons)]
fn find_in_first<'a>(
    parts: &'a [Core],
    holds: bool,
    next: &Partial,
    walk: &mut Walk<'_>,
    found: &mut Vec<Reason<'a>>,
) -> Result<bool, Fault> {
    for part in parts {
        if find_if_is(part, holds, next, walk, found)? {
            return Ok(true);
        }
    }
    Ok(false)
}

/// Finds why all parts have this truth value.
#[cycle(reasons)]
fn find_in_each<'a>(
    parts: &'a [Core],
    holds: bool,
    next: &Partial,
    walk: &mut Walk<'_>,
    found: &mut Vec<Reason<'a>>,
) -> Result<bool, Fault> {
    let mut some = false;
    for part in parts {
        some = find_if_is(part, holds, next, walk, found)? || some;
    }
    Ok(some)
}

/// Finds why the arm that is taken has this truth value; none if no condition is TRUE.
#[cycle(reasons)]
fn find_in_arm<'a>(
    arms: &'a [(Core, Core)],
    holds: bool,
    next: &Partial,
    walk: &mut Walk<'_>,
    found: &mut Vec<Reason<'a>>,
) -> Result<Option<bool>, Fault> {
    for (condition, value) in arms {
        if walk.truth(condition, next)? == Some(true) {
            return Ok(Some(find_if_is(value, holds, next, walk, found)?));
        }
    }
    Ok(None)
}

/// Finds why the body has this truth value at the first element at which it has it.
#[cycle(reasons)]
fn find_by_element<'a>(
    body: &'a Core,
    set: &Core,
    place: Place,
    holds: bool,
    next: &Partial,
    walk: &mut Walk<'_>,
    found: &mut Vec<Reason<'a>>,
) -> Result<bool, Fault> {
    let Some(elements) = walk.elements(set, next)? else {
        return Ok(false);
    };
    let count = walk.len();
    for element in elements {
        walk.bind(place, element)?;
        let outcome = find_if_is(body, holds, next, walk, found);
        walk.truncate(count);
        if outcome? {
            return Ok(true);
        }
    }
    Ok(false)
}

/// Finds why the body is FALSE at the first elements, after the reason of the whole.
#[cycle(reasons)]
fn find_by_each<'a>(
    body: &'a Core,
    set: &Core,
    whole: &'a Core,
    next: &Partial,
    walk: &mut Walk<'_>,
    found: &mut Vec<Reason<'a>>,
) -> Result<bool, Fault> {
    let Some(elements) = walk.elements(set, next)? else {
        return Ok(false);
    };
    let verdict = if elements.is_empty() {
        Verdict::NoElement
    } else {
        Verdict::False
    };
    found.push(reason_at(whole, verdict, next, walk)?)?;
    let count = walk.len();
    for element in elements.into_iter().take(MOST_ELEMENTS) {
        walk.bind(whole.place(), element)?;
        let outcome = find_if_is(body, false, next, walk, found);
        walk.truncate(count);
        outcome?;
    }
    Ok(true)
}

/// Finds why the body has this truth value under the items of destructured elements.
#[cycle(reasons)]
fn find_by_items<'a>(
    body: &'a Core,
    openings: &[Opening],
    place: Place,
    holds: bool,
    next: &Partial,
    walk: &mut Walk<'_>,
    found: &mut Vec<Reason<'a>>,
) -> Result<bool, Fault> {
    let count = walk.len();
    if !walk.open(place, openings)? {
        return Ok(false);
    }
    let outcome = find_if_is(body, holds, next, walk, found);
    walk.truncate(count);
    outcome
}

/// A deciding part, with the values of its operands.
pub(crate) fn reason_at<'a>(
    part: &'a Core,
    verdict: Verdict,
    next: &Partial,
    walk: &mut Walk<'_>,
) -> Result<Reason<'a>, Fault> {
    let mut operands = Vec::new(walk.alloc());
    let (left, right) = shown_operands(part);
    add_operand(0, left, next, walk, &mut operands)?;
    add_operand(1, right, next, walk, &mut operands)?;
    add_operand(2, counted_set(left), next, walk, &mut operands)?;
    add_operand(3, counted_set(right), next, walk, &mut operands)?;
    let stray = if verdict == Verdict::False {
        stray_in(part, next, walk)?
    } else {
        None
    };
    Ok(Reason {
        part,
        verdict,
        chosen: walk.bound_choices()?,
        operands,
        stray,
    })
}

/// Adds an operand, unless it has no value.
pub(crate) fn add_operand<'a>(
    number: usize,
    operand: Option<&'a Core>,
    next: &Partial,
    walk: &mut Walk<'_>,
    operands: &mut Vec<Operand<'a>>,
) -> Result<(), Fault> {
    if let Some(core) = operand
        && let Some(value) = walk.value(core, next)?
    {
        operands.push(Operand {
            number,
            core,
            value,
        })?;
    }
    Ok(())
}

/// The set S, if the operand is `Cardinality(S)` and S is no variable, which the state shows.
fn counted_set(operand: Option<&Core>) -> Option<&Core> {
    match operand {
        Some(Core::Unary(_, Unary::Cardinality, set)) => match set.as_ref() {
            Core::Now(_, _) => None,
            other => Some(other),
        },
        _ => None,
    }
}

/// The operands whose values are shown.
pub(crate) fn shown_operands(part: &Core) -> (Option<&Core>, Option<&Core>) {
    match part {
        Core::Equal(_, left, right) | Core::Binary(_, _, left, right) => {
            (Some(left.as_ref()), Some(right.as_ref()))
        }
        Core::Member(_, left, right)
        | Core::NotMember(_, left, right)
        | Core::Subset(_, left, right) => (Some(left.as_ref()), shown_set(right)),
        Core::ForAll(_, set, _) | Core::ForSome(_, set, _) => (shown_set(set), None),
        Core::Unary(_, _, operand) => (Some(operand.as_ref()), None),
        _ => (None, None),
    }
}

/// A set, unless it takes long to build or its text shows it.
fn shown_set(set: &Core) -> Option<&Core> {
    match set {
        Core::Constant(_, _)
        | Core::Bound(_, _)
        | Core::Now(_, _)
        | Core::Next(_, _)
        | Core::Apply(_, _, _)
        | Core::Field(_, _, _)
        | Core::Unary(_, _, _) => Some(set),
        _ => None,
    }
}
