//! The part of an expression that faults: the node of the fault, and the values of its operands.

use crate::chosen::Chosen;
use crate::reason::{Operand, add_operand, shown_operands};
use crate::walk::Walk;
use std::alloc::Global;
use std::mem;
use tla_core::{Core, Fault, Place};
use tla_eval::Partial;
use tla_value::{State, Text, Value};

/// The node of a fault.
#[derive(Drop)]
pub struct Culprit<'a> {
    /// The nodes on the path to it, from the root. The last one is the node itself.
    pub nodes: Vec<&'a Core>,
    /// The values of the bound names in scope, the outermost first.
    pub chosen: Vec<Chosen>,
    /// Those of its operands that have a value.
    pub operands: Vec<Operand<'a>>,
    /// Its own value, if it has one: then the fault is that this is no truth value.
    pub value: Option<Value>,
}

/// The fault that is searched for, and the path to the current node.
#[derive(Drop)]
pub(crate) struct Hunt<'a, 's> {
    pub(crate) fault: Fault,
    pub(crate) walk: Walk<'s>,
    pub(crate) nodes: Vec<&'a Core>,
    culprit: Option<Culprit<'a>>,
}

impl<'a, 's> Hunt<'a, 's> {
    pub(crate) fn new(
        alloc: Global,
        fault: &Fault,
        now: Option<&'s State>,
        budget: u64,
    ) -> Hunt<'a, 's> {
        Hunt {
            fault: *fault,
            walk: Walk::new(alloc, now, budget),
            nodes: Vec::new(alloc),
            culprit: None,
        }
    }

    /// Descends from an expression, if it has the fault; else returns false.
    pub(crate) fn descend(&mut self, core: &'a Core, next: &Partial) -> Result<bool, Fault> {
        hunt_if_faulty(core, next, self)
    }

    /// Whether an expression has the fault that is searched for.
    fn is_faulty(&mut self, core: &Core, next: &Partial) -> Result<bool, Fault> {
        Ok(self.walk.fault(core, next)? == Some(self.fault))
    }

    pub(crate) fn into_culprit(self) -> Option<Culprit<'a>> {
        self.culprit
    }
}

/// The node at which an expression faults, if at most `budget` evaluations find it. The only error is that memory ran
/// out.
pub fn culprit_in<'a>(
    alloc: Global,
    core: &'a Core,
    fault: &Fault,
    now: Option<&State>,
    budget: u64,
) -> Result<Option<Culprit<'a>>, Fault> {
    let next = Partial::unset(alloc, 0)?;
    let mut hunt = Hunt::new(alloc, fault, now, budget);
    hunt_in(core, &next, &mut hunt)?;
    Ok(hunt.into_culprit())
}

/// Descends from an expression that faults.
#[cycle(hunt)]
pub(crate) fn hunt_in<'a>(
    core: &'a Core,
    next: &Partial,
    hunt: &mut Hunt<'a, '_>,
) -> Result<(), Fault> {
    hunt.nodes.push(core)?;
    if !hunt_in_parts(core, next, hunt)? {
        accuse(core, next, hunt)?;
    }
    Ok(())
}

/// Descends from an expression, if it has the fault; else returns false.
#[cycle(hunt)]
fn hunt_if_faulty<'a>(
    core: &'a Core,
    next: &Partial,
    hunt: &mut Hunt<'a, '_>,
) -> Result<bool, Fault> {
    let is_faulty = hunt.is_faulty(core, next)?;
    if is_faulty {
        hunt_in(core, next, hunt)?;
    }
    Ok(is_faulty)
}

/// Descends to the first part that faults; false if none does.
#[cycle(hunt)]
fn hunt_in_parts<'a>(
    core: &'a Core,
    next: &Partial,
    hunt: &mut Hunt<'a, '_>,
) -> Result<bool, Fault> {
    match core {
        Core::Conjunction(_, parts) | Core::Disjunction(_, parts) => {
            hunt_in_all(parts, next, hunt)
        }
        Core::Enumerated(_, parts) | Core::Tuple(_, parts) | Core::Product(_, parts) => {
            hunt_in_all(parts, next, hunt)
        }
        Core::Record(_, fields) | Core::Records(_, fields) => hunt_in_fields(fields, next, hunt),
        Core::If(_, condition, yes, no) => match hunt.walk.truth(condition, next)? {
            Some(true) => hunt_if_faulty(yes, next, hunt),
            Some(false) => hunt_if_faulty(no, next, hunt),
            None => hunt_if_faulty(condition, next, hunt),
        },
        Core::Cases(_, arms, None) => hunt_in_arms(arms, next, hunt),
        Core::Cases(_, arms, Some(last)) => {
            Ok(hunt_in_arms(arms, next, hunt)? || hunt_if_faulty(last, next, hunt)?)
        }
        _ => hunt_in_body(core, next, hunt),
    }
}

/// Descends into the sets, the body or the updates of a form that binds names.
#[cycle(hunt)]
fn hunt_in_body<'a>(
    core: &'a Core,
    next: &Partial,
    hunt: &mut Hunt<'a, '_>,
) -> Result<bool, Fault> {
    match core {
        Core::ForAll(_, set, body)
        | Core::ForSome(_, set, body)
        | Core::Choose(_, set, body)
        | Core::Filter(_, set, body) => {
            Ok(hunt_if_faulty(set, next, hunt)? || hunt_by_element(body, set, core, next, hunt)?)
        }
        Core::Image(_, sets, body) | Core::Function(_, sets, body) => {
            Ok(hunt_in_all(sets, next, hunt)? || hunt_by_tuple(body, sets, core, next, hunt)?)
        }
        Core::Except(_, function, updates) => {
            if hunt_if_faulty(function, next, hunt)? {
                return Ok(true);
            }
            let Some(old) = hunt.walk.value(function, next)? else {
                return Ok(false);
            };
            hunt_in_updates(updates, &old, next, hunt)
        }
        Core::Destructure(place, openings, body) => {
            let count = hunt.walk.len();
            if !hunt.walk.open(*place, openings)? {
                return Ok(false);
            }
            let outcome = hunt_if_faulty(body, next, hunt);
            hunt.walk.truncate(count);
            outcome
        }
        _ => hunt_in_operands(core, next, hunt),
    }
}

/// Descends to the first operand that faults.
#[cycle(hunt)]
fn hunt_in_operands<'a>(
    core: &'a Core,
    next: &Partial,
    hunt: &mut Hunt<'a, '_>,
) -> Result<bool, Fault> {
    match core {
        Core::Unary(_, _, part)
        | Core::Field(_, _, part)
        | Core::Sequences(_, part)
        | Core::Power(_, part)
        | Core::CheckPattern(_, _, part)
        | Core::Assert(_, part, _) => hunt_if_faulty(part, next, hunt),
        Core::Binary(_, _, left, right)
        | Core::Apply(_, left, right)
        | Core::Equal(_, left, right)
        | Core::Implies(_, left, right)
        | Core::Functions(_, left, right)
        | Core::Member(_, left, right)
        | Core::NotMember(_, left, right)
        | Core::Subset(_, left, right)
        | Core::Cup(_, left, right)
        | Core::Cap(_, left, right)
        | Core::Minus(_, left, right) => {
            Ok(hunt_if_faulty(left, next, hunt)? || hunt_if_faulty(right, next, hunt)?)
        }
        Core::SubSeq(_, sequence, low, high) => {
            Ok(
                hunt_if_faulty(sequence, next, hunt)?
                    || hunt_if_faulty(low, next, hunt)?
                    || hunt_if_faulty(high, next, hunt)?,
            )
        }
        _ => Ok(false),
    }
}

#[cycle(hunt)]
fn hunt_in_all<'a>(
    parts: &'a [Core],
    next: &Partial,
    hunt: &mut Hunt<'a, '_>,
) -> Result<bool, Fault> {
    for part in parts {
        if hunt_if_faulty(part, next, hunt)? {
            return Ok(true);
        }
    }
    Ok(false)
}

#[cycle(hunt)]
fn hunt_in_fields<'a>(
    fields: &'a [(Text, Core)],
    next: &Partial,
    hunt: &mut Hunt<'a, '_>,
) -> Result<bool, Fault> {
    for field in fields {
        if hunt_if_faulty(&field.1, next, hunt)? {
            return Ok(true);
        }
    }
    Ok(false)
}

/// Descends to the first condition that faults, or to the value of the first arm whose condition is TRUE.
#[cycle(hunt)]
fn hunt_in_arms<'a>(
    arms: &'a [(Core, Core)],
    next: &Partial,
    hunt: &mut Hunt<'a, '_>,
) -> Result<bool, Fault> {
    for (condition, value) in arms {
        match hunt.walk.truth(condition, next)? {
            Some(true) => return hunt_if_faulty(value, next, hunt),
            Some(false) => {}
            None => return hunt_if_faulty(condition, next, hunt),
        }
    }
    Ok(false)
}

/// Descends into a body at the first element at which it faults.
#[cycle(hunt)]
fn hunt_by_element<'a>(
    body: &'a Core,
    set: &'a Core,
    core: &'a Core,
    next: &Partial,
    hunt: &mut Hunt<'a, '_>,
) -> Result<bool, Fault> {
    let Some(elements) = hunt.walk.elements(set, next)? else {
        return Ok(false);
    };
    let count = hunt.walk.len();
    for element in elements {
        hunt.walk.bind(core.place(), element)?;
        let outcome = hunt_if_faulty(body, next, hunt);
        hunt.walk.truncate(count);
        if outcome? {
            return Ok(true);
        }
    }
    Ok(false)
}

/// Descends into a body at the first tuple of elements of these sets at which it faults.
#[cycle(hunt)]
fn hunt_by_tuple<'a>(
    body: &'a Core,
    sets: &'a [Core],
    core: &'a Core,
    next: &Partial,
    hunt: &mut Hunt<'a, '_>,
) -> Result<bool, Fault> {
    let mut lists = Vec::new(hunt.walk.alloc());
    for set in sets {
        match hunt.walk.elements(set, next)? {
            Some(elements) => lists.push(elements)?,
            None => return Ok(false),
        }
    }
    let count = hunt.walk.len();
    for number in 0..u64::MAX {
        if !bind_tuple(core, &lists, number, hunt)? {
            return Ok(false);
        }
        let outcome = hunt_if_faulty(body, next, hunt);
        hunt.walk.truncate(count);
        if outcome? {
            return Ok(true);
        }
    }
    Ok(false)
}

/// Binds the names of a form to tuple `number` of elements, the last name varying fastest; false if there are fewer
/// tuples.
fn bind_tuple(
    core: &Core,
    lists: &[Vec<Value>],
    number: u64,
    hunt: &mut Hunt<'_, '_>,
) -> Result<bool, Fault> {
    let mut block: u64 = 1;
    for list in lists {
        block = block.saturating_mul(list.len() as u64);
    }
    if number >= block {
        return Ok(false);
    }
    let count = hunt.walk.len();
    for list in lists {
        let len = list.len() as u64;
        block = block.checked_div(len).unwrap_or(0);
        let index = number
            .checked_div(block)
            .unwrap_or(0)
            .checked_rem(len)
            .unwrap_or(0);
        match list.get(index as usize) {
            Some(element) => hunt.walk.bind_copy(core.place(), element)?,
            None => {
                hunt.walk.truncate(count);
                return Ok(false);
            }
        }
    }
    Ok(true)
}

/// Descends to the first key or new value of an EXCEPT that faults.
#[cycle(hunt)]
fn hunt_in_updates<'a>(
    updates: &'a [(Vec<Core>, Core)],
    old: &Value,
    next: &Partial,
    hunt: &mut Hunt<'a, '_>,
) -> Result<bool, Fault> {
    for (keys, value) in updates {
        for key in keys {
            if hunt_if_faulty(key, next, hunt)? {
                return Ok(true);
            }
        }
        if !bind_old_at(keys, old, next, hunt)? {
            continue;
        }
        let count = hunt.walk.len().saturating_sub(1);
        let outcome = hunt_if_faulty(value, next, hunt);
        hunt.walk.truncate(count);
        if outcome? {
            return Ok(true);
        }
    }
    Ok(false)
}

/// Binds the value of a function at the end of a path; false if there is none.
fn bind_old_at(
    keys: &[Core],
    function: &Value,
    next: &Partial,
    hunt: &mut Hunt<'_, '_>,
) -> Result<bool, Fault> {
    let mut at = function;
    for key in keys {
        let Some(argument) = hunt.walk.value(key, next)? else {
            return Ok(false);
        };
        match value_at(at, &argument) {
            Some(value) => at = value,
            None => return Ok(false),
        }
    }
    hunt.walk.bind_old(at)?;
    Ok(true)
}

/// The value of a function at an argument, if there is one.
pub(crate) fn value_at<'v>(value: &'v Value, argument: &Value) -> Option<&'v Value> {
    match value {
        Value::Fun(function) => function.apply(argument),
        _ => None,
    }
}

/// Records a node as the one that faults, if the fault is at its place.
pub(crate) fn accuse<'a>(
    core: &'a Core,
    next: &Partial,
    hunt: &mut Hunt<'a, '_>,
) -> Result<(), Fault> {
    if hunt.fault.place != Some(fault_place(core, hunt.fault.place)) {
        return Ok(());
    }
    let alloc = hunt.walk.alloc();
    let mut operands = Vec::new(alloc);
    add_operands(core, next, hunt, &mut operands)?;
    let value = hunt.walk.value(core, next)?;
    let culprit = Culprit {
        nodes: mem::replace(&mut hunt.nodes, Vec::new(alloc)),
        chosen: hunt.walk.bound_choices()?,
        operands,
        value,
    };
    hunt.culprit = Some(culprit);
    Ok(())
}

/// The place of a fault of a node: a test of membership may fault at the place of the set.
fn fault_place(core: &Core, place: Option<Place>) -> Place {
    match core {
        Core::Member(_, _, set) | Core::NotMember(_, _, set) | Core::Subset(_, _, set)
            if place == Some(set.place()) => { set.place() }
        _ => core.place(),
    }
}

/// Adds the operands that a node evaluates first.
fn add_operands<'a>(
    core: &'a Core,
    next: &Partial,
    hunt: &mut Hunt<'a, '_>,
    operands: &mut Vec<Operand<'a>>,
) -> Result<(), Fault> {
    match core {
        Core::Conjunction(_, parts) | Core::Disjunction(_, parts) | Core::Product(_, parts) => {
            add_all(parts, next, hunt, operands)
        }
        Core::Image(_, sets, _) | Core::Function(_, sets, _) => {
            add_all(sets, next, hunt, operands)
        }
        Core::Records(_, fields) => add_fields(fields, next, hunt, operands),
        Core::Assert(_, condition, text) => {
            add_operand(0, Some(condition), next, &mut hunt.walk, operands)?;
            add_operand(1, Some(text), next, &mut hunt.walk, operands)?;
            let (left, right) = shown_operands(condition);
            add_operand(2, left, next, &mut hunt.walk, operands)?;
            add_operand(3, right, next, &mut hunt.walk, operands)
        }
        Core::SubSeq(_, sequence, low, high) => {
            add_operand(0, Some(sequence), next, &mut hunt.walk, operands)?;
            add_operand(1, Some(low), next, &mut hunt.walk, operands)?;
            add_operand(2, Some(high), next, &mut hunt.walk, operands)
        }
        _ => {
            let (left, right) = two_operands(core);
            add_operand(0, left, next, &mut hunt.walk, operands)?;
            add_operand(1, right, next, &mut hunt.walk, operands)
        }
    }
}

fn add_all<'a>(
    parts: &'a [Core],
    next: &Partial,
    hunt: &mut Hunt<'a, '_>,
    operands: &mut Vec<Operand<'a>>,
) -> Result<(), Fault> {
    for (number, part) in parts.iter().enumerate() {
        add_operand(number, Some(part), next, &mut hunt.walk, operands)?;
    }
    Ok(())
}

fn add_fields<'a>(
    fields: &'a [(Text, Core)],
    next: &Partial,
    hunt: &mut Hunt<'a, '_>,
    operands: &mut Vec<Operand<'a>>,
) -> Result<(), Fault> {
    for (number, field) in fields.iter().enumerate() {
        add_operand(number, Some(&field.1), next, &mut hunt.walk, operands)?;
    }
    Ok(())
}

/// The operands of a node that has one or two.
fn two_operands(core: &Core) -> (Option<&Core>, Option<&Core>) {
    match core {
        Core::Unary(_, _, part)
        | Core::Field(_, _, part)
        | Core::Sequences(_, part)
        | Core::Power(_, part)
        | Core::CheckPattern(_, _, part)
        | Core::If(_, part, _, _)
        | Core::Except(_, part, _)
        | Core::ForAll(_, part, _)
        | Core::ForSome(_, part, _)
        | Core::Choose(_, part, _)
        | Core::Filter(_, part, _) => (Some(part.as_ref()), None),
        Core::Binary(_, _, left, right)
        | Core::Apply(_, left, right)
        | Core::Equal(_, left, right)
        | Core::Implies(_, left, right)
        | Core::Functions(_, left, right)
        | Core::Member(_, left, right)
        | Core::NotMember(_, left, right)
        | Core::Subset(_, left, right)
        | Core::Cup(_, left, right)
        | Core::Cap(_, left, right)
        | Core::Minus(_, left, right) => (Some(left.as_ref()), Some(right.as_ref())),
        _ => (None, None),
    }
}
