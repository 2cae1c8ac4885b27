//! Why a value isn't in a set: the element or the part of it that isn't in the set where it should be.

use crate::walk::Walk;
use tla_core::{Core, Fault, memory};
use tla_eval::Partial;
use tla_value::{Arguments, FunValue, Text, Value};

/// An element of a set, or a value of a function, that isn't in the set where it should be.
#[derive(Drop)]
pub struct Stray<'a> {
    /// The argument; none for an element.
    pub at: Option<Value>,
    pub value: Value,
    pub set: &'a Core,
}

/// Why the left side of a membership that is FALSE isn't in the right side, if a part of it shows that.
pub(crate) fn stray_in<'a>(
    part: &'a Core,
    next: &Partial,
    walk: &mut Walk<'_>,
) -> Result<Option<Stray<'a>>, Fault> {
    match part {
        Core::Subset(_, left, set) => match walk.value(left, next)? {
            Some(value) => stray_element(&value, set, next, walk),
            None => Ok(None),
        },
        Core::Member(_, left, set) => match walk.value(left, next)? {
            Some(value) => stray_of(&value, set, next, walk),
            None => Ok(None),
        },
        _ => Ok(None),
    }
}

/// Why a value isn't in a set of sets, of functions, of records or of sequences.
fn stray_of<'a>(
    value: &Value,
    set: &'a Core,
    next: &Partial,
    walk: &mut Walk<'_>,
) -> Result<Option<Stray<'a>>, Fault> {
    match (set, value) {
        (Core::Power(_, base), _) => stray_element(value, base, next, walk),
        (Core::Functions(_, _, range), Value::Fun(function)) => {
            stray_value(function, range, next, walk)
        }
        (Core::Sequences(_, range), Value::Fun(function)) => {
            stray_value(function, range, next, walk)
        }
        (Core::Records(_, fields), Value::Fun(function)) => {
            stray_field(function, fields, next, walk)
        }
        _ => Ok(None),
    }
}

/// The first element of a value that isn't in a set.
fn stray_element<'a>(
    value: &Value,
    set: &'a Core,
    next: &Partial,
    walk: &mut Walk<'_>,
) -> Result<Option<Stray<'a>>, Fault> {
    let Value::Set(elements) = value else {
        return Ok(None);
    };
    for element in elements.items() {
        if walk.has(element, set, next)? == Some(false) {
            return Ok(Some(Stray {
                at: None,
                value: walk.copy(element)?,
                set,
            }));
        }
    }
    Ok(None)
}

/// The first value of a function that isn't in a set.
fn stray_value<'a>(
    function: &FunValue,
    set: &'a Core,
    next: &Partial,
    walk: &mut Walk<'_>,
) -> Result<Option<Stray<'a>>, Fault> {
    for (index, value) in function.values().iter().enumerate() {
        if walk.has(value, set, next)? == Some(false) {
            return Ok(Some(Stray {
                at: argument_at(function, index, walk)?,
                value: walk.copy(value)?,
                set,
            }));
        }
    }
    Ok(None)
}

fn argument_at(
    function: &FunValue,
    index: usize,
    walk: &mut Walk<'_>,
) -> Result<Option<Value>, Fault> {
    match function.arguments() {
        Arguments::Numbers(first) => {
            let index = i64::try_from(index).unwrap_or(i64::MAX);
            Ok(Some(Value::Int(first.saturating_add(index))))
        }
        Arguments::Listed(keys) => match keys.get(index) {
            Some(key) => Ok(Some(walk.copy(key)?)),
            None => Ok(None),
        },
    }
}

/// The first field of a record whose value isn't in the field's set.
fn stray_field<'a>(
    record: &FunValue,
    fields: &'a [(Text, Core)],
    next: &Partial,
    walk: &mut Walk<'_>,
) -> Result<Option<Stray<'a>>, Fault> {
    for (name, set) in fields {
        let Ok(name) = name.copy(walk.alloc()) else {
            return Err(memory());
        };
        let key = Value::Text(name);
        let Some(value) = record.apply(&key) else {
            return Ok(None);
        };
        if walk.has(value, set, next)? == Some(false) {
            return Ok(Some(Stray {
                at: Some(key),
                value: walk.copy(value)?,
                set,
            }));
        }
    }
    Ok(None)
}
