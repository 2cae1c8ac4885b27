//! The parts of a changed value that are shown.

use crate::differences::{Change, Difference, Key, Path};
use crate::sequences::sequence_parts;
use std::alloc::{AllocError, Global};
use std::cmp::Ordering;
use tla_value::{Arguments, FunValue, SetValue, Value};

/// The parts by which a difference is shown, in order; none if it is shown whole: it has no parts, or nothing of the
/// old value remains.
pub(crate) fn parts_of<'a>(
    alloc: Global,
    difference: &Difference<'a>,
) -> Result<Option<Vec<Difference<'a>>>, AllocError> {
    let Change::Other(old, new) = difference.change else {
        return Ok(None);
    };
    let path = &difference.path;
    match (old, new) {
        (Value::Set(old), Value::Set(new)) => Ok(Some(set_parts(alloc, path, old, new)?)),
        (Value::Fun(old), Value::Fun(new)) if are_sequences(old, new) => {
            sequence_parts(alloc, path, old.values(), new.values())
        }
        (Value::Fun(old), Value::Fun(new)) => function_parts(alloc, path, old, new),
        _ => Ok(None),
    }
}

fn are_sequences(old: &FunValue, new: &FunValue) -> bool {
    old.as_sequence().is_some() && new.as_sequence().is_some()
}

/// The members that a set lost, and then the new ones.
fn set_parts<'a>(
    alloc: Global,
    path: &Path<'a>,
    old: &'a SetValue,
    new: &'a SetValue,
) -> Result<Vec<Difference<'a>>, AllocError> {
    let mut before = Entries::of_set(old);
    let mut after = Entries::of_set(new);
    let mut parts = Vec::new(alloc);
    let mut gained = Vec::new(alloc);
    for _ in 0..old.len().saturating_add(new.len()) {
        match next_of(&before, &after) {
            Next::None => break,
            Next::Gone(_, member) => {
                parts.push(path.became(Change::Lost(member))?)?;
                before.advance();
            }
            Next::New(_, member) => {
                gained.push(path.became(Change::Gained(member))?)?;
                after.advance();
            }
            Next::Both(_, _, _) => {
                before.advance();
                after.advance();
            }
        }
    }
    push_each(&mut parts, gained)?;
    Ok(parts)
}

fn push_each<'a>(
    parts: &mut Vec<Difference<'a>>,
    others: Vec<Difference<'a>>,
) -> Result<(), AllocError> {
    for other in others {
        parts.push(other)?;
    }
    Ok(())
}

/// The arguments of a function, each with its value, from one of them on. The members of a set count as arguments that
/// are their own values.
#[derive(Clone, Copy)]
struct Entries<'a> {
    arguments: Arguments<'a>,
    values: &'a [Value],
    place: usize,
}

impl<'a> Entries<'a> {
    fn of(function: &'a FunValue) -> Entries<'a> {
        Entries {
            arguments: function.arguments(),
            values: function.values(),
            place: 0,
        }
    }

    fn of_set(set: &'a SetValue) -> Entries<'a> {
        Entries {
            arguments: Arguments::Listed(set.items()),
            values: set.items(),
            place: 0,
        }
    }

    /// The first argument with its value, if there is one.
    fn first(&self) -> Option<(Key<'a>, &'a Value)> {
        let value = self.values.get(self.place)?;
        match self.arguments {
            Arguments::Numbers(first) => {
                let place = i64::try_from(self.place).unwrap_or(i64::MAX);
                Some((Key::Number(first.saturating_add(place)), value))
            }
            Arguments::Listed(listed) => Some((Key::Value(listed.get(self.place)?), value)),
        }
    }

    fn advance(&mut self) {
        self.place = self.place.saturating_add(1);
    }
}

/// The changes at the arguments of a function; none if both domains have arguments, but none in common.
fn function_parts<'a>(
    alloc: Global,
    path: &Path<'a>,
    old: &'a FunValue,
    new: &'a FunValue,
) -> Result<Option<Vec<Difference<'a>>>, AllocError> {
    let mut before = Entries::of(old);
    let mut after = Entries::of(new);
    let mut kept = old.is_empty() || new.is_empty();
    let mut parts = Vec::new(alloc);
    for _ in 0..old.len().saturating_add(new.len()) {
        match next_of(&before, &after) {
            Next::None => break,
            Next::Gone(key, value) => {
                parts.push(path.became_at(key, Change::Gone(value))?)?;
                before.advance();
            }
            Next::New(key, value) => {
                parts.push(path.became_at(key, Change::New(value))?)?;
                after.advance();
            }
            Next::Both(key, old, new) => {
                kept = true;
                if old != new {
                    parts.push(path.became_at(key, Change::Other(old, new))?)?;
                }
                before.advance();
                after.advance();
            }
        }
    }
    Ok(if kept { Some(parts) } else { None })
}

/// The least remaining argument of two functions, and which of them has it.
#[derive(Clone, Copy)]
enum Next<'a> {
    None,
    Gone(Key<'a>, &'a Value),
    New(Key<'a>, &'a Value),
    Both(Key<'a>, &'a Value, &'a Value),
}

fn next_of<'a>(before: &Entries<'a>, after: &Entries<'a>) -> Next<'a> {
    match (before.first(), after.first()) {
        (None, None) => Next::None,
        (Some((key, value)), None) => Next::Gone(key, value),
        (None, Some((key, value))) => Next::New(key, value),
        (Some((key, old)), Some((other, new))) => match compare(key, other) {
            Ordering::Less => Next::Gone(key, old),
            Ordering::Equal => Next::Both(key, old, new),
            Ordering::Greater => Next::New(other, new),
        },
    }
}

/// The order of two arguments.
fn compare(key: Key<'_>, other: Key<'_>) -> Ordering {
    match (key, other) {
        (Key::Number(number), Key::Number(second)) => number.cmp(&second),
        (Key::Number(number), Key::Value(value)) => Value::Int(number).cmp(value),
        (Key::Value(value), Key::Number(number)) => value.cmp(&Value::Int(number)),
        (Key::Value(value), Key::Value(second)) => value.cmp(second),
    }
}
