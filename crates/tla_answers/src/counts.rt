//! How many parts a set or a function would have.

use tla_core::{Binary, Core, Unary};
use tla_steps::Operand;
use tla_value::{SetValue, Value};

/// How many parts the value of a node has, if that is certain.
pub(crate) fn count_of(node: &Core, operands: &[Operand<'_>]) -> Option<u128> {
    match (node, operands) {
        (Core::Binary(_, Binary::Range, _, _), [low, high]) => {
            range_size(&low.value, &high.value)
        }
        (Core::Binary(_, Binary::Concat, _, _), [left, right]) => {
            Some(size_of(&left.value)?.saturating_add(size_of(&right.value)?))
        }
        (Core::Binary(_, Binary::Append, _, _), [sequence, _]) => {
            Some(size_of(&sequence.value)?.saturating_add(1))
        }
        (Core::Power(_, _), [set]) => Some(power_of(2, size_of(&set.value)?)),
        (Core::Functions(_, _, _), [domain, range]) => {
            Some(power_of(size_of(&range.value)?, size_of(&domain.value)?))
        }
        (Core::Product(_, _) | Core::Records(_, _), _) => product_of(operands),
        (Core::Function(_, sets, _), _) => product_over(sets, operands),
        _ => None,
    }
}

/// The most parts that it may have; equal ones may count once.
pub(crate) fn most_of(node: &Core, operands: &[Operand<'_>]) -> Option<u128> {
    match (node, operands) {
        (Core::Image(_, sets, _), _) => product_over(sets, operands),
        (Core::Cup(_, _, _) | Core::Binary(_, Binary::Override, _, _), [left, right]) => {
            Some(size_of(&left.value)?.saturating_add(size_of(&right.value)?))
        }
        (Core::Unary(_, Unary::Union, _), [sets]) => match &sets.value {
            Value::Set(sets) => sum_of(sets),
            _ => None,
        },
        _ => None,
    }
}

/// The number of elements of a range that isn't empty.
fn range_size(low: &Value, high: &Value) -> Option<u128> {
    match (low, high) {
        (Value::Int(low), Value::Int(high)) => {
            Some(u128::from(high.abs_diff(*low)).saturating_add(1))
        }
        (_, _) => None,
    }
}

/// How many parts a set or a function has.
fn size_of(value: &Value) -> Option<u128> {
    match value {
        Value::Set(set) => Some(set.len() as u128),
        Value::Fun(function) => Some(function.len() as u128),
        _ => None,
    }
}

/// A power, or `u128::MAX`.
fn power_of(base: u128, exponent: u128) -> u128 {
    base.saturating_pow(u32::try_from(exponent).unwrap_or(u32::MAX))
}

/// The sum of the sizes of the members of a set, or `u128::MAX`.
fn sum_of(sets: &SetValue) -> Option<u128> {
    let mut count: u128 = 0;
    for set in sets.items() {
        count = count.saturating_add(size_of(set)?);
    }
    Some(count)
}

/// The product of the sizes of sets, or `u128::MAX`.
fn product_of(operands: &[Operand<'_>]) -> Option<u128> {
    let mut count: u128 = 1;
    for operand in operands {
        count = count.saturating_mul(size_of(&operand.value)?);
    }
    Some(count)
}

/// The product of the sizes of the sets of bound names. If not all sets were evaluated, each has to show its size.
fn product_over(sets: &[Core], operands: &[Operand<'_>]) -> Option<u128> {
    if operands.len() == sets.len() {
        return product_of(operands);
    }
    let mut count: u128 = 1;
    for set in sets {
        count = count.saturating_mul(shown_size(set)?);
    }
    Some(count)
}

/// The size of a set that shows it: a range between numbers, or elements in braces.
fn shown_size(set: &Core) -> Option<u128> {
    match set {
        Core::Binary(_, Binary::Range, low, high) => {
            range_size(shown_value(low)?, shown_value(high)?)
        }
        Core::Enumerated(_, items) => Some(items.len() as u128),
        Core::Booleans(_) => Some(2),
        _ => size_of(shown_value(set)?),
    }
}

/// The value of a constant.
fn shown_value(core: &Core) -> Option<&Value> {
    match core {
        Core::Constant(_, value) => Some(value),
        Core::Literal(literal) => Some(literal.value()),
        _ => None,
    }
}
