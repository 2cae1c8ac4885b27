//! Membership in sets that are not built: ranges and sets in braces.
ghost use Rattle.std.specs.Prelude.{◌≡◌, ◌<◌, ◌≤◌, length, map, true, IfOk, IfErr};
ghost use Rattle.tla_value.specs.Tree.{trees, depth, deepest};
ghost use Rattle.tla_value.specs.TreeOf.{tree_of};
ghost use Rattle.tla_value.specs.Order.{tree_eq};
ghost use Rattle.tla_value.specs.Sets.{is_member};
ghost use Rattle.tla_value.specs.Choices.{range_of};
ghost use Rattle.tla_core.specs.Expr.{Range};
ghost use Rattle.tla_core.specs.ExprOf.{binary_of};
ghost use Rattle.tla_core.specs.Fault.{out_of_memory};
ghost use Rattle.tla_core.specs.Kinds.{make_set, rising_set};
ghost use Rattle.tla_core.specs.Operators.{binary_rule};
ghost use Rattle.tla_operators.specs.Gives.{Gives, GivesTruth};
ghost use Rattle.tla_operators.specs.Evaluated.{tree_of_evaluated};
ghost use Rattle.tla_sets.specs.Elements.{has_rule, stands_rule};

use crate::elements::fits_range;
use std::alloc::Global;
use tla_core::{Binary, Place};
use tla_operators::evaluated::Evaluated;
use tla_operators::fault_ref::FaultRef;
use tla_operators::operators::{binary, two_ints};
use tla_operators::rules::copied;
use tla_operators::sets::{contains, made_set};
use tla_value::{MAX_ELEMENTS, MAX_NESTING, SetValue, Value};

/// Whether a value is a member of the result of an operator. A range is not built.
pub fn two_have<'p>(
    alloc: Global,
    place: &'p Place,
    operator: Binary,
    left: &Value,
    right: &Value,
    value: &Value,
) -> Result<bool, FaultRef<'p>>
    ensures { GivesTruth result
        (has_rule place.now (tree_of value.now)
        (binary_rule (binary_of operator) place.now (tree_of left.now) (tree_of right.now))) }
{
    match operator {
        Binary::Range => range_has(place, left, right, value),
        _ => contains(place, &binary(alloc, place, operator, left, right)?, value),
    }
}

/// Whether a value is in the range from one value to another; a fault if the range exceeds the limits.
fn range_has<'p>(
    place: &'p Place,
    left: &Value,
    right: &Value,
    value: &Value,
) -> Result<bool, FaultRef<'p>>
    ensures { GivesTruth result
        (has_rule place.now (tree_of value.now)
        (binary_rule Range place.now (tree_of left.now) (tree_of right.now))) }
{
    let (low, high) = two_ints(place, left, right)?;
    range_between_has(place, low, high, value)
}

/// Whether a value is in the range from `low` to `high`; a fault if the range exceeds the limits.
#[tactic(auto, using(crate::proofs::Known::has_known))]
fn range_between_has<'p>(
    place: &'p Place,
    low: i64,
    high: i64,
    value: &Value,
) -> Result<bool, FaultRef<'p>>
    ensures { GivesTruth result
        (has_rule place.now (tree_of value.now) (rising_set place.now (range_of low high))) }
{
    fits_range(place, low, high)?;
    Ok(is_between(value, low, high))
}

/// Whether a value is one of the numbers from `low` to `high`.
#[tactic(auto, using(crate::proofs::Ranges::no_truth, crate::proofs::Ranges::no_text, crate::proofs::Ranges::no_model, crate::proofs::Ranges::no_set, crate::proofs::Ranges::no_fun))]
fn is_between(value: &Value, low: i64, high: i64) -> bool
    ensures { result ≡ is_member (tree_of value.now) (range_of low high) }
{
    match value {
        Value::Int(number) => {
            let number = *number;
            if number < low {
                return false;
            }
            if high < number {
                return false;
            }
            true
        }
        Value::Truth(_) => false,
        Value::Text(_) => false,
        Value::Model(_) => false,
        Value::Set(_) => false,
        Value::Fun(_) => false,
    }
}

/// Whether a value is a member of the set of some values. The set is built only if it may exceed a limit.
pub fn set_has<'p>(
    alloc: Global,
    place: &'p Place,
    values: &[Evaluated<'_>],
    value: &Value,
) -> Result<bool, FaultRef<'p>>
    ensures { GivesTruth result
        (stands_rule place.now (map tree_of_evaluated values.now) (tree_of value.now)) }
{
    if are_within(values) {
        Ok(stands_in(values, value))
    } else {
        contains(place, &set_of_copies(alloc, place, values)?, value)
    }
}

/// Whether the set of some values is certainly within the limits.
fn are_within(values: &[Evaluated<'_>]) -> bool
    ensures few { result ≡ true → length values.now ≤ MAX_ELEMENTS }
    ensures shallow { result ≡ true
        → deepest (trees (map tree_of_evaluated values.now)) < MAX_NESTING }
{
    if values.len() > MAX_ELEMENTS {
        return false;
    }
    are_shallow(values)
}

/// Whether no value is nested too deep for a member.
fn are_shallow(values: &[Evaluated<'_>]) -> bool
    ensures { result ≡ true → deepest (trees (map tree_of_evaluated values.now)) < MAX_NESTING }
{
    for value in values {
        if nesting_of(value) >= MAX_NESTING {
            return false;
        }
    }
    true
}

/// How deep a value is nested.
fn nesting_of(value: &Evaluated<'_>) -> u64
    ensures { result ≡ depth (tree_of_evaluated value.now) }
{
    value.value().nesting()
}

/// Whether a value is in a list.
fn stands_in(values: &[Evaluated<'_>], value: &Value) -> bool
    ensures { result ≡ is_member (tree_of value.now) (map tree_of_evaluated values.now) }
{
    for other in values {
        if is_value(value, other) {
            return true;
        }
    }
    false
}

fn is_value(value: &Value, other: &Evaluated<'_>) -> bool
    ensures { result ≡ tree_eq (tree_of value.now) (tree_of_evaluated other.now) }
{
    value == other.value()
}

fn set_of_copies<'p>(
    alloc: Global,
    place: &'p Place,
    values: &[Evaluated<'_>],
) -> Result<Value, FaultRef<'p>>
    ensures { Gives result (make_set place.now (map tree_of_evaluated values.now)) }
{
    made_set(place, SetValue::from_values(alloc, copies(alloc, values)?))
}

fn copies<'p>(alloc: Global, values: &[Evaluated<'_>]) -> Result<Vec<Value>, FaultRef<'p>>
    ensures ok { IfOk result (λ v. map tree_of v.items ≡ map tree_of_evaluated values.now) }
    ensures err { IfErr result (λ f. f ≡ out_of_memory) }
{
    let mut copies = Vec::with_capacity(alloc, values.len())?;
    for value in values {
        copies.push(copied(alloc, value.value())?)?;
    }
    Ok(copies)
}
