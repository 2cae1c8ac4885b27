//! Operators applied to the values of their operands.
ghost use Rattle.std.specs.Prelude.{◌≡◌, ℤ, pos, length};
ghost use Rattle.tla_value.specs.TreeOf.{tree_of};
ghost use Rattle.tla_core.specs.Expr.{IsFinite, Cardinality, Iff};
ghost use Rattle.tla_core.specs.Kinds.{as_int};
ghost use Rattle.tla_core.specs.Operators.{unary_rule, binary_rule};
ghost use Rattle.tla_core.specs.ExprOf.{unary_of, binary_of, kind_of};
ghost use Rattle.tla_operators.specs.Evaluated.{Evaluates, tree_of_evaluated};
ghost use Rattle.tla_core.specs.Membership.{is_of_kind, is_truth};
ghost use Rattle.tla_operators.specs.Gives.{Gives, GivesBy, two_ints};

use crate::arithmetic::{add, divide, modulo, multiply, negate, power, subtract};
use crate::evaluated::Evaluated;
use crate::fault_ref::{FaultRef, fault_at};
use crate::functions::{domain, override_with, single};
use crate::rules::{as_truth, copied};
use crate::sequences::{append, concat, first_item, head, length, tail};
use crate::sets::{range, union_all};
use std::alloc::Global;
use tla_core::{Binary, FaultCode, Kind, Place, Unary};
use tla_value::{SetValue, Value};

/// The result of an operator on one value, or its fault.
pub fn unary<'p, 'a>(
    alloc: Global,
    place: &'p Place,
    operator: Unary,
    operand: Evaluated<'a>,
) -> Result<Evaluated<'a>, FaultRef<'p>>
    ensures { Evaluates result
        (unary_rule (unary_of operator) place.now (tree_of_evaluated operand.entry)) }
{
    match operator {
        Unary::Head => head(alloc, place, operand),
        _ => Ok(Evaluated::Owned(made_by_unary(alloc, place, operator, operand.value())?)),
    }
}

/// The same, for an operator whose result is a new value.
fn made_by_unary<'p>(
    alloc: Global,
    place: &'p Place,
    operator: Unary,
    operand: &Value,
) -> Result<Value, FaultRef<'p>>
    ensures { Gives result (unary_rule (unary_of operator) place.now (tree_of operand.now)) }
{
    match operator {
        Unary::Not => Ok(Value::Truth(!as_truth(operand, place)?)),
        Unary::Negate => negate(place, as_int(place, operand)?),
        Unary::Union => union_all(alloc, place, operand),
        Unary::Domain => domain(alloc, place, operand),
        Unary::Len => length(place, operand),
        Unary::Head => copied(alloc, first_item(place, operand)?),
        Unary::Tail => tail(alloc, place, operand),
        Unary::IsFinite => is_finite(place, operand),
        Unary::Cardinality => cardinality(place, operand),
    }
}

/// A value as a number; another value is a fault.
fn as_int<'p>(place: &'p Place, operand: &Value) -> Result<i64, FaultRef<'p>>
    ensures { GivesBy (λ (z : ℤ). z) result (as_int place.now (tree_of operand.now)) }
{
    match operand {
        Value::Int(number) => Ok(*number),
        _ => Err(fault_at(FaultCode::WrongKind, place)),
    }
}

fn is_finite<'p>(place: &'p Place, operand: &Value) -> Result<Value, FaultRef<'p>>
    ensures { Gives result (unary_rule IsFinite place.now (tree_of operand.now)) }
{
    match operand {
        Value::Set(_) => Ok(Value::Truth(true)),
        _ => Err(fault_at(FaultCode::WrongKind, place)),
    }
}

#[tactic(auto, using(crate::proofs::Known::as_set_known))]
fn cardinality<'p>(place: &'p Place, operand: &Value) -> Result<Value, FaultRef<'p>>
    ensures { Gives result (unary_rule Cardinality place.now (tree_of operand.now)) }
{
    match operand {
        Value::Set(set) => Ok(Value::Int(count_of(set))),
        _ => Err(fault_at(FaultCode::WrongKind, place)),
    }
}

/// How many members a set has.
fn count_of(set: &SetValue) -> i64
    ensures { result ≡ pos (length set.now) }
{
    set.items().len() as i64
}

/// The result of an operator on two values, or its fault.
pub fn binary<'p>(
    alloc: Global,
    place: &'p Place,
    operator: Binary,
    left: &Value,
    right: &Value,
) -> Result<Value, FaultRef<'p>>
    ensures { Gives result
        (binary_rule (binary_of operator) place.now (tree_of left.now) (tree_of right.now)) }
{
    match operator {
        Binary::Iff => iff(place, left, right),
        Binary::Unequal => Ok(Value::Truth(left != right)),
        Binary::Add => {
            let (left, right) = two_ints(place, left, right)?;
            add(place, left, right)
        }
        Binary::Subtract => {
            let (left, right) = two_ints(place, left, right)?;
            subtract(place, left, right)
        }
        Binary::Multiply => {
            let (left, right) = two_ints(place, left, right)?;
            multiply(place, left, right)
        }
        Binary::Divide => {
            let (left, right) = two_ints(place, left, right)?;
            divide(place, left, right)
        }
        Binary::Modulo => {
            let (left, right) = two_ints(place, left, right)?;
            modulo(place, left, right)
        }
        Binary::Power => {
            let (left, right) = two_ints(place, left, right)?;
            power(place, left, right)
        }
        Binary::LessThan => {
            let (left, right) = two_ints(place, left, right)?;
            Ok(Value::Truth(left < right))
        }
        Binary::GreaterThan => {
            let (left, right) = two_ints(place, left, right)?;
            Ok(Value::Truth(left > right))
        }
        Binary::AtMost => {
            let (left, right) = two_ints(place, left, right)?;
            Ok(Value::Truth(left <= right))
        }
        Binary::AtLeast => {
            let (left, right) = two_ints(place, left, right)?;
            Ok(Value::Truth(left >= right))
        }
        Binary::Range => {
            let (left, right) = two_ints(place, left, right)?;
            range(alloc, place, left, right)
        }
        Binary::Single => single(alloc, place, left, right),
        Binary::Override => override_with(alloc, place, left, right),
        Binary::Concat => concat(alloc, place, left, right),
        Binary::Append => append(alloc, place, left, right),
    }
}

/// Two values as numbers; another value is a fault.
pub fn two_ints<'p>(
    place: &'p Place,
    left: &Value,
    right: &Value,
) -> Result<(i64, i64), FaultRef<'p>>
    ensures { GivesBy (λ (n : ℤ × ℤ). n) result
        (two_ints place.now (tree_of left.now) (tree_of right.now)) }
{
    match (left, right) {
        (Value::Int(left), Value::Int(right)) => Ok((*left, *right)),
        (_, _) => Err(fault_at(FaultCode::WrongKind, place)),
    }
}

fn iff<'p>(place: &'p Place, left: &Value, right: &Value) -> Result<Value, FaultRef<'p>>
    ensures { Gives result (binary_rule Iff place.now (tree_of left.now) (tree_of right.now)) }
{
    match (left, right) {
        (Value::Truth(left), Value::Truth(right)) => Ok(Value::Truth(*left == *right)),
        (_, _) => Err(fault_at(FaultCode::WrongKind, place)),
    }
}

/// Whether a value is a member of Nat, Int or STRING. These sets have no value themselves.
pub fn kind_has(kind: Kind, value: &Value) -> bool
    ensures { result ≡ is_of_kind (kind_of kind) (tree_of value.now) }
{
    match (kind, value) {
        (Kind::Naturals, Value::Int(number)) => *number >= 0,
        (Kind::Integers, Value::Int(_)) => true,
        (Kind::Strings, Value::Text(_)) => true,
        (_, _) => false,
    }
}

/// Whether a value is a truth value.
pub fn is_truth(value: &Value) -> bool
    ensures { result ≡ is_truth (tree_of value.now) }
{
    matches!(value, Value::Truth(_))
}
