//! Operators on numbers.
ghost use Rattle.std.specs.Prelude.{◌≡◌, ℤ, ◌+ℤ◌, ◌-ℤ◌, ◌*ℤ◌, ◌≤ℤ◌, ◌<ℤ◌, ◌≤◌, ◌^◌, pos, neg_ℤ, FitsSigned};
ghost use Rattle.std.specs.Int.{w64, int_pow};
ghost use Rattle.std.specs.Option.{SomeIff};
ghost use Rattle.tla_value.specs.TreeOf.{tree_of};
ghost use Rattle.tla_core.specs.Kinds.{number};
ghost use Rattle.tla_core.specs.Operators.{quotient, remainder, power_of};
ghost use Rattle.tla_operators.specs.Gives.{Gives};

use crate::fault_ref::{FaultRef, fault_at};
use tla_core::{FaultCode, Place};
use tla_value::Value;

/// The result of a checked operation as a value; a fault if it isn't within 64 bits.
#[tactic(auto, using(crate::proofs::Numbers::number_in_range, crate::proofs::Numbers::number_outside))]
pub(crate) fn number(place: &Place, checked: Option<i64>) -> Result<Value, FaultRef<'_>>
    ensures { (z : ℤ) → SomeIff checked (FitsSigned w64 z) z → Gives result (number place.now z) }
{
    match checked {
        Some(number) => Ok(Value::Int(number)),
        None => Err(fault_at(FaultCode::Overflow, place)),
    }
}

pub(crate) fn add(place: &Place, left: i64, right: i64) -> Result<Value, FaultRef<'_>>
    ensures { Gives result (number place.now (left +ℤ right)) }
{
    number(place, left.checked_add(right))
}

pub(crate) fn subtract(place: &Place, left: i64, right: i64) -> Result<Value, FaultRef<'_>>
    ensures { Gives result (number place.now (left -ℤ right)) }
{
    number(place, left.checked_sub(right))
}

pub(crate) fn multiply(place: &Place, left: i64, right: i64) -> Result<Value, FaultRef<'_>>
    ensures { Gives result (number place.now (left *ℤ right)) }
{
    number(place, left.checked_mul(right))
}

pub(crate) fn negate(place: &Place, operand: i64) -> Result<Value, FaultRef<'_>>
    ensures { Gives result (number place.now (neg_ℤ operand)) }
{
    number(place, operand.checked_neg())
}

/// `\div`: rounded down, for a divisor above 0.
pub(crate) fn divide(place: &Place, left: i64, right: i64) -> Result<Value, FaultRef<'_>>
    ensures { Gives result (quotient place.now left right) }
{
    if right > 0 {
        Ok(Value::Int(left.div_euclid(right)))
    } else {
        Err(fault_at(FaultCode::SmallDivisor, place))
    }
}

/// `%`: not negative, for a divisor above 0.
pub(crate) fn modulo(place: &Place, left: i64, right: i64) -> Result<Value, FaultRef<'_>>
    ensures { Gives result (remainder place.now left right) }
{
    if right > 0 {
        Ok(Value::Int(left.rem_euclid(right)))
    } else {
        Err(fault_at(FaultCode::SmallDivisor, place))
    }
}

pub(crate) fn power(place: &Place, base: i64, exponent: i64) -> Result<Value, FaultRef<'_>>
    ensures { Gives result (power_of place.now base exponent) }
{
    if exponent < 0 {
        return Err(fault_at(FaultCode::NegativeExponent, place));
    }
    natural_power(place, base, exponent.unsigned_abs())
}

fn natural_power(place: &Place, base: i64, exponent: u64) -> Result<Value, FaultRef<'_>>
    ensures { Gives result (number place.now (int_pow base exponent)) }
{
    match u32::try_from(exponent) {
        Ok(exponent) => number(place, base.checked_pow(exponent)),
        Err(_) => high_power(place, base, exponent),
    }
}

/// A power with an exponent so large that only powers of -1, 0 and 1 are within 64 bits.
fn high_power(place: &Place, base: i64, exponent: u64) -> Result<Value, FaultRef<'_>>
    requires { 64 ≤ exponent }
    ensures { Gives result (number place.now (int_pow base exponent)) }
{
    if base == 0 {
        return Ok(Value::Int(0));
    }
    if base == 1 {
        return Ok(Value::Int(1));
    }
    if base != -1 {
        return Err(fault_at(FaultCode::Overflow, place));
    }
    if exponent % 2 == 0 {
        Ok(Value::Int(1))
    } else {
        Ok(Value::Int(-1))
    }
}
