//! Numbers, which need no value of their own.
ghost use Rattle.std.specs.Prelude.{◌≡◌, ℤ, Ok, FitsSigned};
ghost use Rattle.std.specs.Int.{w64};
ghost use Rattle.std.specs.Option.{SomeIff};
ghost use Rattle.tla_value.specs.Tree.{Tree, int, truth};
ghost use Rattle.tla_value.specs.TreeOf.{tree_of};
ghost use Rattle.tla_core.specs.declared.fault.Place.{Place as AnyPlace};
ghost use Rattle.tla_core.specs.ExprOf.{binary_of};
ghost use Rattle.tla_core.specs.Fault.{Outcome};
ghost use Rattle.tla_core.specs.Kinds.{number};
ghost use Rattle.tla_core.specs.Operators.{binary_rule};
ghost use Rattle.tla_code.specs.Forms.{two_expr};
ghost use Rattle.tla_code.specs.declared.code.TwoForm.TheVariants.{Operator as of_two};
ghost use Rattle.tla_quick.specs.Private.Answers.{Answers};
ghost use Rattle.tla_quick.specs.Private.Environment.{code_in, value_in};

use crate::environment::Environment;
use crate::evaluation::held::held;
use crate::evaluation::value_of_form;
use crate::stop::Stop;
use std::alloc::Global;
use tla_code::{Code, TwoForm};
use tla_core::{Binary, Place};
use tla_value::Value;

/// The number that a code denotes.
#[cycle(evaluate)]
fn number<'m: 'a, 'a>(
    alloc: Global,
    code: &'a Code<'m>,
    env: &Environment<'m, 'a>,
) -> Result<i64, Stop>
    ensures { Answers int result (value_in env.entry.now (code_in env.entry.now code.now)) }
{
    match code {
        Code::Two(place, TwoForm::Operator(operator), left, right) if is_arithmetic(*operator) => {
            number_of_two(alloc, place, *operator, left, right, env)
        }
        _ => match held(alloc, code, env) {
            Some(value) => known_number(value),
            None => known_number(value_of_form(alloc, code, env)?.value()),
        },
    }
}

/// The number that an arithmetic operator gives.
#[cycle(evaluate)]
pub(super) fn number_of_two<'m: 'a, 'a>(
    alloc: Global,
    place: &'a Place,
    operator: Binary,
    left: &'a Code<'m>,
    right: &'a Code<'m>,
    env: &Environment<'m, 'a>,
) -> Result<i64, Stop>
    ensures { Answers int result
        (value_in env.entry.now
        (two_expr (of_two operator) place.now (code_in env.entry.now left.now)
        (code_in env.entry.now right.now))) }
{
    let left = number(alloc, left, env)?;
    let right = number(alloc, right, env)?;
    calculated(place, operator, left, right)
}

/// Whether a comparison of two numbers is TRUE.
#[cycle(evaluate)]
pub(super) fn order_of_two<'m: 'a, 'a>(
    alloc: Global,
    place: &'a Place,
    operator: Binary,
    left: &'a Code<'m>,
    right: &'a Code<'m>,
    env: &Environment<'m, 'a>,
) -> Result<bool, Stop>
    ensures { Answers truth result
        (value_in env.entry.now
        (two_expr (of_two operator) place.now (code_in env.entry.now left.now)
        (code_in env.entry.now right.now))) }
{
    let left = number(alloc, left, env)?;
    let right = number(alloc, right, env)?;
    ordered(place, operator, left, right)
}

/// A value as a number.
fn known_number(value: &Value) -> Result<i64, Stop>
    ensures { (o : Outcome Tree) → o ≡ Ok (tree_of value.now) → Answers int result o }
{
    match value {
        Value::Int(number) => Ok(*number),
        _ => Err(Stop::GaveUp),
    }
}

/// Whether an operator takes two numbers and gives one, in a few instructions.
pub(super) fn is_arithmetic(operator: Binary) -> bool {
    matches!(
        operator,
        Binary::Add | Binary::Subtract | Binary::Multiply | Binary::Divide | Binary::Modulo
    )
}

/// Whether an operator compares two numbers.
pub(super) fn is_order(operator: Binary) -> bool {
    matches!(
        operator,
        Binary::LessThan | Binary::GreaterThan | Binary::AtMost | Binary::AtLeast
    )
}

/// The number that an arithmetic operator gives for two numbers.
fn calculated(place: &Place, operator: Binary, left: i64, right: i64) -> Result<i64, Stop>
    ensures { Answers int result
        (binary_rule (binary_of operator) place.now (int left) (int right)) }
{
    match operator {
        Binary::Add => within(place, left.checked_add(right)),
        Binary::Subtract => within(place, left.checked_sub(right)),
        Binary::Multiply => within(place, left.checked_mul(right)),
        Binary::Divide => {
            if right > 0 {
                Ok(left.div_euclid(right))
            } else {
                Err(Stop::GaveUp)
            }
        }
        Binary::Modulo => {
            if right > 0 {
                Ok(left.rem_euclid(right))
            } else {
                Err(Stop::GaveUp)
            }
        }
        _ => Err(Stop::GaveUp),
    }
}

/// The result of a checked operation.
#[tactic(auto, using(crate::proofs::Numbers::in_range))]
fn within(place: &Place, checked: Option<i64>) -> Result<i64, Stop>
    ensures { (z : ℤ)
        → SomeIff checked (FitsSigned w64 z) z
        → Answers int result (number place.now z) }
{
    match checked {
        Some(number) => Ok(number),
        None => Err(Stop::GaveUp),
    }
}

/// Whether a comparison of these numbers is TRUE.
fn ordered(place: &Place, operator: Binary, left: i64, right: i64) -> Result<bool, Stop>
    ensures { Answers truth result
        (binary_rule (binary_of operator) place.now (int left) (int right)) }
{
    match operator {
        Binary::LessThan => Ok(left < right),
        Binary::GreaterThan => Ok(left > right),
        Binary::AtMost => Ok(left <= right),
        Binary::AtLeast => Ok(left >= right),
        _ => Err(Stop::GaveUp),
    }
}
