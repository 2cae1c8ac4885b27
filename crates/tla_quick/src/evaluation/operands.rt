//! Forms whose operands are all evaluated.
ghost use Rattle.tla_operators.specs.Evaluated.{tree_of_evaluated};
ghost use Rattle.tla_code.specs.Forms.{one_expr, two_expr, three_expr};
ghost use Rattle.tla_quick.specs.Private.Answers.{Answers};
ghost use Rattle.tla_quick.specs.Private.Environment.{code_in, value_in};

use crate::environment::Environment;
use crate::evaluation::logic::truth_of_two;
use crate::evaluation::numbers::{is_arithmetic, number_of_two};
use crate::evaluation::{gives_truth, truth, value};
use crate::made::{made_of_one, made_of_three, made_of_two};
use crate::stop::Stop;
use std::alloc::Global;
use tla_code::{Code, OneForm, ThreeForm, TwoForm};
use tla_core::Place;
use tla_operators::evaluated::Evaluated;
use tla_value::Value;

/// The value of a form with one operand.
#[cycle(evaluate)]
#[inline(never)]
pub(super) fn value_of_one<'m: 'a, 'a>(
    alloc: Global,
    place: &'a Place,
    form: OneForm<'m>,
    operand: &'a Code<'m>,
    env: &Environment<'m, 'a>,
) -> Result<Evaluated<'a>, Stop>
    ensures { Answers tree_of_evaluated result
        (value_in env.entry.now
        (one_expr form.entry place.now (code_in env.entry.now operand.now))) }
{
    let operand = value(alloc, operand, env)?;
    made_of_one(alloc, place, form, operand)
}

/// The value of a form with two operands.
#[cycle(evaluate)]
pub(super) fn value_of_two<'m: 'a, 'a>(
    alloc: Global,
    place: &'a Place,
    form: TwoForm,
    left: &'a Code<'m>,
    right: &'a Code<'m>,
    env: &Environment<'m, 'a>,
) -> Result<Evaluated<'a>, Stop>
    ensures { Answers tree_of_evaluated result
        (value_in env.entry.now
        (two_expr form place.now (code_in env.entry.now left.now)
        (code_in env.entry.now right.now))) }
{
    if gives_truth(form) {
        return Ok(Evaluated::truth(truth_of_two(alloc, place, form, left, right, env)?));
    }
    if let TwoForm::Operator(operator) = form {
        if is_arithmetic(operator) {
            return Ok(Evaluated::Owned(Value::Int(number_of_two(
                alloc, place, operator, left, right, env,
            )?)));
        }
    }
    let left = value(alloc, left, env)?;
    let right = value(alloc, right, env)?;
    made_of_two(alloc, place, form, left, right)
}

/// The value of a form with three operands.
#[cycle(evaluate)]
#[inline(never)]
pub(super) fn value_of_three<'m: 'a, 'a>(
    alloc: Global,
    place: &'a Place,
    form: ThreeForm,
    first: &'a Code<'m>,
    second: &'a Code<'m>,
    third: &'a Code<'m>,
    env: &Environment<'m, 'a>,
) -> Result<Evaluated<'a>, Stop>
    ensures { Answers tree_of_evaluated result
        (value_in env.entry.now
        (three_expr form place.now (code_in env.entry.now first.now)
        (code_in env.entry.now second.now)
        (code_in env.entry.now third.now))) }
{
    match form {
        ThreeForm::If => {
            if truth(alloc, first, env)? {
                value(alloc, second, env)
            } else {
                value(alloc, third, env)
            }
        }
        ThreeForm::SubSeq => {
            let first = value(alloc, first, env)?;
            let second = value(alloc, second, env)?;
            let third = value(alloc, third, env)?;
            Ok(Evaluated::Owned(made_of_three(
                alloc,
                place,
                first.value(),
                second.value(),
                third.value(),
            )?))
        }
    }
}
