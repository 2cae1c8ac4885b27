//! Truth values of forms.
ghost use Rattle.std.specs.Prelude.{◌≡◌, Ok, map};
ghost use Rattle.tla_value.specs.Tree.{truth};
ghost use Rattle.tla_value.specs.TreeOf.{tree_of};
ghost use Rattle.tla_core.specs.declared.fault.Place.{Place as AnyPlace};
ghost use Rattle.tla_core.specs.Lists.{all_hold};
ghost use Rattle.tla_core.specs.Expr.{Expr, conjunction, disjunction};
ghost use Rattle.tla_code.specs.Forms.{one_expr, two_expr, three_expr, list_expr};
ghost use Rattle.tla_code.specs.Private.Listed.{exprs_of_codes};
ghost use Rattle.tla_quick.specs.Private.Answers.{Answers};
ghost use Rattle.tla_quick.specs.Private.Environment.{code_in, value_in, has_in, member_in, scope_in};

use crate::environment::Environment;
use crate::evaluation::held::held;
use crate::evaluation::lists::taken_part;
use crate::evaluation::numbers::{is_order, order_of_two};
use crate::evaluation::{has, truth, value, value_of_form};
use crate::made::{compared, known_members};
use crate::stop::Stop;
use std::alloc::Global;
use tla_code::{Code, ListForm, OneForm, ThreeForm, TwoForm};
use tla_core::{Place, Unary};
use tla_value::Value;

/// `~`
#[cycle(evaluate)]
pub(super) fn truth_of_one<'m: 'a, 'a>(
    alloc: Global,
    form: OneForm<'m>,
    operand: &'a Code<'m>,
    env: &Environment<'m, 'a>,
) -> Result<bool, Stop>
    ensures { (p : AnyPlace)
        → Answers truth result
        (value_in env.entry.now (one_expr form.entry p (code_in env.entry.now operand.now))) }
{
    match form {
        OneForm::Operator(operator) => match operator {
            Unary::Not => Ok(!truth(alloc, operand, env)?),
            _ => Err(Stop::GaveUp),
        },
        _ => Err(Stop::GaveUp),
    }
}

/// Whether a form with two operands is TRUE.
#[cycle(evaluate)]
pub(super) fn truth_of_two<'m: 'a, 'a>(
    alloc: Global,
    place: &'a Place,
    form: TwoForm,
    left: &'a Code<'m>,
    right: &'a Code<'m>,
    env: &Environment<'m, 'a>,
) -> Result<bool, Stop>
    ensures { Answers truth result
        (value_in env.entry.now
        (two_expr form place.now (code_in env.entry.now left.now)
        (code_in env.entry.now right.now))) }
{
    match form {
        TwoForm::Implies => {
            if truth(alloc, left, env)? {
                Ok(truth(alloc, right, env)?)
            } else {
                Ok(true)
            }
        }
        TwoForm::Member => is_member(alloc, left, right, env),
        TwoForm::NotMember => Ok(!is_member(alloc, left, right, env)?),
        TwoForm::Subset => {
            let set = value(alloc, left, env)?;
            let members = known_members(set.value())?;
            Ok(has_all(alloc, right, members, env)?)
        }
        TwoForm::Operator(operator) if is_order(operator) => {
            order_of_two(alloc, place, operator, left, right, env)
        }
        _ => match held(alloc, left, env) {
            Some(value) => compared_with(alloc, place, form, value, right, env),
            None => {
                let left = value_of_form(alloc, left, env)?;
                compared_with(alloc, place, form, left.value(), right, env)
            }
        },
    }
}

/// Whether the value of a code is a member of another code.
#[cycle(evaluate)]
fn is_member<'m: 'a, 'a>(
    alloc: Global,
    left: &'a Code<'m>,
    right: &'a Code<'m>,
    env: &Environment<'m, 'a>,
) -> Result<bool, Stop>
    ensures { Answers (λ b. b) result
        (member_in env.entry.now (code_in env.entry.now left.now)
        (code_in env.entry.now right.now)) }
{
    match held(alloc, left, env) {
        Some(element) => has(alloc, right, element, env),
        None => {
            let element = value_of_form(alloc, left, env)?;
            has(alloc, &*right, element.value(), &*env)
        }
    }
}

/// Whether a form that compares values is TRUE, given the left value.
#[cycle(evaluate)]
fn compared_with<'m: 'a, 'a>(
    alloc: Global,
    place: &'a Place,
    form: TwoForm,
    left: &Value,
    right: &'a Code<'m>,
    env: &Environment<'m, 'a>,
) -> Result<bool, Stop>
    ensures { (e : Expr)
        → value_in env.entry.now e ≡ Ok (tree_of left.now)
        → Answers truth result
        (value_in env.entry.now (two_expr form place.now e (code_in env.entry.now right.now))) }
{
    match held(alloc, right, env) {
        Some(value) => compared(place, form, left, value),
        None => {
            let right = value_of_form(alloc, right, env)?;
            compared(place, form, left, right.value())
        }
    }
}

/// IF between truth values.
#[cycle(evaluate)]
pub(super) fn truth_of_three<'m: 'a, 'a>(
    alloc: Global,
    form: ThreeForm,
    first: &'a Code<'m>,
    second: &'a Code<'m>,
    third: &'a Code<'m>,
    env: &Environment<'m, 'a>,
) -> Result<bool, Stop>
    ensures { (p : AnyPlace)
        → Answers truth result
        (value_in env.entry.now
        (three_expr form p (code_in env.entry.now first.now) (code_in env.entry.now second.now)
        (code_in env.entry.now third.now))) }
{
    match form {
        ThreeForm::If => {
            if truth(alloc, first, env)? {
                truth(alloc, second, env)
            } else {
                truth(alloc, third, env)
            }
        }
        ThreeForm::SubSeq => Err(Stop::GaveUp),
    }
}

/// Whether a form with a list of operands is TRUE.
#[cycle(evaluate)]
pub(super) fn truth_of_list<'m: 'a, 'a>(
    alloc: Global,
    form: ListForm,
    parts: &'a [Code<'m>],
    env: &Environment<'m, 'a>,
) -> Result<bool, Stop>
    ensures { (p : AnyPlace)
        → Answers truth result
        (value_in env.entry.now
        (list_expr form p (exprs_of_codes (scope_in env.entry.now) parts.now))) }
{
    match form {
        ListForm::Conjunction => all_are_true(alloc, parts, env),
        ListForm::Disjunction => some_is_true(alloc, parts, env),
        ListForm::Cases => {
            let index = taken_part(alloc, parts, env)?;
            truth(alloc, &parts[index], env)
        }
        _ => Err(Stop::GaveUp),
    }
}

/// Whether all parts are TRUE. Stops at the first that is FALSE.
#[cycle(evaluate)]
fn all_are_true<'m: 'a, 'a>(
    alloc: Global,
    parts: &'a [Code<'m>],
    env: &Environment<'m, 'a>,
) -> Result<bool, Stop>
    ensures { (p : AnyPlace)
        → Answers truth result
        (value_in env.entry.now
        (conjunction p (exprs_of_codes (scope_in env.entry.now) parts.now))) }
{
    for part in parts {
        if !truth(alloc, part, env)? {
            return Ok(false);
        }
    }
    Ok(true)
}

/// Whether some part is TRUE. Stops at the first that is.
#[cycle(evaluate)]
fn some_is_true<'m: 'a, 'a>(
    alloc: Global,
    parts: &'a [Code<'m>],
    env: &Environment<'m, 'a>,
) -> Result<bool, Stop>
    ensures { (p : AnyPlace)
        → Answers truth result
        (value_in env.entry.now
        (disjunction p (exprs_of_codes (scope_in env.entry.now) parts.now))) }
{
    for part in parts {
        if truth(alloc, part, env)? {
            return Ok(true);
        }
    }
    Ok(false)
}

/// Whether each of these values is a member of a code. Stops at the first that isn't.
#[cycle(evaluate)]
pub(super) fn has_all<'m: 'a, 'a>(
    alloc: Global,
    code: &'a Code<'m>,
    values: &'a [Value],
    env: &Environment<'m, 'a>,
) -> Result<bool, Stop>
    ensures { Answers (λ b. b) result
        (all_hold (λ v. has_in env.entry.now v (code_in env.entry.now code.now))
        (map tree_of values.now)) }
{
    for value in values {
        if !has(alloc, code, value, env)? {
            return Ok(false);
        }
    }
    Ok(true)
}
