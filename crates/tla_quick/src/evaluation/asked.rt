//! Membership in sets that aren't built.
ghost use Rattle.std.specs.Prelude.{◌≡◌, length, map};
ghost use Rattle.tla_value.specs.TreeOf.{tree_of};
ghost use Rattle.tla_core.specs.declared.fault.Place.{Place as AnyPlace};
ghost use Rattle.tla_core.specs.Expr.{functions, product};
ghost use Rattle.tla_core.specs.SetForms.{parts_have};
ghost use Rattle.tla_core.specs.Value.{mean_all};
ghost use Rattle.tla_code.specs.Forms.{one_expr, two_expr, three_expr, list_expr, binder_expr};
ghost use Rattle.tla_code.specs.Private.Listed.{exprs_of_codes};
ghost use Rattle.tla_quick.specs.Private.Answers.{Answers};
ghost use Rattle.tla_quick.specs.Private.Environment.{bound_in, present_in, next_in, scope_in, code_in, has_in};

use crate::environment::Environment;
use crate::evaluation::binding::truth_with;
use crate::evaluation::lists::{evaluated_each, taken_part};
use crate::evaluation::logic::has_all;
use crate::evaluation::{has, truth, value};
use crate::made::{known_members, one_of_known, operator_has};
use crate::stop::Stop;
use std::alloc::Global;
use tla_code::{BinderForm, Code, ListForm, OneForm, ThreeForm, TwoForm};
use tla_core::Place;
use tla_operators::functions::if_function;
use tla_operators::sequences::sequence_items;
use tla_operators::sets::{has_domain, if_set};
use tla_value::Value;

/// Whether `member` is in the set of a form with one operand.
#[cycle(evaluate)]
pub(super) fn has_of_one<'m: 'a, 'a>(
    alloc: Global,
    form: OneForm<'m>,
    operand: &'a Code<'m>,
    member: &'a Value,
    env: &Environment<'m, 'a>,
) -> Result<bool, Stop>
    ensures { (p : AnyPlace)
        → Answers (λ b. b) result
        (has_in env.entry.now (tree_of member.now)
        (one_expr form.entry p (code_in env.entry.now operand.now))) }
{
    match form {
        OneForm::Power => match if_set(member) {
            Some(values) => has_all(alloc, operand, values, env),
            None => Ok(false),
        },
        OneForm::Sequences => match sequence_items(member) {
            Some(items) => has_all(alloc, operand, items, env),
            None => Ok(false),
        },
        _ => Err(Stop::GaveUp),
    }
}

/// Whether `member` is in the set of a form with two operands.
#[cycle(evaluate)]
pub(super) fn has_of_two<'m: 'a, 'a>(
    alloc: Global,
    place: &'a Place,
    form: TwoForm,
    left: &'a Code<'m>,
    right: &'a Code<'m>,
    member: &'a Value,
    env: &Environment<'m, 'a>,
) -> Result<bool, Stop>
    ensures { Answers (λ b. b) result
        (has_in env.entry.now (tree_of member.now)
        (two_expr form place.now (code_in env.entry.now left.now)
        (code_in env.entry.now right.now))) }
{
    match form {
        TwoForm::Operator(operator) => {
            let left = value(alloc, left, env)?;
            let right = value(alloc, right, env)?;
            operator_has(alloc, place, operator, left.value(), right.value(), member)
        }
        TwoForm::Functions => is_function_into(alloc, left, right, member, env),
        TwoForm::Cup => {
            if has(alloc, left, member, env)? {
                Ok(true)
            } else {
                has(alloc, right, member, env)
            }
        }
        TwoForm::Cap => {
            if has(alloc, left, member, env)? {
                has(alloc, right, member, env)
            } else {
                Ok(false)
            }
        }
        TwoForm::Minus => {
            if has(alloc, left, member, env)? {
                Ok(!has(alloc, right, member, env)?)
            } else {
                Ok(false)
            }
        }
        _ => Err(Stop::GaveUp),
    }
}

/// Whether `member` is in the set that IF chooses.
#[cycle(evaluate)]
pub(super) fn has_of_three<'m: 'a, 'a>(
    alloc: Global,
    form: ThreeForm,
    first: &'a Code<'m>,
    second: &'a Code<'m>,
    third: &'a Code<'m>,
    member: &'a Value,
    env: &Environment<'m, 'a>,
) -> Result<bool, Stop>
    ensures { (p : AnyPlace)
        → Answers (λ b. b) result
        (has_in env.entry.now (tree_of member.now)
        (three_expr form p (code_in env.entry.now first.now) (code_in env.entry.now second.now)
        (code_in env.entry.now third.now))) }
{
    match form {
        ThreeForm::If => {
            if truth(alloc, first, env)? {
                has(alloc, second, member, env)
            } else {
                has(alloc, third, member, env)
            }
        }
        ThreeForm::SubSeq => Err(Stop::GaveUp),
    }
}

/// Whether `member` is in the set of a form with a list of operands.
#[cycle(evaluate)]
pub(super) fn has_in_list<'m: 'a, 'a>(
    alloc: Global,
    place: &'a Place,
    form: ListForm,
    parts: &'a [Code<'m>],
    member: &'a Value,
    env: &Environment<'m, 'a>,
) -> Result<bool, Stop>
    ensures { Answers (λ b. b) result
        (has_in env.entry.now (tree_of member.now)
        (list_expr form place.now (exprs_of_codes (scope_in env.entry.now) parts.now))) }
{
    match form {
        ListForm::Enumerated => {
            let values = evaluated_each(alloc, parts, env)?;
            one_of_known(alloc, place, values.as_slice(), member)
        }
        ListForm::Product => is_tuple_of(alloc, parts, member, env),
        ListForm::Cases => {
            let index = taken_part(alloc, parts, env)?;
            has(alloc, &parts[index], member, env)
        }
        _ => Err(Stop::GaveUp),
    }
}

/// Whether `member` is in a filtered set.
#[cycle(evaluate)]
pub(super) fn has_in_binder<'m: 'a, 'a>(
    alloc: Global,
    form: BinderForm,
    set: &'a Code<'m>,
    body: &'a Code<'m>,
    member: &'a Value,
    env: &Environment<'m, 'a>,
) -> Result<bool, Stop>
    ensures { (p : AnyPlace)
        → Answers (λ b. b) result
        (has_in env.entry.now (tree_of member.now)
        (binder_expr form p (code_in env.entry.now set.now) (code_in env.entry.now body.now))) }
{
    match form {
        BinderForm::Filter => {
            if has(alloc, set, member, env)? {
                truth_with(alloc, body, member, env)
            } else {
                Ok(false)
            }
        }
        _ => Err(Stop::GaveUp),
    }
}

/// Whether a value is a function on a set with values in a code.
#[cycle(evaluate)]
fn is_function_into<'m: 'a, 'a>(
    alloc: Global,
    domain: &'a Code<'m>,
    range: &'a Code<'m>,
    member: &'a Value,
    env: &Environment<'m, 'a>,
) -> Result<bool, Stop>
    ensures { (p : AnyPlace)
        → Answers (λ b. b) result
        (has_in env.entry.now (tree_of member.now)
        (functions p (code_in env.entry.now domain.now) (code_in env.entry.now range.now))) }
{
    match if_function(member) {
        Some(function) => {
            let set = value(alloc, domain, env)?;
            let arguments = known_members(set.value())?;
            if has_domain(function, arguments) {
                has_all(alloc, range, function.values(), env)
            } else {
                Ok(false)
            }
        }
        None => Ok(false),
    }
}

/// Whether a value is a tuple, each item a member of the code with the same index.
#[cycle(evaluate)]
fn is_tuple_of<'m: 'a, 'a>(
    alloc: Global,
    parts: &'a [Code<'m>],
    member: &'a Value,
    env: &Environment<'m, 'a>,
) -> Result<bool, Stop>
    ensures { (p : AnyPlace)
        → Answers (λ b. b) result
        (has_in env.entry.now (tree_of member.now)
        (product p (exprs_of_codes (scope_in env.entry.now) parts.now))) }
{
    match sequence_items(member) {
        Some(items) => {
            if items.len() == parts.len() {
                parts_have(alloc, parts, items, env)
            } else {
                Ok(false)
            }
        }
        None => Ok(false),
    }
}

/// Whether each item is a member of its code, tested up to the first that isn't.
#[cycle(evaluate)]
fn parts_have<'m: 'a, 'a>(
    alloc: Global,
    parts: &'a [Code<'m>],
    items: &'a [Value],
    env: &Environment<'m, 'a>,
) -> Result<bool, Stop>
    requires { length items.now ≡ length parts.now }
    ensures { Answers (λ b. b) result
        (parts_have (mean_all (exprs_of_codes (scope_in env.entry.now) parts.now))
        (map tree_of items.now) (bound_in env.entry.now) (present_in env.entry.now)
        (next_in env.entry.now)) }
{
    for i in 0..parts.len() {
        if !has(alloc, &parts[i], &items[i], env)? {
            return Ok(false);
        }
    }
    Ok(true)
}
