//! Values of codes, and membership in them.
ghost use Rattle.tla_value.specs.Tree.{truth};
ghost use Rattle.tla_value.specs.TreeOf.{tree_of};
ghost use Rattle.tla_core.specs.Meaning.{elements};
ghost use Rattle.tla_core.specs.Value.{means};
ghost use Rattle.tla_code.specs.Forms.{two_expr};
ghost use Rattle.tla_operators.specs.Evaluated.{tree_of_evaluated};
ghost use Rattle.tla_sets.specs.Elements.{elements_of};
ghost use Rattle.tla_quick.specs.Private.Answers.{Answers};
ghost use Rattle.tla_quick.specs.Private.Environment.{bound_in, present_in, next_in, code_in, value_in, has_in};

mod asked;
mod binding;
mod choices;
mod definitions;
mod fields;
mod held;
mod lists;
mod logic;
mod numbers;
mod operands;
mod updates;

use crate::environment::Environment;
use crate::evaluation::asked::{has_in_binder, has_in_list, has_of_one, has_of_three, has_of_two};
use crate::evaluation::binding::{truth_of_binder, value_of_binder};
use crate::evaluation::choices::value_of_map;
use crate::evaluation::definitions::{has_of_let, truth_of_let, value_of_let};
use crate::evaluation::fields::{has_in_fields, value_of_fields};
use crate::evaluation::held::held;
use crate::evaluation::lists::value_of_list;
use crate::evaluation::logic::{truth_of_list, truth_of_one, truth_of_three, truth_of_two};
use crate::evaluation::operands::{value_of_one, value_of_three, value_of_two};
use crate::evaluation::updates::{opened, value_of_except};
use crate::leaves::{bound_value, plain_has, plain_value, used_value};
use crate::made::{has_known, known_elements, known_truth, operator_elements};
use crate::stop::Stop;
use std::alloc::Global;
use tla_code::{BinderForm, Code, FieldForm, ListForm, OneForm, ThreeForm, TwoForm};
use tla_core::{Binary, Place, Unary};
use tla_operators::evaluated::Evaluated;
use tla_sets::elements::Elements;
use tla_value::Value;

/// The value of a code.
#[cycle(evaluate)]
pub(crate) fn value<'m: 'a, 'a>(
    alloc: Global,
    code: &'a Code<'m>,
    env: &Environment<'m, 'a>,
) -> Result<Evaluated<'a>, Stop>
    ensures { Answers tree_of_evaluated result
        (value_in env.entry.now (code_in env.entry.now code.now)) }
{
    match held(alloc, code, env) {
        Some(value) => Ok(Evaluated::Borrowed(value)),
        None => value_of_form(alloc, code, env),
    }
}

/// The value of a code, by its form.
#[cycle(evaluate)]
#[inline(never)]
pub(crate) fn value_of_form<'m: 'a, 'a>(
    alloc: Global,
    code: &'a Code<'m>,
    env: &Environment<'m, 'a>,
) -> Result<Evaluated<'a>, Stop>
    ensures { Answers tree_of_evaluated result
        (value_in env.entry.now (code_in env.entry.now code.now)) }
{
    match code {
        Code::Bound(_, index) => Ok(Evaluated::Borrowed(bound_value(*index, env)?)),
        Code::Plain(core) => plain_value(alloc, core, env),
        Code::Use(_, number, by) => Ok(Evaluated::Borrowed(used_value(*number, *by, env)?)),
        Code::One(place, form, a) => value_of_one(alloc, place, *form, a, env),
        Code::Two(place, form, a, b) => value_of_two(alloc, place, *form, a, b, env),
        Code::Three(place, form, a, b, c) => value_of_three(alloc, place, *form, a, b, c, env),
        Code::List(place, form, parts) => value_of_list(alloc, place, *form, parts, env),
        _ => value_of_other(alloc, code, env),
    }
}

/// The value of a code of any other form.
#[cycle(evaluate)]
#[inline(never)]
fn value_of_other<'m: 'a, 'a>(
    alloc: Global,
    code: &'a Code<'m>,
    env: &Environment<'m, 'a>,
) -> Result<Evaluated<'a>, Stop>
    ensures { Answers tree_of_evaluated result
        (value_in env.entry.now (code_in env.entry.now code.now)) }
{
    match code {
        Code::Let(names, is_used, definition, body) => {
            value_of_let(alloc, *names, *is_used, definition, body, env)
        }
        Code::Fields(place, form, fields) => value_of_fields(alloc, place, *form, fields, env),
        Code::Binder(place, form, set, body) => value_of_binder(
            alloc, place, *form, set, body, env,
        ),
        Code::Map(place, form, sets, body) => Ok(Evaluated::Owned(value_of_map(
            alloc, place, *form, sets, body, env,
        )?)),
        Code::Except(place, base, updates) => value_of_except(alloc, place, updates, base, env),
        Code::Destructure(_, openings, body) => opened(alloc, openings, body, env),
        _ => Err(Stop::GaveUp),
    }
}

/// Whether a code is TRUE or FALSE.
#[cycle(evaluate)]
pub(crate) fn truth<'m: 'a, 'a>(
    alloc: Global,
    code: &'a Code<'m>,
    env: &Environment<'m, 'a>,
) -> Result<bool, Stop>
    ensures { Answers truth result (value_in env.entry.now (code_in env.entry.now code.now)) }
{
    if !is_logical(code) {
        return match held(alloc, code, env) {
            Some(value) => known_truth(value),
            None => known_truth(value_of_form(alloc, code, env)?.value()),
        };
    }
    match code {
        Code::Let(names, is_used, definition, body) => {
            truth_of_let(alloc, *names, *is_used, definition, body, env)
        }
        Code::One(_, form, a) => truth_of_one(alloc, *form, a, env),
        Code::Two(place, form, a, b) => truth_of_two(alloc, place, *form, a, b, env),
        Code::Three(_, form, a, b, c) => truth_of_three(alloc, *form, a, b, c, env),
        Code::List(_, form, parts) => truth_of_list(alloc, *form, parts, env),
        Code::Binder(place, form, set, body) => truth_of_binder(
            alloc, place, *form, set, body, env,
        ),
        _ => Err(Stop::GaveUp),
    }
}

/// Whether a value is in the set that a code denotes.
#[cycle(evaluate)]
pub(crate) fn has<'m: 'a, 'a>(
    alloc: Global,
    code: &'a Code<'m>,
    member: &'a Value,
    env: &Environment<'m, 'a>,
) -> Result<bool, Stop>
    ensures { Answers (λ b. b) result
        (has_in env.entry.now (tree_of member.now) (code_in env.entry.now code.now)) }
{
    if !has_membership_test(code) {
        return has_known(value(alloc, code, env)?.value(), member);
    }
    match code {
        Code::Plain(core) => plain_has(alloc, core, member, env),
        Code::Let(names, is_used, definition, body) => {
            has_of_let(alloc, *names, *is_used, definition, body, member, env)
        }
        Code::One(_, form, a) => has_of_one(alloc, *form, a, member, env),
        Code::Two(place, form, a, b) => has_of_two(alloc, place, *form, a, b, member, env),
        Code::Three(_, form, a, b, c) => has_of_three(alloc, *form, a, b, c, member, env),
        Code::List(place, form, parts) => has_in_list(alloc, place, *form, parts, member, env),
        Code::Fields(_, form, fields) => has_in_fields(alloc, *form, fields, member, env),
        Code::Binder(_, form, set, body) => has_in_binder(alloc, *form, set, body, member, env),
        _ => Err(Stop::GaveUp),
    }
}

/// The elements of the set that a code denotes. A range is not built.
#[cycle(evaluate)]
pub(crate) fn elements<'m: 'a, 'a>(
    alloc: Global,
    place: &'a Place,
    code: &'a Code<'m>,
    env: &Environment<'m, 'a>,
) -> Result<Elements<'a>, Stop>
    ensures { Answers elements_of result
        (elements place.now (means (code_in env.entry.now code.now)) (bound_in env.entry.now)
        (present_in env.entry.now) (next_in env.entry.now)) }
{
    match code {
        Code::Two(at, form, left, right) => elements_of_two(
            alloc, place, at, *form, left, right, env,
        ),
        _ => known_elements(place, value(alloc, code, env)?),
    }
}

/// The elements of the set of a form with two operands.
#[cycle(evaluate)]
fn elements_of_two<'m: 'a, 'a>(
    alloc: Global,
    place: &'a Place,
    at: &'a Place,
    form: TwoForm,
    left: &'a Code<'m>,
    right: &'a Code<'m>,
    env: &Environment<'m, 'a>,
) -> Result<Elements<'a>, Stop>
    ensures { Answers elements_of result
        (elements place.now
        (means
        (two_expr form at.now (code_in env.entry.now left.now) (code_in env.entry.now right.now)))
        (bound_in env.entry.now) (present_in env.entry.now) (next_in env.entry.now)) }
{
    match form {
        TwoForm::Operator(operator) => {
            let left = value(alloc, left, env)?;
            let right = value(alloc, right, env)?;
            operator_elements(alloc, place, at, operator, left.value(), right.value())
        }
        _ => known_elements(place, value_of_two(alloc, at, form, left, right, env)?),
    }
}

/// Whether the value of a form with two operands is a truth value.
pub(crate) fn gives_truth(form: TwoForm) -> bool {
    match form {
        TwoForm::Equal
        | TwoForm::Implies
        | TwoForm::Member
        | TwoForm::NotMember
        | TwoForm::Subset => true,
        TwoForm::Operator(operator) => matches!(
            operator,
            Binary::Iff
                | Binary::Unequal
                | Binary::LessThan
                | Binary::GreaterThan
                | Binary::AtMost
                | Binary::AtLeast
        ),
        _ => false,
    }
}

/// Whether `truth` handles this form itself; otherwise it calls `value`.
fn is_logical(code: &Code<'_>) -> bool {
    match code {
        Code::One(_, form, _) => is_not(*form),
        Code::Two(_, form, _, _) => gives_truth(*form),
        Code::Three(_, form, _, _, _) => matches!(form, ThreeForm::If),
        Code::List(_, form, _) => matches!(
            form,
            ListForm::Conjunction | ListForm::Disjunction | ListForm::Cases
        ),
        Code::Binder(_, form, _, _) => matches!(form, BinderForm::ForAll | BinderForm::ForSome),
        Code::Let(_, _, _, _) => true,
        _ => false,
    }
}

/// Whether a form is `~`.
fn is_not(form: OneForm<'_>) -> bool {
    match form {
        OneForm::Operator(operator) => matches!(operator, Unary::Not),
        _ => false,
    }
}

/// Whether membership in this form is decided without its value.
fn has_membership_test(code: &Code<'_>) -> bool {
    match code {
        Code::Plain(_) => true,
        Code::One(_, form, _) => matches!(form, OneForm::Power | OneForm::Sequences),
        Code::Two(_, form, _, _) => has_membership_test_of_two(*form),
        Code::Three(_, form, _, _, _) => matches!(form, ThreeForm::If),
        Code::List(_, form, _) => matches!(
            form,
            ListForm::Enumerated | ListForm::Product | ListForm::Cases
        ),
        Code::Fields(_, form, _) => matches!(form, FieldForm::Records),
        Code::Binder(_, form, _, _) => matches!(form, BinderForm::Filter),
        Code::Let(_, _, _, _) => true,
        _ => false,
    }
}

/// Whether membership in this form with two operands is decided without its value.
fn has_membership_test_of_two(form: TwoForm) -> bool {
    match form {
        TwoForm::Functions | TwoForm::Cup | TwoForm::Cap | TwoForm::Minus => true,
        TwoForm::Operator(operator) => matches!(operator, Binary::Range),
        _ => false,
    }
}
