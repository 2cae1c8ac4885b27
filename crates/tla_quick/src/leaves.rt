//! Names, variables, constants and uses of definitions.
ghost use Rattle.std.specs.Prelude.{◌≡◌, ◌+◌, Ok, IfOk, OnOk, Some, IfSome, false, get_or, map, option_map, slice_get};
ghost use Rattle.tla_value.specs.Tree.{truth};
ghost use Rattle.tla_value.specs.TreeOf.{tree_of};
ghost use Rattle.tla_core.specs.declared.fault.Place.{Place};
ghost use Rattle.tla_core.specs.ExprOf.{expr_of};
ghost use Rattle.tla_core.specs.Meaning.{variable_of};
ghost use Rattle.tla_core.specs.Patterns.{opened_items};
ghost use Rattle.tla_code.specs.CodeExpr.{used};
ghost use Rattle.tla_operators.specs.Evaluated.{tree_of_evaluated};
ghost use Rattle.tla_quick.specs.Private.Answers.{Answers};
ghost use Rattle.tla_quick.specs.Private.Frames.{bound_of};
ghost use Rattle.tla_quick.specs.Private.Environment.{bound_in, scope_in, value_in, has_in};

use crate::environment::Environment;
use crate::frame::{Found, Frame, bound_name, definition};
use crate::made::{count_more, has_known};
use crate::patterns::fitting;
use crate::stop::{Stop, needed};
use std::alloc::Global;
use tla_core::{Core, Opening};
use tla_eval::{Partial, eval, member};
use tla_operators::evaluated::Evaluated;
use tla_operators::operators::{is_truth, kind_has};
use tla_operators::rules::copied;
use tla_operators::sequences::add_items;
use tla_operators::sets::booleans;
use tla_value::{State, Value};

/// The value of a bound name.
pub(crate) fn bound_value<'m: 'a, 'a>(
    index: usize,
    env: &Environment<'m, 'a>,
) -> Result<&'a Value, Stop>
    ensures { IfOk result (λ v.
        get_or (bound_in env.entry.now) index (truth false) ≡ tree_of v.now) }
{
    match bound_name(env.frame, index) {
        Some(value) => Ok(value),
        None => Err(Stop::GaveUp),
    }
}

pub(crate) fn now_value<'a>(now: Option<&'a State>, variable: usize) -> Result<&'a Value, Stop>
    ensures { IfOk result (λ v.
        variable_of (option_map (λ s. s.now) now.entry) variable ≡ tree_of v.now) }
{
    match now {
        Some(state) => match state.values().get(variable) {
            Some(value) => Ok(value),
            None => Err(Stop::GaveUp),
        },
        None => Err(Stop::GaveUp),
    }
}

fn next_value<'a>(next: &'a Partial, variable: usize) -> Result<&'a Value, Stop>
    ensures { IfOk result (λ v. slice_get next.now variable ≡ Some (Some (tree_of v.now))) }
{
    if variable < next.variables() {
        match next.get(variable) {
            Some(value) => Ok(value),
            None => Err(Stop::GaveUp),
        }
    } else {
        Err(Stop::GaveUp)
    }
}

/// The value of definition `number` at a use that is under `by` more names than the definition.
pub(crate) fn used_value<'m: 'a, 'a>(
    number: usize,
    by: usize,
    env: &Environment<'m, 'a>,
) -> Result<&'a Value, Stop>
    ensures { (place : Place)
        → IfOk result (λ v.
        value_in env.entry.now (used place by (slice_get (scope_in env.entry.now) number))
        ≡ Ok (tree_of v.now)) }
{
    match definition(env.frame, number) {
        Some(found) => known_value(found, number, by, env.names),
        None => Err(Stop::GaveUp),
    }
}

/// The value of a definition, if the use is under `by` more names than the definition.
fn known_value<'a>(
    found: Found<'a>,
    number: usize,
    by: usize,
    names: usize,
) -> Result<&'a Value, Stop>
    ensures value { IfOk result (λ v. found.entry.value ≡ Some v) }
    ensures names { OnOk result (found.entry.names + by ≡ names) }
{
    if count_more(found.names, by)? != names {
        return Err(Stop::GaveUp);
    }
    match found.value {
        Some(value) => Ok(value),
        None => Err(needed(number)),
    }
}

/// The values of the bound names, each a copy.
fn bound_values<'m: 'a, 'a>(alloc: Global, frame: &'a Frame<'m, 'a>) -> Result<Vec<Value>, Stop>
    ensures { IfOk result (λ v. map tree_of v.items ≡ bound_of frame.entry.now) }
{
    match frame {
        Frame::Outer(_) => Ok(Vec::new(alloc)),
        Frame::One(outer, _, value) => {
            let mut copies = bound_values(alloc, outer)?;
            copies.push(copied(alloc, value)?)?;
            Ok(copies)
        }
        Frame::Many(outer, _, values) => {
            let mut copies = bound_values(alloc, outer)?;
            add_items(alloc, &mut copies, values)?;
            Ok(copies)
        }
        Frame::Defined(outer, _, _, _, _) => bound_values(alloc, outer),
    }
}

/// The value of an expression, by `tla_eval`.
fn eval_value<'m: 'a, 'a>(
    alloc: Global,
    core: &'a Core,
    env: &Environment<'m, 'a>,
) -> Result<Value, Stop>
    ensures { Answers tree_of result (value_in env.entry.now (expr_of core.now)) }
{
    let mut bound = bound_values(alloc, env.frame)?;
    match eval(alloc, core, &mut bound, env.now, env.next) {
        Ok(value) => Ok(value),
        Err(_) => Err(Stop::GaveUp),
    }
}

/// Whether a value is a member of an expression, by `tla_eval`.
fn eval_has<'m: 'a, 'a>(
    alloc: Global,
    core: &'a Core,
    value: &'a Value,
    env: &Environment<'m, 'a>,
) -> Result<bool, Stop>
    ensures { Answers (λ b. b) result
        (has_in env.entry.now (tree_of value.now) (expr_of core.now)) }
{
    let mut bound = bound_values(alloc, env.frame)?;
    match member(alloc, value, core, &mut bound, env.now, env.next) {
        Ok(holds) => Ok(holds),
        Err(_) => Err(Stop::GaveUp),
    }
}

/// The value of an expression in which nothing is shared.
pub(crate) fn plain_value<'m: 'a, 'a>(
    alloc: Global,
    core: &'a Core,
    env: &Environment<'m, 'a>,
) -> Result<Evaluated<'a>, Stop>
    ensures { Answers tree_of_evaluated result (value_in env.entry.now (expr_of core.now)) }
{
    match core {
        Core::Constant(_, value) => Ok(Evaluated::Borrowed(value)),
        Core::Now(_, variable) => Ok(Evaluated::Borrowed(now_value(env.now, *variable)?)),
        Core::Next(_, variable) => Ok(Evaluated::Borrowed(next_value(env.next, *variable)?)),
        Core::Literal(literal) => Ok(Evaluated::Borrowed(literal.value())),
        Core::Booleans(place) => Ok(booleans(alloc, place)?),
        _ => Ok(Evaluated::Owned(eval_value(alloc, core, env)?)),
    }
}

/// The value of a constant or a variable.
pub(crate) fn held_leaf<'m: 'a, 'a>(core: &'a Core, env: &Environment<'m, 'a>) -> Option<&'a Value>
    ensures { IfSome result (λ v. value_in env.entry.now (expr_of core.now) ≡ Ok (tree_of v.now)) }
{
    match core {
        Core::Constant(_, value) => Some(value),
        Core::Now(_, variable) => now_value(env.now, *variable).ok(),
        Core::Next(_, variable) => next_value(env.next, *variable).ok(),
        Core::Literal(literal) => Some(literal.value()),
        _ => None,
    }
}

/// Whether a value is a member of an expression in which nothing is shared.
pub(crate) fn plain_has<'m: 'a, 'a>(
    alloc: Global,
    core: &'a Core,
    value: &'a Value,
    env: &Environment<'m, 'a>,
) -> Result<bool, Stop>
    ensures { Answers (λ b. b) result
        (has_in env.entry.now (tree_of value.now) (expr_of core.now)) }
{
    match core {
        Core::KindSet(_, kind) => Ok(kind_has(*kind, value)),
        Core::Booleans(_) => Ok(is_truth(value)),
        Core::Cases(_, _, _) | Core::Assert(_, _, _) => eval_has(alloc, core, value, env),
        _ => has_known(plain_value(alloc, core, env)?.value(), value),
    }
}

/// Copies the items of the bound elements that a pattern opens, in order.
pub(crate) fn open_items<'m: 'a, 'a>(
    alloc: Global,
    openings: &'a [Opening],
    env: &Environment<'m, 'a>,
) -> Result<Vec<Value>, Stop>
    ensures { (p : Place)
        → Answers (λ v. map tree_of v.items) result
        (opened_items p openings.now (bound_in env.entry.now)) }
{
    let mut items = Vec::new(alloc);
    for opening in openings {
        let element = bound_value(opening.name, env)?;
        add_items(alloc, &mut items, fitting(opening.items, element)?)?;
    }
    Ok(items)
}
