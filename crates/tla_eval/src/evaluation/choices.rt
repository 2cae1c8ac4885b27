//! Forms that bind several names.
ghost use Rattle.std.specs.Prelude.{◌≡◌, ◌++◌, length, map};
ghost use Rattle.tla_value.specs.TreeOf.{tree_of};
ghost use Rattle.tla_core.specs.Lists.{each};
ghost use Rattle.tla_core.specs.Meaning.{Meaning};
ghost use Rattle.tla_core.specs.Value.{means};
ghost use Rattle.tla_core.specs.ExprOf.{expr_of, parts_of_cores};
ghost use Rattle.tla_operators.specs.Gives.{Gives, GivesBy};
ghost use Rattle.tla_eval.specs.Private.Chosen.{image_rule, chosen_function_rule, values_for, function_for_rule};
ghost use Rattle.tla_eval.specs.Private.Parts.{nothing_of};
ghost use Rattle.tla_operators.specs.Evaluated.{Evaluates, tree_of_evaluated};
ghost use Rattle.tla_eval.specs.Private.Environment.{bound_in, present_in, next_in};
ghost use Rattle.tla_operators.specs.Gathered.{Gathers};

use crate::environment::{Environment, Frame};
use crate::evaluation::evaluate;
use crate::evaluation::patterns::body_value;
use crate::odometer::Odometer;
use std::alloc::Global;
use tla_core::{Core, Place};
use tla_operators::evaluated::Evaluated;
use tla_operators::fault_ref::FaultRef;
use tla_operators::gathered::Gathered;
use tla_sets::domain::{Domain, domain_of, function_on, function_with, lists_of};
use tla_value::Value;

/// `{e : x \in S, ..}`: the set of the values of a body for all choices from some sets.
#[cycle(evaluate)]
pub(super) fn image<'c: 'a, 'a>(
    alloc: Global,
    place: &'c Place,
    sets: &'c [Core],
    body: &'c Core,
    env: Environment<'a>,
) -> Result<Evaluated<'a>, FaultRef<'c>>
    ensures { Evaluates result
        (image_rule place.now (parts_of_cores sets.now) (means (expr_of body.now))
        (bound_in env.entry) (present_in env.entry) (next_in env.entry)) }
{
    let sets = evaluated_each(alloc, sets, env)?;
    let lists = lists_of(alloc, place, sets.as_slice())?;
    let values = chosen_once(alloc, body, lists.as_slice(), env)?;
    Ok(Evaluated::Owned(values.into_set(alloc, place)?))
}

/// `[x \in S, .. |-> e]`: the function that maps each choice from some sets to the value of a body.
#[cycle(evaluate)]
pub(super) fn function<'c: 'a, 'a>(
    alloc: Global,
    place: &'c Place,
    sets: &'c [Core],
    body: &'c Core,
    env: Environment<'a>,
) -> Result<Evaluated<'a>, FaultRef<'c>>
    ensures { Evaluates result
        (chosen_function_rule place.now (parts_of_cores sets.now) (means (expr_of body.now))
        (bound_in env.entry) (present_in env.entry) (next_in env.entry)) }
{
    let sets = evaluated_each(alloc, sets, env)?;
    let sets = sets.as_slice();
    if sets.len() == 1 {
        Ok(Evaluated::Owned(function_on_members(alloc, place, sets, body, env)?))
    } else {
        Ok(Evaluated::Owned(function_on_tuples(alloc, place, sets, body, env)?))
    }
}

/// The function that maps each member of one set to the value of a body.
#[cycle(evaluate)]
fn function_on_members<'s, 'c: 'a, 'a>(
    alloc: Global,
    place: &'c Place,
    sets: &'s [Evaluated<'s>],
    body: &'c Core,
    env: Environment<'a>,
) -> Result<Value, FaultRef<'c>>
    requires { length sets.now ≡ 1 }
    ensures { Gives result
        (function_for_rule place.now (means (expr_of body.now)) (bound_in env.entry)
        (present_in env.entry) (next_in env.entry) (map tree_of_evaluated sets.now)) }
{
    let lists = lists_of(alloc, place, sets)?;
    let values = chosen(alloc, body, lists.as_slice(), env)?;
    function_on(alloc, place, sets, values)
}

/// The function that maps each tuple of several sets to the value of a body. If there are too many tuples, a fault of
/// the body still comes first, so the body is evaluated for all of them.
#[cycle(evaluate)]
fn function_on_tuples<'s, 'c: 'a, 'a>(
    alloc: Global,
    place: &'c Place,
    sets: &'s [Evaluated<'s>],
    body: &'c Core,
    env: Environment<'a>,
) -> Result<Value, FaultRef<'c>>
    requires { length sets.now ≡ 1 → ⊥ }
    ensures { Gives result
        (function_for_rule place.now (means (expr_of body.now)) (bound_in env.entry)
        (present_in env.entry) (next_in env.entry) (map tree_of_evaluated sets.now)) }
{
    let lists = lists_of(alloc, place, sets)?;
    let lists = lists.as_slice();
    match domain_of(alloc, place, sets)? {
        Domain::Tuples(tuples) => {
            let values = chosen(alloc, body, lists, env)?;
            function_with(alloc, place, &tuples, values)
        }
        Domain::Refused(fault) => {
            pass_over(alloc, body, lists, env)?;
            Err(fault)
        }
    }
}

/// The values of some expressions, from left to right, borrowed if possible.
#[cycle(evaluate)]
pub(super) fn evaluated_each<'c: 'a, 'a>(
    alloc: Global,
    cores: &'c [Core],
    env: Environment<'a>,
) -> Result<Vec<Evaluated<'a>>, FaultRef<'c>>
    ensures { GivesBy (λ v. map tree_of_evaluated v.items) result
        (each (λ (m : Meaning).
        m.value (bound_in env.entry) (present_in env.entry) (next_in env.entry))
        (parts_of_cores cores.now)) }
{
    let mut values = Vec::with_capacity(alloc, cores.len())?;
    for core in cores {
        values.push(evaluate(alloc, core, env)?)?;
    }
    Ok(values)
}

/// The length of the last list.
fn last_count(lists: &[&[Value]]) -> usize {
    match lists.last() {
        Some(list) => list.len(),
        None => 0,
    }
}

/// The values of a body for all choices from some lists, the first list slowest.
#[cycle(evaluate)]
fn chosen<'l, 'c: 'a, 'a>(
    alloc: Global,
    body: &'c Core,
    lists: &'l [&'l [Value]],
    env: Environment<'a>,
) -> Result<Vec<Value>, FaultRef<'c>>
    ensures { GivesBy (λ v. map tree_of v.items) result
        (values_for (means (expr_of body.now)) (bound_in env.entry) (present_in env.entry)
        (next_in env.entry) (map (λ l. map tree_of l.now) lists.now)) }
{
    let mut values = Vec::with_capacity(alloc, last_count(lists))?;
    let mut odometer = Odometer::new(alloc, lists)?;
    while let Some(choice) = odometer.next(alloc)? {
        values.push(value_with_all(alloc, body, choice.as_slice(), env)?)?;
    }
    Ok(values)
}

/// The distinct values of a body for all choices from some lists.
#[cycle(evaluate)]
fn chosen_once<'l, 'c: 'a, 'a>(
    alloc: Global,
    body: &'c Core,
    lists: &'l [&'l [Value]],
    env: Environment<'a>,
) -> Result<Gathered, FaultRef<'c>>
    ensures { Gathers result
        (values_for (means (expr_of body.now)) (bound_in env.entry) (present_in env.entry)
        (next_in env.entry) (map (λ l. map tree_of l.now) lists.now)) }
{
    let mut values = Gathered::new(alloc);
    let mut odometer = Odometer::new(alloc, lists)?;
    while let Some(choice) = odometer.next(alloc)? {
        values.add(value_with_all(alloc, body, choice.as_slice(), env)?)?;
    }
    Ok(values)
}

/// Evaluates a body for all choices from some lists, up to its first fault.
#[cycle(evaluate)]
fn pass_over<'l, 'c: 'a, 'a>(
    alloc: Global,
    body: &'c Core,
    lists: &'l [&'l [Value]],
    env: Environment<'a>,
) -> Result<(), FaultRef<'c>>
    ensures { GivesBy (λ u. u) result
        (nothing_of
        (values_for (means (expr_of body.now)) (bound_in env.entry) (present_in env.entry)
        (next_in env.entry) (map (λ l. map tree_of l.now) lists.now))) }
{
    let mut odometer = Odometer::new(alloc, lists)?;
    while let Some(choice) = odometer.next(alloc)? {
        drop(value_with_all(alloc, body, choice.as_slice(), env)?);
    }
    Ok(())
}

/// The value of a body with more bound values.
#[cycle(evaluate)]
pub(super) fn value_with_all<'c: 'a, 'a>(
    alloc: Global,
    body: &'c Core,
    choice: &'a [Value],
    env: Environment<'a>,
) -> Result<Value, FaultRef<'c>>
    ensures { Gives result
        ((means (expr_of body.now)).value (bound_in env.entry ++ map tree_of choice.now)
        (present_in env.entry) (next_in env.entry)) }
{
    let frame = Frame::Many(env.frame, choice);
    let inner = Environment {
        frame: &frame,
        now: env.now,
        next: env.next,
    };
    body_value(alloc, body, inner)?.into_value(alloc)
}
