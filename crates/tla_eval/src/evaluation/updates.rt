//! EXCEPT.
ghost use Rattle.std.specs.Prelude.{◌∷◌};
ghost use Rattle.tla_core.specs.Functions.{means-except, update, update_all};
ghost use Rattle.tla_core.specs.Value.{means};
ghost use Rattle.tla_core.specs.ExprOf.{expr_of, parts_of_cores, updates_of_cores};
ghost use Rattle.tla_operators.specs.Gives.{Gives};
ghost use Rattle.tla_operators.specs.Evaluated.{Evaluates, tree_of_evaluated};
ghost use Rattle.tla_eval.specs.Private.Environment.{bound_in, present_in, next_in};

use crate::environment::Environment;
use crate::evaluation::binding::value_with;
use crate::evaluation::evaluate;
use std::alloc::Global;
use tla_core::{Core, Place};
use tla_operators::evaluated::Evaluated;
use tla_operators::fault_ref::FaultRef;
use tla_operators::functions::{into_function, made_fun};
use tla_value::Value;

/// `[f EXCEPT !p = e, ..]`: applies each update to the result of the one before.
#[cycle(evaluate)]
pub(super) fn except<'c: 'a, 'a>(
    alloc: Global,
    place: &'c Place,
    updates: &'c [(Vec<Core>, Core)],
    base: &'c Core,
    env: Environment<'a>,
) -> Result<Evaluated<'a>, FaultRef<'c>>
    ensures { Evaluates result
        ((means-except place.now (means (expr_of base.now)) (updates_of_cores updates.now)).value
        (bound_in env.entry) (present_in env.entry) (next_in env.entry)) }
{
    let base = evaluate(alloc, base, env)?;
    updated_by_all(alloc, place, updates, base, env)
}

/// A value after some updates, one after the other.
#[cycle(evaluate)]
fn updated_by_all<'c: 'a, 'a>(
    alloc: Global,
    place: &'c Place,
    updates: &'c [(Vec<Core>, Core)],
    base: Evaluated<'a>,
    env: Environment<'a>,
) -> Result<Evaluated<'a>, FaultRef<'c>>
    ensures { Evaluates result
        (update_all place.now (updates_of_cores updates.now) (bound_in env.entry)
        (present_in env.entry) (next_in env.entry) (tree_of_evaluated base.entry)) }
{
    let mut value = base;
    for update in updates {
        let keys = update.0.as_slice();
        value = Evaluated::Owned(updated(alloc, place, keys, &update.1, value, env)?);
    }
    Ok(value)
}

/// A value with the one at the end of a path replaced.
#[cycle(evaluate)]
fn updated<'c: 'a, 'a>(
    alloc: Global,
    place: &'c Place,
    keys: &'c [Core],
    body: &'c Core,
    value: Evaluated<'a>,
    env: Environment<'a>,
) -> Result<Value, FaultRef<'c>>
    ensures { Gives result
        (update place.now (parts_of_cores keys.now) (means (expr_of body.now))
        (bound_in env.entry) (present_in env.entry) (next_in env.entry)
        (tree_of_evaluated value.entry)) }
{
    match keys.split_first() {
        None => value_with(alloc, body, value.value(), env),
        Some((key, rest)) => updated_at(alloc, place, rest, key, body, value, env),
    }
}

/// The same for a path of `key` and then `rest`. A key outside the domain changes nothing.
#[cycle(evaluate)]
fn updated_at<'c: 'a, 'a>(
    alloc: Global,
    place: &'c Place,
    rest: &'c [Core],
    key: &'c Core,
    body: &'c Core,
    value: Evaluated<'a>,
    env: Environment<'a>,
) -> Result<Value, FaultRef<'c>>
    ensures { Gives result
        (update place.now (means (expr_of key.now) ∷ parts_of_cores rest.now)
        (means (expr_of body.now)) (bound_in env.entry) (present_in env.entry)
        (next_in env.entry) (tree_of_evaluated value.entry)) }
{
    let function = into_function(alloc, place, value)?;
    let key = evaluate(alloc, key, env)?;
    match function.apply(key.value()) {
        None => Ok(Value::Fun(function)),
        Some(old) => {
            let new = updated(alloc, place, rest, body, Evaluated::Borrowed(old), env)?;
            made_fun(place, function.with_value(key.value(), new))
        }
    }
}
