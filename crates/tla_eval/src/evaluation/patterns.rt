//! Bodies under tuple patterns, and their sets.
ghost use Rattle.tla_core.specs.Patterns.{means-opened, means-tried};
ghost use Rattle.tla_core.specs.Value.{means, val};
ghost use Rattle.tla_core.specs.ExprOf.{expr_of};
ghost use Rattle.tla_operators.specs.Evaluated.{Evaluates};
ghost use Rattle.tla_eval.specs.Private.Environment.{bound_in, present_in, next_in};

use crate::environment::Environment;
use crate::evaluation::choices::value_with_all;
use crate::evaluation::evaluate;
use crate::patterns::{open_items, try_set};
use std::alloc::Global;
use tla_core::{Core, Opening, Place};
use tla_operators::evaluated::Evaluated;
use tla_operators::fault_ref::FaultRef;

/// The value of a body. A body that destructures elements is handled here, since `evaluate` needs much stack: so a form
/// that binds names calls it only once.
#[cycle(evaluate)]
pub(super) fn body_value<'c: 'a, 'a>(
    alloc: Global,
    body: &'c Core,
    env: Environment<'a>,
) -> Result<Evaluated<'a>, FaultRef<'c>>
    ensures { Evaluates result
        (val (expr_of body.now) (bound_in env.entry) (present_in env.entry) (next_in env.entry)) }
{
    match body {
        Core::Destructure(place, openings, part) => opened(alloc, place, openings, part, env),
        _ => evaluate(alloc, body, env),
    }
}

/// The value of a body under the items of destructured elements.
#[cycle(evaluate)]
pub(super) fn opened<'c: 'a, 'a>(
    alloc: Global,
    place: &'c Place,
    openings: &'c [Opening],
    body: &'c Core,
    env: Environment<'a>,
) -> Result<Evaluated<'a>, FaultRef<'c>>
    ensures { Evaluates result
        ((means-opened place.now openings.now (means (expr_of body.now))).value
        (bound_in env.entry) (present_in env.entry) (next_in env.entry)) }
{
    let items = open_items(alloc, place, openings, env.frame)?;
    Ok(Evaluated::Owned(value_with_all(alloc, body, items.as_slice(), env)?))
}

/// A set, after each of its elements was checked against a pattern.
#[cycle(evaluate)]
pub(super) fn tried<'c: 'a, 'a>(
    alloc: Global,
    place: &'c Place,
    count: usize,
    set: &'c Core,
    env: Environment<'a>,
) -> Result<Evaluated<'a>, FaultRef<'c>>
    ensures { Evaluates result
        ((means-tried place.now count (means (expr_of set.now))).value (bound_in env.entry)
        (present_in env.entry) (next_in env.entry)) }
{
    let value = evaluate(alloc, set, env)?;
    try_set(place, count, value.value())?;
    Ok(value)
}
