//! Sets of sets, of functions and of sequences.
ghost use Rattle.std.specs.Prelude.{map};
ghost use Rattle.tla_value.specs.TreeOf.{tree_of};
ghost use Rattle.tla_value.specs.Tree.{Tree};
ghost use Rattle.tla_core.specs.Lists.{all_hold};
ghost use Rattle.tla_core.specs.Membership.{means-sequences};
ghost use Rattle.tla_core.specs.SetForms.{means-power, means-functions};
ghost use Rattle.tla_core.specs.Value.{mem, means};
ghost use Rattle.tla_core.specs.ExprOf.{expr_of};
ghost use Rattle.tla_operators.specs.Gives.{GivesTruth};
ghost use Rattle.tla_operators.specs.Evaluated.{Evaluates};
ghost use Rattle.tla_eval.specs.Private.Environment.{bound_in, present_in, next_in};

use crate::environment::Environment;
use crate::evaluation::membership::has_all;
use crate::evaluation::{evaluate, has};
use std::alloc::Global;
use tla_core::{Core, Place};
use tla_operators::evaluated::Evaluated;
use tla_operators::fault_ref::FaultRef;
use tla_operators::functions::if_function;
use tla_operators::sequences::sequence_items;
use tla_operators::sets::{functions_between, has_domain, if_set, members, subsets_of};
use tla_value::Value;

/// `SUBSET S`.
#[cycle(evaluate)]
pub(super) fn power<'c: 'a, 'a>(
    alloc: Global,
    place: &'c Place,
    set: &'c Core,
    env: Environment<'a>,
) -> Result<Evaluated<'a>, FaultRef<'c>>
    ensures { Evaluates result
        ((means-power place.now (means (expr_of set.now))).value (bound_in env.entry)
        (present_in env.entry) (next_in env.entry)) }
{
    let set = evaluate(alloc, set, env)?;
    Ok(Evaluated::Owned(subsets_of(alloc, place, set.value())?))
}

/// `[S -> T]`.
#[cycle(evaluate)]
pub(super) fn functions<'c: 'a, 'a>(
    alloc: Global,
    place: &'c Place,
    domain: &'c Core,
    range: &'c Core,
    env: Environment<'a>,
) -> Result<Evaluated<'a>, FaultRef<'c>>
    ensures { Evaluates result
        ((means-functions place.now (means (expr_of domain.now)) (means (expr_of range.now))).value
        (bound_in env.entry) (present_in env.entry) (next_in env.entry)) }
{
    let domain = evaluate(alloc, domain, env)?;
    let range = evaluate(alloc, range, env)?;
    Ok(Evaluated::Owned(functions_between(alloc, place, domain.value(), range.value())?))
}

/// Membership in `SUBSET S`: whether a value is a set of members of an expression.
#[cycle(evaluate)]
pub(super) fn is_set_within<'c: 'a, 'a>(
    alloc: Global,
    core: &'c Core,
    value: &'a Value,
    env: Environment<'a>,
) -> Result<bool, FaultRef<'c>>
    ensures { GivesTruth result
        ((means-power (means (expr_of core.now)).place (means (expr_of core.now))).has
        (tree_of value.now) (bound_in env.entry) (present_in env.entry) (next_in env.entry)) }
{
    match if_set(value) {
        Some(values) => has_all(alloc, core, values, env),
        None => Ok(false),
    }
}

/// Membership in `Seq(S)`: whether a value is a sequence of members of an expression.
#[cycle(evaluate)]
pub(super) fn is_sequence_of<'c: 'a, 'a>(
    alloc: Global,
    core: &'c Core,
    value: &'a Value,
    env: Environment<'a>,
) -> Result<bool, FaultRef<'c>>
    ensures { GivesTruth result
        ((means-sequences (means (expr_of core.now)).place (means (expr_of core.now))).has
        (tree_of value.now) (bound_in env.entry) (present_in env.entry) (next_in env.entry)) }
{
    match sequence_items(value) {
        Some(items) => has_all(alloc, core, items, env),
        None => Ok(false),
    }
}

/// Membership in `[S -> T]`: whether a value is a function on a set with values in an expression.
#[cycle(evaluate)]
pub(super) fn is_function_into<'c: 'a, 'a>(
    alloc: Global,
    place: &'c Place,
    domain: &'c Core,
    range: &'c Core,
    value: &'a Value,
    env: Environment<'a>,
) -> Result<bool, FaultRef<'c>>
    ensures { GivesTruth result
        ((means-functions place.now (means (expr_of domain.now)) (means (expr_of range.now))).has
        (tree_of value.now) (bound_in env.entry) (present_in env.entry) (next_in env.entry)) }
{
    match if_function(value) {
        Some(function) => {
            let set = evaluate(alloc, domain, env)?;
            let arguments = members(place, set.value())?;
            if has_domain(function, arguments) {
                has_all(alloc, range, function.values(), env)
            } else {
                Ok(false)
            }
        }
        None => Ok(false),
    }
}
