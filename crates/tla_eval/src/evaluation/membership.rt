//! Membership, and the sets with a rule of their own for it.
ghost use Rattle.std.specs.Prelude.{map};
ghost use Rattle.tla_value.specs.TreeOf.{tree_of};
ghost use Rattle.tla_core.specs.Lists.{all_hold};
ghost use Rattle.tla_core.specs.Membership.{means-member, means-not_member, means-subset};
ghost use Rattle.tla_core.specs.SetForms.{means-cup, means-cap, means-minus};
ghost use Rattle.tla_core.specs.Value.{mem, means};
ghost use Rattle.tla_core.specs.Meaning.{means-binary};
ghost use Rattle.tla_core.specs.ExprOf.{expr_of, binary_of, parts_of_cores};
ghost use Rattle.tla_operators.specs.Gives.{GivesTruth};
ghost use Rattle.tla_eval.specs.Private.Parts.{one_of_rule};
ghost use Rattle.tla_operators.specs.Evaluated.{Evaluates};
ghost use Rattle.tla_eval.specs.Private.Environment.{bound_in, present_in, next_in};

use crate::environment::Environment;
use crate::evaluation::choices::evaluated_each;
use crate::evaluation::{evaluate, has};
use std::alloc::Global;
use tla_core::{Binary, Core, Place};
use tla_operators::evaluated::Evaluated;
use tla_operators::fault_ref::FaultRef;
use tla_operators::sets::{difference_of, intersection_of, members, union_of};
use tla_sets::asked::{set_has, two_have};
use tla_value::Value;

/// Whether a value is a member of an expression.
#[cycle(evaluate)]
pub(super) fn is_member<'c: 'a, 'a>(
    alloc: Global,
    element: &'c Core,
    set: &'c Core,
    env: Environment<'a>,
) -> Result<Evaluated<'a>, FaultRef<'c>>
    ensures { Evaluates result
        ((means-member (means (expr_of set.now)).place (means (expr_of element.now))
        (means (expr_of set.now))).value
        (bound_in env.entry) (present_in env.entry) (next_in env.entry)) }
{
    let element = evaluate(alloc, element, env)?;
    Ok(Evaluated::truth(has(alloc, set, element.value(), env)?))
}

/// Whether a value is no member of an expression.
#[cycle(evaluate)]
pub(super) fn is_no_member<'c: 'a, 'a>(
    alloc: Global,
    element: &'c Core,
    set: &'c Core,
    env: Environment<'a>,
) -> Result<Evaluated<'a>, FaultRef<'c>>
    ensures { Evaluates result
        ((means-not_member (means (expr_of set.now)).place (means (expr_of element.now))
        (means (expr_of set.now))).value
        (bound_in env.entry) (present_in env.entry) (next_in env.entry)) }
{
    let element = evaluate(alloc, element, env)?;
    Ok(Evaluated::truth(!has(alloc, set, element.value(), env)?))
}

/// Whether each element of a set is a member of an expression.
#[cycle(evaluate)]
pub(super) fn is_subset<'c: 'a, 'a>(
    alloc: Global,
    place: &'c Place,
    left: &'c Core,
    right: &'c Core,
    env: Environment<'a>,
) -> Result<Evaluated<'a>, FaultRef<'c>>
    ensures { Evaluates result
        ((means-subset place.now (means (expr_of left.now)) (means (expr_of right.now))).value
        (bound_in env.entry) (present_in env.entry) (next_in env.entry)) }
{
    let left = evaluate(alloc, left, env)?;
    let values = members(place, left.value())?;
    Ok(Evaluated::truth(has_all(alloc, right, values, env)?))
}

/// Whether each of these values is a member of an expression. Stops at the first that isn't.
#[cycle(evaluate)]
pub(super) fn has_all<'c: 'a, 'a>(
    alloc: Global,
    core: &'c Core,
    values: &'a [Value],
    env: Environment<'a>,
) -> Result<bool, FaultRef<'c>>
    ensures { GivesTruth result
        (all_hold (λ v.
        mem v (expr_of core.now) (bound_in env.entry) (present_in env.entry)
        (next_in env.entry)) (map tree_of values.now)) }
{
    for value in values {
        if !has(alloc, core, value, env)? {
            return Ok(false);
        }
    }
    Ok(true)
}

/// Whether a value is a member of the result of an operator. A range is not built.
#[cycle(evaluate)]
pub(super) fn two_hold<'c: 'a, 'a>(
    alloc: Global,
    place: &'c Place,
    operator: Binary,
    left: &'c Core,
    right: &'c Core,
    value: &'a Value,
    env: Environment<'a>,
) -> Result<bool, FaultRef<'c>>
    ensures { GivesTruth result
        ((means-binary place.now (binary_of operator) (means (expr_of left.now))
        (means (expr_of right.now))).has
        (tree_of value.now) (bound_in env.entry) (present_in env.entry) (next_in env.entry)) }
{
    let left = evaluate(alloc, left, env)?;
    let right = evaluate(alloc, right, env)?;
    two_have(alloc, place, operator, left.value(), right.value(), value)
}

/// Whether a value is a member of `{e, ..}`; a fault if that set exceeds the limits.
#[cycle(evaluate)]
pub(super) fn is_one_of<'c: 'a, 'a>(
    alloc: Global,
    place: &'c Place,
    parts: &'c [Core],
    value: &'a Value,
    env: Environment<'a>,
) -> Result<bool, FaultRef<'c>>
    ensures { GivesTruth result
        (one_of_rule place.now (parts_of_cores parts.now) (tree_of value.now) (bound_in env.entry)
        (present_in env.entry) (next_in env.entry)) }
{
    let values = evaluated_each(alloc, parts, env)?;
    set_has(alloc, place, values.as_slice(), value)
}

/// `S \cup T`.
#[cycle(evaluate)]
pub(super) fn cup<'c: 'a, 'a>(
    alloc: Global,
    place: &'c Place,
    left: &'c Core,
    right: &'c Core,
    env: Environment<'a>,
) -> Result<Evaluated<'a>, FaultRef<'c>>
    ensures { Evaluates result
        ((means-cup place.now (means (expr_of left.now)) (means (expr_of right.now))).value
        (bound_in env.entry) (present_in env.entry) (next_in env.entry)) }
{
    let left = evaluate(alloc, left, env)?;
    let right = evaluate(alloc, right, env)?;
    Ok(Evaluated::Owned(union_of(alloc, place, left.value(), right.value())?))
}

/// `S \cap T`.
#[cycle(evaluate)]
pub(super) fn cap<'c: 'a, 'a>(
    alloc: Global,
    place: &'c Place,
    left: &'c Core,
    right: &'c Core,
    env: Environment<'a>,
) -> Result<Evaluated<'a>, FaultRef<'c>>
    ensures { Evaluates result
        ((means-cap place.now (means (expr_of left.now)) (means (expr_of right.now))).value
        (bound_in env.entry) (present_in env.entry) (next_in env.entry)) }
{
    let left = evaluate(alloc, left, env)?;
    let right = evaluate(alloc, right, env)?;
    Ok(Evaluated::Owned(intersection_of(alloc, place, left.value(), right.value())?))
}

/// `S \ T`.
#[cycle(evaluate)]
pub(super) fn minus<'c: 'a, 'a>(
    alloc: Global,
    place: &'c Place,
    left: &'c Core,
    right: &'c Core,
    env: Environment<'a>,
) -> Result<Evaluated<'a>, FaultRef<'c>>
    ensures { Evaluates result
        ((means-minus place.now (means (expr_of left.now)) (means (expr_of right.now))).value
        (bound_in env.entry) (present_in env.entry) (next_in env.entry)) }
{
    let left = evaluate(alloc, left, env)?;
    let right = evaluate(alloc, right, env)?;
    Ok(Evaluated::Owned(difference_of(alloc, place, left.value(), right.value())?))
}
