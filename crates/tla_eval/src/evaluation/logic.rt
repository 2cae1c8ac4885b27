//! Logic, and the arms of IF and CASE.
ghost use Rattle.std.specs.Prelude.{option_map};
ghost use Rattle.tla_value.specs.TreeOf.{tree_of};
ghost use Rattle.tla_core.specs.Logic.{means-conjunction, means-disjunction, means-implies, means-cases, means-assert};
ghost use Rattle.tla_core.specs.Value.{means};
ghost use Rattle.tla_core.specs.ExprOf.{expr_of, parts_of_cores, arms_of_cores};
ghost use Rattle.tla_operators.specs.Gives.{GivesTruth};
ghost use Rattle.tla_operators.specs.Evaluated.{Evaluates};
ghost use Rattle.tla_eval.specs.Private.Environment.{bound_in, present_in, next_in};

use crate::environment::Environment;
use crate::evaluation::{ask, evaluate, has};
use std::alloc::Global;
use tla_core::{Core, FaultCode, Place};
use tla_operators::evaluated::Evaluated;
use tla_operators::fault_ref::{FaultRef, fault_at};
use tla_value::Value;

/// Whether all parts are TRUE. Stops at the first that is FALSE.
#[cycle(evaluate)]
pub(super) fn conjunction<'c: 'a, 'a>(
    alloc: Global,
    place: &'c Place,
    parts: &'c [Core],
    env: Environment<'a>,
) -> Result<Evaluated<'a>, FaultRef<'c>>
    ensures { Evaluates result
        ((means-conjunction place.now (parts_of_cores parts.now)).value (bound_in env.entry)
        (present_in env.entry) (next_in env.entry)) }
{
    for part in parts {
        if !ask(alloc, place, part, env)? {
            return Ok(Evaluated::truth(false));
        }
    }
    Ok(Evaluated::truth(true))
}

/// Whether some part is TRUE. Stops at the first that is.
#[cycle(evaluate)]
pub(super) fn disjunction<'c: 'a, 'a>(
    alloc: Global,
    place: &'c Place,
    parts: &'c [Core],
    env: Environment<'a>,
) -> Result<Evaluated<'a>, FaultRef<'c>>
    ensures { Evaluates result
        ((means-disjunction place.now (parts_of_cores parts.now)).value (bound_in env.entry)
        (present_in env.entry) (next_in env.entry)) }
{
    for part in parts {
        if ask(alloc, place, part, env)? {
            return Ok(Evaluated::truth(true));
        }
    }
    Ok(Evaluated::truth(false))
}

/// `p => q`: evaluates the second part only if the first is TRUE.
#[cycle(evaluate)]
pub(super) fn implies<'c: 'a, 'a>(
    alloc: Global,
    place: &'c Place,
    left: &'c Core,
    right: &'c Core,
    env: Environment<'a>,
) -> Result<Evaluated<'a>, FaultRef<'c>>
    ensures { Evaluates result
        ((means-implies place.now (means (expr_of left.now)) (means (expr_of right.now))).value
        (bound_in env.entry) (present_in env.entry) (next_in env.entry)) }
{
    if ask(alloc, place, left, env)? {
        Ok(Evaluated::truth(ask(alloc, place, right, env)?))
    } else {
        Ok(Evaluated::truth(true))
    }
}

/// TRUE if the condition is TRUE, a fault if it is FALSE.
#[cycle(evaluate)]
pub(super) fn assert<'c: 'a, 'a>(
    alloc: Global,
    place: &'c Place,
    condition: &'c Core,
    env: Environment<'a>,
) -> Result<Evaluated<'a>, FaultRef<'c>>
    ensures { Evaluates result
        ((means-assert place.now (means (expr_of condition.now))
        (means (expr_of condition.now))).value
        (bound_in env.entry) (present_in env.entry) (next_in env.entry)) }
{
    if ask(alloc, place, condition, env)? {
        Ok(Evaluated::truth(true))
    } else {
        Err(fault_at(FaultCode::AssertFalse, place))
    }
}

/// The value of the first arm whose condition is TRUE, or else that of OTHER.
#[cycle(evaluate)]
pub(super) fn cases<'c: 'a, 'a>(
    alloc: Global,
    place: &'c Place,
    arms: &'c [(Core, Core)],
    other: Option<&'c Core>,
    env: Environment<'a>,
) -> Result<Evaluated<'a>, FaultRef<'c>>
    ensures { Evaluates result
        ((means-cases place.now (arms_of_cores arms.now)
        (option_map (λ c. means (expr_of c.now)) other.entry)).value
        (bound_in env.entry) (present_in env.entry) (next_in env.entry)) }
{
    for arm in arms {
        if ask(alloc, place, &arm.0, env)? {
            return evaluate(alloc, &arm.1, env);
        }
    }
    match other {
        Some(core) => evaluate(alloc, core, env),
        None => Err(fault_at(FaultCode::NoArm, place)),
    }
}

/// Whether a value is a member of the first arm whose condition is TRUE, or else of OTHER.
#[cycle(evaluate)]
pub(super) fn cases_have<'c: 'a, 'a>(
    alloc: Global,
    place: &'c Place,
    arms: &'c [(Core, Core)],
    other: Option<&'c Core>,
    value: &'a Value,
    env: Environment<'a>,
) -> Result<bool, FaultRef<'c>>
    ensures { GivesTruth result
        ((means-cases place.now (arms_of_cores arms.now)
        (option_map (λ c. means (expr_of c.now)) other.entry)).has
        (tree_of value.now) (bound_in env.entry) (present_in env.entry) (next_in env.entry)) }
{
    for arm in arms {
        if ask(alloc, place, &arm.0, env)? {
            return has(alloc, &arm.1, value, env);
        }
    }
    match other {
        Some(core) => has(alloc, core, value, env),
        None => Err(fault_at(FaultCode::NoArm, place)),
    }
}
