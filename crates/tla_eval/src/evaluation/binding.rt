//! Forms that bind names.
ghost use Rattle.std.specs.Prelude.{◌<◌, ◌++◌, ◌∷◌, [], Bool, Some, length, map, slice_get};
ghost use Rattle.tla_value.specs.TreeOf.{tree_of};
ghost use Rattle.tla_core.specs.Lists.{all_hold, some_hold, first_passing, passing};
ghost use Rattle.tla_core.specs.Meaning.{asks, elements};
ghost use Rattle.tla_core.specs.Logic.{means-for_all, means-for_some, means-choose};
ghost use Rattle.tla_core.specs.SetForms.{means-filtered};
ghost use Rattle.tla_core.specs.Value.{means};
ghost use Rattle.tla_core.specs.ExprOf.{expr_of};
ghost use Rattle.tla_operators.specs.Gives.{Gives, GivesBy, GivesTruth};
ghost use Rattle.tla_sets.specs.Elements.{elements_of, GivesElements};
ghost use Rattle.tla_eval.specs.Private.Parts.{tested};
ghost use Rattle.tla_operators.specs.Evaluated.{Evaluates};
ghost use Rattle.tla_eval.specs.Private.Environment.{bound_in, present_in, next_in};

use crate::environment::{Environment, Frame};
use crate::evaluation::patterns::body_value;
use crate::evaluation::{ask, evaluate};
use std::alloc::Global;
use tla_core::{Core, FaultCode, Place};
use tla_operators::evaluated::Evaluated;
use tla_operators::fault_ref::{FaultRef, fault_at};
use tla_operators::sets::made_set;
use tla_sets::elements::{
    Elements, chosen_at, count_of, element_at, elements_of_two, keep_at, members_of,
};
use tla_value::{SetValue, Value};

/// `\A x \in S : p`.
#[cycle(evaluate)]
pub(super) fn for_all<'c: 'a, 'a>(
    alloc: Global,
    place: &'c Place,
    set: &'c Core,
    body: &'c Core,
    env: Environment<'a>,
) -> Result<Evaluated<'a>, FaultRef<'c>>
    ensures { Evaluates result
        ((means-for_all place.now (means (expr_of set.now)) (means (expr_of body.now))).value
        (bound_in env.entry) (present_in env.entry) (next_in env.entry)) }
{
    let elements = elements_in(alloc, place, set, env)?;
    Ok(Evaluated::truth(each_holds(alloc, place, body, &elements, env)?))
}

/// `\E x \in S : p`.
#[cycle(evaluate)]
pub(super) fn for_some<'c: 'a, 'a>(
    alloc: Global,
    place: &'c Place,
    set: &'c Core,
    body: &'c Core,
    env: Environment<'a>,
) -> Result<Evaluated<'a>, FaultRef<'c>>
    ensures { Evaluates result
        ((means-for_some place.now (means (expr_of set.now)) (means (expr_of body.now))).value
        (bound_in env.entry) (present_in env.entry) (next_in env.entry)) }
{
    let elements = elements_in(alloc, place, set, env)?;
    Ok(Evaluated::truth(some_holds(alloc, place, body, &elements, env)?))
}

/// `CHOOSE x \in S : p`: the least such element.
#[cycle(evaluate)]
pub(super) fn choose<'c: 'a, 'a>(
    alloc: Global,
    place: &'c Place,
    set: &'c Core,
    body: &'c Core,
    env: Environment<'a>,
) -> Result<Evaluated<'a>, FaultRef<'c>>
    ensures { Evaluates result
        ((means-choose place.now (means (expr_of set.now)) (means (expr_of body.now))).value
        (bound_in env.entry) (present_in env.entry) (next_in env.entry)) }
{
    let elements = elements_in(alloc, place, set, env)?;
    Ok(Evaluated::Owned(first_passing(alloc, place, body, &elements, env)?))
}

/// The elements of a set. A range is not built.
#[cycle(evaluate)]
pub(super) fn elements_in<'c: 'a, 'a>(
    alloc: Global,
    place: &'c Place,
    set: &'c Core,
    env: Environment<'a>,
) -> Result<Elements<'a>, FaultRef<'c>>
    ensures { GivesElements result
        (elements place.now (means (expr_of set.now)) (bound_in env.entry) (present_in env.entry)
        (next_in env.entry)) }
{
    match set {
        Core::Binary(at, operator, left, right) => {
            let left = evaluate(alloc, left, env)?;
            let right = evaluate(alloc, right, env)?;
            elements_of_two(alloc, place, at, *operator, left.value(), right.value())
        }
        _ => members_of(place, evaluate(alloc, set, env)?),
    }
}

/// Whether a body is TRUE for the element at an index.
#[cycle(evaluate)]
fn holds_at<'e, 'c: 'a, 'a>(
    alloc: Global,
    place: &'c Place,
    body: &'c Core,
    elements: &'e Elements<'e>,
    number: usize,
    env: Environment<'a>,
) -> Result<bool, FaultRef<'c>>
    requires { number < length (elements_of elements.now) }
    ensures { GivesBy (λ (b : Bool). Some b) result
        (tested (λ v.
        asks place.now (means (expr_of body.now)) (bound_in env.entry ++ v ∷ [])
        (present_in env.entry) (next_in env.entry))
        (slice_get (elements_of elements.now) number)) }
{
    let element = element_at(elements, number);
    ask_with(alloc, place, body, element.value(), env)
}

/// Whether a body is TRUE for each of these elements. Stops at the first for which it is FALSE.
#[cycle(evaluate)]
fn each_holds<'e, 'c: 'a, 'a>(
    alloc: Global,
    place: &'c Place,
    body: &'c Core,
    elements: &'e Elements<'e>,
    env: Environment<'a>,
) -> Result<bool, FaultRef<'c>>
    ensures { GivesTruth result
        (all_hold (λ v.
        asks place.now (means (expr_of body.now)) (bound_in env.entry ++ v ∷ [])
        (present_in env.entry) (next_in env.entry)) (elements_of elements.now)) }
{
    for number in 0..count_of(elements) {
        let holds = holds_at(alloc, place, body, elements, number, env)?;
        if !holds {
            return Ok(false);
        }
    }
    Ok(true)
}

/// Whether a body is TRUE for one of these elements. Stops at the first for which it is.
#[cycle(evaluate)]
fn some_holds<'e, 'c: 'a, 'a>(
    alloc: Global,
    place: &'c Place,
    body: &'c Core,
    elements: &'e Elements<'e>,
    env: Environment<'a>,
) -> Result<bool, FaultRef<'c>>
    ensures { GivesTruth result
        (some_hold (λ v.
        asks place.now (means (expr_of body.now)) (bound_in env.entry ++ v ∷ [])
        (present_in env.entry) (next_in env.entry)) (elements_of elements.now)) }
{
    for number in 0..count_of(elements) {
        let holds = holds_at(alloc, place, body, elements, number, env)?;
        if holds {
            return Ok(true);
        }
    }
    Ok(false)
}

/// The first of these elements for which a body is TRUE.
#[cycle(evaluate)]
fn first_passing<'e, 'c: 'a, 'a>(
    alloc: Global,
    place: &'c Place,
    body: &'c Core,
    elements: &'e Elements<'e>,
    env: Environment<'a>,
) -> Result<Value, FaultRef<'c>>
    ensures { Gives result
        (first_passing place.now (λ v.
        asks place.now (means (expr_of body.now)) (bound_in env.entry ++ v ∷ [])
        (present_in env.entry) (next_in env.entry)) (elements_of elements.now)) }
{
    for number in 0..count_of(elements) {
        let holds = holds_at(alloc, place, body, elements, number, env)?;
        if holds {
            return chosen_at(alloc, elements, number);
        }
    }
    Err(fault_at(FaultCode::NoChoice, place))
}

/// Whether a body is TRUE with one more bound value.
#[cycle(evaluate)]
pub(super) fn ask_with<'c: 'a, 'a>(
    alloc: Global,
    place: &'c Place,
    body: &'c Core,
    value: &'a Value,
    env: Environment<'a>,
) -> Result<bool, FaultRef<'c>>
    ensures { GivesTruth result
        (asks place.now (means (expr_of body.now)) (bound_in env.entry ++ tree_of value.now ∷ [])
        (present_in env.entry) (next_in env.entry)) }
{
    let frame = Frame::One(env.frame, value);
    let inner = Environment {
        frame: &frame,
        now: env.now,
        next: env.next,
    };
    ask(alloc, place, body, inner)
}

/// The value of a body with one more bound value.
#[cycle(evaluate)]
pub(super) fn value_with<'c: 'a, 'a>(
    alloc: Global,
    body: &'c Core,
    value: &'a Value,
    env: Environment<'a>,
) -> Result<Value, FaultRef<'c>>
    ensures { Gives result
        ((means (expr_of body.now)).value (bound_in env.entry ++ tree_of value.now ∷ [])
        (present_in env.entry) (next_in env.entry)) }
{
    let frame = Frame::One(env.frame, value);
    let inner = Environment {
        frame: &frame,
        now: env.now,
        next: env.next,
    };
    body_value(alloc, body, inner)?.into_value(alloc)
}

/// `{x \in S : p}`.
#[cycle(evaluate)]
pub(super) fn filter<'c: 'a, 'a>(
    alloc: Global,
    place: &'c Place,
    set: &'c Core,
    body: &'c Core,
    env: Environment<'a>,
) -> Result<Evaluated<'a>, FaultRef<'c>>
    ensures { Evaluates result
        ((means-filtered place.now (means (expr_of set.now)) (means (expr_of body.now))).value
        (bound_in env.entry) (present_in env.entry) (next_in env.entry)) }
{
    let elements = elements_in(alloc, place, set, env)?;
    let kept = passing(alloc, place, body, &elements, env)?;
    Ok(Evaluated::Owned(made_set(place, SetValue::from_values(alloc, kept))?))
}

/// Copies of the elements for which a body is TRUE.
#[cycle(evaluate)]
fn passing<'e, 'c: 'a, 'a>(
    alloc: Global,
    place: &'c Place,
    body: &'c Core,
    elements: &'e Elements<'e>,
    env: Environment<'a>,
) -> Result<Vec<Value>, FaultRef<'c>>
    ensures { GivesBy (λ v. map tree_of v.items) result
        (passing (λ v.
        asks place.now (means (expr_of body.now)) (bound_in env.entry ++ v ∷ [])
        (present_in env.entry) (next_in env.entry)) (elements_of elements.now)) }
{
    let mut kept = Vec::new(alloc);
    for number in 0..count_of(elements) {
        let holds = holds_at(alloc, place, body, elements, number, env)?;
        keep_at(alloc, &mut kept, elements, number, holds)?;
    }
    Ok(kept)
}
