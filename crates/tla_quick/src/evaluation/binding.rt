//! Forms that bind one name.
ghost use Rattle.std.specs.Prelude.{◌<◌, ◌++◌, ◌∷◌, [], Bool, Some, length, map, slice_get};
ghost use Rattle.tla_value.specs.Tree.{truth};
ghost use Rattle.tla_value.specs.TreeOf.{tree_of};
ghost use Rattle.tla_core.specs.Lists.{all_hold, some_hold, first_passing, passing};
ghost use Rattle.tla_core.specs.Meaning.{asks};
ghost use Rattle.tla_core.specs.Value.{means};
ghost use Rattle.tla_code.specs.Forms.{binder_expr};
ghost use Rattle.tla_eval.specs.Private.Parts.{tested};
ghost use Rattle.tla_operators.specs.Evaluated.{tree_of_evaluated};
ghost use Rattle.tla_sets.specs.Elements.{elements_of};
ghost use Rattle.tla_quick.specs.Private.Answers.{Answers};
ghost use Rattle.tla_quick.specs.Private.Environment.{bound_in, present_in, next_in, code_in, value_in, value_with};

use crate::environment::Environment;
use crate::evaluation::{elements, truth, value};
use crate::frame::Frame;
use crate::made::{chosen, count_more, keep, owned, set_of};
use crate::stop::Stop;
use std::alloc::Global;
use tla_code::{BinderForm, Code};
use tla_core::Place;
use tla_operators::evaluated::Evaluated;
use tla_sets::elements::{Elements, count_of, element_at};
use tla_value::Value;

/// `\A x \in S : p` and `\E x \in S : p`.
#[cycle(evaluate)]
pub(super) fn truth_of_binder<'m: 'a, 'a>(
    alloc: Global,
    place: &'a Place,
    form: BinderForm,
    set: &'a Code<'m>,
    body: &'a Code<'m>,
    env: &Environment<'m, 'a>,
) -> Result<bool, Stop>
    ensures { Answers truth result
        (value_in env.entry.now
        (binder_expr form place.now (code_in env.entry.now set.now)
        (code_in env.entry.now body.now))) }
{
    let found = elements(alloc, place, set, env)?;
    match form {
        BinderForm::ForAll => Ok(each_holds(alloc, place, body, &found, env)?),
        BinderForm::ForSome => Ok(some_holds(alloc, place, body, &found, env)?),
        _ => Err(Stop::GaveUp),
    }
}

/// The value of a form that binds one name.
#[cycle(evaluate)]
pub(super) fn value_of_binder<'m: 'a, 'a>(
    alloc: Global,
    place: &'a Place,
    form: BinderForm,
    set: &'a Code<'m>,
    body: &'a Code<'m>,
    env: &Environment<'m, 'a>,
) -> Result<Evaluated<'a>, Stop>
    ensures { Answers tree_of_evaluated result
        (value_in env.entry.now
        (binder_expr form place.now (code_in env.entry.now set.now)
        (code_in env.entry.now body.now))) }
{
    match form {
        BinderForm::ForAll | BinderForm::ForSome => Ok(Evaluated::truth(truth_of_binder(
            alloc, place, form, set, body, env,
        )?)),
        BinderForm::Choose => {
            let found = elements(alloc, place, set, env)?;
            Ok(Evaluated::Owned(first_passing(alloc, place, body, &found, env)?))
        }
        BinderForm::Filter => {
            let found = elements(alloc, place, set, env)?;
            Ok(Evaluated::Owned(set_of(alloc, place, passing(alloc, place, body, &found, env)?)?))
        }
    }
}

/// Whether a body is TRUE with one more bound value.
#[cycle(evaluate)]
pub(super) fn truth_with<'m: 'a, 'a>(
    alloc: Global,
    body: &'a Code<'m>,
    value: &'a Value,
    env: &Environment<'m, 'a>,
) -> Result<bool, Stop>
    ensures { Answers truth result
        (value_with env.entry.now (tree_of value.now ∷ []) (code_in env.entry.now body.now)) }
{
    let frame = Frame::One(env.frame, env.names, value);
    let inner = Environment {
        frame: &frame,
        now: env.now,
        next: env.next,
        names: count_more(env.names, 1)?,
        definitions: env.definitions,
    };
    truth(alloc, body, &inner)
}

/// The value of a body with one more bound value.
#[cycle(evaluate)]
pub(super) fn value_with<'m: 'a, 'a>(
    alloc: Global,
    body: &'a Code<'m>,
    bound: &'a Value,
    env: &Environment<'m, 'a>,
) -> Result<Value, Stop>
    ensures { Answers tree_of result
        (value_with env.entry.now (tree_of bound.now ∷ []) (code_in env.entry.now body.now)) }
{
    let frame = Frame::One(env.frame, env.names, bound);
    let inner = Environment {
        frame: &frame,
        now: env.now,
        next: env.next,
        names: count_more(env.names, 1)?,
        definitions: env.definitions,
    };
    owned(alloc, value(alloc, body, &inner)?)
}

/// Whether the body is TRUE for element `number`.
#[cycle(evaluate)]
fn holds_at<'e, 'm: 'a, 'a>(
    alloc: Global,
    place: &'a Place,
    body: &'a Code<'m>,
    elements: &'e Elements<'e>,
    number: usize,
    env: &Environment<'m, 'a>,
) -> Result<bool, Stop>
    requires { number < length (elements_of elements.now) }
    ensures { Answers (λ (b : Bool). Some b) result
        (tested (λ v.
        asks place.now (means (code_in env.entry.now body.now)) (bound_in env.entry.now ++ v ∷ [])
        (present_in env.entry.now) (next_in env.entry.now))
        (slice_get (elements_of elements.now) number)) }
{
    let element = element_at(elements, number);
    truth_with(alloc, &*body, element.value(), &*env)
}

/// Whether a body is TRUE for each of these elements. Stops at the first for which it is FALSE.
#[cycle(evaluate)]
fn each_holds<'e, 'm: 'a, 'a>(
    alloc: Global,
    place: &'a Place,
    body: &'a Code<'m>,
    elements: &'e Elements<'e>,
    env: &Environment<'m, 'a>,
) -> Result<bool, Stop>
    ensures { Answers (λ b. b) result
        (all_hold (λ v.
        asks place.now (means (code_in env.entry.now body.now)) (bound_in env.entry.now ++ v ∷ [])
        (present_in env.entry.now) (next_in env.entry.now)) (elements_of elements.now)) }
{
    for number in 0..count_of(elements) {
        let holds = holds_at(alloc, place, body, elements, number, env)?;
        if !holds {
            return Ok(false);
        }
    }
    Ok(true)
}

/// Whether a body is TRUE for one of these elements. Stops at the first for which it is.
#[cycle(evaluate)]
fn some_holds<'e, 'm: 'a, 'a>(
    alloc: Global,
    place: &'a Place,
    body: &'a Code<'m>,
    elements: &'e Elements<'e>,
    env: &Environment<'m, 'a>,
) -> Result<bool, Stop>
    ensures { Answers (λ b. b) result
        (some_hold (λ v.
        asks place.now (means (code_in env.entry.now body.now)) (bound_in env.entry.now ++ v ∷ [])
        (present_in env.entry.now) (next_in env.entry.now)) (elements_of elements.now)) }
{
    for number in 0..count_of(elements) {
        let holds = holds_at(alloc, place, body, elements, number, env)?;
        if holds {
            return Ok(true);
        }
    }
    Ok(false)
}

/// The first of these elements for which a body is TRUE.
#[cycle(evaluate)]
fn first_passing<'e, 'm: 'a, 'a>(
    alloc: Global,
    place: &'a Place,
    body: &'a Code<'m>,
    elements: &'e Elements<'e>,
    env: &Environment<'m, 'a>,
) -> Result<Value, Stop>
    ensures { Answers tree_of result
        (first_passing place.now (λ v.
        asks place.now (means (code_in env.entry.now body.now)) (bound_in env.entry.now ++ v ∷ [])
        (present_in env.entry.now) (next_in env.entry.now)) (elements_of elements.now)) }
{
    for number in 0..count_of(elements) {
        let holds = holds_at(alloc, place, body, elements, number, env)?;
        if holds {
            return chosen(alloc, elements, number);
        }
    }
    Err(Stop::GaveUp)
}

/// Copies of the elements for which a body is TRUE.
#[cycle(evaluate)]
fn passing<'e, 'm: 'a, 'a>(
    alloc: Global,
    place: &'a Place,
    body: &'a Code<'m>,
    elements: &'e Elements<'e>,
    env: &Environment<'m, 'a>,
) -> Result<Vec<Value>, Stop>
    ensures { Answers (λ v. map tree_of v.items) result
        (passing (λ v.
        asks place.now (means (code_in env.entry.now body.now)) (bound_in env.entry.now ++ v ∷ [])
        (present_in env.entry.now) (next_in env.entry.now)) (elements_of elements.now)) }
{
    let mut kept = Vec::new(alloc);
    for number in 0..count_of(elements) {
        let holds = holds_at(alloc, place, body, elements, number, env)?;
        keep(alloc, &mut kept, elements, number, holds)?;
    }
    Ok(kept)
}
