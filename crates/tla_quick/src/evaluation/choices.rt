//! Forms that bind several names.
ghost use Rattle.std.specs.Prelude.{◌≡◌, ◌++◌, ◌∷◌, [], IfOk, List, map, option_map, slice_get};
ghost use Rattle.tla_value.specs.Tree.{Tree};
ghost use Rattle.tla_value.specs.TreeOf.{tree_of};
ghost use Rattle.tla_value.specs.Choices.{choices};
ghost use Rattle.tla_core.specs.Value.{means, mean_all};
ghost use Rattle.tla_code.specs.Forms.{map_expr};
ghost use Rattle.tla_code.specs.Private.Listed.{exprs_of_codes};
ghost use Rattle.tla_eval.specs.Private.Chosen.{image_rule, chosen_function_rule, values_for, value_at, function_for_rule};
ghost use Rattle.tla_operators.specs.Evaluated.{tree_of_evaluated};
ghost use Rattle.tla_operators.specs.Gathered.{IsGathered};
ghost use Rattle.tla_quick.specs.Private.Answers.{Answers};
ghost use Rattle.tla_quick.specs.Private.Environment.{bound_in, present_in, next_in, scope_in, code_in, value_in, value_with};

use crate::domains::{
    gather, gathered_set, known_choice, known_domain, known_lists, made_function_with,
};
use crate::environment::Environment;
use crate::evaluation::binding::value_with;
use crate::evaluation::lists::evaluated_each;
use crate::evaluation::value;
use crate::frame::Frame;
use crate::made::{count_more, owned};
use crate::stop::Stop;
use std::alloc::Global;
use tla_code::{Code, MapForm};
use tla_core::Place;
use tla_operators::evaluated::Evaluated;
use tla_operators::gathered::Gathered;
use tla_sets::domain::member_of;
use tla_value::Value;

/// The value of a form that binds several names.
#[cycle(evaluate)]
pub(super) fn value_of_map<'m: 'a, 'a>(
    alloc: Global,
    place: &'a Place,
    form: MapForm,
    sets: &'a [Code<'m>],
    body: &'a Code<'m>,
    env: &Environment<'m, 'a>,
) -> Result<Value, Stop>
    ensures { Answers tree_of result
        (value_in env.entry.now
        (map_expr form place.now (exprs_of_codes (scope_in env.entry.now) sets.now)
        (code_in env.entry.now body.now))) }
{
    match form {
        MapForm::Image => image(alloc, place, sets, body, env),
        MapForm::Function => function(alloc, place, sets, body, env),
    }
}

/// `{e : x \in S, ..}`: the set of the values of a body for all choices from some sets.
#[cycle(evaluate)]
fn image<'m: 'a, 'a>(
    alloc: Global,
    place: &'a Place,
    sets: &'a [Code<'m>],
    body: &'a Code<'m>,
    env: &Environment<'m, 'a>,
) -> Result<Value, Stop>
    ensures { Answers tree_of result
        (image_rule place.now (mean_all (exprs_of_codes (scope_in env.entry.now) sets.now))
        (means (code_in env.entry.now body.now)) (bound_in env.entry.now) (present_in env.entry.now)
        (next_in env.entry.now)) }
{
    let sets = evaluated_each(alloc, sets, env)?;
    let lists = known_lists(alloc, place, sets.as_slice())?;
    let values = chosen_once(alloc, body, lists.as_slice(), env)?;
    gathered_set(alloc, place, values)
}

/// `[x \in S, .. |-> e]`: the function that maps each choice from some sets to the value of a body.
#[cycle(evaluate)]
fn function<'m: 'a, 'a>(
    alloc: Global,
    place: &'a Place,
    sets: &'a [Code<'m>],
    body: &'a Code<'m>,
    env: &Environment<'m, 'a>,
) -> Result<Value, Stop>
    ensures { Answers tree_of result
        (chosen_function_rule place.now
        (mean_all (exprs_of_codes (scope_in env.entry.now) sets.now))
        (means (code_in env.entry.now body.now)) (bound_in env.entry.now) (present_in env.entry.now)
        (next_in env.entry.now)) }
{
    let sets = evaluated_each(alloc, sets, env)?;
    function_for(alloc, place, sets.as_slice(), body, env)
}

/// The same, for the values of the sets.
#[cycle(evaluate)]
fn function_for<'s, 'm: 'a, 'a>(
    alloc: Global,
    place: &'a Place,
    sets: &'s [Evaluated<'s>],
    body: &'a Code<'m>,
    env: &Environment<'m, 'a>,
) -> Result<Value, Stop>
    ensures { Answers tree_of result
        (function_for_rule place.now (means (code_in env.entry.now body.now))
        (bound_in env.entry.now)
        (present_in env.entry.now) (next_in env.entry.now) (map tree_of_evaluated sets.now)) }
{
    let domain = known_domain(alloc, place, sets)?;
    let lists = known_lists(alloc, place, sets)?;
    let values = chosen(alloc, body, lists.as_slice(), env)?;
    made_function_with(alloc, place, &domain, values)
}

/// The values of a body for each choice of one element from each list; the last list varies fastest.
#[cycle(evaluate)]
fn chosen<'l, 'm: 'a, 'a>(
    alloc: Global,
    body: &'a Code<'m>,
    lists: &'l [&'l [Value]],
    env: &Environment<'m, 'a>,
) -> Result<Vec<Value>, Stop>
    ensures { Answers (λ v. map tree_of v.items) result
        (values_for (means (code_in env.entry.now body.now)) (bound_in env.entry.now)
        (present_in env.entry.now) (next_in env.entry.now)
        (map (λ l. map tree_of l.now) lists.now)) }
{
    let mut values = Vec::new(alloc);
    for number in 0..usize::MAX {
        match value_for(alloc, body, lists, number, env)? {
            Some(value) => values.push(value)?,
            None => return Ok(values),
        }
    }
    Err(Stop::GaveUp)
}

/// The distinct values of a body for all choices from some lists.
#[cycle(evaluate)]
fn chosen_once<'l, 'm: 'a, 'a>(
    alloc: Global,
    body: &'a Code<'m>,
    lists: &'l [&'l [Value]],
    env: &Environment<'m, 'a>,
) -> Result<Gathered, Stop>
    ensures { IfOk result (λ g.
        (ts : List Tree)
        × (values_for (means (code_in env.entry.now body.now)) (bound_in env.entry.now)
        (present_in env.entry.now) (next_in env.entry.now) (map (λ l. map tree_of l.now) lists.now)
        ≡ Ok ts) × IsGathered ts g) }
{
    let mut values = Gathered::new(alloc);
    for number in 0..usize::MAX {
        match value_for(alloc, body, lists, number, env)? {
            Some(value) => gather(&mut values, value)?,
            None => return Ok(values),
        }
    }
    Err(Stop::GaveUp)
}

/// The value of a body for choice `number`; None if there are fewer choices.
#[cycle(evaluate)]
fn value_for<'l, 'm: 'a, 'a>(
    alloc: Global,
    body: &'a Code<'m>,
    lists: &'l [&'l [Value]],
    number: usize,
    env: &Environment<'m, 'a>,
) -> Result<Option<Value>, Stop>
    ensures { Answers (λ o. option_map tree_of o) result
        (value_at (means (code_in env.entry.now body.now)) (bound_in env.entry.now)
        (present_in env.entry.now)
        (next_in env.entry.now)
        (slice_get (choices (map (λ l. map tree_of l.now) lists.now)) number)) }
{
    if lists.len() == 1 {
        value_for_member(alloc, body, lists[0], number, env)
    } else {
        value_for_choice(alloc, body, lists, number, env)
    }
}

/// The value of a body for the member of a list at an index.
#[cycle(evaluate)]
fn value_for_member<'l, 'm: 'a, 'a>(
    alloc: Global,
    body: &'a Code<'m>,
    list: &'l [Value],
    number: usize,
    env: &Environment<'m, 'a>,
) -> Result<Option<Value>, Stop>
    ensures { Answers (λ o. option_map tree_of o) result
        (value_at (means (code_in env.entry.now body.now)) (bound_in env.entry.now)
        (present_in env.entry.now)
        (next_in env.entry.now) (slice_get (choices (map tree_of list.now ∷ [])) number)) }
{
    match member_of(list, number) {
        Some(value) => Ok(Some(value_with(alloc, body, value, env)?)),
        None => Ok(None),
    }
}

/// The value of a body for choice `number` from several lists.
#[cycle(evaluate)]
fn value_for_choice<'l, 'm: 'a, 'a>(
    alloc: Global,
    body: &'a Code<'m>,
    lists: &'l [&'l [Value]],
    number: usize,
    env: &Environment<'m, 'a>,
) -> Result<Option<Value>, Stop>
    ensures { Answers (λ o. option_map tree_of o) result
        (value_at (means (code_in env.entry.now body.now)) (bound_in env.entry.now)
        (present_in env.entry.now)
        (next_in env.entry.now)
        (slice_get (choices (map (λ l. map tree_of l.now) lists.now)) number)) }
{
    match known_choice(alloc, lists, number)? {
        Some(choice) => Ok(Some(value_with_all(alloc, body, choice.as_slice(), env)?)),
        None => Ok(None),
    }
}

/// The value of a body with more bound values.
#[cycle(evaluate)]
pub(super) fn value_with_all<'m: 'a, 'a>(
    alloc: Global,
    body: &'a Code<'m>,
    choice: &'a [Value],
    env: &Environment<'m, 'a>,
) -> Result<Value, Stop>
    ensures { Answers tree_of result
        (value_with env.entry.now (map tree_of choice.now) (code_in env.entry.now body.now)) }
{
    let frame = Frame::Many(env.frame, env.names, choice);
    let inner = Environment {
        frame: &frame,
        now: env.now,
        next: env.next,
        names: count_more(env.names, choice.len())?,
        definitions: env.definitions,
    };
    owned(alloc, value(alloc, body, &inner)?)
}
