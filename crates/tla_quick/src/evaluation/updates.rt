//! EXCEPT, and bodies under tuple patterns.
ghost use Rattle.std.specs.Prelude.{◌∷◌};
ghost use Rattle.tla_value.specs.TreeOf.{tree_of};
ghost use Rattle.tla_core.specs.declared.fault.Place.{Place as AnyPlace};
ghost use Rattle.tla_core.specs.Expr.{except, opened};
ghost use Rattle.tla_core.specs.Functions.{update, update_all};
ghost use Rattle.tla_core.specs.Value.{means, mean_all, mean_updates};
ghost use Rattle.tla_code.specs.Private.Listed.{exprs_of_codes, updates_of_codes};
ghost use Rattle.tla_operators.specs.Evaluated.{tree_of_evaluated};
ghost use Rattle.tla_quick.specs.Private.Answers.{Answers};
ghost use Rattle.tla_quick.specs.Private.Environment.{bound_in, present_in, next_in, scope_in, code_in, value_in};

use crate::environment::Environment;
use crate::evaluation::binding::value_with;
use crate::evaluation::choices::value_with_all;
use crate::evaluation::value;
use crate::leaves::open_items;
use crate::made::{known_function, made_function, owned_function};
use crate::stop::Stop;
use std::alloc::Global;
use tla_code::Code;
use tla_core::{Opening, Place};
use tla_operators::evaluated::Evaluated;
use tla_value::Value;

/// `[f EXCEPT !p = e, ..]`: applies each update to the result of the one before.
#[cycle(evaluate)]
pub(super) fn value_of_except<'m: 'a, 'a>(
    alloc: Global,
    place: &'a Place,
    updates: &'a [(Vec<Code<'m>>, Code<'m>)],
    base: &'a Code<'m>,
    env: &Environment<'m, 'a>,
) -> Result<Evaluated<'a>, Stop>
    ensures { Answers tree_of_evaluated result
        (value_in env.entry.now
        (except place.now (code_in env.entry.now base.now)
        (updates_of_codes (scope_in env.entry.now) updates.now))) }
{
    let base = value(alloc, base, env)?;
    updated_by_all(alloc, place, updates, base, env)
}

/// A value after some updates, one after the other.
#[cycle(evaluate)]
fn updated_by_all<'m: 'a, 'a>(
    alloc: Global,
    place: &'a Place,
    updates: &'a [(Vec<Code<'m>>, Code<'m>)],
    base: Evaluated<'a>,
    env: &Environment<'m, 'a>,
) -> Result<Evaluated<'a>, Stop>
    ensures { Answers tree_of_evaluated result
        (update_all place.now (mean_updates (updates_of_codes (scope_in env.entry.now) updates.now))
        (bound_in env.entry.now) (present_in env.entry.now) (next_in env.entry.now)
        (tree_of_evaluated base.entry)) }
{
    let mut value = base;
    for update in updates {
        let keys = update.0.as_slice();
        value = Evaluated::Owned(updated(alloc, place, keys, &update.1, value, env)?);
    }
    Ok(value)
}

/// A value with the one at the end of a path replaced.
#[cycle(evaluate)]
fn updated<'m: 'a, 'a>(
    alloc: Global,
    place: &'a Place,
    keys: &'a [Code<'m>],
    body: &'a Code<'m>,
    value: Evaluated<'a>,
    env: &Environment<'m, 'a>,
) -> Result<Value, Stop>
    ensures { Answers tree_of result
        (update place.now (mean_all (exprs_of_codes (scope_in env.entry.now) keys.now))
        (means (code_in env.entry.now body.now)) (bound_in env.entry.now) (present_in env.entry.now)
        (next_in env.entry.now) (tree_of_evaluated value.entry)) }
{
    match keys.split_first() {
        None => value_with(alloc, &*body, value.value(), &*env),
        Some((key, rest)) => updated_at(alloc, place, rest, key, body, value, env),
    }
}

/// A value updated along a path: `key` first, then `rest`. If the key is outside the domain, nothing changes.
#[cycle(evaluate)]
fn updated_at<'m: 'a, 'a>(
    alloc: Global,
    place: &'a Place,
    rest: &'a [Code<'m>],
    key: &'a Code<'m>,
    body: &'a Code<'m>,
    base: Evaluated<'a>,
    env: &Environment<'m, 'a>,
) -> Result<Value, Stop>
    ensures { Answers tree_of result
        (update place.now
        (means (code_in env.entry.now key.now) ∷ mean_all
        (exprs_of_codes (scope_in env.entry.now) rest.now)) (means (code_in env.entry.now body.now))
        (bound_in env.entry.now) (present_in env.entry.now) (next_in env.entry.now)
        (tree_of_evaluated base.entry)) }
{
    let function = known_function(alloc, place, base)?;
    let key = value(alloc, key, env)?;
    match function.apply(key.value()) {
        None => Ok(owned_function(function)),
        Some(old) => {
            let lent = Evaluated::Borrowed(old);
            let new = updated(alloc, &*place, &*rest, &*body, lent, &*env)?;
            made_function(place, function.with_value(key.value(), new))
        }
    }
}

/// The value of a body under the items of destructured elements.
#[cycle(evaluate)]
pub(super) fn opened<'m: 'a, 'a>(
    alloc: Global,
    openings: &'a [Opening],
    body: &'a Code<'m>,
    env: &Environment<'m, 'a>,
) -> Result<Evaluated<'a>, Stop>
    ensures { (p : AnyPlace)
        → Answers tree_of_evaluated result
        (value_in env.entry.now (opened p openings.now (code_in env.entry.now body.now))) }
{
    let items = open_items(alloc, openings, env)?;
    Ok(Evaluated::Owned(value_with_all(alloc, body, items.as_slice(), env)?))
}
