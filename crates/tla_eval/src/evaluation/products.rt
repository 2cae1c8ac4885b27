//! Sets of records and of tuples.
ghost use Rattle.std.specs.Prelude.{◌≡◌, length, map};
ghost use Rattle.tla_value.specs.TreeOf.{tree_of};
ghost use Rattle.tla_value.specs.Choices.{parts_of};
ghost use Rattle.tla_core.specs.Lists.{each, all_hold};
ghost use Rattle.tla_core.specs.Meaning.{Meaning};
ghost use Rattle.tla_core.specs.SetForms.{means-records, means-product, field_has, parts_have};
ghost use Rattle.tla_core.specs.ExprOf.{parts_of_cores, fields_of_cores};
ghost use Rattle.tla_operators.specs.Gives.{GivesBy, GivesTruth};
ghost use Rattle.tla_eval.specs.Private.Parts.{product_rule, record_set_rule};
ghost use Rattle.tla_operators.specs.Evaluated.{Evaluates, tree_of_evaluated};
ghost use Rattle.tla_eval.specs.Private.Environment.{bound_in, present_in, next_in};

use crate::environment::Environment;
use crate::evaluation::choices::evaluated_each;
use crate::evaluation::{evaluate, has};
use std::alloc::Global;
use tla_core::{Core, Place};
use tla_operators::evaluated::Evaluated;
use tla_operators::fault_ref::FaultRef;
use tla_operators::functions::if_function;
use tla_operators::sequences::sequence_items;
use tla_operators::sets::tuples_with;
use tla_sets::fields::{field_in, has_just, records_with};
use tla_value::{FunValue, Text, Value};

/// `[a : S, ..]`.
#[cycle(evaluate)]
pub(super) fn records<'c: 'a, 'a>(
    alloc: Global,
    place: &'c Place,
    fields: &'c [(Text, Core)],
    env: Environment<'a>,
) -> Result<Evaluated<'a>, FaultRef<'c>>
    ensures { Evaluates result
        (record_set_rule place.now (fields_of_cores fields.now) (bound_in env.entry)
        (present_in env.entry) (next_in env.entry)) }
{
    let sets = field_sets(alloc, fields, env)?;
    Ok(Evaluated::Owned(records_with(alloc, place, fields, sets.as_slice())?))
}

/// The values of some fields, from left to right, borrowed if possible.
#[cycle(evaluate)]
fn field_sets<'c: 'a, 'a>(
    alloc: Global,
    fields: &'c [(Text, Core)],
    env: Environment<'a>,
) -> Result<Vec<Evaluated<'a>>, FaultRef<'c>>
    ensures { GivesBy (λ v. map tree_of_evaluated v.items) result
        (each (λ (m : Meaning).
        m.value (bound_in env.entry) (present_in env.entry) (next_in env.entry))
        (parts_of (fields_of_cores fields.now))) }
{
    let mut values = Vec::with_capacity(alloc, fields.len())?;
    for field in fields {
        values.push(evaluate(alloc, &field.1, env)?)?;
    }
    Ok(values)
}

/// `S \X T ..`.
#[cycle(evaluate)]
pub(super) fn product<'c: 'a, 'a>(
    alloc: Global,
    place: &'c Place,
    parts: &'c [Core],
    env: Environment<'a>,
) -> Result<Evaluated<'a>, FaultRef<'c>>
    ensures { Evaluates result
        (product_rule place.now (parts_of_cores parts.now) (bound_in env.entry)
        (present_in env.entry) (next_in env.entry)) }
{
    let sets = evaluated_each(alloc, parts, env)?;
    Ok(Evaluated::Owned(tuples_with(alloc, place, sets.as_slice())?))
}

/// Whether a value is a record with exactly these fields, each value a member of the field's expression.
#[cycle(evaluate)]
pub(super) fn is_record_of<'c: 'a, 'a>(
    alloc: Global,
    fields: &'c [(Text, Core)],
    value: &'a Value,
    env: Environment<'a>,
) -> Result<bool, FaultRef<'c>>
    ensures { (p : Place)
        → GivesTruth result
        ((means-records p (fields_of_cores fields.now)).has (tree_of value.now)
        (bound_in env.entry) (present_in env.entry) (next_in env.entry)) }
{
    match if_function(value) {
        Some(function) => {
            if has_just(function, fields) {
                fields_have(alloc, fields, function, env)
            } else {
                Ok(false)
            }
        }
        None => Ok(false),
    }
}

/// Whether the value of each field is a member of the field's expression. Stops at the first that isn't.
#[cycle(evaluate)]
fn fields_have<'c: 'a, 'a>(
    alloc: Global,
    fields: &'c [(Text, Core)],
    function: &'a FunValue,
    env: Environment<'a>,
) -> Result<bool, FaultRef<'c>>
    ensures { GivesTruth result
        (all_hold
        (field_has function.now (bound_in env.entry) (present_in env.entry)
        (next_in env.entry)) (fields_of_cores fields.now)) }
{
    for field in fields {
        match field_in(function, &field.0) {
            Some(value) => {
                if !has(alloc, &field.1, value, env)? {
                    return Ok(false);
                }
            }
            None => return Ok(false),
        }
    }
    Ok(true)
}

/// Whether a value is a tuple, each item a member of the expression with the same index.
#[cycle(evaluate)]
pub(super) fn is_tuple_of<'c: 'a, 'a>(
    alloc: Global,
    parts: &'c [Core],
    value: &'a Value,
    env: Environment<'a>,
) -> Result<bool, FaultRef<'c>>
    ensures { (p : Place)
        → GivesTruth result
        ((means-product p (parts_of_cores parts.now)).has (tree_of value.now)
        (bound_in env.entry) (present_in env.entry) (next_in env.entry)) }
{
    match sequence_items(value) {
        Some(items) => {
            if items.len() == parts.len() {
                parts_have(alloc, parts, items, env)
            } else {
                Ok(false)
            }
        }
        None => Ok(false),
    }
}

/// Whether each item is a member of the expression with the same index. Stops at the first that isn't.
#[cycle(evaluate)]
fn parts_have<'c: 'a, 'a>(
    alloc: Global,
    parts: &'c [Core],
    items: &'a [Value],
    env: Environment<'a>,
) -> Result<bool, FaultRef<'c>>
    requires { length items.now ≡ length parts.now }
    ensures { GivesTruth result
        (parts_have (parts_of_cores parts.now) (map tree_of items.now) (bound_in env.entry)
        (present_in env.entry) (next_in env.entry)) }
{
    for i in 0..parts.len() {
        if !has(alloc, &parts[i], &items[i], env)? {
            return Ok(false);
        }
    }
    Ok(true)
}
