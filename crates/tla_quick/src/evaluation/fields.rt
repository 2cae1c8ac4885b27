//! Records, and sets of records.
ghost use Rattle.std.specs.Prelude.{◌≡◌, List, ℕ, map};
ghost use Rattle.tla_value.specs.TreeOf.{tree_of, pair_of};
ghost use Rattle.tla_core.specs.declared.fault.Place.{Place as AnyPlace};
ghost use Rattle.tla_core.specs.Lists.{each, all_hold};
ghost use Rattle.tla_core.specs.Meaning.{Meaning};
ghost use Rattle.tla_core.specs.Expr.{records};
ghost use Rattle.tla_core.specs.SetForms.{field_has};
ghost use Rattle.tla_core.specs.Value.{mean_fields};
ghost use Rattle.tla_code.specs.Forms.{field_expr};
ghost use Rattle.tla_code.specs.Private.Listed.{fields_of_codes};
ghost use Rattle.tla_eval.specs.Private.Parts.{named_value};
ghost use Rattle.tla_operators.specs.Evaluated.{tree_of_evaluated};
ghost use Rattle.tla_quick.specs.Private.Answers.{Answers};
ghost use Rattle.tla_quick.specs.Private.Environment.{bound_in, present_in, next_in, scope_in, value_in, has_in};

use crate::environment::Environment;
use crate::evaluation::{has, value};
use crate::made::{made_record, owned};
use crate::names::has_just;
use crate::stop::Stop;
use std::alloc::Global;
use tla_code::{Code, FieldForm};
use tla_core::Place;
use tla_operators::evaluated::Evaluated;
use tla_operators::functions::if_function;
use tla_operators::rules::copied_text;
use tla_sets::fields::field_in;
use tla_value::{FunValue, Text, Value};

/// The value of a form with named operands.
#[cycle(evaluate)]
pub(super) fn value_of_fields<'m: 'a, 'a>(
    alloc: Global,
    place: &'a Place,
    form: FieldForm,
    fields: &'a [(&'m Text, Code<'m>)],
    env: &Environment<'m, 'a>,
) -> Result<Evaluated<'a>, Stop>
    ensures { Answers tree_of_evaluated result
        (value_in env.entry.now
        (field_expr form place.now (fields_of_codes (scope_in env.entry.now) fields.now))) }
{
    match form {
        FieldForm::Record => {
            let pairs = named_values(alloc, fields, env)?;
            Ok(Evaluated::Owned(made_record(alloc, place, pairs)?))
        }
        FieldForm::Records => Err(Stop::GaveUp),
    }
}

/// The values of some fields, from left to right, each with its name.
#[cycle(evaluate)]
fn named_values<'m: 'a, 'a>(
    alloc: Global,
    fields: &'a [(&'m Text, Code<'m>)],
    env: &Environment<'m, 'a>,
) -> Result<Vec<(Value, Value)>, Stop>
    ensures { Answers (λ v. map pair_of v.items) result
        (each (λ (f : List ℕ × Meaning).
        named_value f (bound_in env.entry.now) (present_in env.entry.now) (next_in env.entry.now))
        (mean_fields (fields_of_codes (scope_in env.entry.now) fields.now))) }
{
    let mut pairs = Vec::with_capacity(alloc, fields.len())?;
    for field in fields {
        let value = owned(alloc, value(alloc, &field.1, env)?)?;
        pairs.push((Value::Text(copied_text(alloc, field.0)?), value))?;
    }
    Ok(pairs)
}

/// Whether a value is a member of a form with named operands.
#[cycle(evaluate)]
pub(super) fn has_in_fields<'m: 'a, 'a>(
    alloc: Global,
    form: FieldForm,
    fields: &'a [(&'m Text, Code<'m>)],
    member: &'a Value,
    env: &Environment<'m, 'a>,
) -> Result<bool, Stop>
    ensures { (p : AnyPlace)
        → Answers (λ b. b) result
        (has_in env.entry.now (tree_of member.now)
        (field_expr form p (fields_of_codes (scope_in env.entry.now) fields.now))) }
{
    match form {
        FieldForm::Records => is_record_of(alloc, fields, member, env),
        FieldForm::Record => Err(Stop::GaveUp),
    }
}

/// Whether a value is a record with exactly these fields, each value a member of the field's code.
#[cycle(evaluate)]
fn is_record_of<'m: 'a, 'a>(
    alloc: Global,
    fields: &'a [(&'m Text, Code<'m>)],
    member: &'a Value,
    env: &Environment<'m, 'a>,
) -> Result<bool, Stop>
    ensures { (p : AnyPlace)
        → Answers (λ b. b) result
        (has_in env.entry.now (tree_of member.now)
        (records p (fields_of_codes (scope_in env.entry.now) fields.now))) }
{
    match if_function(member) {
        Some(function) => {
            if has_just(function, fields) {
                fields_have(alloc, fields, function, env)
            } else {
                Ok(false)
            }
        }
        None => Ok(false),
    }
}

/// Whether the value of each field is a member of the field's code. Stops at the first that isn't.
#[cycle(evaluate)]
fn fields_have<'m: 'a, 'a>(
    alloc: Global,
    fields: &'a [(&'m Text, Code<'m>)],
    function: &'a FunValue,
    env: &Environment<'m, 'a>,
) -> Result<bool, Stop>
    ensures { Answers (λ b. b) result
        (all_hold
        (field_has function.now (bound_in env.entry.now) (present_in env.entry.now)
        (next_in env.entry.now))
        (mean_fields (fields_of_codes (scope_in env.entry.now) fields.now))) }
{
    for field in fields {
        match field_in(function, field.0) {
            Some(value) => {
                if !has(alloc, &field.1, value, env)? {
                    return Ok(false);
                }
            }
            None => return Ok(false),
        }
    }
    Ok(true)
}
