//! Forms whose operands are all evaluated.
ghost use Rattle.std.specs.Prelude.{List, ℕ, map};
ghost use Rattle.tla_value.specs.TreeOf.{tree_of, pair_of};
ghost use Rattle.tla_core.specs.Expr.{Apply, Field};
ghost use Rattle.tla_core.specs.Lists.{each};
ghost use Rattle.tla_core.specs.Meaning.{Meaning, means-unary, means-binary, means-equal, means-sub_seq, means-enumerated, means-tuple};
ghost use Rattle.tla_core.specs.Value.{means};
ghost use Rattle.tla_core.specs.ExprOf.{expr_of, parts_of_cores, fields_of_cores, unary_of, binary_of};
ghost use Rattle.tla_operators.specs.Gives.{GivesBy};
ghost use Rattle.tla_eval.specs.Private.Parts.{named_value, record_rule};
ghost use Rattle.tla_operators.specs.Evaluated.{Evaluates};
ghost use Rattle.tla_eval.specs.Private.Environment.{bound_in, present_in, next_in};

use crate::environment::Environment;
use crate::evaluation::evaluate;
use std::alloc::Global;
use tla_core::{Binary, Core, Place, Unary};
use tla_operators::evaluated::Evaluated;
use tla_operators::fault_ref::FaultRef;
use tla_operators::functions::{apply, field, made_fun};
use tla_operators::operators::{binary, unary};
use tla_operators::rules::copied_text;
use tla_operators::sequences::{sequence_of, sub_seq};
use tla_operators::sets::made_set;
use tla_value::{FunValue, SetValue, Text, Value};

/// An operator on one value.
#[cycle(evaluate)]
pub(super) fn on_one<'c: 'a, 'a>(
    alloc: Global,
    place: &'c Place,
    operator: Unary,
    operand: &'c Core,
    env: Environment<'a>,
) -> Result<Evaluated<'a>, FaultRef<'c>>
    ensures { Evaluates result
        ((means-unary place.now (unary_of operator) (means (expr_of operand.now))).value
        (bound_in env.entry) (present_in env.entry) (next_in env.entry)) }
{
    let operand = evaluate(alloc, operand, env)?;
    unary(alloc, place, operator, operand)
}

/// An operator on two values.
#[cycle(evaluate)]
pub(super) fn on_two<'c: 'a, 'a>(
    alloc: Global,
    place: &'c Place,
    operator: Binary,
    left: &'c Core,
    right: &'c Core,
    env: Environment<'a>,
) -> Result<Evaluated<'a>, FaultRef<'c>>
    ensures { Evaluates result
        ((means-binary place.now (binary_of operator) (means (expr_of left.now))
        (means (expr_of right.now))).value
        (bound_in env.entry) (present_in env.entry) (next_in env.entry)) }
{
    let left = evaluate(alloc, left, env)?;
    let right = evaluate(alloc, right, env)?;
    Ok(Evaluated::Owned(binary(alloc, place, operator, left.value(), right.value())?))
}

/// The value of a function at an argument.
#[cycle(evaluate)]
pub(super) fn applied<'c: 'a, 'a>(
    alloc: Global,
    place: &'c Place,
    function: &'c Core,
    argument: &'c Core,
    env: Environment<'a>,
) -> Result<Evaluated<'a>, FaultRef<'c>>
    ensures { Evaluates result
        ((means-binary place.now Apply (means (expr_of function.now))
        (means (expr_of argument.now))).value
        (bound_in env.entry) (present_in env.entry) (next_in env.entry)) }
{
    let function = evaluate(alloc, function, env)?;
    let argument = evaluate(alloc, argument, env)?;
    apply(alloc, place, function, argument.value())
}

/// Whether two values are the same.
#[cycle(evaluate)]
pub(super) fn equal<'c: 'a, 'a>(
    alloc: Global,
    left: &'c Core,
    right: &'c Core,
    env: Environment<'a>,
) -> Result<Evaluated<'a>, FaultRef<'c>>
    ensures { Evaluates result
        ((means-equal (means (expr_of left.now)).place (means (expr_of left.now))
        (means (expr_of right.now))).value
        (bound_in env.entry) (present_in env.entry) (next_in env.entry)) }
{
    let left = evaluate(alloc, left, env)?;
    let right = evaluate(alloc, right, env)?;
    Ok(Evaluated::truth(left.value() == right.value()))
}

/// The value of a record's field.
#[cycle(evaluate)]
pub(super) fn field_of<'c: 'a, 'a>(
    alloc: Global,
    place: &'c Place,
    name: &'c Text,
    base: &'c Core,
    env: Environment<'a>,
) -> Result<Evaluated<'a>, FaultRef<'c>>
    ensures { Evaluates result
        ((means-unary place.now (Field name.now) (means (expr_of base.now))).value
        (bound_in env.entry) (present_in env.entry) (next_in env.entry)) }
{
    let base = evaluate(alloc, base, env)?;
    field(alloc, place, name, base)
}

/// `SubSeq`.
#[cycle(evaluate)]
pub(super) fn part_of<'c: 'a, 'a>(
    alloc: Global,
    place: &'c Place,
    sequence: &'c Core,
    low: &'c Core,
    high: &'c Core,
    env: Environment<'a>,
) -> Result<Evaluated<'a>, FaultRef<'c>>
    ensures { Evaluates result
        ((means-sub_seq place.now (means (expr_of sequence.now)) (means (expr_of low.now))
        (means (expr_of high.now))).value
        (bound_in env.entry) (present_in env.entry) (next_in env.entry)) }
{
    let sequence = evaluate(alloc, sequence, env)?;
    let low = evaluate(alloc, low, env)?;
    let high = evaluate(alloc, high, env)?;
    Ok(Evaluated::Owned(sub_seq(alloc, place, sequence.value(), low.value(), high.value())?))
}

/// The values of some expressions, from left to right.
#[cycle(evaluate)]
fn values_of<'c: 'a, 'a>(
    alloc: Global,
    cores: &'c [Core],
    env: Environment<'a>,
) -> Result<Vec<Value>, FaultRef<'c>>
    ensures { GivesBy (λ v. map tree_of v.items) result
        (each (λ (m : Meaning).
        m.value (bound_in env.entry) (present_in env.entry) (next_in env.entry))
        (parts_of_cores cores.now)) }
{
    let mut values = Vec::with_capacity(alloc, cores.len())?;
    for core in cores {
        values.push(evaluate(alloc, core, env)?.into_value(alloc)?)?;
    }
    Ok(values)
}

/// The values of some fields, from left to right, each with its name.
#[cycle(evaluate)]
fn named_values<'c: 'a, 'a>(
    alloc: Global,
    fields: &'c [(Text, Core)],
    env: Environment<'a>,
) -> Result<Vec<(Value, Value)>, FaultRef<'c>>
    ensures { GivesBy (λ v. map pair_of v.items) result
        (each (λ (f : List ℕ × Meaning).
        named_value f (bound_in env.entry) (present_in env.entry) (next_in env.entry))
        (fields_of_cores fields.now)) }
{
    let mut pairs = Vec::with_capacity(alloc, fields.len())?;
    for field in fields {
        let value = evaluate(alloc, &field.1, env)?.into_value(alloc)?;
        pairs.push((Value::Text(copied_text(alloc, &field.0)?), value))?;
    }
    Ok(pairs)
}

/// `{e, ..}`.
#[cycle(evaluate)]
pub(super) fn enumerated<'c: 'a, 'a>(
    alloc: Global,
    place: &'c Place,
    parts: &'c [Core],
    env: Environment<'a>,
) -> Result<Evaluated<'a>, FaultRef<'c>>
    ensures { Evaluates result
        ((means-enumerated place.now (parts_of_cores parts.now)).value (bound_in env.entry)
        (present_in env.entry) (next_in env.entry)) }
{
    let values = values_of(alloc, parts, env)?;
    Ok(Evaluated::Owned(made_set(place, SetValue::from_values(alloc, values))?))
}

/// `<<e, ..>>`.
#[cycle(evaluate)]
pub(super) fn tuple<'c: 'a, 'a>(
    alloc: Global,
    place: &'c Place,
    parts: &'c [Core],
    env: Environment<'a>,
) -> Result<Evaluated<'a>, FaultRef<'c>>
    ensures { Evaluates result
        ((means-tuple place.now (parts_of_cores parts.now)).value (bound_in env.entry)
        (present_in env.entry) (next_in env.entry)) }
{
    let values = values_of(alloc, parts, env)?;
    Ok(Evaluated::Owned(sequence_of(alloc, place, values)?))
}

/// `[a |-> e, ..]`.
#[cycle(evaluate)]
pub(super) fn record_of<'c: 'a, 'a>(
    alloc: Global,
    place: &'c Place,
    fields: &'c [(Text, Core)],
    env: Environment<'a>,
) -> Result<Evaluated<'a>, FaultRef<'c>>
    ensures { Evaluates result
        (record_rule place.now (fields_of_cores fields.now) (bound_in env.entry)
        (present_in env.entry) (next_in env.entry)) }
{
    let pairs = named_values(alloc, fields, env)?;
    Ok(Evaluated::Owned(made_fun(place, FunValue::from_pairs(alloc, pairs))?))
}
