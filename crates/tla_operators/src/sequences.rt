//! Sequences: functions on 1 to n.
ghost use Rattle.std.specs.Prelude.{◌≡◌, ◌<◌, ◌≤◌, ◌-◌, ◌++◌, length, map, take, drop, Ok, IfOk, IfErr, OnOk, option_map};
ghost use Rattle.tla_value.specs.Tree.{deepest, trees};
ghost use Rattle.tla_value.specs.TreeOf.{tree_of};
ghost use Rattle.tla_value.specs.Choices.{sequence};
ghost use Rattle.tla_value.specs.declared.set.TheConstants.{MAX_ELEMENTS, MAX_NESTING};
ghost use Rattle.tla_core.specs.Fault.{out_of_memory};
ghost use Rattle.tla_core.specs.Expr.{Len, Head, Tail, Concat, Append};
ghost use Rattle.tla_core.specs.Kinds.{as_sequence, items, make_sequence};
ghost use Rattle.tla_core.specs.Operators.{unary_rule, binary_rule, sub_seq_rule, part_of};
ghost use Rattle.tla_operators.specs.Evaluated.{Evaluates, tree_of_evaluated};
ghost use Rattle.tla_operators.specs.Gives.{Gives, GivesBy, GivesBorrowed};

use crate::evaluated::Evaluated;
use crate::fault_ref::{FaultRef, fault_at};
use crate::functions::made_fun;
use crate::operators::two_ints;
use crate::rules::copied;
use std::alloc::Global;
use tla_core::{FaultCode, Place};
use tla_value::{FunValue, Value};

/// The items of a sequence; another value is a fault.
#[tactic(auto, using(crate::proofs::Numbered::as_sequence_known, crate::proofs::Numbered::as_sequence_none, crate::proofs::Numbered::few_values, crate::proofs::Numbered::shallow_values))]
pub(crate) fn items_of<'p, 'a>(
    place: &'p Place,
    sequence: &'a Value,
) -> Result<&'a [Value], FaultRef<'p>>
    ensures value { GivesBy (λ vs. map tree_of vs.now) result
        (as_sequence place.now (tree_of sequence.now)) }
    ensures few { IfOk result (λ vs. length vs.now ≤ MAX_ELEMENTS) }
    ensures shallow { IfOk result (λ vs. deepest (trees (map tree_of vs.now)) < MAX_NESTING) }
{
    match sequence {
        Value::Fun(fun) => match fun.as_sequence() {
            Some(_) => Ok(fun.values()),
            None => Err(fault_at(FaultCode::WrongKind, place)),
        },
        _ => Err(fault_at(FaultCode::WrongKind, place)),
    }
}

/// The items of a value, if it is a sequence.
#[tactic(auto, using(crate::proofs::Numbered::items_known, crate::proofs::Numbered::items_none))]
pub fn sequence_items<'a>(value: &'a Value) -> Option<&'a [Value]>
    ensures { option_map (λ vs. map tree_of vs.now) result ≡ items (tree_of value.now) }
{
    match value {
        Value::Fun(fun) => match fun.as_sequence() {
            Some(_) => Some(fun.values()),
            None => None,
        },
        _ => None,
    }
}

/// Adds copies of some values at the end.
pub fn add_items<'p>(
    alloc: Global,
    items: &mut Vec<Value>,
    values: &[Value],
) -> Result<(), FaultRef<'p>>
    ensures ok { OnOk result
        (map tree_of items.new.items ≡ map tree_of items.old.items ++ map tree_of values.now) }
    ensures err { IfErr result (λ f. f ≡ out_of_memory) }
{
    for value in values {
        items.push(copied(alloc, value)?)?;
    }
    Ok(())
}

/// The sequence of some values.
pub fn sequence_of(alloc: Global, place: &Place, values: Vec<Value>) -> Result<Value, FaultRef<'_>>
    ensures { Gives result (make_sequence place.now (map tree_of values.items)) }
{
    made_fun(place, FunValue::sequence(alloc, values))
}

/// The sequence of the items with the indices `from` to `to`, without `to`.
fn part<'p>(
    alloc: Global,
    place: &'p Place,
    items: &[Value],
    from: usize,
    to: usize,
) -> Result<Value, FaultRef<'p>>
    requires within { to ≤ length items.now }
    requires order { from ≤ to }
    requires few { length items.now ≤ MAX_ELEMENTS }
    requires shallow { deepest (trees (map tree_of items.now)) < MAX_NESTING }
    ensures { Gives result (Ok (sequence (take (to - from) (drop from (map tree_of items.now))))) }
{
    let mut values = Vec::with_capacity(alloc, to - from)?;
    add_items(alloc, &mut values, &items[from..to])?;
    sequence_of(alloc, place, values)
}

/// `Len`.
pub(crate) fn length<'p>(place: &'p Place, sequence: &Value) -> Result<Value, FaultRef<'p>>
    ensures { Gives result (unary_rule Len place.now (tree_of sequence.now)) }
{
    let items = items_of(place, sequence)?;
    Ok(Value::Int(items.len() as i64))
}

/// `Head`.
pub(crate) fn head<'p, 'a>(
    alloc: Global,
    place: &'p Place,
    sequence: Evaluated<'a>,
) -> Result<Evaluated<'a>, FaultRef<'p>>
    ensures { Evaluates result (unary_rule Head place.now (tree_of_evaluated sequence.entry)) }
{
    match sequence {
        Evaluated::Borrowed(sequence) => Ok(Evaluated::Borrowed(first_item(place, sequence)?)),
        Evaluated::Owned(sequence) => {
            let item = first_item(place, &sequence)?;
            Ok(Evaluated::Owned(copied(alloc, item)?))
        }
    }
}

/// The first item, borrowed; a fault for an empty sequence.
pub(crate) fn first_item<'p, 'a>(
    place: &'p Place,
    sequence: &'a Value,
) -> Result<&'a Value, FaultRef<'p>>
    ensures { GivesBorrowed result (unary_rule Head place.now (tree_of sequence.now)) }
{
    let items = items_of(place, sequence)?;
    match items.first() {
        Some(item) => Ok(item),
        None => Err(fault_at(FaultCode::EmptySequence, place)),
    }
}

/// `Tail`.
pub(crate) fn tail<'p>(
    alloc: Global,
    place: &'p Place,
    sequence: &Value,
) -> Result<Value, FaultRef<'p>>
    ensures { Gives result (unary_rule Tail place.now (tree_of sequence.now)) }
{
    let items = items_of(place, sequence)?;
    if items.is_empty() {
        return Err(fault_at(FaultCode::EmptySequence, place));
    }
    part(alloc, place, items, 1, items.len())
}

/// `\o`.
pub(crate) fn concat<'p>(
    alloc: Global,
    place: &'p Place,
    left: &Value,
    right: &Value,
) -> Result<Value, FaultRef<'p>>
    ensures { Gives result (binary_rule Concat place.now (tree_of left.now) (tree_of right.now)) }
{
    let left = items_of(place, left)?;
    let right = items_of(place, right)?;
    let mut values = Vec::with_capacity(alloc, left.len() + right.len())?;
    add_items(alloc, &mut values, left)?;
    add_items(alloc, &mut values, right)?;
    sequence_of(alloc, place, values)
}

/// `Append`.
pub(crate) fn append<'p>(
    alloc: Global,
    place: &'p Place,
    sequence: &Value,
    item: &Value,
) -> Result<Value, FaultRef<'p>>
    ensures { Gives result
        (binary_rule Append place.now (tree_of sequence.now) (tree_of item.now)) }
{
    let items = items_of(place, sequence)?;
    let mut values = Vec::with_capacity(alloc, items.len() + 1)?;
    add_items(alloc, &mut values, items)?;
    values.push(copied(alloc, item)?)?;
    sequence_of(alloc, place, values)
}

/// `SubSeq`.
pub fn sub_seq<'p>(
    alloc: Global,
    place: &'p Place,
    sequence: &Value,
    low: &Value,
    high: &Value,
) -> Result<Value, FaultRef<'p>>
    ensures { Gives result
        (sub_seq_rule place.now (tree_of sequence.now) (tree_of low.now) (tree_of high.now)) }
{
    let items = items_of(place, sequence)?;
    let (low, high) = two_ints(place, low, high)?;
    items_between(alloc, place, items, low, high)
}

/// The sequence of the items `low` to `high`, counted from 1.
fn items_between<'p>(
    alloc: Global,
    place: &'p Place,
    items: &[Value],
    low: i64,
    high: i64,
) -> Result<Value, FaultRef<'p>>
    requires few { length items.now ≤ MAX_ELEMENTS }
    requires shallow { deepest (trees (map tree_of items.now)) < MAX_NESTING }
    ensures { Gives result (part_of place.now (map tree_of items.now) low high) }
{
    if high < low {
        return part(alloc, place, items, 0, 0);
    }
    if low < 1 || high > items.len() as i64 {
        return Err(fault_at(FaultCode::OutsideDomain, place));
    }
    part(alloc, place, items, low as usize - 1, high as usize)
}
