//! The elements of a set that is only iterated over. A range is not built.
ghost use Rattle.std.specs.Prelude.{◌≡◌, ◌<◌, ◌≤◌, ◌++◌, Ok, Some, length, map, cond, slice_get, IfOk, IfErr, OnOk};
ghost use Rattle.std.specs.Option.{option_to_list};
ghost use Rattle.tla_value.specs.Tree.{set, trees};
ghost use Rattle.tla_value.specs.TreeOf.{tree_of};
ghost use Rattle.tla_value.specs.Choices.{range_of};
ghost use Rattle.tla_core.specs.Expr.{Range};
ghost use Rattle.tla_core.specs.ExprOf.{binary_of};
ghost use Rattle.tla_core.specs.declared.fault.FaultCode.TheVariants.{NoChoice};
ghost use Rattle.tla_core.specs.declared.fault.Place.{Place};
ghost use Rattle.tla_core.specs.Fault.{out_of_memory};
ghost use Rattle.tla_core.specs.Kinds.{as_set, or_fault, rising_set};
ghost use Rattle.tla_core.specs.Operators.{binary_rule};
ghost use Rattle.tla_operators.specs.Gives.{Gives, GivesBy};
ghost use Rattle.tla_operators.specs.Evaluated.{tree_of_evaluated};
ghost use Rattle.tla_sets.specs.Elements.{elements_of, GivesElements, elements_rule};

use crate::span::Span;
use std::alloc::Global;
use tla_core::{Binary, FaultCode, Place};
use tla_operators::evaluated::Evaluated;
use tla_operators::fault_ref::{FaultRef, fault_at, memory};
use tla_operators::operators::{binary, two_ints};
use tla_operators::rules::copied;
use tla_operators::sets::members;
use tla_value::{MAX_ELEMENTS, SetValue, Value};

/// The elements of a set, in rising order: borrowed members, those of an owned set, or a range of numbers.
#[derive(Drop)]
pub enum Elements<'a> {
    Lent(&'a [Value]),
    Made(SetValue),
    Numbers(Span),
}

/// The members of a set; another value is a fault.
pub fn members_of<'p, 'a>(
    place: &'p Place,
    set: Evaluated<'a>,
) -> Result<Elements<'a>, FaultRef<'p>>
    ensures { GivesElements result (as_set place.now (tree_of_evaluated set.entry)) }
{
    match set {
        Evaluated::Borrowed(set) => Ok(Elements::Lent(members(place, set)?)),
        Evaluated::Owned(set) => owned_members(place, set),
    }
}

/// The members of a set, by value; another value is a fault.
#[tactic(auto, using(tla_operators::proofs::Known::as_set_known))]
fn owned_members<'p, 'a>(place: &'p Place, set: Value) -> Result<Elements<'a>, FaultRef<'p>>
    ensures { GivesElements result (as_set place.now (tree_of set)) }
{
    match set {
        Value::Set(set) => Ok(Elements::Made(set)),
        _ => Err(fault_at(FaultCode::WrongKind, place)),
    }
}

/// The elements of the result of the operator at the place `at`. A range is not built. A result that is no set is a
/// fault at `place`.
pub fn elements_of_two<'p, 'a>(
    alloc: Global,
    place: &'p Place,
    at: &'p Place,
    operator: Binary,
    left: &Value,
    right: &Value,
) -> Result<Elements<'a>, FaultRef<'p>>
    ensures { GivesElements result
        (elements_rule place.now
        (binary_rule (binary_of operator) at.now (tree_of left.now) (tree_of right.now))) }
{
    match operator {
        Binary::Range => numbers(place, at, left, right),
        _ => owned_members(place, binary(alloc, at, operator, left, right)?),
    }
}

/// The range from one value to another; a fault if it exceeds the limits.
fn numbers<'p, 'a>(
    place: &'p Place,
    at: &'p Place,
    left: &Value,
    right: &Value,
) -> Result<Elements<'a>, FaultRef<'p>>
    ensures { GivesElements result
        (elements_rule place.now
        (binary_rule Range at.now (tree_of left.now) (tree_of right.now))) }
{
    let (low, high) = two_ints(at, left, right)?;
    numbers_between(place, at, low, high)
}

/// The range from `low` to `high`; a fault if it exceeds the limits.
#[tactic(auto, using(crate::proofs::Known::elements_known))]
fn numbers_between<'p, 'a>(
    place: &'p Place,
    at: &'p Place,
    low: i64,
    high: i64,
) -> Result<Elements<'a>, FaultRef<'p>>
    ensures { GivesElements result
        (elements_rule place.now (rising_set at.now (range_of low high))) }
{
    fits_range(at, low, high)?;
    Ok(Elements::Numbers(Span::new(low, high)))
}

/// A fault if the range from `low` to `high` exceeds the limits.
pub(crate) fn fits_range(place: &Place, low: i64, high: i64) -> Result<(), FaultRef<'_>>
    ensures gives { GivesBy (λ _. set (trees (range_of low high))) result
        (rising_set place.now (range_of low high)) }
    ensures few { IfOk result (λ _. length (range_of low high) ≤ MAX_ELEMENTS) }
{
    if high < low {
        return Ok(());
    }
    let steps = high.abs_diff(low);
    if steps >= MAX_ELEMENTS as u64 {
        return Err(fault_at(FaultCode::TooMany, place));
    }
    Ok(())
}

/// How many elements there are.
pub fn count_of(elements: &Elements<'_>) -> usize
    ensures { result ≡ length (elements_of elements.now) }
{
    match elements {
        Elements::Lent(values) => values.len(),
        Elements::Made(set) => set.len(),
        Elements::Numbers(span) => span.count(),
    }
}

/// The element at an index.
pub fn element_at<'e>(elements: &'e Elements<'e>, number: usize) -> Evaluated<'e>
    requires { number < length (elements_of elements.now) }
    ensures { Some (tree_of_evaluated result) ≡ slice_get (elements_of elements.now) number }
{
    match elements {
        Elements::Lent(values) => lent_at(values, number),
        Elements::Made(set) => lent_at(set.items(), number),
        Elements::Numbers(span) => Evaluated::Owned(value_at(*span, number)),
    }
}

/// The value at an index, borrowed, if there is one.
#[tactic(auto, using(crate::proofs::Listed::within_values, crate::proofs::Listed::value_there))]
fn lent_at<'e>(values: &'e [Value], number: usize) -> Evaluated<'e>
    requires { number < length (map tree_of values.now) }
    ensures { Some (tree_of_evaluated result) ≡ slice_get (map tree_of values.now) number }
{
    Evaluated::Borrowed(&values[number])
}

/// The number at an index, as a value.
fn value_at(span: Span, number: usize) -> Value
    requires { number < length (range_of span.low span.high) }
    ensures { Some (tree_of result) ≡ slice_get (range_of span.low span.high) number }
{
    Value::Int(span.number_at(number))
}

/// A copy of the element at an index.
pub fn chosen_at<'p, 'e>(
    alloc: Global,
    elements: &'e Elements<'e>,
    number: usize,
) -> Result<Value, FaultRef<'p>>
    requires { number < length (elements_of elements.now) }
    ensures { (p : Place)
        → Gives result (or_fault NoChoice p (slice_get (elements_of elements.now) number)) }
{
    element_at(elements, number).into_value(alloc)
}

/// Appends a copy of the element at an index, if it is to be kept.
pub fn keep_at<'p, 'e>(
    alloc: Global,
    kept: &mut Vec<Value>,
    elements: &'e Elements<'e>,
    number: usize,
    keep: bool,
) -> Result<(), FaultRef<'p>>
    requires { number < length (elements_of elements.now) }
    ensures ok { OnOk result
        (map tree_of kept.new.items
        ≡ cond keep
        (map tree_of kept.old.items
        ++ option_to_list (slice_get (elements_of elements.now) number))
        (map tree_of kept.old.items)) }
    ensures err { IfErr result (λ f. f ≡ out_of_memory) }
{
    if keep {
        kept.push(element_at(elements, number).into_value(alloc)?)?;
    }
    Ok(())
}

/// The elements by value.
pub fn into_values<'p>(alloc: Global, elements: Elements<'_>) -> Result<Vec<Value>, FaultRef<'p>>
    ensures { GivesBy (λ v. map tree_of v.items) result (Ok (elements_of elements.entry)) }
{
    match elements {
        Elements::Lent(values) => copies_of(alloc, values),
        Elements::Made(set) => match set.into_items() {
            Ok(values) => Ok(values),
            Err(_) => Err(memory()),
        },
        Elements::Numbers(span) => listed(alloc, span),
    }
}

fn copies_of<'p>(alloc: Global, values: &[Value]) -> Result<Vec<Value>, FaultRef<'p>>
    ensures ok { IfOk result (λ v. v.items ≡ values.now) }
    ensures err { IfErr result (λ f. f ≡ out_of_memory) }
{
    let mut copies = Vec::with_capacity(alloc, values.len())?;
    for value in values {
        copies.push(copied(alloc, value)?)?;
    }
    Ok(copies)
}

/// The numbers of a span, as values.
fn listed<'p>(alloc: Global, span: Span) -> Result<Vec<Value>, FaultRef<'p>>
    ensures ok { IfOk result (λ v. map tree_of v.items ≡ range_of span.low span.high) }
    ensures err { IfErr result (λ f. f ≡ out_of_memory) }
{
    let count = span.count();
    let mut numbers = Vec::with_capacity(alloc, count)?;
    for place in 0..count {
        numbers.push(value_at(span, place))?;
    }
    Ok(numbers)
}
