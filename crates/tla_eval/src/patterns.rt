//! Tuple patterns: elements are replaced by their items.
ghost use Rattle.std.specs.Prelude.{map};
ghost use Rattle.tla_value.specs.TreeOf.{tree_of};
ghost use Rattle.tla_core.specs.Lists.{each};
ghost use Rattle.tla_core.specs.Patterns.{fitting, opened_items, tried_set};
ghost use Rattle.tla_eval.specs.Private.Environment.{bound_of};
ghost use Rattle.tla_operators.specs.Gives.{GivesBy};
ghost use Rattle.tla_eval.specs.Private.Parts.{nothing_of};

use crate::environment::{Frame, bound_value};
use std::alloc::Global;
use tla_core::{Fault, FaultCode, Opening, Place};
use tla_operators::fault_ref::{FaultRef, fault_at};
use tla_operators::sequences::{add_items, sequence_items};
use tla_value::Value;

/// The items of an element that is a sequence of `count` items. Any other element is a fault of the form at the place.
fn fitting<'p, 'a>(
    place: &'p Place,
    count: usize,
    element: &'a Value,
) -> Result<&'a [Value], FaultRef<'p>>
    ensures { GivesBy (λ vs. map tree_of vs.now) result
        (fitting place.now count (tree_of element.now)) }
{
    match sequence_items(element) {
        Some(items) => {
            if items.len() == count {
                Ok(items)
            } else {
                Err(fault_at(FaultCode::WrongKind, place))
            }
        }
        None => Err(fault_at(FaultCode::WrongKind, place)),
    }
}

/// Copies of the items of the elements of bound names, concatenated.
pub(crate) fn open_items<'p, 'a>(
    alloc: Global,
    place: &'p Place,
    openings: &[Opening],
    frame: &'a Frame<'a>,
) -> Result<Vec<Value>, FaultRef<'p>>
    ensures { GivesBy (λ v. map tree_of v.items) result
        (opened_items place.now openings.now (bound_of frame.entry.now)) }
{
    let mut items = Vec::new(alloc);
    for opening in openings {
        let element = bound_value(frame, opening.name);
        let values = fitting(place, opening.items, element.value())?;
        add_items(alloc, &mut items, values)?;
    }
    Ok(items)
}

/// Copies of the items of the elements of these names, concatenated. An element that is no sequence of the pattern's
/// length is a fault of the form at the place.
pub fn opened(
    alloc: Global,
    place: Place,
    openings: &[Opening],
    bound: &[Value],
) -> Result<Vec<Value>, Fault>
    ensures { GivesBy (λ v. map tree_of v.items) result
        (opened_items place openings.now (map tree_of bound.now)) }
{
    let frame = Frame::Outer(&*bound);
    Ok(open_items(alloc, &place, openings, &frame)?)
}

/// Checks each of these elements against a pattern.
fn try_all<'p>(place: &'p Place, count: usize, elements: &[Value]) -> Result<(), FaultRef<'p>>
    ensures { GivesBy (λ u. u) result
        (nothing_of (each (fitting place.now count) (map tree_of elements.now))) }
{
    for element in elements {
        fitting(place, count, element)?;
    }
    Ok(())
}

/// If the value is a set, checks each element against a pattern.
pub(crate) fn try_set<'p>(place: &'p Place, count: usize, value: &Value) -> Result<(), FaultRef<'p>>
    ensures { GivesBy (λ u. tree_of value.now) result
        (tried_set place.now count (tree_of value.now)) }
{
    match value {
        Value::Set(set) => try_all(place, count, set.items()),
        _ => Ok(()),
    }
}
