//! Tuple patterns: elements are replaced by their items.
ghost use Rattle.std.specs.Prelude.{map};
ghost use Rattle.tla_value.specs.TreeOf.{tree_of};
ghost use Rattle.tla_core.specs.declared.fault.Place.{Place};
ghost use Rattle.tla_core.specs.Lists.{each};
ghost use Rattle.tla_core.specs.Patterns.{fitting, tried_set};
ghost use Rattle.tla_quick.specs.Private.Answers.{Answers, nothing_of};

use crate::stop::Stop;
use tla_operators::sequences::sequence_items;
use tla_value::Value;

/// The items of an element that is a sequence of `count` items.
pub(crate) fn fitting<'a>(count: usize, element: &'a Value) -> Result<&'a [Value], Stop>
    ensures { (p : Place)
        → Answers (λ vs. map tree_of vs.now) result (fitting p count (tree_of element.now)) }
{
    match sequence_items(element) {
        Some(items) => {
            if items.len() == count {
                Ok(items)
            } else {
                Err(Stop::GaveUp)
            }
        }
        None => Err(Stop::GaveUp),
    }
}

/// Checks that each of these elements is a sequence of `count` items.
fn try_all(count: usize, elements: &[Value]) -> Result<(), Stop>
    ensures { (p : Place)
        → Answers (λ u. u) result
        (nothing_of (each (fitting p count) (map tree_of elements.now))) }
{
    for element in elements {
        fitting(count, element)?;
    }
    Ok(())
}

/// If the value is a set, checks that each element is a sequence of `count` items.
pub(crate) fn try_set(count: usize, value: &Value) -> Result<(), Stop>
    ensures { (p : Place)
        → Answers (λ u. tree_of value.now) result (tried_set p count (tree_of value.now)) }
{
    match value {
        Value::Set(set) => try_all(count, set.items()),
        _ => Ok(()),
    }
}
