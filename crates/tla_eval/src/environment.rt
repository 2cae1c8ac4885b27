//! The environment of an evaluation.
ghost use Rattle.std.specs.Prelude.{◌≡◌, ◌≤◌, length, IfOk, IfErr, Ok, Some, false, get_or, option_map, slice_get};
ghost use Rattle.tla_value.specs.Tree.{truth};
ghost use Rattle.tla_value.specs.TreeOf.{tree_of};
ghost use Rattle.tla_core.specs.Meaning.{if_set, variable_of};
ghost use Rattle.tla_eval.specs.Private.Environment.{bound_of};
ghost use Rattle.tla_operators.specs.Evaluated.{tree_of_evaluated, Evaluates};

use crate::partial::Partial;
use std::alloc::Global;
use tla_core::{FaultCode, Place};
use tla_operators::evaluated::Evaluated;
use tla_operators::fault_ref::{FaultRef, fault_at};
use tla_value::{State, Value};

/// The values of the bound names, a linked list from the innermost frame out: those of forms that bind one name (`One`)
/// or several (`Many`), and those of the caller (`Outer`).
#[derive(Clone, Copy)]
pub(crate) enum Frame<'a> {
    Outer(&'a [Value]),
    One(&'a Frame<'a>, &'a Value),
    Many(&'a Frame<'a>, &'a [Value]),
}

/// The values of the bound names and of the variables.
#[derive(Clone, Copy)]
pub(crate) struct Environment<'a> {
    pub(crate) frame: &'a Frame<'a>,
    pub(crate) now: Option<&'a State>,
    pub(crate) next: &'a Partial,
}

/// The value of a bound name, or the number of bound names. Recurses once for each frame.
fn bound_name<'a>(frame: &'a Frame<'a>, index: usize) -> Result<&'a Value, usize>
    ensures found { IfOk result (λ v.
        slice_get (bound_of frame.entry.now) index ≡ Some (tree_of v.now)) }
    ensures absent { IfErr result (λ n. (n ≡ length (bound_of frame.entry.now)) × (n ≤ index)) }
{
    match frame {
        Frame::Outer(values) => match values.get(index) {
            Some(value) => Ok(value),
            None => Err(values.len()),
        },
        Frame::One(outer, value) => match bound_name(outer, index) {
            Ok(value) => Ok(value),
            Err(count) => {
                if count == index {
                    Ok(value)
                } else {
                    Err(count + 1)
                }
            }
        },
        Frame::Many(outer, values) => match bound_name(outer, index) {
            Ok(value) => Ok(value),
            Err(count) => match values.get(index - count) {
                Some(value) => Ok(value),
                None => Err(count + values.len()),
            },
        },
    }
}

/// The value of a bound name; FALSE if it doesn't exist.
pub(crate) fn bound_value<'a>(frame: &'a Frame<'a>, index: usize) -> Evaluated<'a>
    ensures { tree_of_evaluated result ≡ get_or (bound_of frame.entry.now) index (truth false) }
{
    match bound_name(frame, index) {
        Ok(value) => Evaluated::Borrowed(value),
        Err(_) => Evaluated::Owned(Value::Truth(false)),
    }
}

/// The present value of a variable; FALSE if it doesn't exist.
pub(crate) fn now_value<'a>(now: Option<&'a State>, variable: usize) -> Evaluated<'a>
    ensures { tree_of_evaluated result ≡ variable_of (option_map (λ s. s.now) now.entry) variable }
{
    match now {
        Some(state) => match state.values().get(variable) {
            Some(value) => Evaluated::Borrowed(value),
            None => Evaluated::Owned(Value::Truth(false)),
        },
        None => Evaluated::Owned(Value::Truth(false)),
    }
}

/// The next value of a variable; a fault if it isn't set.
pub(crate) fn next_value<'p, 'a>(
    place: &'p Place,
    next: &'a Partial,
    variable: usize,
) -> Result<Evaluated<'a>, FaultRef<'p>>
    ensures { Evaluates result (if_set place.now (slice_get next.now variable)) }
{
    if variable < next.variables() {
        match next.get(variable) {
            Some(value) => Ok(Evaluated::Borrowed(value)),
            None => Err(fault_at(FaultCode::NotSet, place)),
        }
    } else {
        Err(fault_at(FaultCode::NotSet, place))
    }
}
