//! The frames of an environment: the values of the bound names, and the definitions.
ghost use Rattle.std.specs.Prelude.{◌≡◌, [], Ok, Some, IfSome, slice_get};
ghost use Rattle.tla_value.specs.Tree.{Tree};
ghost use Rattle.tla_value.specs.TreeOf.{tree_of};
ghost use Rattle.tla_core.specs.Fault.{Outcome};
ghost use Rattle.tla_core.specs.Meaning.{Present, Next};
ghost use Rattle.tla_quick.specs.Private.Kept.{scope_with};
ghost use Rattle.tla_quick.specs.Private.Frames.{bound_of, scope_of, IsKnown, Knows, IsDefinition};

use crate::constant::Constant;
use tla_code::Code;
use tla_value::Value;

/// The environment, a linked list from the innermost frame out: bound names (`One`, `Many`), let-bindings (`Defined`),
/// and the closed parts (`Outer`). The `usize` of `One` and `Many` is the number of names that outer frames bind.
#[derive(Clone, Copy)]
pub(crate) enum Frame<'m, 'a> {
    Outer(&'a Vec<Constant<'m>>),
    One(&'a Frame<'m, 'a>, usize, &'a Value),
    Many(&'a Frame<'m, 'a>, usize, &'a [Value]),
    /// The number of a definition, the number of names bound outside it, its code, and its value, if known.
    Defined(&'a Frame<'m, 'a>, usize, usize, &'a Code<'m>, Option<&'a Value>),
}

/// The value of a bound name.
pub(crate) fn bound_name<'m: 'a, 'a>(frame: &'a Frame<'m, 'a>, index: usize) -> Option<&'a Value>
    ensures { (s : Present) (t : Next)
        → Knows frame.entry.now s t
        → IfSome result (λ v. slice_get (bound_of frame.entry.now) index ≡ Some (tree_of v.now)) }
{
    match frame {
        Frame::Outer(_) => None,
        Frame::One(outer, names, value) => {
            if index == *names {
                Some(value)
            } else {
                bound_name(outer, index)
            }
        }
        Frame::Many(outer, names, values) => {
            if index < *names {
                bound_name(outer, index)
            } else {
                values.get(index - *names)
            }
        }
        Frame::Defined(outer, _, _, _, _) => bound_name(outer, index),
    }
}

/// A definition in scope: the number of names bound outside it, and its value, if known.
#[derive(Clone, Copy)]
pub(crate) struct Found<'a> {
    pub(crate) names: usize,
    pub(crate) value: Option<&'a Value>,
}

/// The value of closed part `number`.
fn kept_value<'m: 'a, 'a>(constants: &'a Vec<Constant<'m>>, number: usize) -> Option<&'a Value>
    ensures { (frame : Frame) (s : Present) (t : Next)
        → bound_of frame ≡ []
        → scope_of frame ≡ scope_with constants.now.items
        → IfSome result (λ v. IsDefinition frame s t number 0 (tree_of v.now)) }
{
    match constants.get(number) {
        Some(constant) => Some(&constant.value),
        None => None,
    }
}

/// Closed part `number`, as a definition in the empty scope.
fn found_among<'m: 'a, 'a>(constants: &'a Vec<Constant<'m>>, number: usize) -> Option<Found<'a>>
    ensures { (frame : Frame) (s : Present) (t : Next)
        → bound_of frame ≡ []
        → scope_of frame ≡ scope_with constants.now.items
        → IfSome result (λ f.
        IfSome f.value (λ v. IsDefinition frame s t number f.names (tree_of v.now))) }
{
    match kept_value(constants, number) {
        Some(value) => Some(Found {
            names: 0,
            value: Some(value),
        }),
        None => None,
    }
}

/// The definition with a number.
pub(crate) fn definition<'m: 'a, 'a>(frame: &'a Frame<'m, 'a>, number: usize) -> Option<Found<'a>>
    ensures { (s : Present) (t : Next)
        → Knows frame.entry.now s t
        → IfSome result (λ f.
        IfSome f.value (λ v.
        IsDefinition frame.entry.now s t number f.names (tree_of v.now))) }
{
    match frame {
        Frame::Outer(constants) => found_among(constants, number),
        Frame::One(outer, _, _) => definition(outer, number),
        Frame::Many(outer, _, _) => definition(outer, number),
        Frame::Defined(outer, found, names, _, value) => {
            if number == *found {
                Some(Found {
                    names: *names,
                    value: *value,
                })
            } else {
                definition(outer, number)
            }
        }
    }
}

/// `None`, with a clause that helps proofs.
pub(crate) fn nothing_known<'a>() -> Option<&'a Value>
    ensures { (o : Outcome Tree) → IsKnown result o }
{
    None
}

/// `Some(value)`, with a clause that helps proofs.
pub(crate) fn just_known<'a>(value: &'a Value) -> Option<&'a Value>
    ensures { (o : Outcome Tree) → o ≡ Ok (tree_of value.now) → IsKnown result o }
{
    Some(value)
}
