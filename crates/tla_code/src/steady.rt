//! Codes whose value needs no state and no definition.
ghost use Rattle.std.specs.Prelude.{IsTrue};
ghost use Rattle.std.specs.List.{All};
ghost use Rattle.tla_core.specs.ExprOf.{expr_of};
ghost use Rattle.tla_code.specs.NoVariables.{HasNoVariables, IsClosed, FieldIsClosed, UpdateIsClosed};

use crate::code::Code;
use tla_core::Core;
use tla_value::Text;

/// Whether a code mentions no variable and uses no definition. FALSE means nothing: an Assert and a code with
/// definitions of its own aren't examined.
#[cycle(steady)]
pub fn is_steady(code: &Code<'_>) -> bool
    ensures { IsTrue result → IsClosed code.now }
{
    match code {
        Code::Plain(core) => is_steady_leaf(core),
        Code::Bound(_, _) => true,
        Code::One(_, _, a) => is_steady(a),
        Code::Two(_, _, a, b) => is_steady(a) && is_steady(b),
        Code::Three(_, _, a, b, c) => is_steady(a) && is_steady(b) && is_steady(c),
        Code::Binder(_, _, set, body) => is_steady(set) && is_steady(body),
        Code::Destructure(_, _, body) => is_steady(body),
        _ => has_steady_parts(code),
    }
}

/// Forms with a list of parts.
#[cycle(steady)]
fn has_steady_parts(code: &Code<'_>) -> bool
    ensures { IsTrue result → IsClosed code.now }
{
    match code {
        Code::List(_, _, parts) => are_steady(parts),
        Code::Fields(_, _, fields) => are_steady_fields(fields),
        Code::Map(_, _, sets, body) => are_steady(sets) && is_steady(body),
        Code::Except(_, base, updates) => is_steady(base) && are_steady_updates(updates),
        _ => false,
    }
}

/// Whether an expression without parts mentions no variable.
fn is_steady_leaf(core: &Core) -> bool
    ensures { IsTrue result → HasNoVariables (expr_of core.now) }
{
    match core {
        Core::Constant(_, _) => true,
        Core::KindSet(_, _) => true,
        Core::Booleans(_) => true,
        Core::Literal(_) => true,
        _ => false,
    }
}

#[cycle(steady)]
fn are_steady(codes: &[Code<'_>]) -> bool
    ensures { IsTrue result → All IsClosed codes.now }
{
    for code in codes {
        if !is_steady(code) {
            return false;
        }
    }
    true
}

#[cycle(steady)]
fn are_steady_fields(fields: &[(&Text, Code<'_>)]) -> bool
    ensures { IsTrue result → All FieldIsClosed fields.now }
{
    for field in fields {
        if !is_steady(&field.1) {
            return false;
        }
    }
    true
}

#[cycle(steady)]
fn are_steady_updates(updates: &[(Vec<Code<'_>>, Code<'_>)]) -> bool
    ensures { IsTrue result → All UpdateIsClosed updates.now }
{
    for update in updates {
        if !are_steady(update.0.as_slice()) || !is_steady(&update.1) {
            return false;
        }
    }
    true
}
