//! Closed parts, which have one value in all states.
ghost use Rattle.std.specs.Prelude.{◌≡◌, [], ◌∷◌, ◌++◌, IfSome};
ghost use Rattle.tla_code.specs.CodeExpr.{Scope, expr_in};
ghost use Rattle.tla_code.specs.NoVariables.{IsClosed};
ghost use Rattle.tla_sharing.specs.Outside.{HasNames};

use crate::choice::{Search, Wanted, chosen};
use crate::gave_up::GaveUp;
use crate::measures::{size, uses};
use crate::replaced::{Target, replaced};
use crate::usage::{Usage, position_at};
use std::alloc::Global;
use tla_code::{Code, is_steady};

/// The greatest number of attempts to find a larger closed part.
const MAX_SEARCHES: usize = 64;

/// The largest closed part of an expression under `names` bound names that builds or iterates over a set or a function.
/// It is renumbered as if it were under no names.
pub fn constant_in<'m>(alloc: Global, code: &Code<'m>, names: usize) -> Option<Code<'m>>
    ensures { IfSome result (λ c. IsClosed c) }
{
    let found = largest_closed_part(alloc, code, names)?;
    if is_steady(&found) { Some(found) } else { None }
}

/// The largest closed part that the searches find.
fn largest_closed_part<'m>(alloc: Global, code: &Code<'m>, names: usize) -> Option<Code<'m>> {
    let mut largest: Option<Code<'m>> = None;
    let mut least = 0usize;
    for _ in 0..MAX_SEARCHES {
        match larger_closed_part(alloc, code, names, least) {
            Some(found) => {
                least = size(&found, usize::MAX);
                largest = Some(found);
            }
            None => return largest,
        }
    }
    largest
}

/// A closed part of more than `least` nodes, or None.
fn larger_closed_part<'m>(
    alloc: Global,
    code: &Code<'m>,
    names: usize,
    least: usize,
) -> Option<Code<'m>> {
    let search = Search {
        whole: code,
        names: 0,
        outside: &[],
        wanted: Wanted::Closed(least),
    };
    chosen(alloc, code, position_at(names, Usage::Value), search)
}

/// An expression under `names` bound names, with all copies of a definition under no names replaced by uses. `outside`
/// has, for each definition in scope, the number of names bound outside it. None: the expression stays unchanged.
pub fn with_constant<'m>(
    alloc: Global,
    code: &Code<'m>,
    constant: &Code<'m>,
    names: usize,
    outside: &[usize],
) -> Option<Code<'m>>
    ensures { IfSome result (λ c.
        (scope : Scope)
        → HasNames scope outside.now
        → expr_in (scope ++ (0, expr_in scope constant.now) ∷ []) c ≡ expr_in scope code.now) }
{
    let target = Target {
        definition: constant,
        names: 0,
        outside,
    };
    match replaced(alloc, code, names, target) {
        Ok(code) => if_used(code, outside.len()),
        Err(GaveUp) => None,
    }
}

/// The expression, if it uses the definition with this number.
fn if_used<'m>(code: Code<'m>, number: usize) -> Option<Code<'m>>
    ensures { IfSome result (λ c. c ≡ code.entry) }
{
    if uses(&code, number) {
        Some(code)
    } else {
        None
    }
}
