//! Lists of expressions of one scope.

ghost use Rattle.std.specs.Prelude.{◌≡◌, ◌≤◌, ◌+◌, ◌++◌, ◌∷◌, [], length, Some, IfErr, OnOk};
ghost use Rattle.tla_core.specs.Expr as expr;
ghost use Rattle.tla_scopes.specs.Maybe.{each_of};
ghost use Rattle.tla_scopes.specs.Lists.{exprs};
ghost use Rattle.tla_scopes.specs.Scopes.{AreLinked, scope_at};
ghost use Rattle.tla_expand.specs.Private.Gives.{part_in, key_in, arm_in, field_in, made, Gives, GivesMany, GivesArms, GivesFields, most_named};
ghost use Rattle.tla_scopes.specs.Listed.{listed};

use crate::builders::{text_of, tuple};
use crate::expand::{ExpandContext, expand, two_parts};
use crate::expanded::{Arms, Expanded, Fields, Many};
use std::alloc::Global;
use tla_core::{Core, Place};
use tla_scopes::{Entries, Failure, place_of};
use tla_tree::{Arm, Expr, Field, push};
use tla_value::Text;

/// Expressions of one scope.
#[cycle(expand)]
pub(super) fn expand_all<'a>(
    alloc: Global,
    entries: &mut Entries<'_, 'a>,
    trees: &'a [Expr],
    at: ExpandContext,
) -> Result<Many, Failure>
    requires linked { AreLinked (listed entries.old) }
    requires scope { at.scope ≤ length (listed entries.old) }
    requires small { at.bound + at.nodes_left ≤ most_named (listed entries.old) }
    ensures kept { OnOk result (listed entries.new ≡ listed entries.old) }
    ensures same { GivesMany at.depth_left at.nodes_left result
        (each_of (part_in at.primes (scope_at (listed entries.old) at.scope) at.bound)
        trees.now) }
{
    let mut parts = Vec::new(alloc);
    let mut nodes_left = at.nodes_left;
    for i in 0..trees.len() {
        let part = expand(
            alloc,
            entries,
            &trees[i],
            ExpandContext { nodes_left, ..at },
        )?;
        nodes_left = part.nodes_left;
        push(&mut parts, part.core)?;
    }
    Ok(Many { parts, nodes_left })
}

/// The argument of a function: one expression, or the tuple of several.
#[cycle(expand)]
pub(super) fn expand_argument<'a>(
    alloc: Global,
    entries: &mut Entries<'_, 'a>,
    place: Place,
    items: &'a [Expr],
    at: ExpandContext,
) -> Result<Expanded, Failure>
    requires linked { AreLinked (listed entries.old) }
    requires scope { at.scope ≤ length (listed entries.old) }
    requires small { at.bound + at.nodes_left ≤ most_named (listed entries.old) }
    ensures kept { OnOk result (listed entries.new ≡ listed entries.old) }
    ensures same { Gives at.depth_left at.nodes_left result
        (key_in at.primes (scope_at (listed entries.old) at.scope) at.bound items.now) }
{
    match items {
        [] => Err(Failure::NoExpansion(place)),
        [item] => expand(alloc, entries, item, at),
        [first, ..] => {
            let place = place_of(first.place());
            tuple_of(alloc, entries, place, items, at)
        }
    }
}

/// A tuple of expressions.
#[cycle(expand)]
fn tuple_of<'a>(
    alloc: Global,
    entries: &mut Entries<'_, 'a>,
    place: Place,
    items: &'a [Expr],
    at: ExpandContext,
) -> Result<Expanded, Failure>
    requires linked { AreLinked (listed entries.old) }
    requires scope { at.scope ≤ length (listed entries.old) }
    requires small { at.bound + at.nodes_left ≤ most_named (listed entries.old) }
    ensures kept { OnOk result (listed entries.new ≡ listed entries.old) }
    ensures same { Gives at.depth_left at.nodes_left result
        (made (λ xs. expr.tuple place (exprs xs))
        (each_of (part_in at.primes (scope_at (listed entries.old) at.scope) at.bound)
        items.now)) }
{
    let inside = at.inside()?;
    let many = expand_all(alloc, entries, items, inside)?;
    let core = tuple(alloc, place, many.parts)?;
    Ok(Expanded {
        core,
        nodes_left: many.nodes_left,
    })
}

/// The arms of CASE.
#[cycle(expand)]
pub(super) fn arms_of<'a>(
    alloc: Global,
    entries: &mut Entries<'_, 'a>,
    arms: &'a [Arm],
    at: ExpandContext,
) -> Result<Arms, Failure>
    requires linked { AreLinked (listed entries.old) }
    requires scope { at.scope ≤ length (listed entries.old) }
    requires small { at.bound + at.nodes_left ≤ most_named (listed entries.old) }
    ensures kept { OnOk result (listed entries.new ≡ listed entries.old) }
    ensures same { GivesArms at.depth_left at.nodes_left result
        (each_of (arm_in at.primes (scope_at (listed entries.old) at.scope) at.bound) arms.now) }
{
    let mut made = Vec::new(alloc);
    let mut nodes_left = at.nodes_left;
    for i in 0..arms.len() {
        let arm = &arms[i];
        let inside = ExpandContext { nodes_left, ..at };
        let two = two_parts(alloc, entries, &arm.guard, &arm.value, at.primes, inside)?;
        nodes_left = two.nodes_left;
        push(&mut made, (Box::into_inner(two.first), two.second))?;
    }
    Ok(Arms {
        arms: made,
        nodes_left,
    })
}

/// The parts of fields, with the fields' names.
#[cycle(expand)]
pub(super) fn named_parts<'a>(
    alloc: Global,
    entries: &mut Entries<'_, 'a>,
    fields: &'a [Field],
    at: ExpandContext,
) -> Result<Fields, Failure>
    requires linked { AreLinked (listed entries.old) }
    requires scope { at.scope ≤ length (listed entries.old) }
    requires small { at.bound + at.nodes_left ≤ most_named (listed entries.old) }
    ensures kept { OnOk result (listed entries.new ≡ listed entries.old) }
    ensures same { GivesFields at.depth_left at.nodes_left result
        (each_of (field_in at.primes (scope_at (listed entries.old) at.scope) at.bound)
        fields.now) }
{
    let mut made = Vec::new(alloc);
    let mut nodes_left = at.nodes_left;
    for i in 0..fields.len() {
        let field = &fields[i];
        let name = text_of(alloc, &field.name.word)?;
        let part = expand(
            alloc,
            entries,
            &field.value,
            ExpandContext { nodes_left, ..at },
        )?;
        nodes_left = part.nodes_left;
        push(&mut made, (name, part.core))?;
    }
    Ok(Fields {
        fields: made,
        nodes_left,
    })
}
