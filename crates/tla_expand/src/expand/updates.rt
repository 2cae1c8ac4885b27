//! EXCEPT.

ghost use Rattle.std.specs.Prelude.{◌≡◌, ◌≤◌, ◌<◌, ◌+◌, ◌++◌, ◌∷◌, [], length, Some, IfErr, OnOk};
ghost use Rattle.tla_value.specs.Tree as value;
ghost use Rattle.tla_core.specs.Expr as expr;
ghost use Rattle.tla_scopes.specs.Places as places;
ghost use Rattle.tla_scopes.specs.Maybe.{each_of};
ghost use Rattle.tla_scopes.specs.Lists.{updates_of};
ghost use Rattle.tla_scopes.specs.Scopes.{AreLinked, scope_at};
ghost use Rattle.tla_expand.specs.Private.Gives.{both, made, part_in, step_in, update_in, value_in, Gives, GivesMany, GivesChange, GivesChanges, most_named};
ghost use Rattle.tla_scopes.specs.Listed.{listed};

use crate::builders::except;
use crate::expand::lists::expand_argument;
use crate::expand::{ExpandContext, expand, leaf_of};
use crate::expanded::{Change, Changes, Expanded, Many};
use crate::parts::boxed;
use std::alloc::Global;
use tla_core::{Core, Place};
use tla_scopes::{Entries, Entry, Failure, Leaf, What, enter, place_of};
use tla_tree::{Expr, Key, Update, Written, push};

/// EXCEPT.
#[cycle(expand)]
#[inline(never)]
pub(super) fn except_node<'a>(
    alloc: Global,
    entries: &mut Entries<'_, 'a>,
    place: Place,
    function: &'a Expr,
    updates: &'a [Update],
    at: ExpandContext,
) -> Result<Expanded, Failure>
    requires linked { AreLinked (listed entries.old) }
    requires scope { at.scope ≤ length (listed entries.old) }
    requires small { at.bound + at.nodes_left < most_named (listed entries.old) }
    ensures kept { OnOk result (listed entries.new ≡ listed entries.old) }
    ensures same { Gives (at.depth_left + 1) (at.nodes_left + 1) result
        (made (λ xs. expr.except place xs.0 (updates_of xs.1))
        (both
        (part_in at.primes (scope_at (listed entries.old) at.scope) at.bound function.now)
        (each_of (update_in at.primes (scope_at (listed entries.old) at.scope) at.bound)
        updates.now))) }
{
    let function = expand(alloc, entries, function, at)?;
    let nodes_left = function.nodes_left;
    let function = boxed(alloc, function.core)?;
    let made = changes(
        alloc,
        entries,
        place,
        updates,
        ExpandContext { nodes_left, ..at },
    )?;
    Ok(Expanded {
        core: except(place, function, made.updates),
        nodes_left: made.nodes_left,
    })
}

/// The updates of an EXCEPT that is at this place.
#[cycle(expand)]
fn changes<'a>(
    alloc: Global,
    entries: &mut Entries<'_, 'a>,
    place: Place,
    updates: &'a [Update],
    at: ExpandContext,
) -> Result<Changes, Failure>
    requires linked { AreLinked (listed entries.old) }
    requires scope { at.scope ≤ length (listed entries.old) }
    requires small { at.bound + at.nodes_left < most_named (listed entries.old) }
    ensures kept { OnOk result (listed entries.new ≡ listed entries.old) }
    ensures same { GivesChanges at.depth_left at.nodes_left result
        (each_of (update_in at.primes (scope_at (listed entries.old) at.scope) at.bound)
        updates.now) }
{
    let mut made = Vec::new(alloc);
    let mut nodes_left = at.nodes_left;
    for i in 0..updates.len() {
        let change = change(
            alloc,
            entries,
            place,
            &updates[i],
            ExpandContext { nodes_left, ..at },
        )?;
        nodes_left = change.nodes_left;
        push(&mut made, (change.path, change.value))?;
    }
    Ok(Changes {
        updates: made,
        nodes_left,
    })
}

/// One update.
#[cycle(expand)]
fn change<'a>(
    alloc: Global,
    entries: &mut Entries<'_, 'a>,
    place: Place,
    update: &'a Update,
    at: ExpandContext,
) -> Result<Change, Failure>
    requires linked { AreLinked (listed entries.old) }
    requires scope { at.scope ≤ length (listed entries.old) }
    requires small { at.bound + at.nodes_left < most_named (listed entries.old) }
    ensures kept { OnOk result (listed entries.new ≡ listed entries.old) }
    ensures same { GivesChange at.depth_left at.nodes_left result
        (update_in at.primes (scope_at (listed entries.old) at.scope) at.bound update.now) }
{
    let path = path_of(alloc, entries, place, update.path.as_slice(), at)?;
    let nodes_left = path.nodes_left;
    let value = new_value(
        alloc,
        entries,
        &update.value,
        ExpandContext { nodes_left, ..at },
    )?;
    Ok(Change {
        path: path.parts,
        value: value.core,
        nodes_left: value.nodes_left,
    })
}

/// A new value, in which `@` is the name of the old one.
#[cycle(expand)]
fn new_value<'a>(
    alloc: Global,
    entries: &mut Entries<'_, 'a>,
    value: &'a Expr,
    at: ExpandContext,
) -> Result<Expanded, Failure>
    requires linked { AreLinked (listed entries.old) }
    requires scope { at.scope ≤ length (listed entries.old) }
    requires small { at.bound + at.nodes_left < most_named (listed entries.old) }
    ensures kept { OnOk result (listed entries.new ≡ listed entries.old) }
    ensures same { Gives at.depth_left at.nodes_left result
        (value_in at.primes (scope_at (listed entries.old) at.scope) at.bound value.now) }
{
    let mark = entries.len();
    let entry = Entry {
        name: b"@".as_slice(),
        what: What::Bound(at.bound),
        rest: at.scope,
    };
    let scope = enter(entries, entry)?;
    let inside = ExpandContext {
        scope,
        bound: at.bound + 1,
        ..at
    };
    let value = expand(alloc, entries, value, inside)?;
    entries.truncate(mark);
    Ok(value)
}

/// The keys of a path.
#[cycle(expand)]
fn path_of<'a>(
    alloc: Global,
    entries: &mut Entries<'_, 'a>,
    place: Place,
    keys: &'a [Key],
    at: ExpandContext,
) -> Result<Many, Failure>
    requires linked { AreLinked (listed entries.old) }
    requires scope { at.scope ≤ length (listed entries.old) }
    requires small { at.bound + at.nodes_left ≤ most_named (listed entries.old) }
    ensures kept { OnOk result (listed entries.new ≡ listed entries.old) }
    ensures same { GivesMany at.depth_left at.nodes_left result
        (each_of (step_in at.primes (scope_at (listed entries.old) at.scope) at.bound) keys.now) }
{
    let mut parts = Vec::new(alloc);
    let mut nodes_left = at.nodes_left;
    for i in 0..keys.len() {
        let part = step_of(
            alloc,
            entries,
            place,
            &keys[i],
            ExpandContext { nodes_left, ..at },
        )?;
        nodes_left = part.nodes_left;
        push(&mut parts, part.core)?;
    }
    Ok(Many { parts, nodes_left })
}

/// A key: an argument, or the name of a field as a text.
#[cycle(expand)]
fn step_of<'a>(
    alloc: Global,
    entries: &mut Entries<'_, 'a>,
    place: Place,
    step: &'a Key,
    at: ExpandContext,
) -> Result<Expanded, Failure>
    requires linked { AreLinked (listed entries.old) }
    requires scope { at.scope ≤ length (listed entries.old) }
    requires small { at.bound + at.nodes_left ≤ most_named (listed entries.old) }
    ensures kept { OnOk result (listed entries.new ≡ listed entries.old) }
    ensures same { Gives at.depth_left at.nodes_left result
        (step_in at.primes (scope_at (listed entries.old) at.scope) at.bound step.now) }
{
    match step {
        Key::Index(items) => expand_argument(alloc, entries, place, items.as_slice(), at),
        Key::Field(name) => field_key(alloc, name, at),
    }
}

/// The name of a field, as a text.
fn field_key(alloc: Global, name: &Written, at: ExpandContext) -> Result<Expanded, Failure>
    ensures { Gives at.depth_left at.nodes_left result
        (Some (expr.constant (places.place_of name.now.place) (value.text name.now.word))) }
{
    let inside = at.inside()?;
    let place = place_of(name.place);
    leaf_of(
        alloc,
        place,
        Leaf::Text(&name.word),
        at.primes,
        inside.nodes_left,
    )
}
