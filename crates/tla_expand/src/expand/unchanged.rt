//! UNCHANGED.

ghost use Rattle.std.specs.Prelude.{◌≡◌, ◌≤◌, ◌<◌, ◌+◌, length, OnOk};
ghost use Rattle.tla_scopes.specs.Nodes as nodes;
ghost use Rattle.tla_scopes.specs.Maybe.{each_of};
ghost use Rattle.tla_scopes.specs.Primes.{settled_primes};
ghost use Rattle.tla_scopes.specs.Scopes.{AreLinked, scope_at};
ghost use Rattle.tla_scopes.specs.Forms.{tuple_parts};
ghost use Rattle.tla_expand.specs.Private.Gives.{kept_part, changed_in, part_in, both, made, Gives, GivesMany, most_named};
ghost use Rattle.tla_scopes.specs.Listed.{listed};

use crate::builders::{two_core, unchanged_core};
use crate::expand::levels::{
    changed_subscript, refusal_place, unchanged_parts, unchanged_subscript,
};
use crate::expand::{ExpandContext, expand, two_parts};
use crate::expanded::{Expanded, Many};
use crate::parts::boxed;
use std::alloc::Global;
use tla_core::{Binary, Place};
use tla_scopes::{BinaryNode, Entries, Failure, Form, ListNode, Primes, find_head, one_more};
use tla_tree::{Expr, push};

/// The primes with which UNCHANGED is read under these primes.
pub(super) fn unchanged_primes(primes: Primes) -> Primes
    ensures { result ≡ settled_primes primes }
{
    match primes {
        Primes::Never => Primes::Never,
        Primes::Once | Primes::Twice => Primes::Twice,
    }
}

/// The parts of a tuple.
pub(super) fn tuple_items<'a>(form: Form<'a>) -> Option<&'a Vec<Expr>>
    ensures { result ≡ tuple_parts form.entry }
{
    match form {
        Form::Many(_, ListNode::Tuple, items) => Some(items),
        _ => None,
    }
}

/// UNCHANGED of an expression under these primes. The limits in the context are those of its operands.
#[cycle(expand)]
pub(super) fn expand_unchanged<'a>(
    alloc: Global,
    entries: &mut Entries<'_, 'a>,
    place: Place,
    tree: &'a Expr,
    at: ExpandContext,
) -> Result<Expanded, Failure>
    requires linked { AreLinked (listed entries.old) }
    requires scope { at.scope ≤ length (listed entries.old) }
    requires small { at.bound + at.nodes_left < most_named (listed entries.old) }
    ensures kept { OnOk result (listed entries.new ≡ listed entries.old) }
    ensures same { Gives (at.depth_left + 1) (at.nodes_left + 1) result
        (kept_part at.primes place (scope_at (listed entries.old) at.scope) at.bound tree.now) }
{
    let mark = entries.len();
    let found = find_head(entries, tree, at.scope, at.primes)?;
    match tuple_items(found.form) {
        Some(items) => {
            let inside = ExpandContext {
                scope: found.scope,
                primes: found.primes,
                ..at
            };
            let many = expand_each_unchanged(alloc, entries, place, items.as_slice(), inside)?;
            entries.truncate(mark);
            Ok(Expanded {
                core: unchanged_core(place, many.parts),
                nodes_left: many.nodes_left,
            })
        }
        None => {
            entries.truncate(mark);
            let more = one_more(at.primes);
            let report_at = refusal_place(at.reported, found.form, place);
            let two = unchanged_parts(alloc, entries, tree, more, report_at, at)?;
            let core = two_core(alloc, place, BinaryNode::Equal, two.first, two.second)?;
            Ok(Expanded {
                core,
                nodes_left: two.nodes_left,
            })
        }
    }
}

/// UNCHANGED of expressions of one scope.
#[cycle(expand)]
fn expand_each_unchanged<'a>(
    alloc: Global,
    entries: &mut Entries<'_, 'a>,
    place: Place,
    trees: &'a [Expr],
    at: ExpandContext,
) -> Result<Many, Failure>
    requires linked { AreLinked (listed entries.old) }
    requires scope { at.scope ≤ length (listed entries.old) }
    requires small { at.bound + at.nodes_left ≤ most_named (listed entries.old) }
    ensures kept { OnOk result (listed entries.new ≡ listed entries.old) }
    ensures same { GivesMany at.depth_left at.nodes_left result
        (each_of (kept_part at.primes place (scope_at (listed entries.old) at.scope) at.bound)
        trees.now) }
{
    let mut parts = Vec::new(alloc);
    let mut nodes_left = at.nodes_left;
    for i in 0..trees.len() {
        let part = expand_one_unchanged(
            alloc,
            entries,
            place,
            &trees[i],
            ExpandContext { nodes_left, ..at },
        )?;
        nodes_left = part.nodes_left;
        push(&mut parts, part.core)?;
    }
    Ok(Many { parts, nodes_left })
}

/// UNCHANGED of an expression.
#[cycle(expand)]
pub(super) fn expand_one_unchanged<'a>(
    alloc: Global,
    entries: &mut Entries<'_, 'a>,
    place: Place,
    tree: &'a Expr,
    at: ExpandContext,
) -> Result<Expanded, Failure>
    requires linked { AreLinked (listed entries.old) }
    requires scope { at.scope ≤ length (listed entries.old) }
    requires small { at.bound + at.nodes_left ≤ most_named (listed entries.old) }
    ensures kept { OnOk result (listed entries.new ≡ listed entries.old) }
    ensures same { Gives at.depth_left at.nodes_left result
        (kept_part at.primes place (scope_at (listed entries.old) at.scope) at.bound tree.now) }
{
    let inside = at.inside()?;
    expand_unchanged(alloc, entries, place, tree, inside)
}

/// `v' # v`.
#[cycle(expand)]
pub(super) fn expand_changed<'a>(
    alloc: Global,
    entries: &mut Entries<'_, 'a>,
    place: Place,
    tree: &'a Expr,
    at: ExpandContext,
) -> Result<Expanded, Failure>
    requires linked { AreLinked (listed entries.old) }
    requires scope { at.scope ≤ length (listed entries.old) }
    requires small { at.bound + at.nodes_left ≤ most_named (listed entries.old) }
    ensures kept { OnOk result (listed entries.new ≡ listed entries.old) }
    ensures same { Gives at.depth_left at.nodes_left result
        (changed_in at.primes place (scope_at (listed entries.old) at.scope) at.bound tree.now) }
{
    let inside = at.inside()?;
    let more = one_more(at.primes);
    let two = two_parts(alloc, entries, tree, tree, more, inside)?;
    let core = two_core(
        alloc,
        place,
        BinaryNode::Binary(Binary::Unequal),
        two.first,
        two.second,
    )?;
    Ok(Expanded {
        core,
        nodes_left: two.nodes_left,
    })
}

/// `[A]_v`, where v is at this place.
#[cycle(expand)]
#[inline(never)]
pub(super) fn square_node<'a>(
    alloc: Global,
    entries: &mut Entries<'_, 'a>,
    place: Place,
    action: &'a Expr,
    place_v: Place,
    v: &'a Expr,
    at: ExpandContext,
) -> Result<Expanded, Failure>
    requires linked { AreLinked (listed entries.old) }
    requires scope { at.scope ≤ length (listed entries.old) }
    requires small { at.bound + at.nodes_left ≤ most_named (listed entries.old) }
    ensures kept { OnOk result (listed entries.new ≡ listed entries.old) }
    ensures same { Gives (at.depth_left + 1) (at.nodes_left + 1) result
        (made (λ xy. nodes.two BinaryNode.Or place xy.0 xy.1)
        (both (part_in at.primes (scope_at (listed entries.old) at.scope) at.bound action.now)
        (kept_part (settled_primes at.primes) place_v
        (scope_at (listed entries.old) at.scope) at.bound v.now))) }
{
    let action = expand(alloc, entries, action, at)?;
    let nodes_left = action.nodes_left;
    let action = boxed(alloc, action.core)?;
    let kept = unchanged_subscript(
        alloc,
        entries,
        place_v,
        v,
        ExpandContext { nodes_left, ..at },
    )?;
    let core = two_core(alloc, place, BinaryNode::Or, action, kept.core)?;
    Ok(Expanded {
        core,
        nodes_left: kept.nodes_left,
    })
}

/// `<<A>>_v`, where v is at this place.
#[cycle(expand)]
#[inline(never)]
pub(super) fn angle_node<'a>(
    alloc: Global,
    entries: &mut Entries<'_, 'a>,
    place: Place,
    action: &'a Expr,
    place_v: Place,
    v: &'a Expr,
    at: ExpandContext,
) -> Result<Expanded, Failure>
    requires linked { AreLinked (listed entries.old) }
    requires scope { at.scope ≤ length (listed entries.old) }
    requires small { at.bound + at.nodes_left ≤ most_named (listed entries.old) }
    ensures kept { OnOk result (listed entries.new ≡ listed entries.old) }
    ensures same { Gives (at.depth_left + 1) (at.nodes_left + 1) result
        (made (λ xy. nodes.two BinaryNode.And place xy.0 xy.1)
        (both (part_in at.primes (scope_at (listed entries.old) at.scope) at.bound action.now)
        (changed_in at.primes place_v (scope_at (listed entries.old) at.scope) at.bound
        v.now))) }
{
    let action = expand(alloc, entries, action, at)?;
    let nodes_left = action.nodes_left;
    let action = boxed(alloc, action.core)?;
    let changed = changed_subscript(
        alloc,
        entries,
        place_v,
        v,
        ExpandContext { nodes_left, ..at },
    )?;
    let core = two_core(alloc, place, BinaryNode::And, action, changed.core)?;
    Ok(Expanded {
        core,
        nodes_left: changed.nodes_left,
    })
}
