//! The first thing that makes an expression have no expansion. The parts are examined before the whole: an operand is
//! examined without a prime before it is examined with one, under UNCHANGED or as a subscript.

ghost use Rattle.std.specs.Prelude.{◌≡◌, ◌≤◌, ◌<◌, ◌+◌, length, Some, OnOk, IfErr};
ghost use Rattle.tla_core.specs.declared.fault.Place as fault;
ghost use Rattle.tla_scopes.specs.Maybe.{each_of};
ghost use Rattle.tla_scopes.specs.Primes.{settled_primes, with_primes};
ghost use Rattle.tla_scopes.specs.Scopes.{AreLinked, scope_at};
ghost use Rattle.tla_scopes.specs.Forms.{form_in, tuple_parts};
ghost use Rattle.tla_expand.specs.Private.Gives.{kept_part, changed_in, part_in, both, total, highest, Fails, FailsBy, Gives, GivesTwo, SaysNone, most_named};
ghost use Rattle.tla_model.specs.Size.{nodes, depth};
ghost use Rattle.tla_scopes.specs.Listed.{listed};

use crate::expand::lists::expand_all;
use crate::expand::unchanged::{expand_changed, expand_unchanged, tuple_items, unchanged_primes};
use crate::expand::{ExpandContext, expand, node_of, two_parts};
use crate::expanded::{Expanded, Pair};
use std::alloc::Global;
use tla_core::Place;
use tla_scopes::{Entries, Failure, Form, Head, Primes, are_fewer, find_head};
use tla_tree::Expr;

/// Whether an operand is first expanded under these primes alone, so that its first refusal is found.
fn is_reported(reported: Option<Primes>, primes: Primes) -> bool {
    match reported {
        Some(level) => level == primes,
        None => false,
    }
}

/// Where a refusal of UNCHANGED of a form is reported: in an action at the form, in a state at its own place.
pub(super) fn refusal_place(reported: Option<Primes>, form: Form<'_>, place: Place) -> Place {
    match reported {
        Some(Primes::Never) => form.place(),
        _ => place,
    }
}

/// Where a refusal of primes on a form is reported: in an action at the form, in a state at the last of them.
fn primed_place(head: Head<'_>, outer: Primes) -> Place {
    match outer {
        Primes::Never => head.form.place(),
        Primes::Once | Primes::Twice => match head.primed {
            Some(place) => place,
            None => head.form.place(),
        },
    }
}

/// Finds the first refusal of a form under the outer primes alone.
#[cycle(expand)]
fn check_form<'a>(
    alloc: Global,
    entries: &mut Entries<'_, 'a>,
    form: Form<'a>,
    at: ExpandContext,
) -> Result<(), Failure>
    requires linked { AreLinked (listed entries.old) }
    requires scope { at.scope ≤ length (listed entries.old) }
    requires small { at.bound + at.nodes_left < most_named (listed entries.old) }
    ensures kept { OnOk result (listed entries.new ≡ listed entries.old) }
    ensures fails { IfErr result (λ f.
        Fails (at.depth_left + 1) (at.nodes_left + 1) f
        (with_primes at.primes
        (form_in form.entry (scope_at (listed entries.old) at.scope) at.bound))) }
{
    let made = node_of(alloc, entries, form, at)?;
    drop(made);
    Ok(())
}

/// The same for expressions of one scope.
#[cycle(expand)]
fn check_each<'a>(
    alloc: Global,
    entries: &mut Entries<'_, 'a>,
    trees: &'a [Expr],
    at: ExpandContext,
) -> Result<(), Failure>
    requires linked { AreLinked (listed entries.old) }
    requires scope { at.scope ≤ length (listed entries.old) }
    requires small { at.bound + at.nodes_left ≤ most_named (listed entries.old) }
    ensures kept { OnOk result (listed entries.new ≡ listed entries.old) }
    ensures fails { IfErr result (λ f.
        FailsBy (total nodes) (highest depth) at.depth_left at.nodes_left f
        (each_of (part_in at.primes (scope_at (listed entries.old) at.scope) at.bound)
        trees.now)) }
{
    match expand_all(alloc, entries, trees, at) {
        Ok(_) => Ok(()),
        Err(failure) => Err(failure),
    }
}

/// Examines the parts of a tuple, first under the outer primes alone, and then with those that were found on the way to
/// it.
#[cycle(expand)]
fn check_tuple<'a>(
    alloc: Global,
    entries: &mut Entries<'_, 'a>,
    head: Head<'a>,
    items: &'a Vec<Expr>,
    outer: Primes,
    at: ExpandContext,
) -> Result<(), Failure>
    requires linked { AreLinked (listed entries.old) }
    requires scope { at.scope ≤ length (listed entries.old) }
    requires small { at.bound + at.nodes_left ≤ most_named (listed entries.old) }
    requires tuple { tuple_parts head.form ≡ Some items }
    ensures kept { OnOk result (listed entries.new ≡ listed entries.old) }
    ensures fails { IfErr result (λ f.
        Fails (at.depth_left + 1) (at.nodes_left + 1) f
        (with_primes at.primes
        (form_in head.entry.form (scope_at (listed entries.old) at.scope) at.bound))) }
{
    let trees = items.as_slice();
    if !are_fewer(outer, at.primes) {
        return check_each(alloc, entries, trees, at);
    }
    let before = ExpandContext {
        primes: outer,
        ..at
    };
    check_each(alloc, entries, trees, before)?;
    match check_each(alloc, entries, trees, at) {
        Err(Failure::NoExpansion(_)) => Err(Failure::NoExpansion(primed_place(head, outer))),
        Err(failure) => Err(failure),
        Ok(_) => Ok(()),
    }
}

/// The same for an expression, if operands are first expanded so.
#[cycle(expand)]
fn check_part<'a>(
    alloc: Global,
    entries: &mut Entries<'_, 'a>,
    tree: &'a Expr,
    at: ExpandContext,
) -> Result<(), Failure>
    requires linked { AreLinked (listed entries.old) }
    requires scope { at.scope ≤ length (listed entries.old) }
    requires small { at.bound + at.nodes_left ≤ most_named (listed entries.old) }
    ensures kept { OnOk result (listed entries.new ≡ listed entries.old) }
    ensures fails { IfErr result (λ f.
        Fails at.depth_left at.nodes_left f
        (part_in at.primes (scope_at (listed entries.old) at.scope) at.bound tree.now)) }
{
    if !is_reported(at.reported, at.primes) {
        return Ok(());
    }
    let made = expand(alloc, entries, tree, at)?;
    drop(made);
    Ok(())
}

/// The same for the operand of UNCHANGED, if operands are first expanded so. A tuple is no node of the
/// expansion of UNCHANGED, so only its parts are examined.
#[cycle(expand)]
fn check_operand<'a>(
    alloc: Global,
    entries: &mut Entries<'_, 'a>,
    tree: &'a Expr,
    at: ExpandContext,
) -> Result<(), Failure>
    requires linked { AreLinked (listed entries.old) }
    requires scope { at.scope ≤ length (listed entries.old) }
    requires small { at.bound + at.nodes_left ≤ most_named (listed entries.old) }
    ensures kept { OnOk result (listed entries.new ≡ listed entries.old) }
    ensures fails { IfErr result (λ f.
        (p : fault.Place)
        → Fails (at.depth_left + 1) (at.nodes_left + 1) f
        (kept_part (settled_primes at.primes) p (scope_at (listed entries.old) at.scope)
        at.bound tree.now)) }
{
    if !is_reported(at.reported, at.primes) {
        return Ok(());
    }
    let mark = entries.len();
    let found = find_head(entries, tree, at.scope, at.primes)?;
    match tuple_items(found.form) {
        Some(items) => {
            let inside = ExpandContext {
                scope: found.scope,
                primes: found.primes,
                ..at
            };
            check_tuple(alloc, entries, found, items, at.primes, inside)?;
            entries.truncate(mark);
            Ok(())
        }
        None => {
            entries.truncate(mark);
            check_part(alloc, entries, tree, at)
        }
    }
}

/// The node of a form, with the primes that were found on the way to it, and under outer ones.
#[cycle(expand)]
pub(super) fn node_of_head<'a>(
    alloc: Global,
    entries: &mut Entries<'_, 'a>,
    head: Head<'a>,
    outer: Primes,
    at: ExpandContext,
) -> Result<Expanded, Failure>
    requires linked { AreLinked (listed entries.old) }
    requires scope { at.scope ≤ length (listed entries.old) }
    requires small { at.bound + at.nodes_left < most_named (listed entries.old) }
    ensures kept { OnOk result (listed entries.new ≡ listed entries.old) }
    ensures same { Gives (at.depth_left + 1) (at.nodes_left + 1) result
        (with_primes at.primes
        (form_in head.entry.form (scope_at (listed entries.old) at.scope) at.bound)) }
{
    if !is_reported(at.reported, outer) {
        return node_of(alloc, entries, head.form, at);
    }
    if !are_fewer(outer, at.primes) {
        return node_of(alloc, entries, head.form, at);
    }
    let before = ExpandContext {
        primes: outer,
        ..at
    };
    check_form(alloc, entries, head.form, before)?;
    match node_of(alloc, entries, head.form, at) {
        Err(Failure::NoExpansion(_)) => Err(Failure::NoExpansion(primed_place(head, outer))),
        made => made,
    }
}

/// UNCHANGED of an expression. The limits in the context are those of its operands.
#[cycle(expand)]
#[inline(never)]
pub(super) fn unchanged_node<'a>(
    alloc: Global,
    entries: &mut Entries<'_, 'a>,
    place: Place,
    tree: &'a Expr,
    at: ExpandContext,
) -> Result<Expanded, Failure>
    requires linked { AreLinked (listed entries.old) }
    requires scope { at.scope ≤ length (listed entries.old) }
    requires small { at.bound + at.nodes_left < most_named (listed entries.old) }
    ensures kept { OnOk result (listed entries.new ≡ listed entries.old) }
    ensures same { Gives (at.depth_left + 1) (at.nodes_left + 1) result
        (kept_part (settled_primes at.primes) place (scope_at (listed entries.old) at.scope)
        at.bound tree.now) }
{
    check_operand(alloc, entries, tree, at)?;
    let primes = unchanged_primes(at.primes);
    expand_unchanged(alloc, entries, place, tree, ExpandContext { primes, ..at })
}

/// An expression twice: with these primes, and with those of the context. A refusal is reported at this place.
#[cycle(expand)]
pub(super) fn unchanged_parts<'a>(
    alloc: Global,
    entries: &mut Entries<'_, 'a>,
    tree: &'a Expr,
    primes: Primes,
    report_at: Place,
    at: ExpandContext,
) -> Result<Pair, Failure>
    requires linked { AreLinked (listed entries.old) }
    requires scope { at.scope ≤ length (listed entries.old) }
    requires small { at.bound + at.nodes_left ≤ most_named (listed entries.old) }
    ensures kept { OnOk result (listed entries.new ≡ listed entries.old) }
    ensures same { GivesTwo at.depth_left at.nodes_left result
        (both (part_in primes (scope_at (listed entries.old) at.scope) at.bound tree.now)
        (part_in at.primes (scope_at (listed entries.old) at.scope) at.bound tree.now)) }
{
    match two_parts(alloc, entries, tree, tree, primes, at) {
        Err(Failure::NoExpansion(_)) => Err(Failure::NoExpansion(report_at)),
        made => made,
    }
}

/// UNCHANGED of the subscript of an action that stutters.
#[cycle(expand)]
pub(super) fn unchanged_subscript<'a>(
    alloc: Global,
    entries: &mut Entries<'_, 'a>,
    place: Place,
    tree: &'a Expr,
    at: ExpandContext,
) -> Result<Expanded, Failure>
    requires linked { AreLinked (listed entries.old) }
    requires scope { at.scope ≤ length (listed entries.old) }
    requires small { at.bound + at.nodes_left ≤ most_named (listed entries.old) }
    ensures kept { OnOk result (listed entries.new ≡ listed entries.old) }
    ensures same { Gives at.depth_left at.nodes_left result
        (kept_part (settled_primes at.primes) place (scope_at (listed entries.old) at.scope)
        at.bound tree.now) }
{
    let inside = at.inside()?;
    unchanged_node(alloc, entries, place, tree, inside)
}

/// Where a refusal of a changed subscript is reported: in an action at its form, in a state at this place.
fn changed_place<'a>(
    entries: &mut Entries<'_, 'a>,
    tree: &'a Expr,
    place: Place,
    at: ExpandContext,
) -> Result<Place, Failure>
    requires linked { AreLinked (listed entries.old) }
    requires scope { at.scope ≤ length (listed entries.old) }
    ensures kept { OnOk result (listed entries.new ≡ listed entries.old) }
    ensures none { IfErr result (λ f.
        SaysNone f
        (part_in at.primes (scope_at (listed entries.old) at.scope) at.bound tree.now)) }
{
    let mark = entries.len();
    let found = find_head(entries, tree, at.scope, at.primes)?;
    entries.truncate(mark);
    Ok(refusal_place(at.reported, found.form, place))
}

/// `v' # v` for the subscript of an action.
#[cycle(expand)]
pub(super) fn changed_subscript<'a>(
    alloc: Global,
    entries: &mut Entries<'_, 'a>,
    place: Place,
    tree: &'a Expr,
    at: ExpandContext,
) -> Result<Expanded, Failure>
    requires linked { AreLinked (listed entries.old) }
    requires scope { at.scope ≤ length (listed entries.old) }
    requires small { at.bound + at.nodes_left ≤ most_named (listed entries.old) }
    ensures kept { OnOk result (listed entries.new ≡ listed entries.old) }
    ensures same { Gives at.depth_left at.nodes_left result
        (changed_in at.primes place (scope_at (listed entries.old) at.scope) at.bound tree.now) }
{
    check_part(alloc, entries, tree, at)?;
    let report_at = changed_place(entries, tree, place, at)?;
    match expand_changed(alloc, entries, place, tree, at) {
        Err(Failure::NoExpansion(_)) => Err(Failure::NoExpansion(report_at)),
        made => made,
    }
}
