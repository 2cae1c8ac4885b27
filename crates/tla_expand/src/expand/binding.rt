//! Forms that bind names.

ghost use Rattle.std.specs.Prelude.{◌≡◌, ◌≤◌, ◌<◌, ◌+◌, ◌^◌, ◌∷◌, ◌++◌, [], ℕ, length, map, IfOk, IfErr, OnOk};
ghost use Rattle.tla_core.specs.Patterns.{items_in};
ghost use Rattle.tla_tree.specs.View.{view, pattern_view, group_view};
ghost use Rattle.tla_tree.specs.Tree.{binders};
ghost use Rattle.tla_scopes.specs.Primes.{with_primes};
ghost use Rattle.tla_scopes.specs.Expand as expansion;
ghost use Rattle.tla_scopes.specs.Bound as bounds;
ghost use Rattle.tla_scopes.specs.Bound.{bind_entry, last_or, with_each};
ghost use Rattle.tla_scopes.specs.Scopes.{AreLinked, Extends, scope_at};
ghost use Rattle.tla_expand.specs.Private.Binders.{names_of, binds_in, opened_at, with_element, item_names};
ghost use Rattle.tla_scopes.specs.Maybe.{each_of};
ghost use Rattle.tla_scopes.specs.Meanings.{Scope};
ghost use Rattle.tla_expand.specs.Private.Gives.{Gives, GivesMany, set_in, most_named};
ghost use Rattle.tla_scopes.specs.Listed.{listed};

use crate::binders::{Bind, Names, bind_list, bind_one};
use crate::builders::{binding_core, check_pattern_core, destructure_core, gather_core};
use crate::expand::{ExpandContext, expand};
use crate::expanded::{Expanded, Many};
use crate::parts::boxed;
use std::alloc::Global;
use tla_core::{Opening, Place};
use tla_scopes::{Binding, Entries, Entry, Failure, Gather, What, enter};
use tla_tree::{Binder, Expr, Pattern, Written, push};

/// A form of a body under names: its node, the scope of the names' sets, and the body.
#[derive(Clone, Copy)]
pub(super) struct Under<'a> {
    pub place: Place,
    pub node: Binding,
    pub home: usize,
    pub body: &'a Expr,
}

/// A body under the names of a binder list.
#[cycle(expand)]
#[inline(never)]
pub(super) fn bound_several<'a>(
    alloc: Global,
    entries: &mut Entries<'_, 'a>,
    place: Place,
    node: Binding,
    groups: &'a [Binder],
    body: &'a Expr,
    at: ExpandContext,
) -> Result<Expanded, Failure>
    requires linked { AreLinked (listed entries.old) }
    requires scope { at.scope ≤ length (listed entries.old) }
    requires small { at.bound + at.nodes_left < most_named (listed entries.old) }
    ensures kept { OnOk result (listed entries.new ≡ listed entries.old) }
    ensures same { Gives (at.depth_left + 1) (at.nodes_left + 1) result
        (with_primes at.primes
        (bounds.nested node place
        (expansion.binds_of (binders (map group_view groups.now))
        (scope_at (listed entries.old) at.scope)) (expansion.expand (view body.now))
        (scope_at (listed entries.old) at.scope) at.bound)) }
{
    let binds = bind_list(alloc, groups)?;
    let [first, rest @ ..] = binds.as_slice() else {
        return Err(Failure::NoExpansion(place));
    };
    let under = Under {
        place,
        node,
        home: at.scope,
        body,
    };
    expand_nested(alloc, entries, under, *first, rest, at)
}

/// A body under one entry.
#[cycle(expand)]
#[inline(never)]
pub(super) fn bound_one<'a>(
    alloc: Global,
    entries: &mut Entries<'_, 'a>,
    under: Under<'a>,
    pattern: &'a Pattern,
    set: &'a Expr,
    at: ExpandContext,
) -> Result<Expanded, Failure>
    requires linked { AreLinked (listed entries.old) }
    requires home { under.home ≤ length (listed entries.old) }
    requires scope { at.scope ≤ length (listed entries.old) }
    requires small { at.bound + at.nodes_left < most_named (listed entries.old) }
    ensures kept { OnOk result (listed entries.new ≡ listed entries.old) }
    ensures same { Gives (at.depth_left + 1) (at.nodes_left + 1) result
        (with_primes at.primes
        (bounds.nested under.entry.node under.entry.place
        (bind_entry (pattern_view pattern.now)
        (expansion.expand (view set.now) (scope_at (listed entries.old) under.entry.home)) [])
        (expansion.expand (view under.entry.body.now)) (scope_at (listed entries.old) at.scope)
        at.bound)) }
{
    let binds = bind_one(alloc, pattern, set)?;
    let [first, rest @ ..] = binds.as_slice() else {
        return Err(Failure::NoExpansion(under.place));
    };
    expand_nested(alloc, entries, under, *first, rest, at)
}

/// One node for each name, one in another. The limits in the context are those of the first one's operands.
#[cycle(expand)]
fn expand_nested<'a>(
    alloc: Global,
    entries: &mut Entries<'_, 'a>,
    under: Under<'a>,
    first: Bind<'a>,
    rest: &[Bind<'a>],
    at: ExpandContext,
) -> Result<Expanded, Failure>
    requires linked { AreLinked (listed entries.old) }
    requires home { under.home ≤ length (listed entries.old) }
    requires scope { at.scope ≤ length (listed entries.old) }
    requires small { at.bound + at.nodes_left < most_named (listed entries.old) }
    ensures kept { OnOk result (listed entries.new ≡ listed entries.old) }
    ensures same { Gives (at.depth_left + 1) (at.nodes_left + 1) result
        (with_primes at.primes
        (bounds.nested under.entry.node under.entry.place
        (binds_in (first.entry ∷ rest.now) (scope_at (listed entries.old) under.entry.home))
        (expansion.expand (view under.entry.body.now))
        (scope_at (listed entries.old) at.scope) at.bound)) }
{
    let home = ExpandContext {
        scope: under.home,
        ..at
    };
    let set = expand(alloc, entries, first.set, home)?;
    let inside = ExpandContext {
        nodes_left: set.nodes_left,
        ..at
    };
    let set = boxed(alloc, set.core)?;
    let inner = under_element(alloc, entries, under, first.names, rest, inside)?;
    let core = binding_core(alloc, under.place, under.node, set, inner.core)?;
    Ok(Expanded {
        core,
        nodes_left: inner.nodes_left,
    })
}

/// The nodes of what follows an element: the next elements, and the body.
#[cycle(expand)]
fn under_element<'a>(
    alloc: Global,
    entries: &mut Entries<'_, 'a>,
    under: Under<'a>,
    names: Names<'a>,
    rest: &[Bind<'a>],
    at: ExpandContext,
) -> Result<Expanded, Failure>
    requires linked { AreLinked (listed entries.old) }
    requires home { under.home ≤ length (listed entries.old) }
    requires scope { at.scope ≤ length (listed entries.old) }
    requires small { at.bound + at.nodes_left < most_named (listed entries.old) }
    ensures kept { OnOk result (listed entries.new ≡ listed entries.old) }
    ensures same { Gives at.depth_left at.nodes_left result
        (with_primes at.primes
        (bounds.under under.entry.place (names_of names.entry)
        (last_or (binds_in rest.now (scope_at (listed entries.old) under.entry.home))
        (expansion.expand (view under.entry.body.now))
        (bounds.nested under.entry.node under.entry.place
        (binds_in rest.now (scope_at (listed entries.old) under.entry.home))
        (expansion.expand (view under.entry.body.now))))
        (scope_at (listed entries.old) at.scope) at.bound)) }
{
    match names {
        Names::Name(name) => under_name(alloc, entries, under, name, rest, at),
        Names::Tuple(names) => under_tuple(alloc, entries, under, names, rest, at),
    }
}

/// The nodes of what follows an element with a name.
#[cycle(expand)]
fn under_name<'a>(
    alloc: Global,
    entries: &mut Entries<'_, 'a>,
    under: Under<'a>,
    name: &'a Written,
    rest: &[Bind<'a>],
    at: ExpandContext,
) -> Result<Expanded, Failure>
    requires linked { AreLinked (listed entries.old) }
    requires home { under.home ≤ length (listed entries.old) }
    requires scope { at.scope ≤ length (listed entries.old) }
    requires small { at.bound + at.nodes_left < most_named (listed entries.old) }
    ensures kept { OnOk result (listed entries.new ≡ listed entries.old) }
    ensures same { Gives at.depth_left at.nodes_left result
        (with_primes at.primes
        (bounds.under under.entry.place (bounds.named name.now.word)
        (last_or (binds_in rest.now (scope_at (listed entries.old) under.entry.home))
        (expansion.expand (view under.entry.body.now))
        (bounds.nested under.entry.node under.entry.place
        (binds_in rest.now (scope_at (listed entries.old) under.entry.home))
        (expansion.expand (view under.entry.body.now))))
        (scope_at (listed entries.old) at.scope) at.bound)) }
{
    let mark = entries.len();
    let entry = Entry {
        name: name.word.as_bytes(),
        what: What::Bound(at.bound),
        rest: at.scope,
    };
    let scope = enter(entries, entry)?;
    let inside = ExpandContext {
        scope,
        bound: at.bound + 1,
        ..at
    };
    let inner = expand_within(alloc, entries, under, rest, inside)?;
    entries.truncate(mark);
    Ok(inner)
}

/// The nodes of what follows an element with names for its items.
#[cycle(expand)]
fn under_tuple<'a>(
    alloc: Global,
    entries: &mut Entries<'_, 'a>,
    under: Under<'a>,
    names: &'a [Written],
    rest: &[Bind<'a>],
    at: ExpandContext,
) -> Result<Expanded, Failure>
    requires linked { AreLinked (listed entries.old) }
    requires home { under.home ≤ length (listed entries.old) }
    requires scope { at.scope ≤ length (listed entries.old) }
    requires small { at.bound + at.nodes_left < most_named (listed entries.old) }
    ensures kept { OnOk result (listed entries.new ≡ listed entries.old) }
    ensures same { Gives at.depth_left at.nodes_left result
        (with_primes at.primes
        (bounds.under under.entry.place (bounds.tupled names.now)
        (last_or (binds_in rest.now (scope_at (listed entries.old) under.entry.home))
        (expansion.expand (view under.entry.body.now))
        (bounds.nested under.entry.node under.entry.place
        (binds_in rest.now (scope_at (listed entries.old) under.entry.home))
        (expansion.expand (view under.entry.body.now))))
        (scope_at (listed entries.old) at.scope) at.bound)) }
{
    let openings = opening_of(alloc, names, at.bound)?;
    let mark = entries.len();
    let scope = name_each(entries, names, at.bound + 1, at.scope)?;
    let inside = ExpandContext {
        scope,
        bound: at.bound + 1 + names.len(),
        ..at
    };
    let inner = expand_within(alloc, entries, under, rest, inside)?;
    entries.truncate(mark);
    let core = destructure_core(alloc, under.place, openings, inner.core)?;
    Ok(Expanded {
        core,
        nodes_left: inner.nodes_left,
    })
}

/// The nodes of the remaining names, or the body.
#[cycle(expand)]
fn expand_within<'a>(
    alloc: Global,
    entries: &mut Entries<'_, 'a>,
    under: Under<'a>,
    binds: &[Bind<'a>],
    at: ExpandContext,
) -> Result<Expanded, Failure>
    requires linked { AreLinked (listed entries.old) }
    requires home { under.home ≤ length (listed entries.old) }
    requires scope { at.scope ≤ length (listed entries.old) }
    requires small { at.bound + at.nodes_left ≤ most_named (listed entries.old) }
    ensures kept { OnOk result (listed entries.new ≡ listed entries.old) }
    ensures same { Gives at.depth_left at.nodes_left result
        (with_primes at.primes
        (last_or (binds_in binds.now (scope_at (listed entries.old) under.entry.home))
        (expansion.expand (view under.entry.body.now))
        (bounds.nested under.entry.node under.entry.place
        (binds_in binds.now (scope_at (listed entries.old) under.entry.home))
        (expansion.expand (view under.entry.body.now)))
        (scope_at (listed entries.old) at.scope) at.bound)) }
{
    let [first, rest @ ..] = binds else {
        return expand(alloc, entries, under.body, at);
    };
    let inside = at.inside()?;
    expand_nested(alloc, entries, under, *first, rest, inside)
}

/// Sets, and a body under all their names.
#[cycle(expand)]
#[inline(never)]
pub(super) fn gather_node<'a>(
    alloc: Global,
    entries: &mut Entries<'_, 'a>,
    place: Place,
    node: Gather,
    groups: &'a [Binder],
    body: &'a Expr,
    at: ExpandContext,
) -> Result<Expanded, Failure>
    requires linked { AreLinked (listed entries.old) }
    requires scope { at.scope ≤ length (listed entries.old) }
    requires small { at.bound + at.nodes_left ≤ most_named (listed entries.old) }
    ensures kept { OnOk result (listed entries.new ≡ listed entries.old) }
    ensures same { Gives (at.depth_left + 1) (at.nodes_left + 1) result
        (with_primes at.primes
        (bounds.gathered node place
        (expansion.binds_of (binders (map group_view groups.now))
        (scope_at (listed entries.old) at.scope)) (expansion.expand (view body.now))
        (scope_at (listed entries.old) at.scope) at.bound)) }
{
    let binds = bind_list(alloc, groups)?;
    let binds = binds.as_slice();
    let sets = sets_of(alloc, entries, place, binds, at)?;
    let mark = entries.len();
    let openings = openings_of(alloc, binds, at.bound)?;
    let named = name_all(entries, binds, at.bound, at.scope)?;
    let inside = ExpandContext {
        scope: named.scope,
        bound: named.bound,
        nodes_left: sets.nodes_left,
        ..at
    };
    let body = expand(alloc, entries, body, inside)?;
    entries.truncate(mark);
    let inner = destructure_core(alloc, place, openings, body.core)?;
    let core = gather_core(alloc, place, node, sets.parts, inner)?;
    Ok(Expanded {
        core,
        nodes_left: body.nodes_left,
    })
}

/// The set of an element. If the element is opened, the set's elements are checked against its pattern.
#[cycle(expand)]
fn set_for<'a>(
    alloc: Global,
    entries: &mut Entries<'_, 'a>,
    place: Place,
    bind: Bind<'a>,
    at: ExpandContext,
) -> Result<Expanded, Failure>
    requires linked { AreLinked (listed entries.old) }
    requires scope { at.scope ≤ length (listed entries.old) }
    requires small { at.bound + at.nodes_left ≤ most_named (listed entries.old) }
    ensures kept { OnOk result (listed entries.new ≡ listed entries.old) }
    ensures same { Gives at.depth_left at.nodes_left result
        (set_in place at.primes (scope_at (listed entries.old) at.scope) at.bound bind.entry) }
{
    let set = expand(alloc, entries, bind.set, at)?;
    match bind.names {
        Names::Name(_) => Ok(set),
        Names::Tuple(names) => {
            let core = check_pattern_core(alloc, place, names.len(), set.core)?;
            Ok(Expanded {
                core,
                nodes_left: set.nodes_left,
            })
        }
    }
}

/// The sets of elements. They see none of the names.
#[cycle(expand)]
fn sets_of<'a>(
    alloc: Global,
    entries: &mut Entries<'_, 'a>,
    place: Place,
    binds: &[Bind<'a>],
    at: ExpandContext,
) -> Result<Many, Failure>
    requires linked { AreLinked (listed entries.old) }
    requires scope { at.scope ≤ length (listed entries.old) }
    requires small { at.bound + at.nodes_left ≤ most_named (listed entries.old) }
    ensures kept { OnOk result (listed entries.new ≡ listed entries.old) }
    ensures same { GivesMany at.depth_left at.nodes_left result
        (each_of (set_in place at.primes (scope_at (listed entries.old) at.scope) at.bound)
        binds.now) }
{
    let mut parts = Vec::new(alloc);
    let mut nodes_left = at.nodes_left;
    for i in 0..binds.len() {
        let part = set_for(
            alloc,
            entries,
            place,
            binds[i],
            ExpandContext { nodes_left, ..at },
        )?;
        nodes_left = part.nodes_left;
        push(&mut parts, part.core)?;
    }
    Ok(Many { parts, nodes_left })
}

/// One element that is opened: the bound name of this number, and the names for its items. The only error is that
/// memory ran out.
fn opening_of(alloc: Global, names: &[Written], bound: usize) -> Result<Vec<Opening>, Failure>
    ensures ok { IfOk result (λ os. os.items ≡ bounds.opening bound names.now ∷ []) }
    ensures err { IfErr result (λ e. e ≡ Failure.Memory) }
{
    let mut openings = Vec::new(alloc);
    let opening = Opening {
        name: bound,
        items: names.len(),
    };
    push(&mut openings, opening)?;
    Ok(openings)
}

/// Adds this element, if it is opened. The only error is that memory ran out.
fn push_opening(openings: &mut Vec<Opening>, names: Names<'_>, bound: usize) -> Result<(), Failure>
    ensures ok { OnOk result
        (openings.new.items ≡ openings.old.items ++ opened_at (names_of names.entry) bound) }
    ensures err { IfErr result (λ e. e ≡ Failure.Memory) }
{
    match names {
        Names::Name(_) => Ok(()),
        Names::Tuple(names) => {
            let opening = Opening {
                name: bound,
                items: names.len(),
            };
            Ok(push(openings, opening)?)
        }
    }
}

/// The elements that are opened, of those with numbers from `bound` on. The only error is that memory ran out.
fn openings_of(alloc: Global, binds: &[Bind<'_>], bound: usize) -> Result<Vec<Opening>, Failure>
    requires { bound + length binds.now < 2 ^ 64 }
    ensures ok { IfOk result (λ os.
        (σ : Scope) → os.items ≡ bounds.openings (binds_in binds.now σ) bound) }
    ensures err { IfErr result (λ e. e ≡ Failure.Memory) }
{
    let mut openings = Vec::new(alloc);
    for i in 0..binds.len() {
        let bind = binds[i];
        push_opening(&mut openings, bind.names, bound + i)?;
    }
    Ok(openings)
}

/// The scope with names that are numbered from this number on. The only error is that memory ran out.
fn name_each<'a>(
    entries: &mut Entries<'_, 'a>,
    names: &'a [Written],
    bound: usize,
    scope: usize,
) -> Result<usize, Failure>
    requires linked { AreLinked (listed entries.old) }
    requires scope { scope ≤ length (listed entries.old) }
    requires small { bound ≤ most_named (listed entries.old) }
    ensures linked { OnOk result (AreLinked (listed entries.new)) }
    ensures extends { OnOk result (Extends (listed entries.new) (listed entries.old)) }
    ensures within { IfOk result (λ s. s ≤ length (listed entries.new)) }
    ensures grown { OnOk result
        (length (listed entries.new) ≡ length (listed entries.old) + length names.now) }
    ensures few { IfOk result (λ s. bound + length names.now < 2 ^ 64) }
    ensures same { IfOk result (λ s.
        with_each names.now bound (scope_at (listed entries.old) scope)
        ≡ scope_at (listed entries.new) s) }
    ensures err { IfErr result (λ e. e ≡ Failure.Memory) }
{
    let mut at = scope;
    for i in 0..names.len() {
        let entry = Entry {
            name: names[i].word.as_bytes(),
            what: What::Bound(bound + i),
            rest: at,
        };
        at = enter(entries, entry)?;
    }
    Ok(at)
}

/// A scope, and how many names are bound around what is in it.
#[derive(Clone, Copy)]
struct Named {
    scope: usize,
    bound: usize,
}

/// The scope with all names: those of elements, and then those of items. The only error is that memory ran out.
fn name_all<'a>(
    entries: &mut Entries<'_, 'a>,
    binds: &[Bind<'a>],
    bound: usize,
    scope: usize,
) -> Result<Named, Failure>
    requires linked { AreLinked (listed entries.old) }
    requires scope { scope ≤ length (listed entries.old) }
    requires few { bound + length binds.now < 2 ^ 64 }
    requires small { bound + length binds.now ≤ most_named (listed entries.old) }
    ensures linked { OnOk result (AreLinked (listed entries.new)) }
    ensures extends { OnOk result (Extends (listed entries.new) (listed entries.old)) }
    ensures within { IfOk result (λ s. s.scope ≤ length (listed entries.new)) }
    ensures grown { IfOk result (λ s.
        s.bound + length (listed entries.old)
        ≤ bound + length binds.now + length (listed entries.new)) }
    ensures bound { IfOk result (λ s.
        (σ : Scope) (d : ℕ)
        → s.bound
        ≡ bound + length binds.now + items_in (bounds.openings (binds_in binds.now σ) d)) }
    ensures same { IfOk result (λ s.
        (σ : Scope)
        → bounds.with_items (binds_in binds.now σ) (bound + length binds.now)
        (bounds.with_elements (binds_in binds.now σ) bound
        (scope_at (listed entries.old) scope))
        ≡ scope_at (listed entries.new) s.scope) }
    ensures err { IfErr result (λ e. e ≡ Failure.Memory) }
{
    let scope = name_elements(entries, binds, bound, scope)?;
    name_items(entries, binds, bound + binds.len(), scope)
}

/// The scope with the name of an element, if it has one. The only error is that memory ran out.
fn name_element<'a>(
    entries: &mut Entries<'_, 'a>,
    names: Names<'a>,
    bound: usize,
    scope: usize,
) -> Result<usize, Failure>
    requires linked { AreLinked (listed entries.old) }
    requires scope { scope ≤ length (listed entries.old) }
    ensures linked { OnOk result (AreLinked (listed entries.new)) }
    ensures extends { OnOk result (Extends (listed entries.new) (listed entries.old)) }
    ensures within { IfOk result (λ s. s ≤ length (listed entries.new)) }
    ensures same { IfOk result (λ s.
        scope_at (listed entries.new) s
        ≡ with_element (names_of names.entry) bound (scope_at (listed entries.old) scope)) }
    ensures err { IfErr result (λ e. e ≡ Failure.Memory) }
{
    match names {
        Names::Name(name) => {
            let entry = Entry {
                name: name.word.as_bytes(),
                what: What::Bound(bound),
                rest: scope,
            };
            enter(entries, entry)
        }
        Names::Tuple(_) => Ok(scope),
    }
}

/// The scope with the names of elements. The only error is that memory ran out.
fn name_elements<'a>(
    entries: &mut Entries<'_, 'a>,
    binds: &[Bind<'a>],
    bound: usize,
    scope: usize,
) -> Result<usize, Failure>
    requires linked { AreLinked (listed entries.old) }
    requires scope { scope ≤ length (listed entries.old) }
    requires few { bound + length binds.now < 2 ^ 64 }
    ensures linked { OnOk result (AreLinked (listed entries.new)) }
    ensures extends { OnOk result (Extends (listed entries.new) (listed entries.old)) }
    ensures within { IfOk result (λ s. s ≤ length (listed entries.new)) }
    ensures same { IfOk result (λ s.
        (σ : Scope)
        → bounds.with_elements (binds_in binds.now σ) bound
        (scope_at (listed entries.old) scope)
        ≡ scope_at (listed entries.new) s) }
    ensures err { IfErr result (λ e. e ≡ Failure.Memory) }
{
    let mut at = scope;
    for i in 0..binds.len() {
        let bind = binds[i];
        at = name_element(entries, bind.names, bound + i, at)?;
    }
    Ok(at)
}

/// The names for the items of an element.
fn names_for_items<'a>(names: Names<'a>) -> &'a [Written]
    ensures { result.now ≡ item_names (names_of names.entry) }
{
    match names {
        Names::Name(_) => &[],
        Names::Tuple(names) => names,
    }
}

/// The scope with the names of items. The only error is that memory ran out.
fn name_items<'a>(
    entries: &mut Entries<'_, 'a>,
    binds: &[Bind<'a>],
    bound: usize,
    scope: usize,
) -> Result<Named, Failure>
    requires linked { AreLinked (listed entries.old) }
    requires scope { scope ≤ length (listed entries.old) }
    requires small { bound ≤ most_named (listed entries.old) }
    ensures linked { OnOk result (AreLinked (listed entries.new)) }
    ensures extends { OnOk result (Extends (listed entries.new) (listed entries.old)) }
    ensures within { IfOk result (λ s. s.scope ≤ length (listed entries.new)) }
    ensures grown { IfOk result (λ s.
        s.bound + length (listed entries.old) ≡ bound + length (listed entries.new)) }
    ensures bound { IfOk result (λ s.
        (σ : Scope) (d : ℕ)
        → s.bound ≡ bound + items_in (bounds.openings (binds_in binds.now σ) d)) }
    ensures same { IfOk result (λ s.
        (σ : Scope)
        → bounds.with_items (binds_in binds.now σ) bound (scope_at (listed entries.old) scope)
        ≡ scope_at (listed entries.new) s.scope) }
    ensures err { IfErr result (λ e. e ≡ Failure.Memory) }
{
    let mut at = scope;
    let mut next = bound;
    for i in 0..binds.len() {
        let names = names_for_items(binds[i].names);
        at = name_each(entries, names, next, at)?;
        next += names.len();
    }
    Ok(Named {
        scope: at,
        bound: next,
    })
}
