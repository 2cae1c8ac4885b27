//! Whether an expression is a nested tuple that covers the variables. It is examined part by part, without making the
//! tuple, which may be large. A name's meaning is examined once.

ghost use Rattle.std.specs.Prelude.{◌≡◌, ◌≤◌, ◌<◌, ◌+◌, ◌*◌, ℕ, ◌++◌, ◌∷◌, [], length, true, false, nat_eq, Option, IfOk, OnOk, IfErr, IfSome, IfNone, Some};
ghost use Rattle.indexmap.specs.IndexSet.{insert_key};
ghost use Rattle.tla_core.specs.Expr as expr;
ghost use Rattle.tla_tree.specs.View.{view};
ghost use Rattle.tla_expand.specs.Covers as spec;
ghost use Rattle.tla_scopes.specs.Expand as expansion;
ghost use Rattle.tla_scopes.specs.Primes.{with_primes};
ghost use Rattle.tla_scopes.specs.Reductions.{head_gives, reduction_gives, IsWithin};
ghost use Rattle.tla_expand.specs.Private.Walks as walks;
ghost use Rattle.tla_expand.specs.Private.Walks.{IsNamed, IsAmong, IsAdded, IsInside, ArePushed, IsWalkTo, IsWalk, GoesOn, HasEach, EachIs, IsLeft, weight, weights};
ghost use Rattle.tla_scopes.specs.Costs.{cost, costs_at, head_cost, IsShorter};
ghost use Rattle.tla_scopes.specs.Scopes.{AreLinked, scope_at};
ghost use Rattle.tla_scopes.specs.Listed.{listed};

use indexmap::IndexSet;
use std::alloc::Global;
use tla_scopes::{
    Entries, Failure, Form, Head, ListNode, Primes, Reduction, next_reduction, position,
};
use tla_tree::{Expr, push};

/// A visit that remains to be done.
#[derive(Clone, Copy)]
pub(crate) enum Visit<'a> {
    /// To visit an expression in a scope, with these primes on it.
    Part(&'a Expr, usize, Primes),
    /// To record that an entry was visited, with these primes on it.
    End(PrimedEntry),
}

/// An entry, with these primes on it.
#[derive(Clone, Copy, PartialEq, Eq, Hash)]
pub(crate) struct PrimedEntry {
    pub(crate) entry: usize,
    pub(crate) primes: Primes,
}

/// What a form is as part of a nested tuple of variables.
#[derive(Clone, Copy)]
pub(crate) enum Piece<'a> {
    Variable(usize),
    Tuple(&'a Vec<Expr>),
    Other,
}

/// A walk over the parts of a nested tuple: the visits that remain, the next one last; the entries that were visited,
/// and the variables that were found.
#[derive(Drop)]
pub(crate) struct Walk<'s, 'a> {
    pub(crate) entries: Entries<'s, 'a>,
    pub(crate) remaining: Vec<Visit<'a>>,
    pub(crate) visited: IndexSet<PrimedEntry>,
    pub(crate) found: IndexSet<usize>,
}

/// The entry that a name means.
fn entry_of_name(entries: &Entries<'_, '_>, tree: &Expr, scope: usize) -> Option<usize>
    requires linked { AreLinked (listed entries.now) }
    requires within { scope ≤ length (listed entries.now) }
    ensures { IfSome result (λ k. IsNamed (listed entries.now) (view tree.now) scope k) }
{
    match tree {
        Expr::Name(name) => position(entries, scope, name.word.as_bytes()),
        _ => None,
    }
}

/// What a form with its primes is.
fn piece_of<'a>(head: Head<'a>) -> Piece<'a>
    ensures { result ≡ walks.piece_of head.entry.primes head.entry.form }
{
    match head.form {
        Form::Variable(_, variable) => match head.primes {
            Primes::Never => Piece::Variable(variable),
            Primes::Once | Primes::Twice => Piece::Other,
        },
        Form::Many(_, ListNode::Tuple, items) => Piece::Tuple(items),
        _ => Piece::Other,
    }
}

/// Adds the parts of a tuple. The only error is that memory ran out.
fn push_parts<'a>(
    remaining: &mut Vec<Visit<'a>>,
    items: &'a [Expr],
    scope: usize,
    primes: Primes,
) -> Result<(), Failure>
    ensures ok { OnOk result
        (ArePushed remaining.old.items items.entry.now scope primes remaining.new.items) }
    ensures err { IfErr result (λ f. f ≡ Failure.Memory) }
{
    for i in 0..items.len() {
        push(remaining, Visit::Part(&items[i], scope, primes))?;
    }
    Ok(())
}

/// Records a variable. The only error is that memory ran out.
fn record_variable(found: &mut IndexSet<usize>, variable: usize) -> Result<(), Failure>
    ensures ok { OnOk result (found.new.keys ≡ insert_key nat_eq found.old.keys variable) }
    ensures err { IfErr result (λ f. f ≡ Failure.Memory) }
{
    found.insert(variable)?;
    Ok(())
}

/// Records that an entry was visited. The only error is that memory ran out.
fn mark_visited(visited: &mut IndexSet<PrimedEntry>, entry: PrimedEntry) -> Result<(), Failure>
    ensures ok { OnOk result (IsAdded visited.old.keys entry visited.new.keys) }
    ensures err { IfErr result (λ f. f ≡ Failure.Memory) }
{
    visited.insert(entry)?;
    Ok(())
}

/// Whether an entry was visited.
fn is_visited(visited: &IndexSet<PrimedEntry>, entry: PrimedEntry) -> bool
    ensures { result ≡ true → IsAmong entry visited.now.keys }
{
    visited.contains(&entry)
}

/// Continues with a form. Returns whether it is a variable or a tuple. The only error is that memory ran out.
fn visit_head<'a>(walk: &mut Walk<'_, 'a>, head: Head<'a>) -> Result<bool, Failure>
    requires within { head.scope ≤ length (listed walk.old.entries) }
    ensures goes { IfOk result (λ b.
        (whole : Option expr.Expr)
        → IsWalkTo whole (listed walk.old.entries) walk.old.remaining.items walk.old.visited.keys
        walk.old.found.keys (head_gives (listed walk.old.entries) head.entry 0)
        → GoesOn whole (listed walk.new.entries) walk.new.remaining.items walk.new.visited.keys
        walk.new.found.keys b) }
    ensures left { IfOk result (λ b.
        (n : ℕ)
        → head_cost (listed walk.old.entries) head.entry ≤ n
        → IsLeft (listed walk.new.entries) walk.new.remaining.items
        (weights (listed walk.old.entries) walk.old.remaining.items + 3 * n) b) }
    ensures err { IfErr result (λ f. f ≡ Failure.Memory) }
{
    match piece_of(head) {
        Piece::Variable(variable) => {
            record_variable(&mut walk.found, variable)?;
            Ok(true)
        }
        Piece::Tuple(items) => {
            push_parts(
                &mut walk.remaining,
                items.as_slice(),
                head.scope,
                head.primes,
            )?;
            Ok(true)
        }
        Piece::Other => Ok(false),
    }
}

/// Continues with a reduction. Returns whether it may lead to a part. The only error is that memory ran out.
fn visit_reduction<'a>(walk: &mut Walk<'_, 'a>, reduction: Reduction<'a>) -> Result<bool, Failure>
    requires within { IsWithin (listed walk.old.entries) reduction }
    ensures goes { IfOk result (λ b.
        (whole : Option expr.Expr)
        → IsWalkTo whole (listed walk.old.entries) walk.old.remaining.items walk.old.visited.keys
        walk.old.found.keys (reduction_gives (listed walk.old.entries) reduction.entry 0)
        → GoesOn whole (listed walk.new.entries) walk.new.remaining.items walk.new.visited.keys
        walk.new.found.keys b) }
    ensures left { IfOk result (λ b.
        (n : ℕ)
        → IsShorter (listed walk.old.entries) reduction.entry n
        → IsLeft (listed walk.new.entries) walk.new.remaining.items
        (weights (listed walk.old.entries) walk.old.remaining.items + 3 * n) b) }
    ensures err { IfErr result (λ f. f ≡ Failure.Memory) }
{
    match reduction {
        Reduction::Goes(tree, scope, primes) => {
            push(&mut walk.remaining, Visit::Part(tree, scope, primes))?;
            Ok(true)
        }
        Reduction::Ends(head) => visit_head(walk, head),
    }
}

/// Reduces an expression once. Returns whether it may be a part. The only error is that memory ran out.
fn reduce_part<'a>(
    walk: &mut Walk<'_, 'a>,
    tree: &'a Expr,
    scope: usize,
    primes: Primes,
) -> Result<bool, Failure>
    requires linked { AreLinked (listed walk.old.entries) }
    requires within { scope ≤ length (listed walk.old.entries) }
    ensures goes { IfOk result (λ b.
        (whole : Option expr.Expr)
        → IsWalkTo whole (listed walk.old.entries) walk.old.remaining.items walk.old.visited.keys
        walk.old.found.keys
        (with_primes primes
        (expansion.expand (view tree.entry.now)
        (scope_at (listed walk.old.entries) scope) 0))
        → GoesOn whole (listed walk.new.entries) walk.new.remaining.items walk.new.visited.keys
        walk.new.found.keys b) }
    ensures left { IfOk result (λ b.
        EachIs (IsInside (listed walk.old.entries)) walk.old.remaining.items
        → IsLeft (listed walk.new.entries) walk.new.remaining.items
        (weights (listed walk.old.entries) walk.old.remaining.items
        + 3 * cost (view tree.entry.now) (costs_at (listed walk.old.entries) scope)) b) }
    ensures err { IfErr result (λ f. f ≡ Failure.Memory) }
{
    match next_reduction(&mut walk.entries, tree, scope, primes) {
        Ok(reduction) => visit_reduction(walk, reduction),
        Err(Failure::NoExpansion(_)) => Ok(false),
        Err(Failure::TooLarge) => Ok(false),
        Err(Failure::Memory) => Err(Failure::Memory),
    }
}

/// Visits a name of an entry. Returns whether it may be a part. The only error is that memory ran out.
fn visit_name<'a>(
    walk: &mut Walk<'_, 'a>,
    tree: &'a Expr,
    scope: usize,
    primes: Primes,
    entry: usize,
) -> Result<bool, Failure>
    requires linked { AreLinked (listed walk.old.entries) }
    requires within { scope ≤ length (listed walk.old.entries) }
    requires named { IsNamed (listed walk.old.entries) (view tree.now) scope entry }
    ensures goes { IfOk result (λ b.
        (whole : Option expr.Expr)
        → IsWalkTo whole (listed walk.old.entries) walk.old.remaining.items walk.old.visited.keys
        walk.old.found.keys
        (with_primes primes
        (expansion.expand (view tree.entry.now)
        (scope_at (listed walk.old.entries) scope) 0))
        → GoesOn whole (listed walk.new.entries) walk.new.remaining.items walk.new.visited.keys
        walk.new.found.keys b) }
    ensures left { IfOk result (λ b.
        EachIs (IsInside (listed walk.old.entries)) walk.old.remaining.items
        → IsLeft (listed walk.new.entries) walk.new.remaining.items
        (weights (listed walk.old.entries) walk.old.remaining.items
        + 3 * cost (view tree.entry.now) (costs_at (listed walk.old.entries) scope) + 1) b) }
    ensures err { IfErr result (λ f. f ≡ Failure.Memory) }
{
    let primed = PrimedEntry { entry, primes };
    if is_visited(&walk.visited, primed) {
        return Ok(true);
    }
    push(&mut walk.remaining, Visit::End(primed))?;
    reduce_part(walk, tree, scope, primes)
}

/// Visits an expression. Returns whether it may be a part. The only error is that memory ran out.
fn visit_part<'a>(
    walk: &mut Walk<'_, 'a>,
    tree: &'a Expr,
    scope: usize,
    primes: Primes,
) -> Result<bool, Failure>
    requires linked { AreLinked (listed walk.old.entries) }
    requires within { scope ≤ length (listed walk.old.entries) }
    ensures goes { IfOk result (λ b.
        (whole : Option expr.Expr)
        → IsWalkTo whole (listed walk.old.entries) walk.old.remaining.items walk.old.visited.keys
        walk.old.found.keys
        (with_primes primes
        (expansion.expand (view tree.entry.now)
        (scope_at (listed walk.old.entries) scope) 0))
        → GoesOn whole (listed walk.new.entries) walk.new.remaining.items walk.new.visited.keys
        walk.new.found.keys b) }
    ensures left { IfOk result (λ b.
        EachIs (IsInside (listed walk.old.entries)) walk.old.remaining.items
        → IsLeft (listed walk.new.entries) walk.new.remaining.items
        (weights (listed walk.old.entries) walk.old.remaining.items
        + 3 * cost (view tree.entry.now) (costs_at (listed walk.old.entries) scope) + 1) b) }
    ensures err { IfErr result (λ f. f ≡ Failure.Memory) }
{
    match entry_of_name(&walk.entries, tree, scope) {
        Some(entry) => visit_name(walk, tree, scope, primes, entry),
        None => reduce_part(walk, tree, scope, primes),
    }
}

/// Does a visit that was removed from the list. Returns whether all may still be parts. The only error is that memory
/// ran out.
fn visit_one<'a>(walk: &mut Walk<'_, 'a>, visit: Visit<'a>) -> Result<bool, Failure>
    requires linked { AreLinked (listed walk.old.entries) }
    requires inside { IsInside (listed walk.old.entries) visit }
    ensures goes { IfOk result (λ b.
        (whole : Option expr.Expr)
        → IsWalk whole (listed walk.old.entries) (walk.old.remaining.items ++ visit.entry ∷ [])
        walk.old.visited.keys walk.old.found.keys
        → GoesOn whole (listed walk.new.entries) walk.new.remaining.items walk.new.visited.keys
        walk.new.found.keys b) }
    ensures left { IfOk result (λ b.
        EachIs (IsInside (listed walk.old.entries)) walk.old.remaining.items
        → (n : ℕ)
        → weights (listed walk.old.entries) walk.old.remaining.items
        + weight (listed walk.old.entries) visit.entry
        ≤ n + 1
        → IsLeft (listed walk.new.entries) walk.new.remaining.items n b) }
    ensures err { IfErr result (λ f. f ≡ Failure.Memory) }
{
    match visit {
        Visit::Part(tree, scope, primes) => visit_part(walk, tree, scope, primes),
        Visit::End(entry) => {
            mark_visited(&mut walk.visited, entry)?;
            Ok(true)
        }
    }
}

/// Whether each of the first `variables` variables is among these.
fn has_each(found: &IndexSet<usize>, variables: usize) -> bool
    ensures yes { result ≡ true → HasEach found.now.keys variables }
    ensures no { result ≡ false → HasEach found.now.keys variables → ⊥ }
{
    let mut remaining = variables;
    while remaining > 0 {
        remaining -= 1;
        if !found.contains(&remaining) {
            return false;
        }
    }
    true
}

/// Visits an expression in a scope, before any other. Returns whether it is a variable or a nested tuple of variables
/// that covers the first `variables`. The only error is that memory ran out.
fn visit_all<'a>(
    walk: &mut Walk<'_, 'a>,
    tree: &'a Expr,
    scope: usize,
    variables: usize,
) -> Result<bool, Failure>
    requires linked { AreLinked (listed walk.old.entries) }
    requires within { scope ≤ length (listed walk.old.entries) }
    requires remaining { walk.old.remaining.items ≡ [] }
    requires visited { length walk.old.visited.keys ≡ 0 }
    requires found { length walk.old.found.keys ≡ 0 }
    ensures yes { IfOk result (λ b.
        b ≡ true
        → (e : expr.Expr)
        × (expansion.expand (view tree.entry.now) (scope_at (listed walk.old.entries) scope)
        0
        ≡ Some e) × (spec.covers variables e ≡ true)) }
    ensures no { IfOk result (λ b.
        b ≡ false
        → (e : expr.Expr)
        → expansion.expand (view tree.entry.now) (scope_at (listed walk.old.entries) scope) 0
        ≡ Some e
        → spec.covers variables e ≡ false) }
    ensures err { IfErr result (λ f. f ≡ Failure.Memory) }
{
    push(&mut walk.remaining, Visit::Part(tree, scope, Primes::Never))?;
    loop {
        let Some(visit) = walk.remaining.pop() else {
            return Ok(has_each(&walk.found, variables));
        };
        let goes = visit_one(walk, visit)?;
        if !goes {
            return Ok(false);
        }
    }
}

/// Whether an expression in a scope is a variable or a nested tuple of variables that covers the first `variables`. The
/// only error is that memory ran out.
pub(crate) fn covers<'a>(
    alloc: Global,
    entries: Entries<'_, 'a>,
    tree: &'a Expr,
    scope: usize,
    variables: usize,
) -> Result<bool, Failure>
    requires linked { AreLinked (listed entries) }
    requires within { scope ≤ length (listed entries) }
    ensures yes { IfOk result (λ b.
        b ≡ true
        → (e : expr.Expr)
        × (expansion.expand (view tree.entry.now) (scope_at (listed entries.entry) scope) 0
        ≡ Some e) × (spec.covers variables e ≡ true)) }
    ensures no { IfOk result (λ b.
        b ≡ false
        → (e : expr.Expr)
        → expansion.expand (view tree.entry.now) (scope_at (listed entries.entry) scope) 0
        ≡ Some e
        → spec.covers variables e ≡ false) }
    ensures err { IfErr result (λ f. f ≡ Failure.Memory) }
{
    let remaining = Vec::new(alloc);
    let visited = IndexSet::new(alloc);
    let found = IndexSet::new(alloc);
    let mut walk = Walk {
        entries,
        remaining,
        visited,
        found,
    };
    visit_all(&mut walk, tree, scope, variables)
}
