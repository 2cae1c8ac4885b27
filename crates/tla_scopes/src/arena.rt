//! Scopes in memory.

ghost use Rattle.std.specs.Prelude.{◌≡◌, ◌≤◌, ◌<◌, ◌^◌, length, get_or, IfSome, IfNone, IfOk, OnOk, IfErr, Some, ◌++◌, ◌∷◌, []};
ghost use Rattle.tla_scopes.specs.declared.arena.Entry as arena_entry;
ghost use Rattle.tla_scopes.specs.Meanings.{standard, with_parameters};
ghost use Rattle.tla_scopes.specs.Scopes.{AreLinked, IsBelow, Extends, scope_at, entry_scope, meaning_of, arguments_in};
ghost use Rattle.tla_scopes.specs.Costs.{costs_at, entry_costs, cost_by, costs_in, with_costs};
ghost use Rattle.tla_scopes.specs.Listed.{listed, lent_count};

use crate::entries::Entries;
use crate::failure::Failure;
use crate::index::{name_hash, slot};
use crate::nodes::Builtin;
use crate::primes::Primes;
use tla_core::Place;
use tla_tree::{Binder, Expr, Written};
use tla_value::Value;

/// The argument that an operator returns: its number, how many primes are on it, and where the last of these is.
#[derive(Clone, Copy)]
pub struct Projection {
    pub index: usize,
    pub primes: Primes,
    pub primed: Option<Place>,
}

/// What a name means.
#[derive(Clone, Copy)]
pub enum What<'a> {
    Bound(usize),
    Variable(usize),
    Value(&'a Value),
    /// An argument, in the scope of the use.
    Argument(&'a Expr, usize),
    /// The parameters and the body of a definition, and the scope of the definition.
    Definition(&'a [Written], &'a Expr, usize),
    /// The place, the binder list and the body of a function that is defined by its name, and the scope of the
    /// definition.
    Function(Place, &'a Vec<Binder>, &'a Expr, usize),
    /// An operator with this many parameters that returns one of its arguments.
    Gives(usize, Projection),
    /// An operator of a module under another name.
    Module(Builtin),
    /// An alias of an unknown name.
    Unknown,
}

/// A name, and the scope before it.
#[derive(Clone, Copy)]
pub struct Entry<'a> {
    pub name: &'a [u8],
    pub what: What<'a>,
    pub rest: usize,
}

/// The entry that a name has in a scope, by its number.
pub fn position(entries: &Entries<'_, '_>, scope: usize, name: &[u8]) -> Option<usize>
    requires linked { AreLinked (listed entries.now) }
    requires within { scope ≤ length (listed entries.now) }
    ensures found { IfSome result (λ k.
        (e : arena_entry.Entry)
        → e ≡ get_or (listed entries.now) k e
        → scope_at (listed entries.now) scope name.now
        ≡ meaning_of (scope_at (listed entries.now)) e.what) }
    ensures costs { IfSome result (λ k.
        (e : arena_entry.Entry)
        → e ≡ get_or (listed entries.now) k e
        → costs_at (listed entries.now) scope name.now
        ≡ cost_by (costs_at (listed entries.now)) e.what) }
    ensures there { IfSome result (λ k. k < length (listed entries.now)) }
    ensures none { IfNone result
        (scope_at (listed entries.now) scope name.now ≡ standard name.now) }
{
    let hash = name_hash(name);
    let mut at = scope;
    while at > 0 {
        let node = entries.node(at - 1);
        if node.entry.name == name {
            return Some(at - 1);
        }
        at = node.jumps[slot(node.hash, hash)];
    }
    None
}

/// What a name means in a scope.
pub fn find<'a>(entries: &Entries<'_, 'a>, scope: usize, name: &[u8]) -> Option<Entry<'a>>
    requires linked { AreLinked (listed entries.now) }
    requires within { scope ≤ length (listed entries.now) }
    ensures found { IfSome result (λ e.
        scope_at (listed entries.now) scope name.now
        ≡ meaning_of (scope_at (listed entries.now)) e.what) }
    ensures costs { IfSome result (λ e.
        costs_at (listed entries.now) scope name.now
        ≡ cost_by (costs_at (listed entries.now)) e.what) }
    ensures below { IfSome result (λ e. IsBelow (length (listed entries.now)) e.what e.rest) }
    ensures none { IfNone result
        (scope_at (listed entries.now) scope name.now ≡ standard name.now) }
{
    match position(entries, scope, name) {
        Some(at) => Some(entries.node(at).entry),
        None => None,
    }
}

/// Adds an entry, and returns its scope. The only error is that memory ran out.
pub fn enter<'a>(entries: &mut Entries<'_, 'a>, entry: Entry<'a>) -> Result<usize, Failure>
    requires linked { AreLinked (listed entries.old) }
    requires below { IsBelow (length (listed entries.old)) entry.what entry.rest }
    ensures linked { OnOk result (AreLinked (listed entries.new)) }
    ensures added { OnOk result (listed entries.new ≡ listed entries.old ++ entry.entry ∷ []) }
    ensures scope { IfOk result (λ s.
        scope_at (listed entries.new) s
        ≡ entry_scope (scope_at (listed entries.old)) entry.entry) }
    ensures costs { IfOk result (λ s.
        costs_at (listed entries.new) s
        ≡ entry_costs (costs_at (listed entries.old)) entry.entry) }
    ensures end { IfOk result (λ s. s ≡ length (listed entries.new)) }
    ensures few { IfOk result (λ s. s < 2 ^ 62) }
    ensures own { OnOk result (lent_count entries.new ≡ lent_count entries.old) }
    ensures err { IfErr result (λ e. e ≡ Failure.Memory) }
{
    entries.push(entry)?;
    Ok(entries.len())
}

/// The scope in which the parameters mean the arguments. The only error is that memory ran out.
pub(crate) fn bind<'a>(
    entries: &mut Entries<'_, 'a>,
    parameters: &'a [Written],
    home: usize,
    arguments: &'a [Expr],
    scope: usize,
) -> Result<usize, Failure>
    requires linked { AreLinked (listed entries.old) }
    requires home { home ≤ length (listed entries.old) }
    requires scope { scope ≤ length (listed entries.old) }
    requires same { length parameters.now ≡ length arguments.now }
    ensures linked { OnOk result (AreLinked (listed entries.new)) }
    ensures extends { OnOk result (Extends (listed entries.new) (listed entries.old)) }
    ensures within { IfOk result (λ s. s ≤ length (listed entries.new)) }
    ensures bound { IfOk result (λ s.
        with_parameters parameters.now
        (arguments_in arguments.now (scope_at (listed entries.old) scope))
        (scope_at (listed entries.old) home)
        ≡ Some (scope_at (listed entries.new) s)) }
    ensures costs { IfOk result (λ s.
        costs_at (listed entries.new) s
        ≡ with_costs parameters.now
        (costs_in arguments.now (costs_at (listed entries.old) scope))
        (costs_at (listed entries.old) home)) }
    ensures err { IfErr result (λ e. e ≡ Failure.Memory) }
{
    let mut at = home;
    for i in 0..parameters.len() {
        let entry = Entry {
            name: parameters[i].word.as_bytes(),
            what: What::Argument(&arguments[i], scope),
            rest: at,
        };
        at = enter(entries, entry)?;
    }
    Ok(at)
}
