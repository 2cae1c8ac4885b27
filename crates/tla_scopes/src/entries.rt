//! Lists of entries, with an index of their names.

ghost use Rattle.std.specs.Prelude.{◌++◌};
ghost use Rattle.tla_scopes.specs.Private.Index.{AreIndexed};
ghost use Rattle.tla_scopes.specs.Private.IndexProps.{AreIndexed-prop};

use crate::arena::Entry;
use crate::failure::Failure;
use crate::index::{jumps_from, name_hash};
use std::alloc::Global;

/// An entry with the hash of its name. If the entry has another name than the one that is looked up, the search
/// continues in one of the scopes in `jumps`: the one for the first bit in which the hashes differ, or the last one if
/// they are equal.
#[derive(Clone, Copy)]
pub(crate) struct Node<'a> {
    pub(crate) entry: Entry<'a>,
    pub(crate) hash: usize,
    pub(crate) jumps: [usize; 17],
}

/// Entries, of which the first ones are borrowed from another list.
#[derive(Drop)]
pub struct Entries<'s, 'a> {
    known: &'s [Node<'a>],
    made: Vec<Node<'a>>,
    ghost indexed: { AreIndexed (known.now ++ made.items) } by { AreIndexed-prop (known.now ++ made.items) },
}

impl<'s, 'a> Entries<'s, 'a> {
    ghost use Rattle.std.specs.Prelude.{◌≡◌, ◌≤◌, ◌<◌, ◌+◌, ◌^◌, ◌∷◌, [], length, take, get_or, OnOk, IfErr};
    ghost use Rattle.tla_scopes.specs.Private.Index.{IsNode, found_at};
    ghost use Rattle.tla_scopes.specs.Listed.{listed, lent_count};

    /// No entries.
    pub fn new(alloc: Global) -> Entries<'s, 'a>
        ensures none { listed result ≡ [] }
        ensures own { lent_count result ≡ 0 }
    {
        Entries {
            known: &[],
            made: Vec::new(alloc),
        }
    }

    /// The same entries, all of them borrowed.
    pub fn lent<'t>(&'t self, alloc: Global) -> Entries<'t, 'a>
        requires { lent_count self.now ≡ 0 }
        ensures { listed result ≡ listed self.now }
    {
        Entries {
            known: self.made.as_slice(),
            made: Vec::new(alloc),
        }
    }

    /// How many entries there are.
    pub fn len(&self) -> usize
        ensures same { result ≡ length (listed self.now) }
        ensures few { result < 2 ^ 62 }
    {
        self.known.len() + self.made.as_slice().len()
    }

    /// The node of an entry.
    pub(crate) fn node(&self, at: usize) -> &Node<'a>
        requires { at < length (listed self.now) }
        ensures entry { result.now.entry ≡ get_or (listed self.now) at result.now.entry }
        ensures node { IsNode (found_at (listed self.now)) (at + 1) result.now }
    {
        let lent = self.known.len();
        if at < lent {
            &self.known[at]
        } else {
            &self.made[at - lent]
        }
    }

    /// Adds an entry. The only error is that memory ran out.
    pub(crate) fn push(&mut self, entry: Entry<'a>) -> Result<(), Failure>
        requires { entry.rest ≤ length (listed self.old) }
        ensures ok { OnOk result (listed self.new ≡ listed self.old ++ entry.entry ∷ []) }
        ensures own { OnOk result (lent_count self.new ≡ lent_count self.old) }
        ensures err { IfErr result (λ e. e ≡ Failure.Memory) }
    {
        let hash = name_hash(entry.name);
        let jumps = jumps_from(self, hash, entry.rest);
        self.made.push(Node { entry, hash, jumps })?;
        Ok(())
    }

    /// Keeps the first `end` entries.
    pub fn truncate(&mut self, end: usize)
        ensures items { listed self.new ≡ take end (listed self.old) }
    {
        let lent = self.known.len();
        if end < lent {
            self.made.truncate(0);
            self.known = &self.known[..end];
        } else {
            self.made.truncate(end - lent);
        }
    }
}
