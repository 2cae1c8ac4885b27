//! Sets of names.

ghost use Rattle.std.specs.Prelude.{◌≡◌, ◌++◌, ◌∷◌, [], true, false, IfOk, IfErr};
ghost use Rattle.tla_config.specs.declared.error.DefsCode.TheVariants.{Memory};
ghost use Rattle.tla_config.specs.Names.{is_among};

use indexmap::IndexSet;
use std::alloc::Global;
use std::marker::Model;
use tla_config::DefsError;

/// Names, each once.
#[derive(Drop)]
pub(crate) struct NameSet<'a> {
    words: IndexSet<&'a [u8]>,
}

impl<'a> Model for NameSet<'a> {
    ghost use Rattle.std.specs.Prelude.{List, ℕ, map};
    ghost use Rattle.std.specs.Borrow.{Bor};

    ghost Value = { List (List ℕ) };

    ghost view = { λ n. map (λ (w : Bor (List ℕ)). w.now) n.words.keys };
}

impl<'a> NameSet<'a> {
    /// No name.
    pub(crate) fn new(alloc: Global) -> NameSet<'a>
        ensures { result ≡ [] }
    {
        NameSet {
            words: IndexSet::new(alloc),
        }
    }

    /// Adds a name, and returns whether it is new. The only error is that memory ran out.
    pub(crate) fn insert(&mut self, name: &'a [u8]) -> Result<bool, DefsError>
        ensures new { IfOk result (λ b. b ≡ true → self.new ≡ self.old ++ name.entry.now ∷ []) }
        ensures same { IfOk result (λ b. b ≡ false → self.new ≡ self.old) }
        ensures fresh { IfOk result (λ b. b ≡ true → is_among name.entry.now self.old ≡ false) }
        ensures seen { IfOk result (λ b. b ≡ false → is_among name.entry.now self.old ≡ true) }
        ensures err { IfErr result (λ e. e.code ≡ Memory) }
    {
        Ok(self.words.insert(name)?)
    }

    pub(crate) fn contains(&self, name: &'a [u8]) -> bool
        ensures { result ≡ is_among name.entry.now self.now }
    {
        self.words.contains(&name)
    }
}
