//! The names of a module, with what they mean.

ghost use Rattle.std.specs.Prelude.{◌≡◌, ◌≢◌, ◌≤◌, ◌+◌, [], length, map, IfOk, IfErr, Ok, Err, Some, None, true, false};
ghost use Rattle.std.specs.Borrow.{Bor};
ghost use Rattle.tla_core.specs.declared.fault.Place.{Place};
ghost use Rattle.tla_core.specs.declared.expression.Core as core;
ghost use Rattle.tla_core.specs.Expr as expr;
ghost use Rattle.tla_core.specs.ExprOf.{expr_of};
ghost use Rattle.tla_model.specs.Size.{IsWithinLimits};
ghost use Rattle.tla_tree.specs.Tree.{Name, Junction, trees as trees_of};
ghost use Rattle.tla_tree.specs.declared.tree.Bullet.TheVariants as bullet;
ghost use Rattle.tla_tree.specs.declared.tree.Expr as syntax;
ghost use Rattle.tla_tree.specs.View.{view, definition_view};
ghost use Rattle.tla_expand.specs.Covers as cover;
ghost use Rattle.tla_scopes.specs.Meanings.{standard, with_name, variable, value_name, operator};
ghost use Rattle.tla_scopes.specs.Expand.{definition_in, expand};
ghost use Rattle.tla_scopes.specs.Scopes.{AreLinked, IsBelow, entry_scope, scope_at};
ghost use Rattle.tla_expand.specs.Private.Linked.{AreLinked-prop};
ghost use Rattle.tla_scopes.specs.declared.failure.Failure as failure;
ghost use Rattle.tla_scopes.specs.Primes.{with_primes};
ghost use Rattle.tla_scopes.specs.Listed.{listed, lent_count};

use crate::conjunction::conjunction;
use crate::cover::covers;
use crate::expand::expansion;
use crate::named::named_expansion;
use std::alloc::Global;
use tla_core::{Core, Place};
use tla_scopes::{Entries, Entry, Failure, Primes, What, builtin_for, enter, entry_of, find};
use tla_tree::{Definition, Expr, Word, Written};
use tla_value::Value;

/// The refusal of an expression that was too large with its level, given what was found without a level: only its level
/// is the reason if it is within the limits then.
fn still_refused(found: Result<Core, Failure>) -> Failure
    ensures level { (p : Place)
        → result ≡ Failure.NoExpansion p
        → (c : core.Core) × (found ≡ Ok c) }
    ensures large { result ≡ Failure.TooLarge
        → (f : failure.Failure) × (found ≡ Err f) × (f ≢ Failure.Memory) }
{
    match found {
        Ok(core) => {
            let place = core.place();
            drop(core);
            Failure::NoExpansion(place)
        }
        Err(Failure::Memory) => Failure::Memory,
        Err(_) => Failure::TooLarge,
    }
}

/// The names that are known so far, each with its meaning. Those of the modules' own operators, as `Len`, always are.
/// Around them is the scope that was made before, if any.
#[derive(Drop)]
pub struct Scopes<'a> {
    entries: Entries<'a, 'a>,
    current: usize,
    outer: usize,
    ghost linked: { AreLinked (listed entries) } by { AreLinked-prop (listed entries) },
    ghost own: { lent_count entries ≡ 0 },
    ghost current_within: { current ≤ length (listed entries) },
    ghost outer_within: { outer ≤ length (listed entries) },
}

impl<'a> Scopes<'a> {
    ghost use Rattle.tla_expand.specs.Names.{scope_of, outer_of, size_of};

    /// The scope around a module, and no names before it.
    pub fn new(alloc: Global) -> Scopes<'a>
        ensures current { scope_of result ≡ standard }
        ensures outer { outer_of result ≡ standard }
    {
        Scopes {
            entries: Entries::new(alloc),
            current: 0,
            outer: 0,
        }
    }

    /// The scope around a module for the next pass. What was known so far is before it.
    pub fn anew(self) -> Scopes<'a>
        ensures current { scope_of result ≡ standard }
        ensures outer { outer_of result ≡ scope_of self.entry }
    {
        Scopes {
            entries: self.entries,
            current: 0,
            outer: self.current,
        }
    }

    /// How many names were added, to this scope and to those before it.
    pub fn size(&self) -> usize
        ensures { result ≡ size_of self.now }
    {
        self.entries.len()
    }

    /// With one more entry. The only error is that memory ran out.
    fn with_entry(self, entry: Entry<'a>) -> Result<Scopes<'a>, Failure>
        requires { IsBelow (length (listed self.entries)) entry.what entry.rest }
        ensures ok { IfOk result (λ s.
            scope_of s ≡ entry_scope (scope_at (listed self.entry.entries)) entry.entry) }
        ensures outer { IfOk result (λ s. outer_of s ≡ outer_of self.entry) }
        ensures size { IfOk result (λ s. size_of s ≡ size_of self.entry + 1) }
        ensures err { IfErr result (λ e. e ≡ Failure.Memory) }
    {
        let outer = self.outer;
        let mut entries = self.entries;
        let current = enter(&mut entries, entry)?;
        Ok(Scopes {
            entries,
            current,
            outer,
        })
    }

    /// With a variable and its number. The only error is that memory ran out.
    pub fn with_variable(self, name: &'a Word, number: usize) -> Result<Scopes<'a>, Failure>
        ensures ok { IfOk result (λ s.
            scope_of s ≡ with_name name.now (variable number) (scope_of self.entry)) }
        ensures outer { IfOk result (λ s. outer_of s ≡ outer_of self.entry) }
        ensures size { IfOk result (λ s. size_of s ≡ size_of self.entry + 1) }
        ensures err { IfErr result (λ e. e ≡ Failure.Memory) }
    {
        let rest = self.current;
        self.with_entry(Entry {
            name: name.as_bytes(),
            what: What::Variable(number),
            rest,
        })
    }

    /// With a constant and its value. The only error is that memory ran out.
    pub fn with_value(self, name: &'a Word, value: &'a Value) -> Result<Scopes<'a>, Failure>
        ensures ok { IfOk result (λ s.
            scope_of s ≡ with_name name.now (value_name value.now) (scope_of self.entry)) }
        ensures outer { IfOk result (λ s. outer_of s ≡ outer_of self.entry) }
        ensures size { IfOk result (λ s. size_of s ≡ size_of self.entry + 1) }
        ensures err { IfErr result (λ e. e ≡ Failure.Memory) }
    {
        let rest = self.current;
        self.with_entry(Entry {
            name: name.as_bytes(),
            what: What::Value(value),
            rest,
        })
    }

    /// With a name that means what another one meant before. The only error is that memory ran out.
    pub fn with_replacement(self, name: &'a Word, operator: &Word) -> Result<Scopes<'a>, Failure>
        ensures ok { IfOk result (λ s.
            scope_of s
            ≡ with_name name.now (outer_of self.entry operator.now) (scope_of self.entry)) }
        ensures outer { IfOk result (λ s. outer_of s ≡ outer_of self.entry) }
        ensures size { IfOk result (λ s. size_of s ≡ size_of self.entry + 1) }
        ensures err { IfErr result (λ e. e ≡ Failure.Memory) }
    {
        let what = match find(&self.entries, self.outer, operator.as_bytes()) {
            Some(entry) => entry.what,
            None => match builtin_for(operator.as_bytes()) {
                Some(builtin) => What::Module(builtin),
                None => What::Unknown,
            },
        };
        let rest = self.current;
        self.with_entry(Entry {
            name: name.as_bytes(),
            what,
            rest,
        })
    }

    /// With a definition without parameters. The only error is that memory ran out.
    pub fn with_operator(self, name: &'a Word, body: &'a Expr) -> Result<Scopes<'a>, Failure>
        ensures ok { IfOk result (λ s.
            scope_of s
            ≡ with_name name.now (operator [] (expand (view body.now)) (scope_of self.entry))
            (scope_of self.entry)) }
        ensures outer { IfOk result (λ s. outer_of s ≡ outer_of self.entry) }
        ensures size { IfOk result (λ s. size_of s ≡ size_of self.entry + 1) }
        ensures err { IfErr result (λ e. e ≡ Failure.Memory) }
    {
        let rest = self.current;
        self.with_entry(Entry {
            name: name.as_bytes(),
            what: What::Definition(&[], body, rest),
            rest,
        })
    }

    /// With a definition. The only error is that memory ran out.
    pub fn with_definition(self, definition: &'a Definition) -> Result<Scopes<'a>, Failure>
        ensures ok { IfOk result (λ s.
            scope_of s ≡ definition_in (definition_view definition.now) (scope_of self.entry)) }
        ensures outer { IfOk result (λ s. outer_of s ≡ outer_of self.entry) }
        ensures size { IfOk result (λ s. size_of s ≡ size_of self.entry + 1) }
        ensures err { IfErr result (λ e. e ≡ Failure.Memory) }
    {
        let rest = self.current;
        let entry = entry_of(&self.entries, definition, rest);
        self.with_entry(entry)
    }

    /// The expansion of an expression, or the first refusal, if operands are also examined without more primes.
    fn find_expansion(
        &self,
        alloc: Global,
        tree: &'a Expr,
        primes: Primes,
        reported: Option<Primes>,
    ) -> Result<Core, Failure>
        ensures found { IfOk result (λ c.
            with_primes primes (expand (view tree.now) (scope_of self.now) 0)
            ≡ Some (expr_of c)) }
        ensures limits { IfOk result (λ c. IsWithinLimits (expr_of c)) }
        ensures gone { IfErr result (λ f.
            (p : Place)
            → f ≡ Failure.NoExpansion p
            → with_primes primes (expand (view tree.now) (scope_of self.now) 0) ≡ None) }
        ensures none { IfErr result (λ f.
            f ≢ Failure.Memory
            → (e : expr.Expr)
            → with_primes primes (expand (view tree.now) (scope_of self.now) 0) ≡ Some e
            → IsWithinLimits e
            → ⊥) }
    {
        let mut entries = self.entries.lent(alloc);
        expansion(alloc, &mut entries, tree, self.current, primes, reported)
    }

    /// The expansion of an expression under these names, with at most 200,000 nodes, and at most 300 on a path; or the
    /// first refusal in the order of the expansion: one prime too many on a variable, a limit, or that memory ran out.
    /// `Primes::Once` takes each variable as the variable's next value.
    pub fn expansion(&self, alloc: Global, tree: &'a Expr, primes: Primes) -> Result<Core, Failure>
        ensures found { IfOk result (λ c.
            with_primes primes (expand (view tree.now) (scope_of self.now) 0)
            ≡ Some (expr_of c)) }
        ensures limits { IfOk result (λ c. IsWithinLimits (expr_of c)) }
        ensures gone { IfErr result (λ f.
            (p : Place)
            → f ≡ Failure.NoExpansion p
            → with_primes primes (expand (view tree.now) (scope_of self.now) 0) ≡ None) }
        ensures none { IfErr result (λ f.
            f ≢ Failure.Memory
            → (e : expr.Expr)
            → with_primes primes (expand (view tree.now) (scope_of self.now) 0) ≡ Some e
            → IsWithinLimits e
            → ⊥) }
        // `TooLarge` means that there is no expansion within the limits, whatever its level.
        ensures large { IfErr result (λ f.
            f ≡ Failure.TooLarge
            → (e : expr.Expr)
            → expand (view tree.now) (scope_of self.now) 0 ≡ Some e
            → IsWithinLimits e
            → ⊥) }
    {
        match self.find_expansion(alloc, tree, primes, Some(primes)) {
            Err(Failure::TooLarge) => {
                let found = self.find_expansion(alloc, tree, Primes::Never, None);
                Err(still_refused(found))
            }
            made => made,
        }
    }

    /// The expansion of a name, or the first refusal, if operands are also examined without more primes.
    fn find_meaning(
        &self,
        alloc: Global,
        name: &Written,
        primes: Primes,
        reported: Option<Primes>,
    ) -> Result<Core, Failure>
        ensures found { IfOk result (λ c.
            with_primes primes (expand (Name name.now) (scope_of self.now) 0)
            ≡ Some (expr_of c)) }
        ensures limits { IfOk result (λ c. IsWithinLimits (expr_of c)) }
        ensures gone { IfErr result (λ f.
            (p : Place)
            → f ≡ Failure.NoExpansion p
            → with_primes primes (expand (Name name.now) (scope_of self.now) 0) ≡ None) }
        ensures none { IfErr result (λ f.
            f ≢ Failure.Memory
            → (e : expr.Expr)
            → with_primes primes (expand (Name name.now) (scope_of self.now) 0) ≡ Some e
            → IsWithinLimits e
            → ⊥) }
    {
        let mut entries = self.entries.lent(alloc);
        named_expansion(alloc, &mut entries, name, self.current, primes, reported)
    }

    /// The expansion of a name without arguments, within the same limits; or the first refusal.
    pub fn meaning(&self, alloc: Global, name: &Written, primes: Primes) -> Result<Core, Failure>
        ensures found { IfOk result (λ c.
            with_primes primes (expand (Name name.now) (scope_of self.now) 0)
            ≡ Some (expr_of c)) }
        ensures limits { IfOk result (λ c. IsWithinLimits (expr_of c)) }
        ensures gone { IfErr result (λ f.
            (p : Place)
            → f ≡ Failure.NoExpansion p
            → with_primes primes (expand (Name name.now) (scope_of self.now) 0) ≡ None) }
        ensures none { IfErr result (λ f.
            f ≢ Failure.Memory
            → (e : expr.Expr)
            → with_primes primes (expand (Name name.now) (scope_of self.now) 0) ≡ Some e
            → IsWithinLimits e
            → ⊥) }
        // `TooLarge` means that there is no expansion within the limits, whatever its level.
        ensures large { IfErr result (λ f.
            f ≡ Failure.TooLarge
            → (e : expr.Expr)
            → expand (Name name.now) (scope_of self.now) 0 ≡ Some e
            → IsWithinLimits e
            → ⊥) }
    {
        match self.find_meaning(alloc, name, primes, Some(primes)) {
            Err(Failure::TooLarge) => {
                let found = self.find_meaning(alloc, name, Primes::Never, None);
                Err(still_refused(found))
            }
            made => made,
        }
    }

    /// The expansion of a conjunction, or the first refusal, if operands are also examined without more primes.
    fn find_conjunction(
        &self,
        alloc: Global,
        place: tla_lex::Place,
        trees: &[&'a Expr],
        primes: Primes,
        reported: Option<Primes>,
    ) -> Result<Core, Failure>
        ensures found { IfOk result (λ c.
            with_primes primes
            (expand
            (Junction place bullet.And
            (trees_of (map (λ (t : Bor syntax.Expr). view t.now) trees.now)))
            (scope_of self.now) 0)
            ≡ Some (expr_of c)) }
        ensures limits { IfOk result (λ c. IsWithinLimits (expr_of c)) }
        ensures gone { IfErr result (λ f.
            (p : Place)
            → f ≡ Failure.NoExpansion p
            → with_primes primes
            (expand
            (Junction place bullet.And
            (trees_of (map (λ (t : Bor syntax.Expr). view t.now) trees.now)))
            (scope_of self.now) 0)
            ≡ None) }
        ensures none { IfErr result (λ f.
            f ≢ Failure.Memory
            → (e : expr.Expr)
            → with_primes primes
            (expand
            (Junction place bullet.And
            (trees_of (map (λ (t : Bor syntax.Expr). view t.now) trees.now)))
            (scope_of self.now) 0)
            ≡ Some e
            → IsWithinLimits e
            → ⊥) }
    {
        let mut entries = self.entries.lent(alloc);
        conjunction(
            alloc,
            &mut entries,
            place,
            trees,
            self.current,
            primes,
            reported,
        )
    }

    /// The expansion of the conjunction of these expressions, at a place, within the same limits; or the first refusal.
    pub fn conjunction(
        &self,
        alloc: Global,
        place: tla_lex::Place,
        trees: &[&'a Expr],
        primes: Primes,
    ) -> Result<Core, Failure>
        ensures found { IfOk result (λ c.
            with_primes primes
            (expand
            (Junction place bullet.And
            (trees_of (map (λ (t : Bor syntax.Expr). view t.now) trees.now)))
            (scope_of self.now) 0)
            ≡ Some (expr_of c)) }
        ensures limits { IfOk result (λ c. IsWithinLimits (expr_of c)) }
        ensures gone { IfErr result (λ f.
            (p : Place)
            → f ≡ Failure.NoExpansion p
            → with_primes primes
            (expand
            (Junction place bullet.And
            (trees_of (map (λ (t : Bor syntax.Expr). view t.now) trees.now)))
            (scope_of self.now) 0)
            ≡ None) }
        ensures none { IfErr result (λ f.
            f ≢ Failure.Memory
            → (e : expr.Expr)
            → with_primes primes
            (expand
            (Junction place bullet.And
            (trees_of (map (λ (t : Bor syntax.Expr). view t.now) trees.now)))
            (scope_of self.now) 0)
            ≡ Some e
            → IsWithinLimits e
            → ⊥) }
        // `TooLarge` means that there is no expansion within the limits, whatever its level.
        ensures large { IfErr result (λ f.
            f ≡ Failure.TooLarge
            → (e : expr.Expr)
            → expand
            (Junction place bullet.And
            (trees_of (map (λ (t : Bor syntax.Expr). view t.now) trees.now)))
            (scope_of self.now) 0
            ≡ Some e
            → IsWithinLimits e
            → ⊥) }
    {
        match self.find_conjunction(alloc, place, trees, primes, Some(primes)) {
            Err(Failure::TooLarge) => {
                let found = self.find_conjunction(alloc, place, trees, Primes::Never, None);
                Err(still_refused(found))
            }
            made => made,
        }
    }

    /// Whether an expression is a variable or a nested tuple of variables that covers the first `variables`. The tuple
    /// isn't made, so there is no limit to it. The only error is that memory ran out.
    pub fn covers(&self, alloc: Global, tree: &'a Expr, variables: usize) -> Result<bool, Failure>
        ensures yes { IfOk result (λ b.
            b ≡ true
            → (e : expr.Expr) × (expand (view tree.now) (scope_of self.now) 0 ≡ Some e)
            × (cover.covers variables e ≡ true)) }
        ensures no { IfOk result (λ b.
            b ≡ false
            → (e : expr.Expr)
            → expand (view tree.now) (scope_of self.now) 0 ≡ Some e
            → cover.covers variables e ≡ false) }
        ensures err { IfErr result (λ f. f ≡ Failure.Memory) }
    {
        let entries = self.entries.lent(alloc);
        covers(alloc, entries, tree, self.current, variables)
    }
}
