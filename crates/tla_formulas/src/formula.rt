//! The formulas of names in a configuration.

ghost use Rattle.std.specs.Prelude.{◌≡◌, ◌≢◌, Option, Some, None, IfOk, IfErr};
ghost use Rattle.tla_config.specs.declared.error.DefsCode.TheVariants.{Memory};
ghost use Rattle.tla_core.specs.declared.fault.Place as fault;
ghost use Rattle.tla_core.specs.Expr as expr;
ghost use Rattle.tla_core.specs.ExprOf.{expr_of};
ghost use Rattle.tla_scopes.specs.declared.primes.Primes as prime;
ghost use Rattle.tla_scopes.specs.declared.primes.Primes.TheVariants as read;
ghost use Rattle.tla_scopes.specs.Expand.{expand};
ghost use Rattle.tla_expand.specs.Names.{scope_of};
ghost use Rattle.tla_scopes.specs.Primes.{with_primes};
ghost use Rattle.tla_model.specs.Size.{IsWithinLimits};
ghost use Rattle.tla_tree.specs.Tree.{Name};
ghost use Rattle.tla_tree.specs.View.{view};
ghost use Rattle.tla_formulas.specs.Formulas as formulas;
ghost use Rattle.tla_formulas.specs.Refused as refused;

use crate::places::Places;
use std::alloc::Global;
use tla_config::{DefsCode, DefsError, Source};
use tla_core::Core;
use tla_expand::{Failure, Primes, Scopes};
use tla_lex::Place;
use tla_tree::{Expr, Written};

/// The place of an expression, converted to that of a refusal.
fn place_of(place: tla_core::Place) -> Place {
    Place {
        line: place.line,
        column: place.column,
    }
}

/// The refusal of a formula that begins at this place: its level is too high, or it is too large.
pub fn refusal(failure: Failure, begins: Place) -> DefsError
    ensures formula { (o : Option expr.Expr) (k : prime.Primes)
        → ((p : fault.Place) → failure ≡ Failure.NoExpansion p → with_primes k o ≡ None)
        → (failure ≡ Failure.TooLarge → (x : expr.Expr) → o ≡ Some x → IsWithinLimits x → ⊥)
        → result.code ≢ Memory
        → refused.IsOfFormula o k result }
    ensures memory { failure ≡ Failure.Memory → result.code ≡ Memory }
{
    match failure {
        Failure::Memory => DefsError::no_memory(Source::Module),
        Failure::NoExpansion(place) => {
            DefsError::at(DefsCode::Level, Source::Module, place_of(place))
        }
        Failure::TooLarge => DefsError::at(DefsCode::ExpansionTooLarge, Source::Module, begins),
    }
}

/// The initial predicate of this name, with next values for its variables; or why it is refused.
pub fn initial(
    alloc: Global,
    places: &Places<'_, '_>,
    scopes: &Scopes<'_>,
    name: &Written,
) -> Result<Core, DefsError>
    ensures found { IfOk result (λ c.
        formulas.IsInitial (scope_of scopes.now) (Name name.now) (expr_of c)) }
    ensures formula { IfErr result (λ e.
        e.code ≢ Memory
        → refused.IsOfFormula (expand (Name name.now) (scope_of scopes.now) 0) read.Once e) }
    ensures none { IfErr result (λ e.
        e.code ≢ Memory
        → (x : expr.Expr)
        → formulas.IsInitial (scope_of scopes.now) (Name name.now) x
        → ⊥) }
{
    match scopes.meaning(alloc, name, Primes::Once) {
        Ok(core) => Ok(core),
        Err(failure) => Err(refusal(failure, places.begins(name))),
    }
}

/// The action of this name; or why it is refused.
pub fn action(
    alloc: Global,
    places: &Places<'_, '_>,
    scopes: &Scopes<'_>,
    name: &Written,
) -> Result<Core, DefsError>
    ensures found { IfOk result (λ c.
        formulas.IsAction (scope_of scopes.now) (Name name.now) (expr_of c)) }
    ensures formula { IfErr result (λ e.
        e.code ≢ Memory
        → refused.IsOfFormula (expand (Name name.now) (scope_of scopes.now) 0) read.Never e) }
    ensures none { IfErr result (λ e.
        e.code ≢ Memory
        → (x : expr.Expr)
        → formulas.IsAction (scope_of scopes.now) (Name name.now) x
        → ⊥) }
{
    match scopes.meaning(alloc, name, Primes::Never) {
        Ok(core) => Ok(core),
        Err(failure) => Err(refusal(failure, places.begins(name))),
    }
}

/// The invariant or the constraint of this name; or why it is refused. A formula is of state level if its variables can
/// be primed once.
pub fn state_predicate(
    alloc: Global,
    places: &Places<'_, '_>,
    scopes: &Scopes<'_>,
    name: &Written,
) -> Result<Core, DefsError>
    ensures found { IfOk result (λ c.
        formulas.IsStatePredicate (scope_of scopes.now) name.now (expr_of c)) }
    ensures formula { IfErr result (λ e.
        e.code ≢ Memory
        → refused.IsOfFormula (formulas.meaning_in (scope_of scopes.now) name.now) read.Once
        e) }
    ensures none { IfErr result (λ e.
        e.code ≢ Memory
        → (x : expr.Expr)
        → formulas.IsStatePredicate (scope_of scopes.now) name.now x
        → ⊥) }
{
    let over_next = initial(alloc, places, scopes, name)?;
    drop(over_next);
    action(alloc, places, scopes, name)
}

/// An assumption; or why it is refused. A formula is of constant level if it can be primed twice.
pub fn assumption<'a>(alloc: Global, scopes: &Scopes<'a>, tree: &'a Expr) -> Result<Core, DefsError>
    ensures found { IfOk result (λ c.
        formulas.IsAssumption (scope_of scopes.now) (view tree.entry.now) (expr_of c)) }
    ensures formula { IfErr result (λ e.
        e.code ≢ Memory
        → refused.IsOfFormula (expand (view tree.entry.now) (scope_of scopes.now) 0) read.Twice
        e) }
    ensures none { IfErr result (λ e.
        e.code ≢ Memory
        → (x : expr.Expr)
        → formulas.IsAssumption (scope_of scopes.now) (view tree.entry.now) x
        → ⊥) }
{
    match scopes.expansion(alloc, tree, Primes::Twice) {
        Ok(core) => Ok(core),
        Err(failure) => Err(refusal(failure, tree.place())),
    }
}
