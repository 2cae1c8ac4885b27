//! The position of a copy relative to its original.
ghost use Rattle.std.specs.Prelude.{◌≡◌, IsTrue, ℕ};
ghost use Rattle.tla_core.specs.ExprOf.{expr_of};
ghost use Rattle.tla_core.specs.Expr.{Expr};
ghost use Rattle.tla_core.specs.declared.fault.Place.{Place};
ghost use Rattle.tla_code.specs.Raise.{raise, raised_name, raised_openings};
ghost use Rattle.tla_code.specs.Forms.{one_expr};
ghost use Rattle.tla_sharing.specs.Private.Copies.{IsUse};

use tla_code::OneForm;
use tla_core::{Core, Opening};

/// The original is under `from` names, and its copy under `by` more. `outside` has, for each definition in scope, the
/// number of names bound outside it.
#[derive(Clone, Copy)]
pub(crate) struct Shift<'o> {
    pub(crate) from: usize,
    pub(crate) by: usize,
    pub(crate) outside: &'o [usize],
}

/// Whether the bound name `original` has the number `copy` in the copy.
pub(crate) fn is_name(original: usize, from: usize, by: usize, copy: usize) -> bool
    ensures { IsTrue result → copy ≡ raised_name from by original }
{
    if original < from {
        copy == original
    } else {
        copy >= by && copy - by == original
    }
}

/// Whether the patterns of a copy destructure the same elements.
pub(crate) fn are_openings(
    originals: &[Opening],
    from: usize,
    by: usize,
    copies: &[Opening],
) -> bool
    ensures { IsTrue result → copies.now ≡ raised_openings from by originals.now }
{
    if originals.len() != copies.len() {
        return false;
    }
    for i in 0..originals.len() {
        if originals[i].items != copies[i].items
            || !is_name(originals[i].name, from, by, copies[i].name)
        {
            return false;
        }
    }
    true
}

/// Whether two expressions without names are the same, at the same place.
pub(crate) fn are_same(original: &Core, copy: &Core) -> bool
    ensures { IsTrue result
        → (from by : ℕ)
        → expr_of copy.now ≡ raise from by (expr_of original.now) }
{
    match (original, copy) {
        (Core::Constant(p, v), Core::Constant(q, w)) => p == q && v == w,
        (Core::Now(p, i), Core::Now(q, j)) => p == q && i == j,
        (Core::Next(p, i), Core::Next(q, j)) => p == q && i == j,
        (Core::KindSet(p, k), Core::KindSet(q, l)) => p == q && k == l,
        (Core::Booleans(p), Core::Booleans(q)) => p == q,
        (Core::Literal(l), Core::Literal(m)) => l.is_same(m),
        (_, _) => false,
    }
}

/// Whether two forms with one operand are the same.
pub(crate) fn is_same_form(one: &OneForm<'_>, other: &OneForm<'_>) -> bool
    ensures { IsTrue result
        → (p : Place) (a : Expr)
        → one_expr other.now p a ≡ one_expr one.now p a }
{
    match (one, other) {
        (OneForm::Operator(f), OneForm::Operator(g)) => f == g,
        (OneForm::Field(name), OneForm::Field(named)) => name.as_str() == named.as_str(),
        (OneForm::Sequences, OneForm::Sequences) => true,
        (OneForm::Power, OneForm::Power) => true,
        (OneForm::CheckPattern(count), OneForm::CheckPattern(number)) => count == number,
        (_, _) => false,
    }
}

/// Whether a use under `since` names is a copy of a use under `names`, for a definition with `outside` names bound
/// outside it.
pub(crate) fn is_use(outside: usize, names: usize, since: usize, from: usize, by: usize) -> bool
    ensures { IsTrue result → IsUse outside names since from by }
{
    since >= by && since - by == names && outside <= from && from - outside <= names
}
