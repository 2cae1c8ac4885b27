//! Whether an expression is a copy of another one under more names.
ghost use Rattle.std.specs.Prelude.{◌≡◌, IsTrue, ℕ, Some, slice_get};
ghost use Rattle.tla_sharing.specs.Private.Copies.{IsCopy, AreCopies, AreFields, AreUpdates, IsUse};

use crate::shift::{Shift, are_openings, are_same, is_name, is_same_form, is_use};
use tla_code::Code;
use tla_value::Text;

/// Whether one expression is known to be a copy of another. FALSE means nothing: an Assert, or an expression with
/// definitions of its own, isn't compared.
#[cycle(copies)]
pub(crate) fn is_copy(original: &Code<'_>, copy: &Code<'_>, shift: Shift<'_>) -> bool
    ensures { IsTrue result → IsCopy shift.entry original.now copy.now }
{
    match (original, copy) {
        (Code::Plain(c), Code::Plain(d)) => are_same(c, d),
        (Code::Bound(p, i), Code::Bound(q, j)) => {
            p == q && is_name(*i, shift.from, shift.by, *j)
        }
        (Code::Use(p, k, b), Code::Use(q, l, c)) => {
            p == q && k == l && is_copied_use(*k, *b, *c, shift)
        }
        (Code::One(p, f, a), Code::One(q, g, b)) => {
            p == q && is_same_form(f, g) && is_copy(a, b, shift)
        }
        (Code::Two(p, f, a, c), Code::Two(q, g, b, d)) => {
            p == q && f == g && is_copy(a, b, shift) && is_copy(c, d, shift)
        }
        (Code::Three(p, f, a, c, e), Code::Three(q, g, b, d, h)) => {
            p == q && f == g && is_copy(a, b, shift) && is_copy(c, d, shift) && is_copy(e, h, shift)
        }
        (Code::Binder(p, f, a, c), Code::Binder(q, g, b, d)) => {
            p == q && f == g && is_copy(a, b, shift) && is_copy(c, d, shift)
        }
        (_, _) => has_listed_copies(original, copy, shift),
    }
}

/// Whether a use of the definition with this number is the copy of another use of it.
fn is_copied_use(number: usize, names: usize, since: usize, shift: Shift<'_>) -> bool
    ensures { IsTrue result
        → (outer : ℕ)
        → slice_get shift.entry.outside.now number ≡ Some outer
        → IsUse outer names since shift.entry.from shift.entry.by }
{
    match shift.outside.get(number) {
        Some(outside) => is_use(*outside, names, since, shift.from, shift.by),
        None => false,
    }
}

/// Forms with a list of parts.
#[cycle(copies)]
fn has_listed_copies(original: &Code<'_>, copy: &Code<'_>, shift: Shift<'_>) -> bool
    ensures { IsTrue result → IsCopy shift.entry original.now copy.now }
{
    match (original, copy) {
        (Code::List(p, f, xs), Code::List(q, g, ys)) => {
            p == q && f == g && are_copies(xs, ys, shift)
        }
        (Code::Fields(p, f, xs), Code::Fields(q, g, ys)) => {
            p == q && f == g && are_fields(xs, ys, shift)
        }
        (Code::Map(p, f, xs, a), Code::Map(q, g, ys, b)) => {
            p == q && f == g && are_copies(xs, ys, shift) && is_copy(a, b, shift)
        }
        (Code::Except(p, a, xs), Code::Except(q, b, ys)) => {
            p == q && is_copy(a, b, shift) && are_updates(xs, ys, shift)
        }
        (Code::Destructure(p, xs, a), Code::Destructure(q, ys, b)) => {
            p == q && are_openings(xs, shift.from, shift.by, ys) && is_copy(a, b, shift)
        }
        (_, _) => false,
    }
}

#[cycle(copies)]
fn are_copies(originals: &[Code<'_>], copies: &[Code<'_>], shift: Shift<'_>) -> bool
    ensures { IsTrue result → AreCopies shift.entry originals.now copies.now }
{
    if originals.len() != copies.len() {
        return false;
    }
    for i in 0..originals.len() {
        if !is_copy(&originals[i], &copies[i], shift) {
            return false;
        }
    }
    true
}

#[cycle(copies)]
fn are_fields(
    originals: &[(&Text, Code<'_>)],
    copies: &[(&Text, Code<'_>)],
    shift: Shift<'_>,
) -> bool
    ensures { IsTrue result → AreFields shift.entry originals.now copies.now }
{
    if originals.len() != copies.len() {
        return false;
    }
    for i in 0..originals.len() {
        if originals[i].0.as_str() != copies[i].0.as_str()
            || !is_copy(&originals[i].1, &copies[i].1, shift)
        {
            return false;
        }
    }
    true
}

#[cycle(copies)]
fn are_updates(
    originals: &[(Vec<Code<'_>>, Code<'_>)],
    copies: &[(Vec<Code<'_>>, Code<'_>)],
    shift: Shift<'_>,
) -> bool
    ensures { IsTrue result → AreUpdates shift.entry originals.now copies.now }
{
    if originals.len() != copies.len() {
        return false;
    }
    for i in 0..originals.len() {
        if !are_copies(originals[i].0.as_slice(), copies[i].0.as_slice(), shift)
            || !is_copy(&originals[i].1, &copies[i].1, shift)
        {
            return false;
        }
    }
    true
}
