//! Whether the names and variables of an expression exist.
ghost use Rattle.std.specs.Prelude.{◌≡◌, ◌+◌, ◌&&◌, ℕ, List, nat_lt, map};
ghost use Rattle.std.specs.List.{list_all};
ghost use Rattle.tla_core.specs.Expr.{Expr};
ghost use Rattle.tla_core.specs.ExprOf.{expr_of, exprs_of_arm, update_fits};
ghost use Rattle.tla_core.specs.declared.expression.Core.{Core};
ghost use Rattle.tla_core.specs.Fits.{fits, Counts};
ghost use Rattle.tla_core.specs.Patterns.{items_in};

use crate::expression::{Core, Opening};
use tla_value::Text;

impl Core {
    /// Whether every name of the expression exists, if `bound` names are bound outside it, there are `variables`
    /// variables, and there is a present state (`now`) or none.
    pub fn fits(&self, bound: usize, variables: usize, now: bool) -> bool
        ensures { result ≡ fits (expr_of self.now) bound variables now }
    {
        fits_within(self, Some(bound), variables, now)
    }
}

/// The number of names plus `more`; none if it is no `usize`.
fn with_more(names: Option<usize>, more: usize) -> Option<usize>
    ensures { (n : ℕ) → Counts names n → Counts result (n + more) }
{
    match names {
        Some(count) => count.checked_add(more),
        None => None,
    }
}

/// Whether there is a name with this index.
fn has_name(names: Option<usize>, index: usize) -> bool
    ensures { (n : ℕ) → Counts names n → result ≡ nat_lt index n }
{
    match names {
        Some(count) => index < count,
        None => true,
    }
}

/// Whether the bound name of each opening exists.
fn are_bound(openings: &[Opening], names: Option<usize>) -> bool
    ensures { (n : ℕ)
        → Counts names n
        → result ≡ list_all (λ (o : Opening). nat_lt o.name n) openings.now }
{
    for opening in openings {
        if !has_name(names, opening.name) {
            return false;
        }
    }
    true
}

/// The number of names plus the items of these openings.
fn with_items(openings: &[Opening], names: Option<usize>) -> Option<usize>
    ensures { (n : ℕ) → Counts names n → Counts result (n + items_in openings.now) }
{
    let mut count = names;
    for opening in openings {
        count = with_more(count, opening.items);
    }
    count
}

#[cycle(fits)]
fn fits_within(core: &Core, names: Option<usize>, variables: usize, now: bool) -> bool
    ensures { (n : ℕ) → Counts names n → result ≡ fits (expr_of core.now) n variables now }
{
    match core {
        Core::Constant(_, _) | Core::KindSet(_, _) | Core::Booleans(_) => true,
        Core::Bound(_, index) => has_name(names, *index),
        Core::Now(_, variable) => now && *variable < variables,
        Core::Next(_, variable) => *variable < variables,
        Core::Unary(_, _, operand)
        | Core::Field(_, _, operand)
        | Core::Sequences(_, operand)
        | Core::Power(_, operand) => fits_within(operand, names, variables, now),
        Core::Binary(_, _, left, right)
        | Core::Apply(_, left, right)
        | Core::Equal(_, left, right)
        | Core::Implies(_, left, right)
        | Core::Assert(_, left, right)
        | Core::Member(_, left, right)
        | Core::NotMember(_, left, right)
        | Core::Subset(_, left, right)
        | Core::Cup(_, left, right)
        | Core::Cap(_, left, right)
        | Core::Minus(_, left, right)
        | Core::Functions(_, left, right) => {
            fits_within(left, names, variables, now) && fits_within(right, names, variables, now)
        }
        Core::If(_, condition, yes, no) => {
            fits_within(condition, names, variables, now)
                && fits_within(yes, names, variables, now)
                && fits_within(no, names, variables, now)
        }
        Core::SubSeq(_, sequence, low, high) => {
            fits_within(sequence, names, variables, now)
                && fits_within(low, names, variables, now)
                && fits_within(high, names, variables, now)
        }
        Core::Cases(_, arms, other) => match other {
            None => arms_fit(arms, names, variables, now),
            Some(body) => {
                arms_fit(arms, names, variables, now) && fits_within(body, names, variables, now)
            }
        },
        Core::ForAll(_, set, body)
        | Core::ForSome(_, set, body)
        | Core::Choose(_, set, body)
        | Core::Filter(_, set, body) => {
            fits_within(set, names, variables, now)
                && fits_within(body, with_more(names, 1), variables, now)
        }
        Core::Image(_, sets, body) => {
            all_fit(sets, names, variables, now)
                && fits_within(body, with_more(names, sets.len()), variables, now)
        }
        Core::Function(_, sets, body) => {
            all_fit(sets, names, variables, now)
                && fits_within(body, with_more(names, sets.len()), variables, now)
        }
        Core::Except(_, function, updates) => {
            fits_within(function, names, variables, now)
                && updates_fit(updates, names, variables, now)
        }
        Core::Enumerated(_, parts) => all_fit(parts, names, variables, now),
        Core::Tuple(_, parts) => all_fit(parts, names, variables, now),
        Core::Record(_, fields) => fields_fit(fields, names, variables, now),
        Core::Conjunction(_, parts) => all_fit(parts, names, variables, now),
        Core::Records(_, fields) => fields_fit(fields, names, variables, now),
        Core::Product(_, parts) => all_fit(parts, names, variables, now),
        Core::Disjunction(_, parts) => all_fit(parts, names, variables, now),
        Core::Destructure(_, openings, body) => {
            are_bound(openings, names)
                && fits_within(body, with_items(openings, names), variables, now)
        }
        Core::CheckPattern(_, _, set) => fits_within(set, names, variables, now),
        Core::Literal(_) => true,
    }
}

/// Whether the names and variables of each part exist.
#[cycle(fits)]
fn all_fit(parts: &[Core], names: Option<usize>, variables: usize, now: bool) -> bool
    ensures { (n : ℕ)
        → Counts names n
        → result ≡ list_all (λ (e : Expr). fits e n variables now) (map expr_of parts.now) }
{
    for part in parts {
        if !fits_within(part, names, variables, now) {
            return false;
        }
    }
    true
}

/// Whether the names and variables of each field exist.
#[cycle(fits)]
fn fields_fit(fields: &[(Text, Core)], names: Option<usize>, variables: usize, now: bool) -> bool
    ensures { (n : ℕ)
        → Counts names n
        → result
        ≡ list_all (λ (e : Expr). fits e n variables now)
        (map (λ (f : List ℕ × Core). expr_of f.1) fields.now) }
{
    for field in fields {
        if !fits_within(&field.1, names, variables, now) {
            return false;
        }
    }
    true
}

/// Whether the names and variables of each arm exist.
#[cycle(fits)]
fn arms_fit(arms: &[(Core, Core)], names: Option<usize>, variables: usize, now: bool) -> bool
    ensures { (n : ℕ)
        → Counts names n
        → result
        ≡ list_all (λ (a : Expr × Expr). fits a.0 n variables now && fits a.1 n variables now)
        (map exprs_of_arm arms.now) }
{
    for arm in arms {
        if !fits_within(&arm.0, names, variables, now) {
            return false;
        }
        if !fits_within(&arm.1, names, variables, now) {
            return false;
        }
    }
    true
}

/// Whether the names and variables of each update exist.
#[cycle(fits)]
fn updates_fit(
    updates: &[(Vec<Core>, Core)],
    names: Option<usize>,
    variables: usize,
    now: bool,
) -> bool
    ensures { (n : ℕ)
        → Counts names n
        → result ≡ list_all (update_fits n variables now) updates.now }
{
    for update in updates {
        if !all_fit(update.0.as_slice(), names, variables, now) {
            return false;
        }
        if !fits_within(&update.1, with_more(names, 1), variables, now) {
            return false;
        }
    }
    true
}
