//! Whether an expression mentions the next state.
ghost use Rattle.std.specs.Prelude.{◌≡◌};
ghost use Rattle.tla_core.specs.ExprOf.{expr_of, parts_of_cores, fields_of_cores, arms_of_cores, updates_of_cores};
ghost use Rattle.tla_core.specs.Logic.{arms_primed};
ghost use Rattle.tla_core.specs.Functions.{updates_primed};
ghost use Rattle.tla_core.specs.Meaning.{any_primed};
ghost use Rattle.tla_value.specs.Choices.{parts_of};
ghost use Rattle.tla_core.specs.Value.{means};

use crate::expression::Core;
use tla_value::Text;

impl Core {
    ghost use Rattle.tla_core.specs.Next.{has_next};

    /// Whether the next value of a variable occurs in the expression.
    pub fn is_primed(&self) -> bool
        ensures primed { result ≡ (means (expr_of self.now)).primed }
        ensures next { result ≡ has_next (expr_of self.now) }
    {
        has_next(self)
    }
}

#[cycle(primed)]
fn has_next(core: &Core) -> bool
    ensures { result ≡ (means (expr_of core.now)).primed }
{
    match core {
        Core::Next(_, _) => true,
        Core::Constant(_, _)
        | Core::Bound(_, _)
        | Core::Now(_, _)
        | Core::KindSet(_, _)
        | Core::Booleans(_) => false,
        Core::Unary(_, _, operand) => has_next(operand),
        Core::Field(_, _, base) => has_next(base),
        Core::Sequences(_, set) => has_next(set),
        Core::Power(_, set) => has_next(set),
        Core::Binary(_, _, left, right)
        | Core::Apply(_, left, right)
        | Core::Equal(_, left, right)
        | Core::Implies(_, left, right)
        | Core::Assert(_, left, right)
        | Core::ForAll(_, left, right)
        | Core::ForSome(_, left, right)
        | Core::Choose(_, left, right)
        | Core::Member(_, left, right)
        | Core::NotMember(_, left, right)
        | Core::Subset(_, left, right)
        | Core::Cup(_, left, right)
        | Core::Cap(_, left, right)
        | Core::Minus(_, left, right)
        | Core::Functions(_, left, right)
        | Core::Filter(_, left, right) => has_next(left) || has_next(right),
        Core::If(_, condition, yes, no) => has_next(condition) || has_next(yes) || has_next(no),
        Core::SubSeq(_, sequence, low, high) => {
            has_next(sequence) || has_next(low) || has_next(high)
        }
        Core::Cases(_, arms, other) => match other {
            None => arms_have_next(arms),
            Some(body) => arms_have_next(arms) || has_next(body),
        },
        Core::Enumerated(_, parts) => some_has_next(parts),
        Core::Tuple(_, parts) => some_has_next(parts),
        Core::Record(_, fields) => fields_have_next(fields),
        Core::Image(_, sets, body) => some_has_next(sets) || has_next(body),
        Core::Function(_, sets, body) => some_has_next(sets) || has_next(body),
        Core::Except(_, function, updates) => has_next(function) || updates_have_next(updates),
        Core::Conjunction(_, parts) => some_has_next(parts),
        Core::Records(_, fields) => fields_have_next(fields),
        Core::Product(_, parts) => some_has_next(parts),
        Core::Disjunction(_, parts) => some_has_next(parts),
        Core::Destructure(_, _, body) => has_next(body),
        Core::CheckPattern(_, _, set) => has_next(set),
        Core::Literal(_) => false,
    }
}

/// Whether the next value of a variable occurs in one of these parts.
#[cycle(primed)]
fn some_has_next(parts: &[Core]) -> bool
    ensures { result ≡ any_primed (parts_of_cores parts.now) }
{
    for part in parts {
        if has_next(part) {
            return true;
        }
    }
    false
}

/// Whether the next value of a variable occurs in one of these fields.
#[cycle(primed)]
fn fields_have_next(fields: &[(Text, Core)]) -> bool
    ensures { result ≡ any_primed (parts_of (fields_of_cores fields.now)) }
{
    for field in fields {
        if has_next(&field.1) {
            return true;
        }
    }
    false
}

/// Whether the next value of a variable occurs in one of these arms.
#[cycle(primed)]
fn arms_have_next(arms: &[(Core, Core)]) -> bool
    ensures { result ≡ arms_primed (arms_of_cores arms.now) }
{
    for arm in arms {
        if has_next(&arm.0) || has_next(&arm.1) {
            return true;
        }
    }
    false
}

/// Whether the next value of a variable occurs in one of these updates.
#[cycle(primed)]
fn updates_have_next(updates: &[(Vec<Core>, Core)]) -> bool
    ensures { result ≡ updates_primed (updates_of_cores updates.now) }
{
    for update in updates {
        if some_has_next(update.0.as_slice()) || has_next(&update.1) {
            return true;
        }
    }
    false
}
