//! How the value of an expression is used: a set that is only tested for members isn't built. This affects only time.

use crate::measures::is_expensive;
use tla_code::{BinderForm, Code, FieldForm, ListForm, OneForm, ThreeForm, TwoForm};
use tla_core::Binary;

/// How the value of an expression is used.
#[derive(Clone, Copy)]
pub(crate) enum Usage {
    Value,
    /// For membership tests. Some forms decide them without their value.
    Members,
    /// To iterate over its elements. A range isn't built for that.
    Elements,
}

/// The position of a part: the number of names bound between the whole and the part, and how its value is used.
#[derive(Clone, Copy)]
pub(crate) struct Position {
    pub(crate) by: usize,
    pub(crate) usage: Usage,
}

pub(crate) fn position_at(by: usize, usage: Usage) -> Position {
    Position { by, usage }
}

/// The same position, with another use of the value.
pub(crate) fn with_usage(spot: Position, usage: Usage) -> Position {
    Position { by: spot.by, usage }
}

/// The position of a body under `more` names. Its value is used.
pub(crate) fn under(spot: Position, more: usize) -> Position {
    Position {
        by: spot.by.saturating_add(more),
        usage: Usage::Value,
    }
}

/// Whether an expression, at its position, is worth a definition.
pub(crate) fn is_candidate(code: &Code<'_>, usage: Usage) -> bool {
    match usage {
        Usage::Value => is_expensive(code),
        Usage::Members => !has_membership_test(code) && is_expensive(code),
        Usage::Elements => !is_range(code) && is_expensive(code),
    }
}

/// Whether membership in this form is decided without its value.
fn has_membership_test(code: &Code<'_>) -> bool {
    match code {
        Code::One(_, form, _) => matches!(form, OneForm::Power | OneForm::Sequences),
        Code::Two(_, form, _, _) => {
            is_range(code)
                || matches!(
                    form,
                    TwoForm::Functions | TwoForm::Cup | TwoForm::Cap | TwoForm::Minus
                )
        }
        Code::Three(_, form, _, _, _) => matches!(form, ThreeForm::If),
        Code::List(_, form, _) => matches!(
            form,
            ListForm::Enumerated | ListForm::Product | ListForm::Cases
        ),
        Code::Fields(_, form, _) => matches!(form, FieldForm::Records),
        Code::Binder(_, form, _, _) => matches!(form, BinderForm::Filter),
        _ => false,
    }
}

fn is_range(code: &Code<'_>) -> bool {
    match code {
        Code::Two(_, TwoForm::Operator(Binary::Range), _, _) => true,
        _ => false,
    }
}

/// The use of an operand that is tested for members if the whole is.
fn inherited(usage: Usage) -> Usage {
    match usage {
        Usage::Members => Usage::Members,
        Usage::Value | Usage::Elements => Usage::Value,
    }
}

/// The use of the operand of a form with one.
pub(crate) fn operand_usage(form: OneForm<'_>, usage: Usage) -> Usage {
    match form {
        OneForm::Power | OneForm::Sequences => inherited(usage),
        _ => Usage::Value,
    }
}

/// The use of the first of two operands.
pub(crate) fn first_usage(form: TwoForm, usage: Usage) -> Usage {
    match form {
        TwoForm::Cup | TwoForm::Cap | TwoForm::Minus => inherited(usage),
        _ => Usage::Value,
    }
}

/// The use of the second of two operands.
pub(crate) fn second_usage(form: TwoForm, usage: Usage) -> Usage {
    match form {
        TwoForm::Member | TwoForm::NotMember | TwoForm::Subset => Usage::Members,
        TwoForm::Functions | TwoForm::Cup | TwoForm::Cap | TwoForm::Minus => inherited(usage),
        _ => Usage::Value,
    }
}

/// The use of the second and third of three operands.
pub(crate) fn arm_usage(form: ThreeForm, usage: Usage) -> Usage {
    match form {
        ThreeForm::If => inherited(usage),
        ThreeForm::SubSeq => Usage::Value,
    }
}

/// The use of an operand in a list.
pub(crate) fn part_usage(form: ListForm, usage: Usage) -> Usage {
    match form {
        ListForm::Product | ListForm::Cases => inherited(usage),
        _ => Usage::Value,
    }
}

/// The use of an operand with a name.
pub(crate) fn field_usage(form: FieldForm, usage: Usage) -> Usage {
    match form {
        FieldForm::Records => inherited(usage),
        FieldForm::Record => Usage::Value,
    }
}

/// The use of the set of a form that binds a name.
pub(crate) fn set_usage(form: BinderForm, usage: Usage) -> Usage {
    match (form, usage) {
        (BinderForm::Filter, Usage::Members) => Usage::Members,
        (_, _) => Usage::Elements,
    }
}
