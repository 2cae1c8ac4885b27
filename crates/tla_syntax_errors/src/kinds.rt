//! The roles of tokens in expressions and units.

use tla_lex::Kind;

/// Whether an expression may end with a token.
pub(crate) fn ends_operand(kind: Kind) -> bool {
    matches!(
        kind,
        Kind::Name
            | Kind::Number(_)
            | Kind::Text
            | Kind::RightParen
            | Kind::RightBracket
            | Kind::RightBrace
            | Kind::RightTuple
            | Kind::Prime
            | Kind::At
            | Kind::True
            | Kind::False
            | Kind::Boolean
            | Kind::String
    )
}

/// Whether an expression begins with a token that is no operator.
pub(crate) fn begins_operand(kind: Kind) -> bool {
    matches!(
        kind,
        Kind::Name
            | Kind::Number(_)
            | Kind::Text
            | Kind::LeftParen
            | Kind::LeftBracket
            | Kind::LeftBrace
            | Kind::LeftTuple
            | Kind::At
            | Kind::True
            | Kind::False
            | Kind::Boolean
            | Kind::String
            | Kind::If
            | Kind::Let
            | Kind::Case
            | Kind::Choose
            | Kind::ForAll
            | Kind::Exists
            | Kind::Not
            | Kind::Subset
            | Kind::Union
            | Kind::Domain
            | Kind::Unchanged
            | Kind::WeakFairness
            | Kind::StrongFairness
    )
}

/// Whether an expression may begin with an operator.
pub(crate) fn may_begin_operand(kind: Kind) -> bool {
    begins_operand(kind)
        || matches!(
            kind,
            Kind::And | Kind::Or | Kind::Minus | Kind::Box | Kind::Diamond
        )
}

/// Whether a token begins a unit, or ends the module.
pub(crate) fn begins_unit(kind: Kind) -> bool {
    matches!(
        kind,
        Kind::Closing
            | Kind::Separator
            | Kind::Variable
            | Kind::Constant
            | Kind::Assume
            | Kind::Theorem
            | Kind::Extends
            | Kind::Local
    )
}

/// Whether a token closes something that is open before it.
pub(crate) fn closes(kind: Kind) -> bool {
    matches!(
        kind,
        Kind::RightParen
            | Kind::RightBracket
            | Kind::RightBracketSubscript
            | Kind::RightBrace
            | Kind::RightTuple
            | Kind::RightTupleSubscript
            | Kind::Then
            | Kind::Else
            | Kind::In
    )
}
