//! The operators that have an expansion.

ghost use Rattle.std.specs.Prelude.{◌≡◌};
ghost use Rattle.tla_scopes.specs.Operators as operators;
ghost use Rattle.tla_scopes.specs.Library.{library};

use crate::nodes::{BinaryNode, Builtin, TernaryNode, UnaryNode};
use tla_core::{Binary, Kind, Unary};
use tla_tree::{Infix, Prefix};

/// The node of one part that a prefix operator becomes.
pub(crate) fn prefix_for<'a>(operator: Prefix) -> Option<UnaryNode<'a>>
    ensures { result ≡ operators.prefix_for operator }
{
    match operator {
        Prefix::Not => Some(UnaryNode::Unary(Unary::Not)),
        Prefix::Negate => Some(UnaryNode::Unary(Unary::Negate)),
        Prefix::Subset => Some(UnaryNode::Power),
        Prefix::Union => Some(UnaryNode::Unary(Unary::Union)),
        Prefix::Domain => Some(UnaryNode::Unary(Unary::Domain)),
        Prefix::Always | Prefix::Eventually | Prefix::Unchanged => None,
    }
}

/// The node of two parts that an infix operator becomes.
pub(crate) fn infix_for(operator: Infix) -> Option<BinaryNode>
    ensures { result ≡ operators.infix_for operator }
{
    match operator {
        Infix::And => Some(BinaryNode::And),
        Infix::Or => Some(BinaryNode::Or),
        Infix::Implies => Some(BinaryNode::Implies),
        Infix::Equal => Some(BinaryNode::Equal),
        Infix::Member => Some(BinaryNode::Member),
        Infix::NotMember => Some(BinaryNode::NotMember),
        Infix::SubsetEqual => Some(BinaryNode::Subset),
        Infix::Cup => Some(BinaryNode::Cup),
        Infix::Cap => Some(BinaryNode::Cap),
        Infix::Difference => Some(BinaryNode::Minus),
        Infix::Equivalent => Some(BinaryNode::Binary(Binary::Iff)),
        Infix::NotEqual => Some(BinaryNode::Binary(Binary::Unequal)),
        Infix::Less => Some(BinaryNode::Binary(Binary::LessThan)),
        Infix::Greater => Some(BinaryNode::Binary(Binary::GreaterThan)),
        Infix::AtMost => Some(BinaryNode::Binary(Binary::AtMost)),
        Infix::AtLeast => Some(BinaryNode::Binary(Binary::AtLeast)),
        Infix::Plus => Some(BinaryNode::Binary(Binary::Add)),
        Infix::Minus => Some(BinaryNode::Binary(Binary::Subtract)),
        Infix::Times => Some(BinaryNode::Binary(Binary::Multiply)),
        Infix::Quotient => Some(BinaryNode::Binary(Binary::Divide)),
        Infix::Remainder => Some(BinaryNode::Binary(Binary::Modulo)),
        Infix::Power => Some(BinaryNode::Binary(Binary::Power)),
        Infix::Range => Some(BinaryNode::Binary(Binary::Range)),
        Infix::Pair => Some(BinaryNode::Binary(Binary::Single)),
        Infix::Override => Some(BinaryNode::Binary(Binary::Override)),
        Infix::Concatenation => Some(BinaryNode::Binary(Binary::Concat)),
        Infix::Product => None,
        Infix::LeadsTo => None,
    }
}

/// The operator of a module that has this name.
pub fn builtin_for(name: &[u8]) -> Option<Builtin>
    ensures { result ≡ library name.now }
{
    if name == b"Nat".as_slice() {
        Some(Builtin::Kinds(Kind::Naturals))
    } else if name == b"Int".as_slice() {
        Some(Builtin::Kinds(Kind::Integers))
    } else if name == b"Seq".as_slice() {
        Some(Builtin::Sequences)
    } else if name == b"Len".as_slice() {
        Some(Builtin::One(Unary::Len))
    } else if name == b"Head".as_slice() {
        Some(Builtin::One(Unary::Head))
    } else if name == b"Tail".as_slice() {
        Some(Builtin::One(Unary::Tail))
    } else if name == b"Append".as_slice() {
        Some(Builtin::Two(BinaryNode::Binary(Binary::Append)))
    } else if name == b"SubSeq".as_slice() {
        Some(Builtin::Three(TernaryNode::SubSeq))
    } else if name == b"IsFiniteSet".as_slice() {
        Some(Builtin::One(Unary::IsFinite))
    } else if name == b"Cardinality".as_slice() {
        Some(Builtin::One(Unary::Cardinality))
    } else if name == b"Assert".as_slice() {
        Some(Builtin::Two(BinaryNode::Assert))
    } else {
        None
    }
}
