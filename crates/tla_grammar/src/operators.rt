//! Operators and the edges of trees.

ghost use Rattle.std.specs.Prelude.{◌≡◌};
ghost use Rattle.tla_tree.specs.View.{view};
ghost use Rattle.tla_grammar.specs.Operators as operators;
ghost use Rattle.tla_grammar.specs.Edges as edges;

use tla_lex::Kind;
use tla_tree::{Bullet, Constant, Expr, Infix, Prefix, Quantifier};

/// The low end of the operator's range.
pub fn low(op: Infix) -> u8
    ensures { result ≡ operators.low op }
{
    match op {
        Infix::Implies => 1,
        Infix::Equivalent | Infix::LeadsTo => 2,
        Infix::And | Infix::Or => 3,
        Infix::Equal
        | Infix::NotEqual
        | Infix::Less
        | Infix::Greater
        | Infix::AtMost
        | Infix::AtLeast
        | Infix::Member
        | Infix::NotMember
        | Infix::SubsetEqual => 5,
        Infix::Override => 6,
        Infix::Pair => 7,
        Infix::Cup | Infix::Cap | Infix::Difference => 8,
        Infix::Range => 9,
        Infix::Plus | Infix::Remainder | Infix::Product => 10,
        Infix::Minus => 11,
        Infix::Times | Infix::Quotient | Infix::Concatenation => 13,
        Infix::Power => 14,
    }
}

/// The high end of the operator's range.
pub fn high(op: Infix) -> u8
    ensures { result ≡ operators.high op }
{
    match op {
        Infix::Remainder => 11,
        Infix::Product => 13,
        other => low(other),
    }
}

/// The low end of the prefix operator's range.
pub fn prefix_low(op: Prefix) -> u8
    ensures { result ≡ operators.prefix_low op }
{
    match op {
        Prefix::Not | Prefix::Always | Prefix::Eventually | Prefix::Unchanged => 4,
        Prefix::Subset | Prefix::Union => 8,
        Prefix::Domain => 9,
        Prefix::Negate => 12,
    }
}

/// The high end of the prefix operator's range.
pub fn prefix_high(op: Prefix) -> u8
    ensures { result ≡ operators.prefix_high op }
{
    match op {
        Prefix::Not => 4,
        Prefix::Subset | Prefix::Union => 8,
        Prefix::Domain => 9,
        Prefix::Negate => 12,
        Prefix::Always | Prefix::Eventually | Prefix::Unchanged => 15,
    }
}

/// A number for each operator that groups to the left, and 0 for the others.
fn left_group(op: Infix) -> u8
    ensures { result ≡ operators.left_group op }
{
    match op {
        Infix::And => 1,
        Infix::Or => 2,
        Infix::Cup => 3,
        Infix::Cap => 4,
        Infix::Override => 5,
        Infix::Plus => 6,
        Infix::Minus => 7,
        Infix::Times => 8,
        Infix::Concatenation => 9,
        Infix::Remainder => 10,
        _ => 0,
    }
}

/// Whether it is `\X`, which makes one product of all its operands.
pub fn is_product(op: Infix) -> bool
    ensures { result ≡ operators.is_product op }
{
    matches!(op, Infix::Product)
}

/// Whether the first operator is above the second, or is the second and groups to the left.
fn yields(first: Infix, second: Infix) -> bool
    ensures { result ≡ edges.yields first second }
{
    high(second) < low(first) || (0 < left_group(first) && left_group(first) == left_group(second))
}

/// The infix operator of a token of this kind.
pub fn infix_of(kind: Kind) -> Option<Infix>
    ensures { result ≡ operators.infix_of kind }
{
    match kind {
        Kind::Implies => Some(Infix::Implies),
        Kind::Equivalent => Some(Infix::Equivalent),
        Kind::LeadsTo => Some(Infix::LeadsTo),
        Kind::And => Some(Infix::And),
        Kind::Or => Some(Infix::Or),
        Kind::Equal => Some(Infix::Equal),
        Kind::NotEqual => Some(Infix::NotEqual),
        Kind::Less => Some(Infix::Less),
        Kind::Greater => Some(Infix::Greater),
        Kind::AtMost => Some(Infix::AtMost),
        Kind::AtLeast => Some(Infix::AtLeast),
        Kind::Member => Some(Infix::Member),
        Kind::NotMember => Some(Infix::NotMember),
        Kind::SubsetEqual => Some(Infix::SubsetEqual),
        Kind::Override => Some(Infix::Override),
        Kind::Pair => Some(Infix::Pair),
        Kind::Cup => Some(Infix::Cup),
        Kind::Cap => Some(Infix::Cap),
        Kind::Difference => Some(Infix::Difference),
        Kind::Range => Some(Infix::Range),
        Kind::Plus => Some(Infix::Plus),
        Kind::Remainder => Some(Infix::Remainder),
        Kind::Minus => Some(Infix::Minus),
        Kind::Product => Some(Infix::Product),
        Kind::Times => Some(Infix::Times),
        Kind::Quotient => Some(Infix::Quotient),
        Kind::Concatenation => Some(Infix::Concatenation),
        Kind::Power => Some(Infix::Power),
        _ => None,
    }
}

/// The operator that a token of this kind writes before an operand.
pub fn prefix_of(kind: Kind) -> Option<Prefix>
    ensures { result ≡ operators.prefix_of kind }
{
    match kind {
        Kind::Not => Some(Prefix::Not),
        Kind::Minus => Some(Prefix::Negate),
        Kind::Box => Some(Prefix::Always),
        Kind::Diamond => Some(Prefix::Eventually),
        Kind::Unchanged => Some(Prefix::Unchanged),
        Kind::Subset => Some(Prefix::Subset),
        Kind::Union => Some(Prefix::Union),
        Kind::Domain => Some(Prefix::Domain),
        _ => None,
    }
}

/// The bullet that a token of this kind is, where it begins an item.
pub fn bullet_of(kind: Kind) -> Option<Bullet>
    ensures { result ≡ operators.bullet_of kind }
{
    match kind {
        Kind::And => Some(Bullet::And),
        Kind::Or => Some(Bullet::Or),
        _ => None,
    }
}

/// The quantifier that a token of this kind writes.
pub fn quantifier_of(kind: Kind) -> Option<Quantifier>
    ensures { result ≡ operators.quantifier_of kind }
{
    match kind {
        Kind::ForAll => Some(Quantifier::ForAll),
        Kind::Exists => Some(Quantifier::Exists),
        _ => None,
    }
}

/// The constant that a token of this kind writes.
pub fn constant_of(kind: Kind) -> Option<Constant>
    ensures { result ≡ operators.constant_of kind }
{
    match kind {
        Kind::True => Some(Constant::True),
        Kind::False => Some(Constant::False),
        Kind::Boolean => Some(Constant::Boolean),
        Kind::String => Some(Constant::String),
        _ => None,
    }
}

/// Whether the tree may be the left operand of the operator, by its right edge.
pub fn edge_allows(tree: &Expr, op: Infix) -> bool
    ensures { result ≡ edges.edge_allows (view tree.now) op }
{
    match tree {
        Expr::Binary(_, first, _, _, right) => yields(*first, op) && edge_allows(right, op),
        Expr::Unary(_, first, operand) => {
            high(op) < prefix_low(*first) && edge_allows(operand, op)
        }
        Expr::Quantified(_, _, _, _)
        | Expr::Choose(_, _, _, _)
        | Expr::If(_, _, _, _)
        | Expr::Case(_, _, _)
        | Expr::Let(_, _, _) => false,
        Expr::Product(_, _, others) => {
            yields(Infix::Product, op)
                && match others.last() {
                    Some(last) => edge_allows(last, op),
                    None => true,
                }
        }
        _ => true,
    }
}
