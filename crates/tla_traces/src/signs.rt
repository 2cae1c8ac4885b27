//! The symbol of an expression's operator or form.

use tla_core::{Binary, Core, Kind, Unary};
use tla_tree::{Brackets, Bullet, Constant, Expr, Infix, Prefix, Quantifier, Written};

/// The symbol of the operator or form of a node; empty for a name, a number or a string.
pub fn sign_of(core: &Core) -> &'static str {
    match core {
        Core::Unary(_, operator, _) => unary_sign(*operator),
        Core::Binary(_, operator, _, _) => binary_sign(*operator),
        Core::Apply(_, _, _) => "[ ]",
        Core::Equal(_, _, _) => "=",
        Core::Field(_, _, _) => ".",
        Core::SubSeq(_, _, _, _) => "SubSeq",
        Core::Enumerated(_, _) => "{ }",
        Core::Tuple(_, _) => "<< >>",
        Core::Record(_, _) => "[ |-> ]",
        Core::Conjunction(_, _) => "/\\",
        Core::Disjunction(_, _) => "\\/",
        Core::Implies(_, _, _) => "=>",
        Core::If(_, _, _, _) => "IF",
        Core::Cases(_, _, _) => "CASE",
        Core::Assert(_, _, _) => "Assert",
        Core::ForAll(_, _, _) => "\\A",
        Core::ForSome(_, _, _) => "\\E",
        Core::Choose(_, _, _) => "CHOOSE",
        Core::Image(_, _, _) => "{ : \\in }",
        Core::Function(_, _, _) => "[ \\in |-> ]",
        Core::Except(_, _, _) => "EXCEPT",
        _ => set_sign(core),
    }
}

fn set_sign(core: &Core) -> &'static str {
    match core {
        Core::Member(_, _, _) => "\\in",
        Core::NotMember(_, _, _) => "\\notin",
        Core::Subset(_, _, _) => "\\subseteq",
        Core::KindSet(_, Kind::Naturals) => "Nat",
        Core::KindSet(_, Kind::Integers) => "Int",
        Core::KindSet(_, Kind::Strings) => "STRING",
        Core::Booleans(_) => "BOOLEAN",
        Core::Sequences(_, _) => "Seq",
        Core::Power(_, _) => "SUBSET",
        Core::Functions(_, _, _) => "[ -> ]",
        Core::Records(_, _) => "[ : ]",
        Core::Product(_, _) => "\\X",
        Core::Cup(_, _, _) => "\\cup",
        Core::Cap(_, _, _) => "\\cap",
        Core::Minus(_, _, _) => "\\",
        Core::Filter(_, _, _) => "{ \\in : }",
        _ => "",
    }
}

fn unary_sign(operator: Unary) -> &'static str {
    match operator {
        Unary::Not => "~",
        Unary::Negate => "-",
        Unary::Union => "UNION",
        Unary::Domain => "DOMAIN",
        Unary::Len => "Len",
        Unary::Head => "Head",
        Unary::Tail => "Tail",
        Unary::IsFinite => "IsFiniteSet",
        Unary::Cardinality => "Cardinality",
    }
}

fn binary_sign(operator: Binary) -> &'static str {
    match operator {
        Binary::Iff => "<=>",
        Binary::Unequal => "#",
        Binary::Add => "+",
        Binary::Subtract => "-",
        Binary::Multiply => "*",
        Binary::Divide => "\\div",
        Binary::Modulo => "%",
        Binary::Power => "^",
        Binary::LessThan => "<",
        Binary::GreaterThan => ">",
        Binary::AtMost => "<=",
        Binary::AtLeast => ">=",
        Binary::Range => "..",
        Binary::Single => ":>",
        Binary::Override => "@@",
        Binary::Concat => "\\o",
        Binary::Append => "Append",
    }
}

/// The symbol of the operator or form of an expression; empty for a name, a number or a string, and for a form without
/// a node.
pub fn written_sign(expr: &Expr) -> &str {
    match expr {
        Expr::Call(name, _) => word_of(name),
        Expr::Name(name) if is_kind(word_of(name)) => word_of(name),
        Expr::Index(_, _, _) => "[ ]",
        Expr::Field(_, _, _) => ".",
        Expr::Unary(_, operator, _) => prefix_sign(*operator),
        Expr::Binary(_, operator, _, _, _) => infix_sign(*operator),
        Expr::Quantified(_, Quantifier::ForAll, _, _) => "\\A",
        Expr::Quantified(_, Quantifier::Exists, _, _) => "\\E",
        Expr::Choose(_, _, _, _) => "CHOOSE",
        Expr::If(_, _, _, _) => "IF",
        Expr::Case(_, _, _) => "CASE",
        Expr::Junction(_, Bullet::And, _) => "/\\",
        Expr::Junction(_, Bullet::Or, _) => "\\/",
        Expr::Product(_, _, _) => "\\X",
        _ => bracket_sign(expr),
    }
}

fn is_kind(name: &str) -> bool {
    name == "Nat" || name == "Int"
}

fn word_of(name: &Written) -> &str {
    str::from_utf8(name.word.as_bytes()).unwrap_or("")
}

fn bracket_sign(expr: &Expr) -> &'static str {
    match expr {
        Expr::Listing(_, Brackets::Set, _) => "{ }",
        Expr::Listing(_, Brackets::Tuple, _) => "<< >>",
        Expr::Filter(_, _, _, _) => "{ \\in : }",
        Expr::Image(_, _, _) => "{ : \\in }",
        Expr::Function(_, _, _) => "[ \\in |-> ]",
        Expr::FunctionSet(_, _, _) => "[ -> ]",
        Expr::Record(_, _) => "[ |-> ]",
        Expr::RecordSet(_, _) => "[ : ]",
        Expr::Except(_, _, _) => "EXCEPT",
        Expr::Constant(_, Constant::Boolean) => "BOOLEAN",
        Expr::Constant(_, Constant::String) => "STRING",
        _ => "",
    }
}

fn prefix_sign(operator: Prefix) -> &'static str {
    match operator {
        Prefix::Not => "~",
        Prefix::Negate => "-",
        Prefix::Always => "[]",
        Prefix::Eventually => "<>",
        Prefix::Unchanged => "UNCHANGED",
        Prefix::Subset => "SUBSET",
        Prefix::Union => "UNION",
        Prefix::Domain => "DOMAIN",
    }
}

fn infix_sign(operator: Infix) -> &'static str {
    match operator {
        Infix::Implies => "=>",
        Infix::Equivalent => "<=>",
        Infix::LeadsTo => "~>",
        Infix::And => "/\\",
        Infix::Or => "\\/",
        Infix::Equal => "=",
        Infix::NotEqual => "#",
        Infix::Less => "<",
        Infix::Greater => ">",
        Infix::AtMost => "<=",
        Infix::AtLeast => ">=",
        Infix::Member => "\\in",
        Infix::NotMember => "\\notin",
        Infix::SubsetEqual => "\\subseteq",
        Infix::Override => "@@",
        Infix::Pair => ":>",
        Infix::Cup => "\\cup",
        Infix::Cap => "\\cap",
        Infix::Difference => "\\",
        Infix::Range => "..",
        Infix::Plus => "+",
        Infix::Remainder => "%",
        Infix::Minus => "-",
        Infix::Product => "\\X",
        Infix::Times => "*",
        Infix::Quotient => "\\div",
        Infix::Concatenation => "\\o",
        Infix::Power => "^",
    }
}
