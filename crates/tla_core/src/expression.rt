//! Expressions after expansion.
ghost use Rattle.std.specs.Prelude.{◌≡◌};

use crate::fault::Place;
use crate::literal::Literal;
use tla_value::{Text, Value};

/// An operator on one value.
#[derive(Clone, Copy, Debug, PartialEq, Eq)]
pub enum Unary {
    /// `~`
    Not,
    /// prefix `-`
    Negate,
    /// `UNION`
    Union,
    /// `DOMAIN`
    Domain,
    Len,
    Head,
    Tail,
    IsFinite,
    Cardinality,
}

/// An operator on two values.
#[derive(Clone, Copy, Debug, PartialEq, Eq)]
pub enum Binary {
    /// `<=>`
    Iff,
    /// `#`
    Unequal,
    Add,
    Subtract,
    Multiply,
    /// `\div`
    Divide,
    /// `%`
    Modulo,
    /// `^`
    Power,
    LessThan,
    GreaterThan,
    /// `<=`
    AtMost,
    /// `>=`
    AtLeast,
    /// `..`
    Range,
    /// `:>`
    Single,
    /// `@@`
    Override,
    /// `\o`
    Concat,
    Append,
}

/// An infinite set of all values of one kind.
#[derive(Clone, Copy, Debug, PartialEq, Eq)]
pub enum Kind {
    /// `Nat`
    Naturals,
    /// `Int`
    Integers,
    /// `STRING`
    Strings,
}

/// A bound name whose element a tuple pattern destructures into this many items.
#[derive(Clone, Copy, Debug, PartialEq, Eq)]
pub struct Opening {
    pub name: usize,
    pub items: usize,
}

/// An expression in which definitions are expanded and primes are pushed down to the variables. Each node has the place
/// of the expression's first token.
#[derive(Drop)]
pub enum Core {
    Constant(Place, Value),
    /// A bound name. The outermost is 0.
    Bound(Place, usize),
    /// A variable's present value.
    Now(Place, usize),
    /// A variable's next value.
    Next(Place, usize),
    Unary(Place, Unary, Box<Core>),
    Binary(Place, Binary, Box<Core>, Box<Core>),
    /// `f[e]`
    Apply(Place, Box<Core>, Box<Core>),
    Equal(Place, Box<Core>, Box<Core>),
    /// `r.a`
    Field(Place, Text, Box<Core>),
    /// The sequence, and the first and the last index.
    SubSeq(Place, Box<Core>, Box<Core>, Box<Core>),
    /// `{e, ..}`
    Enumerated(Place, Vec<Core>),
    /// `<<e, ..>>`
    Tuple(Place, Vec<Core>),
    /// `[a |-> e, ..]`: of two fields with one name the first counts.
    Record(Place, Vec<(Text, Core)>),
    /// `/\`, and a list of its bullets
    Conjunction(Place, Vec<Core>),
    /// `\/`, and a list of its bullets
    Disjunction(Place, Vec<Core>),
    Implies(Place, Box<Core>, Box<Core>),
    /// The condition, and the arms for TRUE and FALSE.
    If(Place, Box<Core>, Box<Core>, Box<Core>),
    /// The arms, each a condition and a value, and the value of OTHER.
    Cases(Place, Vec<(Core, Core)>, Option<Box<Core>>),
    /// The condition, and the message.
    Assert(Place, Box<Core>, Box<Core>),
    /// The set, and the body, in which the element is the next bound name.
    ForAll(Place, Box<Core>, Box<Core>),
    ForSome(Place, Box<Core>, Box<Core>),
    Choose(Place, Box<Core>, Box<Core>),
    /// `{e : x \in S, ..}`: the sets, one for each name, and the body, in which the names are the next bound ones.
    Image(Place, Vec<Core>, Box<Core>),
    /// `[x \in S, .. |-> e]`: the sets, and the body. With several names its arguments are tuples.
    Function(Place, Vec<Core>, Box<Core>),
    /// `[f EXCEPT !p = e, ..]`: the function, and the updates, each the keys of its path and the new value, in which
    /// the old one (`@`) is the next bound name.
    Except(Place, Box<Core>, Vec<(Vec<Core>, Core)>),
    /// The element, and the set.
    Member(Place, Box<Core>, Box<Core>),
    NotMember(Place, Box<Core>, Box<Core>),
    /// `\subseteq`
    Subset(Place, Box<Core>, Box<Core>),
    KindSet(Place, Kind),
    /// `BOOLEAN`
    Booleans(Place),
    /// `Seq(S)`
    Sequences(Place, Box<Core>),
    /// `SUBSET S`
    Power(Place, Box<Core>),
    /// `[S -> T]`
    Functions(Place, Box<Core>, Box<Core>),
    /// `[a : S, ..]`: if a name occurs twice, there is no such set.
    Records(Place, Vec<(Text, Core)>),
    /// `S \X T ..`
    Product(Place, Vec<Core>),
    /// `\cup`
    Cup(Place, Box<Core>, Box<Core>),
    /// `\cap`
    Cap(Place, Box<Core>, Box<Core>),
    /// `\`
    Minus(Place, Box<Core>, Box<Core>),
    /// `{x \in S : p}`: the set, and the body.
    Filter(Place, Box<Core>, Box<Core>),
    /// The elements to destructure, and the body, in which their items are the next bound names.
    Destructure(Place, Vec<Opening>, Box<Core>),
    /// A set whose elements must be sequences of this many items.
    CheckPattern(Place, usize, Box<Core>),
    /// An expression of constants alone, with its value.
    Literal(Literal),
}

impl Core {
    ghost use Rattle.tla_core.specs.Value.{means};
    ghost use Rattle.tla_core.specs.ExprOf.{expr_of};

    /// The place of the expression.
    pub fn place(&self) -> Place
        ensures { result ≡ (means (expr_of self.now)).place }
    {
        *self.lent_place()
    }

    /// The place of the expression, borrowed.
    pub fn lent_place(&self) -> &Place
        ensures { result.now ≡ (means (expr_of self.now)).place }
    {
        match self {
            Core::Constant(place, _) => place,
            Core::Bound(place, _) => place,
            Core::Now(place, _) => place,
            Core::Next(place, _) => place,
            Core::Unary(place, _, _) => place,
            Core::Binary(place, _, _, _) => place,
            Core::Apply(place, _, _) => place,
            Core::Equal(place, _, _) => place,
            Core::Field(place, _, _) => place,
            Core::SubSeq(place, _, _, _) => place,
            Core::Enumerated(place, _) => place,
            Core::Tuple(place, _) => place,
            Core::Record(place, _) => place,
            Core::Conjunction(place, _) => place,
            Core::Disjunction(place, _) => place,
            Core::Implies(place, _, _) => place,
            Core::If(place, _, _, _) => place,
            Core::Cases(place, _, _) => place,
            Core::Assert(place, _, _) => place,
            Core::ForAll(place, _, _) => place,
            Core::ForSome(place, _, _) => place,
            Core::Choose(place, _, _) => place,
            Core::Image(place, _, _) => place,
            Core::Function(place, _, _) => place,
            Core::Except(place, _, _) => place,
            Core::Member(place, _, _) => place,
            Core::NotMember(place, _, _) => place,
            Core::Subset(place, _, _) => place,
            Core::KindSet(place, _) => place,
            Core::Booleans(place) => place,
            Core::Sequences(place, _) => place,
            Core::Power(place, _) => place,
            Core::Functions(place, _, _) => place,
            Core::Records(place, _) => place,
            Core::Product(place, _) => place,
            Core::Cup(place, _, _) => place,
            Core::Cap(place, _, _) => place,
            Core::Minus(place, _, _) => place,
            Core::Filter(place, _, _) => place,
            Core::Destructure(place, _, _) => place,
            Core::CheckPattern(place, _, _) => place,
            Core::Literal(literal) => literal.lent_place(),
        }
    }
}
