//! Trees of syntax.

use crate::word::{Word, Written};
use tla_lex::Place;

/// How deep the tree of an expression may be.
pub const MAX_DEPTH: usize = 200;

/// An infix operator.
#[derive(Clone, Copy, Debug)]
pub enum Infix {
    /// `=>`
    Implies,
    /// `<=>`
    Equivalent,
    /// `~>`
    LeadsTo,
    /// `/\`
    And,
    /// `\/`
    Or,
    /// `=`
    Equal,
    /// `#`
    NotEqual,
    /// `<`
    Less,
    /// `>`
    Greater,
    /// `<=`
    AtMost,
    /// `>=`
    AtLeast,
    /// `\in`
    Member,
    /// `\notin`
    NotMember,
    /// `\subseteq`
    SubsetEqual,
    /// `@@`
    Override,
    /// `:>`
    Pair,
    /// `\cup`
    Cup,
    /// `\cap`
    Cap,
    /// `\`
    Difference,
    /// `..`
    Range,
    /// `+`
    Plus,
    /// `%`
    Remainder,
    /// `-`
    Minus,
    /// `\X`, whose node is `Expr::Product`
    Product,
    /// `*`
    Times,
    /// `\div`
    Quotient,
    /// `\o`
    Concatenation,
    /// `^`
    Power,
}

/// A prefix operator.
#[derive(Clone, Copy, Debug)]
pub enum Prefix {
    /// `~`
    Not,
    /// `-`
    Negate,
    /// `[]`
    Always,
    /// `<>`
    Eventually,
    Unchanged,
    Subset,
    Union,
    Domain,
}

/// The bullet of a junction list.
#[derive(Clone, Copy, Debug)]
pub enum Bullet {
    And,
    Or,
}

/// `\A` or `\E`.
#[derive(Clone, Copy, Debug)]
pub enum Quantifier {
    ForAll,
    Exists,
}

/// A word that is a value.
#[derive(Clone, Copy, Debug)]
pub enum Constant {
    True,
    False,
    Boolean,
    String,
}

/// The brackets around a list of expressions.
#[derive(Clone, Copy, Debug)]
pub enum Brackets {
    /// `{` and `}`
    Set,
    /// `<<` and `>>`
    Tuple,
}

/// The brackets of an action with a subscript.
#[derive(Clone, Copy, Debug)]
pub enum Step {
    /// `[A]_v`
    Box,
    /// `<<A>>_v`
    Angle,
}

/// `WF` or `SF`.
#[derive(Clone, Copy, Debug)]
pub enum Fairness {
    Weak,
    Strong,
}

/// What an entry of a binder has before `\in`: one or more names.
#[derive(Drop)]
pub enum Pattern {
    /// `x, y`: each name is an element.
    Each(Vec<Written>),
    /// `<<x, y>>`: the names are the items of an element.
    Tuple(Vec<Written>),
}

impl Pattern {
    ghost use Rattle.std.specs.Prelude.{◌≡◌};
    ghost use Rattle.tla_tree.specs.View.{pattern_view};
    ghost use Rattle.tla_tree.specs.Tree.{names_of};

    /// The names, in the order of the text.
    pub fn names(&self) -> &[Written]
        ensures { result.now ≡ names_of (pattern_view self.now) }
    {
        match self {
            Pattern::Each(names) => names.as_slice(),
            Pattern::Tuple(names) => names.as_slice(),
        }
    }
}

/// An entry of a binder: `x, y \in S` or `<<x, y>> \in S`.
#[cycle(tree)]
#[derive(Drop)]
pub struct Binder {
    pub pattern: Pattern,
    pub set: Expr,
}

/// An arm of CASE: `p -> e`.
#[cycle(tree)]
#[derive(Drop)]
pub struct Arm {
    pub guard: Expr,
    pub value: Expr,
}

/// A field of a record, `a |-> e`, or of a set of records, `a : S`.
#[cycle(tree)]
#[derive(Drop)]
pub struct Field {
    pub name: Written,
    pub value: Expr,
}

/// A step of the path of an update.
#[cycle(tree)]
#[derive(Drop)]
pub enum Key {
    /// `[e, ..]`, with one or more arguments.
    Index(Vec<Expr>),
    /// `.a`
    Field(Written),
}

/// An update of EXCEPT: `!p = e`, with a path of one or more steps.
#[cycle(tree)]
#[derive(Drop)]
pub struct Update {
    pub path: Vec<Key>,
    pub value: Expr,
}

/// What gives a name a meaning.
#[cycle(tree)]
#[derive(Drop)]
pub enum Definition {
    /// `Op == e`, or `Op(p, ..) == e` with one or more parameters.
    Operator(Written, Vec<Written>, Expr),
    /// `f[x \in S, ..] == e`
    Function(Written, Vec<Binder>, Expr),
}

/// An expression. Each node has the place of its first token.
#[cycle(tree)]
#[derive(Drop)]
pub enum Expr {
    /// A name alone.
    Name(Written),
    Number(Place, u64),
    /// A string, with its escapes read.
    Text(Place, Word),
    Constant(Place, Constant),
    /// `@`, in an update of EXCEPT.
    At(Place),
    /// `(e)`
    Paren(Place, Box<Expr>),
    /// `{e, ..}` or `<<e, ..>>`
    Listing(Place, Brackets, Vec<Expr>),
    /// `Op(e, ..)`, with one or more arguments.
    Call(Written, Vec<Expr>),
    /// `e'`
    Prime(Place, Box<Expr>),
    /// `f[e, ..]`, with one or more arguments.
    Index(Place, Box<Expr>, Vec<Expr>),
    /// `r.a`
    Field(Place, Box<Expr>, Written),
    /// A prefix operator and its operand.
    Unary(Place, Prefix, Box<Expr>),
    /// An infix operator between its operands, with its text and its place.
    Binary(Place, Infix, Written, Box<Expr>, Box<Expr>),
    /// `\A x, y \in S, z \in T : p`
    Quantified(Place, Quantifier, Vec<Binder>, Box<Expr>),
    /// `CHOOSE x \in S : p`, with one name, or a tuple of names.
    Choose(Place, Pattern, Box<Expr>, Box<Expr>),
    /// `IF p THEN a ELSE b`
    If(Place, Box<Expr>, Box<Expr>, Box<Expr>),
    /// `CASE p -> a [] .. [] OTHER -> b`, with one or more arms, with or without OTHER.
    Case(Place, Vec<Arm>, Option<Box<Expr>>),
    /// `LET` one definition or more `IN e`
    Let(Place, Vec<Definition>, Box<Expr>),
    /// A junction list of one or more items.
    Junction(Place, Bullet, Vec<Expr>),
    /// `{x \in S : p}`, with one name, or a tuple of names.
    Filter(Place, Pattern, Box<Expr>, Box<Expr>),
    /// `{e : x, y \in S, z \in T}`
    Image(Place, Box<Expr>, Vec<Binder>),
    /// `[x, y \in S, z \in T |-> e]`
    Function(Place, Vec<Binder>, Box<Expr>),
    /// `[S -> T]`
    FunctionSet(Place, Box<Expr>, Box<Expr>),
    /// `[a |-> e, ..]`, with one or more fields.
    Record(Place, Vec<Field>),
    /// `[a : S, ..]`, with one or more fields.
    RecordSet(Place, Vec<Field>),
    /// `[f EXCEPT !p = e, ..]`, with one or more updates.
    Except(Place, Box<Expr>, Vec<Update>),
    /// `[A]_v` or `<<A>>_v`: the action, and the subscript.
    Action(Place, Step, Box<Expr>, Box<Expr>),
    /// `WF_v(A)` or `SF_v(A)`: the subscript, and the action.
    Fair(Place, Fairness, Box<Expr>, Box<Expr>),
    /// `a \X b \X ..`: the first operand, and one or more others.
    Product(Place, Box<Expr>, Vec<Expr>),
}

impl Expr {
    ghost use Rattle.std.specs.Prelude.{◌≡◌};
    ghost use Rattle.tla_tree.specs.View.{view};
    ghost use Rattle.tla_tree.specs.Places.{place};

    /// The place of the tree's first token.
    pub fn place(&self) -> Place
        ensures { result ≡ place (view self.now) }
    {
        match self {
            Expr::Name(name) => name.place,
            Expr::Number(at, _) => *at,
            Expr::Constant(at, _) => *at,
            Expr::At(at) => *at,
            Expr::Text(at, _) => *at,
            Expr::Paren(at, _) => *at,
            Expr::Listing(at, _, _) => *at,
            Expr::Call(name, _) => name.place,
            Expr::Prime(at, _) => *at,
            Expr::Index(at, _, _) => *at,
            Expr::Field(at, _, _) => *at,
            Expr::Unary(at, _, _) => *at,
            Expr::Binary(at, _, _, _, _) => *at,
            Expr::Quantified(at, _, _, _) => *at,
            Expr::Choose(at, _, _, _) => *at,
            Expr::If(at, _, _, _) => *at,
            Expr::Case(at, _, _) => *at,
            Expr::Let(at, _, _) => *at,
            Expr::Junction(at, _, _) => *at,
            Expr::Filter(at, _, _, _) => *at,
            Expr::Image(at, _, _) => *at,
            Expr::Function(at, _, _) => *at,
            Expr::FunctionSet(at, _, _) => *at,
            Expr::Record(at, _) => *at,
            Expr::RecordSet(at, _) => *at,
            Expr::Except(at, _, _) => *at,
            Expr::Action(at, _, _, _) => *at,
            Expr::Fair(at, _, _, _) => *at,
            Expr::Product(at, _, _) => *at,
        }
    }
}
