//! The nodes that forms make of their parts, and forms with their parts.

use tla_core::{Binary, Kind, Place, Unary};
use tla_tree::{Arm, Binder, Constant, Expr, Field, Pattern, Step, Update, Word};
use tla_value::Value;

/// A node without parts.
#[derive(Clone, Copy)]
pub enum Leaf<'a> {
    Number(u64),
    Text(&'a Word),
    Word(Constant),
    /// A bound name. The outermost is 0.
    Bound(usize),
    Value(&'a Value),
    Kinds(Kind),
}

/// A node of one part.
#[derive(Clone, Copy)]
pub enum UnaryNode<'a> {
    Unary(Unary),
    /// `SUBSET S`
    Power,
    /// `Seq(S)`
    Sequences,
    /// `r.a`
    Field(&'a Word),
}

/// A node of two parts.
#[derive(Clone, Copy)]
pub enum BinaryNode {
    Binary(Binary),
    /// `f[e]`
    Apply,
    Equal,
    Implies,
    And,
    Or,
    Member,
    NotMember,
    Subset,
    Cup,
    Cap,
    Minus,
    Assert,
    /// `[S -> T]`
    Functions,
}

/// A node of three parts.
#[derive(Clone, Copy)]
pub enum TernaryNode {
    If,
    SubSeq,
}

/// A node of a list of parts.
#[derive(Clone, Copy)]
pub enum ListNode {
    Set,
    Tuple,
    And,
    Or,
    /// `a \X b`
    Product,
}

/// A node of a set and of a body with one more bound name.
#[derive(Clone, Copy)]
pub enum Binding {
    ForAll,
    ForSome,
    Choose,
    /// `{x \in S : p}`
    Filter,
}

/// A node of sets, and of a body that has one more bound name for each.
#[derive(Clone, Copy)]
pub enum Gather {
    /// `{e : x \in S}`
    Image,
    /// `[x \in S |-> e]`
    Function,
}

/// What is made of the names of a binder list, their sets and a body.
#[derive(Clone, Copy)]
pub enum Binders {
    /// One node for each name, one in another.
    Nested(Binding),
    /// One node for all.
    Gathered(Gather),
}

/// A node of a first part and others.
#[derive(Clone, Copy)]
pub enum Headed {
    /// `f[e, ..]`
    Index,
    /// `a \X b \X ..`
    Product,
}

/// A node of fields with their names.
#[derive(Clone, Copy)]
pub enum Fielded {
    /// `[a |-> e]`
    Record,
    /// `[a : S]`
    Records,
}

/// An operator of a module that is used by its name.
#[derive(Clone, Copy)]
pub enum Builtin {
    Kinds(Kind),
    Sequences,
    One(Unary),
    Two(BinaryNode),
    Three(TernaryNode),
}

/// A form with its parts, at a place. It borrows their boxes and lists from the tree.
#[derive(Clone, Copy)]
pub enum Form<'a> {
    Leaf(Place, Leaf<'a>),
    /// A variable.
    Variable(Place, usize),
    One(Place, UnaryNode<'a>, &'a Box<Expr>),
    Two(Place, BinaryNode, &'a Box<Expr>, &'a Box<Expr>),
    Three(Place, TernaryNode, &'a Box<Expr>, &'a Box<Expr>, &'a Box<Expr>),
    Many(Place, ListNode, &'a Vec<Expr>),
    /// An operator of a module with its arguments.
    Use(Place, Builtin, &'a [Expr]),
    /// A first part, and others.
    Headed(Place, Headed, &'a Box<Expr>, &'a Vec<Expr>),
    /// CASE, with the value of OTHER.
    Cases(Place, &'a Vec<Arm>, Option<&'a Box<Expr>>),
    Unchanged(Place, &'a Box<Expr>),
    Binders(Place, Binders, &'a Vec<Binder>, &'a Expr),
    Fields(Place, Fielded, &'a Vec<Field>),
    /// EXCEPT
    Except(Place, &'a Box<Expr>, &'a Vec<Update>),
    /// `[A]_v` or `<<A>>_v`, with the place of v.
    Action(Place, Step, &'a Box<Expr>, Place, &'a Box<Expr>),
    /// A set, and a body under one entry.
    Binds(Place, Binding, &'a Pattern, &'a Box<Expr>, &'a Box<Expr>),
}

impl<'a> Form<'a> {
    /// Its place.
    pub fn place(&self) -> Place {
        match self {
            Form::Leaf(place, _)
            | Form::Variable(place, _)
            | Form::One(place, _, _)
            | Form::Two(place, _, _, _)
            | Form::Three(place, _, _, _, _)
            | Form::Many(place, _, _)
            | Form::Use(place, _, _)
            | Form::Headed(place, _, _, _)
            | Form::Cases(place, _, _)
            | Form::Unchanged(place, _)
            | Form::Binders(place, _, _, _)
            | Form::Fields(place, _, _)
            | Form::Except(place, _, _)
            | Form::Action(place, _, _, _, _)
            | Form::Binds(place, _, _, _, _) => *place,
        }
    }
}

/// The top of an expression: a form with its parts, an expression without an expansion, or one that means another
/// expression.
#[derive(Clone, Copy)]
pub(crate) enum OwnForm<'a> {
    Form(Form<'a>),
    Nothing(Place),
    Goes,
}
