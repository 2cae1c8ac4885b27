//! Expressions with definitions and uses of them.

use tla_core::{Binary, Core, Opening, Place, Unary};
use tla_value::Text;

/// A form with one operand.
#[derive(Clone, Copy)]
pub enum OneForm<'m> {
    Operator(Unary),
    /// `r.a`
    Field(&'m Text),
    /// `Seq(S)`
    Sequences,
    /// `SUBSET S`
    Power,
    /// A set whose elements must be sequences of this many items.
    CheckPattern(usize),
}

/// A form with two operands.
#[derive(Clone, Copy, Debug, PartialEq, Eq)]
pub enum TwoForm {
    Operator(Binary),
    /// `f[e]`
    Apply,
    /// `=`
    Equal,
    /// `=>`
    Implies,
    /// `\in`
    Member,
    /// `\notin`
    NotMember,
    /// `\subseteq`
    Subset,
    /// `[S -> T]`
    Functions,
    /// `\cup`
    Cup,
    /// `\cap`
    Cap,
    /// `\`
    Minus,
}

/// A form with three operands.
#[derive(Clone, Copy, Debug, PartialEq, Eq)]
pub enum ThreeForm {
    If,
    SubSeq,
}

/// A form with a list of operands.
#[derive(Clone, Copy, Debug, PartialEq, Eq)]
pub enum ListForm {
    /// `{e, ..}`
    Enumerated,
    /// `<<e, ..>>`
    Tuple,
    Conjunction,
    Disjunction,
    /// `S \X T ..`
    Product,
    /// CASE: the condition and the value of each arm in turn, and last the value of OTHER, if it has one.
    Cases,
}

/// A form with named operands.
#[derive(Clone, Copy, Debug, PartialEq, Eq)]
pub enum FieldForm {
    /// `[a |-> e, ..]`
    Record,
    /// `[a : S, ..]`
    Records,
}

/// A form that binds one name: its set, and the body.
#[derive(Clone, Copy, Debug, PartialEq, Eq)]
pub enum BinderForm {
    ForAll,
    ForSome,
    Choose,
    /// `{x \in S : p}`
    Filter,
}

/// A form that binds a name for each of several sets, and evaluates a body for each choice.
#[derive(Clone, Copy, Debug, PartialEq, Eq)]
pub enum MapForm {
    /// `{e : x \in S, ..}`
    Image,
    /// `[x \in S, .. |-> e]`
    Function,
}

/// An expression with definitions (let-bindings), which are numbered from the outermost one on.
#[derive(Drop)]
pub enum Code<'m> {
    /// An expression in which nothing is shared.
    Plain(&'m Core),
    /// A bound name. The outermost is 0.
    Bound(Place, usize),
    /// A use of a definition: its number, and how many names are bound between the definition and the use.
    Use(Place, usize, usize),
    /// How many names are bound around it, whether the body certainly uses the definition, the
    /// definition, and the body.
    Let(usize, bool, Box<Code<'m>>, Box<Code<'m>>),
    One(Place, OneForm<'m>, Box<Code<'m>>),
    Two(Place, TwoForm, Box<Code<'m>>, Box<Code<'m>>),
    Three(Place, ThreeForm, Box<Code<'m>>, Box<Code<'m>>, Box<Code<'m>>),
    List(Place, ListForm, Vec<Code<'m>>),
    Fields(Place, FieldForm, Vec<(&'m Text, Code<'m>)>),
    Binder(Place, BinderForm, Box<Code<'m>>, Box<Code<'m>>),
    Map(Place, MapForm, Vec<Code<'m>>, Box<Code<'m>>),
    /// The function, and the updates, each the keys of its path and the new value.
    Except(Place, Box<Code<'m>>, Vec<(Vec<Code<'m>>, Code<'m>)>),
    /// The elements to destructure, and the body, in which their items are the next bound names.
    Destructure(Place, Vec<Opening>, Box<Code<'m>>),
}
