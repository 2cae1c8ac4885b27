//! The units of a module.

use crate::tree::{Definition, Expr};
use crate::word::Written;
use tla_lex::Place;

/// A unit of a module.
#[derive(Drop)]
pub enum Unit {
    /// Four or more dashes.
    Separator(Place),
    Extends(Place, Vec<Written>),
    Variables(Place, Vec<Written>),
    /// `Op == e`
    Operator(Written, Expr),
    /// A definition with parameters, or of a function.
    Defines(Definition),
    /// `LOCAL` before a definition.
    Local(Place, Definition),
    Constants(Place, Vec<Declaration>),
    /// An assumption, with a name or without.
    Assume(Place, Option<Written>, Expr),
    /// A theorem, with a name or without.
    Theorem(Place, Option<Written>, Expr),
}

/// A constant: `c`, or `F(_, ..)` with `arity` arguments.
#[derive(Drop)]
pub struct Declaration {
    pub name: Written,
    pub arity: usize,
}

/// The units of a module, in order.
#[derive(Drop)]
pub struct Module {
    pub units: Vec<Unit>,
}
