//! Expressions stored with their value.
ghost use Rattle.std.specs.Prelude.{◌≡◌};
ghost use Rattle.tla_value.specs.TreeOf.{tree_of};
ghost use Rattle.tla_core.specs.Value.{means};
ghost use Rattle.tla_core.specs.FixedOf.{fixed_of};
ghost use Rattle.tla_core.specs.Always.{IsAlways, IsAlways-prop};

use crate::fault::Place;
use crate::fixed::Fixed;
use crate::same::same_tree;
use std::alloc::{AllocError, Global};
use tla_value::Value;

/// An expression of constants alone, with its value, which doesn't depend on bound names or states.
#[derive(Drop)]
pub struct Literal {
    tree: Box<Fixed>,
    value: Value,
    ghost always: { IsAlways (means (fixed_of tree.value)) (tree_of value) } by { IsAlways-prop (means (fixed_of tree.value)) (tree_of value) },
}

impl Literal {
    ghost use Rattle.std.specs.Prelude.{IfOk, IsTrue};
    ghost use Rattle.tla_core.specs.LiteralOf.{literal_of};

    /// An expression with its value. The only error is that memory ran out.
    pub(crate) fn new(alloc: Global, tree: Fixed, value: Value) -> Result<Literal, AllocError>
        requires { IsAlways (means (fixed_of tree)) (tree_of value) }
        ensures { IfOk result (λ l. literal_of l ≡ fixed_of tree) }
    {
        let tree = Box::new(alloc, tree)?;
        Ok(Literal { tree, value })
    }

    /// The value of the expression.
    pub fn value(&self) -> &Value
        ensures { IsAlways (means (literal_of self.now)) (tree_of result.now) }
    {
        &self.value
    }

    /// The place of the expression, borrowed.
    pub fn lent_place(&self) -> &Place
        ensures { result.now ≡ (means (literal_of self.now)).place }
    {
        self.tree.lent_place()
    }

    /// Whether two literals are the same expression, with the same places.
    pub fn is_same(&self, other: &Literal) -> bool
        ensures { IsTrue result → literal_of self.now ≡ literal_of other.now }
    {
        same_tree(&self.tree, &other.tree)
    }

    /// The expression, without its value.
    pub(crate) fn into_tree(self) -> Fixed
        ensures { fixed_of result ≡ literal_of self }
    {
        Box::into_inner(self.tree)
    }
}
