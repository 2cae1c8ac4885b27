//! Values that are borrowed or owned.
ghost use Rattle.std.specs.Prelude.{◌≡◌, Ok};
ghost use Rattle.tla_value.specs.Tree.{truth};
ghost use Rattle.tla_value.specs.TreeOf.{tree_of};
ghost use Rattle.tla_operators.specs.Gives.{Gives};
ghost use Rattle.tla_operators.specs.Evaluated.{tree_of_evaluated};

use crate::fault_ref::FaultRef;
use crate::rules::copied;
use std::alloc::Global;
use tla_value::Value;

/// A value that is borrowed from the expression or its environment, or a new one.
#[derive(Drop)]
pub enum Evaluated<'a> {
    Borrowed(&'a Value),
    Owned(Value),
}

impl<'a> Evaluated<'a> {
    /// A truth value.
    pub fn truth(holds: bool) -> Evaluated<'a>
        ensures { tree_of_evaluated result ≡ truth holds }
    {
        Evaluated::Owned(Value::Truth(holds))
    }

    /// The value.
    pub fn value(&self) -> &Value
        ensures { tree_of result.now ≡ tree_of_evaluated self.now }
    {
        match self {
            Evaluated::Borrowed(value) => value,
            Evaluated::Owned(value) => value,
        }
    }

    /// The value, copied if it is borrowed. Fails only if memory ran out.
    pub fn into_value<'p>(self, alloc: Global) -> Result<Value, FaultRef<'p>>
        ensures { Gives result (Ok (tree_of_evaluated self.entry)) }
    {
        match self {
            Evaluated::Borrowed(value) => copied(alloc, value),
            Evaluated::Owned(value) => Ok(value),
        }
    }
}
