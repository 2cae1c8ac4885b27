//! An invariant or a constraint.

use tla_core::Core;
use tla_value::Text;

/// An invariant or a constraint, with its name.
#[derive(Drop)]
pub struct StatePredicate {
    pub name: Text,
    pub core: Core,
}
