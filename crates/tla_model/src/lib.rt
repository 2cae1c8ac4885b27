//! What is checked: variables, assumptions, initial predicate, next-state action, invariants and constraints.
#![tactic(auto)]

mod limits;
mod model;
mod state_predicate;

pub use limits::{MAX_NODES, MAX_PATH};
pub use model::Model;
pub use state_predicate::StatePredicate;
