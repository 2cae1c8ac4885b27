//! The formulas of a model: the definition of each name in a configuration, checked for its level; or why it is
//! refused.
#![tactic(auto)]

mod formula;
mod places;

pub use formula::{action, assumption, initial, refusal, state_predicate};
pub use places::Places;
