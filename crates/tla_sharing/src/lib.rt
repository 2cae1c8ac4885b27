//! Common subexpressions, and parts that can be moved out of binders, become definitions with uses.
#![tactic(auto)]

mod choice;
mod constants;
mod copies;
mod definitions;
mod gave_up;
mod lowered;
mod measures;
mod replaced;
mod shift;
mod usage;

pub use constants::{constant_in, with_constant};
pub use definitions::shared;
