//! The answer of a search of a model.
#![tactic(auto)]

mod answer;
mod finding;

pub use answer::{Answer, Trace};
pub use finding::{Finding, Part};
pub use tla_levels::answer::Counts;
