//! The options of a search: how many workers search, and its limits.
#![tactic(auto)]

mod options;

pub use options::{MAX_STATES, Options};
