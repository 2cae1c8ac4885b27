//! Explanations of what is wrong with names, with levels, and in a configuration.
#![tactic(auto)]

pub mod arguments;
pub mod config_names;
pub mod configuration;
mod items;
pub mod levels;
pub mod more;
pub mod reach;
pub mod specification;
pub mod statements;
pub mod twice;
pub mod unknown;
