//! The model that a module and a configuration denote.
//!
//! The definitions of this crate say what a model is, and `laws` has their laws. `build` finds the model, or returns
//! the first step that refuses the two texts.
#![tactic(auto)]

mod behaviour;
mod builder;
mod conjuncts;
mod fairness;
mod global;
mod init_and_next;
pub mod laws;
mod parts;
mod specification;
mod table;
mod temporal;

pub use builder::build;
pub use tla_config::{Config, DefsCode, DefsError, Source, parse_config};
pub use tla_model::{Model, StatePredicate};
