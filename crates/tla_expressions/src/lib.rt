//! The trees of expressions and definitions, from tokens.
#![tactic(auto)]

mod brackets;
mod forms;
mod grammar;
mod items;
pub mod laws;
pub mod names;
mod parts;
mod product;
mod reader;
mod record_parts;
mod records;

pub use grammar::{definition, expr};
pub use parts::{Parsed, ParsedDefinition};
