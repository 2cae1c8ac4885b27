//! The statements of a configuration.
//!
//! `parse_config` gives the one list of statements that a configuration's text says, or why there is none.
#![tactic(auto)]

mod config;
mod error;
mod items;
mod keyword;
mod names;
mod parse;
mod refusal;
mod statement;
mod statements;
mod tokens;
mod values;
mod written;

pub use config::Config;
pub use error::{DefsCode, DefsError, Source};
pub use parse::parse_config;
pub use statement::{Item, Statement};
