//! The tokens of a module and of a configuration.
//!
//! `tokens` gives the one list of tokens that a module's text has, or the first fault of the text.
//! `configuration_tokens` reads a configuration by the same definitions of blanks, comments and tokens.
#![tactic(auto)]

mod bytes;
mod closing;
pub mod error;
mod gap;
mod header;
pub mod laws;
pub mod lexeme;
pub mod lexer;
mod place;
pub mod scan;
mod string;
mod symbol;
pub mod token;
mod word;

pub use bytes::is_space_or_tab;
pub use error::{LexCode, LexError};
pub use lexeme::Source;
pub use lexer::{configuration_tokens, tokens};
pub use scan::{Scan, Stop};
pub use string::string_text;
pub use token::{Kind, Place, Token, same_kind};
