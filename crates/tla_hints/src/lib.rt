//! Hints for a refusal: the line of a place with a caret below it, the name that was probably meant, the module that
//! has an operator, the bracket that is still open, and what to write instead of a form that isn't supported.
#![tactic(auto)]

mod brackets;
mod characters;
mod columns;
mod community;
mod forms;
mod guesses;
mod library;
mod lines;
mod modules;
mod names;
mod places;
mod reserved;
mod statements;
mod table;
mod words;

pub use brackets::{Open, closes_bracket, innermost_open, is_closed_by, opens_bracket};
pub use characters::{command_meant, sign_cure, symbols, word_meant};
pub use columns::{blanks, front};
pub use forms::{form_cure, module_cure};
pub use guesses::{meant, meant_within};
pub use library::{library_cure, plain_cure};
pub use lines::line_of;
pub use modules::{library_arity, library_form, module_with};
pub use names::{Near, nearest};
pub use places::is_before;
pub use reserved::{BACKSLASHED, LIBRARY, MODULES, RESERVED};
pub use statements::{LEFT_OUT, STATEMENTS, statement_cure};
pub use words::word_of;
