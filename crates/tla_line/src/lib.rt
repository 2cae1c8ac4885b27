//! The command line: parses the words of a call, and has the texts for words that aren't a valid line.
#![tactic(auto)]

mod line;
mod number;

pub use line::{Line, LineFault, NoLine, is_quiet, read_line, read_words};
pub use number::NumberOption;
