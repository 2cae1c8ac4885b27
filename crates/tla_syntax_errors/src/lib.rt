//! Explanations of syntax errors of a module: unexpected tokens, operators that need parentheses, and forms that
//! tlacheck doesn't support.
#![tactic(auto)]

mod cases;
mod declared;
mod excepts;
mod heads;
mod kinds;
pub mod left_out;
mod lists;
mod names;
mod pairs;
pub mod precedence;
mod signs;
pub mod unexpected;
