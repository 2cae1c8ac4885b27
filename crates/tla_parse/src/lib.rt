//! The tree of a module's tokens.
#![tactic(auto)]

mod error;
mod parse;
mod units;

pub use error::{ParseCode, ParseError};
pub use parse::parse_module;
pub use tla_expressions::laws;
pub use tla_tree::{
    Arm, Binder, Brackets, Bullet, Constant, Declaration, Definition, Expr, Fairness, Field, Infix,
    Key, Module, Pattern, Prefix, Quantifier, Step, Unit, Update, Word, Written,
};
