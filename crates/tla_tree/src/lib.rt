//! The tree of a module's tokens, as the parser makes it and those above it read it.
#![tactic(auto)]

mod list;
mod tree;
mod unit;
mod word;

pub use list::{push, push_inner};
pub use tree::{
    Arm, Binder, Brackets, Bullet, Constant, Definition, Expr, Fairness, Field, Infix, Key,
    MAX_DEPTH, Pattern, Prefix, Quantifier, Step, Update,
};
pub use unit::{Declaration, Module, Unit};
pub use word::{Word, Written, slice_of};
