//! Scopes, which give names their meanings, and the forms to which expressions in a scope are reduced.
//!
//! A name is replaced by what it means until a form is reached: an operator with its operands, a variable or a constant.
//! The definitions of this crate say what the expansion of an expression is (*Specifying Systems*, chapters 15 to 17).
#![tactic(auto)]

mod arena;
mod entries;
mod failure;
mod forms;
mod index;
mod nodes;
mod operators;
mod places;
mod primes;
mod projections;
mod shortened;
mod uses;

pub use arena::{Entry, Projection, What, enter, find, position};
pub use entries::Entries;
pub use failure::Failure;
pub use nodes::{
    BinaryNode, Binders, Binding, Builtin, Fielded, Form, Gather, Headed, Leaf, ListNode,
    TernaryNode, UnaryNode,
};
pub use operators::builtin_for;
pub use places::place_of;
pub use primes::{Primes, are_fewer, one_more};
pub use uses::{Head, Reduction, entry_of, find_head, next_reduction, use_of};
