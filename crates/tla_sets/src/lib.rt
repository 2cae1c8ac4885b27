//! Iteration over sets and membership in them without building them; choices from sets, and functions and records on
//! them. (Lamport, Specifying Systems, chapter 16.)
#![tactic(auto)]

pub mod asked;
pub mod domain;
pub mod elements;
pub mod fields;
pub mod span;
