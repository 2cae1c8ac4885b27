//! Operators and forms, applied to values. (Lamport, Specifying Systems, chapter 16.)
#![tactic(auto)]

mod arithmetic;
pub mod evaluated;
pub mod fault_ref;
pub mod functions;
pub mod gathered;
pub mod operators;
pub mod rules;
pub mod sequences;
pub mod sets;
