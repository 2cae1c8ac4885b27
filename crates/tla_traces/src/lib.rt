//! Explanations of traces: which part of Next made each step, what it changed, and how many steps each part made.
#![tactic(auto)]

pub mod binders;
mod changes;
mod constraints;
pub mod context;
pub mod coverage;
mod differences;
pub mod expressions;
pub mod formulas;
pub mod named;
mod parts;
pub mod reachable;
mod sequences;
pub mod signs;
pub mod trace;
