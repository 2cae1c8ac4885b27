//! Explanations of the answers of a search: false invariants, deadlocks, faults and assumptions.
#![tactic(auto)]

pub mod answer;
mod arguments;
mod bounds;
mod counts;
mod cures;
mod extents;
mod faults;
mod given;
mod kinds;
mod lacking;
mod missed;
mod notes;
mod operands;
mod unset;
mod why;
