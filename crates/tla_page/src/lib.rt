//! The output of an explanation: its text, the two files and places in them, the texts of the codes,
//! and values.
#![tactic(auto)]

pub mod codes;
pub mod definitions;
pub mod output;
pub mod places;
pub mod style;
pub mod units;
pub mod values;
