//! Expressions after expansion: their values, and membership in them.
#![tactic(auto)]

mod environment;
mod evaluation;
pub mod laws;
mod odometer;
mod partial;
mod patterns;

pub use evaluation::{eval, member, set_members};
pub use partial::Partial;
pub use patterns::opened;
pub use tla_core::{Core, Fault, FaultCode, Place};
