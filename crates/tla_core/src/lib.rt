//! Expressions after expansion, and the faults of their evaluation.
#![tactic(auto)]

mod expression;
mod fault;
mod fixed;
mod literal;
mod making;
mod names;
mod primed;
mod same;

pub use expression::{Binary, Core, Kind, Opening, Unary};
pub use fault::{Fault, FaultCode, Place, memory};
pub use literal::Literal;
