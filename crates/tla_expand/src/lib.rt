//! What an expression means under a scope, and its expansion within limits.
//!
//! An expansion has no names of definitions, and only variables have primes (*Specifying Systems*, chapters 15 to 17).
#![tactic(auto)]

mod binders;
mod builders;
mod conjunction;
mod cover;
mod expand;
mod expanded;
pub mod laws;
mod named;
mod parts;
mod scopes;

pub use scopes::Scopes;
pub use tla_scopes::{Failure, Primes};
