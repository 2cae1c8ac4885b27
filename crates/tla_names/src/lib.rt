//! The names of a module, and those of a configuration's statements.
//!
//! Each name of a module is brought in once, known where it is used, and used with its number of arguments (Specifying
//! Systems, chapter 17). Each question here answers the first name in the order of the text that is refused, with its
//! code and place. `laws` has that none is refused exactly if the module is well scoped.
#![tactic(auto)]

mod constants;
pub mod laws;
mod mention;
mod named;
mod names;
mod refusal;
mod resolve;
mod scope;
mod units;

pub use constants::unvalued;
pub use mention::Mention;
pub use named::statements_named;
pub use names::Names;
pub use refusal::{refusal_of, text_of};
pub use scope::Scope;
pub use units::variables;
