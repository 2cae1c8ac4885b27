//! The values of TLA+: truth values, numbers of 64 bits, strings, model values, finite sets and functions; and states.
//! (Lamport, Specifying Systems, chapter 16.)
//!
//! A set is a rising list (strictly ascending), and a function a list of pairs that rise by argument; so equal values
//! have equal lists. A call that builds one returns `TooMany` if it would have over 1,000,000 members or pairs, else
//! `TooDeep` if it would be nested more than 64 deep, and `Memory` if memory ran out. An error leaves what the call
//! borrowed unchanged.
#![tactic(auto)]

mod choice;
mod copy;
mod domain;
mod equality;
mod error;
mod fun;
mod hash;
mod merge;
mod merge_pairs;
mod order;
mod pool;
mod set;
mod show;
mod state;
mod text;
mod value;

pub use error::ValueError;
pub use pool::Pool;
pub use set::{MAX_ELEMENTS, MAX_NESTING};
pub use show::TextFault;
pub use state::State;
pub use text::Text;
pub use value::{Arguments, FunValue, SetValue, Value};
