//! Expressions with let-bindings: a part that occurs several times can be a definition that other parts use.
#![tactic(auto)]

mod arranged;
mod code;
pub mod laws;
mod steady;

pub use arranged::code_of;
pub use code::{BinderForm, Code, FieldForm, ListForm, MapForm, OneForm, ThreeForm, TwoForm};
pub use steady::is_steady;
