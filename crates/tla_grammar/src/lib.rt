//! The grammar of a module's tokens: operators and their ranges, what a token is and what may follow it, and what a
//! refusal says.
#![tactic(auto)]

mod ahead;
mod binders;
mod context;
mod modules;
mod operators;
mod refusal;
mod tokens;

pub use ahead::{Opened, binds, filters, opened_by};
pub use binders::refused_binder;
pub use context::Context;
pub use modules::is_module;
pub use operators::{
    bullet_of, constant_of, edge_allows, high, is_product, prefix_high, prefix_of, quantifier_of,
};
pub use refusal::Refusal;
pub use tokens::{
    Between, Postfix, closing, following, is_kind, may_follow, name_at, operator_at, postfix_at,
    refused, refused_parameter, refused_unit, seen, text_of,
};
