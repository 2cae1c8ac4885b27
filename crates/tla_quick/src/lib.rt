//! Evaluates expressions quickly, or gives up. A result is the value by the definition of evaluation.
#![tactic(auto)]

mod constant;
mod constants;
mod domains;
mod environment;
mod evaluation;
mod expression;
mod frame;
mod group;
mod leaves;
mod made;
mod names;
mod patterns;
mod prepared;
mod stop;

pub use expression::Expression;
pub use group::Group;
