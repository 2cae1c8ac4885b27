//! Explanations of refusals: what is wrong at which place, and what to write instead.
#![tactic(auto)]

pub mod refusal;
mod refusal_text;
