//! The explanation of a refusal: where it points, what is wrong there, and what helps. Also the token at a place, and
//! characters that begin no token.
#![tactic(auto)]

pub mod characters;
pub mod finding;
pub mod spot;
