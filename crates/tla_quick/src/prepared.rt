//! A code with the values of its closed parts.

use crate::constant::Constant;
use tla_code::Code;

/// A code that uses closed parts, as definitions numbered in this order.
#[derive(Drop)]
pub(crate) struct Prepared<'m> {
    pub(crate) constants: Vec<Constant<'m>>,
    pub(crate) code: Code<'m>,
}
