//! Expressions that were expanded, and how many nodes there may still be.
//!
//! An expression that is kept while another is expanded is in a box, and is dropped by a call of `drop`. If it were
//! dropped in place, each proof would go through its parts.

use tla_core::Core;
use tla_value::Text;

#[derive(Drop)]
pub(crate) struct Expanded {
    pub(crate) core: Core,
    pub(crate) nodes_left: usize,
}

#[derive(Drop)]
pub(crate) struct Pair {
    pub(crate) first: Box<Core>,
    pub(crate) second: Core,
    pub(crate) nodes_left: usize,
}

/// The arms of CASE.
#[derive(Drop)]
pub(crate) struct Arms {
    pub(crate) arms: Vec<(Core, Core)>,
    pub(crate) nodes_left: usize,
}

/// The fields of a record.
#[derive(Drop)]
pub(crate) struct Fields {
    pub(crate) fields: Vec<(Text, Core)>,
    pub(crate) nodes_left: usize,
}

/// An update of EXCEPT.
#[derive(Drop)]
pub(crate) struct Change {
    pub(crate) path: Vec<Core>,
    pub(crate) value: Core,
    pub(crate) nodes_left: usize,
}

#[derive(Drop)]
pub(crate) struct Changes {
    pub(crate) updates: Vec<(Vec<Core>, Core)>,
    pub(crate) nodes_left: usize,
}

#[derive(Drop)]
pub(crate) struct Many {
    pub(crate) parts: Vec<Core>,
    pub(crate) nodes_left: usize,
}
