//! The limits of the expressions of a model.

/// The most nodes of an expression.
pub const MAX_NODES: usize = 200_000;

/// The most nodes on a path from the root of an expression.
pub const MAX_PATH: usize = 300;
