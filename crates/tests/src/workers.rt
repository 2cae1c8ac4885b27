//! Passes and checks by several workers, each a thread, whose gates hold them at chosen pieces.
//!
//! No contract says that workers run at the same time, that they claim pieces, that a piece is dropped, or that shards
//! are merged in parallel: these tests do. What a report shows for any number of workers is in the data of
//! `acceptance`, also deep recursion on a worker's stack.

mod board;
mod checks;
mod gates;
mod graphs;
mod held;
mod one_hash;
