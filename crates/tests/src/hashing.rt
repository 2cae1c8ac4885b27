//! A hash that is the same for all states.

use std::hash::Hasher;

/// A hasher whose hash is always 0.
#[derive(Clone, Copy, Default)]
pub struct Zero;

impl Hasher for Zero {
    ghost write = { λ s bytes. s };

    ghost finish = { λ s. 0 };

    fn write(&mut self, _bytes: &[u8]) {}

    fn finish(&self) -> u64 {
        0
    }
}
