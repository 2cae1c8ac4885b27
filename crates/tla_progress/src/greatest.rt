//! The greatest level.

use std::sync::atomic::{AtomicU64, Ordering};
use tla_workers::{GatePlace, Pass};

/// How many times a worker tries to raise the number of pieces. Each failure means that another worker raised it.
const TRIES: u64 = 64;

/// The level with the most pieces so far.
#[derive(Drop)]
pub struct GreatestLevel {
    /// The number of the level, from 0.
    level: AtomicU64,
    pieces: AtomicU64,
}

/// The greatest level.
#[derive(Clone, Copy, Debug, PartialEq, Eq)]
pub struct Greatest {
    /// The number of the level, from 1.
    pub level: u64,
    /// How many states it has at most.
    pub states: u64,
}

impl GreatestLevel {
    /// No level was searched yet.
    pub fn new() -> GreatestLevel {
        GreatestLevel {
            level: AtomicU64::new(0),
            pieces: AtomicU64::new(0),
        }
    }

    /// Takes a piece into account. Workers are in one level at a time.
    pub(crate) fn see(&self, place: &GatePlace) {
        if place.pass != Pass::Invariants {
            return;
        }
        let pieces = place.piece.saturating_add(1);
        let mut before = self.pieces.load(Ordering::SeqCst);
        for _ in 0..TRIES {
            if before >= pieces {
                return;
            }
            let order = Ordering::SeqCst;
            match self.pieces.compare_exchange(before, pieces, order, order) {
                Ok(_) => return self.level.store(place.level, order),
                Err(found) => before = found,
            }
        }
    }

    /// The greatest level, if pieces have up to `cut` states. None if no level has more than one piece: then it isn't
    /// known which level is the greatest.
    pub fn greatest(&self, cut: u64) -> Option<Greatest> {
        let pieces = self.pieces.load(Ordering::SeqCst);
        if pieces < 2 {
            return None;
        }
        Some(Greatest {
            level: self.level.load(Ordering::SeqCst).saturating_add(1),
            states: pieces.saturating_mul(cut),
        })
    }
}
