//! Gates that hold workers.

use std::sync::atomic::{AtomicU64, Ordering};
use std::thread::yield_now;
use tla_check::{Gate, GatePlace, Pass};

/// The most times that a held worker tests whether it may continue.
const TURNS: u64 = 1_000_000_000;

/// Which pieces are held.
#[derive(Clone, Copy)]
pub enum Held {
    /// The first piece that is entered.
    First,
    /// The pieces with these numbers.
    Pieces { from: u64, to: u64 },
}

/// What releases the held pieces.
#[derive(Clone, Copy)]
pub enum Until {
    /// This many held pieces were entered.
    Entered(u64),
    /// This many pieces were left.
    Left(u64),
    /// This piece was left.
    LeftPiece(u64),
}

/// A gate that holds pieces of one pass over one level.
#[derive(Drop)]
pub struct Holds {
    level: u64,
    pass: Pass,
    held: Held,
    until: Until,
    /// How many pieces were entered.
    entered: AtomicU64,
    left_piece: AtomicU64,
    /// How many held pieces were entered, and how many pieces were left.
    held_entered: AtomicU64,
    left: AtomicU64,
    /// How many held pieces were dropped, and how many others.
    held_dropped: AtomicU64,
    others_dropped: AtomicU64,
    /// How many pieces continued although nothing released them.
    late: AtomicU64,
}

impl Holds {
    pub fn new(level: u64, pass: Pass, held: Held, until: Until) -> Holds {
        Holds {
            level,
            pass,
            held,
            until,
            entered: AtomicU64::new(0),
            left_piece: AtomicU64::new(0),
            held_entered: AtomicU64::new(0),
            left: AtomicU64::new(0),
            held_dropped: AtomicU64::new(0),
            others_dropped: AtomicU64::new(0),
            late: AtomicU64::new(0),
        }
    }

    /// Whether each held piece was released in time, this many held pieces were entered, and this many pieces left.
    pub fn has_seen(&self, entered: u64, left: u64) -> bool {
        self.late.load(Ordering::SeqCst) == 0
            && self.held_entered.load(Ordering::SeqCst) == entered
            && self.left.load(Ordering::SeqCst) == left
    }

    /// Whether this many held pieces and this many others were dropped.
    pub fn has_dropped(&self, held: u64, others: u64) -> bool {
        self.held_dropped.load(Ordering::SeqCst) == held
            && self.others_dropped.load(Ordering::SeqCst) == others
    }

    fn is_here(&self, place: &GatePlace) -> bool {
        place.level == self.level && place.pass == self.pass
    }

    fn is_held(&self, place: &GatePlace, entered_before: u64) -> bool {
        match self.held {
            Held::First => entered_before == 0,
            Held::Pieces { from, to } => from <= place.piece && place.piece <= to,
        }
    }

    fn is_open(&self) -> bool {
        match self.until {
            Until::Entered(pieces) => self.held_entered.load(Ordering::SeqCst) >= pieces,
            Until::Left(pieces) => self.left.load(Ordering::SeqCst) >= pieces,
            Until::LeftPiece(_) => self.left_piece.load(Ordering::SeqCst) > 0,
        }
    }

    fn wait(&self) {
        for _ in 0..TURNS {
            if self.is_open() {
                return;
            }
            yield_now();
        }
        self.late.fetch_add(1, Ordering::SeqCst);
    }
}

impl Gate for Holds {
    fn enter(&self, place: &GatePlace) {
        if self.is_here(place) {
            let before = self.entered.fetch_add(1, Ordering::SeqCst);
            if self.is_held(place, before) {
                self.held_entered.fetch_add(1, Ordering::SeqCst);
                self.wait();
            }
        }
    }

    fn leave(&self, place: &GatePlace, dropped: bool) {
        if !self.is_here(place) {
            return;
        }
        if dropped && self.is_held(place, 1) {
            self.held_dropped.fetch_add(1, Ordering::SeqCst);
        } else if dropped {
            self.others_dropped.fetch_add(1, Ordering::SeqCst);
        }
        if matches!(self.until, Until::LeftPiece(piece) if piece == place.piece) {
            self.left_piece.store(1, Ordering::SeqCst);
        }
        self.left.fetch_add(1, Ordering::SeqCst);
    }
}
