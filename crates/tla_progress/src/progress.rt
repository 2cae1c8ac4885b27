//! The gate that writes progress lines.

use crate::greatest::GreatestLevel;
use crate::memory::Memory;
use crate::progress_line::ProgressLine;
use std::io::Eprint;
use std::sync::atomic::{AtomicU64, Ordering};
use std::time::{Clock, Instant};
use tla_workers::{Gate, GatePlace, Pass};

/// When the first line is written, in milliseconds from the beginning.
const FIRST: u64 = 2_000;

/// The least number of milliseconds between two lines: in the first minute, in the first ten minutes, and later.
const BETWEEN: [u64; 3] = [5_000, 30_000, 60_000];

/// A minute and ten minutes, in milliseconds.
const MINUTE: u64 = 60_000;

const TEN_MINUTES: u64 = 600_000;

/// If two looks at the clock are fewer milliseconds apart, more pieces are skipped.
const SOON: u64 = 100;

/// The most pieces that pass without a look at the clock. Like every number of skipped pieces, it is one less than a
/// power of 2.
const MOST_SKIPPED: u64 = 1_023;

/// A gate that is always open. If it knows when the run began, it writes how far the search has come: a line every few
/// seconds, and later every minute. It ignores errors of writing.
///
/// A worker writes the line. If standard error is a full pipe that nobody reads, this worker waits, and the search with
/// it.
#[derive(Drop)]
pub struct Progress<'a, R, M> {
    rt: &'a R,
    memory: &'a M,
    began: Option<Instant>,
    /// How many states a piece has at most.
    cut: u64,
    greatest: &'a GreatestLevel,
    /// When the next line is due, in milliseconds from the beginning.
    due: AtomicU64,
    /// The pieces of all levels whose invariants were checked.
    asked: AtomicU64,
    /// The pieces of all levels whose steps were read.
    read: AtomicU64,
    /// When the last line was written, in milliseconds from the beginning.
    written: AtomicU64,
    /// How many states had been examined then, in all passes.
    passed: AtomicU64,
    /// When the clock was looked at last, in milliseconds from the beginning.
    looked: AtomicU64,
    /// How many pieces pass without a look at the clock.
    skipped: AtomicU64,
    /// The pieces of all passes.
    counted: AtomicU64,
}

impl<'a, R: Clock + Eprint, M: Memory> Progress<'a, R, M> {
    /// A gate for a search in pieces of up to `cut` states, in a run that began at `began`. If that is `None`, it
    /// writes nothing.
    pub fn new(
        rt: &'a R,
        memory: &'a M,
        began: Option<Instant>,
        cut: u64,
        greatest: &'a GreatestLevel,
    ) -> Progress<'a, R, M> {
        Progress {
            rt,
            memory,
            began,
            cut,
            greatest,
            due: AtomicU64::new(FIRST),
            asked: AtomicU64::new(0),
            read: AtomicU64::new(0),
            written: AtomicU64::new(0),
            passed: AtomicU64::new(0),
            looked: AtomicU64::new(0),
            skipped: AtomicU64::new(0),
            counted: AtomicU64::new(0),
        }
    }

    /// Counts a piece of a pass, and returns whether to look at the clock.
    fn count(&self, pass: Pass) -> bool {
        match pass {
            Pass::Invariants => {
                self.asked.fetch_add(1, Ordering::SeqCst);
            }
            Pass::Steps => {
                self.read.fetch_add(1, Ordering::SeqCst);
            }
            Pass::Merge => {}
        }
        let number = self.counted.fetch_add(1, Ordering::SeqCst);
        number & self.skipped.load(Ordering::SeqCst) == 0
    }

    /// Skips more pieces before the next look at the clock if this look came soon after the one before, else none.
    fn pace(&self, now: u64) {
        let before = self.looked.swap(now, Ordering::SeqCst);
        let skipped = self.skipped.load(Ordering::SeqCst);
        let next = if now.saturating_sub(before) < SOON {
            skipped
                .saturating_mul(2)
                .saturating_add(1)
                .min(MOST_SKIPPED)
        } else {
            0
        };
        self.skipped.store(next, Ordering::SeqCst);
    }

    /// Writes a line if one is due and no other thread writes it.
    fn write_if_due(&self, place: &GatePlace, now: u64) {
        let due = self.due.load(Ordering::SeqCst);
        if now < due {
            return;
        }
        let next = now.saturating_add(interval_after(now));
        let taken = self
            .due
            .compare_exchange(due, next, Ordering::SeqCst, Ordering::SeqCst);
        if taken.is_ok() {
            let _ = self.rt.eprintln(self.line_at(place, now));
        }
    }

    /// The least number of states in this many pieces of this many levels. Each piece of a level but its last one is
    /// full.
    fn states_in(&self, pieces: u64, levels: u64) -> u64 {
        let full = pieces.saturating_sub(levels).saturating_mul(self.cut);
        full.saturating_add(levels.min(pieces))
    }

    /// The line that says how far the search has come.
    fn line_at(&self, place: &GatePlace, now: u64) -> ProgressLine {
        let asked = self.asked.load(Ordering::SeqCst);
        let read = self.read.load(Ordering::SeqCst);
        let levels = place.level.saturating_add(1);
        let states = self.states_in(asked, levels);
        ProgressLine {
            seconds: now / 1_000,
            levels,
            pass: place.pass,
            states,
            left: match place.pass {
                Pass::Steps => Some(asked.saturating_sub(read).saturating_mul(self.cut)),
                Pass::Invariants | Pass::Merge => None,
            },
            per_second: self.rate(states.saturating_add(self.states_in(read, levels)), now),
            memory: self.memory.in_use(),
        }
    }

    /// How many states a second were examined since the last line, if `passed` were examined up to now. Each counts for
    /// its invariants and for its steps.
    fn rate(&self, passed: u64, now: u64) -> u64 {
        let before = self.passed.swap(passed, Ordering::SeqCst);
        let since = self.written.swap(now, Ordering::SeqCst);
        let halves = passed.saturating_sub(before).saturating_mul(500);
        halves / now.saturating_sub(since).max(1)
    }
}

/// How many milliseconds after a line the next one is due.
fn interval_after(now: u64) -> u64 {
    let [first, later, last] = BETWEEN;
    if now < MINUTE {
        first
    } else if now < TEN_MINUTES {
        later
    } else {
        last
    }
}

impl<R: Clock + Eprint + Sync, M: Memory + Sync> Gate for Progress<'_, R, M> {
    fn enter(&self, _place: &GatePlace) {}

    fn leave(&self, place: &GatePlace, _dropped: bool) {
        let Some(began) = self.began else {
            return;
        };
        self.greatest.see(place);
        if !self.count(place.pass) {
            return;
        }
        if let Ok(time) = began.elapsed(self.rt) {
            let now = u64::try_from(time.as_millis()).unwrap_or(u64::MAX);
            self.pace(now);
            self.write_if_due(place, now);
        }
    }
}
