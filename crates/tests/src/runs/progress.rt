//! Progress lines, with a clock that advances by a second at each reading.

use std::fmt::Display;
use std::io;
use std::io::Eprint;
use std::sync::atomic::{AtomicU64, Ordering};
use std::test::Fail;
use std::time::{Clock, Duration, Instant};
use tla_progress::{Greatest, GreatestLevel, NoMemory, Progress, ProgressLine, RunSummary};
use tla_workers::{Gate, GatePlace, Pass};

/// A clock, and a standard error that counts its lines.
#[derive(Drop)]
struct Seconds {
    looks: AtomicU64,
    lines: AtomicU64,
}

impl Clock for Seconds {
    fn monotonic(&self) -> io::Result<Duration> {
        Ok(Duration::from_secs(self.looks.fetch_add(1, Ordering::SeqCst)))
    }

    fn since_1970(&self) -> io::Result<Duration> {
        self.monotonic()
    }
}

impl Eprint for Seconds {
    fn eprint<D: Display + Drop>(&self, _value: D) -> io::Result<()> {
        Ok(())
    }

    fn eprintln<D: Display + Drop>(&self, _value: D) -> io::Result<()> {
        self.lines.fetch_add(1, Ordering::SeqCst);
        Ok(())
    }
}

/// A search of this many levels, each of three pieces. It finishes a piece at each second from the first one on.
fn search_levels(rt: &Seconds, began: Option<Instant>, levels: u64, greatest: &GreatestLevel) {
    let gate = Progress::new(rt, &NoMemory, began, 10, greatest);
    for number in 0..levels.saturating_mul(3) {
        let place = GatePlace {
            level: number / 3,
            pass: Pass::Invariants,
            piece: number % 3,
        };
        gate.enter(&place);
        gate.leave(&place, false);
    }
}

/// The number of lines that a search of this many levels writes, and the greatest level.
fn lines(is_shown: bool, levels: u64) -> (u64, Option<Greatest>) {
    let rt = Seconds {
        looks: AtomicU64::new(0),
        lines: AtomicU64::new(0),
    };
    let began = Instant::now(&rt).ok();
    let greatest = GreatestLevel::new();
    search_levels(&rt, if is_shown { began } else { None }, levels, &greatest);
    (rt.lines.load(Ordering::SeqCst), greatest.greatest(10))
}

#[test]
fn writes_when_it_is_due(rt: HostRuntime) {
    const FIRST: Option<Greatest> = Some(Greatest {
        level: 1,
        states: 30,
    });
    // At 2, 7 and 12 seconds.
    assert!(rt; lines(true, 4) == (3, FIRST));
    // At 2, 7, .. 62 seconds, then at 92, 122 and 152.
    assert!(rt; lines(true, 53) == (16, FIRST));
    assert!(rt; lines(false, 53) == (0, None));
}

const LINE: ProgressLine = ProgressLine {
    seconds: 7,
    levels: 3,
    pass: Pass::Steps,
    states: 2048,
    left: Some(1024),
    per_second: 500,
    memory: Some(3072),
};

const LINE_TEXT: &str =
    "tlacheck: 7 s, level 3, steps: at least 2048 states found, at most 1024 left in the level, 500 a second, 3 MB";

const SUMMARY: RunSummary = RunSummary {
    milliseconds: 2500,
    levels: 12,
    states: 5000,
    greatest: Some(Greatest {
        level: 9,
        states: 2048,
    }),
};

const SUMMARY_TEXT: &str =
    "tlacheck: 12 levels, 5000 states in 2 s, 2000 a second; level 9 is the greatest, with at most 2048 states";

#[test]
fn the_lines(rt: HostRuntime) -> Result<(), Fail> {
    assert!(rt; format!(in rt.alloc(); "{LINE}")?.as_str() == LINE_TEXT);
    assert!(rt; format!(in rt.alloc(); "{SUMMARY}")?.as_str() == SUMMARY_TEXT);
    let clock = Seconds {
        looks: AtomicU64::new(0),
        lines: AtomicU64::new(0),
    };
    let began = Instant::now(&clock).ok();
    assert!(rt; RunSummary::since(&clock, began, 2, 6, None).is_none());
    let summary = RunSummary::since(&clock, began, 2, 6, None).ok_or("none")?;
    let shown = "tlacheck: 2 levels, 6 states in 2 s, 3 a second";
    assert!(rt; format!(in rt.alloc(); "{summary}")?.as_str() == shown);
    Ok(())
}
