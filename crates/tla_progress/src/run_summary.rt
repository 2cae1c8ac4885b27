//! The summary of a long run.

use crate::greatest::Greatest;
use std::fmt;
use std::time::{Clock, Instant};

/// A run of this many milliseconds or more is a long one.
const LONG: u64 = 2_000;

/// What a long run has searched, and how long it took.
#[derive(Clone, Copy, Debug, PartialEq, Eq)]
pub struct RunSummary {
    pub milliseconds: u64,
    pub levels: u64,
    pub states: u64,
    pub greatest: Option<Greatest>,
}

impl RunSummary {
    /// The summary of a run that began at `began` and searched these levels and states. None if the run was short, or
    /// the clock can't be read.
    pub fn since<C: Clock>(
        clock: &C,
        began: Option<Instant>,
        levels: u64,
        states: u64,
        greatest: Option<Greatest>,
    ) -> Option<RunSummary> {
        let time = began?.elapsed(clock).ok()?;
        let milliseconds = u64::try_from(time.as_millis()).unwrap_or(u64::MAX);
        if milliseconds < LONG {
            return None;
        }
        Some(RunSummary {
            milliseconds,
            levels,
            states,
            greatest,
        })
    }
}

impl fmt::Display for RunSummary {
    fn fmt<W: fmt::Write>(&self, f: &mut fmt::Formatter<W>) -> fmt::Result {
        let levels = self.levels;
        let states = self.states;
        let seconds = self.milliseconds / 1_000;
        let per_second = states.saturating_mul(1_000) / self.milliseconds.max(1);
        write!(f, "tlacheck: {levels} levels, {states} states")?;
        write!(f, " in {seconds} s, {per_second} a second")?;
        match self.greatest {
            Some(Greatest { level, states }) => {
                write!(
                    f,
                    "; level {level} is the greatest, with at most {states} states"
                )
            }
            None => Ok(()),
        }
    }
}
