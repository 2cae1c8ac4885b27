//! A progress line.

use std::fmt;
use tla_workers::Pass;

/// Kilobytes in a megabyte.
const MEGABYTE: u64 = 1_024;

/// How far a search has come; shown as a line.
#[derive(Clone, Copy, Debug, PartialEq, Eq)]
pub struct ProgressLine {
    /// The seconds since the run began.
    pub seconds: u64,
    /// The number of levels, with the one that is being searched.
    pub levels: u64,
    /// What is done with the level.
    pub pass: Pass,
    /// How many states were found, at least.
    pub states: u64,
    /// The states of the level whose steps are still to be read, at most. None in other passes.
    pub left: Option<u64>,
    /// How many states a second were examined since the line before.
    pub per_second: u64,
    /// The memory in use, in kilobytes, if it is known.
    pub memory: Option<u64>,
}

impl fmt::Display for ProgressLine {
    fn fmt<W: fmt::Write>(&self, f: &mut fmt::Formatter<W>) -> fmt::Result {
        let seconds = self.seconds;
        let levels = self.levels;
        let pass = pass_text(self.pass);
        let states = self.states;
        let per_second = self.per_second;
        write!(f, "tlacheck: {seconds} s, level {levels}, {pass}")?;
        write!(f, ": at least {states} states found")?;
        if let Some(left) = self.left {
            write!(f, ", at most {left} left in the level")?;
        }
        write!(f, ", {per_second} a second")?;
        match self.memory {
            Some(memory) => {
                let megabytes = memory / MEGABYTE;
                write!(f, ", {megabytes} MB")
            }
            None => Ok(()),
        }
    }
}

fn pass_text(pass: Pass) -> &'static str {
    match pass {
        Pass::Invariants => "invariants",
        Pass::Steps => "steps",
        Pass::Merge => "merge",
    }
}
