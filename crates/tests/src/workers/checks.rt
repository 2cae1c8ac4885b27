//! Checks by workers.

use crate::specifications::{JUGS, Specification};
use std::sync::Wait;
use std::thread::Threads;
use tla_check::{Gate, NoGate, Options, check_and_report};

/// The number of workers of a check, and of states in a piece.
#[derive(Clone, Copy)]
pub struct Crew {
    pub workers: u64,
    pub cut: u64,
}

/// The limit on the states of a check.
const LIMIT: u64 = 100_000;

/// Whether the check of a specification by these workers ends with its status and its report.
pub fn ends_as_wanted<G: Gate, R: AllocGlobal + Threads + Wait + Sync>(
    rt: &R,
    specification: &Specification,
    crew: Crew,
    gate: &G,
) -> bool {
    let Some(options) = Options::new(crew.workers, crew.cut, LIMIT) else {
        return false;
    };
    let mut out = Vec::new(rt.alloc());
    let answer = check_and_report(
        rt,
        rt.alloc(),
        specification.module.as_bytes(),
        specification.config.as_bytes(),
        &options,
        gate,
        &mut out,
    );
    answer == Ok(specification.status) && out.as_slice() == specification.report.as_bytes()
}

const EIGHT: Crew = Crew { workers: 8, cut: 1 };

static MEASURED: Specification = JUGS;

#[test]
fn a_thousand_runs_give_the_same_bytes(rt: HostRuntime) {
    for run in 0..1000u64 {
        assert!(rt; ends_as_wanted(&rt, &MEASURED, EIGHT, &NoGate), "{run}");
    }
}
