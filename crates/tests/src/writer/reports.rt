//! Reports of whole checks, to writers that run full, take few bytes per call or are interrupted once: a prefix is
//! written, and its length is returned.

use crate::specifications::{COUNTER, JUGS, Specification, TWO};
use crate::writer::{ENDS, Narrow};
use std::alloc::Global;
use std::io;
use std::io::Write;
use std::process::Abort;
use tla_check::{Checked, NoGate, Options, WriteFault, check, write_report};

/// Whether a report is written to such a writer as far as there is room, and its length is returned.
fn is_cut(checked: &Checked, report: &[u8], room: usize, mut out: Narrow) -> bool {
    let result = write_report(checked, &mut out);
    if room < report.len() {
        let written = room as u64;
        result == Err(WriteFault { written }) && out.taken.as_slice() == &report[..room]
    } else {
        result == Ok(()) && out.taken.as_slice() == report
    }
}

/// Writes a report with room for each number of its bytes, and each kind of end.
fn assert_cuts(rt: &impl Abort, alloc: Global, checked: &Checked, report: &[u8]) {
    for step in [1, usize::MAX] {
        for end in &ENDS {
            for room in 0..=report.len() {
                let out = Narrow::new(alloc, step, room, *end);
                assert!(rt; is_cut(checked, report, room, out), "{room} bytes");
            }
        }
    }
}

static SPECIFICATIONS: [Specification; 3] = [COUNTER, JUGS, TWO];

#[test]
fn a_report_ends_where_its_writer_does(rt: HostRuntime) {
    for specification in &SPECIFICATIONS {
        let options = Options::new(1, 1024, 100);
        assert!(rt; options.is_some());
        if let Some(options) = options {
            let checked = check(
                &rt,
                rt.alloc(),
                specification.module.as_bytes(),
                specification.config.as_bytes(),
                &options,
                &NoGate,
            );
            assert!(rt; checked.status() == specification.status);
            assert_cuts(&rt, rt.alloc(), &checked, specification.report.as_bytes());
        }
    }
}

/// Takes all bytes, and counts them and the writes.
#[derive(Drop)]
struct Tally {
    bytes: usize,
    writes: usize,
}

impl Write for Tally {
    fn write(&mut self, buf: &[u8]) -> io::Result<usize> {
        self.bytes = self.bytes.saturating_add(buf.len());
        self.writes = self.writes.saturating_add(1);
        Ok(buf.len())
    }

    fn flush(&mut self) -> io::Result<()> {
        Ok(())
    }
}

/// A specification whose trace has 15,001 states.
static CHAIN: &str = "---- MODULE Chain ----
EXTENDS Naturals
VARIABLE x
Init == x = 0
Next == x' = x + 1
Inv == x < 15000
====
";

#[test]
fn a_long_report_takes_few_writes(rt: HostRuntime) {
    let options = Options::new(1, 1024, 100_000);
    assert!(rt; options.is_some());
    if let Some(options) = options {
        let config = b"INIT Init NEXT Next INVARIANT Inv";
        let checked = check(&rt, rt.alloc(), CHAIN.as_bytes(), config, &options, &NoGate);
        let mut out = Tally {
            bytes: 0,
            writes: 0,
        };
        assert!(rt; write_report(&checked, &mut out) == Ok(()));
        assert!(rt; out.bytes > 300_000 && out.writes <= 100);
    }
}
