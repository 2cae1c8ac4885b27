//! A graph of too many states.

use std::alloc::Global;
use std::sync::Wait;
use std::test::Fail;
use std::thread::Threads;
use tla_check::{Checked, NoGate, Options, check};
use tla_run::write_graph;

/// A specification with one state more than a graph can have.
const CHAIN: &[u8] = b"---- MODULE Chain ----
EXTENDS Naturals
VARIABLES x
Init == x = 0
Next == x < 10000 /\\ x' = x + 1
====
";

const CONFIGURATION: &[u8] = b"INIT Init
NEXT Next
CHECK_DEADLOCK FALSE
";

/// The first lines of a graph.
const HEAD: &str =
    "    // 10000 states, 9999 steps. There are more states: these are the first ones.\n";

fn checked<R: Threads + Wait + Sync>(rt: &R, alloc: Global) -> Option<Checked> {
    let options = Options::new(1, 1024, 20_000)?;
    Some(check(rt, alloc, CHAIN, CONFIGURATION, &options, &NoGate))
}

fn has(written: &[u8], part: &str) -> bool {
    str::from_utf8(written).unwrap_or("").contains(part)
}

#[test]
fn a_graph_has_ten_thousand_states(rt: HostRuntime) -> Result<(), Fail> {
    let alloc = rt.alloc();
    let mut written = Vec::new(alloc);
    if let Some(checked) = checked(&rt, alloc) {
        write_graph(alloc, &mut written, CHAIN, CONFIGURATION, &checked)?;
    }
    assert!(rt;
        has(&written, HEAD) && has(&written, "    s9999 -> s10000 [label=\" Next\\l\"];\n")
    );
    assert!(rt; has(&written, "    s10000 [label=\"x = 9999\\l\"") && !has(&written, "s10001"));
    Ok(())
}
