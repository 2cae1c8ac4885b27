//! `tlacheck MODULE CONFIG`: checks a TLA+ module under a configuration, and prints the report.
#![tactic(auto)]

use std::io;
use std::process::ExitCode;
use tla_run::{ProcessMemory, run_process};

fn main(rt: HostRuntime) -> ExitCode {
    let memory = ProcessMemory::new(&rt);
    ExitCode::from(run_process(&rt, &memory, &mut io::writer(&rt), &mut rt.stderr()))
}
