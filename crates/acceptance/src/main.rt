//! Runs the acceptance cases and single calls of the libraries, and prints the results.
//!
//! Each word of the command line is a task: `cases` runs the cases of the data folder and names those that differ;
//! `codes` names each code whose text differs between the document CODES.md and the program; any other word names a
//! call, whose result is printed with what it borrowed, before and after. If memory runs out in a call or for its
//! inputs, or a worker can't be started, the status is 22, as for a check.
#![tactic(auto)]

mod call;
mod case;
mod cases;
mod codes;
mod hashing;
mod inputs;
mod outcome;
mod outputs;
mod printing;
mod refusal;
mod subject;

use call::{Made, make};
use cases::run_cases;
use codes::compare_codes;
use printing::print_result;
use refusal::Refusal;
use std::io::Write;
use std::process::ExitCode;
use std::rt::{Env, Files};
use std::sync::Wait;
use std::thread::Threads;
use std::{env, io};
use subject::subject_of;

const NO_ANSWER: u8 = 22;

/// The exit status of a call.
fn status_of(made: &Result<Made, Refusal>) -> u8 {
    let refusal = match made {
        Ok(made) => made.answer.as_ref().err(),
        Err(refusal) => Some(refusal),
    };
    match refusal {
        Some(refusal) if refusal.says_nothing() => NO_ANSWER,
        _ => 0,
    }
}

/// Makes the call of this name, prints it, and returns its exit status.
fn make_named<R: AllocGlobal + Threads + Wait + Sync, W: Write>(
    rt: &R,
    name: &str,
    out: &mut W,
) -> io::Result<u8> {
    let Some(subject) = subject_of(name) else {
        return Ok(0);
    };
    let made = make(rt, subject);
    let printed = print_result(out, &made);
    let status = status_of(&made);
    drop(made);
    printed?;
    Ok(status)
}

/// Does the tasks of the command line, and returns the status.
fn run_words<R: AllocGlobal + Env + Files + Threads + Wait + Sync, W: Write>(
    rt: &R,
    out: &mut W,
) -> io::Result<u8> {
    let mut status = 0;
    for word in env::args(rt)?.skip(1) {
        writeln!(out, "{word}")?;
        match word.as_str() {
            "cases" => run_cases(rt, out)?,
            "codes" => compare_codes(rt, out)?,
            name => {
                let ended = make_named(rt, name, out)?;
                status = status.max(ended);
            }
        }
    }
    Ok(status)
}

fn main(rt: HostRuntime) -> ExitCode {
    ExitCode::from(run_words(&rt, &mut io::writer(&rt)).unwrap_or(NO_ANSWER))
}
