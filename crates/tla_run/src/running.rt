//! The run.
ghost use Rattle.std.specs.Prelude.{◌≡◌, true, false, IfOk, IfErr, map, string_bytes};
ghost use Rattle.clap.specs.Walk.{texts};
ghost use Rattle.tla_line.specs.LineFault.{IsNoLine};
ghost use Rattle.tla_run.specs.Private.Reading.{HoldsBoth};
ghost use Rattle.tla_run.specs.Runs.{ComesTo, Files, GetsNothing, Holds, IsRun, Writing};

use crate::files::{NewFiles, create_files, write_files};
use crate::host::{Host, Inputs};
use crate::input::read_whole;
use crate::messages::{
    complain, tell_no_memory, tell_uncreated, tell_unread, tell_unwritten, tell_unwritten_report,
};
use crate::unread::{Unread, UnreadFile};
use crate::words::as_texts;
use std::alloc::Global;
use std::io::Write;
use std::sync::Wait;
use std::thread::Threads;
use tla_check::{Line, NoGate, check, write_report};
use tla_line::{NoLine, read_words};

/// The status of a run without a complete report, because of its command line, a file or a failed write.
pub const NO_REPORT: u8 = 21;

/// Runs the program on the words of its command line, its own name first, and returns the exit status. The report goes
/// to `out`, and all else to `err`.
///
/// Each file is read whole, in at most 1,000,000 reads of up to 65,536 bytes. The output files are created before the
/// search, and written after the report. A failed write of the report ends the run.
#[tactic(auto, using(crate::proofs::RunLemmas::runs_line))]
pub fn run<H: Host, O: Write, E: Write, R: Threads + Wait + Sync>(
    rt: &R,
    alloc: Global,
    words: &[String],
    host: &H,
    out: &mut O,
    err: &mut E,
) -> u8
    ensures { IsRun (map string_bytes words.now) (H.files host.now)
        (record { old = O.contents out.old; new = O.contents out.new })
        (record { old = E.contents err.old; new = E.contents err.new }) result }
{
    let Ok(texts) = as_texts(alloc, words) else {
        tell_no_memory(err);
        return NO_REPORT;
    };
    let texts = texts.as_slice();
    match read_words(alloc, texts) {
        Ok(line) => run_line(rt, alloc, &line, host, out, err),
        Err(no_line) => refuse(alloc, &no_line, texts, host, out, err),
    }
}

/// Says why the words mean no line, or writes the help that they ask for.
fn refuse<H: Host, O: Write, E: Write>(
    alloc: Global,
    no_line: &NoLine,
    words: &[&str],
    host: &H,
    out: &mut O,
    err: &mut E,
) -> u8
    ensures { (files : Files) → IsNoLine (texts words.now) no_line.now
        → IsRun (texts words.now) files
        (record { old = O.contents out.old; new = O.contents out.new })
        (record { old = E.contents err.old; new = E.contents err.new }) result }
{
    if no_line.fault.is_help() {
        return match write!(out, "{}", no_line.fault) {
            Ok(()) => 0,
            Err(_) => NO_REPORT,
        };
    }
    complain(alloc, host, no_line, words, err);
    NO_REPORT
}

/// Checks the files of a line and writes the report.
#[tactic(auto, using(crate::proofs::RunLemmas::holds_both))]
fn run_line<H: Host, O: Write, E: Write, R: Threads + Wait + Sync>(
    rt: &R,
    alloc: Global,
    line: &Line<'_>,
    host: &H,
    out: &mut O,
    err: &mut E,
) -> u8
    ensures { ComesTo (H.files host.now) line.now
        (record { old = O.contents out.old; new = O.contents out.new })
        (record { old = E.contents err.old; new = E.contents err.new }) result }
{
    let module = match read(alloc, host, line.module, ".tla") {
        Ok(bytes) => bytes,
        Err(file) => {
            tell_unread(alloc, host, line.quiet, &file, err);
            return NO_REPORT;
        }
    };
    let config = match read(alloc, host, line.config, ".cfg") {
        Ok(bytes) => bytes,
        Err(file) => {
            tell_unread(alloc, host, line.quiet, &file, err);
            return NO_REPORT;
        }
    };
    let mut files = match create_files(host, line) {
        Ok(files) => files,
        Err(file) => {
            tell_uncreated(line.quiet, &file, err);
            return NO_REPORT;
        }
    };
    let inputs = Inputs {
        line,
        module: module.as_slice(),
        config: config.as_slice(),
    };
    if line.quiet {
        run_quietly(rt, alloc, &inputs, host, &mut files, out)
    } else {
        run_openly(rt, alloc, &inputs, host, &mut files, out, err)
    }
}

/// Checks the texts and writes the report, and nothing to standard error.
fn run_quietly<H: Host, O: Write, R: Threads + Wait + Sync>(
    rt: &R,
    alloc: Global,
    inputs: &Inputs<'_>,
    host: &H,
    files: &mut NewFiles<H::NewFile>,
    out: &mut O,
) -> u8
    requires quiet { inputs.now.line.now.quiet ≡ true }
    requires reads { HoldsBoth (H.files host.now) inputs.now }
    ensures { (err : Writing) → GetsNothing err → ComesTo (H.files host.now) inputs.now.line.now
        (record { old = O.contents out.old; new = O.contents out.new }) err result }
{
    let options = inputs.line.options.leaving_table();
    let checked = check(rt, alloc, inputs.module, inputs.config, &options, &NoGate);
    if write_report(&checked, out).is_err() {
        return NO_REPORT;
    }
    let _ = write_files(host, files, inputs, &checked);
    checked.status()
}

/// Checks the texts, writes the report and explains it.
fn run_openly<H: Host, O: Write, E: Write, R: Threads + Wait + Sync>(
    rt: &R,
    alloc: Global,
    inputs: &Inputs<'_>,
    host: &H,
    files: &mut NewFiles<H::NewFile>,
    out: &mut O,
    err: &mut E,
) -> u8
    requires not_quiet { inputs.now.line.now.quiet ≡ false }
    requires reads { HoldsBoth (H.files host.now) inputs.now }
    ensures { ComesTo (H.files host.now) inputs.now.line.now
        (record { old = O.contents out.old; new = O.contents out.new })
        (record { old = E.contents err.old; new = E.contents err.new }) result }
{
    let gate = host.gate(inputs.line);
    let options = inputs.line.options.leaving_table();
    let checked = check(rt, alloc, inputs.module, inputs.config, &options, &gate);
    if write_report(&checked, out).is_err() {
        tell_unwritten_report(err);
        return NO_REPORT;
    }
    host.explain(err, inputs, &checked, &gate);
    let unwritten = write_files(host, files, inputs, &checked);
    tell_unwritten(&unwritten, err);
    checked.status()
}

/// The bytes of the file of a name, if it can be read. A file of its kind has the extension `ending`.
fn read<'a, H: Host>(
    alloc: Global,
    host: &H,
    name: &'a str,
    ending: &'static str,
) -> Result<Vec<u8>, UnreadFile<'a>>
    ensures bytes { IfOk result (λ v. Holds (H.files host.now) name.now v.items) }
    ensures name { IfErr result (λ file. file.name ≡ name.entry) }
{
    let mut file = match host.open(name) {
        Ok(file) => file,
        Err(error) => {
            return Err(UnreadFile {
                name,
                cause: Unread::by_kind(error.kind()),
                ending,
            });
        }
    };
    match read_whole(alloc, &mut file) {
        Ok(bytes) => Ok(bytes),
        Err(fault) => Err(UnreadFile {
            name,
            cause: Unread::by_fault(fault),
            ending,
        }),
    }
}
