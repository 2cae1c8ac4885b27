//! The report and the status of checks, compared with the expected ones.

use crate::case::Row;
use std::alloc::Global;
use std::io;
use std::sync::Wait;
use std::thread::Threads;
use tla_check::{NoGate, Options, check, read_line, write_report};

/// The files of a case.
#[derive(Drop)]
pub struct CaseFiles {
    pub module: Vec<u8>,
    pub config: Vec<u8>,
    pub report: Vec<u8>,
}

/// The status of a line that is refused, which has no report.
const REFUSED_LINE: u8 = 21;

/// The status of a text that is refused.
const REFUSED_TEXT: u8 = 20;

/// The numbers of workers and of states in a piece by which texts are checked again.
const WORKERS: [u64; 4] = [1, 2, 7, 64];

const CUTS: [u64; 3] = [1, 3, 65_536];

/// The numbers of workers and of states in a piece with which a text is checked again.
#[derive(Clone, Copy)]
enum Again {
    /// Each number of workers with each number of states.
    ByEach,
    /// The pair in turn for the text with this number. Twelve texts use all pairs.
    InTurn(usize),
}

/// The status and the report of a check.
#[derive(Drop)]
struct Ending {
    status: u8,
    report: Vec<u8>,
}

/// The last line of a report if no level was searched.
const NO_LEVEL: &[u8] = b"Levels 0, states 0.\n";

/// Whether levels were searched, and so workers were used.
fn is_searched(ending: &Ending) -> bool {
    ending.status != REFUSED_TEXT && !ending.report.as_slice().ends_with(NO_LEVEL)
}

/// The status and the report of a check of these texts, or none if the report isn't written.
fn ending_of<R: Threads + Wait + Sync>(
    rt: &R,
    alloc: Global,
    module: &[u8],
    config: &[u8],
    options: &Options,
) -> Option<Ending> {
    let mut report = Vec::new(alloc);
    let checked = check(rt, alloc, module, config, options, &NoGate);
    match write_report(&checked, &mut report) {
        Ok(()) => Some(Ending {
            status: checked.status(),
            report,
        }),
        Err(_) => None,
    }
}

/// Whether a check of these texts with these options has the expected ending.
fn ends_alike<R: Threads + Wait + Sync>(
    rt: &R,
    alloc: Global,
    texts: (&[u8], &[u8]),
    options: Option<Options>,
    wanted: &Ending,
) -> bool {
    let Some(options) = options else {
        return false;
    };
    match ending_of(rt, alloc, texts.0, texts.1, &options) {
        Some(ending) => ending.status == wanted.status && ending.report == wanted.report,
        None => false,
    }
}

/// The same for each number of workers with each number of states.
fn ends_alike_by_each<R: Threads + Wait + Sync>(
    rt: &R,
    alloc: Global,
    texts: (&[u8], &[u8]),
    limit: u64,
    wanted: &Ending,
) -> bool {
    for workers in WORKERS {
        for cut in CUTS {
            let options = Options::new(workers, cut, limit);
            if !ends_alike(rt, alloc, texts, options, wanted) {
                return false;
            }
        }
    }
    true
}

/// Whether further checks of these texts have the expected ending.
fn ends_alike_again<R: Threads + Wait + Sync>(
    rt: &R,
    alloc: Global,
    texts: (&[u8], &[u8]),
    again: Again,
    limit: u64,
    wanted: &Ending,
) -> bool {
    match again {
        Again::ByEach => ends_alike_by_each(rt, alloc, texts, limit, wanted),
        Again::InTurn(text) => {
            let workers = WORKERS[text % WORKERS.len()];
            let options = Options::new(workers, CUTS[text % CUTS.len()], limit);
            ends_alike(rt, alloc, texts, options, wanted)
        }
    }
}

/// The options in the words of the command line after the two files, or None if the line is refused.
pub fn options_of(alloc: Global, words: &[&str]) -> io::Result<Option<Options>> {
    let mut all = vec![in alloc; "tlacheck", "MODULE", "CONFIG"]?;
    all.extend_from_slice(words)?;
    let Ok(line) = read_line(alloc, all.as_slice()) else {
        return Ok(None);
    };
    Ok(Some(line.options))
}

/// The status and the report of a check of these texts, or none if the report isn't written or a further check ends
/// differently. `options` are words of the command line.
fn reported<R: Threads + Wait + Sync>(
    rt: &R,
    alloc: Global,
    module: &[u8],
    config: &[u8],
    options: &[&str],
    again: Again,
) -> io::Result<Option<(u8, Vec<u8>)>> {
    let Some(options) = options_of(alloc, options)? else {
        return Ok(Some((REFUSED_LINE, Vec::new(alloc))));
    };
    let Some(first) = ending_of(rt, alloc, module, config, &options) else {
        return Ok(None);
    };
    let limit = options.limit();
    if !is_searched(&first) || ends_alike_again(rt, alloc, (module, config), again, limit, &first) {
        Ok(Some((first.status, first.report)))
    } else {
        Ok(None)
    }
}

/// Whether the check of these texts writes this report and ends with this status.
pub fn is_as_wanted<R: Threads + Wait + Sync>(
    rt: &R,
    alloc: Global,
    module: &[u8],
    config: &[u8],
    options: &[&str],
    status: u8,
    report: &[u8],
) -> io::Result<bool> {
    match reported(rt, alloc, module, config, options, Again::ByEach)? {
        Some(answer) => Ok(answer.0 == status && answer.1.as_slice() == report),
        None => Ok(false),
    }
}

/// Whether the check of the case with the options of each of these lines ends with the status of the line and writes
/// the report of the case.
pub fn options_are_as_wanted<R: Threads + Wait + Sync>(
    rt: &R,
    alloc: Global,
    files: &CaseFiles,
    lines: &str,
) -> io::Result<bool> {
    for (number, line) in lines.lines().enumerate() {
        let Some(row) = Row::read(alloc, line)? else {
            return Ok(false);
        };
        let again = Again::InTurn(number);
        let options = row.options.as_slice();
        match reported(rt, alloc, &files.module, &files.config, options, again)? {
            Some((status, report)) if status == row.status && report == files.report => {}
            _ => return Ok(false),
        }
    }
    Ok(!lines.is_empty())
}

/// Whether line n of the report, from 0, is the report of the module's first n bytes.
pub fn prefixes_are_as_wanted<R: Threads + Wait + Sync>(
    rt: &R,
    alloc: Global,
    files: &CaseFiles,
) -> io::Result<bool> {
    let lines = files.report.split_inclusive(|b| *b == b'\n');
    for (len, report) in lines.enumerate() {
        let Some(module) = files.module.get(..len) else {
            return Ok(false);
        };
        let again = Again::InTurn(len);
        match reported(rt, alloc, module, &files.config, &[], again)? {
            Some(answer) if answer.0 == REFUSED_TEXT && answer.1.as_slice() == report => {}
            _ => return Ok(false),
        }
    }
    Ok(!files.report.is_empty())
}

/// The closing line of a module.
const CLOSING: &[u8] = b"====\n";

/// Whether the reports of the module with each of these lines as its last, concatenated, are the report of the case.
pub fn lines_are_as_wanted<R: Threads + Wait + Sync>(
    rt: &R,
    alloc: Global,
    files: &CaseFiles,
    lines: &[u8],
) -> io::Result<bool> {
    let mut wanted = files.report.as_slice();
    for (number, line) in lines.split_inclusive(|b| *b == b'\n').enumerate() {
        let mut module = Vec::new(alloc);
        module.extend_from_slice(&files.module)?;
        module.extend_from_slice(line)?;
        module.extend_from_slice(CLOSING)?;
        let again = Again::InTurn(number);
        let Some(answer) = reported(rt, alloc, &module, &files.config, &[], again)? else {
            return Ok(false);
        };
        let Some(rest) = wanted.strip_prefix(answer.1.as_slice()) else {
            return Ok(false);
        };
        wanted = rest;
    }
    Ok(wanted.is_empty())
}

/// The separator of the texts of a file `texts`.
const BETWEEN: u8 = b'\x0c';

/// Whether the reports of each module of these texts with the configuration after it, concatenated, are this one. False
/// for a module without a configuration.
pub fn texts_are_as_wanted<R: Threads + Wait + Sync>(
    rt: &R,
    alloc: Global,
    texts: &[u8],
    report: &[u8],
) -> io::Result<bool> {
    let mut wanted = report;
    let mut module: Option<&[u8]> = None;
    for (number, text) in texts.split(|b| *b == BETWEEN).enumerate() {
        let Some(first) = module else {
            module = Some(text);
            continue;
        };
        let again = Again::InTurn(number / 2);
        let Some(answer) = reported(rt, alloc, first, text, &[], again)? else {
            return Ok(false);
        };
        let Some(rest) = wanted.strip_prefix(answer.1.as_slice()) else {
            return Ok(false);
        };
        wanted = rest;
        module = None;
    }
    Ok(wanted.is_empty() && module.is_none())
}
