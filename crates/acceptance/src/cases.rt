//! Runs the cases of the data folder, and names those whose report, explanation or status isn't the expected one.
//!
//! Each case is checked with its own options. If levels are searched, it is checked again with each combination of 1,
//! 2, 7 and 64 workers and pieces of 1, 3 and 65,536 states. If a case has many texts or many options, each is checked
//! again with one of these twelve combinations, in turn. All reports of a text must be the same bytes.
//!
//! The file `active` names the groups, a line each, and `GROUP/active` has a line for each case of the group: the name
//! of its folder, what is compared, and words of the command line. What is compared is one of these:
//!
//! - a status: the folder has `module.tla`, `model.cfg` and the expected `report`, with this
//!   exit status;
//! - `options`: the same three files, and `options`, whose lines have a status and words of the
//!   command line each;
//! - `prefixes`: the same three files; the module is checked cut short after 0, 1, .. bytes, each
//!   time with the next line of `report` as the report, and status 20;
//! - `lines`: the same three files, and `lines`; each of its lines in turn ends the module, and
//!   `report` has the reports of all, one after the other;
//! - `texts`: the folder has `texts` and `report`; `texts` has modules, each followed by its
//!   configuration, with a form feed between each two texts, and `report` has the reports of all;
//! - `explanation`: the folder has `module.tla`, `model.cfg` and `expected`, the explanation;
//!   `whole` and `counted` are the same with values shown whole and with the steps of each part of
//!   Next, and `graph` and `document` compare the graph of the states and the document of the run,
//!   `counted-document` one with these steps; `swapped` checks the two files in the wrong order;
//! - `explanations`: the folder has `texts` and `expected`, which has the explanation of each module
//!   and configuration, with a form feed between each two.

use crate::case::{Case, Wanted};
use crate::outcome::{
    CaseFiles, is_as_wanted, lines_are_as_wanted, options_are_as_wanted, options_of,
    prefixes_are_as_wanted, texts_are_as_wanted,
};
use crate::outputs::{Form, explains_as_expected, writes_as_expected};
use std::io::Write;
use std::rt::Files;
use std::sync::Wait;
use std::thread::Threads;
use std::{fs, io};

fn path_of<R: AllocGlobal>(rt: &R, folder: &str, file: &str) -> io::Result<String> {
    Ok(format!(in rt.alloc(); "{folder}/{file}")?)
}

fn bytes_of<R: AllocGlobal + Files>(rt: &R, folder: &str, file: &str) -> io::Result<Vec<u8>> {
    let path = path_of(rt, folder, file)?;
    fs::read(rt, path.as_str())
}

fn text_of<R: AllocGlobal + Files>(rt: &R, folder: &str, file: &str) -> io::Result<String> {
    let path = path_of(rt, folder, file)?;
    fs::read_to_string(rt, path.as_str())
}

fn files_of<R: AllocGlobal + Files>(rt: &R, folder: &str) -> io::Result<CaseFiles> {
    Ok(CaseFiles {
        module: bytes_of(rt, folder, "module.tla")?,
        config: bytes_of(rt, folder, "model.cfg")?,
        report: bytes_of(rt, folder, "report")?,
    })
}

/// Whether a check writes what the file `expected` of the case has.
fn writes<R: AllocGlobal + Files + Threads + Wait + Sync>(
    rt: &R,
    case: &Case<'_>,
    form: Form,
) -> io::Result<bool> {
    let folder = case.folder.as_str();
    let module = bytes_of(rt, folder, "module.tla")?;
    let configuration = bytes_of(rt, folder, "model.cfg")?;
    let expected = bytes_of(rt, folder, "expected")?;
    let Some(options) = options_of(rt.alloc(), case.options.as_slice())? else {
        return Ok(false);
    };
    let alloc = rt.alloc();
    writes_as_expected(
        rt,
        alloc,
        &module,
        &configuration,
        &options,
        form,
        &expected,
    )
}

/// Whether the explanations of the texts of the case are those in its file `expected`.
fn explains_each<R: AllocGlobal + Files + Threads + Wait + Sync>(
    rt: &R,
    case: &Case<'_>,
) -> io::Result<bool> {
    let folder = case.folder.as_str();
    let texts = bytes_of(rt, folder, "texts")?;
    let expected = bytes_of(rt, folder, "expected")?;
    let Some(options) = options_of(rt.alloc(), case.options.as_slice())? else {
        return Ok(false);
    };
    explains_as_expected(rt, rt.alloc(), &texts, &options, &expected)
}

fn passes<R: AllocGlobal + Files + Threads + Wait + Sync>(
    rt: &R,
    case: &Case<'_>,
) -> io::Result<bool> {
    let folder = case.folder.as_str();
    match case.wanted {
        Wanted::Status(status) => {
            let files = files_of(rt, folder)?;
            is_as_wanted(
                rt,
                rt.alloc(),
                &files.module,
                &files.config,
                case.options.as_slice(),
                status,
                &files.report,
            )
        }
        Wanted::Options => {
            let files = files_of(rt, folder)?;
            let lines = text_of(rt, folder, "options")?;
            options_are_as_wanted(rt, rt.alloc(), &files, lines.as_str())
        }
        Wanted::Prefixes => prefixes_are_as_wanted(rt, rt.alloc(), &files_of(rt, folder)?),
        Wanted::Lines => {
            let files = files_of(rt, folder)?;
            let lines = bytes_of(rt, folder, "lines")?;
            lines_are_as_wanted(rt, rt.alloc(), &files, lines.as_slice())
        }
        Wanted::Texts => {
            let texts = bytes_of(rt, folder, "texts")?;
            let report = bytes_of(rt, folder, "report")?;
            texts_are_as_wanted(rt, rt.alloc(), texts.as_slice(), report.as_slice())
        }
        Wanted::Output(form) => writes(rt, case, form),
        Wanted::Explanations => explains_each(rt, case),
    }
}

/// Runs the cases of a group, names those that differ, and returns whether there are cases and all of them agree.
fn run_group<R: AllocGlobal + Files + Threads + Wait + Sync, W: Write>(
    rt: &R,
    group: &str,
    out: &mut W,
) -> io::Result<bool> {
    let list = text_of(rt, group, "active")?;
    let mut agree = !list.is_empty();
    for line in list.as_str().lines() {
        let passed = match Case::read(rt.alloc(), group, line)? {
            Some(case) => passes(rt, &case)?,
            None => false,
        };
        if !passed {
            writeln!(out, "  {group}/{line}")?;
            agree = false;
        }
    }
    Ok(agree)
}

/// Runs all cases, and names those that differ.
pub fn run_cases<R: AllocGlobal + Files + Threads + Wait + Sync, W: Write>(
    rt: &R,
    out: &mut W,
) -> io::Result<()> {
    let groups = fs::read_to_string(rt, "active")?;
    let mut agree = !groups.is_empty();
    for group in groups.as_str().lines() {
        if !run_group(rt, group, out)? {
            agree = false;
        }
    }
    if agree {
        writeln!(out, "  all cases agree")?;
    }
    Ok(())
}
