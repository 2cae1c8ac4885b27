//! A run of the process.
ghost use Rattle.std.specs.Prelude.{◌≡◌};
ghost use Rattle.tla_run.specs.Runs.{IsSomeRun};

use crate::hints::split_name;
use crate::host::{Host, Inputs};
use crate::running::{NO_REPORT, run};
use std::alloc::Global;
use std::fs::OpenFile;
use std::io::{Eprint, ErrorKind, Write};
use std::rt::{Env, Files};
use std::sync::Wait;
use std::thread::Threads;
use std::time::{Clock, Instant};
use std::{env, fs, io};
use tla_check::{Checked, Gate, GatePlace, Line, LineFault};
use tla_explain::{FileNames, Style, explain, write_document, write_graph};
use tla_progress::{GreatestLevel, Memory, Progress, RunSummary};

/// The most files of a folder that are searched for a near name.
const MOST_FILES: usize = 10_000;

/// Runs the program on the process's own words and files, with these writers for its standard output and its standard
/// error, and returns the exit status. Progress lines show the memory in use.
#[tactic(auto, using(crate::proofs::RunLemmas::runs_some, crate::proofs::RunLemmas::runs_none))]
pub fn run_process<
    O: Write,
    E: Write,
    R: AllocGlobal + Clock + Env + Eprint + Files + Threads + Wait + Sync,
    M: Memory + Sync,
>(rt: &R, memory: &M, out: &mut O, err: &mut E) -> u8
    ensures { IsSomeRun (record { old = O.contents out.old; new = O.contents out.new })
        (record { old = E.contents err.old; new = E.contents err.new }) result }
{
    let greatest = GreatestLevel::new();
    let process = Process {
        rt,
        memory,
        greatest: &greatest,
    };
    match words(rt) {
        Ok(words) => run(rt, rt.alloc(), &words, &process, out, err),
        Err(error) => tell_no_words(&error, err),
    }
}

/// The process as the host of a run.
#[derive(Drop)]
struct Process<'a, R, M> {
    rt: &'a R,
    memory: &'a M,
    /// The greatest level of its search.
    greatest: &'a GreatestLevel,
}

/// The gate of a search that isn't quiet. It is the first to read the clock.
#[derive(Drop)]
struct Watch<'a, R, M> {
    /// When the search began, if there is a clock.
    began: Option<Instant>,
    progress: Progress<'a, R, M>,
}

impl<R: Clock + Eprint + Sync, M: Memory + Sync> Gate for Watch<'_, R, M> {
    fn enter(&self, place: &GatePlace) {
        self.progress.enter(place);
    }

    fn leave(&self, place: &GatePlace, dropped: bool) {
        self.progress.leave(place, dropped);
    }
}

impl<'a, R: AllocGlobal + Clock + Eprint + Files + Sync, M: Memory + Sync> Host
    for Process<'a, R, M> {
    type File = R::File;

    type NewFile = R::File;

    type Gate = Watch<'a, R, M>;

    fn open(&self, name: &str) -> io::Result<R::File> {
        let file = fs::open(self.rt, name)?;
        match file.metadata() {
            Ok(metadata) if metadata.is_dir() => Err(io::Error::from(ErrorKind::IsADirectory)),
            Ok(_) | Err(_) => Ok(file),
        }
    }

    fn files_beside(&self, alloc: Global, name: &str) -> io::Result<Vec<String>> {
        let (folder, _) = split_name(name);
        let folder = if folder.is_empty() { "." } else { folder };
        let mut names = Vec::new(alloc);
        for entry in fs::read_dir(&self.rt, folder)?.take(MOST_FILES) {
            if let Ok(entry) = entry {
                names.push(String::from_str(alloc, entry.file_name())?)?;
            }
        }
        Ok(names)
    }

    fn create(&self, name: &str) -> io::Result<R::File> {
        fs::create(self.rt, name)
    }

    fn gate(&self, line: &Line<'_>) -> Watch<'a, R, M> {
        let began = Instant::now(self.rt).ok();
        let cut = line.options.cut();
        Watch {
            began,
            progress: Progress::new(self.rt, self.memory, began, cut, self.greatest),
        }
    }

    fn explain<E: Write>(
        &self,
        err: &mut E,
        inputs: &Inputs<'_>,
        checked: &Checked,
        gate: &Watch<'a, R, M>,
    ) {
        let summary = self.summary(inputs.line, checked, gate.began);
        let style = Style {
            full: inputs.line.full,
            coverage: inputs.line.coverage,
        };
        let names = names(inputs.line);
        let (module, config) = (inputs.module, inputs.config);
        // A failure here isn't reported: the report is written already.
        let _ = explain(self.rt.alloc(), err, &names, module, config, checked, style);
        if let Some(summary) = summary {
            let _ = writeln!(err, "{summary}");
        }
    }

    fn write_document(
        &self,
        file: &mut R::File,
        inputs: &Inputs<'_>,
        checked: &Checked,
    ) -> io::Result<()> {
        let names = names(inputs.line);
        write_document(
            self.rt.alloc(),
            file,
            &names,
            inputs.module,
            inputs.config,
            checked,
            inputs.line.coverage,
        )
    }

    fn write_graph(
        &self,
        file: &mut R::File,
        inputs: &Inputs<'_>,
        checked: &Checked,
    ) -> io::Result<()> {
        write_graph(self.rt.alloc(), file, inputs.module, inputs.config, checked)
    }
}

/// The names of the two files, for the user.
fn names<'a>(line: &Line<'a>) -> FileNames<'a> {
    FileNames {
        module: line.module,
        configuration: line.config,
    }
}

impl<R: Clock, M> Process<'_, R, M> {
    /// The summary of a long run.
    fn summary(
        &self,
        line: &Line<'_>,
        checked: &Checked,
        began: Option<Instant>,
    ) -> Option<RunSummary> {
        let Checked::Answered(answered) = checked else {
            return None;
        };
        let counts = answered.answer.counts();
        let greatest = self.greatest.greatest(line.options.cut());
        RunSummary::since(self.rt, began, counts.levels, counts.states, greatest)
    }
}

/// The words of the command line, the program's name first.
fn words<R: AllocGlobal + Env>(rt: &R) -> io::Result<Vec<String>> {
    let mut words = Vec::new(rt.alloc());
    for word in env::args(rt)? {
        words.push(word)?;
    }
    Ok(words)
}

/// Says why the words can't be read.
fn tell_no_words<E: Write>(error: &io::Error, err: &mut E) -> u8
    ensures { result ≡ 21 }
{
    let _ = match error.kind() {
        ErrorKind::OutOfMemory => write!(err, "{}", LineFault::Memory),
        _ => err.write_all(b"tlacheck: the command line is not UTF-8\n"),
    };
    NO_REPORT
}
