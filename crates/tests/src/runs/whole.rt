//! Whole runs: what each writes to its two writers and to its output files, and its status. The reports were worked out
//! by hand.

use crate::runs::line_texts::{
    HELP, MISSING, MISSING_AND_BAD_CUT, MISSING_BESIDE, OPTION_OF_TLC, UNKNOWN_OPTION, VERSION,
};
use crate::writer::{End, Narrow};
use std::alloc::{AllocError, Global};
use std::cell::{Cell, RefCell};
use std::io;
use std::io::{ErrorKind, Read, Write};
use std::sync::Wait;
use std::test::Fail;
use std::thread::Threads;
use tla_run::{Checked, Host, Inputs, Line, NoGate, run};

// A file in memory, one whose reads fail, one without an end, and one that is a folder.
#[derive(Clone, Copy)]
enum Source<'a> {
    Text(&'a [u8]),
    Broken,
    Endless,
    Folder,
}

impl Read for Source<'_> {
    fn read(&mut self, buf: &mut [u8]) -> io::Result<usize> {
        match self {
            Source::Text(rest) => rest.read(buf),
            Source::Broken | Source::Folder => Err(io::Error::from(ErrorKind::Other)),
            Source::Endless => Ok(buf.len().min(1)),
        }
    }
}

/// A created file. Its host keeps what is written to it.
#[derive(Drop)]
struct Kept<'a> {
    texts: &'a RefCell<Vec<u8>>,
    is_full: bool,
}

impl Write for Kept<'_> {
    fn write(&mut self, buf: &[u8]) -> io::Result<usize> {
        if self.is_full {
            return Err(io::Error::from(ErrorKind::StorageFull));
        }
        match self.texts.try_borrow_mut() {
            Ok(mut texts) => texts.extend_from_slice(buf)?,
            Err(_) => return Err(io::Error::from(ErrorKind::Other)),
        }
        Ok(buf.len())
    }

    fn flush(&mut self) -> io::Result<()> {
        Ok(())
    }
}

/// Files by their names, the contents of the created ones, and the number of gates requested.
#[derive(Drop)]
struct Memory<'a> {
    files: &'a [(&'a str, Source<'a>)],
    texts: &'a RefCell<Vec<u8>>,
    gates: &'a Cell<u64>,
}

impl<'a> Host for Memory<'a> {
    type File = Source<'a>;

    type NewFile = Kept<'a>;

    type Gate = NoGate;

    fn open(&self, name: &str) -> io::Result<Source<'a>> {
        match self.files.iter().find(|file| file.0 == name) {
            Some((_, Source::Folder)) => Err(io::Error::from(ErrorKind::IsADirectory)),
            Some((_, source)) => Ok(*source),
            None => Err(io::Error::from(ErrorKind::NotFound)),
        }
    }

    fn files_beside(&self, alloc: Global, name: &str) -> io::Result<Vec<String>> {
        let folder = if name.starts_with("specs/") {
            "specs/"
        } else {
            ""
        };
        let mut names = Vec::new(alloc);
        for (file, _) in self.files {
            if let Some(rest) = file.strip_prefix(folder) {
                names.push(String::from_str(alloc, rest)?)?;
            }
        }
        Ok(names)
    }

    fn create(&self, name: &str) -> io::Result<Kept<'a>> {
        match name {
            "nowhere/out" => Err(io::Error::from(ErrorKind::NotFound)),
            "locked" => Err(io::Error::from(ErrorKind::PermissionDenied)),
            _ => Ok(Kept {
                texts: self.texts,
                is_full: name == "full",
            }),
        }
    }

    fn gate(&self, _line: &Line<'_>) -> NoGate {
        self.gates.set(self.gates.get().saturating_add(1));
        NoGate
    }

    fn explain<E: Write>(
        &self,
        err: &mut E,
        inputs: &Inputs<'_>,
        _checked: &Checked,
        _gate: &NoGate,
    ) {
        let line = inputs.line;
        let full = if line.full { ", in full" } else { "" };
        let coverage = if line.coverage { ", counted" } else { "" };
        let _ = writeln!(err, "{} under {}{full}{coverage}", line.module, line.config);
    }

    fn write_document(
        &self,
        file: &mut Kept<'a>,
        inputs: &Inputs<'_>,
        checked: &Checked,
    ) -> io::Result<()> {
        let status = checked.status();
        writeln!(
            file,
            "document of {} with status {status}",
            inputs.line.module
        )
    }

    fn write_graph(
        &self,
        file: &mut Kept<'a>,
        inputs: &Inputs<'_>,
        checked: &Checked,
    ) -> io::Result<()> {
        let status = checked.status();
        writeln!(file, "graph of {} with status {status}", inputs.line.module)
    }
}

const COUNTER: &[u8] = b"---- MODULE M ----
EXTENDS Integers
VARIABLE x
Init == x = 0
Next == x' = (x + 1) % 5
Inv == x < 5
====
";

const CHAIN: &[u8] = b"---- MODULE M ----
EXTENDS Integers
VARIABLE x
Init == x = 0
Next == x < 1 /\\ x' = x + 1
Inv == x < 1
====
";

const LARGE: &[u8] = b"---- MODULE M ----
EXTENDS Integers
VARIABLE x
Init == x = 9223372036854775807
Next == x' = x + 1
====
";

const ASSUMED: &[u8] = b"---- MODULE M ----
EXTENDS Integers
VARIABLE x
ASSUME 5 - 3 = 1
Init == x = 0
Next == x' = x
====
";

const CONFLICT: &[u8] = b"---- MODULE M ----
EXTENDS Integers
VARIABLE x
ASSUME 1 + 2 % 3 = 0
Init == x = 0
Next == x' = x
====
";

const INVARIANT: &[u8] = b"INIT Init
NEXT Next
INVARIANT Inv
";

const PLAIN: &[u8] = b"INIT Init
NEXT Next
";

const PROPERTY: &[u8] = b"INIT Init
NEXT Next
PROPERTY Live
";

static FILES: [(&str, Source<'static>); 13] = [
    ("M.tla", Source::Text(COUNTER)),
    ("M.cfg", Source::Text(INVARIANT)),
    ("Chain.tla", Source::Text(CHAIN)),
    ("Chain.cfg", Source::Text(PLAIN)),
    ("Large.tla", Source::Text(LARGE)),
    ("Assumed.tla", Source::Text(ASSUMED)),
    ("Conflict.tla", Source::Text(CONFLICT)),
    ("Property.cfg", Source::Text(PROPERTY)),
    ("Broken.tla", Source::Broken),
    ("Endless.cfg", Source::Endless),
    ("Lonely.tla", Source::Text(COUNTER)),
    ("Folder.tla", Source::Folder),
    ("specs/Queue.tla", Source::Text(COUNTER)),
];

/// Words, the status of a run on them, and what it writes to its two writers and to the files that it creates.
#[derive(Clone, Copy)]
struct Row {
    words: &'static [&'static str],
    status: u8,
    report: &'static str,
    said: &'static str,
    written: &'static str,
}

/// A row with a report that is explained.
const EXPLAINED: Row = Row {
    words: &["tlacheck", "M.tla", "M.cfg"],
    status: 0,
    report: "No error.\nLevels 5, states 5.\n",
    said: "M.tla under M.cfg\n",
    written: "",
};

/// A row without a report.
const SILENT: Row = Row {
    words: &[],
    status: 21,
    report: "",
    said: "",
    written: "",
};

static REPORTED: [Row; 15] = [
    EXPLAINED,
    Row {
        words: &["tlacheck", "M.tla", "M.cfg", "--quiet", "--explain"],
        said: "",
        ..EXPLAINED
    },
    Row {
        words: &["tlacheck", "M.tla", "M.cfg", "--full", "--coverage"],
        said: "M.tla under M.cfg, in full, counted\n",
        ..EXPLAINED
    },
    Row {
        words: &["tlacheck", "M.tla", "M.cfg", "--max-states", "4"],
        status: 14,
        report: "State limit 4 passed.\nLevels 4, states 4.\n",
        ..EXPLAINED
    },
    Row {
        words: &["tlacheck", "Chain.tla", "M.cfg", "--explain"],
        status: 10,
        report: "Invariant Inv is false.\nState 1:\n/\\ x = 0\nState 2:\n/\\ x = 1\nLevels 2, states 2.\n",
        said: "Chain.tla under M.cfg\n",
        ..EXPLAINED
    },
    Row {
        words: &["tlacheck", "--quiet", "Chain.tla", "Chain.cfg"],
        status: 11,
        report: "Deadlock.\nState 1:\n/\\ x = 0\nState 2:\n/\\ x = 1\nLevels 2, states 2.\n",
        ..SILENT
    },
    Row {
        words: &["tlacheck", "Large.tla", "Chain.cfg", "--quiet"],
        status: 12,
        report: "Fault E2 at line 5, column 14 in the next-state action.\nState 1:\n/\\ x = 9223372036854775807\nLevels 1, states 1.\n",
        ..SILENT
    },
    Row {
        words: &["tlacheck", "Assumed.tla", "Chain.cfg", "--quiet"],
        status: 13,
        report: "Assumption 1 is false.\nLevels 0, states 0.\n",
        ..SILENT
    },
    Row {
        words: &["tlacheck", "Conflict.tla", "Chain.cfg", "--quiet"],
        status: 20,
        report: "Module refused: P2 at line 4, column 14.\n",
        ..SILENT
    },
    Row {
        words: &["tlacheck", "M.tla", "Property.cfg", "--quiet"],
        status: 20,
        report: "Configuration refused: C10 at line 3, column 1: PROPERTY.\n",
        ..SILENT
    },
    Row {
        words: &["tlacheck", "M.cfg", "M.tla", "--quiet"],
        status: 20,
        report: "Module refused: L6 at line 1, column 1.\n",
        ..SILENT
    },
    Row {
        words: &["tlacheck", "M.tla", "M.cfg", "--json", "a"],
        written: "document of M.tla with status 0\n",
        ..EXPLAINED
    },
    Row {
        words: &[
            "tlacheck",
            "Chain.tla",
            "Chain.cfg",
            "--quiet",
            "--dot",
            "a",
            "--json",
            "b",
        ],
        status: 11,
        report: "Deadlock.\nState 1:\n/\\ x = 0\nState 2:\n/\\ x = 1\nLevels 2, states 2.\n",
        written: "document of Chain.tla with status 11\ngraph of Chain.tla with status 11\n",
        ..SILENT
    },
    Row {
        words: &["tlacheck", "M.tla", "M.cfg", "--json", "full", "--dot", "a"],
        said: "M.tla under M.cfg\ntlacheck: cannot write full\ncause: a write failed\n",
        written: "graph of M.tla with status 0\n",
        ..EXPLAINED
    },
    Row {
        words: &["tlacheck", "M.tla", "M.cfg", "--quiet", "--dot", "full"],
        said: "",
        ..EXPLAINED
    },
];

static UNREAD: [Row; 19] = [
    Row {
        words: &["tlacheck", "N.tla", "N.cfg"],
        said: "tlacheck: cannot read N.tla\ncause: there is no such file\n",
        ..SILENT
    },
    Row {
        words: &["tlacheck", "M", "M.cfg"],
        said: "tlacheck: cannot read M\ncause: there is no such file\nhint: did you mean M.tla?\n",
        ..SILENT
    },
    Row {
        words: &["tlacheck", "M.", "M.cfg"],
        said: "tlacheck: cannot read M.\ncause: there is no such file\nhint: did you mean M.tla?\n",
        ..SILENT
    },
    Row {
        words: &["tlacheck", "M.tla", "M"],
        said: "tlacheck: cannot read M\ncause: there is no such file\nhint: did you mean M.cfg?\n",
        ..SILENT
    },
    Row {
        words: &["tlacheck", "Chian.tla", "Chain.cfg"],
        said: "tlacheck: cannot read Chian.tla\ncause: there is no such file\nhint: did you mean Chain.tla?\n",
        ..SILENT
    },
    Row {
        words: &["tlacheck", "large", "Chain.cfg"],
        said: "tlacheck: cannot read large\ncause: there is no such file\nhint: did you mean Large.tla?\n",
        ..SILENT
    },
    Row {
        words: &["tlacheck", "Chain.tla", "Chain.tla.cfg"],
        said: "tlacheck: cannot read Chain.tla.cfg\ncause: there is no such file\n",
        ..SILENT
    },
    Row {
        words: &["tlacheck", "Chain.tla", "Chain.cgf"],
        said: "tlacheck: cannot read Chain.cgf\ncause: there is no such file\nhint: did you mean Chain.cfg?\n",
        ..SILENT
    },
    Row {
        words: &["tlacheck", "specs/Quene.tla", "Chain.cfg"],
        said: "tlacheck: cannot read specs/Quene.tla\ncause: there is no such file\nhint: did you mean specs/Queue.tla?\n",
        ..SILENT
    },
    Row {
        words: &["tlacheck", "Assume.tla", "Chain.cfg", "--quiet"],
        said: "tlacheck: cannot read Assume.tla\n",
        ..SILENT
    },
    Row {
        words: &["tlacheck", "M", "M.cfg", "--quiet"],
        said: "tlacheck: cannot read M\n",
        ..SILENT
    },
    Row {
        words: &["tlacheck", "M.tla", "N.cfg", "--quiet"],
        said: "tlacheck: cannot read N.cfg\n",
        ..SILENT
    },
    Row {
        words: &["tlacheck", "Folder.tla", "M.cfg"],
        said: "tlacheck: cannot read Folder.tla\ncause: it is a folder\n",
        ..SILENT
    },
    Row {
        words: &["tlacheck", "Broken.tla", "M.cfg"],
        said: "tlacheck: cannot read Broken.tla\ncause: it can't be opened, or a read failed\n",
        ..SILENT
    },
    Row {
        words: &["tlacheck", "M.tla", "Endless.cfg"],
        said: "tlacheck: cannot read Endless.cfg\ncause: no end within 1000000 reads\n",
        ..SILENT
    },
    Row {
        words: &["tlacheck", "M.tla", "M.cfg", "--json", "nowhere/out"],
        said: "tlacheck: cannot write nowhere/out\ncause: its folder isn't there\n",
        ..SILENT
    },
    Row {
        words: &["tlacheck", "M.tla", "M.cfg", "--dot=locked", "--quiet"],
        said: "tlacheck: cannot write locked\n",
        ..SILENT
    },
    Row {
        words: &["tlacheck", "M.tla", "M.cfg", "--dot", "M.tla"],
        said: "tlacheck: cannot write M.tla\ncause: it is one of the files to check\n",
        ..SILENT
    },
    Row {
        words: &["tlacheck", "M.tla", "M.cfg", "--dot", "a", "--json", "a"],
        said: "tlacheck: cannot write a\ncause: --json and --dot name the same file\n",
        ..SILENT
    },
];

static NO_LINE: [Row; 16] = [
    Row {
        words: &["tlacheck", "M.tla"],
        said: MISSING_BESIDE,
        ..SILENT
    },
    Row {
        words: &["tlacheck", "--workers", "2", "--", "M.tla"],
        said: MISSING_BESIDE,
        ..SILENT
    },
    Row {
        words: &["tlacheck", "M.tla", "--quiet"],
        said: MISSING,
        ..SILENT
    },
    Row {
        words: &["tlacheck", "Lonely.tla"],
        said: MISSING,
        ..SILENT
    },
    Row {
        words: &["tlacheck", "M", "--cut", "2"],
        said: MISSING_BESIDE,
        ..SILENT
    },
    Row {
        words: &["tlacheck", "M", "--cut", "0"],
        said: MISSING_AND_BAD_CUT,
        ..SILENT
    },
    Row {
        words: &["tlacheck", "M", "--cut", "0", "--quiet"],
        said: MISSING,
        ..SILENT
    },
    Row {
        words: &["tlacheck", "M.tla", "M.cfg", "--depth"],
        said: UNKNOWN_OPTION,
        ..SILENT
    },
    Row {
        words: &["tlacheck", "M.tla", "M.cfg", "-workers", "4"],
        said: OPTION_OF_TLC,
        ..SILENT
    },
    Row {
        words: &["tlacheck", "M.tla", "M.cfg", "--workers", "0"],
        said: "tlacheck: bad number\nhint: --workers takes a number from 1 to 64\n",
        ..SILENT
    },
    Row {
        words: &["tlacheck", "M", "C", "--cut", "0"],
        said: "tlacheck: bad number\nhint: --cut takes a number from 1 to 65536\n",
        ..SILENT
    },
    Row {
        words: &["tlacheck", "M", "C", "--max-states=many", "--quiet"],
        said: "tlacheck: bad number\n",
        ..SILENT
    },
    Row {
        words: &["tlacheck", "--version"],
        status: 0,
        report: VERSION,
        ..SILENT
    },
    Row {
        words: &["tlacheck", "M", "-V"],
        status: 0,
        report: VERSION,
        ..SILENT
    },
    Row {
        words: &["tlacheck", "--help"],
        status: 0,
        report: HELP,
        ..SILENT
    },
    Row {
        words: &["bin/tlacheck", "--help"],
        status: 0,
        report: HELP,
        ..SILENT
    },
];

/// The words of a call.
fn words_of(alloc: Global, words: &[&str]) -> Result<Vec<String>, AllocError> {
    let mut list = Vec::new(alloc);
    for word in words {
        list.push(String::from_str(alloc, word)?)?;
    }
    Ok(list)
}

/// What a run writes, and what it requests of its host.
#[derive(Drop)]
struct Outcome {
    status: u8,
    out: Vec<u8>,
    err: Vec<u8>,
    written: Vec<u8>,
    gates: u64,
}

/// The outcome of a run on these words.
fn outcome_of<R: Threads + Wait + Sync>(
    rt: &R,
    alloc: Global,
    words: &[&str],
) -> Result<Outcome, AllocError> {
    let words = words_of(alloc, words)?;
    let texts = RefCell::new(Vec::new(alloc));
    let gates = Cell::new(0);
    let host = Memory {
        files: &FILES,
        texts: &texts,
        gates: &gates,
    };
    let mut out = Vec::new(alloc);
    let mut err = Vec::new(alloc);
    let status = run(rt, alloc, &words, &host, &mut out, &mut err);
    drop(host);
    Ok(Outcome {
        status,
        out,
        err,
        written: texts.into_inner(),
        gates: gates.get(),
    })
}

/// The first row whose run doesn't write what the row says.
fn first_wrong<R: Threads + Wait + Sync>(
    rt: &R,
    alloc: Global,
    rows: &'static [Row],
) -> Result<Option<&'static Row>, AllocError> {
    for row in rows {
        let outcome = outcome_of(rt, alloc, row.words)?;
        let is_as_wanted = outcome.status == row.status
            && outcome.out.as_slice() == row.report.as_bytes()
            && outcome.err.as_slice() == row.said.as_bytes()
            && outcome.written.as_slice() == row.written.as_bytes();
        if !is_as_wanted {
            return Ok(Some(row));
        }
    }
    Ok(None)
}

#[test]
fn runs_with_a_report(rt: HostRuntime) -> Result<(), Fail> {
    let wrong = first_wrong(&rt, rt.alloc(), &REPORTED)?;
    assert!(rt; wrong.is_none(), "{:?}", wrong.map(|row| row.words));
    Ok(())
}

#[test]
fn runs_on_files_that_fail(rt: HostRuntime) -> Result<(), Fail> {
    let wrong = first_wrong(&rt, rt.alloc(), &UNREAD)?;
    assert!(rt; wrong.is_none(), "{:?}", wrong.map(|row| row.words));
    Ok(())
}

#[test]
fn runs_on_words_that_name_no_line(rt: HostRuntime) -> Result<(), Fail> {
    let wrong = first_wrong(&rt, rt.alloc(), &NO_LINE)?;
    assert!(rt; wrong.is_none(), "{:?}", wrong.map(|row| row.words));
    Ok(())
}

/// With `--quiet` no gate is requested, so no clock is read.
#[test]
fn a_quiet_run_asks_for_no_gate(rt: HostRuntime) -> Result<(), Fail> {
    let alloc = rt.alloc();
    let open = outcome_of(&rt, alloc, &["tlacheck", "M.tla", "M.cfg"])?;
    assert!(rt; open.gates == 1);
    let quiet = outcome_of(&rt, alloc, &["tlacheck", "M.tla", "M.cfg", "--quiet"])?;
    assert!(rt; quiet.gates == 0);
    Ok(())
}

/// The status, the number of bytes of the report written, and the message, if the writer has this much room.
fn cut_short<R: Threads + Wait + Sync>(
    rt: &R,
    alloc: Global,
    room: usize,
    words: &[&str],
) -> Result<(u8, usize, Vec<u8>), AllocError> {
    let words = words_of(alloc, words)?;
    let texts = RefCell::new(Vec::new(alloc));
    let gates = Cell::new(0);
    let host = Memory {
        files: &FILES,
        texts: &texts,
        gates: &gates,
    };
    let mut out = Narrow::new(alloc, usize::MAX, room, End::TakesNone);
    let mut err = Vec::new(alloc);
    let status = run(rt, alloc, &words, &host, &mut out, &mut err);
    Ok((status, out.taken.len(), err))
}

#[test]
fn a_failed_write_ends_it(rt: HostRuntime) -> Result<(), Fail> {
    let alloc = rt.alloc();
    let open = ["tlacheck", "M.tla", "M.cfg"];
    let quiet = ["tlacheck", "M.tla", "M.cfg", "--quiet"];
    for room in [0, 9, 29] {
        let (status, taken, said) = cut_short(&rt, alloc, room, &open)?;
        assert!(rt; status == 21 && taken == room, "{room}");
        assert!(rt; said.as_slice() == b"tlacheck: cannot write the report\n".as_slice());
        let (status, taken, said) = cut_short(&rt, alloc, room, &quiet)?;
        assert!(rt; status == 21 && taken == room && said.is_empty(), "{room}");
    }
    let (status, taken, _) = cut_short(&rt, alloc, 30, &open)?;
    assert!(rt; status == 0 && taken == 30);
    Ok(())
}
