//! The words of a call, and the line that they mean.

use std::test::Fail;
use tla_check::{Line, LineFault, read_line};
use tla_line::{NumberOption, is_quiet, read_words};

/// Words, and the line that they mean.
#[derive(Clone, Copy)]
struct Row {
    words: &'static [&'static str],
    module: &'static str,
    config: &'static str,
    workers: u64,
    cut: u64,
    limit: u64,
    quiet: bool,
    full: bool,
    coverage: bool,
    json: Option<&'static str>,
    dot: Option<&'static str>,
}

const PLAIN: Row = Row {
    words: &["tlacheck", "M", "C"],
    module: "M",
    config: "C",
    workers: 1,
    cut: 1024,
    limit: 16_777_216,
    quiet: false,
    full: false,
    coverage: false,
    json: None,
    dot: None,
};

static ROWS: [Row; 15] = [
    PLAIN,
    Row {
        words: &["tlacheck", "M.tla", "M.cfg"],
        module: "M.tla",
        config: "M.cfg",
        ..PLAIN
    },
    Row {
        words: &["tlacheck", "M", "C", "--workers", "64"],
        workers: 64,
        ..PLAIN
    },
    Row {
        words: &["tlacheck", "--cut=65536", "M", "C"],
        cut: 65_536,
        ..PLAIN
    },
    Row {
        words: &["tlacheck", "M", "--max-states", "4", "C"],
        limit: 4,
        ..PLAIN
    },
    Row {
        words: &[
            "x",
            "--max-states",
            "3",
            "--cut",
            "2",
            "--workers",
            "+7",
            "--",
            "-M",
            "C",
        ],
        module: "-M",
        workers: 7,
        cut: 2,
        limit: 3,
        ..PLAIN
    },
    Row {
        words: &[
            "tlacheck",
            "M",
            "C",
            "--workers=1",
            "--cut=1",
            "--max-states=1",
        ],
        cut: 1,
        limit: 1,
        ..PLAIN
    },
    Row {
        words: &[
            "tlacheck",
            "M",
            "C",
            "--workers=64",
            "--cut=65536",
            "--max-states=16777216",
        ],
        workers: 64,
        cut: 65_536,
        ..PLAIN
    },
    Row {
        words: &["tlacheck", "M", "--quiet", "C"],
        quiet: true,
        ..PLAIN
    },
    Row {
        words: &["tlacheck", "--explain", "M", "C"],
        ..PLAIN
    },
    Row {
        words: &["tlacheck", "--full", "M", "C"],
        full: true,
        ..PLAIN
    },
    Row {
        words: &["tlacheck", "M", "C", "--coverage"],
        coverage: true,
        ..PLAIN
    },
    Row {
        words: &["tlacheck", "M", "C", "--json", "out.json"],
        json: Some("out.json"),
        ..PLAIN
    },
    Row {
        words: &["tlacheck", "M", "--dot=out.dot", "C"],
        dot: Some("out.dot"),
        ..PLAIN
    },
    Row {
        words: &[
            "tlacheck",
            "--coverage",
            "--json=a",
            "--dot",
            "b",
            "--full",
            "--quiet",
            "--",
            "M",
            "--json",
        ],
        config: "--json",
        quiet: true,
        full: true,
        coverage: true,
        json: Some("a"),
        dot: Some("b"),
        ..PLAIN
    },
];

/// Whether a line is the one of its row.
fn is_named(line: &Line<'_>, row: &Row) -> bool {
    line.module == row.module
        && line.config == row.config
        && line.options.workers() == row.workers
        && line.options.cut() == row.cut
        && line.options.limit() == row.limit
        && line.quiet == row.quiet
        && line.full == row.full
        && line.coverage == row.coverage
        && line.json == row.json
        && line.dot == row.dot
}

#[test]
fn names_files_and_numbers(rt: HostRuntime) -> Result<(), Fail> {
    for row in &ROWS {
        let line = read_line(rt.alloc(), row.words)?;
        assert!(rt; is_named(&line, row), "{:?}", row.words);
    }
    Ok(())
}

/// Words that mean no line, and whether the fault is a number: a text that is none, or one out of range.
static REFUSED: [(&[&str], bool); 22] = [
    (&["tlacheck", "M.tla", "M.cfg", "--workers", "0"], true),
    (&["tlacheck", "M.tla", "M.cfg", "--workers", "65"], true),
    (&["tlacheck", "M.tla", "M.cfg", "--workers", "x"], true),
    (&["tlacheck", "M.tla", "M.cfg", "--workers", "1 "], true),
    (
        &[
            "tlacheck",
            "M.tla",
            "M.cfg",
            "--workers",
            "18446744073709551617",
        ],
        true,
    ),
    (&["tlacheck", "M.tla", "M.cfg", "--cut", "0"], true),
    (&["tlacheck", "M.tla", "M.cfg", "--cut", "65537"], true),
    (&["tlacheck", "M.tla", "M.cfg", "--cut", "1.5"], true),
    (&["tlacheck", "M.tla", "M.cfg", "--max-states", "0"], true),
    (
        &["tlacheck", "M.tla", "M.cfg", "--max-states", "16777217"],
        true,
    ),
    (&[], false),
    (&["tlacheck"], false),
    (&["tlacheck", "M.tla"], false),
    (&["tlacheck", "M.tla", "M.cfg", "more"], false),
    (&["tlacheck", "M.tla", "M.cfg", "--depth", "3"], false),
    (&["tlacheck", "M.tla", "M.cfg", "--workers"], false),
    (
        &["tlacheck", "M.tla", "M.cfg", "--cut", "1", "--cut", "1"],
        false,
    ),
    (&["tlacheck", "M.tla", "M.cfg", "--quiet=yes"], false),
    (&["tlacheck", "M.tla", "M.cfg", "--full=yes"], false),
    (&["tlacheck", "M.tla", "M.cfg", "--json"], false),
    (
        &["tlacheck", "M.tla", "M.cfg", "--dot", "a", "--dot", "b"],
        false,
    ),
    (&["tlacheck", "M.tla", "--workers", "0"], false),
];

#[test]
fn refuses_words_and_numbers(rt: HostRuntime) {
    for &(words, is_number) in &REFUSED {
        let refused = read_line(rt.alloc(), words);
        let is_as_wanted = match &refused {
            Err(LineFault::Number) => is_number,
            Err(LineFault::Refused(_)) => !is_number,
            _ => false,
        };
        assert!(rt; is_as_wanted, "{words:?}");
    }
}

/// Words that `clap` accepts, and the first of the three options that has a bad number.
static BAD_NUMBERS: [(&[&str], NumberOption); 4] = [
    (
        &["tlacheck", "M", "C", "--workers=65"],
        NumberOption::Workers,
    ),
    (&["tlacheck", "--cut", "0", "M", "C"], NumberOption::Cut),
    (
        &["tlacheck", "M", "C", "--max-states", "many"],
        NumberOption::MaxStates,
    ),
    (
        &["tlacheck", "M", "C", "--max-states=0", "--cut=0"],
        NumberOption::Cut,
    ),
];

#[test]
fn names_the_option_of_a_bad_number(rt: HostRuntime) {
    for &(words, option) in &BAD_NUMBERS {
        let named = read_words(rt.alloc(), words).err();
        assert!(rt;
            named.is_some_and(|no_line| no_line.bad_number == Some(option)),
            "{words:?}"
        );
    }
    let lacking = read_words(rt.alloc(), &["tlacheck", "M", "--cut=0"]).err();
    assert!(rt; lacking.is_some_and(|no_line| no_line.bad_number.is_none()));
}

/// Words, an option, and whether it has a bad number in them.
static GIVEN: [(&[&str], NumberOption, bool); 8] = [
    (
        &["tlacheck", "M.tla", "--cut", "0"],
        NumberOption::Cut,
        true,
    ),
    (&["tlacheck", "M.tla", "--cut=x"], NumberOption::Cut, true),
    (
        &["tlacheck", "M.tla", "--cut", "65537"],
        NumberOption::Cut,
        true,
    ),
    (
        &["tlacheck", "M.tla", "--cut", "65536"],
        NumberOption::Cut,
        false,
    ),
    (&["tlacheck", "M.tla", "--cut"], NumberOption::Cut, false),
    (
        &["tlacheck", "M.tla", "--cutter=0"],
        NumberOption::Cut,
        false,
    ),
    (&["tlacheck", "--cut", "0"], NumberOption::Workers, false),
    (
        &["tlacheck", "--max-states=16777217"],
        NumberOption::MaxStates,
        true,
    ),
];

#[test]
fn finds_a_bad_number_in_words_that_name_no_line(rt: HostRuntime) {
    for &(words, option, is_bad) in &GIVEN {
        assert!(rt; option.is_bad_in(words) == is_bad, "{words:?}");
    }
}

#[test]
fn finds_the_word_for_quiet(rt: HostRuntime) {
    assert!(rt; is_quiet(&["tlacheck", "M.tla", "--quiet"]));
    assert!(rt; !is_quiet(&["tlacheck", "--quiet=yes", "-quiet"]));
    assert!(rt; !is_quiet(&[]));
}
