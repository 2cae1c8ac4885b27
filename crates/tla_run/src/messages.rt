//! The messages on standard error if there is no report.
ghost use Rattle.std.specs.Prelude.{◌≡◌, ◌++◌, [], codes, IfSome};
ghost use Rattle.counted_writer.specs.Puts.{Puts};
ghost use Rattle.clap.specs.Walk.{texts};
ghost use Rattle.tla_line.specs.CommandLine.{is_quiet};
ghost use Rattle.tla_line.specs.LineFault.{help_of, text_of_fault};
ghost use Rattle.tla_run.specs.Runs.{GetsUpTo, Says, cannot_read, cannot_write, unwritten_report};
ghost use Rattle.tla_run.specs.Unread.{cause_text};

use crate::files::Uncreated;
use crate::hints::{hint_at_lacking_word, hint_at_near_file, hint_at_tlc_options};
use crate::host::Host;
use crate::unread::UnreadFile;
use clap::error::ErrorKind;
use counted_writer::{ShortWrite, put};
use std::alloc::Global;
use std::io::Write;
use tla_line::{LineFault, NoLine, is_quiet};

/// Says why the words are no valid command line and, without `--quiet`, what helps.
pub fn complain<H: Host, E: Write>(
    alloc: Global,
    host: &H,
    no_line: &NoLine,
    words: &[&str],
    err: &mut E,
)
    ensures { IfSome (text_of_fault no_line.now.fault) (λ text. Says (is_quiet (texts words.now))
        (record { old = E.contents err.old; new = E.contents err.new })
        text (help_of no_line.now)) }
{
    let is_quiet = is_quiet(words);
    match no_line.fault.own_text() {
        Some(text) => say(is_quiet, text, no_line.help(), err),
        None => {
            let _ = write!(err, "{}", no_line.fault);
            if !is_quiet {
                hint_at_words(alloc, host, &no_line.fault, words, err);
            }
        }
    }
}

/// Writes a line, and, unless it is quiet, what helps.
fn say<E: Write>(is_quiet: bool, line: &str, help: &str, err: &mut E)
    ensures { Says is_quiet (record { old = E.contents err.old; new = E.contents err.new })
        line.now help.now }
{
    if is_quiet {
        let _ = put(err, 0, line.as_bytes());
    } else {
        let _ = put_both(line, help, err);
    }
}

/// Hints at what is wrong with words that `clap` refuses.
fn hint_at_words<H: Host, E: Write>(
    alloc: Global,
    host: &H,
    fault: &LineFault,
    words: &[&str],
    err: &mut E,
) {
    let LineFault::Refused(error) = fault else {
        return;
    };
    match error.kind() {
        ErrorKind::MissingRequiredArgument => hint_at_lacking_word(alloc, host, words, err),
        ErrorKind::UnknownArgument => hint_at_tlc_options(words, err),
        _ => {}
    }
}

/// Says that memory ran out before the words were read.
pub fn tell_no_memory<E: Write>(err: &mut E)
    ensures { GetsUpTo (record { old = E.contents err.old; new = E.contents err.new })
        (codes "tlacheck: out of memory\n") }
{
    let _ = put(err, 0, b"tlacheck: out of memory\n");
}

/// Says which file can't be read and, unless it is quiet, why.
pub fn tell_unread<H: Host, E: Write>(
    alloc: Global,
    host: &H,
    is_quiet: bool,
    file: &UnreadFile<'_>,
    err: &mut E,
)
    ensures { Says is_quiet (record { old = E.contents err.old; new = E.contents err.new })
        (cannot_read file.now.name.now) (cause_text file.now.cause) }
{
    if is_quiet {
        let _ = put_file("tlacheck: cannot read ", file.name, "", err);
        return;
    }
    match put_file("tlacheck: cannot read ", file.name, file.cause.text(), err) {
        Ok(_) => hint_at_near_file(alloc, host, file, err),
        Err(_) => {}
    }
}

/// Says which file can't be created and, unless it is quiet, why.
pub fn tell_uncreated<E: Write>(is_quiet: bool, file: &Uncreated<'_>, err: &mut E)
    ensures { Says is_quiet (record { old = E.contents err.old; new = E.contents err.new })
        (cannot_write file.now.name.now) [] }
{
    if is_quiet {
        let _ = put_file("tlacheck: cannot write ", file.name, "", err);
    } else {
        let _ = put_file("tlacheck: cannot write ", file.name, file.cause.text(), err);
    }
}

/// Says which files could not be written after the report.
pub fn tell_unwritten<E: Write>(names: &[Option<&str>; 2], err: &mut E) {
    for name in names {
        if let Some(name) = name {
            let _ = put_file(
                "tlacheck: cannot write ",
                name,
                "cause: a write failed\n",
                err,
            );
        }
    }
}

/// Says that a write of the report failed.
pub fn tell_unwritten_report<E: Write>(err: &mut E)
    ensures { GetsUpTo (record { old = E.contents err.old; new = E.contents err.new })
        unwritten_report }
{
    let _ = put(err, 0, b"tlacheck: cannot write the report\n");
}

/// Puts a line about a file, and another text after it.
fn put_file<E: Write>(start: &str, name: &str, more: &str, err: &mut E) -> Result<u64, ShortWrite>
    ensures { Puts (E.contents err.old) (E.contents err.new) 0
        ((start.now ++ (name.now ++ codes "\n")) ++ more.now) result }
{
    let written = put(err, 0, start.as_bytes())?;
    let written = put(err, written, name.as_bytes())?;
    let written = put(err, written, b"\n")?;
    put(err, written, more.as_bytes())
}

/// Puts two texts.
fn put_both<E: Write>(first: &str, second: &str, err: &mut E) -> Result<u64, ShortWrite>
    ensures { Puts (E.contents err.old) (E.contents err.new) 0 (first.now ++ second.now) result }
{
    let written = put(err, 0, first.as_bytes())?;
    put(err, written, second.as_bytes())
}
