//! Hints at what was probably meant, if a file doesn't exist or isn't named.
ghost use Rattle.tla_run.specs.Private.Growing.{Grows};

use crate::host::Host;
use crate::unread::{Unread, UnreadFile};
use counted_writer::put;
use std::alloc::{AllocError, Global};
use std::io::Write;
use tla_hints::meant;
use tla_line::NumberOption;

/// Hints at the file that was probably meant, if there is none of this name.
pub fn hint_at_near_file<H: Host, E: Write>(
    alloc: Global,
    host: &H,
    file: &UnreadFile<'_>,
    err: &mut E,
)
    ensures { Grows (E.contents err.old) (E.contents err.new) }
{
    if let Some(hint) = near_file(alloc, host, file) {
        let _ = put(err, 0, hint.as_str().as_bytes());
    }
}

/// The hint at the name with the extension of its kind, or at the nearest name in the same folder, if that file can be
/// opened.
fn near_file<H: Host>(alloc: Global, host: &H, file: &UnreadFile<'_>) -> Option<String> {
    if file.cause != Unread::Missing {
        return None;
    }
    let near = match with_ending(alloc, host, file) {
        Some(near) => near,
        None => nearest_beside(alloc, host, file)?,
    };
    format!(in alloc; "hint: did you mean {near}?\n").ok()
}

/// The name of a file with the extension of its kind added, or in place of its own extension.
fn with_ending<H: Host>(alloc: Global, host: &H, file: &UnreadFile<'_>) -> Option<String> {
    let (folder, name) = split_name(file.name);
    for stem in [name, stem_of(name)] {
        let near = format!(in alloc; "{folder}{stem}{}", file.ending).ok()?;
        if host.open(near.as_str()).is_ok() {
            return Some(near);
        }
    }
    None
}

/// The name nearest to that of a file, among the files of its kind in the same folder.
fn nearest_beside<H: Host>(alloc: Global, host: &H, file: &UnreadFile<'_>) -> Option<String> {
    let files = host.files_beside(alloc, file.name).ok()?;
    let stems = stems_with(alloc, &files, file.ending).ok()?;
    let (folder, name) = split_name(file.name);
    let stem = meant(alloc, stem_of(name), &stems).ok()??;
    let near = format!(in alloc; "{folder}{stem}{}", file.ending).ok()?;
    host.open(near.as_str()).ok()?;
    Some(near)
}

/// The names of the files with this extension, without it, in order.
fn stems_with<'a>(
    alloc: Global,
    files: &'a [String],
    ending: &str,
) -> Result<Vec<&'a str>, AllocError> {
    let mut stems = Vec::new(alloc);
    for file in files {
        if let Some(stem) = file.as_str().strip_suffix(ending) {
            stems.push(stem)?;
        }
    }
    stems.sort()?;
    Ok(stems)
}

/// The name of a file up to its last slash, and the rest.
pub(crate) fn split_name(name: &str) -> (&str, &str) {
    let start = match name.rfind('/') {
        Some(slash) => slash.saturating_add(1),
        None => 0,
    };
    (
        name.get(..start).unwrap_or(""),
        name.get(start..).unwrap_or(""),
    )
}

/// A name without its extension.
fn stem_of(name: &str) -> &str {
    match name.rsplit_once('.') {
        Some((stem, _)) => stem,
        None => name,
    }
}

/// Hints at what is wrong if a word is missing: bad numbers, and a configuration that isn't named.
pub fn hint_at_lacking_word<H: Host, E: Write>(
    alloc: Global,
    host: &H,
    words: &[&str],
    err: &mut E,
) {
    for option in NumberOption::ALL {
        if option.is_bad_in(words) {
            let _ = put(err, 0, option.hint().as_bytes());
        }
    }
    if let Some(hint) = configuration(alloc, host, words) {
        let _ = put(err, 0, hint.as_str().as_bytes());
    }
}

/// The hint at NAME.cfg, if a word after the program's name is NAME.tla, or NAME alone, and both files can be opened.
fn configuration<H: Host>(alloc: Global, host: &H, words: &[&str]) -> Option<String> {
    for word in words.iter().skip(1) {
        let name = word.strip_suffix(".tla").unwrap_or(word);
        if let Some(hint) = both_files(alloc, host, name) {
            return Some(hint);
        }
    }
    None
}

/// The hint at NAME.tla and NAME.cfg, if both can be opened.
fn both_files<H: Host>(alloc: Global, host: &H, name: &str) -> Option<String> {
    let module = format!(in alloc; "{name}.tla").ok()?;
    host.open(module.as_str()).ok()?;
    let config = format!(in alloc; "{name}.cfg").ok()?;
    host.open(config.as_str()).ok()?;
    format!(in alloc; "hint: name the configuration too: tlacheck {module} {config}\n").ok()
}

/// Options of TLC, and what to write instead.
static TLC_OPTIONS: [(&'static str, &'static str); 3] = [
    ("-workers", "hint: TLC's -workers is --workers here\n"),
    (
        "-config",
        "hint: TLC's -config is left out here: the second file is the configuration\n",
    ),
    (
        "-deadlock",
        "hint: TLC's -deadlock is CHECK_DEADLOCK FALSE in the configuration here\n",
    ),
];

/// Hints at what to write instead of TLC's options.
pub fn hint_at_tlc_options<E: Write>(words: &[&str], err: &mut E) {
    for word in words {
        if let Some(hint) = tlc_hint(word) {
            let _ = put(err, 0, hint.as_bytes());
        }
    }
}

/// The hint at what to write instead of an option of TLC.
fn tlc_hint(word: &str) -> Option<&'static str> {
    for (option, hint) in &TLC_OPTIONS {
        if *option == word {
            return Some(*hint);
        }
    }
    None
}
