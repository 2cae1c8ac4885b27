//! The document of the codes.

use std::alloc::{AllocError, Global};
use std::io::Write;
use std::rt::Files;
use std::{fs, io};
use tla_explain::{CodeText, code_tables, text_of};

/// Whether a line of the document is the program's text of a code.
fn is_in(alloc: Global, page: &str, text: &CodeText) -> Result<bool, AllocError> {
    let mut line = String::new(alloc);
    line.push_str("- **")?;
    line.push_str(text.code)?;
    line.push_str("** ")?;
    line.push_str(text.rule)?;
    for part in [text.example, text.cure] {
        if !part.is_empty() {
            line.push_str(" ")?;
            line.push_str(part)?;
        }
    }
    Ok(page.lines().any(|other| other == line.as_str()))
}

/// Whether the text of a code is found by the code alone.
fn is_found(text: &CodeText) -> bool {
    match text_of(text.code) {
        Some(found) => found.code == text.code && found.rule == text.rule,
        None => false,
    }
}

/// Names the codes of a table whose text differs in the document, or that aren't found, and returns whether there are
/// none.
fn compare_table<R: AllocGlobal, W: Write>(
    rt: &R,
    page: &str,
    table: &[CodeText],
    out: &mut W,
) -> io::Result<bool> {
    let mut agree = !table.is_empty();
    for text in table {
        if !is_in(rt.alloc(), page, text)? {
            writeln!(out, "  not in CODES.md: {}", text.code)?;
            agree = false;
        }
        if !is_found(text) {
            writeln!(out, "  not found: {}", text.code)?;
            agree = false;
        }
    }
    Ok(agree)
}

/// Names the codes whose text differs in the document.
pub fn compare_codes<R: AllocGlobal + Files, W: Write>(rt: &R, out: &mut W) -> io::Result<()> {
    let page = fs::read_to_string(rt, "CODES.md")?;
    let mut agree = true;
    for table in code_tables() {
        if !compare_table(rt, page.as_str(), table, out)? {
            agree = false;
        }
    }
    if agree {
        writeln!(out, "  all codes agree")?;
    }
    Ok(())
}
