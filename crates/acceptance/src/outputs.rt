//! The output of a check besides its report.

use std::alloc::Global;
use std::io;
use std::sync::Wait;
use std::thread::Threads;
use tla_check::{Checked, NoGate, Options, check};
use tla_explain::{FileNames, Style, explain, write_document, write_graph};

/// A form of output besides the report.
#[derive(Clone, Copy)]
pub enum Form {
    Explanation,
    /// An explanation in which values are shown whole.
    Whole,
    /// An explanation with the steps of each part of Next.
    Counted,
    /// The explanation if the two files are named in the wrong order.
    Swapped,
    Graph,
    Document,
    /// A document with the steps of each part of Next.
    CountedDocument,
}

impl Form {
    /// The form of this name.
    pub fn read(word: &str) -> Option<Form> {
        match word {
            "explanation" => Some(Form::Explanation),
            "whole" => Some(Form::Whole),
            "counted" => Some(Form::Counted),
            "swapped" => Some(Form::Swapped),
            "graph" => Some(Form::Graph),
            "document" => Some(Form::Document),
            "counted-document" => Some(Form::CountedDocument),
            _ => None,
        }
    }
}

/// Whether a check of these texts writes what is expected in this form.
pub fn writes_as_expected<R: Threads + Wait + Sync>(
    rt: &R,
    alloc: Global,
    module: &[u8],
    configuration: &[u8],
    options: &Options,
    form: Form,
    expected: &[u8],
) -> io::Result<bool> {
    match form {
        Form::Swapped => is_written(rt, alloc, configuration, module, options, form, expected),
        _ => is_written(rt, alloc, module, configuration, options, form, expected),
    }
}

/// The same of two texts in the order in which they are checked.
fn is_written<R: Threads + Wait + Sync>(
    rt: &R,
    alloc: Global,
    module: &[u8],
    configuration: &[u8],
    options: &Options,
    form: Form,
    expected: &[u8],
) -> io::Result<bool> {
    let checked = check(rt, alloc, module, configuration, options, &NoGate);
    let mut written = Vec::new(alloc);
    write_form(&mut written, module, configuration, &checked, form)?;
    Ok(written.as_slice() == expected)
}

fn write_form<'a>(
    out: &mut Vec<u8>,
    module: &'a [u8],
    configuration: &'a [u8],
    checked: &'a Checked,
    form: Form,
) -> io::Result<()> {
    let alloc = *out.allocator();
    let names = names_of(form);
    let style = Style {
        full: matches!(form, Form::Whole),
        coverage: matches!(form, Form::Counted),
    };
    match form {
        Form::Explanation | Form::Whole | Form::Counted | Form::Swapped => {
            explain(alloc, out, &names, module, configuration, checked, style)
        }
        Form::Graph => write_graph(alloc, out, module, configuration, checked),
        Form::Document | Form::CountedDocument => {
            let coverage = matches!(form, Form::CountedDocument);
            write_document(alloc, out, &names, module, configuration, checked, coverage)
        }
    }
}

/// The names of the two files.
fn names_of(form: Form) -> FileNames<'static> {
    match form {
        Form::Swapped => FileNames {
            module: "model.cfg",
            configuration: "module.tla",
        },
        _ => FileNames {
            module: "module.tla",
            configuration: "model.cfg",
        },
    }
}

/// The separator of texts and of explanations.
const BETWEEN: u8 = b'\x0c';

/// Whether the explanations of each module of these texts, with the configuration after it, are in turn those of
/// `expected`.
/// The last module needs a configuration, too.
pub fn explains_as_expected<R: Threads + Wait + Sync>(
    rt: &R,
    alloc: Global,
    texts: &[u8],
    options: &Options,
    expected: &[u8],
) -> io::Result<bool> {
    let mut parts = expected.split(|b| *b == BETWEEN);
    let mut module: Option<&[u8]> = None;
    for text in texts.split(|b| *b == BETWEEN) {
        let Some(first) = module else {
            module = Some(text);
            continue;
        };
        let Some(part) = parts.next() else {
            return Ok(false);
        };
        let form = Form::Explanation;
        if !writes_as_expected(rt, alloc, first, text, options, form, part)? {
            return Ok(false);
        }
        module = None;
    }
    Ok(module.is_none() && parts.next().is_none())
}
