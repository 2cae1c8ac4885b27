//! Explanations of the answer of a check: the place in the files, the rule, what was probably meant, what each step of
//! a trace changes, and which parts of Next made steps. Also the states as a graph, and a run as a JSON document.
//!
//! Nothing here changes a report. Everything is derived from the answer and the two texts.
#![tactic(auto)]

mod document;
mod drawing;
mod graph;

pub use document::write_document;
pub use graph::write_graph;
use std::alloc::Global;
use std::io;
use std::io::Write;
pub use tla_page::codes::{CodeText, code_tables, text_of};
use tla_page::output::Output;
pub use tla_page::places::FileNames;
use tla_page::places::Sources;
pub use tla_page::style::Style;
use tla_report::Checked;
use tla_traces::coverage::put_coverage;

/// Writes the explanation of the answer of a check of two texts, for a user at a terminal or an editor. If no error was
/// found, writes only notes, and with `style.coverage` the steps of each part of Next. An error means that memory ran
/// out or a write failed.
pub fn explain<'a, W: Write>(
    alloc: Global,
    writer: &mut W,
    names: &FileNames<'a>,
    module: &'a [u8],
    configuration: &'a [u8],
    checked: &Checked,
    style: Style,
) -> io::Result<()> {
    let mut output = Output::new(alloc, style.full);
    let sources = Sources {
        names: *names,
        module,
        configuration,
    };
    explain_checked(&mut output, &sources, checked);
    if let Checked::Answered(answered) = checked {
        put_coverage(&mut output, &sources, answered, style.coverage);
    }
    writer.write_all(output.bytes()?)
}

fn explain_checked(output: &mut Output, sources: &Sources<'_>, checked: &Checked) {
    match checked {
        Checked::Refused(refused) => {
            tla_refusals::refusal::explain_refusal(output, sources, refused);
            hint_order(output, &sources.names);
        }
        Checked::Answered(answered) => tla_answers::answer::explain_answer(
            output, sources, answered,
        ),
        Checked::NoMemory => output.put_text(
            "out of memory: allow more, or check a smaller model\n",
        ),
        Checked::NoWorker => {
            output.put_text("a worker could not be started: ask for fewer, by --workers\n");
        },
    }
}

/// Hints at the order of the two files, if their names have each other's extensions.
fn hint_order(output: &mut Output, names: &FileNames<'_>) {
    if names.module.ends_with(".cfg") || names.configuration.ends_with(".tla") {
        output.hint(&[
            "name the module first and then the configuration: tlacheck Lock.tla Lock.cfg",
        ]);
    }
}
