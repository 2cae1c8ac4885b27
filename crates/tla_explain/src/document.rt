//! The report and its explanation as one JSON document.

use crate::explain;
use serde_json::{Map, Value, json};
use std::alloc::{AllocError, Global};
use std::io;
use std::io::Write;
use tla_config::Source;
use tla_core::{Fault, Place};
use tla_page::places::{FileNames, Sources, source_name};
use tla_page::style::Style;
use tla_report::{Answered, Checked, Names, Refusal, refusal_code_text, write_report};
use tla_traces::formulas::name_alone;
use tla_traces::named::Named;
use tla_value::State;
use tla_verdict::{Answer, Part};

/// Writes the report and its explanation as one JSON object: `status`, `first_line`, `report`, `code` and `place` of a
/// refusal or a fault, `trace` (each state with the texts of its values), `counts`, and `explanation`, in which values
/// are shown whole. With `coverage`, the explanation has the steps of each part of Next. An error means that memory ran
/// out or a write failed.
pub fn write_document<'a, W: Write>(
    alloc: Global,
    writer: &mut W,
    names: &FileNames<'a>,
    module: &'a [u8],
    configuration: &'a [u8],
    checked: &Checked,
    coverage: bool,
) -> io::Result<()> {
    let style = Style {
        full: true,
        coverage,
    };
    let mut report = Vec::new(alloc);
    if write_report(checked, &mut report).is_err() {
        return Err(io::Error::from(AllocError));
    }
    let mut explanation = Vec::new(alloc);
    explain(
        alloc,
        &mut explanation,
        names,
        module,
        configuration,
        checked,
        style,
    )?;
    let texts = Texts {
        report: text_of(&report),
        explanation: text_of(&explanation),
    };
    let sources = Sources {
        names: *names,
        module,
        configuration,
    };
    let document = document_of(alloc, &sources, checked, &texts)?;
    writer.write_all(&document.to_vec_pretty(alloc)?)?;
    writer.write_all(b"\n")
}

/// The texts of a run.
#[derive(Clone, Copy)]
struct Texts<'a> {
    report: &'a str,
    explanation: &'a str,
}

fn text_of(bytes: &[u8]) -> &str {
    str::from_utf8(bytes).unwrap_or("")
}

fn document_of(
    alloc: Global,
    sources: &Sources<'_>,
    checked: &Checked,
    texts: &Texts<'_>,
) -> Result<Value, AllocError> {
    let first_line = texts.report.lines().next().unwrap_or("");
    let status = u64::from(checked.status());
    let code = code_value(alloc, checked)?;
    let place = place_value(alloc, sources, checked)?;
    let trace = trace_value(alloc, checked)?;
    let counts = counts_value(alloc, checked)?;
    json!(in alloc; {
        "status": status,
        "first_line": first_line,
        "report": (texts.report),
        "code": code,
        "place": place,
        "trace": trace,
        "counts": counts,
        "explanation": (texts.explanation),
    })
}

/// The fault of a search, if it found one, and the part of the specification that faulted.
fn fault_of(checked: &Checked) -> Option<(&Fault, Part)> {
    match checked {
        Checked::Answered(
            Answered {
                answer: Answer::Faulted { fault, part, .. },
                ..
            },
        ) => Some((fault, *part)),
        _ => None,
    }
}

/// The refusal of a text, if there was one.
fn refusal_of(checked: &Checked) -> Option<&Refusal> {
    match checked {
        Checked::Refused(refusal) => Some(refusal),
        _ => None,
    }
}

/// The code of a refusal or a fault, or null.
fn code_value(alloc: Global, checked: &Checked) -> Result<Value, AllocError> {
    if let Some(refusal) = refusal_of(checked) {
        return Value::try_from_str(alloc, refusal_code_text(refusal.code));
    }
    match fault_of(checked) {
        Some((fault, _)) => Value::try_from_str(alloc, fault.code.name()),
        None => Ok(Value::Null),
    }
}

/// The place of a refusal or a fault, or null.
fn place_value(
    alloc: Global,
    sources: &Sources<'_>,
    checked: &Checked,
) -> Result<Value, AllocError> {
    if let Some(refusal) = refusal_of(checked) {
        let file = source_name(sources, refusal.source);
        return file_place(alloc, file, refusal.place);
    }
    let Some((fault, part)) = fault_of(checked) else {
        return Ok(Value::Null);
    };
    match fault.place {
        Some(place) => {
            let source = source_of(alloc, sources, part)?;
            file_place(alloc, source_name(sources, source), place)
        }
        None => Ok(Value::Null),
    }
}

/// The file to which the places of the formula of a part refer.
fn source_of(alloc: Global, sources: &Sources<'_>, part: Part) -> Result<Source, AllocError> {
    let Some(named) = Named::read(alloc, sources) else {
        return Ok(Source::Module);
    };
    match name_alone(alloc, &named.context(sources), part)? {
        Some(_) => Ok(Source::Configuration),
        None => Ok(Source::Module),
    }
}

fn file_place(alloc: Global, file: &str, place: Place) -> Result<Value, AllocError> {
    let line = place.line;
    let column = u64::try_from(place.column).unwrap_or(u64::MAX);
    json!(in alloc; {"file": file, "line": line, "column": column})
}

/// The numbers of levels and states searched, or null.
fn counts_value(alloc: Global, checked: &Checked) -> Result<Value, AllocError> {
    let Checked::Answered(answered) = checked else {
        return Ok(Value::Null);
    };
    let counts = answered.answer.counts();
    json!(in alloc; {"levels": (counts.levels), "states": (counts.states)})
}

/// The states of the trace.
fn trace_value(alloc: Global, checked: &Checked) -> Result<Value, AllocError> {
    let mut states = Vec::new(alloc);
    if let Checked::Answered(answered) = checked {
        for state in answered.answer.states() {
            states.push(state_value(alloc, &answered.variables, state)?)?;
        }
    }
    Ok(Value::Array(states))
}

/// The texts of the values of a state, by the names of the variables.
fn state_value(alloc: Global, variables: &Names, state: &State) -> Result<Value, AllocError> {
    let mut members = Map::new(alloc);
    for (name, value) in variables.as_slice().iter().zip(state.values().iter()) {
        let mut text = Vec::new(alloc);
        if value.write_text(&mut text).is_err() {
            return Err(AllocError);
        }
        let name = String::from_str(alloc, name.as_str())?;
        members.insert(name, Value::try_from_str(alloc, text_of(&text))?)?;
    }
    Ok(Value::Object(members))
}
