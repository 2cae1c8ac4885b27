//! The changes of a step.

use crate::differences::{Change, Difference, Key, Path, Spot};
use crate::parts::parts_of;
use std::alloc::{AllocError, Global};
use tla_page::output::Output;
use tla_page::values::{put_from_to, put_key};
use tla_report::Names;
use tla_value::{State, Value};

/// The most lines for the changes of a step, unless values are shown whole.
const MOST_LINES: usize = 60;

/// Adds the changes between two states, a line for each part that changes.
pub(crate) fn put_changes(output: &mut Output, variables: &Names, before: &State, after: &State) {
    let Ok(changed) = changed_variables(output.alloc(), variables, before, after) else {
        return output.refuse();
    };
    if changed.is_empty() {
        output.put_text("    nothing changes\n");
    } else {
        put_all(output, changed);
    }
}

fn changed_variables<'a>(
    alloc: Global,
    variables: &'a Names,
    before: &'a State,
    after: &'a State,
) -> Result<Vec<Difference<'a>>, AllocError> {
    let values = before.values().iter().zip(after.values().iter());
    let mut changed = Vec::new(alloc);
    for (name, (old, new)) in variables.as_slice().iter().zip(values) {
        if old != new {
            let path = Path {
                variable: name.as_str(),
                keys: Vec::new(alloc),
            };
            let change = Change::Other(old, new);
            changed.push(Difference { path, change })?;
        }
    }
    Ok(changed)
}

/// Adds differences. One with parts is shown by its parts.
fn put_all(output: &mut Output, differences: Vec<Difference<'_>>) {
    let mut left = Vec::new(output.alloc());
    if push_all(&mut left, differences).is_err() {
        return output.refuse();
    }
    let mut lines = 0usize;
    for _ in 0..u64::MAX {
        let Some(difference) = left.pop() else {
            return;
        };
        if lines >= MOST_LINES && !output.is_full() {
            return output.put_text("    and more\n");
        }
        match parts_of(output.alloc(), &difference) {
            Ok(None) => {
                put_difference(output, &difference);
                lines = lines.saturating_add(1);
            }
            Ok(Some(parts)) => {
                if push_all(&mut left, parts).is_err() {
                    return output.refuse();
                }
            }
            Err(_) => return output.refuse(),
        }
    }
}

/// Pushes differences on the stack of pending ones, the first on top.
fn push_all<'a>(
    left: &mut Vec<Difference<'a>>,
    parts: Vec<Difference<'a>>,
) -> Result<(), AllocError> {
    for part in parts.into_iter().rev() {
        left.push(part)?;
    }
    Ok(())
}

fn put_difference(output: &mut Output, difference: &Difference<'_>) {
    output.put(&["    ", difference.path.variable]);
    for key in &difference.path.keys {
        put_step(output, *key);
    }
    put_change(output, difference.change);
}

fn put_step(output: &mut Output, key: Key<'_>) {
    match key {
        Key::Number(number) => put_key(output, &Value::Int(number)),
        Key::Value(value) => put_key(output, value),
    }
}

fn put_change(output: &mut Output, change: Change<'_>) {
    match change {
        Change::Other(old, new) => put_from_to(output, old, new),
        Change::Gained(value) => put_line(output, ": + ", value),
        Change::Lost(value) => put_line(output, ": - ", value),
        Change::New(value) => put_line(output, ": new, ", value),
        Change::Gone(value) => put_line(output, ": gone, was ", value),
        Change::Put(value, spot) => put_at(output, ": + ", value, spot),
        Change::Taken(value, spot) => put_at(output, ": - ", value, spot),
    }
}

fn put_line(output: &mut Output, sign: &str, value: &Value) {
    output.put_text(sign);
    output.put_value(value);
    output.put_text("\n");
}

fn put_at(output: &mut Output, sign: &str, value: &Value, spot: Spot) {
    output.put_text(sign);
    output.put_value(value);
    match spot {
        Spot::Front => output.put_text(" at the front\n"),
        Spot::End => output.put_text(" at the end\n"),
        Spot::Between(place) => {
            output.put_text(" at place ");
            output.put_number(place as u128);
            output.put_text("\n");
        }
    }
}
