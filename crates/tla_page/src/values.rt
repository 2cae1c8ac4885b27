//! Values of variables, and keys of paths into them.

use crate::output::Output;
use tla_hints::word_of;
use tla_value::{State, Text, Value};

/// Adds the values of the variables, a line each.
pub fn put_state(output: &mut Output, variables: &[Text], state: &State) {
    for (name, value) in variables.iter().zip(state.values().iter()) {
        put_variable(output, name.as_str(), value);
    }
}

fn put_variable(output: &mut Output, name: &str, value: &Value) {
    output.put(&["    ", name, " = "]);
    output.put_value(value);
    output.put_text("\n");
}

/// Adds an argument after a function, as `.field` or `[argument]`.
pub fn put_key(output: &mut Output, key: &Value) {
    match key {
        Value::Text(field) if is_word(field.as_str().as_bytes()) => {
            output.put(&[".", field.as_str()]);
        }
        _ => {
            output.put_text("[");
            output.put_value(key);
            output.put_text("]");
        }
    }
}

fn is_word(bytes: &[u8]) -> bool {
    !bytes.is_empty() && word_of(bytes).len() == bytes.len()
}

/// Adds the values before and after a step.
pub fn put_from_to(output: &mut Output, old: &Value, new: &Value) {
    output.put_text(": ");
    output.put_value(old);
    output.put_text(" -> ");
    output.put_value(new);
    output.put_text("\n");
}
