//! The inputs of calls.

use crate::refusal::Refusal;
use crate::subject::Pieces;
use std::alloc::{AllocError, Global};
use tla_core::Core;
use tla_defs::{build, parse_config};
use tla_lex::tokens;
use tla_model::Model;
use tla_parse::parse_module;
use tla_value::{SetValue, Value};

/// The deepest nesting of sets.
const NESTING: u64 = 64;

/// These numbers, in a list without room for more.
pub fn numbers(alloc: Global, list: &[i64]) -> Result<Vec<Value>, AllocError> {
    let mut values = Vec::with_capacity(alloc, list.len())?;
    for number in list {
        values.push(Value::Int(*number))?;
    }
    Ok(values)
}

/// Two numbers in a list, and in a set that has no room for a third.
#[derive(Drop)]
pub struct TwoNumbers {
    pub list: Vec<Value>,
    pub set: SetValue,
}

/// The numbers 1 and 3.
pub fn two_numbers(alloc: Global) -> Result<TwoNumbers, Refusal> {
    let list = numbers(alloc, &[1, 3])?;
    let set = SetValue::from_values(alloc, numbers(alloc, &[1, 3])?)?;
    Ok(TwoNumbers { list, set })
}

/// The deepest value: 1 in a set, in a set, and so on.
pub fn deepest(alloc: Global) -> Result<Value, Refusal> {
    let mut value = Value::Int(1);
    for _ in 0..NESTING {
        let mut values = Vec::new(alloc);
        values.push(value)?;
        value = Value::Set(SetValue::from_values(alloc, values)?);
    }
    Ok(value)
}

fn push_pieces(text: &mut String, pieces: Pieces) -> Result<(), AllocError> {
    for (piece, times) in pieces {
        for _ in 0..*times {
            text.push_str(piece)?;
        }
    }
    Ok(())
}

/// A module with six states on three levels; the last two states have no successor. It assumes the formula for b = 7.
fn module(alloc: Global, formula: Pieces) -> Result<String, AllocError> {
    let mut text = String::new(alloc);
    text.push_str("---- MODULE M ----\nEXTENDS Integers\nVARIABLE x\nASSUME \\A b \\in {7} : ")?;
    push_pieces(&mut text, formula)?;
    text.push_str("\nInit == x \\in {0, 1}\nNext == x < 4 /\\ x' \\in {x + 1, x + 2}\n====\n")?;
    Ok(text)
}

/// The model of a module and a configuration.
fn model_of(alloc: Global, text: &str, configuration: &[u8]) -> Result<Model, Refusal> {
    let tokens = tokens(alloc, text.as_bytes())?;
    let tree = parse_module(alloc, text.as_bytes(), &tokens)?;
    let configuration = parse_config(alloc, configuration)?;
    Ok(build(alloc, &tree, &configuration)?)
}

/// The model of a module that assumes this formula.
pub fn model(alloc: Global, formula: Pieces) -> Result<Model, Refusal> {
    let text = module(alloc, formula)?;
    model_of(alloc, text.as_str(), b"INIT Init\nNEXT Next\n")
}

/// The model of a module whose next-state action is A of these definitions. They begin in line 4.
pub fn model_of_action(alloc: Global, definitions: Pieces) -> Result<Model, Refusal> {
    let mut text = String::new(alloc);
    text.push_str("---- MODULE M ----\nEXTENDS Integers\nVARIABLES x, y\n")?;
    push_pieces(&mut text, definitions)?;
    text.push_str("\nInit == x = 0 /\\ y = 0\n====\n")?;
    model_of(alloc, text.as_str(), b"INIT Init\nNEXT A\n")
}

/// The body of the `\A` that a model assumes; for another model its initial predicate.
pub fn formula(model: &Model) -> &Core {
    match model.assumptions().first() {
        Some(Core::ForAll(_, _, body)) => body,
        _ => model.init(),
    }
}
