//! Lists of the successors of a state.
ghost use Rattle.std.specs.Prelude.{◌≡◌, length, IfOk};

use std::alloc::{AllocError, Global};
use tla_defs::{build, parse_config};
use tla_enum::successors;
use tla_lex::tokens;
use tla_model::Model;
use tla_parse::parse_module;
use tla_value::{State, Value};

/// An action, and the values of x in the successors of the state with x = 0.
static ROWS: [(&str, &[i64]); 6] = [
    ("x' \\in {3, 1, 1}", &[1, 3]),
    ("(x' = 1 \\/ x' = 2) /\\ x' \\in {2, 3}", &[2]),
    ("x' = 1 /\\ x' = 2", &[]),
    ("\\A i \\in 1..2 : x' = i", &[]),
    ("\\E i \\in 1..2 : x' = x + i", &[1, 2]),
    ("IF x = 0 THEN x' = 1 ELSE x' = 2", &[1]),
];

fn model(alloc: Global, action: &str) -> Option<Model> {
    let module = format!(in alloc;
        "---- MODULE M ----\nEXTENDS Integers\nVARIABLE x\nInit == x = 0\nNext == {action}\n====\n"
    ).ok()?;
    let module = module.as_str().as_bytes();
    let tokens = tokens(alloc, module).ok()?;
    let tree = parse_module(alloc, module, &tokens).ok()?;
    let config = parse_config(alloc, b"INIT Init\nNEXT Next\n").ok()?;
    build(alloc, &tree, &config).ok()
}

fn zero(alloc: Global) -> Result<State, AllocError>
    ensures { IfOk result (λ s. length s ≡ 1) }
{
    let mut values = Vec::new(alloc);
    values.push(Value::Int(0))?;
    Ok(State::new(values))
}

fn are_wanted(states: &[State], numbers: &[i64]) -> bool {
    for (state, number) in states.iter().zip(numbers.iter()) {
        if state.values() != [Value::Int(*number)].as_slice() {
            return false;
        }
    }
    states.len() == numbers.len()
}

fn has_successors(alloc: Global, action: &str, numbers: &[i64]) -> bool {
    let (Some(model), Ok(state)) = (model(alloc, action), zero(alloc)) else {
        return false;
    };
    if model.variables().len() != 1 {
        return false;
    }
    match successors(alloc, &model, &state) {
        Ok(states) => are_wanted(&states, numbers),
        Err(_) => false,
    }
}

#[test]
fn successors_are_listed(rt: HostRuntime) {
    for &(action, numbers) in &ROWS {
        assert!(rt; has_successors(rt.alloc(), action, numbers), "{action}");
    }
}
