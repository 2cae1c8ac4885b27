//! Quick evaluation: the values of definitions are found, and are reused.

use std::alloc::Global;
use tla_core::Core;
use tla_defs::{build, parse_config};
use tla_eval::Partial;
use tla_lex::tokens;
use tla_model::Model;
use tla_parse::parse_module;
use tla_quick::Expression;
use tla_value::{State, Value};

/// Each invariant is TRUE if x is 2. Without a definition that is evaluated once, each of the last two takes too long
/// for a test: it builds a set of 1,000 members for each of a million choices.
static MODULE: &str = "---- MODULE M ----
EXTENDS Integers
VARIABLE x
Init == x = 2
Next == x' = x
Inside == \\A i \\in 1..3 : LET s == {i + j : j \\in 1..3} IN i + x \\in s /\\ i \\notin s
Unused == LET s == 1 \\div 0 IN x = 2
Shadowed == \\A i \\in 1..2 : \\E j \\in 3..4 : LET f == [k \\in 1..2 |-> k * i] IN f[2] = 2 * i /\\ j > i
Often == \\A i, j, k \\in 1..100 : i * j * k \\notin {n * n + 2000000 : n \\in 1..1000}
Arms == \\A i, j, k \\in 1..100 : CASE i * j * k \\in {n * n + 2000000 : n \\in 1..1000} -> FALSE [] OTHER -> x = 2
====
";

static CONFIG: &str = "INIT Init
NEXT Next
INVARIANTS Inside Unused Shadowed Often Arms
";

fn model(alloc: Global) -> Option<Model> {
    let module = MODULE.as_bytes();
    let tokens = tokens(alloc, module).ok()?;
    let tree = parse_module(alloc, module, &tokens).ok()?;
    let config = parse_config(alloc, CONFIG.as_bytes()).ok()?;
    build(alloc, &tree, &config).ok()
}

/// The state in which x is 2.
fn state(alloc: Global) -> Option<State> {
    let mut values = Vec::new(alloc);
    values.push(Value::Int(2)).ok()?;
    Some(State::new(values))
}

/// Whether an expression is found to be TRUE at a state.
fn is_true(alloc: Global, core: &Core, state: &State) -> bool {
    let Ok(expression) = Expression::new(alloc, core, 0) else {
        return false;
    };
    let Ok(partial) = Partial::unset(alloc, 1) else {
        return false;
    };
    expression.truth(alloc, core.place(), &[], Some(state), &partial) == Some(true)
}

/// Whether each invariant is found to be TRUE.
fn are_true(alloc: Global) -> bool {
    let (Some(model), Some(state)) = (model(alloc), state(alloc)) else {
        return false;
    };
    for invariant in model.invariants() {
        if !is_true(alloc, &invariant.core, &state) {
            return false;
        }
    }
    model.invariants().len() == 5
}

#[test]
fn definitions_are_evaluated_once(rt: HostRuntime) {
    assert!(rt; are_true(rt.alloc()));
}
