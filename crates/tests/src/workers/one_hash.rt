//! A search of a model by a hash that is the same for all states.

use crate::hashing::Zero;
use crate::specifications::JUGS;
use std::alloc::Global;
use std::hash::BuildHasherDefault;
use std::sync::Wait;
use std::thread::Threads;
use tla_defs::{build, parse_config};
use tla_lex::tokens;
use tla_model::Model;
use tla_parse::parse_module;
use tla_search::{Answer, Counts, NoGate, Options, SearchError, search_by};
use tla_value::{State, Value};

/// The gallons in the big and in the small jug, from the first state of the trace to the last.
static GALLONS: [(i64, i64); 7] = [(0, 0), (5, 0), (2, 3), (2, 0), (0, 2), (5, 2), (4, 3)];

fn jugs(alloc: Global) -> Option<Model> {
    let module = JUGS.module.as_bytes();
    let tokens = tokens(alloc, module).ok()?;
    let tree = parse_module(alloc, module, &tokens).ok()?;
    let config = parse_config(alloc, JUGS.config.as_bytes()).ok()?;
    build(alloc, &tree, &config).ok()
}

fn has_gallons(state: &State, gallons: (i64, i64)) -> bool {
    match state.values() {
        [Value::Int(big), Value::Int(small)] => *big == gallons.0 && *small == gallons.1,
        _ => false,
    }
}

/// Whether these are the states of the trace.
fn are_wanted(states: &[State]) -> bool {
    for (state, gallons) in states.iter().zip(GALLONS.iter()) {
        if !has_gallons(state, *gallons) {
            return false;
        }
    }
    states.len() == GALLONS.len()
}

/// Whether the first invariant is false at the end of the trace, on the seventh level, after fourteen states.
fn is_wanted(answer: &Result<Answer, SearchError>) -> bool {
    match answer {
        Ok(
            Answer::InvariantFalse {
                invariant,
                trace,
                counts,
            },
        ) => {
            let Counts { levels, states } = *counts;
            *invariant == 0 && levels == 7 && states == 14 && are_wanted(trace.states())
        }
        _ => false,
    }
}

/// Whether the search of the jugs has the right answer if all states have the same hash. (The model is dropped by a
/// call of `drop`, which is proved once.)
fn answers_as_wanted<R: Threads + Wait + Sync>(rt: &R, alloc: Global, workers: u64) -> bool {
    let Some(options) = Options::new(workers, 1, 100) else {
        return false;
    };
    let Some(model) = jugs(alloc) else {
        return false;
    };
    let answer = search_by::<BuildHasherDefault<Zero>, NoGate, R>(
        rt, alloc, &model, &options, &NoGate,
    );
    drop(model);
    is_wanted(&answer)
}

#[test]
fn states_of_one_hash_are_told_apart(rt: HostRuntime) {
    for workers in 1..4u64 {
        assert!(rt;
            answers_as_wanted(&rt, rt.alloc(), workers),
            "{workers} workers"
        );
    }
}
