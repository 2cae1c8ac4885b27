//! Constraints that together prevent every step.

use std::alloc::Global;
use tla_core::Fault;
use tla_model::Model;
use tla_page::output::Output;
use tla_steps::{initial_states, is_false_in_all};
use tla_value::State;
use tla_verdict::Counts;

/// The most initial states at which constraints are evaluated again.
const MOST_STATES: u64 = 10_000;

/// Whether no step led to a new state, and there are not too many initial states: constraints may be the reason.
pub(crate) fn may_stop(counts: &Counts) -> bool {
    counts.levels == 1 && counts.states <= MOST_STATES
}

/// Notes that at every initial state some constraint is FALSE, unless one is FALSE at all of them: that one has a note
/// of its own.
pub(crate) fn put_constraints(output: &mut Output, model: &Model, counts: &Counts) {
    if !may_stop(counts) || model.constraints().len() < 2 {
        return;
    }
    match stop_together(output.alloc(), model) {
        Ok(true) => {
            output.put_text(
                "note: at every initial state a constraint is FALSE, so no step was taken\n",
            );
        }
        Ok(false) => {}
        Err(_) => output.refuse(),
    }
}

/// Whether some constraint is FALSE at each initial state, but none is FALSE at all of them.
fn stop_together(alloc: Global, model: &Model) -> Result<bool, Fault> {
    let states = initial_states(alloc, model.init(), model.variables().len())?;
    Ok(is_each_stopped(alloc, model, &states)? && !is_one_false(alloc, model, &states)?)
}

/// Whether some constraint is FALSE at each initial state.
pub(crate) fn stop_all(alloc: Global, model: &Model) -> Result<bool, Fault> {
    if model.constraints().is_empty() {
        return Ok(false);
    }
    let states = initial_states(alloc, model.init(), model.variables().len())?;
    is_each_stopped(alloc, model, &states)
}

fn is_each_stopped(alloc: Global, model: &Model, states: &[State]) -> Result<bool, Fault> {
    for state in states {
        if !is_one_false(alloc, model, std::slice::from_ref(state))? {
            return Ok(false);
        }
    }
    Ok(true)
}

/// Whether one constraint is FALSE at all of these states.
fn is_one_false(alloc: Global, model: &Model, states: &[State]) -> Result<bool, Fault> {
    for constraint in model.constraints() {
        if is_false_in_all(alloc, &constraint.core, states)? {
            return Ok(true);
        }
    }
    Ok(false)
}
