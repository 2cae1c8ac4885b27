//! Initial states, and whether a predicate is FALSE at all of them.

use crate::walk::Walk;
use std::alloc::Global;
use tla_core::{Core, Fault};
use tla_eval::Partial;
use tla_value::{State, Value};

/// The states of an initial predicate, possibly with duplicates; none if it faults. The only error is that memory ran
/// out.
pub fn initial_states(alloc: Global, init: &Core, variables: usize) -> Result<Vec<State>, Fault> {
    let mut walk = Walk::new(alloc, None, 1);
    let unset = Partial::unset(alloc, variables)?;
    let mut states = Vec::new(alloc);
    let Some(reached) = walk.states_of(init, &unset)? else {
        return Ok(states);
    };
    for partial in reached {
        if let Some(values) = values_of(alloc, partial)? {
            states.push(State::new(values))?;
        }
    }
    Ok(states)
}

/// The values of the variables; none if one has no value.
fn values_of(alloc: Global, partial: Partial) -> Result<Option<Vec<Value>>, Fault> {
    let mut values = Vec::new(alloc);
    for value in partial.into_values() {
        match value {
            Some(value) => values.push(value)?,
            None => return Ok(None),
        }
    }
    Ok(Some(values))
}

/// Whether a predicate is FALSE at each of these states, and there is at least one. The only error is that memory ran
/// out.
pub fn is_false_in_all(alloc: Global, predicate: &Core, states: &[State]) -> Result<bool, Fault> {
    let next = Partial::unset(alloc, 0)?;
    for state in states {
        let mut walk = Walk::new(alloc, Some(state), 1);
        if walk.truth(predicate, &next)? != Some(false) {
            return Ok(false);
        }
    }
    Ok(!states.is_empty())
}
