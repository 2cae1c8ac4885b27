//! Traces, step by step.

use crate::binders::bound_name;
use crate::changes::put_changes;
use crate::context::ExplainContext;
use std::alloc::Global;
use tla_core::{Fault, Place};
use tla_page::definitions::{definition_at, definition_starts};
use tla_page::output::Output;
use tla_page::places::token_place;
use tla_report::Answered;
use tla_steps::{Action, Chosen, Taken, next_values, taken_parts};
use tla_value::State;

/// The most steps of a trace that are shown: the last ones.
const MOST_STEPS: usize = 100;

/// The most expressions that are evaluated to find which parts made the steps.
const BUDGET: u64 = 1_000_000;

/// Adds the steps of a trace: which part of Next made each, with the values that its `\E` chose, and what changed.
pub fn explain_trace(output: &mut Output, context: &ExplainContext<'_>, answered: &Answered) {
    let states = answered.answer.states();
    let passed = states.len().saturating_sub(MOST_STEPS.saturating_add(1));
    if passed > 0 {
        put_passed(output, passed);
    }
    let Ok(starts) = definition_starts(output.alloc(), context.units) else {
        return output.refuse();
    };
    let mut budget = BUDGET;
    for (index, pair) in states.windows(2).enumerate().skip(passed) {
        if let [before, after] = pair {
            put_state_number(output, index.saturating_add(2));
            put_makers(output, context, &starts, (before, after), &mut budget);
            put_changes(output, &answered.variables, before, after);
        }
    }
}

fn put_passed(output: &mut Output, count: usize) {
    output.put_text("(");
    output.put_number(count as u128);
    output.put_text(" earlier steps are left out)\n");
}

fn put_state_number(output: &mut Output, number: usize) {
    output.put_text("state ");
    output.put_number(number as u128);
}

/// Adds which parts of Next made a step from one state to another.
fn put_makers(
    output: &mut Output,
    context: &ExplainContext<'_>,
    starts: &[Place],
    step: (&State, &State),
    budget: &mut u64,
) {
    match makers_of(output.alloc(), context, starts, step, budget) {
        Ok(makers) => put_all(output, context, &makers),
        Err(_) => output.refuse(),
    }
}

/// The parts of Next that made a step from one state to another. The only error is that memory ran out.
pub fn makers_of(
    alloc: Global,
    context: &ExplainContext<'_>,
    starts: &[Place],
    step: (&State, &State),
    budget: &mut u64,
) -> Result<Vec<Taken>, Fault> {
    let (before, after) = step;
    let next = next_values(alloc, after)?;
    let action = Action {
        core: context.model.next(),
        starts,
        skipped: &[],
    };
    taken_parts(alloc, action, before, &next, budget)
}

fn put_all(output: &mut Output, context: &ExplainContext<'_>, makers: &[Taken]) {
    if makers.is_empty() {
        return output.put_text(", by a part of Next that was not found:\n");
    }
    for (index, maker) in makers.iter().enumerate() {
        output.put_text(if index == 0 { ", by " } else { " or by " });
        put_maker(output, context, maker);
    }
    output.put_text(":\n");
}

/// Adds the name of a part, its line, where it is called, and the values that were chosen for it.
fn put_maker(output: &mut Output, context: &ExplainContext<'_>, maker: &Taken) {
    put_part(output, context, maker.place);
    put_caller(output, context, maker.place, maker.within);
    for (index, chosen) in maker.chosen.iter().enumerate() {
        output.put_text(if index == 0 { " with " } else { ", " });
        put_chosen(output, context, chosen);
    }
}

/// Adds the name of the definition that a part is in, and its line.
pub fn put_part(output: &mut Output, context: &ExplainContext<'_>, place: Place) {
    let name = definition_at(context.units, token_place(place));
    output.put(&[name, " (line "]);
    output.put_number(u128::from(place.line));
    output.put_text(")");
}

/// Adds the name of the definition in which a part is called, if it is another one.
pub fn put_caller(
    output: &mut Output,
    context: &ExplainContext<'_>,
    place: Place,
    within: Option<Place>,
) {
    if let Some(within) = within {
        let caller = definition_at(context.units, token_place(within));
        if caller != definition_at(context.units, token_place(place)) {
            output.put(&[", in ", caller]);
        }
    }
}

fn put_chosen(output: &mut Output, context: &ExplainContext<'_>, chosen: &Chosen) {
    output.put(&[bound_name_of(context, chosen), " = "]);
    output.put_value(&chosen.value);
}

/// The name for which a `\E` chose a value.
pub fn bound_name_of<'a>(context: &ExplainContext<'a>, chosen: &Chosen) -> &'a str {
    let place = token_place(chosen.place);
    let name = bound_name(context.sources.module, context.tokens, place, chosen.name);
    name.unwrap_or("it")
}
