//! Answers of a search.

use crate::why::{explain_blocked, explain_reasons};
use crate::{faults, given, missed, notes};
use tla_config::Source;
use tla_core::Place;
use tla_page::output::Output;
use tla_page::places::{Sources, core_place};
use tla_page::units::put_assumption;
use tla_report::Answered;
use tla_traces::context::ExplainContext;
use tla_traces::formulas::{Formula, formula_of};
use tla_traces::named::Named;
use tla_traces::trace::explain_trace;
use tla_verdict::{Answer, Part};

/// Explains an answer. If there is no error, it writes only notes.
pub fn explain_answer(output: &mut Output, sources: &Sources<'_>, answered: &Answered) {
    match &answered.answer {
        Answer::Limit { .. } => explain_limit(output, answered.limit),
        _ => explain_with_model(output, sources, answered),
    }
}

fn explain_limit(output: &mut Output, limit: u64) {
    output.put_text("more than ");
    output.put_number(u128::from(limit));
    output.put_text(" states: --max-states takes 1 to 16777216\n");
    output.hint(&["where a variable grows without end, bound it by a CONSTRAINT"]);
}

/// Explains an answer by the model that the two texts denote.
fn explain_with_model(output: &mut Output, sources: &Sources<'_>, answered: &Answered) {
    let Some(named) = Named::read(output.alloc(), sources) else {
        return output.refuse();
    };
    let context = named.context(sources);
    match &answered.answer {
        Answer::NoError { counts } => notes::put_notes(output, &context, counts),
        _ => {
            explain_error(output, &context, answered);
            missed::explain_missed_in_trace(output, &context, answered.answer.states());
            explain_trace(output, &context, answered);
        }
    }
}

/// Explains the error that an answer reports.
fn explain_error(output: &mut Output, context: &ExplainContext<'_>, answered: &Answered) {
    match &answered.answer {
        Answer::InvariantFalse { invariant, .. } => {
            match formula_of(output.alloc(), context, Part::Invariant(*invariant)) {
                Ok(Some(formula)) => explain_false_invariant(
                    output, context, answered, *invariant, &formula,
                ),
                Ok(None) => {}
                Err(_) => output.refuse(),
            }
        }
        Answer::Deadlock { .. } => explain_deadlock(output, context, answered),
        Answer::Faulted { fault, part, .. } => {
            faults::explain_fault(output, context, answered, fault, *part);
        }
        Answer::AssumptionFalse { number } => explain_false_assumption(output, context, *number),
        Answer::NoError { .. } | Answer::Limit { .. } => {}
    }
}

/// Begins an explanation at a place of the module.
pub fn begin_at(output: &mut Output, sources: &Sources<'_>, place: Option<Place>) {
    match place {
        Some(place) => output.put_place(sources, Source::Module, place),
        None => output.put(&[sources.names.module, ": "]),
    }
}

/// Ends an explanation at a place of the module, and shows the place.
pub fn end_at(output: &mut Output, sources: &Sources<'_>, place: Option<Place>) {
    output.put_text("\n");
    if let Some(place) = place {
        output.show(sources, Source::Module, place);
    }
}

/// Explains why an invariant is FALSE.
fn explain_false_invariant(
    output: &mut Output,
    context: &ExplainContext<'_>,
    answered: &Answered,
    invariant: usize,
    formula: &Formula<'_>,
) {
    let states = answered.answer.states();
    let Some(known) = formula.meant else {
        given::begin(output, context, formula);
        put_false(output, formula, states.len());
        given::end(output, context, formula);
        return given::hint(output, context, formula);
    };
    let place = Some(core_place(known.place));
    begin_at(output, context.sources, place);
    put_false(output, formula, states.len());
    end_at(output, context.sources, place);
    if let Some(predicate) = context.model.invariants().get(invariant) {
        explain_reasons(output, context, "", &predicate.core, states.last());
    }
    given::hint_meaning(output, context, formula);
}

fn put_false(output: &mut Output, formula: &Formula<'_>, count: usize) {
    output.put(&["invariant '", formula.name, "' is false in state "]);
    output.put_number(count as u128);
}

fn explain_deadlock(output: &mut Output, context: &ExplainContext<'_>, answered: &Answered) {
    let states = answered.answer.states();
    if let Some(formula) = given::formula_alone(output, context, Part::NextAction) {
        given::begin(output, context, &formula);
        put_deadlock(output, states.len());
        given::end(output, context, &formula);
        return given::hint(output, context, &formula);
    }
    let next = context.model.next();
    let place = Some(next.place());
    begin_at(output, context.sources, place);
    put_deadlock(output, states.len());
    end_at(output, context.sources, place);
    explain_blocked(output, context, "", next, states.last());
    output.hint(&["CHECK_DEADLOCK FALSE in the configuration, if the specification may end there"]);
}

fn put_deadlock(output: &mut Output, count: usize) {
    output.put_text("deadlock: no step leads on from state ");
    output.put_number(count as u128);
}

fn explain_false_assumption(output: &mut Output, context: &ExplainContext<'_>, number: u64) {
    let index = number.saturating_sub(1) as usize;
    let assumption = context.model.assumptions().get(index);
    let place = match assumption {
        Some(assumption) => Some(assumption.place()),
        None => None,
    };
    begin_at(output, context.sources, place);
    put_assumption(output, context.units, number);
    output.put_text(" is false");
    end_at(output, context.sources, place);
    if let Some(assumption) = assumption {
        explain_reasons(output, context, "", assumption, None);
    }
}
