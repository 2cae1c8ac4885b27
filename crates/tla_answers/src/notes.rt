//! The notes after `No error.`

use crate::why::{explain_blocked, explain_reasons};
use crate::{given, missed};
use std::alloc::{AllocError, Global};
use tla_config::Statement;
use tla_lex::{Kind, Token};
use tla_model::StatePredicate;
use tla_page::definitions::definition_at;
use tla_page::output::Output;
use tla_page::places::{core_place, word};
use tla_steps::{initial_states, is_false_in_all};
use tla_traces::context::ExplainContext;
use tla_traces::trace::put_part;
use tla_value::State;
use tla_verdict::{Counts, Part};

/// The most states of a level whose constraints are evaluated again.
const MOST_STATES: u64 = 10_000;

/// Adds notes on what a user may have missed, if no error was found.
pub(crate) fn put_notes(output: &mut Output, context: &ExplainContext<'_>, counts: &Counts) {
    if counts.levels == 0 {
        return note_no_state(output, context);
    }
    if context.model.invariants().is_empty() {
        note_no_invariant(output, context);
    }
    if counts.levels == 1 && counts.states <= MOST_STATES {
        note_constraints(output, context);
    }
    missed::note_missed_in_search(output, context);
    note_fairness(output, context);
}

/// Notes that there is no initial state, and why.
fn note_no_state(output: &mut Output, context: &ExplainContext<'_>) {
    output.put_text("note: no state makes the initial predicate TRUE, so nothing was checked\n");
    match given::formula_alone(output, context, Part::Initial) {
        Some(formula) => given::hint(output, context, &formula),
        None => explain_blocked(output, context, "note: ", context.model.init(), None),
    }
}

fn note_no_invariant(output: &mut Output, context: &ExplainContext<'_>) {
    let sources = context.sources;
    output.put(&["note: ", sources.names.configuration, " has no INVARIANT: "]);
    output.put_text(if context.model.check_deadlock() {
        "only deadlock was checked\n"
    } else {
        "it was only checked that each expression has a value\n"
    });
}

/// Notes each constraint that is FALSE at every initial state.
fn note_constraints(output: &mut Output, context: &ExplainContext<'_>) {
    let model = context.model;
    if model.constraints().is_empty() {
        return;
    }
    let states = match initial_states(output.alloc(), model.init(), model.variables().len()) {
        Ok(states) => states,
        Err(_) => return output.refuse(),
    };
    for (index, constraint) in model.constraints().iter().enumerate() {
        note_constraint(output, context, (index, constraint), &states);
    }
}

fn note_constraint(
    output: &mut Output,
    context: &ExplainContext<'_>,
    numbered: (usize, &StatePredicate),
    states: &[State],
) {
    let (index, constraint) = numbered;
    match is_false_in_all(output.alloc(), &constraint.core, states) {
        Ok(true) => {
            output.put(&["note: constraint '", constraint.name.as_str()]);
            output.put_text("' is FALSE at every initial state, so no step was taken\n");
            match given::formula_alone(output, context, Part::Constraint(index)) {
                Some(formula) => given::hint(output, context, &formula),
                None => explain_reasons(
                    output,
                    context,
                    "note: ",
                    &constraint.core,
                    states.first(),
                ),
            }
        }
        Ok(false) => {}
        Err(_) => output.refuse(),
    }
}

/// Notes fairness in the formula that SPECIFICATION names.
fn note_fairness(output: &mut Output, context: &ExplainContext<'_>) {
    for statement in context.statements {
        if let Statement::Specification(_, name) = statement {
            let name = str::from_utf8(name.word.as_bytes()).unwrap_or("");
            note_fairness_of(output, context, name);
        }
    }
}

fn note_fairness_of(output: &mut Output, context: &ExplainContext<'_>, specification: &str) {
    for token in context.tokens {
        if !matches!(token.kind, Kind::WeakFairness | Kind::StrongFairness) {
            continue;
        }
        match is_part_of(output.alloc(), context, token, specification) {
            Ok(true) => {
                output.put_text("note: fairness is passed over, in ");
                put_part(output, context, core_place(token.place));
                output.put_text(": only safety is checked\n");
                return;
            }
            Ok(false) => {}
            Err(_) => return output.refuse(),
        }
    }
}

/// Whether a token is in a definition, or in one to which this definition leads. The only error is that memory ran out.
fn is_part_of(
    alloc: Global,
    context: &ExplainContext<'_>,
    token: &Token,
    specification: &str,
) -> Result<bool, AllocError> {
    let mut met = Vec::new(alloc);
    met.push(definition_at(context.units, token.place))?;
    for index in 0..context.tokens.len() {
        let Some(name) = met.get(index).copied() else {
            break;
        };
        if name == specification {
            return Ok(true);
        }
        add_users(&mut met, context, name)?;
    }
    Ok(false)
}

/// Adds the definitions that use a name, unless they are in the list already.
fn add_users<'a>(
    met: &mut Vec<&'a str>,
    context: &ExplainContext<'a>,
    name: &str,
) -> Result<(), AllocError> {
    for token in context.tokens {
        if token.kind == Kind::Name && word(context.sources.module, token) == name {
            let user = definition_at(context.units, token.place);
            if !met.contains(&user) {
                met.push(user)?;
            }
        }
    }
    Ok(())
}
