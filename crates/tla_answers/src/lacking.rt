//! Explains that an action leaves a variable without a value.

use crate::answer::{begin_at, end_at};
use crate::faults::{name_at, put_named, put_part_name};
use crate::why::put_expression;
use tla_core::{Core, FaultCode, Place};
use tla_page::output::Output;
use tla_report::Answered;
use tla_steps::{LackingPart, lacking_part, lacking_parts};
use tla_traces::binders::put_choices;
use tla_traces::context::ExplainContext;
use tla_traces::expressions::expression_of;
use tla_traces::trace::put_part;
use tla_value::State;
use tla_verdict::Part;

/// The most expressions that are evaluated to find the part.
const BUDGET: u64 = 300_000;

/// Explains which part leaves a variable without a value, and what to write.
pub(crate) fn explain_unset(
    output: &mut Output,
    context: &ExplainContext<'_>,
    answered: &Answered,
    part: Part,
    variable: usize,
) {
    let action = action_of(context, part);
    let state = answered.answer.states().last();
    let found = found_part(output, context, action, variable, state);
    let place = match &found {
        Some(found) => Some(found.part.place()),
        None => Some(action.place()),
    };
    let names = answered.variables.as_slice();
    begin_at(output, context.sources, place);
    put_named(output, "variable", names, variable);
    output.put(&[
        " is left without a value (",
        FaultCode::Unassigned.name(),
        "), in ",
    ]);
    put_part_name(output, context, answered, part);
    end_at(output, context.sources, place);
    if found.is_none() {
        output.put_rule(FaultCode::Unassigned.name());
    }
    let lack = Lack {
        action,
        variable,
        name: name_at(names, variable),
        is_initial: matches!(part, Part::Initial),
    };
    explain_parts(output, context, &lack, found.as_ref());
}

/// A variable that an action leaves without a value.
#[derive(Clone, Copy)]
struct Lack<'a> {
    action: &'a Core,
    variable: usize,
    name: &'a str,
    is_initial: bool,
}

/// The initial predicate, or the next-state action.
fn action_of<'a>(context: &ExplainContext<'a>, part: Part) -> &'a Core {
    match part {
        Part::Initial => context.model.init(),
        _ => context.model.next(),
    }
}

/// The first part that leaves the variable without a value.
fn found_part<'a>(
    output: &mut Output,
    context: &ExplainContext<'_>,
    action: &'a Core,
    variable: usize,
    state: Option<&State>,
) -> Option<LackingPart<'a>> {
    let variables = context.model.variables().len();
    match lacking_part(output.alloc(), action, variable, variables, state, BUDGET) {
        Ok(found) => found,
        Err(_) => {
            output.refuse();
            None
        }
    }
}

/// Explains the part that was found, and names the others that may leave the variable without a value.
fn explain_parts(
    output: &mut Output,
    context: &ExplainContext<'_>,
    lack: &Lack<'_>,
    found: Option<&LackingPart<'_>>,
) {
    if let Some(found) = found {
        put_lack(output, context, lack, found.part.place());
        if !found.chosen.is_empty() {
            output.put_text(" ");
            put_choices(output, context, &found.chosen);
        }
        put_cure(output, lack);
        if !lack.is_initial {
            hint_prime(output, context, lack, found.part);
        }
    }
    match lacking_parts(output.alloc(), lack.action, lack.variable) {
        Ok(places) => explain_other_parts(output, context, lack, found, &places),
        Err(_) => output.refuse(),
    }
}

fn explain_other_parts(
    output: &mut Output,
    context: &ExplainContext<'_>,
    lack: &Lack<'_>,
    found: Option<&LackingPart<'_>>,
    places: &[Place],
) {
    for place in places {
        if found.is_none_or(|found| found.part.place() != *place) {
            put_lack(output, context, lack, *place);
            put_cure(output, lack);
        }
    }
}

fn put_lack(output: &mut Output, context: &ExplainContext<'_>, lack: &Lack<'_>, place: Place) {
    output.put(&["no value for ", lack.name, " in "]);
    put_part(output, context, place);
}

fn put_cure(output: &mut Output, lack: &Lack<'_>) {
    if lack.is_initial {
        output.put(&[": write ", lack.name, " = .. or ", lack.name, " \\in ..\n"]);
    } else {
        output.put(&[": write UNCHANGED ", lack.name, "\n"]);
    }
}

/// Hints at a prime, if a conjunct after the first one that sets a variable compares the one that has no value.
fn hint_prime(output: &mut Output, context: &ExplainContext<'_>, lack: &Lack<'_>, part: &Core) {
    let Core::Conjunction(_, parts) = part else {
        return;
    };
    let mut sets = false;
    for part in parts {
        if sets && compares(part, lack.variable) {
            return put_prime_hint(output, context, lack.name, part);
        }
        sets = sets || part.is_primed();
    }
}

/// Whether a conjunct compares the present value of a variable.
fn compares(part: &Core, variable: usize) -> bool {
    match part {
        Core::Equal(_, left, _) | Core::Member(_, left, _) => {
            matches!(left.as_ref(), Core::Now(_, other) if *other == variable)
        }
        _ => false,
    }
}

fn put_prime_hint(output: &mut Output, context: &ExplainContext<'_>, name: &str, part: &Core) {
    output.put_text("hint: ");
    match expression_of(context.units, part) {
        Some(expr) => put_expression(output, context, expr),
        None => output.put_text("a conjunct"),
    }
    output.put(&[" is about the present value: did you mean ", name, "' ?\n"]);
}
