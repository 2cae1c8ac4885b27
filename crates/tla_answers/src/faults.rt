//! Faults of evaluation.

use crate::answer::{begin_at, end_at};
use crate::operands::explain_operands;
use crate::{given, lacking};
use tla_core::{Fault, FaultCode, Place};
use tla_lex::{Kind, Token};
use tla_page::definitions::definition_at;
use tla_page::output::Output;
use tla_page::places::{token_place, word};
use tla_page::units::put_assumption;
use tla_page::values::put_state;
use tla_report::Answered;
use tla_traces::context::ExplainContext;
use tla_value::Text;
use tla_verdict::Part;

/// Explains a fault: where it is, in which definitions, and the values of the variables.
pub(crate) fn explain_fault(
    output: &mut Output,
    context: &ExplainContext<'_>,
    answered: &Answered,
    fault: &Fault,
    part: Part,
) {
    if given::explain_fault(output, context, fault, part) {
        return;
    }
    match fault.variable {
        Some(variable) => lacking::explain_unset(output, context, answered, part, variable),
        None => explain_at_place(output, context, answered, fault, part),
    }
    put_fault_state(output, answered);
}

/// Explains a fault of the expression at a place.
fn explain_at_place(
    output: &mut Output,
    context: &ExplainContext<'_>,
    answered: &Answered,
    fault: &Fault,
    part: Part,
) {
    begin_at(output, context.sources, fault.place);
    output.put(&[code_title(fault.code), " (", fault.code.name(), "), in "]);
    put_part_name(output, context, answered, part);
    end_at(output, context.sources, fault.place);
    explain_operands(
        output,
        context,
        fault,
        part,
        answered.answer.states().last(),
    );
    if let Some(place) = fault.place {
        put_definitions(output, context, place);
    }
}

/// Adds the name of the part in which the fault occurred.
pub(crate) fn put_part_name(
    output: &mut Output,
    context: &ExplainContext<'_>,
    answered: &Answered,
    part: Part,
) {
    match part {
        Part::Assumption(number) => put_assumption(output, context.units, number),
        Part::Initial => output.put_text("the initial predicate"),
        Part::NextAction => output.put_text("the next-state action"),
        Part::Invariant(index) => {
            put_named(output, "invariant", answered.invariants.as_slice(), index);
        }
        Part::Constraint(index) => {
            put_named(output, "constraint", answered.constraints.as_slice(), index);
        }
    }
}

pub(crate) fn put_named(output: &mut Output, kind: &str, names: &[Text], index: usize) {
    output.put(&[kind, " '", name_at(names, index), "'"]);
}

pub(crate) fn name_at(names: &[Text], index: usize) -> &str {
    match names.get(index) {
        Some(name) => name.as_str(),
        None => "",
    }
}

fn code_title(code: FaultCode) -> &'static str {
    match code {
        FaultCode::WrongKind => "a value of the wrong kind",
        FaultCode::Overflow => "a number beyond 64 bits",
        FaultCode::SmallDivisor => "a divisor below 1",
        FaultCode::NegativeExponent => "a negative exponent",
        FaultCode::OutsideDomain => "an argument outside the domain",
        FaultCode::NoField => "no such field",
        FaultCode::NoChoice => "CHOOSE finds nothing",
        FaultCode::NoArm => "no arm of CASE is TRUE",
        FaultCode::NotEnumerable => "a set that can't be enumerated",
        FaultCode::TooMany => "a set or function of more than 1,000,000 parts",
        FaultCode::TooDeep => "a value nested more than 64 deep",
        FaultCode::EmptySequence => "Head or Tail of the empty sequence",
        FaultCode::NotSet => "a next value is used before it is set",
        FaultCode::AssertFalse => "Assert is FALSE",
        FaultCode::Unassigned => "a variable is left without a value",
        FaultCode::Memory => "out of memory",
    }
}

/// Names the definition that contains a place, and those that use it.
fn put_definitions(output: &mut Output, context: &ExplainContext<'_>, place: Place) {
    let units = context.units;
    let mut name = definition_at(units, token_place(place));
    if name.is_empty() {
        return;
    }
    output.put(&["in the definition of ", name]);
    for _ in 0..units.len() {
        let Some(user) = put_users(output, context, name) else {
            break;
        };
        name = user;
    }
    output.put_text("\n");
}

/// Adds the definitions that use a name, in the order of the text, except its own. Returns the only one of them.
fn put_users<'a>(output: &mut Output, context: &ExplainContext<'a>, name: &str) -> Option<&'a str> {
    let mut last = "";
    let mut only = None;
    for token in context.tokens {
        let user = user_at(context, token, name);
        if user.is_empty() || user == name || user == last {
            continue;
        }
        if last.is_empty() {
            output.put(&[", used by ", user]);
            only = Some(user);
        } else {
            output.put(&[" and ", user]);
            only = None;
        }
        last = user;
    }
    only
}

/// The definition in which a token uses a name; empty if it is another token.
fn user_at<'a>(context: &ExplainContext<'a>, token: &Token, name: &str) -> &'a str {
    if token.kind == Kind::Name && word(context.sources.module, token) == name {
        definition_at(context.units, token.place)
    } else {
        ""
    }
}

/// Adds the values of the variables in the state of the fault.
fn put_fault_state(output: &mut Output, answered: &Answered) {
    let states = answered.answer.states();
    if let Some(last) = states.last() {
        output.put_text("met in state ");
        output.put_number(states.len() as u128);
        output.put_text(":\n");
        put_state(output, answered.variables.as_slice(), last);
    }
}
