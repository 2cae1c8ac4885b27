//! The operands of an expression that faults.

use crate::bounds::{hint_finite, hint_flat};
use crate::counts::{count_of, most_of};
use crate::cures::{hint_field, hint_kind, wrong_operand};
use crate::extents::text_of;
use crate::kinds::{Wanted, is_record, put_domain, put_fields, put_kind};
use crate::unset::hint_next;
use crate::why::{operand_expr, put_expression, put_operands};
use tla_core::{Binary, Core, Fault, FaultCode};
use tla_page::output::Output;
use tla_steps::{Culprit, Operand, culprit_in, culprit_of_reading};
use tla_traces::binders::put_choices;
use tla_traces::context::ExplainContext;
use tla_traces::expressions::expression_of;
use tla_traces::signs::sign_of;
use tla_tree::Expr;
use tla_value::{State, Value};
use tla_verdict::Part;

/// The most expressions that are evaluated to find the node of a fault.
const BUDGET: u64 = 300_000;

/// The node of a fault, with its text.
#[derive(Clone, Copy)]
pub(crate) struct Scene<'a, 'c> {
    pub(crate) node: &'c Core,
    pub(crate) expr: Option<&'a Expr>,
    pub(crate) culprit: &'c Culprit<'c>,
    pub(crate) is_initial: bool,
}

/// Adds the operands of the node at which a formula faults, and the values of the names bound there.
pub(crate) fn explain_operands(
    output: &mut Output,
    context: &ExplainContext<'_>,
    fault: &Fault,
    part: Part,
    state: Option<&State>,
) {
    let model = context.model;
    let alloc = output.alloc();
    let variables = model.variables().len();
    let found = match part {
        Part::Initial => { culprit_of_reading(alloc, model.init(), fault, variables, None, BUDGET) }
        Part::NextAction => {
            culprit_of_reading(alloc, model.next(), fault, variables, state, BUDGET)
        }
        _ => match predicate_of(context, part) {
            Some(predicate) => culprit_in(alloc, predicate, fault, state, BUDGET),
            None => Ok(None),
        },
    };
    match found {
        Ok(Some(culprit)) => explain_culprit(output, context, fault.code, &culprit, part),
        Ok(None) => output.put_rule(fault.code.name()),
        Err(_) => output.refuse(),
    }
}

/// The expression of an assumption, an invariant or a constraint.
fn predicate_of<'a>(context: &ExplainContext<'a>, part: Part) -> Option<&'a Core> {
    let model = context.model;
    match part {
        Part::Assumption(number) => { model.assumptions().get(number.saturating_sub(1) as usize) }
        Part::Invariant(index) => match model.invariants().get(index) {
            Some(predicate) => Some(&predicate.core),
            None => None,
        },
        Part::Constraint(index) => match model.constraints().get(index) {
            Some(predicate) => Some(&predicate.core),
            None => None,
        },
        Part::Initial | Part::NextAction => None,
    }
}

fn explain_culprit(
    output: &mut Output,
    context: &ExplainContext<'_>,
    code: FaultCode,
    culprit: &Culprit<'_>,
    part: Part,
) {
    let Some(&node) = culprit.nodes.last() else {
        return output.put_rule(code.name());
    };
    let scene = Scene {
        node,
        expr: expression_of(context.units, node),
        culprit,
        is_initial: matches!(part, Part::Initial),
    };
    if !has_own_text(code, &scene) {
        output.put_rule(code.name());
    }
    explain_cause(output, context, code, &scene);
    if !culprit.chosen.is_empty() && misfit(&scene).is_none() {
        put_choices(output, context, &culprit.chosen);
        output.put_text("\n");
    }
    match code {
        FaultCode::WrongKind => hint_kind(output, context, &scene),
        FaultCode::NotSet => hint_next(output, context, &scene),
        FaultCode::NoField => hint_field(output, &scene),
        FaultCode::NotEnumerable => hint_finite(output, &scene),
        FaultCode::TooDeep => hint_flat(output, &scene),
        _ => {}
    }
}

/// Whether the text about the node makes the rule of the code superfluous.
fn has_own_text(code: FaultCode, scene: &Scene<'_, '_>) -> bool {
    match code {
        FaultCode::WrongKind => {
            wrong_operand(scene).is_some()
                || misfit(scene).is_some()
                || scene.culprit.value.is_some()
        }
        FaultCode::NotSet => matches!(scene.node, Core::Next(_, _)),
        _ => false,
    }
}

/// Adds the operands that the code is about.
fn explain_cause<'a>(
    output: &mut Output,
    context: &ExplainContext<'a>,
    code: FaultCode,
    scene: &Scene<'a, '_>,
) {
    let operands = scene.culprit.operands.as_slice();
    match (code, operands) {
        (FaultCode::WrongKind, _) => explain_wrong_kind(output, context, scene),
        (FaultCode::OutsideDomain, [function, argument]) => {
            explain_outside_domain(output, context, scene, function, argument);
        }
        (FaultCode::NoField, [record]) => explain_missing_field(output, context, scene, record),
        (FaultCode::NoChoice, [set]) => explain_no_choice(output, context, scene, set),
        (FaultCode::TooMany, _) => explain_too_many(output, context, scene),
        (FaultCode::AssertFalse, _) => explain_assert(output, context, scene),
        (FaultCode::NotSet, _) => explain_not_set(output, context, scene),
        (
            FaultCode::Overflow
            | FaultCode::SmallDivisor
            | FaultCode::NegativeExponent
            | FaultCode::EmptySequence
            | FaultCode::OutsideDomain,
            _,
        ) => explain_values(output, context, scene),
        _ => {}
    }
}

/// Adds the first operand that isn't of the required kind, the element that doesn't fit its pattern, or the value that
/// is no truth value.
fn explain_wrong_kind<'a>(
    output: &mut Output,
    context: &ExplainContext<'a>,
    scene: &Scene<'a, '_>,
) {
    if let Some((operand, wanted)) = wrong_operand(scene) {
        put_position(output, scene, operand.number);
        put_name_of(output, context, scene, operand);
        put_wanted(output, &operand.value, wanted);
    } else if let Some((element, items)) = misfit(scene) {
        output.put_text("the element is ");
        put_kind(output, element);
        output.put_text("; a sequence of ");
        output.put_number(items as u128);
        output.put_text(" items is wanted, for its pattern\n");
    } else if let (Some(value), Some(expr)) = (&scene.culprit.value, scene.expr) {
        put_expression(output, context, expr);
        put_wanted(output, value, Wanted::Truth);
    }
}

/// Ends the text about a value that isn't of the required kind.
fn put_wanted(output: &mut Output, value: &Value, wanted: Wanted) {
    output.put_text(" is ");
    put_kind(output, value);
    output.put(&["; ", wanted.text(), " is wanted\n"]);
}

/// The element that doesn't fit its pattern, and the number of names of the pattern.
fn misfit<'c>(scene: &Scene<'_, 'c>) -> Option<(&'c Value, usize)> {
    let Core::Destructure(_, openings, _) = scene.node else {
        return None;
    };
    let [opening] = openings.as_slice() else {
        return None;
    };
    let chosen = scene.culprit.chosen.last()?;
    Some((&chosen.value, opening.items))
}

/// Adds the text of an operand after a comma, unless it is the same as its value.
fn put_name_of<'a>(
    output: &mut Output,
    context: &ExplainContext<'a>,
    scene: &Scene<'a, '_>,
    operand: &Operand<'_>,
) {
    let Some(expr) = operand_expr(context, scene.expr, operand) else {
        return;
    };
    match text_of(output.alloc(), context.sources, context.tokens, expr) {
        Ok(text) => {
            if !output.is_text_of(&operand.value, &text) {
                output.put_text(", ");
                output.put_bytes(&text);
                output.put_text(",");
            }
        }
        Err(_) => output.refuse(),
    }
}

/// Adds which operand of a node it is: `left of \X`.
fn put_position(output: &mut Output, scene: &Scene<'_, '_>, number: usize) {
    let sign = sign_of(scene.node);
    match scene.node {
        Core::Unary(_, _, _) | Core::Power(_, _) | Core::Sequences(_, _) => {
            output.put(&["the operand of ", sign]);
        }
        Core::Binary(_, Binary::Append, _, _) | Core::SubSeq(_, _, _, _) | Core::Assert(_, _, _) =>
            {
                output.put_text("argument ");
                output.put_number(number.saturating_add(1) as u128);
                output.put(&[" of ", sign]);
            }
        Core::Apply(_, _, _) => output.put_text("before [ ]"),
        Core::Field(_, name, _) => output.put(&["before .", name.as_str()]),
        Core::Except(_, _, _) => output.put_text("before EXCEPT"),
        Core::If(_, _, _, _) => output.put_text("the condition of IF"),
        Core::Functions(_, _, _) => output.put_text(if number == 0 {
            "left of ->"
        } else {
            "right of ->"
        }),
        Core::ForAll(_, _, _)
        | Core::ForSome(_, _, _)
        | Core::Choose(_, _, _)
        | Core::Filter(_, _, _)
        | Core::Image(_, _, _)
        | Core::Function(_, _, _)
        | Core::Records(_, _) => output.put(&["the set in ", sign]),
        Core::Conjunction(_, parts) | Core::Disjunction(_, parts) | Core::Product(_, parts)
            if parts.len() > 2 => {
            output.put_text("part ");
            output.put_number(number.saturating_add(1) as u128);
            output.put(&[" of ", sign]);
        }
        _ => output.put(&[if number == 0 { "left of " } else { "right of " }, sign]),
    }
}

/// Adds an argument, and the domain, which doesn't contain it.
fn explain_outside_domain<'a>(
    output: &mut Output,
    context: &ExplainContext<'a>,
    scene: &Scene<'a, '_>,
    function: &Operand<'_>,
    argument: &Operand<'_>,
) {
    let Value::Fun(value) = &function.value else {
        return explain_values(output, context, scene);
    };
    output.put_text("the argument");
    put_name_of(output, context, scene, argument);
    output.put_text(" is ");
    output.put_value(&argument.value);
    output.put_text("; the domain of ");
    match operand_expr(context, scene.expr, function) {
        Some(expr) => put_expression(output, context, expr),
        None => output.put_text("the function"),
    }
    output.put_text(" is ");
    put_domain(output, value);
    output.put_text("\n");
}

/// Adds the fields that a record has.
fn explain_missing_field<'a>(
    output: &mut Output,
    context: &ExplainContext<'a>,
    scene: &Scene<'a, '_>,
    record: &Operand<'_>,
) {
    let Value::Fun(function) = &record.value else {
        return;
    };
    match operand_expr(context, scene.expr, record) {
        Some(expr) => put_expression(output, context, expr),
        None => output.put_text("the record"),
    }
    if is_record(function) {
        output.put_text(" has the fields ");
        put_fields(output, function);
    } else {
        output.put_text(" is ");
        put_kind(output, &record.value);
    }
    output.put_text("\n");
}

/// Adds the set from which CHOOSE found no element.
fn explain_no_choice<'a>(
    output: &mut Output,
    context: &ExplainContext<'a>,
    scene: &Scene<'a, '_>,
    set: &Operand<'_>,
) {
    output.put_text("no element of ");
    match operand_expr(context, scene.expr, set) {
        Some(expr) => put_expression(output, context, expr),
        None => output.put_value(&set.value),
    }
    output.put_text(" makes the condition TRUE");
    put_values(output, context, scene);
    output.put_text("\n");
}

/// Adds an expression, and its operands with their values.
fn explain_values<'a>(output: &mut Output, context: &ExplainContext<'a>, scene: &Scene<'a, '_>) {
    let Some(expr) = scene.expr else {
        return;
    };
    output.put_text("in ");
    put_expression(output, context, expr);
    put_values(output, context, scene);
    output.put_text("\n");
}

fn put_values<'a>(output: &mut Output, context: &ExplainContext<'a>, scene: &Scene<'a, '_>) {
    let culprit = scene.culprit;
    put_operands(
        output,
        context,
        scene.expr,
        &culprit.operands,
        &culprit.chosen,
    );
}

/// Adds the condition and the text of Assert.
fn explain_assert<'a>(output: &mut Output, context: &ExplainContext<'a>, scene: &Scene<'a, '_>) {
    let operands = scene.culprit.operands.as_slice();
    if let Some(condition) = operand_at(operands, 0)
        && let Some(expr) = operand_expr(context, scene.expr, condition)
    {
        put_expression(output, context, expr);
        output.put_text(" is FALSE");
        let count = operands.iter().filter(|operand| operand.number < 2).count();
        let sides = operands.get(count..).unwrap_or(&[]);
        put_operands(output, context, None, sides, &scene.culprit.chosen);
        output.put_text("\n");
    }
    if let Some(text) = operand_at(operands, 1) {
        output.put_text("Assert says ");
        output.put_value(&text.value);
        output.put_text("\n");
    }
}

fn operand_at<'o, 'c>(operands: &'o [Operand<'c>], number: usize) -> Option<&'o Operand<'c>> {
    operands.iter().find(|operand| operand.number == number)
}

/// Adds which variable has no value yet.
fn explain_not_set<'a>(output: &mut Output, context: &ExplainContext<'a>, scene: &Scene<'a, '_>) {
    if let Some(expr) = scene.expr {
        put_expression(output, context, expr);
        output.put_text(" has no value yet\n");
    }
}

/// Adds how many elements a set would have.
fn explain_too_many<'a>(output: &mut Output, context: &ExplainContext<'a>, scene: &Scene<'a, '_>) {
    let operands = scene.culprit.operands.as_slice();
    if let Some(count) = count_of(scene.node, operands) {
        put_count(output, context, scene, " would have ", count);
    } else if let Some(count) = most_of(scene.node, operands) {
        put_count(output, context, scene, " would have up to ", count);
    }
}

fn put_count<'a>(
    output: &mut Output,
    context: &ExplainContext<'a>,
    scene: &Scene<'a, '_>,
    words: &str,
    count: u128,
) {
    match scene.expr {
        Some(expr) => put_expression(output, context, expr),
        None => output.put_text("the set"),
    }
    output.put_text(words);
    if count == u128::MAX {
        output.put_text("more than 10^38");
    } else {
        output.put_number(count);
    }
    output.put_text(" parts\n");
}
