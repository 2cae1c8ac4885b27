//! Why an invariant or an assumption is FALSE, and why an action makes no step.

use crate::arguments::put_arguments;
use crate::extents::{first_token, text_between, text_of};
use tla_core::Core;
use tla_lex::Kind;
use tla_page::output::Output;
use tla_steps::{
    Blocked, Chosen, Operand, Reason, Stray, Verdict, blocked_parts, may_set, reasons_against,
};
use tla_traces::binders::{is_choice, put_choices};
use tla_traces::context::ExplainContext;
use tla_traces::expressions::{expression_of, operand_of};
use tla_traces::trace::put_part;
use tla_tree::Expr;
use tla_value::State;

/// The most expressions that are evaluated to find why something is FALSE.
const BUDGET: u64 = 300_000;

/// Operands of a reason from this number on are the sets S of operands `Cardinality(S)`.
const COUNTED: usize = 2;

/// The most FALSE parts that are shown.
const MOST_REASONS: usize = 8;

/// Explains which parts of a state predicate make it FALSE, in a line for each, which begins with `start`.
pub(crate) fn explain_reasons(
    output: &mut Output,
    context: &ExplainContext<'_>,
    start: &str,
    predicate: &Core,
    state: Option<&State>,
) {
    if let Core::Constant(_, _) = predicate {
        return;
    }
    match reasons_against(output.alloc(), predicate, state, BUDGET) {
        Ok(reasons) => put_reasons(output, context, start, &reasons),
        Err(_) => output.refuse(),
    }
}

fn put_reasons(
    output: &mut Output,
    context: &ExplainContext<'_>,
    start: &str,
    reasons: &[Reason<'_>],
) {
    for reason in reasons.iter().take(MOST_REASONS) {
        output.put_text(start);
        put_reason(output, context, reason);
    }
    let more = reasons.len().saturating_sub(MOST_REASONS);
    if more > 0 {
        output.put_text("and ");
        output.put_number(more as u128);
        output.put_text(" more parts\n");
    }
}

/// Adds a line about a deciding part: `line 14, /\ Len(queue) <= Max is FALSE; Len(queue) is 4, Max is 3`.
fn put_reason(output: &mut Output, context: &ExplainContext<'_>, reason: &Reason<'_>) {
    let expr = expression_of(context.units, reason.part);
    output.put_text("line ");
    output.put_number(u128::from(reason.part.place().line));
    output.put_text(", ");
    if !reason.chosen.is_empty() {
        put_choices(output, context, &reason.chosen);
        output.put_text(": ");
    }
    if let Some(expr) = expr {
        put_bullet(output, context, expr);
    }
    put_verdict(output, context, expr, reason);
    output.put_text("\n");
}

/// Adds the `/\` or `\/` before an expression.
fn put_bullet(output: &mut Output, context: &ExplainContext<'_>, expr: &Expr) {
    let before = first_token(context.tokens, expr).and_then(|at| at.checked_sub(1));
    let Some(before) = before.and_then(|at| context.tokens.get(at)) else {
        return;
    };
    match before.kind {
        Kind::And => output.put_text("/\\ "),
        Kind::Or => output.put_text("\\/ "),
        _ => {}
    }
}

/// Adds the text of a part, its value and those of its operands.
fn put_verdict(
    output: &mut Output,
    context: &ExplainContext<'_>,
    expr: Option<&Expr>,
    reason: &Reason<'_>,
) {
    match expr {
        Some(Expr::Quantified(_, _, _, body)) if reason.verdict == Verdict::NoElement => {
            put_binders(output, context, expr, body);
        }
        Some(expr) => put_expression(output, context, expr),
        None => put_unwritten(output, context, reason.part),
    }
    output.put_text(match reason.verdict {
        Verdict::True => " is TRUE",
        Verdict::False => " is FALSE",
        Verdict::NoElement => " has nothing to choose",
    });
    if !shows_its_operands(context, expr, reason) {
        put_operands(output, context, expr, &reason.operands, &reason.chosen);
    }
    if let Some(stray) = &reason.stray {
        put_stray(output, context, stray);
    }
    if let Some(expr) = expr {
        put_arguments(output, context, expr, reason);
    }
}

/// Adds why a value isn't in a set: `; at 2 it is "x", not in {"a", "b"}`.
fn put_stray(output: &mut Output, context: &ExplainContext<'_>, stray: &Stray<'_>) {
    output.put_text("; ");
    if let Some(at) = &stray.at {
        output.put_text("at ");
        output.put_value(at);
        output.put_text(" it is ");
    }
    output.put_value(&stray.value);
    output.put_text(if stray.at.is_some() {
        ", not in "
    } else {
        " is not in "
    });
    match expression_of(context.units, stray.set) {
        Some(expr) => put_expression(output, context, expr),
        None => output.put_text("the set"),
    }
}

/// Adds the text of a quantifier before the colon.
fn put_binders<'a>(
    output: &mut Output,
    context: &ExplainContext<'a>,
    whole: Option<&'a Expr>,
    body: &Expr,
) {
    let first = whole.and_then(|whole| first_token(context.tokens, whole));
    let last = first_token(context.tokens, body).and_then(|at| at.checked_sub(2));
    if let (Some(first), Some(last)) = (first, last) {
        match text_between(
            output.alloc(),
            context.sources.module,
            context.tokens,
            first,
            last,
        ) {
            Ok(text) => output.put_bytes(&text),
            Err(_) => output.refuse(),
        }
    }
}

/// Adds a part that has no text of its own: `UNCHANGED <<x, y>>` means UNCHANGED of each variable.
fn put_unwritten(output: &mut Output, context: &ExplainContext<'_>, part: &Core) {
    match part {
        Core::Equal(_, left, _) => match left.as_ref() {
            Core::Next(_, variable) => {
                output.put(&["UNCHANGED ", variable_name(context, *variable)]);
            }
            _ => output.put_text("a part"),
        },
        _ => output.put_text("a part"),
    }
}

/// The name of a variable.
pub(crate) fn variable_name<'a>(context: &ExplainContext<'a>, variable: usize) -> &'a str {
    match context.model.variables().get(variable) {
        Some(name) => name.as_str(),
        None => "",
    }
}

/// Whether an equality that is TRUE has a literal as one side, so that its operands needn't be shown.
fn shows_its_operands(
    context: &ExplainContext<'_>,
    expr: Option<&Expr>,
    reason: &Reason<'_>,
) -> bool {
    let is_equality = matches!(reason.part, Core::Equal(_, _, _));
    is_equality
        && reason.verdict == Verdict::True
        && reason
            .operands
            .iter()
            .any(|operand| is_literal(operand_expr(context, expr, operand)))
}

/// Whether an expression is a literal.
fn is_literal(expr: Option<&Expr>) -> bool {
    match expr {
        Some(Expr::Number(_, _) | Expr::Text(_, _) | Expr::Constant(_, _)) => true,
        _ => false,
    }
}

/// The expression of an operand in the text.
pub(crate) fn operand_expr<'a>(
    context: &ExplainContext<'a>,
    whole: Option<&'a Expr>,
    operand: &Operand<'_>,
) -> Option<&'a Expr> {
    let written = match operand.number.checked_sub(COUNTED) {
        Some(number) => whole.and_then(|whole| counted_in(whole, number)),
        None => None,
    };
    let written = match written {
        Some(expr) => Some(expr),
        None => whole.and_then(|whole| operand_of(whole, operand.number)),
    };
    match written {
        Some(expr) => Some(expr),
        None => expression_of(context.units, operand.core),
    }
}

/// The set S, if operand `number` is `Cardinality(S)`.
fn counted_in(whole: &Expr, number: usize) -> Option<&Expr> {
    match operand_of(whole, number)? {
        Expr::Call(name, arguments) if name.word.as_bytes() == b"Cardinality".as_slice() => {
            arguments.first()
        }
        _ => None,
    }
}

/// Adds the text of an expression.
pub(crate) fn put_expression(output: &mut Output, context: &ExplainContext<'_>, expr: &Expr) {
    match text_of(output.alloc(), context.sources, context.tokens, expr) {
        Ok(text) => output.put_bytes(&text),
        Err(_) => output.refuse(),
    }
}

/// Adds the operands with their values, except literals and chosen names: `; Len(queue) is 4, Max is 3`.
pub(crate) fn put_operands<'a>(
    output: &mut Output,
    context: &ExplainContext<'a>,
    whole: Option<&'a Expr>,
    operands: &[Operand<'_>],
    chosen: &[Chosen],
) {
    let mut before = "; ";
    for operand in operands {
        if let (None, Core::Next(_, variable)) = (whole, operand.core) {
            put_next(output, context, *variable, operand, before);
            before = ", ";
            continue;
        }
        let Some(expr) = operand_expr(context, whole, operand) else {
            continue;
        };
        if !is_choice(context, chosen, expr)
            && put_operand(output, context, expr, operand, before)
        {
            before = ", ";
        }
    }
}

/// Adds the next value of a variable, if it has no text.
fn put_next(
    output: &mut Output,
    context: &ExplainContext<'_>,
    variable: usize,
    operand: &Operand<'_>,
    before: &str,
) {
    output.put(&[before, variable_name(context, variable), "' is "]);
    output.put_value(&operand.value);
}

/// Adds an operand with its value; false if its text is its value.
fn put_operand(
    output: &mut Output,
    context: &ExplainContext<'_>,
    expr: &Expr,
    operand: &Operand<'_>,
    before: &str,
) -> bool {
    let Ok(text) = text_of(output.alloc(), context.sources, context.tokens, expr) else {
        output.refuse();
        return false;
    };
    if output.is_text_of(&operand.value, &text) {
        return false;
    }
    output.put_text(before);
    output.put_bytes(&text);
    output.put_text(" is ");
    output.put_value(&operand.value);
    true
}

/// Explains why an action makes no step: for each of its parts the first conjunct that is FALSE. Each line begins with
/// `start`.
pub(crate) fn explain_blocked(
    output: &mut Output,
    context: &ExplainContext<'_>,
    start: &str,
    action: &Core,
    state: Option<&State>,
) {
    let variables = context.model.variables().len();
    match blocked_parts(output.alloc(), action, variables, state, BUDGET) {
        Ok(parts) => {
            for blocked in parts.iter() {
                put_blocked(output, context, start, blocked);
            }
            hint_prime(output, context, &parts);
        }
        Err(_) => output.refuse(),
    }
}

/// Adds a line for each reason why a part makes no step: `SendNew (line 16): Len(sent) < 3 is FALSE`.
fn put_blocked(
    output: &mut Output,
    context: &ExplainContext<'_>,
    start: &str,
    blocked: &Blocked<'_>,
) {
    for reason in blocked.reasons.iter() {
        output.put_text(start);
        put_part(output, context, blocked.part.place());
        if !reason.chosen.is_empty() {
            output.put_text(" ");
            put_choices(output, context, &reason.chosen);
        }
        output.put_text(": ");
        put_verdict(
            output,
            context,
            expression_of(context.units, reason.part),
            reason,
        );
        output.put_text("\n");
    }
    if blocked.reasons.is_empty() {
        output.put_text(start);
        put_part(output, context, blocked.part.place());
        output.put_text(": no step, and no conjunct was found to be FALSE\n");
    }
    if blocked.more > 0 {
        output.put_text(start);
        put_part(output, context, blocked.part.place());
        output.put_text(": and ");
        output.put_number(blocked.more as u128);
        output.put_text(" more choices\n");
    }
}

/// Adds a hint if an action compares a variable with an expression of it, as in `x = x + 1`.
fn hint_prime(output: &mut Output, context: &ExplainContext<'_>, parts: &[Blocked<'_>]) {
    for blocked in parts {
        for reason in blocked.reasons.iter() {
            let line = reason.part.place().line;
            if let Some(variable) = compared_with_itself(reason.part) {
                return put_prime_hint(output, variable_name(context, variable), line);
            }
            if let Some(variable) = compared_only(reason.part, blocked.part) {
                return put_unset_hint(output, variable_name(context, variable), line);
            }
        }
    }
}

/// The variable that a conjunct compares in a part of Next that sets other variables, but not this one.
fn compared_only(conjunct: &Core, part: &Core) -> Option<usize> {
    match conjunct {
        Core::Equal(_, left, _) | Core::Member(_, left, _) => match left.as_ref() {
            Core::Now(_, variable) if part.is_primed() && !may_set(part, *variable) => {
                Some(*variable)
            }
            _ => None,
        },
        _ => None,
    }
}

fn put_unset_hint(output: &mut Output, name: &str, line: u64) {
    output.put_text("hint: line ");
    output.put_number(u128::from(line));
    output.put(&[
        " asks for the present value of ",
        name,
        ", and nothing there sets it: did you mean ",
        name,
        "' ?\n",
    ]);
}

fn put_prime_hint(output: &mut Output, name: &str, line: u64) {
    output.put_text("hint: line ");
    output.put_number(u128::from(line));
    output.put(&[
        " compares ",
        name,
        " with a value made of ",
        name,
        ": did you mean ",
        name,
        "' ?\n",
    ]);
}

/// The variable that is one side of an equality and occurs in the other side.
fn compared_with_itself(part: &Core) -> Option<usize> {
    let Core::Equal(_, left, right) = part else {
        return None;
    };
    match left.as_ref() {
        Core::Now(_, variable) if mentions(right, *variable) => Some(*variable),
        _ => None,
    }
}

/// Whether an expression applies an operator or EXCEPT to a variable.
fn mentions(core: &Core, variable: usize) -> bool {
    match core {
        Core::Binary(_, _, left, right)
        | Core::Cup(_, left, right)
        | Core::Cap(_, left, right)
        | Core::Minus(_, left, right) => is_now(left, variable) || is_now(right, variable),
        Core::Unary(_, _, part) | Core::Except(_, part, _) => is_now(part, variable),
        _ => false,
    }
}

fn is_now(core: &Core, variable: usize) -> bool {
    matches!(core, Core::Now(_, other) if *other == variable)
}
