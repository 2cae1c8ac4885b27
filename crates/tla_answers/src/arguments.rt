//! The arguments of a definition's parameters in one of its parts.

use crate::extents::text_of;
use std::alloc::AllocError;
use tla_core::Core;
use tla_page::definitions::parameters_at;
use tla_page::output::Output;
use tla_page::places::token_place;
use tla_steps::Reason;
use tla_traces::context::ExplainContext;
use tla_traces::expressions::{expression_of, operand_of};
use tla_traces::signs::{sign_of, written_sign};
use tla_tree::{Expr, Unit, Written};

/// A parameter and its argument.
#[derive(Drop)]
struct Argument<'a, 'c> {
    name: &'a Written,
    core: &'c Core,
}

/// Adds the arguments of the parameters in an expression, if they are written differently: `; r is r1`. An operand
/// whose value is shown isn't shown again.
pub(crate) fn put_arguments(
    output: &mut Output,
    context: &ExplainContext<'_>,
    expr: &Expr,
    reason: &Reason<'_>,
) {
    let mut found = Vec::new(output.alloc());
    if gather(expr, reason.part, &mut found).is_err() {
        return output.refuse();
    }
    for (index, argument) in found.iter().enumerate() {
        let name = argument.name;
        let is_new = found
            .iter()
            .take(index)
            .all(|other| !is_same(other.name, name));
        if is_new && is_parameter(context.units, name) && !is_shown(expr, reason, name) {
            put_argument(output, context, argument);
        }
    }
}

/// Whether an operand is this name.
fn is_shown(expr: &Expr, reason: &Reason<'_>, name: &Written) -> bool {
    reason.operands.iter().any(|operand| match operand_of(expr, operand.number) {
        Some(Expr::Name(other)) => is_same(other, name),
        _ => false,
    })
}

fn is_same(name: &Written, other: &Written) -> bool {
    name.word.as_bytes() == other.word.as_bytes()
}

fn put_argument(output: &mut Output, context: &ExplainContext<'_>, argument: &Argument<'_, '_>) {
    let Some(expr) = expression_of(context.units, argument.core) else {
        return;
    };
    match text_of(output.alloc(), context.sources, context.tokens, expr) {
        Ok(text) => {
            let name = argument.name.word.as_bytes();
            if text.as_slice() != name {
                output.put_text("; ");
                output.put_bytes(name);
                output.put_text(" is ");
                output.put_bytes(&text);
            }
        }
        Err(_) => output.refuse(),
    }
}

/// Whether a name is a parameter of the definition in which it occurs.
fn is_parameter(units: &[Unit], name: &Written) -> bool {
    parameters_at(units, name.place)
        .iter()
        .any(|parameter| is_same(parameter, name))
}

/// Collects the names of an expression whose nodes begin elsewhere.
#[cycle(arguments)]
fn gather<'a, 'c>(
    expr: &'a Expr,
    core: &'c Core,
    found: &mut Vec<Argument<'a, 'c>>,
) -> Result<(), AllocError> {
    match expr {
        Expr::Name(name) => add_name(name, core, found),
        Expr::Paren(_, inner) | Expr::Prime(_, inner) => gather(inner, core, found),
        _ if written_sign(expr) != sign_of(core) => Ok(()),
        Expr::Binary(_, _, _, left, right) => {
            gather_in(left, operand(core, 0), found)?;
            gather_in(right, operand(core, 1), found)
        }
        Expr::Index(_, function, arguments) => {
            gather_in(function, operand(core, 0), found)?;
            gather_in_one(arguments, operand(core, 1), found)
        }
        Expr::Field(_, part, _) | Expr::Unary(_, _, part) => {
            gather_in(part, operand(core, 0), found)
        }
        Expr::Call(_, arguments) => gather_in_one(arguments, operand(core, 0), found),
        _ => Ok(()),
    }
}

#[cycle(arguments)]
fn gather_in<'a, 'c>(
    expr: &'a Expr,
    core: Option<&'c Core>,
    found: &mut Vec<Argument<'a, 'c>>,
) -> Result<(), AllocError> {
    match core {
        Some(core) => gather(expr, core, found),
        None => Ok(()),
    }
}

/// The same for the only one of these expressions.
#[cycle(arguments)]
fn gather_in_one<'a, 'c>(
    exprs: &'a [Expr],
    core: Option<&'c Core>,
    found: &mut Vec<Argument<'a, 'c>>,
) -> Result<(), AllocError> {
    if exprs.len() != 1 {
        return Ok(());
    }
    for expr in exprs {
        gather_in(expr, core, found)?;
    }
    Ok(())
}

fn add_name<'a, 'c>(
    name: &'a Written,
    core: &'c Core,
    found: &mut Vec<Argument<'a, 'c>>,
) -> Result<(), AllocError> {
    if token_place(core.place()) != name.place {
        found.push(Argument { name, core })?;
    }
    Ok(())
}

/// Operand `number` of a node, from 0.
fn operand(core: &Core, number: usize) -> Option<&Core> {
    let (first, second) = match core {
        Core::Unary(_, _, part) | Core::Field(_, _, part) => (part.as_ref(), None),
        Core::Binary(_, _, left, right)
        | Core::Apply(_, left, right)
        | Core::Equal(_, left, right)
        | Core::Member(_, left, right)
        | Core::NotMember(_, left, right)
        | Core::Subset(_, left, right)
        | Core::Cup(_, left, right)
        | Core::Cap(_, left, right)
        | Core::Minus(_, left, right) => (left.as_ref(), Some(right.as_ref())),
        _ => return None,
    };
    match number {
        0 => Some(first),
        _ => second,
    }
}
