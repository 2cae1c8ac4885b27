//! What to write if a next value is read that isn't set.

use crate::extents::{first_token, last_token, text_between};
use crate::operands::Scene;
use crate::why::{put_expression, variable_name};
use std::alloc::{AllocError, Global};
use tla_core::{Binary, Core, Unary};
use tla_lex::Kind;
use tla_page::output::Output;
use tla_traces::context::ExplainContext;
use tla_traces::expressions::expression_of;
use tla_traces::signs::sign_of;
use tla_tree::Expr;

/// Hints at what to write if a next value is read that isn't set.
pub(crate) fn hint_next<'a>(
    output: &mut Output,
    context: &ExplainContext<'a>,
    scene: &Scene<'a, '_>,
) {
    let Core::Next(_, variable) = scene.node else {
        return;
    };
    let name = variable_name(context, *variable);
    let nodes = scene.culprit.nodes.as_slice();
    if let Some(equality) = part_equality(nodes) {
        hint_part(output, context, nodes, equality, name);
    } else if nodes
        .iter()
        .any(|node| matches!(node, Core::Implies(_, _, _)))
    {
        output.hint(&[
            "=> gives no steps and sets no variable: ",
            "write IF .. THEN .. ELSE, or /\\ after the condition",
        ]);
    } else if scene.is_initial {
        output.hint(&["put ", name, " = .. or ", name, " \\in .. before it"]);
    } else {
        hint_primed(output, context, scene, *variable, name);
    }
}

/// Hints at what to write in an action, by the form in which the next value occurs.
fn hint_primed<'a>(
    output: &mut Output,
    context: &ExplainContext<'a>,
    scene: &Scene<'a, '_>,
    variable: usize,
    name: &str,
) {
    let nodes = scene.culprit.nodes.as_slice();
    if is_own_value(nodes, variable) {
        output.hint(&[
            "did you mean ",
            name,
            " without the prime, right of ",
            name,
            "' = ?",
        ]);
    } else if nodes
        .iter()
        .any(|node| matches!(node, Core::Unary(_, Unary::Not, _)))
    {
        output.hint(&["~ sets no variable: put ", name, "' \\in .. before it"]);
    } else if !hint_side(output, context, nodes, name) {
        output.hint(&["put ", name, "' = .. or ", name, "' \\in .. before it"]);
    }
}

/// Whether the next value occurs in the expression that sets it.
fn is_own_value(nodes: &[&Core], variable: usize) -> bool {
    for below in 1..nodes.len() {
        if gives_value_at(nodes, below, variable) == Some(true) {
            return true;
        }
    }
    false
}

/// Whether a node on the path is assigned to the next value of a variable.
fn gives_value_at<'c>(nodes: &[&'c Core], below: usize, variable: usize) -> Option<bool> {
    let above = below.checked_sub(1)?;
    let whole: &'c Core = *nodes.get(above)?;
    let part: &'c Core = *nodes.get(below)?;
    Some(gives_value(whole, part, variable))
}

/// Whether a node is an equality that assigns a part of it to the next value of a variable.
fn gives_value(whole: &Core, part: &Core, variable: usize) -> bool {
    match whole {
        Core::Equal(_, left, right) => {
            matches!(left.as_ref(), Core::Next(_, other) if *other == variable)
                && same_node(right, part)
        }
        _ => false,
    }
}

/// Hints at how to write an equality, an inclusion or an equivalence with the next value as a side; false if there is
/// none.
fn hint_side(
    output: &mut Output,
    context: &ExplainContext<'_>,
    nodes: &[&Core],
    name: &str,
) -> bool {
    let [.., whole, side] = nodes else {
        return false;
    };
    let whole: &Core = *whole;
    let (start, other, end) = match whole {
        Core::Equal(_, left, right) if same_node(right, side) => (" = ", left, ""),
        Core::Subset(_, left, set) if same_node(left, side) => (" \\in SUBSET (", set, ")"),
        Core::Binary(_, Binary::Iff, left, right) if same_node(left, side) => {
            (" = (", right, ")")
        }
        _ => return false,
    };
    let Some(expr) = expression_of(context.units, other) else {
        return false;
    };
    output.put(&["hint: write ", name, "'", start]);
    put_expression(output, context, expr);
    output.put(&[end, "\n"]);
    true
}

/// The equality whose left side is a part of the next value at the end of these nodes, as in `x'[1] = 3`.
fn part_equality<'c>(nodes: &[&'c Core]) -> Option<&'c Core> {
    let mut below = nodes.len().checked_sub(1)?;
    for _ in 0..nodes.len() {
        let above = below.checked_sub(1)?;
        let node: &'c Core = *nodes.get(above)?;
        let part: &'c Core = *nodes.get(below)?;
        match node {
            Core::Apply(_, first, _) | Core::Field(_, _, first) if same_node(first, part) => {
                below = above;
            }
            Core::Equal(_, left, _) if same_node(left, part) && !is_next(part) => {
                return Some(node);
            }
            _ => return None,
        }
    }
    None
}

/// Whether two nodes on a path are the same.
fn same_node(first: &Core, part: &Core) -> bool {
    first.place() == part.place() && sign_of(first) == sign_of(part)
}

fn is_next(core: &Core) -> bool {
    matches!(core, Core::Next(_, _))
}

/// Hints at how to set a part of a function.
fn hint_part(
    output: &mut Output,
    context: &ExplainContext<'_>,
    nodes: &[&Core],
    equality: &Core,
    name: &str,
) {
    let Some(Expr::Binary(_, _, _, left, right)) = expression_of(context.units, equality) else {
        return;
    };
    match path_of(output.alloc(), context, left) {
        Ok(Some(_)) if is_for_all(nodes) => {
            output.hint(&["set all of it at once: ", name, "' = [i \\in S |-> e]"]);
        }
        Ok(Some(path)) => {
            output.put(&["hint: write ", name, "' = [", name, " EXCEPT !"]);
            output.put_bytes(&path);
            output.put_text(" = ");
            put_expression(output, context, right);
            output.put_text("]\n");
        }
        Ok(None) => output.hint(&[
            "give ",
            name,
            " its whole value, as ",
            name,
            " = [i \\in S |-> e]",
        ]),
        Err(_) => output.refuse(),
    }
}

fn is_for_all(nodes: &[&Core]) -> bool {
    nodes
        .iter()
        .any(|node| matches!(node, Core::ForAll(_, _, _)))
}

/// The path of a part, as EXCEPT writes it: `[1].a` for `x'[1].a` and for `x[1].a'`; none if there is no prime.
fn path_of(
    alloc: Global,
    context: &ExplainContext<'_>,
    left: &Expr,
) -> Result<Option<Vec<u8>>, AllocError> {
    let tokens = context.tokens;
    let (Some(first), Some(last)) = (first_token(tokens, left), last_token(tokens, left)) else {
        return Ok(None);
    };
    let second = first.saturating_add(1);
    let module = context.sources.module;
    if tokens
        .get(second)
        .is_some_and(|token| token.kind == Kind::Prime)
    {
        let path = text_between(alloc, module, tokens, second.saturating_add(1), last)?;
        return Ok(Some(path));
    }
    if tokens
        .get(last)
        .is_some_and(|token| token.kind == Kind::Prime)
    {
        let path = text_between(alloc, module, tokens, second, last.saturating_sub(1))?;
        return Ok(Some(path));
    }
    Ok(None)
}
