//! What to write instead of an expression that faults.

use crate::kinds::{Wanted, wanted_of};
use crate::operands::Scene;
use crate::why::{operand_expr, put_expression};
use std::alloc::{AllocError, Global};
use tla_core::{Binary, Core, Unary};
use tla_hints::meant;
use tla_page::output::Output;
use tla_page::units::{Role, known_name, known_names, text_of};
use tla_steps::Operand;
use tla_traces::context::ExplainContext;
use tla_traces::expressions::expression_at;
use tla_tree::{Expr, Field, Unit};
use tla_value::{Arguments, FunValue, Value};

/// Fields that other languages have for the length of a sequence.
const LENGTHS: [&str; 4] = ["length", "Length", "len", "size"];

/// Hints at what was probably meant if an operand is of the wrong kind.
pub(crate) fn hint_kind<'a>(
    output: &mut Output,
    context: &ExplainContext<'a>,
    scene: &Scene<'a, '_>,
) {
    let Some((operand, wanted)) = wrong_operand(scene) else {
        return;
    };
    if let Value::Model(name) = &operand.value
        && !matches!(operand.core, Core::Bound(_, _))
    {
        return hint_model_value(output, context, name.as_str(), wanted);
    }
    let meant = operator_meant(scene.node, scene.culprit.operands.as_slice());
    if !meant.is_empty() {
        return output.hint(&["did you mean ", meant, " ?"]);
    }
    let is_hinted = match scene.node {
        Core::Member(_, _, set) | Core::NotMember(_, _, set) => {
            hint_member(output, context, set, operand)
        }
        Core::Cup(_, _, _) | Core::Cap(_, _, _) | Core::Minus(_, _, _) => {
            hint_brackets(output, context, scene, operand, ("{", "}"));
            true
        }
        Core::Binary(_, Binary::Concat, _, _) => {
            hint_brackets(output, context, scene, operand, ("<<", ">>"));
            true
        }
        _ => false,
    };
    if !is_hinted && wanted == Wanted::Set {
        hint_items(output, context, scene, operand);
    }
}

/// The first operand that isn't of the required kind.
pub(crate) fn wrong_operand<'c>(scene: &Scene<'_, 'c>) -> Option<(&'c Operand<'c>, Wanted)> {
    for operand in scene.culprit.operands.iter() {
        if let Some(wanted) = wanted_of(scene.node, operand.number)
            && !wanted.admits(&operand.value)
        {
            return Some((operand, wanted));
        }
    }
    None
}

/// Hints at the configuration, if a model value is used as a number or a set.
fn hint_model_value(output: &mut Output, context: &ExplainContext<'_>, name: &str, wanted: Wanted) {
    let sources = context.sources;
    let configuration = sources.names.configuration;
    match is_definition(output.alloc(), context.units, name) {
        Ok(true) => {
            output.put(&[
                "hint: = makes ",
                name,
                " a model value: write <- ",
                name,
                " in ",
            ]);
            output.put(&[configuration, " for the definition\n"]);
        }
        Ok(false) => {
            output.put(&[
                "hint: ",
                name,
                " is a model value, equal to itself alone: write ",
            ]);
            output.put(&[wanted.text(), " in its place in "]);
            output.put(&[configuration, "\n"]);
        }
        Err(_) => output.refuse(),
    }
}

/// Whether a module defines a name.
fn is_definition(alloc: Global, units: &[Unit], name: &str) -> Result<bool, AllocError> {
    let known = known_names(alloc, units)?;
    Ok(match known_name(&known, name) {
        Some(known) => known.role == Role::Operator,
        None => false,
    })
}

/// Hints at the items of a function that is used as a set.
fn hint_items<'a>(
    output: &mut Output,
    context: &ExplainContext<'a>,
    scene: &Scene<'a, '_>,
    operand: &Operand<'_>,
) {
    if !matches!(operand.value, Value::Fun(_)) {
        return;
    }
    if let Some(Expr::Name(name)) = operand_expr(context, scene.expr, operand) {
        let name = text_of(name);
        output.hint(&[
            "the values of ",
            name,
            " are {",
            name,
            "[i] : i \\in DOMAIN ",
            name,
            "}, its arguments DOMAIN ",
            name,
        ]);
    }
}

/// The operator that takes values of the kinds of these operands; empty if there is none.
fn operator_meant(node: &Core, operands: &[Operand<'_>]) -> &'static str {
    let sets = operands
        .iter()
        .any(|operand| matches!(operand.value, Value::Set(_)));
    let functions = operands
        .iter()
        .any(|operand| matches!(operand.value, Value::Fun(_)));
    match node {
        Core::Binary(_, Binary::Subtract, _, _) if sets => "\\",
        Core::Binary(_, Binary::Add, _, _) if sets => "\\cup",
        Core::Binary(_, Binary::Add, _, _) if functions => "\\o or Append",
        Core::Cup(_, _, _) if functions => function_meant(operands),
        Core::Binary(_, Binary::Multiply, _, _) if sets => "\\X",
        Core::Binary(_, Binary::LessThan | Binary::AtMost, _, _) if sets => "\\subseteq",
        Core::Binary(_, Binary::Concat, _, _) if sets => "\\cup",
        Core::Binary(_, Binary::Append, _, _) if sets => "\\cup",
        Core::Implies(_, _, _) if are_numbers(operands) => ">=",
        Core::Records(_, _) => "|-> in place of :",
        Core::Unary(_, Unary::Len, _) if sets => "Cardinality",
        Core::Unary(_, Unary::Cardinality, _) if functions => "Len",
        _ => "",
    }
}

fn are_numbers(operands: &[Operand<'_>]) -> bool {
    operands
        .iter()
        .all(|operand| matches!(operand.value, Value::Int(_)))
}

/// The operator that joins functions, if the left operand of `\cup` is one; empty if it is a set.
fn function_meant(operands: &[Operand<'_>]) -> &'static str {
    let Some(left) = operands.first() else {
        return "";
    };
    match &left.value {
        Value::Fun(function) if function.as_sequence().is_some() => "\\o or Append",
        Value::Fun(_) => "@@",
        _ => "",
    }
}

/// Hints at what was meant if a record or a function is used as a set of functions or of records; false if it is
/// something else.
fn hint_member(
    output: &mut Output,
    context: &ExplainContext<'_>,
    set: &Core,
    operand: &Operand<'_>,
) -> bool {
    match expression_at(context.units, set.place(), "[ |-> ]") {
        Some(Expr::Record(_, fields)) => {
            hint_record(output, context.units, fields);
            return true;
        }
        Some(_) | None => {}
    }
    if expression_at(context.units, set.place(), "[ \\in |-> ]").is_none() {
        return false;
    }
    match &operand.value {
        Value::Fun(function) if has_sets(function) => output.hint(&[
            "did you mean -> ? [S -> T] is the set of functions from S to T",
        ]),
        _ => output.hint(&["did you mean = in place of \\in ?"]),
    }
    true
}

/// Hints at `->` if the only field has the name of a set, else at `:`.
fn hint_record(output: &mut Output, units: &[Unit], fields: &[Field]) {
    match is_known(output.alloc(), units, fields) {
        Ok(true) => output.hint(&[
            "did you mean -> in place of |-> ? [S -> T] is the set of functions from S to T",
        ]),
        Ok(false) => output.hint(&[
            "did you mean : in place of |-> ? [a : S, b : T] is a set of records",
        ]),
        Err(_) => output.refuse(),
    }
}

/// Whether there is only one field, and its name is one of the module.
fn is_known(alloc: Global, units: &[Unit], fields: &[Field]) -> Result<bool, AllocError> {
    let known = known_names(alloc, units)?;
    Ok(match fields {
        [field] => known_name(&known, text_of(&field.name)).is_some(),
        _ => false,
    })
}

/// Whether the first value of a function is a set.
fn has_sets(function: &FunValue) -> bool {
    matches!(function.values().first(), Some(Value::Set(_)))
}

/// Hints at brackets around an element.
fn hint_brackets<'a>(
    output: &mut Output,
    context: &ExplainContext<'a>,
    scene: &Scene<'a, '_>,
    operand: &Operand<'_>,
    brackets: (&str, &str),
) {
    if let Some(expr) = operand_expr(context, scene.expr, operand) {
        output.put(&["hint: did you mean ", brackets.0]);
        put_expression(output, context, expr);
        output.put(&[brackets.1, " ?\n"]);
    }
}

/// Hints at the field that was probably meant.
pub(crate) fn hint_field(output: &mut Output, scene: &Scene<'_, '_>) {
    let Core::Field(_, name, _) = scene.node else {
        return;
    };
    for operand in scene.culprit.operands.iter() {
        if let Value::Fun(function) = &operand.value
            && let Arguments::Listed(keys) = function.arguments()
        {
            hint_near(output, name.as_str(), keys);
        }
        if is_sequence(&operand.value) && LENGTHS.contains(&name.as_str()) {
            output.hint(&["write Len(s) for the length of a sequence"]);
        }
    }
}

fn is_sequence(value: &Value) -> bool {
    match value {
        Value::Fun(function) => function.as_sequence().is_some(),
        _ => false,
    }
}

fn hint_near(output: &mut Output, name: &str, keys: &[Value]) {
    match near_key(output.alloc(), name, keys) {
        Ok(Some(near)) => output.hint(&["did you mean ", near, "?"]),
        Ok(None) => {}
        Err(_) => output.refuse(),
    }
}

/// The string of a list that is nearest to a name.
pub(crate) fn near_key<'v>(
    alloc: Global,
    name: &str,
    keys: &'v [Value],
) -> Result<Option<&'v str>, AllocError> {
    let mut names = Vec::new(alloc);
    for key in keys {
        if let Value::Text(text) = key {
            names.push(text.as_str())?;
        }
    }
    meant(alloc, name, &names)
}
