//! Formulas without a text in the module: the configuration assigns a value to the name, or replaces it by an operator
//! of an extended module.

use tla_config::{Item, Source};
use tla_core::{Fault, FaultCode};
use tla_page::output::Output;
use tla_page::places::put_at;
use tla_page::units::text_of;
use tla_traces::context::ExplainContext;
use tla_traces::formulas::{Formula, name_alone, name_of_item};
use tla_verdict::Part;

/// Explains a fault of such a formula. Returns whether it is one.
pub(crate) fn explain_fault(
    output: &mut Output,
    context: &ExplainContext<'_>,
    fault: &Fault,
    part: Part,
) -> bool {
    let Some(formula) = formula_alone(output, context, part) else {
        return false;
    };
    begin(output, context, &formula);
    output.put_text(formula.statement);
    output.put(&[" names ", formula.name]);
    output.put(&[fault_text(fault.code), " (", fault.code.name(), ")"]);
    end(output, context, &formula);
    hint(output, context, &formula);
    true
}

/// The formula of a part, if the module has no text for it.
pub(crate) fn formula_alone<'a>(
    output: &mut Output,
    context: &ExplainContext<'a>,
    part: Part,
) -> Option<Formula<'a>> {
    match name_alone(output.alloc(), context, part) {
        Ok(formula) => formula,
        Err(_) => {
            output.refuse();
            None
        }
    }
}

fn fault_text(code: FaultCode) -> &'static str {
    match code {
        FaultCode::Unassigned => ", which sets no variable",
        _ => ", which is no truth value",
    }
}

/// Begins the explanation of a formula at its name in the configuration.
pub(crate) fn begin(output: &mut Output, context: &ExplainContext<'_>, formula: &Formula<'_>) {
    output.put_place(context.sources, Source::Configuration, formula.place);
}

/// Ends the explanation, and shows the name.
pub(crate) fn end(output: &mut Output, context: &ExplainContext<'_>, formula: &Formula<'_>) {
    output.put_text("\n");
    output.show(context.sources, Source::Configuration, formula.place);
}

/// Hints at the item of CONSTANT that replaces the definition of a formula.
pub(crate) fn hint(output: &mut Output, context: &ExplainContext<'_>, formula: &Formula<'_>) {
    let Some(item) = formula.item else {
        return;
    };
    put_item(output, context, formula, item);
    output.put_text(", in place of its definition: leave that item out\n");
}

/// Adds what an item does, and where it is.
fn put_item(output: &mut Output, context: &ExplainContext<'_>, formula: &Formula<'_>, item: &Item) {
    match item {
        Item::Value(_, _) => output.put(&["hint: CONSTANT gives ", formula.name, " a value at "]),
        Item::Replaces(_, other) => {
            output.put(&["hint: CONSTANT lets ", formula.name, " mean "]);
            output.put(&[text_of(other), " at "]);
        }
    }
    let place = name_of_item(item).place;
    put_at(output, context.sources, Source::Configuration, place);
}

/// Hints at the item `c <- Op` that replaces the name of a formula by another definition.
pub(crate) fn hint_meaning(
    output: &mut Output,
    context: &ExplainContext<'_>,
    formula: &Formula<'_>,
) {
    if let Some(item) = formula.item {
        put_item(output, context, formula, item);
        output.put_text("\n");
    }
}
