//! The formulas of the statements of the configuration.

use crate::context::ExplainContext;
use std::alloc::{AllocError, Global};
use tla_config::{Item, Statement};
use tla_core::Place;
use tla_page::places::core_place;
use tla_page::units::{Known, known_name, known_names, text_of};
use tla_tree::Written;
use tla_verdict::Part;

/// A formula, by the statement that names it.
#[derive(Clone, Copy)]
pub struct Formula<'a> {
    /// The statement's keyword.
    pub statement: &'static str,
    pub name: &'a str,
    /// The place of the name in the statement.
    pub place: Place,
    /// The item of CONSTANT for the name, if there is one.
    pub item: Option<&'a Item>,
    /// The definition that the name means, after replacement by items, if it is one of the module. Else the formula is
    /// a value or an operator of an extended module, and its only place is that of its name in the configuration.
    pub meant: Option<Known<'a>>,
}

/// The formula of a part, if a statement of the configuration names it. The only error is that memory ran out.
pub fn formula_of<'a>(
    alloc: Global,
    context: &ExplainContext<'a>,
    part: Part,
) -> Result<Option<Formula<'a>>, AllocError> {
    let Some(name) = name_of(context.statements, part) else {
        return Ok(None);
    };
    Ok(Some(Formula {
        statement: word_of(part),
        name: text_of(name),
        place: core_place(name.place),
        item: item_of(context.statements, name),
        meant: meant_by(alloc, context, name)?,
    }))
}

/// The same, if the module has no text for it.
pub fn name_alone<'a>(
    alloc: Global,
    context: &ExplainContext<'a>,
    part: Part,
) -> Result<Option<Formula<'a>>, AllocError> {
    match formula_of(alloc, context, part)? {
        Some(formula) if formula.meant.is_none() => Ok(Some(formula)),
        _ => Ok(None),
    }
}

/// The keyword of the statement that names the formula of a part.
fn word_of(part: Part) -> &'static str {
    match part {
        Part::Assumption(_) => "ASSUME",
        Part::Initial => "INIT",
        Part::NextAction => "NEXT",
        Part::Invariant(_) => "INVARIANT",
        Part::Constraint(_) => "CONSTRAINT",
    }
}

/// The name of the formula of a part.
fn name_of<'a>(statements: &'a [Statement], part: Part) -> Option<&'a Written> {
    let mut index = match part {
        Part::Invariant(index) | Part::Constraint(index) => index,
        Part::Assumption(_) | Part::Initial | Part::NextAction => 0,
    };
    for statement in statements {
        let names = names_for(statement, part);
        if let Some(name) = names.get(index) {
            return Some(name);
        }
        index = index.saturating_sub(names.len());
    }
    None
}

/// The names of a statement, if its formulas are of the kind of a part.
fn names_for<'a>(statement: &'a Statement, part: Part) -> &'a [Written] {
    match (statement, part) {
        (Statement::Init(_, name), Part::Initial) => std::slice::from_ref(name),
        (Statement::Next(_, name), Part::NextAction) => std::slice::from_ref(name),
        (Statement::Invariants(_, names), Part::Invariant(_)) => names,
        (Statement::Constraints(_, names), Part::Constraint(_)) => names,
        _ => &[],
    }
}

/// The item of CONSTANT for a name.
fn item_of<'a>(statements: &'a [Statement], name: &Written) -> Option<&'a Item> {
    for statement in statements {
        if let Statement::Constants(_, items) = statement
            && let Some(item) = item_among(items, name)
        {
            return Some(item);
        }
    }
    None
}

fn item_among<'a>(items: &'a [Item], name: &Written) -> Option<&'a Item> {
    for item in items {
        if name_of_item(item).word.as_bytes() == name.word.as_bytes() {
            return Some(item);
        }
    }
    None
}

/// The name that an item is for.
pub fn name_of_item(item: &Item) -> &Written {
    match item {
        Item::Value(name, _) => name,
        Item::Replaces(name, _) => name,
    }
}

/// The definition of the module that a name means, after replacement by the items of the configuration, if there is
/// one.
fn meant_by<'a>(
    alloc: Global,
    context: &ExplainContext<'a>,
    name: &'a Written,
) -> Result<Option<Known<'a>>, AllocError> {
    let Some(meant) = meaning_of(context, name) else {
        return Ok(None);
    };
    let known = known_names(alloc, context.units)?;
    Ok(known_name(&known, text_of(meant)))
}

/// The name that a name means after replacement by items `c <- Op`; none if it means a value. Items have no cycle, so a
/// chain of them is shorter than the list of tokens.
fn meaning_of<'a>(context: &ExplainContext<'a>, name: &'a Written) -> Option<&'a Written> {
    let mut meant = name;
    for _ in context.tokens {
        match item_of(context.statements, meant) {
            None => return Some(meant),
            Some(Item::Value(_, _)) => return None,
            Some(Item::Replaces(_, other)) => meant = other,
        }
    }
    Some(meant)
}
