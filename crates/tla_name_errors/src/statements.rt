//! The names in the statements of a configuration.

use std::alloc::{AllocError, Global};
use tla_config::{Config, Item, Statement, parse_config};
use tla_lex::Place;
use tla_page::units::text_of;
use tla_tree::Written;

/// A name in a statement, with the statement's keyword and the place of the name.
#[derive(Clone, Copy)]
pub(crate) struct Named<'a> {
    pub(crate) statement: &'static str,
    pub(crate) name: &'a str,
    pub(crate) place: Place,
}

/// The statements of a configuration; none if its text is refused or memory ran out.
pub fn config_of(alloc: Global, configuration: &[u8]) -> Option<Config> {
    parse_config(alloc, configuration).ok()
}

/// The kinds of statement that name a formula, in the order in which the levels of the formulas are checked.
const KINDS: [&str; 5] = ["INIT", "NEXT", "INVARIANT", "CONSTRAINT", "SPECIFICATION"];

/// The names of formulas in the statements of a configuration, in the order of `KINDS`. The only error is that memory
/// ran out.
pub(crate) fn formulas_named(
    alloc: Global,
    statements: &[Statement],
) -> Result<Vec<Named<'_>>, AllocError> {
    let mut all = Vec::new(alloc);
    for kind in KINDS {
        for statement in statements {
            push_named(&mut all, kind, statement)?;
        }
    }
    Ok(all)
}

/// Adds the names of a statement, if it is of this kind.
fn push_named<'a>(
    all: &mut Vec<Named<'a>>,
    kind: &'static str,
    statement: &'a Statement,
) -> Result<(), AllocError> {
    match statement {
        Statement::Init(_, name) if kind == "INIT" => push(all, kind, name),
        Statement::Next(_, name) if kind == "NEXT" => push(all, kind, name),
        Statement::Specification(_, name) if kind == "SPECIFICATION" => push(all, kind, name),
        Statement::Invariants(_, names) if kind == "INVARIANT" => push_all(all, kind, names),
        Statement::Constraints(_, names) if kind == "CONSTRAINT" => push_all(all, kind, names),
        _ => Ok(()),
    }
}

fn push_all<'a>(
    all: &mut Vec<Named<'a>>,
    kind: &'static str,
    names: &'a [Written],
) -> Result<(), AllocError> {
    for name in names {
        push(all, kind, name)?;
    }
    Ok(())
}

fn push<'a>(
    all: &mut Vec<Named<'a>>,
    statement: &'static str,
    written: &'a Written,
) -> Result<(), AllocError> {
    all.push(Named {
        statement,
        name: text_of(written),
        place: written.place,
    })?;
    Ok(())
}

/// The place of the item of CONSTANT that assigns a value to a name.
pub fn value_place(statements: &[Statement], name: &str) -> Option<Place> {
    for statement in statements {
        if let Statement::Constants(_, items) = statement
            && let Some(place) = value_among(items, name)
        {
            return Some(place);
        }
    }
    None
}

fn value_among(items: &[Item], name: &str) -> Option<Place> {
    for item in items {
        if let Item::Value(written, _) = item
            && text_of(written) == name
        {
            return Some(written.place);
        }
    }
    None
}

/// The items of CONSTANT of a configuration, in the order of the text. The only error is that memory ran out.
pub(crate) fn items_of(alloc: Global, statements: &[Statement]) -> Result<Vec<&Item>, AllocError> {
    let mut all = Vec::new(alloc);
    for statement in statements {
        if let Statement::Constants(_, items) = statement {
            push_items(&mut all, items)?;
        }
    }
    Ok(all)
}

fn push_items<'a>(all: &mut Vec<&'a Item>, items: &'a [Item]) -> Result<(), AllocError> {
    for item in items {
        all.push(item)?;
    }
    Ok(())
}

/// The name of an item.
pub(crate) fn item_name(item: &Item) -> &Written {
    match item {
        Item::Value(name, _) => name,
        Item::Replaces(name, _) => name,
    }
}

/// The name that replaces a name by an item `c <- Op` of a configuration, or the name itself.
pub fn replacement_of<'a>(statements: &'a [Statement], name: &'a str) -> &'a str {
    for statement in statements {
        if let Statement::Constants(_, items) = statement
            && let Some(other) = replacement_in(items, name)
        {
            return other;
        }
    }
    name
}

fn replacement_in<'a>(items: &'a [Item], name: &str) -> Option<&'a str> {
    for item in items {
        if let Item::Replaces(written, other) = item
            && text_of(written) == name
        {
            return Some(text_of(other));
        }
    }
    None
}
