//! The names of a configuration: each is that of a definition without parameters.

ghost use Rattle.std.specs.Prelude.{map};
ghost use Rattle.tla_config.specs.View.{statement_view};
ghost use Rattle.tla_names.specs.Named as naming;
ghost use Rattle.tla_names.specs.Refusal as refused;

use crate::mention::Mention;
use crate::refusal::refusal_of;
use crate::scope::Scope;
use std::alloc::Global;
use tla_config::{DefsCode, DefsError, Source, Statement};
use tla_tree::Written;

/// The name of a definition without parameters.
fn named(alloc: Global, definitions: &Scope<'_>, name: &Written) -> Result<(), DefsError>
    ensures { refused.Says Source.Configuration result (naming.misnamed definitions.now name.now) }
{
    match definitions.arity(name.word.as_bytes()) {
        None => Err(refusal_of(
            alloc,
            DefsCode::UnknownName,
            Source::Configuration,
            Mention::of(name),
        )),
        Some(arity) => {
            if arity == 0 {
                Ok(())
            } else {
                Err(refusal_of(
                    alloc,
                    DefsCode::ArgumentCount,
                    Source::Configuration,
                    Mention::of(name),
                ))
            }
        }
    }
}

/// Names of definitions without parameters.
fn each_named(alloc: Global, definitions: &Scope<'_>, names: &[Written]) -> Result<(), DefsError>
    ensures { refused.Says Source.Configuration result
        (naming.each_misnamed definitions.now names.now) }
{
    let mut left = names;
    while let [first, rest @ ..] = left {
        named(alloc, definitions, first)?;
        left = rest;
    }
    Ok(())
}

/// A statement that names definitions without parameters.
#[tactic(auto, using(crate::proofs::Stacks::or_else_none))]
fn statement_named(
    alloc: Global,
    definitions: &Scope<'_>,
    statement: &Statement,
) -> Result<(), DefsError>
    ensures { refused.Says Source.Configuration result
        (naming.each_misnamed definitions.now (naming.named (statement_view statement.now))) }
{
    match statement {
        Statement::Init(_, name) | Statement::Next(_, name) | Statement::Specification(_, name) =>
            named(alloc, definitions, name),
        Statement::Invariants(_, names) | Statement::Constraints(_, names) => each_named(
            alloc,
            definitions,
            names,
        ),
        Statement::Constants(_, _) | Statement::CheckDeadlock(_, _) => Ok(()),
    }
}

/// Statements that name definitions without parameters.
pub fn statements_named(
    alloc: Global,
    definitions: &Scope<'_>,
    statements: &[Statement],
) -> Result<(), DefsError>
    ensures { refused.Says Source.Configuration result
        (naming.names_misused definitions.now (map statement_view statements.now)) }
{
    let mut left = statements;
    while let [first, rest @ ..] = left {
        statement_named(alloc, definitions, first)?;
        left = rest;
    }
    Ok(())
}
