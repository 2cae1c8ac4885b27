//! The statements of a configuration.

ghost use Rattle.std.specs.Prelude.{◌≡◌, ◌≤◌, ◌<◌, ◌&&◌, length, map, slice_get, IfErr, IfOk, OnOk};
ghost use Rattle.tla_config.specs.Private.Fronts as fronts;
ghost use Rattle.tla_config.specs.Private.Gives as spec;
ghost use Rattle.tla_config.specs.View.{statement_view};

use crate::items::items;
use crate::keyword::Keyword;
use crate::names::{name, names};
use crate::refusal::Refusal;
use crate::statement::Statement;
use crate::tokens::{keyword_at, truth_at};
use std::alloc::Global;
use tla_lex::Token;
use tla_tree::push;

/// A statement, and the number of the token after it.
#[derive(Drop)]
pub struct ParsedStatement {
    pub statement: Statement,
    pub end: usize,
}

/// The statement that begins here.
fn statement(
    alloc: Global,
    text: &[u8],
    tokens: &[Token],
    at: usize,
) -> Result<ParsedStatement, Refusal>
    ensures gives { spec.GivesStatement text.now tokens.now at result }
    ensures because { IfErr result (λ e.
        spec.Because e (spec.LeftOutIn text.now tokens.now at)
        (spec.TooLargeIn text.now tokens.now at) (spec.ClearStatement text.now tokens.now at)) }
    ensures clear { OnOk result (spec.ClearStatement text.now tokens.now at) }
    ensures within { IfOk result (λ x. (at < x.end) × (x.end ≤ length tokens.now)) }
{
    let Some((keyword, place)) = keyword_at(text, tokens, at) else {
        return Err(Refusal::Unexpected(at));
    };
    match keyword {
        Keyword::Specification => {
            let name = name(alloc, text, tokens, at + 1)?;
            Ok(ParsedStatement {
                statement: Statement::Specification(place, name),
                end: at + 2,
            })
        }
        Keyword::Init => {
            let name = name(alloc, text, tokens, at + 1)?;
            Ok(ParsedStatement {
                statement: Statement::Init(place, name),
                end: at + 2,
            })
        }
        Keyword::Next => {
            let name = name(alloc, text, tokens, at + 1)?;
            Ok(ParsedStatement {
                statement: Statement::Next(place, name),
                end: at + 2,
            })
        }
        Keyword::Invariants => {
            let found = names(alloc, text, tokens, at + 1)?;
            Ok(ParsedStatement {
                statement: Statement::Invariants(place, found.names),
                end: found.end,
            })
        }
        Keyword::Constraints => {
            let found = names(alloc, text, tokens, at + 1)?;
            Ok(ParsedStatement {
                statement: Statement::Constraints(place, found.names),
                end: found.end,
            })
        }
        Keyword::Constants => {
            let found = items(alloc, text, tokens, at + 1)?;
            Ok(ParsedStatement {
                statement: Statement::Constants(place, found.items),
                end: found.end,
            })
        }
        Keyword::CheckDeadlock => match truth_at(tokens, at + 1) {
            Some(check) => Ok(ParsedStatement {
                statement: Statement::CheckDeadlock(place, check),
                end: at + 2,
            }),
            None => Err(Refusal::Unexpected(at + 1)),
        },
        Keyword::LeftOut => Err(Refusal::LeftOut(at)),
    }
}

/// Whether CHECK_DEADLOCK begins here.
fn begins_check(text: &[u8], tokens: &[Token], at: usize) -> bool
    ensures { result ≡ fronts.begins_check text.now (slice_get tokens.now at) }
{
    let Some((keyword, _)) = keyword_at(text, tokens, at) else {
        return false;
    };
    matches!(keyword, Keyword::CheckDeadlock)
}

/// Whether CHECK_DEADLOCK begins here, after statements with or without it.
fn begins_second_check(text: &[u8], tokens: &[Token], checks: bool, at: usize) -> bool
    ensures { result ≡ (checks && fronts.begins_check text.now (slice_get tokens.now at)) }
{
    checks && begins_check(text, tokens, at)
}

/// The statements of all tokens, CHECK_DEADLOCK at most once among them.
pub fn statements(alloc: Global, text: &[u8], tokens: &[Token]) -> Result<Vec<Statement>, Refusal>
    ensures found { IfOk result (λ v.
        spec.AreStatements text.now tokens.now (map statement_view v.items)) }
    ensures none { IfErr result (λ e.
        spec.Fails text.now tokens.now e (spec.NoStatements text.now tokens.now)) }
    ensures because { IfErr result (λ e.
        spec.Because e (spec.LeftOutAt text.now tokens.now) (spec.TooLargeAt text.now tokens.now)
        (spec.Clear text.now tokens.now)) }
    ensures clear { OnOk result (spec.Clear text.now tokens.now) }
{
    let mut statements = Vec::new(alloc);
    let mut checks = false;
    let mut at = 0;
    while at < tokens.len() {
        if begins_second_check(text, tokens, checks, at) {
            return Err(Refusal::Unexpected(at));
        }
        let found = statement(alloc, text, tokens, at)?;
        checks = found.statement.checks_too(checks);
        at = found.end;
        push(&mut statements, found.statement)?;
    }
    Ok(statements)
}
