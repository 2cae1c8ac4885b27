//! Lists of items.

ghost use Rattle.std.specs.Prelude.{◌≤◌, ◌<◌, ◌+◌, length, IfOk, IfErr, OnOk};
ghost use Rattle.tla_config.specs.Beyond.{IsWrittenBeyond};
ghost use Rattle.tla_config.specs.Private.LiteralEnds.{NoneEnds};
ghost use Rattle.tla_config.specs.Private.Gives.{Because, Nowhere, Fails, LeftOutHere, TooLargeHere, ClearItem, LeftOutAfter, TooLargeAfter, ClearItems};
ghost use Rattle.tla_config.specs.Private.GivesValues as spec;

use crate::names::{name, next_name};
use crate::refusal::Refusal;
use crate::statement::Item;
use crate::tokens::is_kind;
use crate::values::{ParsedValue, value};
use crate::written::literal_end;
use std::alloc::Global;
use tla_lex::{Kind, Token};
use tla_tree::push;
use tla_value::MAX_NESTING;

/// An item, and the number of the token after it.
#[derive(Drop)]
pub struct ParsedItem {
    pub item: Item,
    pub end: usize,
}

/// Items, and the number of the token after the last.
#[derive(Drop)]
pub struct ParsedItems {
    pub items: Vec<Item>,
    pub end: usize,
}

/// The refusal of the value of an item, after its `=`: that it is too large only if all of it is written.
fn refused_value(text: &[u8], tokens: &[Token], item: usize, refusal: Refusal) -> Refusal
    requires item { item + 2 ≤ length tokens.now }
    requires fails { Fails text.now tokens.now refusal
        (spec.NoValue text.now tokens.now 64 (item + 2)) }
    requires because { Because refusal Nowhere
        (spec.BeyondIn text.now tokens.now item 64 (item + 2))
        (spec.IsUnwritten text.now tokens.now 64 (item + 2)) }
    ensures fails { Fails text.now tokens.now result
        (spec.NoValue text.now tokens.now 64 (item + 2)) }
    ensures because { Because result Nowhere (spec.TooLargeValue text.now tokens.now item)
        (NoneEnds text.now tokens.now (item + 2)) }
{
    match refusal {
        Refusal::TooLarge(at) => match literal_end(text, tokens, item + 2) {
            Ok(_) => Refusal::TooLarge(at),
            Err(breaks_off) => Refusal::Unexpected(breaks_off),
        },
        Refusal::Unexpected(at) => Refusal::Unexpected(at),
        Refusal::LeftOut(at) => Refusal::LeftOut(at),
        Refusal::NoMemory => Refusal::NoMemory,
    }
}

/// The value of an item, after its `=`.
fn item_value(
    alloc: Global,
    text: &[u8],
    tokens: &[Token],
    item: usize,
) -> Result<ParsedValue, Refusal>
    requires { item + 2 ≤ length tokens.now }
    ensures gives { spec.GivesValue text.now tokens.now 64 (item + 2) result }
    ensures because { IfErr result (λ e.
        Because e Nowhere (spec.TooLargeValue text.now tokens.now item)
        (NoneEnds text.now tokens.now (item + 2))) }
    ensures limits { OnOk result (IsWrittenBeyond text.now tokens.now (item + 2) → ⊥) }
    ensures within { IfOk result (λ x. (item + 2 < x.end) × (x.end ≤ length tokens.now)) }
{
    match value(alloc, text, tokens, item, MAX_NESTING as usize, item + 2) {
        Ok(found) => Ok(found),
        Err(refusal) => Err(refused_value(text, tokens, item, refusal)),
    }
}

/// The item that begins here.
fn item(alloc: Global, text: &[u8], tokens: &[Token], at: usize) -> Result<ParsedItem, Refusal>
    ensures gives { spec.GivesItem text.now tokens.now at result }
    ensures because { IfErr result (λ e.
        Because e (LeftOutHere text.now tokens.now at) (TooLargeHere text.now tokens.now at)
        (ClearItem text.now tokens.now at)) }
    ensures clear { OnOk result (ClearItem text.now tokens.now at) }
    ensures within { IfOk result (λ x. (at < x.end) × (x.end ≤ length tokens.now)) }
{
    let constant = name(alloc, text, tokens, at)?;
    if is_kind(Kind::Equal, tokens, at + 1) {
        let found = item_value(alloc, text, tokens, at)?;
        return Ok(ParsedItem {
            item: Item::Value(constant, found.value),
            end: found.end,
        });
    }
    if !is_kind(Kind::Substitute, tokens, at + 1) {
        return Err(Refusal::Unexpected(at + 1));
    }
    if is_kind(Kind::LeftBracket, tokens, at + 2) {
        return Err(Refusal::LeftOut(at + 2));
    }
    let operator = name(alloc, text, tokens, at + 2)?;
    Ok(ParsedItem {
        item: Item::Replaces(constant, operator),
        end: at + 3,
    })
}

/// One or more items, with or without commas between them.
pub fn items(
    alloc: Global,
    text: &[u8],
    tokens: &[Token],
    from: usize,
) -> Result<ParsedItems, Refusal>
    ensures gives { spec.GivesItems text.now tokens.now from result }
    ensures because { IfErr result (λ e.
        Because e (LeftOutAfter text.now tokens.now from) (TooLargeAfter text.now tokens.now from)
        (ClearItems text.now tokens.now from)) }
    ensures clear { OnOk result (ClearItems text.now tokens.now from) }
    ensures within { IfOk result (λ x. (from < x.end) × (x.end ≤ length tokens.now)) }
{
    let mut items = Vec::new(alloc);
    let mut at = from;
    loop {
        let found = item(alloc, text, tokens, at)?;
        push(&mut items, found.item)?;
        match next_name(text, tokens, found.end) {
            Some(next) => at = next,
            None => {
                return Ok(ParsedItems {
                    items,
                    end: found.end,
                });
            }
        }
    }
}
