//! Reading a configuration.

ghost use Rattle.std.specs.Prelude.{◌≡◌, ◌≢◌, ◌⊎◌, List, Some, None, length, IfOk, IfErr};
ghost use Rattle.tla_lex.specs.Places.{place_at};
ghost use Rattle.tla_lex.specs.Tokens.{IsNotUtf8, no_memory};
ghost use Rattle.tla_lex.specs.declared.token.Place as lexed_at;
ghost use Rattle.tla_config.specs.Configuration.{IsConfiguration};
ghost use Rattle.tla_config.specs.Private.Gives.{Because, Fails, NoStatements, LeftOutAt, TooLargeAt, Clear, OnlyBegins};
ghost use Rattle.tla_config.specs.Statements as spec;
ghost use Rattle.tla_config.specs.Refusals.{IsLocated, Explains, Begins, StandsAt};

use crate::config::Config;
use crate::error::{DefsCode, DefsError, Source};
use crate::refusal::Refusal;
use crate::statements::statements;
use crate::tokens::token_at;
use std::alloc::Global;
use tla_lex::{Kind, LexCode, LexError, Place, Scan, Stop, Token, configuration_tokens};
use tla_tree::slice_of;
use tla_value::Text;

/// The refusal of the text at a place.
fn refused(place: Place) -> DefsError
    ensures { result
        ≡ record {
          code = DefsCode.ConfigurationText;
          source = Source.Configuration;
          place = Some place;
          name = None;
        } }
{
    DefsError::at(DefsCode::ConfigurationText, Source::Configuration, place)
}

/// The refusal of a text that has no tokens.
fn unread(text: &[u8], error: LexError) -> DefsError
    requires { IsNotUtf8 text.now error ⊎ (error ≡ no_memory) }
    ensures code { result.code ≢ DefsCode.Memory → error ≢ no_memory }
    ensures source { result.source ≡ Source.Configuration }
    ensures located { IsLocated result.code result.place result.name }
    ensures text { result.code ≡ DefsCode.ConfigurationText ⊎ (result.code ≡ DefsCode.Memory) }
{
    if let LexCode::NoMemory = error.code {
        return DefsError::no_memory(Source::Configuration);
    }
    let Some(place) = error.place else {
        unreachable!()
    };
    refused(place)
}

/// The place of a token, or the end of the text.
fn place_of(tokens: &[Token], at: usize, end: Place) -> Place
    ensures { (p : lexed_at.Place) → StandsAt tokens.now at p → p ≡ result }
{
    match tokens.get(at) {
        Some(t) => t.place,
        None => end,
    }
}

/// The place at which tokens stop.
fn place_of_stop(stop: Stop) -> Place {
    match stop {
        Stop::End(place) => place,
        Stop::Fault(error) => error.place.unwrap_or(Place::FIRST),
    }
}

/// The refusal of a statement that is left out, at a place and with its word.
fn left_out_at(alloc: Global, place: Place, word: &str) -> DefsError
    ensures source { result.source ≡ Source.Configuration }
    ensures located { IsLocated result.code result.place result.name }
    ensures is { (result.code ≡ DefsCode.Memory)
        ⊎ ((result.code ≡ DefsCode.StatementLeftOut) × (result.place ≡ Some place)
        × (result.name ≡ Some word.now)) }
{
    match Text::new(alloc, word) {
        Ok(name) => DefsError {
            code: DefsCode::StatementLeftOut,
            source: Source::Configuration,
            place: Some(place),
            name: Some(name),
        },
        Err(_) => DefsError::no_memory(Source::Configuration),
    }
}

/// The refusal of a statement that is left out, whose word or bracket is this token.
fn left_out(alloc: Global, text: &[u8], tokens: &[Token], at: usize) -> DefsError
    requires begins { Begins text.now tokens.now }
    requires here { LeftOutAt text.now tokens.now at }
    ensures source { result.source ≡ Source.Configuration }
    ensures located { IsLocated result.code result.place result.name }
    ensures explains { Explains text.now result.code result.place result.name }
{
    let Some(t) = token_at(tokens, at) else {
        unreachable!()
    };
    if let Kind::LeftBracket = t.kind {
        return left_out_at(alloc, t.place, "[");
    }
    let Ok(word) = str::from_utf8(slice_of(text, t)) else {
        unreachable!()
    };
    left_out_at(alloc, t.place, word)
}

/// A refusal of tokens as callers see it.
fn error_of(alloc: Global, text: &[u8], tokens: &[Token], end: Place, refusal: Refusal) -> DefsError
    requires begins { Begins text.now tokens.now }
    requires fails { Fails text.now tokens.now refusal (NoStatements text.now tokens.now) }
    requires because { Because refusal (LeftOutAt text.now tokens.now)
        (TooLargeAt text.now tokens.now) (Clear text.now tokens.now) }
    requires only { OnlyBegins text.now tokens.now }
    ensures source { result.source ≡ Source.Configuration }
    ensures located { IsLocated result.code result.place result.name }
    ensures explains { Explains text.now result.code result.place result.name }
    ensures none { result.code ≢ DefsCode.Memory → NoStatements text.now tokens.now }
{
    match refusal {
        Refusal::Unexpected(at) => refused(place_of(tokens, at, end)),
        Refusal::LeftOut(at) => left_out(alloc, text, tokens, at),
        Refusal::TooLarge(at) => DefsError::at(
            DefsCode::ExpansionTooLarge,
            Source::Configuration,
            place_of(tokens, at, end),
        ),
        Refusal::NoMemory => DefsError::no_memory(Source::Configuration),
    }
}

/// The statements that a configuration's text says.
pub fn parse_config(alloc: Global, text: &[u8]) -> Result<Config, DefsError>
    ensures found { IfOk result (λ c. IsConfiguration text.now c.statements) }
    // It says no other statements.
    ensures only { IfOk result (λ c.
        (cs : List spec.Statement) → IsConfiguration text.now cs → cs ≡ c.statements) }
    ensures end { IfOk result (λ c. c.end ≡ place_at text.now (length text.now)) }

    // A text is refused only where it says none.
    ensures none { IfErr result (λ e.
        e.code ≢ DefsCode.Memory → (cs : List spec.Statement) → IsConfiguration text.now cs → ⊥) }
    ensures explains { IfErr result (λ e. Explains text.now e.code e.place e.name) }
    ensures located { IfErr result (λ e. IsLocated e.code e.place e.name) }
    ensures source { IfErr result (λ e. e.source ≡ Source.Configuration) }
{
    let Scan { tokens, stop } = match configuration_tokens(alloc, text) {
        Ok(scan) => scan,
        Err(error) => return Err(unread(text, error)),
    };
    let statements = match statements(alloc, text, &tokens) {
        Ok(statements) => statements,
        Err(refusal) => { return Err(error_of(alloc, text, &tokens, place_of_stop(stop), refusal)) }
    };
    match stop {
        Stop::End(place) => Ok(Config::new(statements, place)),
        Stop::Fault(_) => Err(refused(place_of_stop(stop))),
    }
}
