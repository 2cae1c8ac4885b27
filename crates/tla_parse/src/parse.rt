//! The tree of a module.

ghost use Rattle.std.specs.Prelude.{◌≡◌, ◌≤◌, ◌-◌, List, Some, None, length, map, slice_get, IfOk, IfErr};
ghost use Rattle.tla_lex.specs.declared.token.Token as lexed;
ghost use Rattle.tla_tree.specs.Units.{UnitTree};
ghost use Rattle.tla_parse.specs.Units.{units_depth, SpellsModule};
ghost use Rattle.tla_tree.specs.UnitsView.{unit_view};
ghost use Rattle.tla_tree.specs.declared.tree.TheConstants.{MAX_DEPTH};
ghost use Rattle.tla_parse.specs.Private.UnitsReading.{whole};
ghost use Rattle.tla_parse.specs.Parsing.{NoneSpells, Justified, IsLocated, IsFormLeftOut, IsNoWordLeftOut};
ghost use Rattle.tla_grammar.specs.Refusals.{Fails};

use crate::error::{ParseCode, ParseError};
use crate::units::module_units;
use std::alloc::Global;
use tla_grammar::Refusal;
use tla_lex::{Place, Token};
use tla_tree::{Module, Written};

/// The place of the token, or of the last one if there are fewer.
fn place_of(tokens: &[Token], at: usize) -> Place
    ensures here { (t : lexed.Token) → slice_get tokens.now at ≡ Some t → result ≡ t.place }
    ensures last { slice_get tokens.now at ≡ None
        → (t : lexed.Token)
        → slice_get tokens.now (length tokens.now - 1) ≡ Some t
        → result ≡ t.place }
{
    match tokens.get(at) {
        Some(t) => t.place,
        None => match tokens.get(tokens.len().saturating_sub(1)) {
            Some(t) => t.place,
            None => Place::FIRST,
        },
    }
}

/// The refusal of a form that is left out, with its first token as its name.
fn left_out(alloc: Global, text: &[u8], tokens: &[Token], at: usize) -> ParseError
    requires none { NoneSpells text.now tokens.now }
    requires form { IsFormLeftOut text.now tokens.now at }
    ensures justified { Justified text.now tokens.now result.code result.place result.name }
    ensures located { IsLocated result.code result.place result.name }
    ensures no_word { IsNoWordLeftOut tokens.now result.code result.place }
{
    let Some(t) = tokens.get(at) else {
        return ParseError::at(ParseCode::Unexpected, place_of(tokens, at));
    };
    match Written::of_token(alloc, text, *t) {
        Ok(first) => ParseError {
            code: ParseCode::LeftOut,
            place: Some(t.place),
            name: Some(first.word),
        },
        Err(_) => ParseError::NO_MEMORY,
    }
}

/// A refusal as callers see it.
fn error_of(alloc: Global, text: &[u8], tokens: &[Token], refusal: Refusal) -> ParseError
    requires { Fails text.now tokens.now refusal (whole text.now tokens.now MAX_DEPTH) }
    ensures justified { Justified text.now tokens.now result.code result.place result.name }
    ensures located { IsLocated result.code result.place result.name }
    ensures no_word { IsNoWordLeftOut tokens.now result.code result.place }
{
    match refusal {
        Refusal::Unexpected(at) => ParseError::at(ParseCode::Unexpected, place_of(tokens, at)),
        Refusal::Precedence(at) => ParseError::at(ParseCode::Precedence, place_of(tokens, at)),
        Refusal::Column(at) => ParseError::at(ParseCode::Column, place_of(tokens, at)),
        Refusal::Nesting(at) => ParseError::at(ParseCode::Nesting, place_of(tokens, at)),
        Refusal::LeftOut(at) => left_out(alloc, text, tokens, at),
        Refusal::UnknownModule(at) => left_out(alloc, text, tokens, at),
        Refusal::SecondHeader(at) => left_out(alloc, text, tokens, at),
        Refusal::NoMemory => ParseError::NO_MEMORY,
    }
}

/// The tree of a module, from its tokens, which end with the closing line. Only their kinds, columns and slices of
/// the text count.
pub fn parse_module(alloc: Global, text: &[u8], tokens: &[Token]) -> Result<Module, ParseError>
    // The units spell the tokens, and their expressions are no deeper than the limit.
    ensures found { IfOk result (λ m.
        SpellsModule text.now tokens.now (map unit_view m.units.items)) }
    ensures shallow { IfOk result (λ m. units_depth (map unit_view m.units.items) ≤ MAX_DEPTH) }
    // No other units spell them.
    ensures only { IfOk result (λ m.
        (us : List UnitTree)
        → SpellsModule text.now tokens.now us
        → us ≡ map unit_view m.units.items) }
    // Tokens are refused only if they spell no units, or, for P4, none within the limit; a form that is left out is on
    // the list.
    ensures justified { IfErr result (λ e. Justified text.now tokens.now e.code e.place e.name) }
    ensures located { IfErr result (λ e. IsLocated e.code e.place e.name) }
    // A token that is unexpected or too far left is no word or symbol that is left out.
    ensures no_word { IfErr result (λ e. IsNoWordLeftOut tokens.now e.code e.place) }
{
    match module_units(alloc, text, tokens) {
        Ok(found) => Ok(Module { units: found.units }),
        Err(refusal) => Err(error_of(alloc, text, tokens, refusal)),
    }
}
