//! The texts of the two files, the names of the files, and places in them.

use crate::output::Output;
use std::alloc::Global;
use tla_config::Source;
use tla_lex::{Place, Scan, Token, configuration_tokens, tokens};
use tla_tree::slice_of;

/// The names of the two files, as explanations write them.
#[derive(Clone, Copy, Debug)]
pub struct FileNames<'a> {
    pub module: &'a str,
    pub configuration: &'a str,
}

/// The two texts, and the names of their files.
#[derive(Clone, Copy)]
pub struct Sources<'a> {
    pub names: FileNames<'a>,
    pub module: &'a [u8],
    pub configuration: &'a [u8],
}

/// The name of a file.
pub fn source_name<'a>(sources: &Sources<'a>, source: Source) -> &'a str {
    match source {
        Source::Module => sources.names.module,
        Source::Configuration => sources.names.configuration,
    }
}

/// The text of a file.
pub fn source_text<'a>(sources: &Sources<'a>, source: Source) -> &'a [u8] {
    match source {
        Source::Module => sources.module,
        Source::Configuration => sources.configuration,
    }
}

/// The tokens of a text, or no tokens if the lexer refuses it.
pub fn tokens_of(alloc: Global, text: &[u8], source: Source) -> Vec<Token> {
    match source {
        Source::Module => match tokens(alloc, text) {
            Ok(tokens) => tokens,
            Err(_) => Vec::new(alloc),
        },
        Source::Configuration => match configuration_tokens(alloc, text) {
            Ok(Scan { tokens, stop: _ }) => tokens,
            Err(_) => Vec::new(alloc),
        },
    }
}

/// A place of an expression as a place of a token.
pub fn token_place(place: tla_core::Place) -> Place {
    Place {
        line: place.line,
        column: place.column,
    }
}

/// A place of a token as a place of an expression.
pub fn core_place(place: Place) -> tla_core::Place {
    tla_core::Place {
        line: place.line,
        column: place.column,
    }
}

/// Adds a place within a line: `Lock.tla:12:5`.
pub fn put_at(output: &mut Output, sources: &Sources<'_>, source: Source, place: Place) {
    output.put(&[source_name(sources, source), ":"]);
    output.put_number(u128::from(place.line));
    output.put_text(":");
    output.put_number(place.column);
}

/// The text of a token.
pub fn word<'a>(text: &'a [u8], token: &Token) -> &'a str {
    str::from_utf8(slice_of(text, *token)).unwrap_or("")
}
