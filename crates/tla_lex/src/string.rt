//! Strings.

ghost use Rattle.std.specs.Prelude.{◌≡◌, ◌≤◌, ◌<◌, ◌+◌, length, drop, false, IfSome, IfOk};
ghost use Rattle.tla_lex.specs.StringLoops as spec;
ghost use Rattle.tla_lex.specs.Strings as strings;
ghost use Rattle.tla_lex.specs.Private.LexemeSize.{Fits};

use crate::bytes::first;
use crate::error::LexCode;
use crate::lexeme::Lexeme;
use crate::token::Kind;
use std::alloc::{AllocError, Global};

/// The byte that a byte after a backslash means.
fn escape(b: u8) -> Option<u8>
    ensures { result ≡ strings.escape b }
{
    match b {
        b'"' | b'\\' => Some(b),
        b't' => Some(b'\t'),
        b'n' => Some(b'\n'),
        b'f' => Some(12),
        b'r' => Some(b'\r'),
        _ => None,
    }
}

/// Where a string ends, past its closing quote. `None` where its line ends first.
#[tactic(auto, unfolding(crate::specs::StringLoops::end_from))]
fn end_of_string(text: &[u8]) -> Option<usize>
    requires { 0 < length text.now }
    ensures value { result ≡ spec.end_from false 1 (drop 1 text.now) }
    ensures some { IfSome result (λ n. 0 < n) }
    ensures within { IfSome result (λ n. n ≤ length text.now) }
{
    let mut escaped = false;
    let mut at = 1;
    let mut left = &text[1..];
    while let [b, rest @ ..] = left {
        if *b == b'\n' {
            return None;
        }
        if *b == b'"' && !escaped {
            return Some(at + 1);
        }
        escaped = *b == b'\\' && !escaped;
        at += 1;
        left = rest;
    }
    None
}

/// The first backslash of a string that begins no escape.
#[tactic(auto, unfolding(crate::specs::StringLoops::unknown_escape))]
fn unknown_escape(string: &[u8]) -> Option<usize>
    requires { 0 < length string.now }
    ensures value { result ≡ spec.unknown_escape false 1 (drop 1 string.now) }
    ensures within { IfSome result (λ at. at < length string.now) }
{
    let mut escaped = false;
    let mut at = 1;
    let mut left = &string[1..];
    while let [b, rest @ ..] = left {
        escaped = *b == b'\\' && !escaped;
        if escaped && escape(first(rest)).is_none() {
            return Some(at);
        }
        at += 1;
        left = rest;
    }
    None
}

/// The lexeme at the front of a text that begins with a quote.
#[tactic(auto, unfolding(crate::specs::StringLoops::string))]
pub fn string(text: &[u8]) -> Lexeme
    requires { 0 < length text.now }
    ensures value { result ≡ spec.string text.now }
    ensures within { Fits (length text.now) result }
{
    let Some(n) = end_of_string(text) else {
        return Lexeme::Fault(LexCode::OpenString, 0);
    };
    match unknown_escape(&text[..n]) {
        None => Lexeme::Found(Kind::Text, n),
        Some(at) => Lexeme::Fault(LexCode::Unknown, at),
    }
}

/// The text of a string, which has its quotes, with its escapes replaced.
#[tactic(auto, unfolding(crate::specs::StringLoops::unescaped))]
pub fn string_text(alloc: Global, literal: &[u8]) -> Result<Vec<u8>, AllocError>
    requires { 0 < length literal.now }
    ensures { IfOk result (λ v. strings.IsTextOf literal.now v.items) }
{
    let mut text = Vec::new(alloc);
    let mut escaped = false;
    let mut left = &literal[1..];
    while let [b, rest @ ..] = left {
        if escaped {
            text.push(escape(*b).unwrap_or(*b))?;
            escaped = false;
        } else if *b == b'"' {
            return Ok(text);
        } else if *b == b'\\' {
            escaped = true;
        } else {
            text.push(*b)?;
        }
        left = rest;
    }
    Ok(text)
}
