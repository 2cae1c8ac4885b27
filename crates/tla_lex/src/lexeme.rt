//! The longest token at the front of a text.

ghost use Rattle.std.specs.Prelude.{◌≡◌, ◌≤◌, ◌<◌, length};
ghost use Rattle.std.specs.List.{prefix_len};
ghost use Rattle.tla_lex.specs.Bytes.{is_word, is_dash};
ghost use Rattle.tla_lex.specs.Lexeme as spec;
ghost use Rattle.tla_lex.specs.Private.LexemeSize.{Fits};

use crate::bytes::{first, is_dash, is_word};
use crate::error::LexCode;
use crate::string::string;
use crate::symbol::symbol;
use crate::token::Kind;
use crate::word::word;

/// What a text is, which settles what its digits are.
#[derive(Clone, Copy, Debug, PartialEq, Eq)]
pub enum Source {
    Module,
    Configuration,
}

/// A token's kind and length, or a fault's code and how far it is from the front.
#[derive(Clone, Copy)]
pub enum Lexeme {
    Found(Kind, usize),
    Fault(LexCode, usize),
}

fn word_len(text: &[u8]) -> usize
    ensures value { result ≡ prefix_len is_word text.now }
    ensures within { result ≤ length text.now }
{
    text.iter().take_while(|b| is_word(**b)).count()
}

fn dashes_len(text: &[u8]) -> usize
    ensures value { result ≡ prefix_len is_dash text.now }
    ensures within { result ≤ length text.now }
{
    text.iter().take_while(|b| is_dash(**b)).count()
}

/// The lexeme at the front of a text.
#[tactic(auto, unfolding(crate::specs::Lexeme::lexeme))]
pub(crate) fn leading_lexeme(source: Source, text: &[u8]) -> Lexeme
    requires { 0 < length text.now }
    ensures value { result ≡ spec.lexeme source text.now }
    ensures within { Fits (length text.now) result }
{
    let run = word_len(text);
    if run > 0 {
        return word(source, &text[..run]);
    }
    if first(text) == b'"' {
        return string(text);
    }
    let dashes = dashes_len(text);
    if dashes >= 4 {
        Lexeme::Found(Kind::Separator, dashes)
    } else {
        symbol(text)
    }
}
