//! The tokens of a module and of a configuration.

ghost use Rattle.std.specs.Prelude.{◌≡◌, ◌≢◌, ◌≤◌, ◌<◌, ◌+◌, List, length, take, drop, IsSome, IfOk, OnOk, IfErr, ◌⊎◌};
ghost use Rattle.std.specs.List.{prefix_len};
ghost use Rattle.std.specs.Str.{IsUtf8};
ghost use Rattle.tla_lex.specs.declared.scan.Stop.{Stop};
ghost use Rattle.tla_lex.specs.declared.token.Token.{Token};
ghost use Rattle.tla_lex.specs.Bytes.{is_equal_sign};
ghost use Rattle.std.specs.Option.{ForSome};
ghost use Rattle.tla_lex.specs.Module.{end_or};
ghost use Rattle.tla_lex.specs.Places.{place_at};
ghost use Rattle.tla_lex.specs.Reads.{Reads, InOrder};
ghost use Rattle.tla_lex.specs.Tokens as spec;
ghost use Rattle.tla_lex.specs.Tokens.{AreTokens, IsFirstFault, IsNotUtf8, NoTokens, no_memory};

use crate::closing::{closing, equal_signs_len};
use crate::error::{LexCode, LexError};
use crate::header::header_end;
use crate::lexeme::Source;
use crate::place::place_of;
use crate::scan::{Scan, Stop, scan_from};
use crate::token::{Kind, Place, Token};
use std::alloc::Global;

/// Fails at the first byte that is not UTF-8.
fn check_utf8(text: &[u8]) -> Result<(), LexError>
    ensures ok { OnOk result (IsUtf8 text.now) }
    ensures err { IfErr result (λ e. IsNotUtf8 text.now e) }
{
    match str::from_utf8(text) {
        Ok(_) => Ok(()),
        Err(e) => { Err(LexError::at(LexCode::NotUtf8, place_of(text, e.valid_up_to()))) }
    }
}

/// The closing line, which begins here.
#[tactic(auto, using(crate::proofs::Slices::rest_slice))]
fn closing_line(text: &[u8], at: usize, place: Place) -> Token
    requires within { at ≤ length text.now }
    requires place { place ≡ place_at text.now at }
    requires line { 0 < prefix_len is_equal_sign (drop at text.now) }
    ensures value { result ≡ spec.closing_line text.now at }
    ensures order { (result.start ≡ at) × (at < result.end) × (result.end ≤ length text.now) }
{
    Token {
        kind: Kind::Closing,
        start: at,
        end: at + equal_signs_len(&text[at..]),
        place,
    }
}

/// The text up to the closing line, or all of it where there is none.
fn body_before(text: &[u8], line: Option<usize>) -> &[u8]
    requires { ForSome line (λ to. to ≤ length text.now) }
    ensures { result.now ≡ take (end_or line (length text.now)) text.now }
{
    match line {
        Some(to) => &text[..to],
        None => text,
    }
}

/// The tokens of a module: all between its header and its closing line, and the closing line.
pub fn tokens(alloc: Global, text: &[u8]) -> Result<Vec<Token>, LexError>
    ensures found { IfOk result (λ v. AreTokens text.now v.items) }
    // No other list is.
    ensures only { IfOk result (λ v. (ts : List Token) → AreTokens text.now ts → ts ≡ v.items) }

    // A fault is the text's first, and such a text has no tokens.
    ensures fault { IfErr result (λ e. IsFirstFault text.now e ⊎ (e ≡ no_memory)) }
    ensures none { IfErr result (λ e. e.code ≢ LexCode.NoMemory → NoTokens text.now) }
    ensures placed { IfErr result (λ e. e.code ≢ LexCode.NoMemory → IsSome e.place) }
{
    check_utf8(text)?;
    let Some(from) = header_end(text) else {
        return Err(LexError::at(LexCode::NoHeader, Place::FIRST));
    };
    let line = closing(text, from);
    let Scan { mut tokens, stop } = scan_from(
        alloc,
        Source::Module,
        body_before(text, line),
        from,
    )?;
    match (stop, line) {
        (Stop::Fault(error), _) => Err(error),
        (Stop::End(place), None) => Err(LexError::at(LexCode::NoClosingLine, place)),
        (Stop::End(place), Some(to)) => {
            tokens.push(closing_line(text, to, place))?;
            Ok(tokens)
        }
    }
}

/// The tokens of a configuration, up to its end or its first fault. Its digits are of any length.
pub fn configuration_tokens(alloc: Global, text: &[u8]) -> Result<Scan, LexError>
    ensures utf8 { OnOk result (IsUtf8 text.now) }
    ensures found { IfOk result (λ s. Reads Source.Configuration text.now 0 s.tokens.items s.stop) }
    // Nothing else is read.
    ensures only { IfOk result (λ s.
        (ts : List Token) (stop : Stop)
        → Reads Source.Configuration text.now 0 ts stop
        → (ts ≡ s.tokens.items) × (stop ≡ s.stop)) }
    ensures spans { IfOk result (λ s. InOrder 0 (length text.now) s.tokens.items) }
    ensures fault { IfErr result (λ e. IsNotUtf8 text.now e ⊎ (e ≡ no_memory)) }
{
    check_utf8(text)?;
    scan_from(alloc, Source::Configuration, text, 0)
}
