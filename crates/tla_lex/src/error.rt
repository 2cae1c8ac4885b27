//! Refusals of a text.

ghost use Rattle.std.specs.Prelude.{◌≡◌, Some};

use crate::token::Place;
use std::alloc::AllocFailed;

/// What is wrong with a text.
#[derive(Clone, Copy, Debug, PartialEq, Eq)]
pub enum LexCode {
    /// L1: the text is not UTF-8.
    NotUtf8,
    /// L2: a character that begins no token, a run of digits and `_` that is none, or an unknown escape.
    Unknown,
    /// L3: a string that its line does not close.
    OpenString,
    /// L4: a comment that stays open.
    OpenComment,
    /// L5: a number above 9223372036854775807.
    NumberTooLarge,
    /// L6: a module without a header.
    NoHeader,
    /// L7: a module without a closing line.
    NoClosingLine,
    /// Memory ran out. A report has no code for it.
    NoMemory,
}

/// A fault of a text, and its place. There is none if memory ran out.
#[derive(Clone, Copy, Debug, PartialEq, Eq)]
pub struct LexError {
    pub code: LexCode,
    pub place: Option<Place>,
}

impl LexError {
    /// Want of memory.
    pub const NO_MEMORY: LexError = LexError {
        code: LexCode::NoMemory,
        place: None,
    };

    /// A fault at a place.
    pub fn at(code: LexCode, place: Place) -> LexError
        ensures { result ≡ record { code = code; place = Some place } }
    {
        LexError {
            code,
            place: Some(place),
        }
    }
}

impl<T: Drop> From<AllocFailed<T>> for LexError {
    ghost use Rattle.tla_lex.specs.Tokens.{no_memory};

    ghost from_gives = { λ _ e. e ≡ no_memory };

    fn from(_error: AllocFailed<T>) -> LexError {
        LexError::NO_MEMORY
    }
}
