//! Tokens as the reader asks for them, by their number in the list.

ghost use Rattle.std.specs.Prelude.{◌≡◌, ◌<◌, length, slice_get, OnSome, IsTrue};
ghost use Rattle.tla_config.specs.Private.Fronts as spec;

use crate::keyword::{Keyword, keyword_of};
use tla_lex::{Kind, Place, Token, same_kind};
use tla_tree::slice_of;

/// The token with this number, if it is a name and no word of a statement.
pub fn name_at(text: &[u8], tokens: &[Token], at: usize) -> Option<Token>
    ensures value { result ≡ spec.name_of text.now (slice_get tokens.now at) }
    ensures within { OnSome result (at < length tokens.now) }
{
    let Some(t) = tokens.get(at) else {
        return None;
    };
    match t.kind {
        Kind::Name => match keyword_of(slice_of(text, *t)) {
            None => Some(*t),
            Some(_) => None,
        },
        _ => None,
    }
}

/// What the token of this number begins, and its place.
pub fn keyword_at(text: &[u8], tokens: &[Token], at: usize) -> Option<(Keyword, Place)>
    ensures value { result ≡ spec.keyword_of text.now (slice_get tokens.now at) }
    ensures within { OnSome result (at < length tokens.now) }
{
    let Some(t) = tokens.get(at) else {
        return None;
    };
    match t.kind {
        Kind::Name => match keyword_of(slice_of(text, *t)) {
            None => None,
            Some(word) => Some((word, t.place)),
        },
        Kind::Constant => Some((Keyword::Constants, t.place)),
        _ => None,
    }
}

/// Whether the token with this number is of this kind, which has to be one that separates the parts of statements.
pub fn is_kind(kind: Kind, tokens: &[Token], at: usize) -> bool
    ensures value { result ≡ spec.kind_at kind (slice_get tokens.now at) }
    ensures within { IsTrue result → at < length tokens.now }
{
    let Some(t) = tokens.get(at) else {
        return false;
    };
    same_kind(kind, t.kind)
}

/// The truth value that the token of this number writes.
pub fn truth_at(tokens: &[Token], at: usize) -> Option<bool>
    ensures value { result ≡ spec.truth_of (slice_get tokens.now at) }
    ensures within { OnSome result (at < length tokens.now) }
{
    let Some(t) = tokens.get(at) else {
        return None;
    };
    match t.kind {
        Kind::True => Some(true),
        Kind::False => Some(false),
        _ => None,
    }
}

pub fn token_at(tokens: &[Token], at: usize) -> Option<Token>
    ensures value { result ≡ slice_get tokens.now at }
    ensures within { OnSome result (at < length tokens.now) }
{
    match tokens.get(at) {
        Some(t) => Some(*t),
        None => None,
    }
}

/// The token of this number, where it is a number.
pub fn digits_at(tokens: &[Token], at: usize) -> Option<Token>
    ensures value { result ≡ spec.digits_of (slice_get tokens.now at) }
    ensures within { OnSome result (at < length tokens.now) }
{
    let Some(t) = tokens.get(at) else {
        return None;
    };
    match t.kind {
        Kind::Digits => Some(*t),
        _ => None,
    }
}
