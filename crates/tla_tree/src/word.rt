//! Words of the text.

ghost use Rattle.std.specs.Prelude.{◌≡◌, IfOk};
ghost use Rattle.tla_tree.specs.Words as words;

use std::alloc::{AllocError, Global};
use std::marker::Model;
use tla_lex::{Place, Token};

/// The bytes of a word, or of a string with its escapes read. Contracts see it as their list.
#[derive(Drop)]
pub struct Word {
    bytes: Vec<u8>,
}

impl Model for Word {
    ghost use Rattle.std.specs.Prelude.{List, ℕ};

    ghost Value = { List ℕ };

    ghost view = { λ w. w.bytes.items };
}

impl Word {
    pub fn new(bytes: Vec<u8>) -> Word
        ensures { result ≡ bytes.items }
    {
        Word { bytes }
    }

    pub fn as_bytes(&self) -> &[u8]
        ensures { result.now ≡ self.now }
    {
        self.bytes.as_slice()
    }

    /// The bytes, without a copy.
    pub fn into_bytes(self) -> Vec<u8>
        ensures { result.items ≡ self }
    {
        self.bytes
    }
}

/// A word, and its place.
#[derive(Drop)]
pub struct Written {
    pub place: Place,
    pub word: Word,
}

impl Written {
    /// The text of the token, and its place. The only error is that memory ran out.
    pub fn of_token(alloc: Global, text: &[u8], token: Token) -> Result<Written, AllocError>
        ensures ok { IfOk result (λ w. w ≡ words.written text.now token) }
    {
        let bytes = slice_of(text, token).to_vec(alloc)?;
        Ok(Written {
            place: token.place,
            word: Word::new(bytes),
        })
    }
}

/// The token's slice of the text.
#[tactic(auto, using(crate::proofs::Slices::drop_min, crate::proofs::Slices::take_min))]
pub fn slice_of(text: &[u8], token: Token) -> &[u8]
    ensures { result.now ≡ words.word_of text.now token }
{
    let rest = &text[token.start.min(text.len())..];
    let length = token.end.saturating_sub(token.start);
    &rest[..length.min(rest.len())]
}
