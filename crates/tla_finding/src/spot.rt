//! A position among the tokens of a text.

use tla_hints::{closes_bracket, opens_bracket};
use tla_lex::{Kind, Place, Token};
use tla_page::places::word;

/// The tokens of a text, and an index of one.
#[derive(Clone, Copy)]
pub struct Spot<'a> {
    pub text: &'a [u8],
    pub tokens: &'a [Token],
    pub at: usize,
}

impl<'a> Spot<'a> {
    /// The spot of the token at a place, if there is one.
    pub fn of(text: &'a [u8], tokens: &'a [Token], place: Place) -> Option<Spot<'a>> {
        let at = tokens.iter().position(|token| token.place == place)?;
        Some(Spot { text, tokens, at })
    }

    /// The index of the token at a place.
    pub fn index_at(&self, place: Place) -> Option<usize> {
        self.tokens.iter().position(|token| token.place == place)
    }

    pub fn token(&self, index: usize) -> Option<Token> {
        self.tokens.get(index).copied()
    }

    /// The kind of the token at an index.
    pub fn kind(&self, index: usize) -> Option<Kind> {
        match self.tokens.get(index) {
            Some(token) => Some(token.kind),
            None => None,
        }
    }

    /// Whether the token at an index is of a kind.
    pub fn is(&self, index: usize, kind: Kind) -> bool {
        self.kind(index) == Some(kind)
    }

    /// The kind of the token `count` before this one.
    pub fn back(&self, count: usize) -> Option<Kind> {
        self.kind(self.at.checked_sub(count)?)
    }

    /// The kind of the token `count` after this one.
    pub fn ahead(&self, count: usize) -> Option<Kind> {
        self.kind(self.at.checked_add(count)?)
    }

    /// The text of the token at an index; empty if there is none.
    pub fn word(&self, index: usize) -> &'a str {
        match self.tokens.get(index) {
            Some(token) => word(self.text, token),
            None => "",
        }
    }

    pub fn place(&self, index: usize) -> Place {
        match self.tokens.get(index) {
            Some(token) => token.place,
            None => Place::FIRST,
        }
    }

    /// The token before the one at an index.
    fn before(&self, index: usize) -> Option<Token> {
        self.token(index.checked_sub(1)?)
    }

    /// Whether the token at an index touches the one before it.
    pub fn touches_before(&self, index: usize) -> bool {
        match (self.before(index), self.token(index)) {
            (Some(before), Some(token)) => before.end == token.start,
            _ => false,
        }
    }

    /// The rest of a line from the token at an index, up to the end of its last token.
    pub fn rest_of_line(&self, first: usize) -> &'a str {
        let rest = self.tokens.get(first..).unwrap_or(&[]);
        let Some(begin) = rest.first() else {
            return "";
        };
        let line = begin.place.line;
        let mut end = begin.end;
        for token in rest.iter().take_while(|token| token.place.line == line) {
            end = token.end;
        }
        let text = self.text.get(begin.start..end).unwrap_or(&[]);
        str::from_utf8(text).unwrap_or("")
    }

    /// Whether a token is the first of its line.
    pub fn begins_line(&self, index: usize) -> bool {
        match self.before(index) {
            Some(before) => before.place.line < self.place(index).line,
            None => true,
        }
    }

    /// Whether the name at an index is defined there: `x ==`, `Op(..) ==` or `f[..] ==`.
    pub fn is_head(&self, index: usize) -> bool {
        let mut deep: usize = 0;
        let rest = self.tokens.get(index.saturating_add(1)..).unwrap_or(&[]);
        for token in rest {
            if deep == 0 && token.kind == Kind::Define {
                return true;
            } else if opens_bracket(token.kind) {
                deep = deep.saturating_add(1);
            } else if closes_bracket(token.kind) {
                deep = deep.saturating_sub(1);
            } else if deep == 0 {
                return false;
            }
        }
        false
    }
}
