//! The tokens of a stretch of text.

ghost use Rattle.std.specs.Prelude.{◌≡◌, ◌≤◌, ◌<◌, length, Some, IfOk, IfErr};
ghost use Rattle.tla_lex.specs.Places.{place_at};
ghost use Rattle.tla_lex.specs.Reads as spec;
ghost use Rattle.tla_lex.specs.Private.FrontSize.{IsWithin, IsEndPlace};
ghost use Rattle.tla_lex.specs.Tokens.{no_memory};

use crate::error::{LexCode, LexError};
use crate::gap::{Gap, leading_gap};
use crate::lexeme::{Lexeme, Source, leading_lexeme};
use crate::place::{place_after, place_of};
use crate::token::{Place, Token};
use std::alloc::Global;

/// Where tokens stop: at the end of the text, or at a fault.
#[derive(Clone, Copy, Debug, PartialEq, Eq)]
pub enum Stop {
    End(Place),
    Fault(LexError),
}

/// What comes next after blanks and comments.
#[derive(Clone, Copy)]
pub enum Front {
    Begins(Token),
    Stops(Stop),
}

/// The tokens of a text up to its end or its first fault, and which of them it is.
#[derive(Debug, Drop)]
pub struct Scan {
    pub tokens: Vec<Token>,
    pub stop: Stop,
}

fn fault(code: LexCode, place: Place) -> Front
    ensures { result ≡ Front.Stops (Stop.Fault (record { code = code; place = Some place })) }
{
    Front::Stops(Stop::Fault(LexError::at(code, place)))
}

/// What begins at a byte that isn't in a gap.
#[tactic(auto, using(crate::proofs::Slices::rest_slice))]
fn begun(source: Source, text: &[u8], here: usize, place: Place) -> Front
    requires within { here < length text.now }
    requires place { place ≡ place_at text.now here }
    ensures value { result ≡ spec.begun_at source text.now here }
    ensures size { IsWithin text.now here result }
{
    match leading_lexeme(source, &text[here..]) {
        Lexeme::Found(kind, n) => Front::Begins(Token {
            kind,
            start: here,
            end: here + n,
            place,
        }),
        Lexeme::Fault(code, n) => fault(code, place_after(text, place, here, here + n)),
    }
}

/// What comes next from a byte on, after blanks and comments.
#[tactic(auto, unfolding(crate::specs::Reads::front), using(crate::proofs::Slices::rest_slice))]
fn front_at(source: Source, text: &[u8], at: usize, place: Place) -> Front
    requires within { at ≤ length text.now }
    requires place { place ≡ place_at text.now at }
    ensures value { result ≡ spec.front source text.now at }
    ensures size { IsWithin text.now at result }
{
    match leading_gap(&text[at..]) {
        Gap::Open(n) => fault(LexCode::OpenComment, place_after(text, place, at, at + n)),
        Gap::End(n) => {
            let here = at + n;
            let place = place_after(text, place, at, here);
            if here == text.len() {
                Front::Stops(Stop::End(place))
            } else {
                begun(source, text, here, place)
            }
        }
    }
}

/// The tokens of a text from a byte on.
pub(crate) fn scan_from(
    alloc: Global,
    source: Source,
    text: &[u8],
    from: usize,
) -> Result<Scan, LexError>
    requires { from ≤ length text.now }
    ensures reads { IfOk result (λ s. spec.Reads source text.now from s.tokens.items s.stop) }
    ensures spans { IfOk result (λ s. spec.InOrder from (length text.now) s.tokens.items) }
    ensures end { IfOk result (λ s. IsEndPlace text.now s.stop) }
    ensures memory { IfErr result (λ e. e ≡ no_memory) }
{
    let mut tokens = Vec::new(alloc);
    let mut at = from;
    let mut place = place_of(text, from);
    loop {
        match front_at(source, text, at, place) {
            Front::Stops(stop) => return Ok(Scan { tokens, stop }),
            Front::Begins(token) => {
                place = place_after(text, token.place, token.start, token.end);
                at = token.end;
                tokens.push(token)?;
            }
        }
    }
}
