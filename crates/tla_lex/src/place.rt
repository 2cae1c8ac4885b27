//! Lines and columns of a text.

ghost use Rattle.std.specs.Prelude.{◌≡◌, ◌≤◌, ◌<◌, ◌+◌, ◌*◌, ◌^◌, length};
ghost use Rattle.tla_lex.specs.Places as spec;

use crate::token::Place;

/// The place after a byte.
fn advance(p: Place, b: u8) -> Place
    requires line { p.line + 1 < 2 ^ 64 }
    requires column { p.column + 9 < 2 ^ 128 }
    requires some { 0 < p.column }
    ensures { result ≡ spec.advance p b }
{
    if b == b'\n' {
        Place {
            line: p.line + 1,
            column: 1,
        }
    } else if b == b'\t' {
        Place {
            line: p.line,
            column: (p.column - 1) / 8 * 8 + 9,
        }
    } else if b >= 128 && b < 192 {
        p
    } else {
        Place {
            line: p.line,
            column: p.column + 1,
        }
    }
}

/// The place of a later byte.
#[tactic(auto, using(crate::proofs::Places::place_step, crate::proofs::Places::line_bound, crate::proofs::Places::column_bound, crate::proofs::Places::column_some))]
pub fn place_after(text: &[u8], p: Place, from: usize, to: usize) -> Place
    requires within { to ≤ length text.now }
    requires order { from ≤ to }
    requires here { p ≡ spec.place_at text.now from }
    ensures { result ≡ spec.place_at text.now to }
{
    let mut place = p;
    for at in from..to {
        place = advance(place, text[at]);
    }
    place
}

/// The place of a byte.
#[tactic(auto, unfolding(crate::specs::Places::place_at))]
pub fn place_of(text: &[u8], at: usize) -> Place
    requires { at ≤ length text.now }
    ensures { result ≡ spec.place_at text.now at }
{
    place_after(text, Place::FIRST, 0, at)
}
