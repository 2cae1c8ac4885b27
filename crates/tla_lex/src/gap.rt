//! Blanks and comments.

ghost use Rattle.std.specs.Prelude.{◌≡◌, ◌≤◌, ◌<◌, ◌+◌, ◌^◌, length, IfSome, slice_index};
ghost use Rattle.tla_lex.specs.Gap as spec;
ghost use Rattle.tla_lex.specs.Private.GapSize as size;

use crate::bytes::{first, is_blank};

/// In code, in a comment to the end of the line, in nested comments of this depth, or at the second byte of a mark that
/// leads there.
#[derive(Clone, Copy)]
pub enum Mode {
    Line,
    Depth(usize),
    Second(usize),
}

/// How long a gap is, or where in it a comment begins that stays open.
#[derive(Clone, Copy)]
pub enum Gap {
    End(usize),
    Open(usize),
}

/// Where a byte leads, which `next` follows. `None` where a token begins.
pub fn turn(mode: Mode, b: u8, next: u8) -> Option<Mode>
    requires { size.depth mode + 1 < 2 ^ 64 }
    ensures value { result ≡ spec.turn mode b next }
    ensures rises { IfSome result (λ m. size.depth m ≤ size.depth mode + 1) }
{
    match mode {
        Mode::Line if b == b'\n' => Some(Mode::Depth(0)),
        Mode::Line => Some(Mode::Line),
        Mode::Second(n) => Some(Mode::Depth(n)),
        Mode::Depth(0) if is_blank(b) => Some(Mode::Depth(0)),
        Mode::Depth(0) if b == b'\\' && next == b'*' => Some(Mode::Line),
        Mode::Depth(0) if b == b'(' && next == b'*' => Some(Mode::Second(1)),
        Mode::Depth(0) => None,
        Mode::Depth(n) if b == b'(' && next == b'*' => Some(Mode::Second(n + 1)),
        Mode::Depth(n) if b == b'*' && next == b')' => Some(Mode::Second(n - 1)),
        Mode::Depth(n) => Some(Mode::Depth(n)),
    }
}

fn is_outside(mode: Mode) -> bool
    ensures { result ≡ spec.is_outside mode }
{
    match mode {
        Mode::Depth(0) => true,
        _ => false,
    }
}

fn is_open(mode: Mode) -> bool
    ensures { result ≡ spec.is_open mode }
{
    match mode {
        Mode::Line => false,
        Mode::Depth(n) => 0 < n,
        Mode::Second(n) => 0 < n,
    }
}

/// The gap at the front of a text.
#[tactic(auto, unfolding(crate::specs::Gap::skip))]
pub fn leading_gap(text: &[u8]) -> Gap
    ensures value { result ≡ spec.gap text.now }
    ensures within { size.gap_len result ≤ length text.now }
{
    let mut mode = Mode::Depth(0);
    let mut opening = 0;
    let mut at = 0;
    let mut left = text;
    while let [b, rest @ ..] = left {
        let Some(to) = turn(mode, *b, first(rest)) else {
            return Gap::End(at);
        };
        if is_outside(mode) {
            opening = at;
        }
        mode = to;
        at += 1;
        left = rest;
    }
    if is_open(mode) {
        Gap::Open(opening)
    } else {
        Gap::End(at)
    }
}
