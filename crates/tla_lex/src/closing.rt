//! The closing line of a module.

ghost use Rattle.std.specs.Prelude.{◌≡◌, ◌≤◌, ◌<◌, ◌+◌, ◌^◌, length, drop, IfSome};
ghost use Rattle.std.specs.List.{prefix_len};
ghost use Rattle.tla_lex.specs.Bytes as bytes;
ghost use Rattle.tla_lex.specs.Module as spec;
ghost use Rattle.tla_lex.specs.Private.RegionSize.{region_depth};

use crate::bytes::{first, is_equal_sign};
use crate::gap::{Mode, turn};

/// In code or a comment, in a string, or after a backslash in a string.
#[derive(Clone, Copy)]
pub enum Region {
    Code(Mode),
    Text,
    Escape,
}

/// Where a byte of code leads, which `next` follows.
fn region_of_code(b: u8, next: u8) -> Region
    ensures { result ≡ spec.region_of_code b next }
{
    if b == b'"' {
        Region::Text
    } else if (b == b'/' && next == b'\\') || (b == b'\\' && next == b'/') {
        Region::Code(Mode::Second(0))
    } else {
        Region::Code(Mode::Depth(0))
    }
}

/// Where a byte leads, which `next` follows.
fn region_after(region: Region, b: u8, next: u8) -> Region
    requires { region_depth region + 1 < 2 ^ 64 }
    ensures value { result ≡ spec.region_after region b next }
    ensures rises { region_depth result ≤ region_depth region + 1 }
{
    match region {
        Region::Code(mode) => match turn(mode, b, next) {
            Some(to) => Region::Code(to),
            None => region_of_code(b, next),
        },
        Region::Text if b == b'\n' || b == b'"' => Region::Code(Mode::Depth(0)),
        Region::Text if b == b'\\' => Region::Escape,
        Region::Escape if b == b'\n' => Region::Code(Mode::Depth(0)),
        Region::Text | Region::Escape => Region::Text,
    }
}

fn is_code(region: Region) -> bool
    ensures { result ≡ spec.is_code region }
{
    match region {
        Region::Code(Mode::Depth(n)) => n == 0,
        _ => false,
    }
}

/// Where the closing line begins, from the end of the header on.
#[tactic(auto, unfolding(crate::specs::Module::closing_from), using(crate::proofs::Slices::rest_slice, crate::proofs::Slices::drop_step, crate::proofs::Slices::equal_signs))]
pub fn closing(text: &[u8], from: usize) -> Option<usize>
    requires { from ≤ length text.now }
    ensures value { result ≡ spec.closing text.now from }
    ensures order { IfSome result (λ at. from ≤ at) }
    ensures within { IfSome result (λ at. at ≤ length text.now) }
    ensures line { IfSome result (λ at. 0 < prefix_len bytes.is_equal_sign (drop at text.now)) }
{
    let mut region = Region::Code(Mode::Depth(0));
    let mut at = from;
    let mut left = &text[from..];
    while let [b, rest @ ..] = left {
        if is_code(region) && left.starts_with(b"====") {
            return Some(at);
        }
        region = region_after(region, *b, first(rest));
        at += 1;
        left = rest;
    }
    None
}

/// How many `=` a text begins with.
pub fn equal_signs_len(text: &[u8]) -> usize
    ensures value { result ≡ prefix_len bytes.is_equal_sign text.now }
    ensures within { result ≤ length text.now }
{
    text.iter().take_while(|b| is_equal_sign(**b)).count()
}
