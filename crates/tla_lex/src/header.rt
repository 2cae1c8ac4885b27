//! The header of a module.

ghost use Rattle.std.specs.Prelude.{◌≡◌, ◌≤◌, ◌<◌, ◌+◌, length, IfSome, IsTrue};
ghost use Rattle.std.specs.List.{prefix_len};
ghost use Rattle.tla_lex.specs.Bytes as bytes;
ghost use Rattle.tla_lex.specs.Module as spec;

use crate::bytes::{first, is_dash, is_space_or_tab, is_word};

fn spaces_len(text: &[u8]) -> usize
    ensures value { result ≡ prefix_len bytes.is_space_or_tab text.now }
    ensures within { result ≤ length text.now }
{
    text.iter().take_while(|b| is_space_or_tab(**b)).count()
}

/// The word MODULE is at the front.
#[tactic(auto, using(crate::proofs::Slices::rest_slice))]
fn begins_module(text: &[u8]) -> bool
    ensures value { result ≡ spec.begins_module text.now }
    ensures within { IsTrue result → 6 ≤ length text.now }
{
    text.starts_with(b"MODULE") && !is_word(first(&text[6..]))
}

/// How long spaces or tabs and the word MODULE at the front are.
#[tactic(auto, using(crate::proofs::Slices::rest_slice))]
fn module_len(text: &[u8]) -> Option<usize>
    ensures value { result ≡ spec.module_len text.now }
    ensures within { IfSome result (λ n. n ≤ length text.now) }
{
    let n = spaces_len(text);
    if n > 0 && begins_module(&text[n..]) {
        Some(n + 6)
    } else {
        None
    }
}

/// Where the first header of a text ends, after its MODULE.
#[tactic(auto, unfolding(crate::specs::Module::header_from))]
pub fn header_end(text: &[u8]) -> Option<usize>
    ensures value { result ≡ spec.header_end text.now }
    ensures within { IfSome result (λ n. n ≤ length text.now) }
{
    let mut dashes: usize = 0;
    let mut at = 0;
    let mut left = text;
    while let [b, rest @ ..] = left {
        if is_dash(*b) {
            dashes += 1;
        } else {
            if dashes >= 4
                && let Some(n) = module_len(left)
            {
                return Some(at + n);
            }
            dashes = 0;
        }
        at += 1;
        left = rest;
    }
    None
}
