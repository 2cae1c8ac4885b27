//! Names that are near to each other.
ghost use Rattle.std.specs.Prelude.{◌≡◌, ◌≤◌, ◌<◌, ℕ, length, List, IfOk, MatchOption, slice_index_or};
ghost use Rattle.std.specs.Borrow.{Bor};
ghost use Rattle.tla_hints.specs.Names.{distance};

use std::alloc::{AllocError, Global};
use strsim::levenshtein;

/// The index of a name in a list, and its edit distance.
#[derive(Clone, Copy, Debug, PartialEq, Eq)]
pub struct Near {
    pub index: usize,
    pub distance: usize,
}

/// The first of the names of a list with the least edit distance, or None if the list is empty. The only error is that
/// memory ran out.
pub fn nearest(alloc: Global, name: &str, known: &[&str]) -> Result<Option<Near>, AllocError>
    ensures one { IfOk result (λ o.
        MatchOption o (length known.now ≡ 0) (λ near. near.index < length known.now)) }
    ensures distance { IfOk result (λ o.
        MatchOption o (length known.now ≡ 0) (λ near.
        (d : Bor (List ℕ))
        → near.distance ≡ distance name.now (slice_index_or known.now near.index d).now)) }
    ensures none_nearer { IfOk result (λ o.
        MatchOption o (length known.now ≡ 0) (λ near.
        (k : ℕ) (d : Bor (List ℕ))
        → k < length known.now
        → near.distance ≤ distance name.now (slice_index_or known.now k d).now)) }
{
    let mut best: Option<Near> = None;
    for (index, other) in known.iter().enumerate() {
        let distance = levenshtein(alloc, name, other)?;
        if best.is_none_or(|near| distance < near.distance) {
            best = Some(Near { index, distance });
        }
    }
    Ok(best)
}

/// Whether swapping two neighbours in a name makes it the other one.
pub fn is_swapped(name: &[u8], other: &[u8]) -> bool {
    if name.len() != other.len() {
        return false;
    }
    let Some(at) = name.iter().zip(other.iter()).position(|(a, b)| a != b) else {
        return false;
    };
    match (name.get(at..), other.get(at..)) {
        (Some([a, b, rest @ ..]), Some([c, d, others @ ..])) => {
            a == d && b == c && rest == others
        }
        _ => false,
    }
}
