//! What to write instead of an infinite set, and of a value that nests deeper with each step.

use crate::operands::Scene;
use tla_core::{Core, Kind};
use tla_page::output::Output;

/// Hints at a finite set instead of one that can't be enumerated.
pub(crate) fn hint_finite(output: &mut Output, scene: &Scene<'_, '_>) {
    let cure = match scene.node {
        Core::KindSet(_, Kind::Naturals) => {
            "write a range in place of Nat, as 0..3: each of its numbers is tried"
        }
        Core::KindSet(_, Kind::Integers) => {
            "write a range in place of Int, as -3..3: each of its numbers is tried"
        }
        Core::KindSet(_, Kind::Strings) => {
            "write the texts themselves in place of STRING, as {\"a\", \"b\"}"
        }
        Core::Sequences(_, _) => {
            "write UNION {[1..n -> S] : n \\in 0..3} in place of Seq(S), for at most 3 items"
        }
        _ => return,
    };
    output.hint(&[cure]);
}

/// Hints at the operator that adds to a sequence or a set, if one is put into another.
pub(crate) fn hint_flat(output: &mut Output, scene: &Scene<'_, '_>) {
    let cure = match scene.node {
        Core::Tuple(_, _) => {
            "<<s, e>> has s itself as an item: Append(s, e) adds e to s, and s \\o t joins two sequences"
        }
        Core::Enumerated(_, _) => { "{S, e} has S itself as an element: S \\cup {e} adds e to S" }
        _ => "each step puts the old value into the new one: keep its parts in a sequence or a set",
    };
    output.hint(&[cure]);
}
