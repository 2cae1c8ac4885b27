//! Columns of a line.
ghost use Rattle.std.specs.Prelude.{◌≡◌, ◌≤◌, ◌<◌, ◌+◌, ◌⊎◌, ◌^◌, ◌||◌, ◌==◌, ℕ, IsTrue, length, take, IfOk};
ghost use Rattle.std.specs.List.{All};
ghost use Rattle.tla_hints.specs.Columns.{column_after, column_behind};

use std::alloc::{AllocError, Global};

/// The column after a byte.
fn column_after(column: u128, byte: u8) -> u128
    requires some { 0 < column }
    requires room { column + 9 < 2 ^ 128 }
    ensures { result ≡ column_after column byte }
{
    if byte == b'\t' {
        (column - 1) / 8 * 8 + 9
    } else if byte >= 128 && byte < 192 {
        column
    } else {
        column + 1
    }
}

#[tactic(auto, using(crate::proofs::Behind::column_behind_more, crate::proofs::Behind::behind_some, crate::proofs::Behind::behind_bound))]
/// The part of a line before a column: its shortest prefix that reaches that column or a later one, or all of it. The
/// line has no line feed.
pub fn front(line: &[u8], column: u128) -> &[u8]
    ensures beginning { result.now ≡ take (length result.now) line.now }
    ensures within { length result.now ≤ length line.now }
    ensures reaches { (result.now ≡ line.now) ⊎ (column ≤ column_behind result.now) }
    ensures shortest { (k : ℕ) → k < length result.now → column_behind (take k line.now) < column }
{
    let mut at: u128 = 1;
    for (index, byte) in line.iter().enumerate() {
        if at >= column {
            return &line[..index];
        }
        at = column_after(at, *byte);
    }
    line
}

#[tactic(auto, using(crate::proofs::Behind::column_behind_more, crate::proofs::Behind::column_behind_push))]
/// Blanks and tabs as wide as these first bytes of a line. The only error is that memory ran out.
pub fn blanks(alloc: Global, front: &[u8]) -> Result<Vec<u8>, AllocError>
    ensures column_behind { IfOk result (λ v. column_behind v.items ≡ column_behind front.now) }
    ensures blank { IfOk result (λ v. All (λ b. IsTrue (b == 32 || b == 9)) v.items) }
{
    let mut blanks = Vec::new(alloc);
    for byte in front {
        if *byte == b'\t' {
            blanks.push(b'\t')?;
        } else if *byte < 128 || *byte >= 192 {
            blanks.push(b' ')?;
        }
    }
    Ok(blanks)
}
