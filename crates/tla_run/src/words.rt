//! The words of a run.
ghost use Rattle.std.specs.Prelude.{◌≡◌, IfOk, map, string_bytes};
ghost use Rattle.clap.specs.Walk.{texts};

use std::alloc::{AllocError, Global};

/// The words as texts.
pub fn as_texts<'a>(alloc: Global, words: &'a [String]) -> Result<Vec<&'a str>, AllocError>
    ensures { IfOk result (λ v. texts v.items ≡ map string_bytes words.entry.now) }
{
    let mut list = Vec::with_capacity(alloc, words.len())?;
    for word in words {
        list.push(word.as_str())?;
    }
    Ok(list)
}
