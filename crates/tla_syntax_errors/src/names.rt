//! The reserved word that was probably meant, and forms that tlacheck doesn't support.

use std::alloc::{AllocError, Global};
use tla_hints::{RESERVED, meant};

/// Reserved words of forms that aren't supported.
const FORMS: [&str; 4] = ["INSTANCE", "RECURSIVE", "LAMBDA", "LEMMA"];

/// The shortest name for which a nearest reserved word is searched.
const SHORTEST_WORD: usize = 4;

/// The reserved word that was probably meant by a name, ignoring case.
pub(crate) fn near_reserved(alloc: Global, name: &str) -> Result<Option<&'static str>, AllocError> {
    for word in RESERVED.iter().chain(FORMS.iter()) {
        if *word == name {
            return Ok(None);
        }
        if word.eq_ignore_ascii_case(name) {
            return Ok(Some(*word));
        }
    }
    if name.len() < SHORTEST_WORD {
        return Ok(None);
    }
    let near = meant(alloc, name, &RESERVED)?;
    if near.is_some() {
        return Ok(near);
    }
    meant(alloc, name, &FORMS)
}

/// Whether a word begins a form that isn't supported.
pub(crate) fn is_form(word: &str) -> bool {
    FORMS.contains(&word)
}
