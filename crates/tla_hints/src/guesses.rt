//! The name that was probably meant.

use crate::names::{is_swapped, nearest};
use std::alloc::{AllocError, Global};

/// The longest name for which a nearest one is searched.
const LONGEST_NAME: usize = 40;

/// The name of a list that differs from this one in few characters; none for a name of one letter.
pub fn meant<'a>(
    alloc: Global,
    name: &str,
    known: &[&'a str],
) -> Result<Option<&'a str>, AllocError> {
    meant_within(alloc, name, known, 0)
}

/// The name of a list that differs from this one in few characters, or in at most `most`.
pub fn meant_within<'a>(
    alloc: Global,
    name: &str,
    known: &[&'a str],
    most: usize,
) -> Result<Option<&'a str>, AllocError> {
    if name.len() > LONGEST_NAME || name.len() < 2 {
        return Ok(None);
    }
    if let Some(other) = turned(name, known) {
        return Ok(Some(other));
    }
    let Some(near) = nearest(alloc, name, known)? else {
        return Ok(None);
    };
    let most = (name.len() / 3).max(1).max(most);
    if near.distance <= most && near.distance > 0 {
        Ok(known.get(near.index).copied())
    } else {
        Ok(None)
    }
}

/// The name of a list that differs from this one only in the case of letters, or by a swap of two neighbours.
fn turned<'a>(name: &str, known: &[&'a str]) -> Option<&'a str> {
    for other in known {
        let is_other = *other != name;
        let is_near = other.eq_ignore_ascii_case(name)
            || is_swapped(name.as_bytes(), other.as_bytes());
        if is_other && is_near {
            return Some(*other);
        }
    }
    None
}
