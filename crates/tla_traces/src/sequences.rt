//! The changes of a sequence.

use crate::differences::{Change, Difference, Key, Path, Spot};
use std::alloc::{AllocError, Global};
use tla_value::Value;

/// The most items at the front that are tried as the removed ones.
const MOST_TAKEN: usize = 20;

/// How one sequence becomes another: some adjacent items are removed, and others are inserted.
#[derive(Clone, Copy)]
struct Edit {
    /// The index of the first removed item, and the number of removed ones.
    taken_at: usize,
    taken: usize,
    /// The index in the new sequence of the first inserted item, and the number of inserted ones.
    put_at: usize,
    put: usize,
}

/// The parts by which a changed sequence is shown: its items at some indices, or those that were removed and inserted;
/// none if too little of it is unchanged.
pub(crate) fn sequence_parts<'a>(
    alloc: Global,
    path: &Path<'a>,
    old: &'a [Value],
    new: &'a [Value],
) -> Result<Option<Vec<Difference<'a>>>, AllocError> {
    let edit = edit_of(old, new);
    let mut parts = Vec::new(alloc);
    if old.len() == new.len() && different_places(old, new) < cost(edit) {
        push_places(&mut parts, path, old, new)?;
    } else if is_worth(edit, old, new) {
        push_taken(&mut parts, path, old, edit)?;
        push_put(&mut parts, path, new, edit)?;
    } else {
        return Ok(None);
    }
    Ok(Some(parts))
}

/// The number of removed and inserted items.
fn cost(edit: Edit) -> usize {
    edit.taken.saturating_add(edit.put)
}

/// Whether enough is unchanged for an edit to be shown.
fn is_worth(edit: Edit, old: &[Value], new: &[Value]) -> bool {
    if old.is_empty() || new.is_empty() {
        return false;
    }
    let kept = old.len().saturating_sub(edit.taken);
    edit.taken == 0 || edit.put == 0 || cost(edit) <= kept.saturating_mul(2)
}

/// The number of indices at which the items differ.
fn different_places(old: &[Value], new: &[Value]) -> usize {
    let mut count = 0usize;
    for (old, new) in old.iter().zip(new.iter()) {
        if old != new {
            count = count.saturating_add(1);
        }
    }
    count
}

/// The cheaper edit from one sequence to another: at the front and the end, or at one position.
fn edit_of(old: &[Value], new: &[Value]) -> Edit {
    let replacing = replace_edit(old, new);
    match shift_edit(old, new) {
        Some(shifting) if cost(shifting) <= cost(replacing) => shifting,
        _ => replacing,
    }
}

/// Removes items at the front and inserts others at the end, if some between them are unchanged.
fn shift_edit(old: &[Value], new: &[Value]) -> Option<Edit> {
    for taken in 1..old.len().min(MOST_TAKEN) {
        let kept = old.get(taken..).unwrap_or(&[]);
        if new.starts_with(kept) {
            return Some(Edit {
                taken_at: 0,
                taken,
                put_at: kept.len(),
                put: new.len().saturating_sub(kept.len()),
            });
        }
    }
    None
}

/// Replaces everything between the common prefix and the common suffix.
fn replace_edit(old: &[Value], new: &[Value]) -> Edit {
    let front = common_start(old, new);
    let shorter = old.len().min(new.len());
    let end = common_end(old, new).min(shorter.saturating_sub(front));
    let kept = front.saturating_add(end);
    Edit {
        taken_at: front,
        taken: old.len().saturating_sub(kept),
        put_at: front,
        put: new.len().saturating_sub(kept),
    }
}

fn common_start(old: &[Value], new: &[Value]) -> usize {
    let mut count = 0usize;
    for (old, new) in old.iter().zip(new.iter()) {
        if old != new {
            return count;
        }
        count = count.saturating_add(1);
    }
    count
}

fn common_end(old: &[Value], new: &[Value]) -> usize {
    let mut count = 0usize;
    for (old, new) in old.iter().rev().zip(new.iter().rev()) {
        if old != new {
            return count;
        }
        count = count.saturating_add(1);
    }
    count
}

fn push_places<'a>(
    parts: &mut Vec<Difference<'a>>,
    path: &Path<'a>,
    old: &'a [Value],
    new: &'a [Value],
) -> Result<(), AllocError> {
    let mut number = 1i64;
    for (old, new) in old.iter().zip(new.iter()) {
        if old != new {
            parts.push(path.became_at(Key::Number(number), Change::Other(old, new))?)?;
        }
        number = number.saturating_add(1);
    }
    Ok(())
}

fn push_taken<'a>(
    parts: &mut Vec<Difference<'a>>,
    path: &Path<'a>,
    old: &'a [Value],
    edit: Edit,
) -> Result<(), AllocError> {
    let items = old.iter().enumerate().skip(edit.taken_at);
    for (index, item) in items.take(edit.taken) {
        let spot = spot_of(edit.taken_at, edit.taken, old.len(), index);
        parts.push(path.became(Change::Taken(item, spot))?)?;
    }
    Ok(())
}

fn push_put<'a>(
    parts: &mut Vec<Difference<'a>>,
    path: &Path<'a>,
    new: &'a [Value],
    edit: Edit,
) -> Result<(), AllocError> {
    let items = new.iter().enumerate().skip(edit.put_at);
    for (index, item) in items.take(edit.put) {
        let spot = spot_of(edit.put_at, edit.put, new.len(), index);
        parts.push(path.became(Change::Put(item, spot))?)?;
    }
    Ok(())
}

/// Where an item is that is one of `count` adjacent ones from `first` on in a sequence of this length.
fn spot_of(first: usize, count: usize, length: usize, index: usize) -> Spot {
    if first.saturating_add(count) == length {
        Spot::End
    } else if first == 0 {
        Spot::Front
    } else {
        Spot::Between(index.saturating_add(1))
    }
}
