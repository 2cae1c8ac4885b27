//! Renumbers a part as if it were outside the binders around it. The result is only proposed: `is_copy` checks it.

use crate::gave_up::GaveUp;
use std::alloc::Global;
use tla_code::Code;
use tla_core::{Core, Opening};
use tla_value::Text;

/// The bound names to remove: `by` names from `from` on.
#[derive(Clone, Copy)]
pub(crate) struct Gap {
    pub(crate) from: usize,
    pub(crate) by: usize,
}

/// The number of a name after the gap is removed; an error for a name in the gap.
fn lowered_name(index: usize, gap: Gap) -> Result<usize, GaveUp> {
    if index < gap.from {
        return Ok(index);
    }
    match index.checked_sub(gap.by) {
        Some(lower) => {
            if lower >= gap.from {
                Ok(lower)
            } else {
                Err(GaveUp)
            }
        }
        None => Err(GaveUp),
    }
}

/// Whether `is_copy` can compare an expression without bound names.
fn is_known(core: &Core) -> bool {
    match core {
        Core::Constant(_, _)
        | Core::Now(_, _)
        | Core::Next(_, _)
        | Core::KindSet(_, _)
        | Core::Booleans(_)
        | Core::Literal(_) => true,
        _ => false,
    }
}

/// A part renumbered without the gap, so that it should be a copy of the result; an error if it uses a name in the gap.
#[cycle(lower)]
pub(crate) fn lowered<'m>(alloc: Global, code: &Code<'m>, gap: Gap) -> Result<Code<'m>, GaveUp> {
    match code {
        Code::Plain(core) => {
            if is_known(core) {
                Ok(Code::Plain(core))
            } else {
                Err(GaveUp)
            }
        }
        Code::Bound(place, index) => Ok(Code::Bound(*place, lowered_name(*index, gap)?)),
        Code::Use(place, number, since) => match since.checked_sub(gap.by) {
            Some(since) => Ok(Code::Use(*place, *number, since)),
            None => Err(GaveUp),
        },
        Code::One(place, form, a) => {
            let a = lowered_box(alloc, a, gap)?;
            Ok(Code::One(*place, *form, a))
        }
        Code::Two(place, form, a, b) => {
            let a = lowered_box(alloc, a, gap)?;
            let b = lowered_box(alloc, b, gap)?;
            Ok(Code::Two(*place, *form, a, b))
        }
        Code::Three(place, form, a, b, c) => {
            let a = lowered_box(alloc, a, gap)?;
            let b = lowered_box(alloc, b, gap)?;
            let c = lowered_box(alloc, c, gap)?;
            Ok(Code::Three(*place, *form, a, b, c))
        }
        Code::Binder(place, form, set, body) => {
            let set = lowered_box(alloc, set, gap)?;
            let body = lowered_box(alloc, body, gap)?;
            Ok(Code::Binder(*place, *form, set, body))
        }
        _ => lowered_list(alloc, code, gap),
    }
}

/// Forms with a list of parts.
#[cycle(lower)]
fn lowered_list<'m>(alloc: Global, code: &Code<'m>, gap: Gap) -> Result<Code<'m>, GaveUp> {
    match code {
        Code::List(place, form, parts) => {
            let parts = each_lowered(alloc, parts, gap)?;
            Ok(Code::List(*place, *form, parts))
        }
        Code::Fields(place, form, fields) => {
            let fields = fields_lowered(alloc, fields, gap)?;
            Ok(Code::Fields(*place, *form, fields))
        }
        Code::Map(place, form, sets, body) => {
            let sets = each_lowered(alloc, sets, gap)?;
            let body = lowered_box(alloc, body, gap)?;
            Ok(Code::Map(*place, *form, sets, body))
        }
        Code::Except(place, base, updates) => {
            let base = lowered_box(alloc, base, gap)?;
            let updates = updates_lowered(alloc, updates, gap)?;
            Ok(Code::Except(*place, base, updates))
        }
        Code::Destructure(place, openings, body) => {
            let openings = openings_lowered(alloc, openings, gap)?;
            let body = lowered_box(alloc, body, gap)?;
            Ok(Code::Destructure(*place, openings, body))
        }
        _ => Err(GaveUp),
    }
}

#[cycle(lower)]
fn lowered_box<'m>(alloc: Global, code: &Code<'m>, gap: Gap) -> Result<Box<Code<'m>>, GaveUp> {
    let code = lowered(alloc, code, gap)?;
    Ok(Box::new(alloc, code)?)
}

#[cycle(lower)]
fn each_lowered<'m>(alloc: Global, codes: &[Code<'m>], gap: Gap) -> Result<Vec<Code<'m>>, GaveUp> {
    let mut made = Vec::new(alloc);
    for code in codes {
        made.push(lowered(alloc, code, gap)?)?;
    }
    Ok(made)
}

#[cycle(lower)]
fn fields_lowered<'m>(
    alloc: Global,
    fields: &[(&'m Text, Code<'m>)],
    gap: Gap,
) -> Result<Vec<(&'m Text, Code<'m>)>, GaveUp> {
    let mut made = Vec::new(alloc);
    for field in fields {
        let code = lowered(alloc, &field.1, gap)?;
        made.push((field.0, code))?;
    }
    Ok(made)
}

#[cycle(lower)]
fn updates_lowered<'m>(
    alloc: Global,
    updates: &[(Vec<Code<'m>>, Code<'m>)],
    gap: Gap,
) -> Result<Vec<(Vec<Code<'m>>, Code<'m>)>, GaveUp> {
    let mut made = Vec::new(alloc);
    for update in updates {
        let keys = each_lowered(alloc, update.0.as_slice(), gap)?;
        let value = lowered(alloc, &update.1, gap)?;
        made.push((keys, value))?;
    }
    Ok(made)
}

fn openings_lowered(alloc: Global, openings: &[Opening], gap: Gap) -> Result<Vec<Opening>, GaveUp> {
    let mut made = Vec::new(alloc);
    for opening in openings {
        let name = lowered_name(opening.name, gap)?;
        made.push(Opening {
            name,
            items: opening.items,
        })?;
    }
    Ok(made)
}
