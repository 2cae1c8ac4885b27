//! Which part of an expression becomes a definition. The choice affects only time.

use crate::copies::is_copy;
use crate::gave_up::GaveUp;
use crate::lowered::{Gap, lowered};
use crate::measures::{builds_or_visits_set, items_of, size};
use crate::shift::Shift;
use crate::usage::{
    Position, Usage, arm_usage, field_usage, first_usage, is_candidate, operand_usage, part_usage,
    position_at, second_usage, set_usage, under, with_usage,
};
use std::alloc::Global;
use tla_code::{Code, is_steady};
use tla_value::Text;

/// A search for a part to define, in an expression under `names` bound names. `outside` has, for each definition in
/// scope, the number of names bound outside it.
#[derive(Clone, Copy)]
pub(crate) struct Search<'o, 'm> {
    pub(crate) whole: &'o Code<'m>,
    pub(crate) names: usize,
    pub(crate) outside: &'o [usize],
    pub(crate) wanted: Wanted,
}

/// What is searched for. `Copies`: a part that occurs twice, or that can be moved out of a binder. `CopiesNearby`: the
/// same, but a part that occurs twice is found only as both operands of one form. `Closed(n)`: a closed part of more
/// than n nodes.
#[derive(Clone, Copy)]
pub(crate) enum Wanted {
    Copies,
    CopiesNearby,
    Closed(usize),
}

/// Finds a part to define. Its bound names are renumbered as if it were outside the binders around it.
#[cycle(choose)]
pub(crate) fn chosen<'m>(
    alloc: Global,
    code: &Code<'m>,
    spot: Position,
    search: Search<'_, 'm>,
) -> Option<Code<'m>> {
    if is_wanted(code, spot, search) {
        if let Some(definition) = try_hoist(alloc, code, spot, search) {
            if is_worth_defining(&definition, spot, search) {
                return Some(definition);
            }
        }
    }
    chosen_inside(alloc, code, spot, search)
}

/// The same, among the operands.
#[cycle(choose)]
fn chosen_inside<'m>(
    alloc: Global,
    code: &Code<'m>,
    spot: Position,
    search: Search<'_, 'm>,
) -> Option<Code<'m>> {
    match code {
        Code::One(_, form, a) => {
            let usage = operand_usage(*form, spot.usage);
            chosen(alloc, a, with_usage(spot, usage), search)
        }
        Code::Two(_, form, a, b) => {
            let first = with_usage(spot, first_usage(*form, spot.usage));
            let second = with_usage(spot, second_usage(*form, spot.usage));
            chosen_of_two(alloc, a, b, first, second, search)
        }
        Code::Three(_, form, a, b, c) => {
            if let Some(found) = chosen(alloc, a, with_usage(spot, Usage::Value), search) {
                return Some(found);
            }
            let arm = with_usage(spot, arm_usage(*form, spot.usage));
            chosen_of_two(alloc, b, c, arm, arm, search)
        }
        Code::Binder(_, form, set, body) => {
            let usage = set_usage(*form, spot.usage);
            if let Some(found) = chosen(alloc, set, with_usage(spot, usage), search) {
                return Some(found);
            }
            chosen_under(alloc, body, spot, 1, search)
        }
        Code::Destructure(_, openings, body) => {
            chosen_under(alloc, body, spot, items_of(openings)?, search)
        }
        _ => chosen_in_lists(alloc, code, spot, search),
    }
}

/// The same, searched for in the operands of a form with a list of them.
#[cycle(choose)]
fn chosen_in_lists<'m>(
    alloc: Global,
    code: &Code<'m>,
    spot: Position,
    search: Search<'_, 'm>,
) -> Option<Code<'m>> {
    match code {
        Code::List(_, form, parts) => {
            let usage = part_usage(*form, spot.usage);
            chosen_of_all(alloc, parts, with_usage(spot, usage), search)
        }
        Code::Fields(_, form, fields) => {
            let usage = field_usage(*form, spot.usage);
            chosen_of_fields(alloc, fields, with_usage(spot, usage), search)
        }
        Code::Map(_, _, sets, body) => {
            let set = with_usage(spot, Usage::Value);
            if let Some(found) = chosen_of_all(alloc, sets, set, search) {
                return Some(found);
            }
            chosen_under(alloc, body, spot, sets.len(), search)
        }
        Code::Except(_, base, updates) => {
            let value = with_usage(spot, Usage::Value);
            if let Some(found) = chosen(alloc, base, value, search) {
                return Some(found);
            }
            chosen_of_updates(alloc, updates, value, search)
        }
        _ => None,
    }
}

/// Whether a part is a candidate, before it is renumbered.
fn is_wanted(code: &Code<'_>, spot: Position, search: Search<'_, '_>) -> bool {
    let is_far = match search.wanted {
        Wanted::Copies => true,
        Wanted::CopiesNearby => spot.by > 0,
        Wanted::Closed(least) => builds_or_visits_set(code)
            && size(code, least.saturating_add(1)) > least,
    };
    is_far && is_candidate(code, spot.usage)
}

/// Whether a part, once renumbered, becomes a definition.
fn is_worth_defining<'m>(definition: &Code<'m>, spot: Position, search: Search<'_, 'm>) -> bool {
    match search.wanted {
        Wanted::Copies | Wanted::CopiesNearby => {
            let whole = position_at(0, Usage::Value);
            spot.by > 0 || copies_in(search.whole, whole, definition, search) > 1
        }
        Wanted::Closed(_) => is_steady(definition),
    }
}

/// Whether copies are searched for.
fn wants_copies(wanted: Wanted) -> bool {
    match wanted {
        Wanted::Copies | Wanted::CopiesNearby => true,
        Wanted::Closed(_) => false,
    }
}

/// A part, renumbered as if it were outside the binders around it.
fn try_hoist<'m>(
    alloc: Global,
    code: &Code<'m>,
    spot: Position,
    search: Search<'_, 'm>,
) -> Option<Code<'m>> {
    let gap = Gap {
        from: search.names,
        by: spot.by,
    };
    match lowered(alloc, code, gap) {
        Ok(definition) => Some(definition),
        Err(GaveUp) => None,
    }
}

/// The same, in a body under more names.
#[cycle(choose)]
fn chosen_under<'m>(
    alloc: Global,
    body: &Code<'m>,
    spot: Position,
    more: usize,
    search: Search<'_, 'm>,
) -> Option<Code<'m>> {
    let by = spot.by.checked_add(more)?;
    chosen(alloc, body, position_at(by, Usage::Value), search)
}

/// If both operands are copies of one expression, that expression. Else a part of one of them.
#[cycle(choose)]
fn chosen_of_two<'m>(
    alloc: Global,
    a: &Code<'m>,
    b: &Code<'m>,
    first: Position,
    second: Position,
    search: Search<'_, 'm>,
) -> Option<Code<'m>> {
    let same = Shift {
        from: search.names,
        by: 0,
        outside: search.outside,
    };
    if wants_copies(search.wanted)
        && is_candidate(a, first.usage)
        && is_candidate(b, second.usage)
        && is_copy(a, b, same)
    {
        if let Some(found) = try_hoist(alloc, a, first, search) {
            return Some(found);
        }
    }
    if let Some(found) = chosen(alloc, a, first, search) {
        return Some(found);
    }
    chosen(alloc, b, second, search)
}

#[cycle(choose)]
fn chosen_of_all<'m>(
    alloc: Global,
    codes: &[Code<'m>],
    spot: Position,
    search: Search<'_, 'm>,
) -> Option<Code<'m>> {
    for code in codes {
        if let Some(found) = chosen(alloc, code, spot, search) {
            return Some(found);
        }
    }
    None
}

#[cycle(choose)]
fn chosen_of_fields<'m>(
    alloc: Global,
    fields: &[(&'m Text, Code<'m>)],
    spot: Position,
    search: Search<'_, 'm>,
) -> Option<Code<'m>> {
    for field in fields {
        if let Some(found) = chosen(alloc, &field.1, spot, search) {
            return Some(found);
        }
    }
    None
}

#[cycle(choose)]
fn chosen_of_updates<'m>(
    alloc: Global,
    updates: &[(Vec<Code<'m>>, Code<'m>)],
    spot: Position,
    search: Search<'_, 'm>,
) -> Option<Code<'m>> {
    for update in updates {
        if let Some(found) = chosen_of_all(alloc, update.0.as_slice(), spot, search) {
            return Some(found);
        }
        if let Some(found) = chosen_under(alloc, &update.1, spot, 1, search) {
            return Some(found);
        }
    }
    None
}

/// The number of copies of a definition in an expression, not counting those that are cheap to evaluate.
#[cycle(find)]
fn copies_in<'m>(
    code: &Code<'m>,
    spot: Position,
    definition: &Code<'m>,
    search: Search<'_, 'm>,
) -> usize {
    let shift = Shift {
        from: search.names,
        by: spot.by,
        outside: search.outside,
    };
    if is_copy(definition, code, shift) {
        return if is_candidate(code, spot.usage) { 1 } else { 0 };
    }
    copies_inside(code, spot, definition, search)
}

/// The number of copies in the operands of an expression.
#[cycle(find)]
fn copies_inside<'m>(
    code: &Code<'m>,
    spot: Position,
    definition: &Code<'m>,
    search: Search<'_, 'm>,
) -> usize {
    match code {
        Code::One(_, form, a) => {
            let usage = operand_usage(*form, spot.usage);
            copies_in(a, with_usage(spot, usage), definition, search)
        }
        Code::Two(_, form, a, b) => {
            let first = with_usage(spot, first_usage(*form, spot.usage));
            let second = with_usage(spot, second_usage(*form, spot.usage));
            let copies = copies_in(a, first, definition, search);
            copies.saturating_add(copies_in(b, second, definition, search))
        }
        Code::Three(_, form, a, b, c) => {
            let arm = with_usage(spot, arm_usage(*form, spot.usage));
            let first = copies_in(a, with_usage(spot, Usage::Value), definition, search);
            let second = copies_in(b, arm, definition, search);
            let third = copies_in(c, arm, definition, search);
            first.saturating_add(second).saturating_add(third)
        }
        Code::Binder(_, form, set, body) => {
            let usage = set_usage(*form, spot.usage);
            let first = copies_in(set, with_usage(spot, usage), definition, search);
            first.saturating_add(copies_in(body, under(spot, 1), definition, search))
        }
        Code::Destructure(_, openings, body) => match items_of(openings) {
            Some(more) => copies_in(body, under(spot, more), definition, search),
            None => 0,
        },
        _ => copies_in_lists(code, spot, definition, search),
    }
}

/// The number of copies in the operands of a form with a list of them.
#[cycle(find)]
fn copies_in_lists<'m>(
    code: &Code<'m>,
    spot: Position,
    definition: &Code<'m>,
    search: Search<'_, 'm>,
) -> usize {
    match code {
        Code::List(_, form, parts) => {
            let usage = part_usage(*form, spot.usage);
            copies_in_all(parts, with_usage(spot, usage), definition, search)
        }
        Code::Fields(_, form, fields) => {
            let usage = field_usage(*form, spot.usage);
            copies_in_fields(fields, with_usage(spot, usage), definition, search)
        }
        Code::Map(_, _, sets, body) => {
            let set = with_usage(spot, Usage::Value);
            let first = copies_in_all(sets, set, definition, search);
            let inside = under(spot, sets.len());
            first.saturating_add(copies_in(body, inside, definition, search))
        }
        Code::Except(_, base, updates) => {
            let value = with_usage(spot, Usage::Value);
            let first = copies_in(base, value, definition, search);
            first.saturating_add(copies_in_updates(updates, value, definition, search))
        }
        _ => 0,
    }
}

#[cycle(find)]
fn copies_in_all<'m>(
    codes: &[Code<'m>],
    spot: Position,
    definition: &Code<'m>,
    search: Search<'_, 'm>,
) -> usize {
    let mut count = 0usize;
    for code in codes {
        count = count.saturating_add(copies_in(code, spot, definition, search));
    }
    count
}

#[cycle(find)]
fn copies_in_fields<'m>(
    fields: &[(&'m Text, Code<'m>)],
    spot: Position,
    definition: &Code<'m>,
    search: Search<'_, 'm>,
) -> usize {
    let mut count = 0usize;
    for field in fields {
        count = count.saturating_add(copies_in(&field.1, spot, definition, search));
    }
    count
}

#[cycle(find)]
fn copies_in_updates<'m>(
    updates: &[(Vec<Code<'m>>, Code<'m>)],
    spot: Position,
    definition: &Code<'m>,
    search: Search<'_, 'm>,
) -> usize {
    let mut count = 0usize;
    for update in updates {
        let keys = copies_in_all(update.0.as_slice(), spot, definition, search);
        let value = copies_in(&update.1, under(spot, 1), definition, search);
        count = count.saturating_add(keys).saturating_add(value);
    }
    count
}
