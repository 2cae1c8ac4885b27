//! Replaces copies of a definition by uses of it.
ghost use Rattle.std.specs.Prelude.{IfOk};
ghost use Rattle.std.specs.List.{AllZip};
ghost use Rattle.tla_sharing.specs.Private.Copies.{Replaces, FieldReplaces, UpdateReplaces};

use crate::copies::is_copy;
use crate::gave_up::GaveUp;
use crate::measures::items_of;
use crate::shift::Shift;
use std::alloc::Global;
use tla_code::Code;
use tla_core::Place;
use tla_value::Text;

/// A definition under `names` names. `outside` has, for each definition in scope, the number of names bound outside it;
/// its length is the number of the new definition.
#[derive(Clone, Copy)]
pub(crate) struct Target<'t, 'm> {
    pub(crate) definition: &'t Code<'m>,
    pub(crate) names: usize,
    pub(crate) outside: &'t [usize],
}

/// The place of an expression, if its form has one.
fn place_of(code: &Code<'_>) -> Option<Place> {
    match code {
        Code::One(place, _, _)
        | Code::Two(place, _, _, _)
        | Code::Three(place, _, _, _, _)
        | Code::List(place, _, _)
        | Code::Fields(place, _, _)
        | Code::Binder(place, _, _, _)
        | Code::Map(place, _, _, _)
        | Code::Except(place, _, _)
        | Code::Destructure(place, _, _) => Some(*place),
        _ => None,
    }
}

/// The expression with each copy of the definition replaced by a use. `by` names are bound between the definition and
/// the expression.
#[cycle(replace)]
pub(crate) fn replaced<'t, 'm>(
    alloc: Global,
    code: &Code<'m>,
    by: usize,
    target: Target<'t, 'm>,
) -> Result<Code<'m>, GaveUp>
    ensures { IfOk result (λ c. Replaces target.entry code.now c) }
{
    let shift = Shift {
        from: target.names,
        by,
        outside: target.outside,
    };
    if is_copy(target.definition, code, shift) {
        let Some(place) = place_of(code) else {
            return Err(GaveUp);
        };
        return Ok(Code::Use(place, target.outside.len(), by));
    }
    replaced_within(alloc, code, by, target)
}

/// The expression, which isn't a copy itself, with the copies inside it replaced.
#[cycle(replace)]
fn replaced_within<'t, 'm>(
    alloc: Global,
    code: &Code<'m>,
    by: usize,
    target: Target<'t, 'm>,
) -> Result<Code<'m>, GaveUp>
    ensures { IfOk result (λ c. Replaces target.entry code.now c) }
{
    match code {
        Code::Plain(core) => Ok(Code::Plain(core)),
        Code::Bound(place, index) => Ok(Code::Bound(*place, *index)),
        Code::Use(place, number, since) => {
            if *number < target.outside.len() {
                Ok(Code::Use(*place, *number, *since))
            } else {
                Err(GaveUp)
            }
        }
        Code::One(place, form, a) => {
            let a = boxed(alloc, a, by, target)?;
            Ok(Code::One(*place, *form, a))
        }
        Code::Two(place, form, a, b) => {
            let a = boxed(alloc, a, by, target)?;
            let b = boxed(alloc, b, by, target)?;
            Ok(Code::Two(*place, *form, a, b))
        }
        Code::Three(place, form, a, b, c) => {
            let a = boxed(alloc, a, by, target)?;
            let b = boxed(alloc, b, by, target)?;
            let c = boxed(alloc, c, by, target)?;
            Ok(Code::Three(*place, *form, a, b, c))
        }
        Code::Binder(place, form, set, body) => {
            let set = boxed(alloc, set, by, target)?;
            let body = boxed_under(alloc, body, by, 1, target)?;
            Ok(Code::Binder(*place, *form, set, body))
        }
        _ => replaced_in_lists(alloc, code, by, target),
    }
}

/// Forms with a list of parts.
#[cycle(replace)]
fn replaced_in_lists<'t, 'm>(
    alloc: Global,
    code: &Code<'m>,
    by: usize,
    target: Target<'t, 'm>,
) -> Result<Code<'m>, GaveUp>
    ensures { IfOk result (λ c. Replaces target.entry code.now c) }
{
    match code {
        Code::List(place, form, parts) => {
            let parts = each_replaced(alloc, parts, by, target)?;
            Ok(Code::List(*place, *form, parts))
        }
        Code::Fields(place, form, fields) => {
            let fields = fields_replaced(alloc, fields, by, target)?;
            Ok(Code::Fields(*place, *form, fields))
        }
        Code::Map(place, form, sets, body) => {
            let parts = each_replaced(alloc, sets, by, target)?;
            let body = boxed_under(alloc, body, by, sets.len(), target)?;
            Ok(Code::Map(*place, *form, parts, body))
        }
        Code::Except(place, base, updates) => {
            let base = boxed(alloc, base, by, target)?;
            let updates = updates_replaced(alloc, updates, by, target)?;
            Ok(Code::Except(*place, base, updates))
        }
        Code::Destructure(place, openings, body) => {
            let Some(more) = items_of(openings) else {
                return Err(GaveUp);
            };
            let body = boxed_under(alloc, body, by, more, target)?;
            let openings = openings.to_vec(alloc)?;
            Ok(Code::Destructure(*place, openings, body))
        }
        _ => Err(GaveUp),
    }
}

/// An operand, in a box.
#[cycle(replace)]
fn boxed<'t, 'm>(
    alloc: Global,
    code: &Code<'m>,
    by: usize,
    target: Target<'t, 'm>,
) -> Result<Box<Code<'m>>, GaveUp>
    ensures { IfOk result (λ c. Replaces target.entry code.now c.value) }
{
    let code = replaced(alloc, code, by, target)?;
    Ok(Box::new(alloc, code)?)
}

/// A body under more names, in a box.
#[cycle(replace)]
fn boxed_under<'t, 'm>(
    alloc: Global,
    code: &Code<'m>,
    by: usize,
    more: usize,
    target: Target<'t, 'm>,
) -> Result<Box<Code<'m>>, GaveUp>
    ensures { IfOk result (λ c. Replaces target.entry code.now c.value) }
{
    let Some(by) = by.checked_add(more) else {
        return Err(GaveUp);
    };
    boxed(alloc, code, by, target)
}

#[cycle(replace)]
fn each_replaced<'t, 'm>(
    alloc: Global,
    codes: &[Code<'m>],
    by: usize,
    target: Target<'t, 'm>,
) -> Result<Vec<Code<'m>>, GaveUp>
    ensures { IfOk result (λ cs. AllZip (Replaces target.entry) codes.now cs.items) }
{
    let mut made = Vec::new(alloc);
    for code in codes {
        made.push(replaced(alloc, code, by, target)?)?;
    }
    Ok(made)
}

#[cycle(replace)]
fn fields_replaced<'t, 'm>(
    alloc: Global,
    fields: &[(&'m Text, Code<'m>)],
    by: usize,
    target: Target<'t, 'm>,
) -> Result<Vec<(&'m Text, Code<'m>)>, GaveUp>
    ensures { IfOk result (λ cs. AllZip (FieldReplaces target.entry) fields.now cs.items) }
{
    let mut made = Vec::new(alloc);
    for field in fields {
        let code = replaced(alloc, &field.1, by, target)?;
        made.push((field.0, code))?;
    }
    Ok(made)
}

#[cycle(replace)]
fn updates_replaced<'t, 'm>(
    alloc: Global,
    updates: &[(Vec<Code<'m>>, Code<'m>)],
    by: usize,
    target: Target<'t, 'm>,
) -> Result<Vec<(Vec<Code<'m>>, Code<'m>)>, GaveUp>
    ensures { IfOk result (λ cs. AllZip (UpdateReplaces target.entry) updates.now cs.items) }
{
    let mut made = Vec::new(alloc);
    for update in updates {
        let keys = each_replaced(alloc, update.0.as_slice(), by, target)?;
        let value = value_replaced(alloc, &update.1, by, target)?;
        made.push((keys, value))?;
    }
    Ok(made)
}

/// The new value of an update, in which `@` is one more name.
#[cycle(replace)]
fn value_replaced<'t, 'm>(
    alloc: Global,
    code: &Code<'m>,
    by: usize,
    target: Target<'t, 'm>,
) -> Result<Code<'m>, GaveUp>
    ensures { IfOk result (λ c. Replaces target.entry code.now c) }
{
    let Some(by) = by.checked_add(1) else {
        return Err(GaveUp);
    };
    replaced(alloc, code, by, target)
}
