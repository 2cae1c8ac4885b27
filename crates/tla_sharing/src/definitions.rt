//! The pass that introduces definitions.
ghost use Rattle.std.specs.Prelude.{◌≡◌, ◌+◌, IfOk, IfSome, [], ◌∷◌, ◌++◌};
ghost use Rattle.std.specs.List.{AllZip};
ghost use Rattle.tla_code.specs.CodeExpr.{Scope, expr_in};
ghost use Rattle.tla_sharing.specs.Outside.{HasNames};
ghost use Rattle.tla_sharing.specs.Private.Copies.{Agrees, FieldAgrees, UpdateAgrees};

use crate::choice::{Search, Wanted, chosen};
use crate::gave_up::GaveUp;
use crate::measures::{is_small, items_of, needs, uses};
use crate::replaced::{Target, replaced};
use crate::usage::{Usage, position_at};
use std::alloc::Global;
use tla_code::Code;
use tla_value::Text;

/// The greatest number of definitions inside one another.
const MAX_NESTING: usize = 64;

/// A bound on recursion that no expression within the depth limit reaches.
const MAX_CALLS: usize = 100_000;

/// The position of the pass: the number of bound names, the number of names bound outside each definition in scope, and
/// how many more calls may be nested.
#[derive(Clone, Copy)]
struct SharingContext<'o> {
    names: usize,
    outside: &'o [usize],
    calls: usize,
}

/// The same context under more names, one call deeper.
fn under<'o>(spot: SharingContext<'o>, more: usize) -> Result<SharingContext<'o>, GaveUp>
    ensures { IfOk result (λ s.
        (s.outside.now ≡ spot.entry.outside.now) × (s.calls + 1 ≡ spot.entry.calls)) }
{
    let Some(names) = spot.names.checked_add(more) else {
        return Err(GaveUp);
    };
    if spot.calls == 0 {
        return Err(GaveUp);
    }
    Ok(SharingContext {
        names,
        outside: spot.outside,
        calls: spot.calls - 1,
    })
}

/// The list `outside` with `names` appended.
fn one_more(alloc: Global, outside: &[usize], names: usize) -> Result<Vec<usize>, GaveUp>
    ensures { IfOk result (λ v. v.items ≡ outside.now ++ names ∷ []) }
{
    let mut longer = outside.to_vec(alloc)?;
    longer.push(names)?;
    Ok(longer)
}

/// The same expression, with definitions for parts that occur several times or that can be moved out of a binder. It is
/// under `names` bound names; `outside` has, for each definition in scope, the number of names bound outside it. None:
/// the expression stays unchanged, for example because memory ran out.
pub fn shared<'m>(
    alloc: Global,
    code: &Code<'m>,
    names: usize,
    outside: &[usize],
) -> Option<Code<'m>>
    ensures { IfSome result (λ c.
        (scope : Scope) → HasNames scope outside.now → expr_in scope c ≡ expr_in scope code.now) }
{
    let spot = SharingContext {
        names,
        outside,
        calls: MAX_CALLS,
    };
    match shared_body(alloc, code, spot) {
        Ok(code) => Some(code),
        Err(GaveUp) => None,
    }
}

/// The part of an expression that is worth a definition around it.
fn definition_of<'m>(alloc: Global, code: &Code<'m>, spot: SharingContext<'_>) -> Option<Code<'m>> {
    if spot.outside.len() >= MAX_NESTING {
        return None;
    }
    let search = Search {
        whole: code,
        names: spot.names,
        outside: spot.outside,
        wanted: if is_small(code) {
            Wanted::Copies
        } else {
            Wanted::CopiesNearby
        },
    };
    chosen(alloc, code, position_at(0, Usage::Value), search)
}

/// A body, with definitions around it.
#[cycle(share)]
fn shared_body<'m>(
    alloc: Global,
    code: &Code<'m>,
    spot: SharingContext<'_>,
) -> Result<Code<'m>, GaveUp>
    ensures { IfOk result (λ c. Agrees spot.entry.outside.now code.now c) }
{
    let next = under(spot, 0)?;
    match definition_of(alloc, code, spot) {
        Some(definition) => defined(alloc, code, &definition, next),
        None => shared_parts(alloc, code, next),
    }
}

/// A body with one more definition around it, if it uses the definition.
#[cycle(share)]
fn defined<'m>(
    alloc: Global,
    code: &Code<'m>,
    definition: &Code<'m>,
    spot: SharingContext<'_>,
) -> Result<Code<'m>, GaveUp>
    ensures { IfOk result (λ c. Agrees spot.entry.outside.now code.now c) }
{
    let next = under(spot, 0)?;
    let target = Target {
        definition,
        names: next.names,
        outside: next.outside,
    };
    let body = replaced(alloc, code, 0, target)?;
    if !uses(&body, next.outside.len()) {
        return shared_parts(alloc, code, next);
    }
    let is_needed = needs(&body, next.outside.len());
    let definition = boxed_body(alloc, definition, 0, next)?;
    let inner = boxed_inside(alloc, &body, next)?;
    Ok(Code::Let(next.names, is_needed, definition, inner))
}

/// A body under one more definition, in a box.
#[cycle(share)]
fn boxed_inside<'m>(
    alloc: Global,
    body: &Code<'m>,
    spot: SharingContext<'_>,
) -> Result<Box<Code<'m>>, GaveUp>
    ensures { IfOk result (λ c.
        Agrees (spot.entry.outside.now ++ spot.entry.names ∷ []) body.now c.value) }
{
    let next = under(spot, 0)?;
    let outside = one_more(alloc, spot.outside, spot.names)?;
    let inner = SharingContext {
        names: spot.names,
        outside: outside.as_slice(),
        calls: next.calls,
    };
    let code = shared_body(alloc, body, inner)?;
    Ok(Box::new(alloc, code)?)
}

/// An expression with definitions in its parts.
#[cycle(share)]
fn shared_parts<'m>(
    alloc: Global,
    code: &Code<'m>,
    spot: SharingContext<'_>,
) -> Result<Code<'m>, GaveUp>
    ensures { IfOk result (λ c. Agrees spot.entry.outside.now code.now c) }
{
    let next = under(spot, 0)?;
    match code {
        Code::Plain(core) => Ok(Code::Plain(core)),
        Code::Bound(place, index) => Ok(Code::Bound(*place, *index)),
        Code::Use(place, number, since) => Ok(Code::Use(*place, *number, *since)),
        Code::One(place, form, a) => {
            let a = boxed(alloc, a, next)?;
            Ok(Code::One(*place, *form, a))
        }
        Code::Two(place, form, a, b) => {
            let a = boxed(alloc, a, next)?;
            let b = boxed(alloc, b, next)?;
            Ok(Code::Two(*place, *form, a, b))
        }
        Code::Three(place, form, a, b, c) => {
            let a = boxed(alloc, a, next)?;
            let b = boxed(alloc, b, next)?;
            let c = boxed(alloc, c, next)?;
            Ok(Code::Three(*place, *form, a, b, c))
        }
        Code::Binder(place, form, set, body) => {
            let set = boxed(alloc, set, next)?;
            let body = boxed_body(alloc, body, 1, next)?;
            Ok(Code::Binder(*place, *form, set, body))
        }
        _ => shared_lists(alloc, code, next),
    }
}

/// Forms with a list of parts.
#[cycle(share)]
fn shared_lists<'m>(
    alloc: Global,
    code: &Code<'m>,
    spot: SharingContext<'_>,
) -> Result<Code<'m>, GaveUp>
    ensures { IfOk result (λ c. Agrees spot.entry.outside.now code.now c) }
{
    let next = under(spot, 0)?;
    match code {
        Code::List(place, form, parts) => {
            let parts = each_shared(alloc, parts, next)?;
            Ok(Code::List(*place, *form, parts))
        }
        Code::Fields(place, form, fields) => {
            let fields = fields_shared(alloc, fields, next)?;
            Ok(Code::Fields(*place, *form, fields))
        }
        Code::Map(place, form, sets, body) => {
            let body = boxed_body(alloc, body, sets.len(), next)?;
            let sets = each_shared(alloc, sets, next)?;
            Ok(Code::Map(*place, *form, sets, body))
        }
        Code::Except(place, base, updates) => {
            let base = boxed(alloc, base, next)?;
            let updates = updates_shared(alloc, updates, next)?;
            Ok(Code::Except(*place, base, updates))
        }
        Code::Destructure(place, openings, body) => {
            let Some(more) = items_of(openings) else {
                return Err(GaveUp);
            };
            let body = boxed_body(alloc, body, more, next)?;
            let openings = openings.to_vec(alloc)?;
            Ok(Code::Destructure(*place, openings, body))
        }
        _ => Err(GaveUp),
    }
}

/// An operand, in a box.
#[cycle(share)]
fn boxed<'m>(
    alloc: Global,
    code: &Code<'m>,
    spot: SharingContext<'_>,
) -> Result<Box<Code<'m>>, GaveUp>
    ensures { IfOk result (λ c. Agrees spot.entry.outside.now code.now c.value) }
{
    let next = under(spot, 0)?;
    let code = shared_parts(alloc, code, next)?;
    Ok(Box::new(alloc, code)?)
}

/// A body under more names, in a box.
#[cycle(share)]
fn boxed_body<'m>(
    alloc: Global,
    code: &Code<'m>,
    more: usize,
    spot: SharingContext<'_>,
) -> Result<Box<Code<'m>>, GaveUp>
    ensures { IfOk result (λ c. Agrees spot.entry.outside.now code.now c.value) }
{
    let inner = under(spot, more)?;
    let code = shared_body(alloc, code, inner)?;
    Ok(Box::new(alloc, code)?)
}

#[cycle(share)]
fn each_shared<'m>(
    alloc: Global,
    codes: &[Code<'m>],
    spot: SharingContext<'_>,
) -> Result<Vec<Code<'m>>, GaveUp>
    ensures { IfOk result (λ cs. AllZip (Agrees spot.entry.outside.now) codes.now cs.items) }
{
    let next = under(spot, 0)?;
    let mut made = Vec::new(alloc);
    for code in codes {
        made.push(shared_parts(alloc, code, next)?)?;
    }
    Ok(made)
}

#[cycle(share)]
fn fields_shared<'m>(
    alloc: Global,
    fields: &[(&'m Text, Code<'m>)],
    spot: SharingContext<'_>,
) -> Result<Vec<(&'m Text, Code<'m>)>, GaveUp>
    ensures { IfOk result (λ cs. AllZip (FieldAgrees spot.entry.outside.now) fields.now cs.items) }
{
    let next = under(spot, 0)?;
    let mut made = Vec::new(alloc);
    for field in fields {
        let code = shared_parts(alloc, &field.1, next)?;
        made.push((field.0, code))?;
    }
    Ok(made)
}

#[cycle(share)]
fn updates_shared<'m>(
    alloc: Global,
    updates: &[(Vec<Code<'m>>, Code<'m>)],
    spot: SharingContext<'_>,
) -> Result<Vec<(Vec<Code<'m>>, Code<'m>)>, GaveUp>
    ensures { IfOk result (λ cs.
        AllZip (UpdateAgrees spot.entry.outside.now) updates.now cs.items) }
{
    let next = under(spot, 0)?;
    let inner = under(spot, 1)?;
    let mut made = Vec::new(alloc);
    for update in updates {
        let keys = each_shared(alloc, update.0.as_slice(), next)?;
        let value = shared_body(alloc, &update.1, inner)?;
        made.push((keys, value))?;
    }
    Ok(made)
}
