//! What is worth a definition, and which definitions are certainly used. This affects only time.

use tla_code::{BinderForm, Code, FieldForm, ListForm, OneForm, ThreeForm, TwoForm};
use tla_core::{Binary, Opening, Unary};
use tla_value::Text;

/// From this size on an expression is worth a definition.
const MIN_SHARED_SIZE: usize = 12;

/// How many names some patterns bind.
pub(crate) fn items_of(openings: &[Opening]) -> Option<usize> {
    let mut count = 0usize;
    for opening in openings {
        count = count.checked_add(opening.items)?;
    }
    Some(count)
}

/// In an expression of at least this size, copies aren't searched for everywhere.
const MIN_LARGE_SIZE: usize = 4_000;

/// The same, for the depth.
const MIN_LARGE_DEPTH: usize = 100;

/// Whether copies are searched for in all of an expression. That compares each part with each other one, and two parts
/// may first differ at their innermost parts.
pub(crate) fn is_small(code: &Code<'_>) -> bool {
    let near = size(code, MIN_LARGE_DEPTH);
    near < MIN_LARGE_SIZE && near == size(code, MIN_LARGE_SIZE)
}

/// Whether an expression is worth a definition: it builds or iterates over a set or function, or is large.
pub(crate) fn is_expensive(code: &Code<'_>) -> bool {
    builds_or_visits_set(code) || size(code, MIN_SHARED_SIZE) >= MIN_SHARED_SIZE
}

/// Whether a form builds a set or a function, or iterates over one.
pub(crate) fn builds_or_visits_set(code: &Code<'_>) -> bool {
    match code {
        Code::Binder(_, _, _, _) | Code::Map(_, _, _, _) => true,
        Code::One(_, OneForm::Power, _) => true,
        Code::One(_, OneForm::Operator(Unary::Union), _) => true,
        Code::Two(_, TwoForm::Functions, _, _) => true,
        Code::Two(_, TwoForm::Operator(Binary::Range), _, _) => true,
        Code::List(_, ListForm::Product, _) => true,
        Code::Fields(_, FieldForm::Records, _) => true,
        _ => false,
    }
}

/// The number of nodes of an expression with fewer than `most` nodes around them.
#[cycle(count)]
pub(crate) fn size(code: &Code<'_>, most: usize) -> usize {
    if most == 0 {
        return 0;
    }
    let left = most - 1;
    let inside = match code {
        Code::One(_, _, a) => size(a, left),
        Code::Two(_, _, a, b) | Code::Binder(_, _, a, b) => saturating_sum(
            size(a, left),
            size(b, left),
        ),
        Code::Three(_, _, a, b, c) => saturating_sum(
            saturating_sum(size(a, left), size(b, left)),
            size(c, left),
        ),
        Code::List(_, _, parts) => size_of_all(parts, left),
        Code::Fields(_, _, fields) => size_of_fields(fields, left),
        Code::Map(_, _, parts, body) => saturating_sum(size_of_all(parts, left), size(body, left)),
        Code::Except(_, base, updates) => saturating_sum(
            size(base, left),
            size_of_updates(updates, left),
        ),
        Code::Destructure(_, _, body) => size(body, left),
        _ => 0,
    };
    saturating_sum(inside, 1)
}

#[cycle(count)]
fn size_of_all(codes: &[Code<'_>], most: usize) -> usize {
    let mut total = 0usize;
    for code in codes {
        total = saturating_sum(total, size(code, most));
    }
    total
}

#[cycle(count)]
fn size_of_fields(fields: &[(&Text, Code<'_>)], most: usize) -> usize {
    let mut total = 0usize;
    for field in fields {
        total = saturating_sum(total, size(&field.1, most));
    }
    total
}

#[cycle(count)]
fn size_of_updates(updates: &[(Vec<Code<'_>>, Code<'_>)], most: usize) -> usize {
    let mut total = 0usize;
    for update in updates {
        let keys = size_of_all(update.0.as_slice(), most);
        total = saturating_sum(total, saturating_sum(keys, size(&update.1, most)));
    }
    total
}

fn saturating_sum(one: usize, other: usize) -> usize {
    one.saturating_add(other)
}

/// Whether the value of an expression, if it has one, always depends on the definition with this number. FALSE means
/// nothing.
#[cycle(need)]
pub(crate) fn needs(code: &Code<'_>, number: usize) -> bool {
    match code {
        Code::Use(_, used, _) => *used == number,
        Code::Let(_, _, _, body) => needs(body, number),
        Code::One(_, OneForm::Operator(_), a) | Code::One(_, OneForm::Field(_), a) => {
            needs(a, number)
        }
        Code::Two(_, form, a, b) => needs(a, number) || needs_second(*form) && needs(b, number),
        Code::Three(_, ThreeForm::If, a, _, _) => needs(a, number),
        Code::Three(_, ThreeForm::SubSeq, a, b, c) => {
            needs(a, number) || needs(b, number) || needs(c, number)
        }
        Code::List(_, form, parts) => needs_part(*form, parts, number),
        Code::Fields(_, FieldForm::Record, fields) => needs_field(fields, number),
        Code::Binder(_, _, set, _) => needs(set, number),
        Code::Map(_, _, sets, _) => some_needs(sets, number),
        Code::Except(_, base, _) => needs(base, number),
        Code::Destructure(_, _, body) => needs(body, number),
        _ => false,
    }
}

/// Whether a form always evaluates its second operand.
fn needs_second(form: TwoForm) -> bool {
    match form {
        TwoForm::Operator(_) | TwoForm::Apply | TwoForm::Equal => true,
        _ => false,
    }
}

/// Logic and CASE evaluate their first part; a list evaluates each.
#[cycle(need)]
fn needs_part(form: ListForm, parts: &[Code<'_>], number: usize) -> bool {
    match form {
        ListForm::Conjunction | ListForm::Disjunction | ListForm::Cases => match parts.first() {
            Some(part) => needs(part, number),
            None => false,
        },
        ListForm::Enumerated | ListForm::Tuple => some_needs(parts, number),
        ListForm::Product => false,
    }
}

#[cycle(need)]
fn some_needs(codes: &[Code<'_>], number: usize) -> bool {
    for code in codes {
        if needs(code, number) {
            return true;
        }
    }
    false
}

#[cycle(need)]
fn needs_field(fields: &[(&Text, Code<'_>)], number: usize) -> bool {
    for field in fields {
        if needs(&field.1, number) {
            return true;
        }
    }
    false
}

/// Whether an expression has a use of the definition with a number.
#[cycle(used)]
pub(crate) fn uses(code: &Code<'_>, number: usize) -> bool {
    match code {
        Code::Use(_, used, _) => *used == number,
        Code::Let(_, _, definition, body) => uses(definition, number) || uses(body, number),
        Code::One(_, _, a) => uses(a, number),
        Code::Two(_, _, a, b) | Code::Binder(_, _, a, b) => uses(a, number) || uses(b, number),
        Code::Three(_, _, a, b, c) => uses(a, number) || uses(b, number) || uses(c, number),
        Code::List(_, _, parts) => some_uses(parts, number),
        Code::Fields(_, _, fields) => some_field_uses(fields, number),
        Code::Map(_, _, sets, body) => some_uses(sets, number) || uses(body, number),
        Code::Except(_, base, updates) => uses(base, number) || some_update_uses(updates, number),
        Code::Destructure(_, _, body) => uses(body, number),
        _ => false,
    }
}

#[cycle(used)]
fn some_uses(codes: &[Code<'_>], number: usize) -> bool {
    for code in codes {
        if uses(code, number) {
            return true;
        }
    }
    false
}

#[cycle(used)]
fn some_field_uses(fields: &[(&Text, Code<'_>)], number: usize) -> bool {
    for field in fields {
        if uses(&field.1, number) {
            return true;
        }
    }
    false
}

#[cycle(used)]
fn some_update_uses(updates: &[(Vec<Code<'_>>, Code<'_>)], number: usize) -> bool {
    for update in updates {
        if some_uses(update.0.as_slice(), number) || uses(&update.1, number) {
            return true;
        }
    }
    false
}
