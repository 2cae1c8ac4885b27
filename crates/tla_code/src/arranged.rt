//! The code of an expression in which nothing is shared yet.
ghost use Rattle.std.specs.Prelude.{◌≡◌, IfOk};
ghost use Rattle.std.specs.List.{AllZip};
ghost use Rattle.tla_core.specs.Expr.{cases, except, opened};
ghost use Rattle.tla_core.specs.ExprOf.{expr_of};
ghost use Rattle.tla_code.specs.Forms.{one_expr, two_expr, three_expr, list_expr, field_expr, binder_expr, map_expr};
ghost use Rattle.tla_code.specs.CodeExpr.{Scope, expr_in};
ghost use Rattle.tla_code.specs.Private.Listed.{StandsFor, FieldStandsFor, UpdateStandsFor, exprs_of_cores, fields_of_list, parts_of_arms, arms_of_list, arm_of_other, updates_of_list};

use crate::code::{BinderForm, Code, FieldForm, ListForm, MapForm, OneForm, ThreeForm, TwoForm};
use std::alloc::{AllocError, Global};
use tla_core::{Core, Opening, Place};
use tla_value::Text;

/// The code of an expression, without definitions. The only error is that memory ran out.
pub fn code_of<'m>(alloc: Global, core: &'m Core) -> Result<Code<'m>, AllocError>
    ensures { IfOk result (λ c. (scope : Scope) → expr_in scope c ≡ expr_of core.now) }
{
    arranged(alloc, core)
}

/// Forms with at most two operands.
#[cycle(arrange)]
fn arranged<'m>(alloc: Global, core: &'m Core) -> Result<Code<'m>, AllocError>
    ensures { IfOk result (λ c. StandsFor core.now c) }
{
    match core {
        Core::Unary(place, operator, a) => one(alloc, *place, OneForm::Operator(*operator), a),
        Core::Field(place, name, a) => one(alloc, *place, OneForm::Field(name), a),
        Core::Sequences(place, a) => one(alloc, *place, OneForm::Sequences, a),
        Core::Power(place, a) => one(alloc, *place, OneForm::Power, a),
        Core::CheckPattern(place, count, a) => one(alloc, *place, OneForm::CheckPattern(*count), a),
        Core::Binary(place, operator, a, b) => {
            two(alloc, *place, TwoForm::Operator(*operator), a, b)
        }
        Core::Apply(place, a, b) => two(alloc, *place, TwoForm::Apply, a, b),
        Core::Equal(place, a, b) => two(alloc, *place, TwoForm::Equal, a, b),
        Core::Implies(place, a, b) => two(alloc, *place, TwoForm::Implies, a, b),
        Core::Member(place, a, b) => two(alloc, *place, TwoForm::Member, a, b),
        Core::NotMember(place, a, b) => two(alloc, *place, TwoForm::NotMember, a, b),
        Core::Subset(place, a, b) => two(alloc, *place, TwoForm::Subset, a, b),
        Core::Functions(place, a, b) => two(alloc, *place, TwoForm::Functions, a, b),
        Core::Cup(place, a, b) => two(alloc, *place, TwoForm::Cup, a, b),
        Core::Cap(place, a, b) => two(alloc, *place, TwoForm::Cap, a, b),
        Core::Minus(place, a, b) => two(alloc, *place, TwoForm::Minus, a, b),
        _ => arranged_other(alloc, core),
    }
}

/// Other forms. An Assert stays as it is.
#[cycle(arrange)]
fn arranged_other<'m>(alloc: Global, core: &'m Core) -> Result<Code<'m>, AllocError>
    ensures { IfOk result (λ c. StandsFor core.now c) }
{
    match core {
        Core::If(place, a, b, c) => three(alloc, *place, ThreeForm::If, a, b, c),
        Core::SubSeq(place, a, b, c) => three(alloc, *place, ThreeForm::SubSeq, a, b, c),
        Core::Enumerated(place, parts) => list(alloc, *place, ListForm::Enumerated, parts),
        Core::Tuple(place, parts) => list(alloc, *place, ListForm::Tuple, parts),
        Core::Conjunction(place, parts) => list(alloc, *place, ListForm::Conjunction, parts),
        Core::Disjunction(place, parts) => list(alloc, *place, ListForm::Disjunction, parts),
        Core::Product(place, parts) => list(alloc, *place, ListForm::Product, parts),
        Core::Cases(place, arms, other) => match other {
            None => cases(alloc, *place, arms, None),
            Some(body) => cases(alloc, *place, arms, Some(body)),
        },
        Core::Record(place, fields) => named(alloc, *place, FieldForm::Record, fields),
        Core::Records(place, fields) => named(alloc, *place, FieldForm::Records, fields),
        Core::ForAll(place, set, body) => binder(alloc, *place, BinderForm::ForAll, set, body),
        Core::ForSome(place, set, body) => binder(alloc, *place, BinderForm::ForSome, set, body),
        Core::Choose(place, set, body) => binder(alloc, *place, BinderForm::Choose, set, body),
        Core::Filter(place, set, body) => binder(alloc, *place, BinderForm::Filter, set, body),
        Core::Image(place, sets, body) => mapped(alloc, *place, MapForm::Image, sets, body),
        Core::Function(place, sets, body) => mapped(alloc, *place, MapForm::Function, sets, body),
        Core::Except(place, base, updates) => updated(alloc, *place, updates, base),
        Core::Destructure(place, openings, body) => with_items(alloc, *place, openings, body),
        Core::Bound(place, index) => Ok(Code::Bound(*place, *index)),
        _ => Ok(Code::Plain(core)),
    }
}

#[cycle(arrange)]
fn operand<'m>(alloc: Global, core: &'m Core) -> Result<Box<Code<'m>>, AllocError>
    ensures { IfOk result (λ c. StandsFor core.now c.value) }
{
    Ok(Box::new(alloc, arranged(alloc, core)?)?)
}

#[cycle(arrange)]
fn one<'m>(
    alloc: Global,
    place: Place,
    form: OneForm<'m>,
    a: &'m Core,
) -> Result<Code<'m>, AllocError>
    ensures { IfOk result (λ c.
        (scope : Scope) → expr_in scope c ≡ one_expr form.entry place (expr_of a.now)) }
{
    let a = operand(alloc, a)?;
    Ok(Code::One(place, form, a))
}

#[cycle(arrange)]
fn two<'m>(
    alloc: Global,
    place: Place,
    form: TwoForm,
    a: &'m Core,
    b: &'m Core,
) -> Result<Code<'m>, AllocError>
    ensures { IfOk result (λ c.
        (scope : Scope) → expr_in scope c ≡ two_expr form place (expr_of a.now) (expr_of b.now)) }
{
    let a = operand(alloc, a)?;
    let b = operand(alloc, b)?;
    Ok(Code::Two(place, form, a, b))
}

#[cycle(arrange)]
fn three<'m>(
    alloc: Global,
    place: Place,
    form: ThreeForm,
    a: &'m Core,
    b: &'m Core,
    c: &'m Core,
) -> Result<Code<'m>, AllocError>
    ensures { IfOk result (λ x.
        (scope : Scope)
        → expr_in scope x
        ≡ three_expr form place (expr_of a.now) (expr_of b.now) (expr_of c.now)) }
{
    let a = operand(alloc, a)?;
    let b = operand(alloc, b)?;
    let c = operand(alloc, c)?;
    Ok(Code::Three(place, form, a, b, c))
}

#[cycle(arrange)]
fn list<'m>(
    alloc: Global,
    place: Place,
    form: ListForm,
    parts: &'m [Core],
) -> Result<Code<'m>, AllocError>
    ensures { IfOk result (λ c.
        (scope : Scope) → expr_in scope c ≡ list_expr form place (exprs_of_cores parts.now)) }
{
    let parts = arranged_all(alloc, parts)?;
    Ok(Code::List(place, form, parts))
}

#[cycle(arrange)]
fn cases<'m>(
    alloc: Global,
    place: Place,
    arms: &'m [(Core, Core)],
    other: Option<&'m Core>,
) -> Result<Code<'m>, AllocError>
    ensures { IfOk result (λ c.
        (scope : Scope)
        → expr_in scope c ≡ cases place (arms_of_list arms.now (arm_of_other other.entry))) }
{
    let mut parts = arranged_arms(alloc, arms)?;
    match other {
        Some(body) => {
            parts.push(arranged(alloc, body)?)?;
            Ok(Code::List(place, ListForm::Cases, parts))
        }
        None => Ok(Code::List(place, ListForm::Cases, parts)),
    }
}

#[cycle(arrange)]
fn named<'m>(
    alloc: Global,
    place: Place,
    form: FieldForm,
    fields: &'m [(Text, Core)],
) -> Result<Code<'m>, AllocError>
    ensures { IfOk result (λ c.
        (scope : Scope) → expr_in scope c ≡ field_expr form place (fields_of_list fields.now)) }
{
    let fields = arranged_fields(alloc, fields)?;
    Ok(Code::Fields(place, form, fields))
}

#[cycle(arrange)]
fn binder<'m>(
    alloc: Global,
    place: Place,
    form: BinderForm,
    set: &'m Core,
    body: &'m Core,
) -> Result<Code<'m>, AllocError>
    ensures { IfOk result (λ c.
        (scope : Scope)
        → expr_in scope c ≡ binder_expr form place (expr_of set.now) (expr_of body.now)) }
{
    let set = operand(alloc, set)?;
    let body = operand(alloc, body)?;
    Ok(Code::Binder(place, form, set, body))
}

#[cycle(arrange)]
fn mapped<'m>(
    alloc: Global,
    place: Place,
    form: MapForm,
    sets: &'m [Core],
    body: &'m Core,
) -> Result<Code<'m>, AllocError>
    ensures { IfOk result (λ c.
        (scope : Scope)
        → expr_in scope c ≡ map_expr form place (exprs_of_cores sets.now) (expr_of body.now)) }
{
    let sets = arranged_all(alloc, sets)?;
    let body = operand(alloc, body)?;
    Ok(Code::Map(place, form, sets, body))
}

#[cycle(arrange)]
fn updated<'m>(
    alloc: Global,
    place: Place,
    updates: &'m [(Vec<Core>, Core)],
    base: &'m Core,
) -> Result<Code<'m>, AllocError>
    ensures { IfOk result (λ c.
        (scope : Scope)
        → expr_in scope c ≡ except place (expr_of base.now) (updates_of_list updates.now)) }
{
    let base = operand(alloc, base)?;
    let updates = arranged_updates(alloc, updates)?;
    Ok(Code::Except(place, base, updates))
}

#[cycle(arrange)]
fn with_items<'m>(
    alloc: Global,
    place: Place,
    openings: &'m [Opening],
    body: &'m Core,
) -> Result<Code<'m>, AllocError>
    ensures { IfOk result (λ c.
        (scope : Scope) → expr_in scope c ≡ opened place openings.now (expr_of body.now)) }
{
    let body = operand(alloc, body)?;
    let openings = openings.to_vec(alloc)?;
    Ok(Code::Destructure(place, openings, body))
}

#[cycle(arrange)]
fn arranged_all<'m>(alloc: Global, parts: &'m [Core]) -> Result<Vec<Code<'m>>, AllocError>
    ensures { IfOk result (λ cs. AllZip StandsFor parts.now cs.items) }
{
    let mut codes = Vec::new(alloc);
    for part in parts {
        codes.push(arranged(alloc, part)?)?;
    }
    Ok(codes)
}

/// The codes of the conditions and values of arms, in turn.
#[cycle(arrange)]
fn arranged_arms<'m>(alloc: Global, arms: &'m [(Core, Core)]) -> Result<Vec<Code<'m>>, AllocError>
    ensures { IfOk result (λ cs. AllZip StandsFor (parts_of_arms arms.now) cs.items) }
{
    let mut codes = Vec::new(alloc);
    for arm in arms {
        codes.push(arranged(alloc, &arm.0)?)?;
        codes.push(arranged(alloc, &arm.1)?)?;
    }
    Ok(codes)
}

#[cycle(arrange)]
fn arranged_fields<'m>(
    alloc: Global,
    fields: &'m [(Text, Core)],
) -> Result<Vec<(&'m Text, Code<'m>)>, AllocError>
    ensures { IfOk result (λ fs. AllZip FieldStandsFor fields.now fs.items) }
{
    let mut codes = Vec::new(alloc);
    for field in fields {
        let code = arranged(alloc, &field.1)?;
        codes.push((&field.0, code))?;
    }
    Ok(codes)
}

#[cycle(arrange)]
fn arranged_updates<'m>(
    alloc: Global,
    updates: &'m [(Vec<Core>, Core)],
) -> Result<Vec<(Vec<Code<'m>>, Code<'m>)>, AllocError>
    ensures { IfOk result (λ us. AllZip UpdateStandsFor updates.now us.items) }
{
    let mut codes = Vec::new(alloc);
    for update in updates {
        let keys = arranged_all(alloc, update.0.as_slice())?;
        let value = arranged(alloc, &update.1)?;
        codes.push((keys, value))?;
    }
    Ok(codes)
}
