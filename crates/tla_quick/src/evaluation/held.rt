//! Values that can be borrowed.
ghost use Rattle.std.specs.Prelude.{◌≡◌, Ok, IfSome};
ghost use Rattle.tla_value.specs.TreeOf.{tree_of};
ghost use Rattle.tla_core.specs.ExprOf.{expr_of};
ghost use Rattle.tla_code.specs.Forms.{one_expr, two_expr};
ghost use Rattle.tla_quick.specs.Private.Environment.{code_in, value_in};

use crate::environment::Environment;
use crate::leaves::{bound_value, held_leaf, used_value};
use crate::made::{held_at, held_field};
use std::alloc::Global;
use tla_code::{Code, OneForm, TwoForm};
use tla_core::Place;
use tla_value::Value;

/// Borrows the value of a bound name, a variable, a constant or a definition whose value is known, or of `f[e]` or
/// `r.a` for such values. `None`: it has to be evaluated instead.
#[cycle(held)]
pub(crate) fn held<'m: 'a, 'a>(
    alloc: Global,
    code: &'a Code<'m>,
    env: &Environment<'m, 'a>,
) -> Option<&'a Value>
    ensures { IfSome result (λ v.
        value_in env.entry.now (code_in env.entry.now code.now) ≡ Ok (tree_of v.now)) }
{
    match code {
        Code::Bound(_, index) => bound_value(*index, env).ok(),
        Code::Plain(core) => held_leaf(core, env),
        Code::Use(_, number, by) => match used_value(*number, *by, env) {
            Ok(value) => Some(value),
            Err(_) => None,
        },
        Code::One(place, form, operand) => held_of_one(alloc, place, *form, operand, env),
        Code::Two(place, form, left, right) => held_of_two(alloc, place, *form, left, right, env),
        _ => None,
    }
}

/// The value of a record's field.
#[cycle(held)]
fn held_of_one<'m: 'a, 'a>(
    alloc: Global,
    place: &'a Place,
    form: OneForm<'m>,
    operand: &'a Code<'m>,
    env: &Environment<'m, 'a>,
) -> Option<&'a Value>
    ensures { IfSome result (λ v.
        value_in env.entry.now (one_expr form.entry place.now (code_in env.entry.now operand.now))
        ≡ Ok (tree_of v.now)) }
{
    match form {
        OneForm::Field(name) => held_field(alloc, place, name, held(alloc, operand, env)?),
        _ => None,
    }
}

/// The value of a function at an argument.
#[cycle(held)]
fn held_of_two<'m: 'a, 'a>(
    alloc: Global,
    place: &'a Place,
    form: TwoForm,
    left: &'a Code<'m>,
    right: &'a Code<'m>,
    env: &Environment<'m, 'a>,
) -> Option<&'a Value>
    ensures { IfSome result (λ v.
        value_in env.entry.now
        (two_expr form place.now (code_in env.entry.now left.now) (code_in env.entry.now right.now))
        ≡ Ok (tree_of v.now)) }
{
    match form {
        TwoForm::Apply => {
            let function = held(alloc, left, env)?;
            let argument = held(alloc, right, env)?;
            held_at(alloc, place, function, argument)
        }
        _ => None,
    }
}
