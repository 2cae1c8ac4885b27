//! Forms with a list of operands.
ghost use Rattle.std.specs.Prelude.{◌≡◌, ◌<◌, length, map, slice_index_or, IfOk};
ghost use Rattle.tla_value.specs.Tree.{Tree};
ghost use Rattle.tla_value.specs.TreeOf.{tree_of};
ghost use Rattle.tla_core.specs.declared.fault.Place.{Place as AnyPlace};
ghost use Rattle.tla_core.specs.Expr.{cases};
ghost use Rattle.tla_core.specs.Lists.{each};
ghost use Rattle.tla_core.specs.Meaning.{Meaning};
ghost use Rattle.tla_core.specs.Value.{mean_all};
ghost use Rattle.tla_code.specs.Forms.{list_expr, arms_in};
ghost use Rattle.tla_code.specs.Private.Listed.{exprs_of_codes};
ghost use Rattle.tla_operators.specs.Evaluated.{tree_of_evaluated};
ghost use Rattle.tla_quick.specs.Private.Answers.{Answers};
ghost use Rattle.tla_quick.specs.Private.Environment.{bound_in, code_in, has_in, present_in, next_in, scope_in, value_in};

use crate::environment::Environment;
use crate::evaluation::logic::truth_of_list;
use crate::evaluation::{truth, value};
use crate::made::{made_of_list, made_product, owned};
use crate::stop::Stop;
use std::alloc::Global;
use tla_code::{Code, ListForm};
use tla_core::Place;
use tla_operators::evaluated::Evaluated;
use tla_value::Value;

/// The value of a form with a list of operands.
#[cycle(evaluate)]
#[inline(never)]
pub(super) fn value_of_list<'m: 'a, 'a>(
    alloc: Global,
    place: &'a Place,
    form: ListForm,
    parts: &'a [Code<'m>],
    env: &Environment<'m, 'a>,
) -> Result<Evaluated<'a>, Stop>
    ensures { Answers tree_of_evaluated result
        (value_in env.entry.now
        (list_expr form place.now (exprs_of_codes (scope_in env.entry.now) parts.now))) }
{
    match form {
        ListForm::Conjunction | ListForm::Disjunction => Ok(Evaluated::truth(truth_of_list(
            alloc, form, parts, env,
        )?)),
        ListForm::Enumerated | ListForm::Tuple => {
            let values = values_of(alloc, parts, env)?;
            Ok(Evaluated::Owned(made_of_list(alloc, place, form, values)?))
        }
        ListForm::Product => {
            let sets = evaluated_each(alloc, parts, env)?;
            Ok(Evaluated::Owned(made_product(alloc, place, sets.as_slice())?))
        }
        ListForm::Cases => {
            let index = taken_part(alloc, parts, env)?;
            value(alloc, &parts[index], env)
        }
    }
}

/// The number of the part that a CASE takes: the value of the first arm whose condition is TRUE, or else that of OTHER.
#[cycle(evaluate)]
pub(super) fn taken_part<'m: 'a, 'a>(
    alloc: Global,
    parts: &'a [Code<'m>],
    env: &Environment<'m, 'a>,
) -> Result<usize, Stop>
    ensures within { IfOk result (λ i. i < length parts.now) }
    ensures value { (p : AnyPlace) (d : Code)
        → IfOk result (λ i.
        value_in env.entry.now
        (cases p (arms_in (exprs_of_codes (scope_in env.entry.now) parts.now)))
        ≡ value_in env.entry.now (code_in env.entry.now (slice_index_or parts.now i d))) }
    ensures members { (p : AnyPlace) (d : Code) (v : Tree)
        → IfOk result (λ i.
        has_in env.entry.now v
        (cases p (arms_in (exprs_of_codes (scope_in env.entry.now) parts.now)))
        ≡ has_in env.entry.now v (code_in env.entry.now (slice_index_or parts.now i d))) }
{
    let arms = parts.len() / 2;
    for arm in 0..arms {
        let condition = &parts[2 * arm];
        if truth(alloc, condition, env)? {
            return Ok(2 * arm + 1);
        }
    }
    if 2 * arms < parts.len() {
        Ok(2 * arms)
    } else {
        Err(Stop::GaveUp)
    }
}

/// The values of some codes, from left to right.
#[cycle(evaluate)]
fn values_of<'m: 'a, 'a>(
    alloc: Global,
    codes: &'a [Code<'m>],
    env: &Environment<'m, 'a>,
) -> Result<Vec<Value>, Stop>
    ensures { Answers (λ v. map tree_of v.items) result
        (each (λ (m : Meaning).
        m.value (bound_in env.entry.now) (present_in env.entry.now) (next_in env.entry.now))
        (mean_all (exprs_of_codes (scope_in env.entry.now) codes.now))) }
{
    let mut values = Vec::with_capacity(alloc, codes.len())?;
    for code in codes {
        values.push(owned(alloc, value(alloc, code, env)?)?)?;
    }
    Ok(values)
}

/// The values of some codes, from left to right, borrowed if possible.
#[cycle(evaluate)]
pub(super) fn evaluated_each<'m: 'a, 'a>(
    alloc: Global,
    codes: &'a [Code<'m>],
    env: &Environment<'m, 'a>,
) -> Result<Vec<Evaluated<'a>>, Stop>
    ensures { Answers (λ v. map tree_of_evaluated v.items) result
        (each (λ (m : Meaning).
        m.value (bound_in env.entry.now) (present_in env.entry.now) (next_in env.entry.now))
        (mean_all (exprs_of_codes (scope_in env.entry.now) codes.now))) }
{
    let mut values = Vec::with_capacity(alloc, codes.len())?;
    for code in codes {
        values.push(value(alloc, code, env)?)?;
    }
    Ok(values)
}
