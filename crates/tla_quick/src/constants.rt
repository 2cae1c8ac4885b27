//! Closed parts of an expression are evaluated once, without a state.
ghost use Rattle.std.specs.Prelude.{◌≡◌, [], None, Ok, IfNone, IfOk, IfSome};
ghost use Rattle.tla_value.specs.TreeOf.{tree_of};
ghost use Rattle.tla_core.specs.ExprOf.{expr_of};
ghost use Rattle.tla_core.specs.Value.{val};
ghost use Rattle.tla_code.specs.CodeExpr.{Scope, code_expr, expr_in};
ghost use Rattle.tla_code.specs.NoVariables.{IsClosed};
ghost use Rattle.tla_sharing.specs.Outside.{HasNames};
ghost use Rattle.tla_quick.specs.Private.Lasting.{IsLasting};
ghost use Rattle.tla_quick.specs.Private.Kept.{scope_with, prepared_expr};

use crate::constant::Constant;
use crate::environment::Environment;
use crate::evaluation::value;
use crate::frame::Frame;
use crate::made::owned;
use crate::prepared::Prepared;
use std::alloc::{AllocError, Global};
use tla_code::{Code, code_of};
use tla_core::Core;
use tla_eval::Partial;
use tla_sharing::{constant_in, shared, with_constant};
use tla_value::Value;

/// The greatest number of closed parts that are stored with an expression.
const MAX_CONSTANTS: usize = 16;

/// A set or a function with more members or pairs isn't stored.
const MAX_PARTS: usize = 100_000;

/// An expression under `names` bound names, prepared.
pub(crate) fn prepare_core<'m>(
    alloc: Global,
    core: &'m Core,
    names: usize,
) -> Result<Prepared<'m>, AllocError>
    ensures { IfOk result (λ p. prepared_expr p ≡ expr_of core.now) }
{
    let code = code_of(alloc, core)?;
    Ok(prepare_code(alloc, code, names))
}

/// A code under `names` bound names, with closed parts and definitions if some are found.
pub(crate) fn prepare_code<'m>(alloc: Global, code: Code<'m>, names: usize) -> Prepared<'m>
    ensures { prepared_expr result ≡ code_expr code.entry }
{
    let kept = with_constants(alloc, code, names);
    with_definitions(alloc, kept, names)
}

/// Whether the sharing pass puts a definition around the whole code.
pub(crate) fn is_shared(alloc: Global, code: &Code<'_>, names: usize) -> bool {
    matches!(shared(alloc, code, names, &[]), Some(Code::Let(_, _, _, _)))
}

/// A code in which closed parts are replaced by uses of their values. It stops at the first closed part that has no
/// value, or too large a one.
fn with_constants<'m>(alloc: Global, code: Code<'m>, names: usize) -> Prepared<'m>
    ensures { prepared_expr result ≡ code_expr code.entry }
{
    let mut constants: Vec<Constant<'m>> = Vec::new(alloc);
    let mut rest = code;
    for _ in 0..MAX_CONSTANTS {
        match extract_constant(alloc, &mut constants, &rest, names) {
            Some(next) => rest = next,
            None => {
                return Prepared {
                    constants,
                    code: rest,
                };
            }
        }
    }
    Prepared {
        constants,
        code: rest,
    }
}

/// The code with uses of one more closed part, which is added to `constants`.
fn extract_constant<'m>(
    alloc: Global,
    constants: &mut Vec<Constant<'m>>,
    code: &Code<'m>,
    names: usize,
) -> Option<Code<'m>>
    ensures more { IfSome result (λ c.
        expr_in (scope_with constants.new.items) c
        ≡ expr_in (scope_with constants.old.items) code.now) }
    ensures none { IfNone result (constants.new.items ≡ constants.old.items) }
{
    let constant = next_constant(alloc, code, names)?;
    let outside = outside_of(alloc, constants.as_slice())?;
    let next = with_constant(alloc, code, &constant.code, names, outside.as_slice())?;
    match constants.push(constant) {
        Ok(()) => Some(next),
        Err(_) => None,
    }
}

/// The largest closed part with its value, if it has one that isn't too large.
fn next_constant<'m>(alloc: Global, code: &Code<'m>, names: usize) -> Option<Constant<'m>>
    ensures { IfSome result (λ k. IsClosed k.code) }
{
    let found = constant_in(alloc, code, names)?;
    let value = constant_value(alloc, &found)?;
    if is_large(&value) {
        return None;
    }
    Some(Constant { code: found, value })
}

/// Whether a value is too large to be stored with each expression that contains it.
fn is_large(value: &Value) -> bool {
    match value {
        Value::Set(set) => set.len() > MAX_PARTS,
        Value::Fun(function) => function.len() > MAX_PARTS,
        _ => false,
    }
}

/// The value of a closed code.
fn constant_value<'m>(alloc: Global, code: &Code<'m>) -> Option<Value>
    requires { IsClosed code.now }
    ensures { IfSome result (λ v. IsLasting code.now v) }
{
    match shared(alloc, code, 0, &[]) {
        Some(code) => value_alone(alloc, &code),
        None => value_alone(alloc, code),
    }
}

/// The value of a code under no names, without a state.
fn value_alone<'m>(alloc: Global, code: &Code<'m>) -> Option<Value>
    ensures { IfSome result (λ v. val (code_expr code.now) [] None [] ≡ Ok (tree_of v)) }
{
    let partial = Partial::unset(alloc, 0).ok()?;
    let constants: Vec<Constant<'m>> = Vec::new(alloc);
    let frame = Frame::Outer(&constants);
    let environment = Environment {
        frame: &frame,
        now: None,
        next: &partial,
        names: 0,
        definitions: 0,
    };
    match value(alloc, &*code, &environment) {
        Ok(value) => owned(alloc, value).ok(),
        Err(_) => None,
    }
}

/// The number of names bound outside each closed part: zero.
fn outside_of(alloc: Global, constants: &[Constant<'_>]) -> Option<Vec<usize>>
    ensures { IfSome result (λ v. HasNames (scope_with constants.now) v.items) }
{
    vec![in alloc; 0usize; constants.len()].ok()
}

/// The same expression, with definitions if the sharing pass finds any.
fn with_definitions<'m>(alloc: Global, kept: Prepared<'m>, names: usize) -> Prepared<'m>
    ensures { prepared_expr result ≡ prepared_expr kept.entry }
{
    match shared_code(alloc, &kept, names) {
        Some(code) => Prepared {
            constants: kept.constants,
            code,
        },
        None => kept,
    }
}

/// The code with definitions, if the sharing pass finds any.
fn shared_code<'m>(alloc: Global, kept: &Prepared<'m>, names: usize) -> Option<Code<'m>>
    ensures { IfSome result (λ c.
        expr_in (scope_with kept.now.constants.items) c ≡ prepared_expr kept.now) }
{
    let outside = outside_of(alloc, kept.constants.as_slice())?;
    shared(alloc, &kept.code, names, outside.as_slice())
}
