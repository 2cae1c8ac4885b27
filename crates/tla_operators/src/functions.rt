//! Functions and records.
ghost use Rattle.std.specs.Prelude.{◌≡◌, List, option_map, IfOk, IfErr};
ghost use Rattle.tla_value.specs.Tree.{Tree, text};
ghost use Rattle.tla_value.specs.TreeOf.{tree_of};
ghost use Rattle.tla_value.specs.Funs.{MakesFun, value_at};
ghost use Rattle.tla_core.specs.Fault.{out_of_memory};
ghost use Rattle.tla_core.specs.Expr.{Apply, Domain, Field, Single, Override};
ghost use Rattle.tla_core.specs.Kinds.{as_fun, pairs_of, rising_fun};
ghost use Rattle.tla_core.specs.Operators.{unary_rule, binary_rule};
ghost use Rattle.tla_operators.specs.Evaluated.{Evaluates, tree_of_evaluated};
ghost use Rattle.tla_operators.specs.Gives.{Gives, GivesBy, GivesBorrowed};

use crate::evaluated::Evaluated;
use crate::fault_ref::{FaultRef, fault_at, memory};
use crate::rules::{copied, copied_text};
use crate::sets::refused;
use std::alloc::Global;
use tla_core::{FaultCode, Place};
use tla_value::{FunValue, Text, Value, ValueError};

/// The function as a value, or the fault for the limit that it would exceed.
#[tactic(auto, using(crate::proofs::Made::fun_made, crate::proofs::Made::fun_refused))]
pub fn made_fun(place: &Place, made: Result<FunValue, ValueError>) -> Result<Value, FaultRef<'_>>
    ensures { (ps : List (Tree × Tree))
        → MakesFun ps made
        → Gives result (rising_fun place.now ps) }
{
    match made {
        Ok(fun) => Ok(Value::Fun(fun)),
        Err(error) => Err(refused(place, error)),
    }
}

/// A value as a function, copied if it is borrowed; another value is a fault.
pub fn into_function<'p>(
    alloc: Global,
    place: &'p Place,
    value: Evaluated<'_>,
) -> Result<FunValue, FaultRef<'p>>
    ensures { GivesBy (λ f. f) result (as_fun place.now (tree_of_evaluated value.entry)) }
{
    match value {
        Evaluated::Borrowed(value) => copied_function(alloc, place, value),
        Evaluated::Owned(value) => owned_function(place, value),
    }
}

/// A copy of a value as a function; another value is a fault.
#[tactic(auto, using(crate::proofs::Known::as_fun_known))]
fn copied_function<'p>(
    alloc: Global,
    place: &'p Place,
    value: &Value,
) -> Result<FunValue, FaultRef<'p>>
    ensures { GivesBy (λ f. f) result (as_fun place.now (tree_of value.now)) }
{
    match value {
        Value::Fun(fun) => match fun.copy(alloc) {
            Ok(fun) => Ok(fun),
            Err(_) => Err(memory()),
        },
        _ => Err(fault_at(FaultCode::WrongKind, place)),
    }
}

/// A value as a function; another value is a fault.
#[tactic(auto, using(crate::proofs::Known::as_fun_known))]
fn owned_function(place: &Place, value: Value) -> Result<FunValue, FaultRef<'_>>
    ensures { GivesBy (λ f. f) result (as_fun place.now (tree_of value)) }
{
    match value {
        Value::Fun(fun) => Ok(fun),
        _ => Err(fault_at(FaultCode::WrongKind, place)),
    }
}

/// A value as a function, if it is one.
#[tactic(auto, using(crate::proofs::Known::pairs_known))]
pub fn if_function<'a>(value: &'a Value) -> Option<&'a FunValue>
    ensures { option_map (λ f. f.now) result ≡ pairs_of (tree_of value.now) }
{
    match value {
        Value::Fun(fun) => Some(fun),
        _ => None,
    }
}

/// The value of a function at an argument: `f[e]`.
pub fn apply<'p, 'a>(
    alloc: Global,
    place: &'p Place,
    function: Evaluated<'a>,
    argument: &Value,
) -> Result<Evaluated<'a>, FaultRef<'p>>
    ensures { Evaluates result
        (binary_rule Apply place.now (tree_of_evaluated function.entry) (tree_of argument.now)) }
{
    match function {
        Evaluated::Borrowed(function) => Ok(Evaluated::Borrowed(value_at(
            place, function, argument,
        )?)),
        Evaluated::Owned(function) => {
            let value = value_at(place, &function, argument)?;
            Ok(Evaluated::Owned(copied(alloc, value)?))
        }
    }
}

/// The value of a function at an argument, borrowed.
#[tactic(auto, using(crate::proofs::Known::as_fun_known))]
fn value_at<'p, 'a>(
    place: &'p Place,
    function: &'a Value,
    argument: &Value,
) -> Result<&'a Value, FaultRef<'p>>
    ensures { GivesBorrowed result
        (binary_rule Apply place.now (tree_of function.now) (tree_of argument.now)) }
{
    match function {
        Value::Fun(fun) => match fun.apply(argument) {
            Some(value) => Ok(value),
            None => Err(fault_at(FaultCode::OutsideDomain, place)),
        },
        _ => Err(fault_at(FaultCode::WrongKind, place)),
    }
}

/// The value of a record's field: `r.a`.
pub fn field<'p, 'a>(
    alloc: Global,
    place: &'p Place,
    name: &Text,
    base: Evaluated<'a>,
) -> Result<Evaluated<'a>, FaultRef<'p>>
    ensures { Evaluates result
        (unary_rule (Field name.now) place.now (tree_of_evaluated base.entry)) }
{
    match base {
        Evaluated::Borrowed(base) => Ok(Evaluated::Borrowed(field_at(alloc, place, name, base)?)),
        Evaluated::Owned(base) => {
            let value = field_at(alloc, place, name, &base)?;
            Ok(Evaluated::Owned(copied(alloc, value)?))
        }
    }
}

/// The value of a record's field, borrowed.
#[tactic(auto, using(crate::proofs::Known::as_fun_known))]
fn field_at<'p, 'a>(
    alloc: Global,
    place: &'p Place,
    name: &Text,
    base: &'a Value,
) -> Result<&'a Value, FaultRef<'p>>
    ensures { GivesBorrowed result (unary_rule (Field name.now) place.now (tree_of base.now)) }
{
    match base {
        Value::Fun(fun) => match found_field(alloc, name, fun)? {
            Some(value) => Ok(value),
            None => Err(fault_at(FaultCode::NoField, place)),
        },
        _ => Err(fault_at(FaultCode::WrongKind, place)),
    }
}

/// The most fields for which a linear search is used.
const FEW: usize = 16;

/// The value of a function at a string, if that is in the domain.
fn found_field<'p, 'a>(
    alloc: Global,
    name: &Text,
    fun: &'a FunValue,
) -> Result<Option<&'a Value>, FaultRef<'p>>
    ensures ok { IfOk result (λ v.
        option_map (λ t. tree_of t.now) v ≡ value_at (text name.now) fun.now) }
    ensures err { IfErr result (λ f. f ≡ out_of_memory) }
{
    if fun.len() <= FEW {
        return Ok(fun.field(name));
    }
    let name = Value::Text(copied_text(alloc, name)?);
    Ok(fun.apply(&name))
}

/// `DOMAIN`.
#[tactic(auto, using(crate::proofs::Known::as_fun_known))]
pub(crate) fn domain<'p>(
    alloc: Global,
    place: &'p Place,
    function: &Value,
) -> Result<Value, FaultRef<'p>>
    ensures { Gives result (unary_rule Domain place.now (tree_of function.now)) }
{
    match function {
        Value::Fun(fun) => match fun.domain(alloc) {
            Ok(domain) => Ok(Value::Set(domain)),
            Err(_) => Err(memory()),
        },
        _ => Err(fault_at(FaultCode::WrongKind, place)),
    }
}

/// `:>`.
pub(crate) fn single<'p>(
    alloc: Global,
    place: &'p Place,
    argument: &Value,
    value: &Value,
) -> Result<Value, FaultRef<'p>>
    ensures { Gives result
        (binary_rule Single place.now (tree_of argument.now) (tree_of value.now)) }
{
    let pair = (copied(alloc, argument)?, copied(alloc, value)?);
    made_fun(
        place,
        FunValue::from_pairs(alloc, Vec::from_array(alloc, [pair])?),
    )
}

/// `@@`.
pub(crate) fn override_with<'p>(
    alloc: Global,
    place: &'p Place,
    left: &Value,
    right: &Value,
) -> Result<Value, FaultRef<'p>>
    ensures { Gives result (binary_rule Override place.now (tree_of left.now) (tree_of right.now)) }
{
    match (left, right) {
        (Value::Fun(left), Value::Fun(right)) => made_fun(place, left.override_with(alloc, right)),
        (_, _) => Err(fault_at(FaultCode::WrongKind, place)),
    }
}
