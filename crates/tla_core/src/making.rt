//! Builds nodes, as literals if the values of all their parts are known.
ghost use Rattle.std.specs.Prelude.{◌≡◌, IfSome, IfOk, Ok, List, true, map};
ghost use Rattle.std.specs.List.{AllZip, AllByRecursion};
ghost use Rattle.tla_value.specs.Tree.{Tree, text};
ghost use Rattle.tla_value.specs.TreeOf.{tree_of};
ghost use Rattle.tla_value.specs.Sets.{MakesSet};
ghost use Rattle.tla_value.specs.Funs.{MakesFun};
ghost use Rattle.tla_core.specs.declared.fault.Place.{Place};
ghost use Rattle.tla_core.specs.Kinds.{rising_set, rising_fun};
ghost use Rattle.tla_core.specs.Meaning.{means-enumerated, means-tuple, means-record_of};
ghost use Rattle.tla_core.specs.ExprOf.{expr_of, parts_of_cores, fields_of_cores};
ghost use Rattle.tla_core.specs.FixedOf.{fixed_of};
ghost use Rattle.tla_core.specs.Always.{IsAlways};
ghost use Rattle.tla_core.specs.Private.Known.{is_known, IsKnown, IsKnownField, HasValue, HasField, named_core, named_fixed};

use crate::expression::Core;
use crate::fault::Place;
use crate::fixed::Fixed;
use crate::literal::Literal;
use std::alloc::{AllocError, Global};
use tla_value::{FunValue, SetValue, Text, Value, ValueError};

/// The value of an expression, if it is known.
fn known_value(core: &Core) -> Option<&Value>
    ensures { IfSome result (λ v. HasValue core.now v.now) }
{
    match core {
        Core::Constant(_, value) => Some(value),
        Core::Literal(literal) => Some(literal.value()),
        _ => None,
    }
}

fn copied(alloc: Global, value: &Value) -> Result<Value, AllocError>
    ensures { IfOk result (λ v. v ≡ value.now) }
{
    match value.copy(alloc) {
        Ok(value) => Ok(value),
        Err(_) => Err(AllocError),
    }
}

/// A name as a value.
fn copied_name(alloc: Global, name: &Text) -> Result<Value, AllocError>
    ensures { IfOk result (λ v. tree_of v ≡ text name.now) }
{
    match name.copy(alloc) {
        Ok(name) => Ok(Value::Text(name)),
        Err(_) => Err(AllocError),
    }
}

/// The values of some parts, if all are known.
fn known_values(alloc: Global, parts: &[Core]) -> Result<Option<Vec<Value>>, AllocError>
    ensures { IfOk result (λ o. IfSome o (λ v. AllZip HasValue parts.now v.items)) }
{
    let mut values = Vec::new(alloc);
    for part in parts {
        let Some(value) = known_value(part) else {
            return Ok(None);
        };
        values.push(copied(alloc, value)?)?;
    }
    Ok(Some(values))
}

/// The names and values of some fields, if all values are known.
fn known_fields(
    alloc: Global,
    fields: &[(Text, Core)],
) -> Result<Option<Vec<(Value, Value)>>, AllocError>
    ensures { IfOk result (λ o. IfSome o (λ v. AllZip HasField fields.now v.items)) }
{
    let mut pairs = Vec::new(alloc);
    for field in fields {
        let Some(value) = known_value(&field.1) else {
            return Ok(None);
        };
        let name = copied_name(alloc, &field.0)?;
        pairs.push((name, copied(alloc, value)?))?;
    }
    Ok(Some(pairs))
}

/// The set, or none if it exceeds a limit.
fn set_within(made: Result<SetValue, ValueError>) -> Result<Option<Value>, AllocError>
    ensures { (ts : List Tree)
        → MakesSet ts made
        → IfOk result (λ o. IfSome o (λ v. (p : Place) → rising_set p ts ≡ Ok (tree_of v))) }
{
    match made {
        Ok(set) => Ok(Some(Value::Set(set))),
        Err(ValueError::Memory) => Err(AllocError),
        Err(_) => Ok(None),
    }
}

/// The function, or none if it exceeds a limit.
fn fun_within(made: Result<FunValue, ValueError>) -> Result<Option<Value>, AllocError>
    ensures { (ps : List (Tree × Tree))
        → MakesFun ps made
        → IfOk result (λ o. IfSome o (λ v. (p : Place) → rising_fun p ps ≡ Ok (tree_of v))) }
{
    match made {
        Ok(fun) => Ok(Some(Value::Fun(fun))),
        Err(ValueError::Memory) => Err(AllocError),
        Err(_) => Ok(None),
    }
}

/// The set of some parts, if it is known.
fn known_set(alloc: Global, parts: &[Core]) -> Result<Option<Value>, AllocError>
    ensures known { IfOk result (λ o. IfSome o (λ _. AllByRecursion IsKnown parts.now)) }
    ensures value { IfOk result (λ o.
        IfSome o (λ v.
        (p : Place) → IsAlways (means-enumerated p (parts_of_cores parts.now)) (tree_of v))) }
{
    match known_values(alloc, parts)? {
        Some(values) => set_within(SetValue::from_values(alloc, values)),
        None => Ok(None),
    }
}

/// The sequence of some parts, if it is known.
fn known_tuple(alloc: Global, parts: &[Core]) -> Result<Option<Value>, AllocError>
    ensures known { IfOk result (λ o. IfSome o (λ _. AllByRecursion IsKnown parts.now)) }
    ensures value { IfOk result (λ o.
        IfSome o (λ v.
        (p : Place) → IsAlways (means-tuple p (parts_of_cores parts.now)) (tree_of v))) }
{
    match known_values(alloc, parts)? {
        Some(values) => fun_within(FunValue::sequence(alloc, values)),
        None => Ok(None),
    }
}

/// The record of some fields, if it is known.
fn known_record(alloc: Global, fields: &[(Text, Core)]) -> Result<Option<Value>, AllocError>
    ensures known { IfOk result (λ o. IfSome o (λ _. AllByRecursion IsKnownField fields.now)) }
    ensures value { IfOk result (λ o.
        IfSome o (λ v.
        (p : Place) → IsAlways (means-record_of p (fields_of_cores fields.now)) (tree_of v))) }
{
    match known_fields(alloc, fields)? {
        Some(pairs) => fun_within(FunValue::from_pairs(alloc, pairs)),
        None => Ok(None),
    }
}

/// An expression whose value is known, as a tree of constants.
fn fixed_part(core: Core) -> Fixed
    requires { is_known core ≡ true }
    ensures { fixed_of result ≡ expr_of core }
{
    match core {
        Core::Constant(place, value) => Fixed::Constant(place, value),
        Core::Literal(literal) => literal.into_tree(),
        _ => unreachable!(),
    }
}

/// The trees of parts whose values are known. The only error is that memory ran out.
fn fixed_parts(alloc: Global, parts: Vec<Core>) -> Result<Vec<Fixed>, AllocError>
    requires { AllByRecursion IsKnown parts.items }
    ensures { IfOk result (λ v. map fixed_of v.items ≡ map expr_of parts.items) }
{
    let mut trees = Vec::with_capacity(alloc, parts.len())?;
    for part in parts {
        trees.push(fixed_part(part))?;
    }
    Ok(trees)
}

/// The trees of fields whose values are known. The only error is that memory ran out.
fn fixed_fields(alloc: Global, fields: Vec<(Text, Core)>) -> Result<Vec<(Text, Fixed)>, AllocError>
    requires { AllByRecursion IsKnownField fields.items }
    ensures { IfOk result (λ v. map named_fixed v.items ≡ map named_core fields.items) }
{
    let mut trees = Vec::with_capacity(alloc, fields.len())?;
    for field in fields {
        trees.push((field.0, fixed_part(field.1)))?;
    }
    Ok(trees)
}

impl Core {
    /// `{e, ..}`: a literal if its value is known and within the limits. Fails only if memory ran out.
    pub fn set_of(alloc: Global, place: Place, parts: Vec<Core>) -> Result<Core, AllocError>
        ensures { IfOk result (λ c. expr_of c ≡ expr_of (Core.Enumerated place parts)) }
    {
        match known_set(alloc, parts.as_slice())? {
            Some(value) => {
                let tree = Fixed::Enumerated(place, fixed_parts(alloc, parts)?);
                Ok(Core::Literal(Literal::new(alloc, tree, value)?))
            }
            None => Ok(Core::Enumerated(place, parts)),
        }
    }

    /// `<<e, ..>>`: a literal if its value is known and within the limits. Fails only if memory ran out.
    pub fn tuple_of(alloc: Global, place: Place, parts: Vec<Core>) -> Result<Core, AllocError>
        ensures { IfOk result (λ c. expr_of c ≡ expr_of (Core.Tuple place parts)) }
    {
        match known_tuple(alloc, parts.as_slice())? {
            Some(value) => {
                let tree = Fixed::Tuple(place, fixed_parts(alloc, parts)?);
                Ok(Core::Literal(Literal::new(alloc, tree, value)?))
            }
            None => Ok(Core::Tuple(place, parts)),
        }
    }

    /// `[a |-> e, ..]`: a literal if its value is known and within the limits. Fails only if memory ran out.
    pub fn record_of(
        alloc: Global,
        place: Place,
        fields: Vec<(Text, Core)>,
    ) -> Result<Core, AllocError>
        ensures { IfOk result (λ c. expr_of c ≡ expr_of (Core.Record place fields)) }
    {
        match known_record(alloc, fields.as_slice())? {
            Some(value) => {
                let tree = Fixed::Record(place, fixed_fields(alloc, fields)?);
                Ok(Core::Literal(Literal::new(alloc, tree, value)?))
            }
            None => Ok(Core::Record(place, fields)),
        }
    }
}
