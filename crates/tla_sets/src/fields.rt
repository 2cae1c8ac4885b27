//! Fields, and sets of records.
ghost use Rattle.std.specs.Prelude.{◌≡◌, false, length, map, option_map, slice_get, Some, IfSome, IfNone};
ghost use Rattle.std.specs.List.{list_all};
ghost use Rattle.tla_value.specs.Tree.{text, set, trees};
ghost use Rattle.tla_value.specs.TreeOf.{tree_of};
ghost use Rattle.tla_value.specs.Order.{tree_eq};
ghost use Rattle.tla_value.specs.Funs.{arguments, value_at};
ghost use Rattle.tla_value.specs.Sets.{is_member, set_of};
ghost use Rattle.tla_value.specs.Choices.{keys_of, is_each_once};
ghost use Rattle.tla_core.specs.ExprOf.{fields_of_cores};
ghost use Rattle.tla_operators.specs.Evaluated.{tree_of_evaluated};
ghost use Rattle.tla_operators.specs.Gives.{Gives, GivesBy};
ghost use Rattle.tla_sets.specs.Fields.{named_sets, records_rule};

use std::alloc::Global;
use tla_core::{Core, FaultCode, Place};
use tla_operators::evaluated::Evaluated;
use tla_operators::fault_ref::{FaultRef, fault_at};
use tla_operators::rules::copied_text;
use tla_operators::sets::{copied_set, made_functions};
use tla_value::{Arguments, FunValue, SetValue, Text, Value};

/// `[a : S, ..]`: the records with these fields, each value a member of its field's set.
pub fn records_with<'p>(
    alloc: Global,
    place: &'p Place,
    fields: &[(Text, Core)],
    values: &[Evaluated<'_>],
) -> Result<Value, FaultRef<'p>>
    requires { length fields.now ≡ length values.now }
    ensures { Gives result
        (records_rule place.now (fields_of_cores fields.now) (map tree_of_evaluated values.now)) }
{
    let sets = named_sets(alloc, place, fields, values)?;
    if are_different(fields) {
        made_functions(place, SetValue::record_set(alloc, sets.as_slice()))
    } else {
        Err(fault_at(FaultCode::NoField, place))
    }
}

/// The names of some fields, each with its value as a set; another value is a fault.
fn named_sets<'p>(
    alloc: Global,
    place: &'p Place,
    fields: &[(Text, Core)],
    values: &[Evaluated<'_>],
) -> Result<Vec<(Text, SetValue)>, FaultRef<'p>>
    requires { length fields.now ≡ length values.now }
    ensures { GivesBy (λ v. v.items) result
        (named_sets place.now (fields_of_cores fields.now) (map tree_of_evaluated values.now)) }
{
    let mut sets = Vec::with_capacity(alloc, fields.len())?;
    for i in 0..fields.len() {
        let set = copied_set(alloc, place, values[i].value())?;
        sets.push((copied_text(alloc, &fields[i].0)?, set))?;
    }
    Ok(sets)
}

fn is_same_name(left: &Text, right: &Text) -> bool
    ensures { result ≡ tree_eq (text left.now) (text right.now) }
{
    left.as_str().cmp(&right.as_str()).is_eq()
}

fn is_name_of(name: &Text, fields: &[(Text, Core)]) -> bool
    ensures { result ≡ is_member (text name.now) (keys_of (fields_of_cores fields.now)) }
{
    for field in fields {
        if is_same_name(name, &field.0) {
            return true;
        }
    }
    false
}

/// Whether no name occurs twice.
fn are_different(fields: &[(Text, Core)]) -> bool
    ensures { result ≡ is_each_once (keys_of (fields_of_cores fields.now)) }
{
    for i in 0..fields.len() {
        if is_name_of(&fields[i].0, &fields[i + 1..]) {
            return false;
        }
    }
    true
}

fn is_name(argument: &Value, name: &Text) -> bool
    ensures { result ≡ tree_eq (text name.now) (tree_of argument.now) }
{
    match argument {
        Value::Text(text) => is_same_name(name, text),
        _ => false,
    }
}

/// An index of a name among some values.
fn name_place(values: &[Value], name: &Text) -> Option<usize>
    ensures some { IfSome result (λ i.
        slice_get (map tree_of values.now) i ≡ Some (text name.now)) }
    ensures none { IfNone result (is_member (text name.now) (map tree_of values.now) ≡ false) }
{
    for i in 0..values.len() {
        if is_name(&values[i], name) {
            return Some(i);
        }
    }
    None
}

/// The value of a function at a name.
pub fn field_in<'a>(function: &'a FunValue, name: &Text) -> Option<&'a Value>
    ensures { option_map (λ v. tree_of v.now) result ≡ value_at (text name.now) function.now }
{
    let values = function.values();
    match function.arguments() {
        Arguments::Listed(arguments) => match name_place(arguments, name) {
            Some(place) => Some(&values[place]),
            None => None,
        },
        Arguments::Numbers(_) => None,
    }
}

fn has_fields(function: &FunValue, fields: &[(Text, Core)]) -> bool
    ensures { result
        ≡ list_all (λ k. is_member k (arguments function.now))
        (keys_of (fields_of_cores fields.now)) }
{
    for field in fields {
        if field_in(function, &field.0).is_none() {
            return false;
        }
    }
    true
}

/// Whether an argument is the name of one of some fields.
fn is_field(argument: &Value, fields: &[(Text, Core)]) -> bool
    ensures { result ≡ is_member (tree_of argument.now) (keys_of (fields_of_cores fields.now)) }
{
    match argument {
        Value::Text(name) => is_name_of(name, fields),
        _ => false,
    }
}

/// Whether each of some values is the name of a field.
fn are_fields(values: &[Value], fields: &[(Text, Core)]) -> bool
    ensures { result
        ≡ list_all (λ a. is_member a (keys_of (fields_of_cores fields.now)))
        (map tree_of values.now) }
{
    for value in values {
        if !is_field(value, fields) {
            return false;
        }
    }
    true
}

/// Whether the arguments of a function are exactly the names of some fields.
pub fn has_just(function: &FunValue, fields: &[(Text, Core)]) -> bool
    ensures { result
        ≡ tree_eq (set (trees (arguments function.now)))
        (set (trees (set_of (keys_of (fields_of_cores fields.now))))) }
{
    match function.arguments() {
        Arguments::Listed(arguments) => are_fields(arguments, fields)
            && has_fields(function, fields),
        Arguments::Numbers(_) => false,
    }
}
