//! The names of fields.
ghost use Rattle.std.specs.Prelude.{◌≡◌, map};
ghost use Rattle.std.specs.List.{list_all};
ghost use Rattle.tla_value.specs.Tree.{text, set, trees};
ghost use Rattle.tla_value.specs.TreeOf.{tree_of};
ghost use Rattle.tla_value.specs.Order.{tree_eq};
ghost use Rattle.tla_value.specs.Funs.{arguments};
ghost use Rattle.tla_value.specs.Sets.{is_member, set_of};
ghost use Rattle.tla_value.specs.Choices.{keys_of};
ghost use Rattle.tla_core.specs.Value.{mean_fields};
ghost use Rattle.tla_code.specs.CodeExpr.{Scope};
ghost use Rattle.tla_code.specs.Private.Listed.{fields_of_codes};
ghost use Rattle.tla_quick.specs.Private.Names.{names_in};

use tla_code::Code;
use tla_sets::fields::field_in;
use tla_value::{Arguments, FunValue, Text, Value};

fn is_same_name(left: &Text, right: &Text) -> bool
    ensures { result ≡ tree_eq (text left.now) (text right.now) }
{
    left.as_str().cmp(&right.as_str()).is_eq()
}

fn is_name_of<'m>(name: &Text, fields: &[(&'m Text, Code<'m>)]) -> bool
    ensures { result ≡ is_member (text name.now) (names_in fields.now) }
{
    for field in fields {
        if is_same_name(name, field.0) {
            return true;
        }
    }
    false
}

fn has_fields<'m>(function: &FunValue, fields: &[(&'m Text, Code<'m>)]) -> bool
    ensures { result ≡ list_all (λ k. is_member k (arguments function.now)) (names_in fields.now) }
{
    for field in fields {
        if field_in(function, field.0).is_none() {
            return false;
        }
    }
    true
}

/// Whether an argument is the name of one of some fields.
fn is_field<'m>(argument: &Value, fields: &[(&'m Text, Code<'m>)]) -> bool
    ensures { result ≡ is_member (tree_of argument.now) (names_in fields.now) }
{
    match argument {
        Value::Text(name) => is_name_of(name, fields),
        _ => false,
    }
}

/// Whether each of some values is the name of a field.
fn are_fields<'m>(values: &[Value], fields: &[(&'m Text, Code<'m>)]) -> bool
    ensures { result ≡ list_all (λ a. is_member a (names_in fields.now)) (map tree_of values.now) }
{
    for value in values {
        if !is_field(value, fields) {
            return false;
        }
    }
    true
}

/// Whether the arguments of a function are exactly the names of some fields.
fn has_names<'m>(function: &FunValue, fields: &[(&'m Text, Code<'m>)]) -> bool
    ensures { result
        ≡ tree_eq (set (trees (arguments function.now)))
        (set (trees (set_of (names_in fields.now)))) }
{
    match function.arguments() {
        Arguments::Listed(arguments) => are_fields(arguments, fields)
            && has_fields(function, fields),
        Arguments::Numbers(_) => false,
    }
}

/// The same, for the fields of an expression.
pub(crate) fn has_just<'m>(function: &FunValue, fields: &[(&'m Text, Code<'m>)]) -> bool
    ensures { (scope : Scope)
        → result
        ≡ tree_eq (set (trees (arguments function.now)))
        (set
        (trees (set_of (keys_of (mean_fields (fields_of_codes scope fields.now)))))) }
{
    has_names(function, fields)
}
