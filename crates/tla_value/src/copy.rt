// Copies of values. They share what the values hold, so a copy only adds 1 to a reference count.
ghost use Rattle.std.specs.Prelude.{◌≡◌, length, map, zip, IfOk, IfErr};
ghost use Rattle.std.specs.List.Sorted.{IsStrictlySortedBy};
ghost use Rattle.tla_value.specs.Tree.{fun, pairs};
ghost use Rattle.tla_value.specs.TreeOf.{pair_of};
ghost use Rattle.tla_value.specs.Order.{tree_cmp};
ghost use Rattle.tla_value.specs.IsValue.{IsValue};
ghost use Rattle.tla_value.specs.Funs.{arguments};
ghost use Rattle.tla_value.specs.declared.error.ValueError.TheVariants.{Memory};

use crate::error::ValueError;
use crate::value::{FunValue, Value};
use std::alloc::Global;

impl Value {
    /// A value equal to this one, which shares its parts.
    pub fn copy(&self, alloc: Global) -> Result<Value, ValueError>
        ensures ok { IfOk result (λ v. v ≡ self.now) }
        ensures err { IfErr result (λ e. e ≡ Memory) }
    {
        match self {
            Value::Truth(truth) => Ok(Value::Truth(*truth)),
            Value::Int(number) => Ok(Value::Int(*number)),
            Value::Text(text) => Ok(Value::Text(text.copy(alloc)?)),
            Value::Model(name) => Ok(Value::Model(name.copy(alloc)?)),
            Value::Set(set) => Ok(Value::Set(set.copy(alloc)?)),
            Value::Fun(fun) => Ok(Value::Fun(fun.copy(alloc)?)),
        }
    }
}

// Copies of some values, in a new list.
pub(crate) fn copy_items(alloc: Global, items: &[Value]) -> Result<Vec<Value>, ValueError>
    ensures ok { IfOk result (λ v. v.items ≡ items.now) }
    ensures err { IfErr result (λ e. e ≡ Memory) }
{
    let mut copies = Vec::with_capacity(alloc, items.len())?;
    for item in items {
        copies.push(item.copy(alloc)?)?;
    }
    Ok(copies)
}

// A copy of an argument, with a copy of its value.
pub(crate) fn copy_pair(
    alloc: Global,
    argument: &Value,
    value: &Value,
) -> Result<(Value, Value), ValueError>
    ensures ok { IfOk result (λ p. p ≡ (argument.now, value.now)) }
    ensures err { IfErr result (λ e. e ≡ Memory) }
{
    let argument = argument.copy(alloc)?;
    let value = value.copy(alloc)?;
    Ok((argument, value))
}

// Copies of some arguments, each with a copy of its value.
fn copy_zipped(
    alloc: Global,
    arguments: &[Value],
    values: &[Value],
) -> Result<Vec<(Value, Value)>, ValueError>
    requires { length arguments.now ≡ length values.now }
    ensures ok { IfOk result (λ v.
        map pair_of v.items ≡ map pair_of (zip arguments.now values.now)) }
    ensures err { IfErr result (λ e. e ≡ Memory) }
{
    let mut pairs = Vec::with_capacity(alloc, values.len())?;
    for i in 0..values.len() {
        pairs.push(copy_pair(alloc, &arguments[i], &values[i])?)?;
    }
    Ok(pairs)
}

// The pairs of a function, in a new list.
pub(crate) fn copy_pairs(alloc: Global, of: &FunValue) -> Result<Vec<(Value, Value)>, ValueError>
    ensures ok { IfOk result (λ v. map pair_of v.items ≡ of.now) }
    ensures rising { IsStrictlySortedBy tree_cmp (arguments of.now) }
    ensures value { IsValue (fun (pairs of.now)) }
    ensures err { IfErr result (λ e. e ≡ Memory) }
{
    let values = of.values();
    let domain = of.domain(alloc)?;
    copy_zipped(alloc, domain.items(), values)
}
