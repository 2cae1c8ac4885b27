// Functions: how they are built, from pairs and from other functions.
ghost use Rattle.std.specs.Prelude.{◌≡◌, ◌++◌, false, length, map, zip, slice_get, option_map, IfSome, IfNone, IfOk, IfErr, OnOk};
ghost use Rattle.tla_value.specs.Choices.{numbered};
ghost use Rattle.std.specs.List.{dedup};
ghost use Rattle.std.specs.List.Sorted.{IsStrictlySortedBy, IsSortedBy, IsStableBy, IsPermutation};
ghost use Rattle.std.specs.Ordering.{is_lt};
ghost use Rattle.tla_value.specs.declared.error.ValueError.TheVariants.{Memory};
ghost use Rattle.tla_value.specs.TreeOf.{tree_of, pair_of};
ghost use Rattle.tla_value.specs.Tree.{Tree, deepest_pair, fun, text, pairs as pairs_of};
ghost use Rattle.tla_value.specs.IsValue.{IsValue, ArePairs, IsFunList, IsFunValue};
ghost use Rattle.tla_value.specs.Arguments.{argument_values, FitArguments};
ghost use Rattle.tla_value.specs.Order.{tree_cmp};
ghost use Rattle.tla_value.specs.Funs.{arguments, values_of, value_at, fun_of, except_of, items_of, MakesFun, RefusesFun};
ghost use Rattle.tla_value.specs.Private.Inner.{counts_from};
ghost use Rattle.tla_value.specs.Sets.{is_member};
ghost use Rattle.tla_value.specs.ValueOrder.{value_cmp, value_eq};
ghost use Rattle.tla_value.specs.declared.value.Value.{Value};

use crate::copy::copy_pairs;
use crate::domain::first_numbers;
use crate::error::ValueError;
use crate::merge_pairs::merged_pairs;
use crate::order::compare;
use crate::set::{MAX_ELEMENTS, MAX_NESTING, deepest_of};
use crate::text::Text;
use crate::value::{Arguments, Domain, FunValue, SetValue, Value};
use std::alloc::Global;
use std::cmp::Ordering;

// Sorts pairs by argument. Those with equal arguments keep their order.
pub(crate) fn sort_pairs<T>(pairs: &mut Vec<(Value, T)>) -> Result<(), ValueError>
    ensures permutation { IsPermutation pairs.old.items pairs.new.items }
    ensures sorted { OnOk result
        (IsSortedBy (λ (p q : Value × T). is_lt (value_cmp p.0 q.0)) pairs.new.items) }
    ensures stable { IsStableBy (λ (p q : Value × T). is_lt (value_cmp p.0 q.0)) pairs.old.items
        pairs.new.items }
    ensures memory { IfErr result (λ e. e ≡ Memory) }
{
    pairs.sort_by(|a, b| compare(&a.0, &b.0))?;
    Ok(())
}

// Of neighbours with equal arguments, keeps the first.
pub(crate) fn drop_repeats<T: Drop>(pairs: &mut Vec<(Value, T)>)
    ensures { pairs.new.items ≡ dedup (λ (p q : Value × T). value_eq p.0 q.0) pairs.old.items }
{
    pairs.dedup_by(|later, earlier| later.0 == earlier.0);
}

// The greatest nesting among the parts of some pairs.
pub(crate) fn deepest_part_of(pairs: &[(Value, Value)]) -> u64
    ensures nesting { result ≡ deepest_pair (pairs_of (map pair_of pairs.now)) }
    ensures values { ArePairs (pairs_of (map pair_of pairs.now)) }
{
    let mut deepest = 0;
    for pair in pairs {
        deepest = pair.0.nesting().max(pair.1.nesting()).max(deepest);
    }
    deepest
}

// The arguments of some pairs in one list, and the values in another.
fn split(alloc: Global, pairs: Vec<(Value, Value)>) -> Result<(Vec<Value>, Vec<Value>), ValueError>
    ensures arguments { IfOk result (λ r.
        map tree_of r.0.items ≡ arguments (map pair_of pairs.items)) }
    ensures values { IfOk result (λ r.
        map tree_of r.1.items ≡ values_of (map pair_of pairs.items)) }
    ensures err { IfErr result (λ e. e ≡ Memory) }
{
    let mut arguments = Vec::with_capacity(alloc, pairs.len())?;
    let mut values = Vec::with_capacity(alloc, pairs.len())?;
    for (argument, value) in pairs {
        arguments.push(argument)?;
        values.push(value)?;
    }
    Ok((arguments, values))
}

// The function of pairs that rise by argument, with this nesting.
fn from_parts(
    alloc: Global,
    pairs: Vec<(Value, Value)>,
    nesting: u64,
) -> Result<FunValue, ValueError>
    requires { IsFunValue (map pair_of pairs.items) nesting }
    ensures ok { IfOk result (λ f. f ≡ map pair_of pairs.items) }
    ensures err { IfErr result (λ e. e ≡ Memory) }
{
    let (arguments, values) = split(alloc, pairs)?;
    let domain = Domain::from_rising(alloc, arguments)?;
    FunValue::from_parts(alloc, domain, values, nesting)
}

// The function of pairs that rise by argument, within the limits.
pub(crate) fn fun_within(alloc: Global, pairs: Vec<(Value, Value)>) -> Result<FunValue, ValueError>
    requires { IsFunList (map pair_of pairs.items) }
    ensures ok { IfOk result (λ f. f ≡ map pair_of pairs.items) }
    ensures err { IfErr result (λ e. e ≡ Memory) }
{
    let deepest = deepest_part_of(&pairs);
    from_parts(alloc, pairs, deepest + 1)
}

// The function of pairs that rise by argument.
fn fun_from_rising(alloc: Global, pairs: Vec<(Value, Value)>) -> Result<FunValue, ValueError>
    requires { IsStrictlySortedBy tree_cmp
        (map (λ (p : Tree × Tree). p.0) (map pair_of pairs.items)) }
    ensures { MakesFun (map pair_of pairs.items) result }
{
    if pairs.len() > MAX_ELEMENTS {
        return Err(ValueError::TooMany);
    }
    let deepest = deepest_part_of(&pairs);
    if deepest >= MAX_NESTING {
        return Err(ValueError::TooDeep);
    }
    from_parts(alloc, pairs, deepest + 1)
}

// Whether some values are 1, 2, and so on.
pub(crate) fn are_from_one(items: &[Value]) -> bool
    ensures { result ≡ counts_from 1 (map tree_of items.now) }
{
    for i in 0..items.len() {
        if compare(&items[i], &Value::Int(i as i64 + 1)) != Ordering::Equal {
            return false;
        }
    }
    true
}

// Whether the `count` arguments are 1, 2, and so on.
fn is_sequence(arguments: Arguments<'_>, count: usize) -> bool
    requires { FitArguments count arguments }
    ensures { result ≡ counts_from 1 (map tree_of (argument_values count arguments.entry)) }
{
    match arguments {
        Arguments::Numbers(first) => first == 1,
        Arguments::Listed(items) => are_from_one(items),
    }
}

// The index of the first value that is this string.
fn text_place(values: &[Value], name: &Text) -> Option<usize>
    ensures some { IfSome result (λ i.
        slice_get (map tree_of values.now) i ≡ Some (text name.now)) }
    ensures none { IfNone result
        (is_member (text name.now) (map tree_of values.now) ≡ false) }
{
    for i in 0..values.len() {
        if let Value::Text(value) = &values[i] {
            if name.order(value).is_eq() {
                return Some(i);
            }
        }
    }
    None
}

impl FunValue {
    // Replaces the value at an argument, if it is in the domain: in place if the values have no other owner.
    fn put(&mut self, argument: &Value, value: Value) -> Result<(), ValueError>
        ensures ok { OnOk result
            (self.new ≡ except_of (tree_of argument.now) (tree_of value) self.old) }
        ensures value { OnOk result (IsValue (fun (pairs_of self.new))) }
        ensures refused { IfErr result
            (RefusesFun (except_of (tree_of argument.now) (tree_of value) self.old)) }
    {
        match self.place(argument) {
            Some(index) => self.put_at(index, value),
            None => Ok(()),
        }
    }

    /// The function with another value at one argument: `[f EXCEPT ![argument] = value]`. Outside the domain nothing
    /// changes.
    pub fn with_value(self, argument: &Value, value: Value) -> Result<FunValue, ValueError>
        ensures { MakesFun (except_of (tree_of argument.now) (tree_of value) self) result }
    {
        let mut changed = self;
        changed.put(argument, value)?;
        Ok(changed)
    }

    /// A copy with another value at one argument. Outside the domain it equals this function.
    pub fn except(
        &self,
        alloc: Global,
        argument: &Value,
        value: Value,
    ) -> Result<FunValue, ValueError>
        ensures { MakesFun (except_of (tree_of argument.now) (tree_of value) self.now) result }
    {
        self.copy(alloc)?.with_value(argument, value)
    }

    /// The pairs of both functions: `f @@ g`. At a common argument the value of this function counts.
    pub fn override_with(&self, alloc: Global, other: &FunValue) -> Result<FunValue, ValueError>
        ensures { MakesFun (fun_of (self.now ++ other.now)) result }
    {
        let left = copy_pairs(alloc, self)?;
        let right = copy_pairs(alloc, other)?;
        let pairs = merged_pairs(alloc, left.as_slice(), right.as_slice())?;
        fun_from_rising(alloc, pairs)
    }

    /// The length, if this is a sequence: the arguments are 1 to the length.
    pub fn as_sequence(&self) -> Option<u64>
        ensures { result ≡ option_map length (items_of self.now) }
    {
        if is_sequence(self.arguments(), self.len()) {
            Some(self.len() as u64)
        } else {
            None
        }
    }

    /// The function of these pairs. Of two pairs with the same argument the first counts.
    pub fn from_pairs(alloc: Global, pairs: Vec<(Value, Value)>) -> Result<FunValue, ValueError>
        ensures { MakesFun (fun_of (map pair_of pairs.items)) result }
    {
        let mut pairs = pairs;
        sort_pairs(&mut pairs)?;
        drop_repeats(&mut pairs);
        fun_from_rising(alloc, pairs)
    }

    /// The sequence of these values.
    pub fn sequence(alloc: Global, values: Vec<Value>) -> Result<FunValue, ValueError>
        ensures { MakesFun (numbered 1 (map tree_of values.items)) result }
    {
        if values.as_slice().len() > MAX_ELEMENTS {
            return Err(ValueError::TooMany);
        }
        let deepest = deepest_of(&values);
        if deepest >= MAX_NESTING {
            return Err(ValueError::TooDeep);
        }
        let domain = first_numbers(alloc, values.len());
        FunValue::from_parts(alloc, domain, values, deepest + 1)
    }

    /// The function on the members of a set, in their order, with these values. It shares the members.
    pub fn on(alloc: Global, domain: &SetValue, values: Vec<Value>) -> Result<FunValue, ValueError>
        requires { length domain.now ≡ length values.items }
        ensures { MakesFun (zip domain.now (map tree_of values.items)) result }
    {
        let deepest = deepest_of(&values).max(domain.nesting() - 1);
        if deepest >= MAX_NESTING {
            return Err(ValueError::TooDeep);
        }
        let domain = Domain::from_set(alloc, domain)?;
        FunValue::from_parts(alloc, domain, values, deepest + 1)
    }

    /// The value of the function at an argument.
    pub fn apply(&self, argument: &Value) -> Option<&Value>
        ensures { option_map (λ v. tree_of v.now) result
            ≡ value_at (tree_of argument.now) self.now }
    {
        match self.place(argument) {
            Some(index) => Some(&self.values()[index]),
            None => None,
        }
    }

    /// The value of a record at a field.
    pub fn field(&self, name: &Text) -> Option<&Value>
        ensures { option_map (λ v. tree_of v.now) result ≡ value_at (text name.now) self.now }
    {
        let Arguments::Listed(names) = self.arguments() else {
            return None;
        };
        let Some(index) = text_place(names, name) else {
            return None;
        };
        Some(&self.values()[index])
    }
}
