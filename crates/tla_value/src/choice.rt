// Sets of all choices: subsets, functions, tuples, records.
ghost use Rattle.std.specs.Prelude.{◌≡◌, ◌==◌, ◌^◌, ◌<◌, ◌≤◌, false, max, length, map, zip, slice_index_or, IsTrue, IfOk, IfErr, MatchOption};
ghost use Rattle.std.specs.List.{AllByRecursion};
ghost use Rattle.std.specs.List.Sorted.{IsStrictlySortedBy};
ghost use Rattle.tla_value.specs.Order.{tree_cmp};
ghost use Rattle.tla_value.specs.IsValue.{IsValue};
ghost use Rattle.tla_value.specs.Tree.{Tree, truth, set, trees, pairs as pairs_of, depth, deepest, deepest_pair};
ghost use Rattle.tla_value.specs.Funs.{fun_of};
ghost use Rattle.tla_value.specs.Sets.{set_of, MakesSet, MakesSetOfFunctions};
ghost use Rattle.tla_value.specs.TreeOf.{tree_of, pair_of};
ghost use Rattle.tla_value.specs.Choices.{functions_by, functions_of, tuples_of, subsets_of, keys_of, records_of, is_each_once};
ghost use Rattle.tla_value.specs.Private.Inner.{ways, choice_of, sublist_of, keyed, field_of};
ghost use Rattle.tla_value.specs.declared.error.ValueError.TheVariants.{Memory};
ghost use Rattle.tla_value.specs.declared.set.TheConstants.{MAX_NESTING};

use crate::error::ValueError;
use crate::fun::{drop_repeats, fun_within, sort_pairs};
use crate::merge::keep_copy;
use crate::set::{MAX_ELEMENTS, count_up, set_from_rising, set_within};
use crate::text::Text;
use crate::value::{SetValue, Value};
use std::alloc::Global;

// A set of more members has over a million subsets.
const MAX_POWER: usize = 19;

// Whether one of the sets is empty, so that there is no choice.
fn has_empty(sets: &[&SetValue]) -> bool
    ensures empty { result ≡ (ways (map (λ s. s.now) sets.now) == 0) }
    ensures rising { AllByRecursion (IsStrictlySortedBy tree_cmp) (map (λ s. s.now) sets.now) }
{
    let mut found = false;
    for set in sets {
        found |= set.items().is_empty();
    }
    found
}

// The number of ways to choose a member of each set; none if there are over a million.
fn count_of(sets: &[&SetValue]) -> Option<usize>
    ensures count { MatchOption result (MAX_ELEMENTS < ways (map (λ s. s.now) sets.now)) (λ n.
        (n ≡ ways (map (λ s. s.now) sets.now)) × (n ≤ MAX_ELEMENTS)) }
    ensures rising { AllByRecursion (IsStrictlySortedBy tree_cmp) (map (λ s. s.now) sets.now) }
{
    if has_empty(sets) {
        return Some(0);
    }
    let mut count = 1;
    for set in sets {
        count *= set.len();
        if count > MAX_ELEMENTS {
            return None;
        }
    }
    Some(count)
}

// An argument, and the member of a set at an index.
fn pick(
    alloc: Global,
    argument: &Value,
    set: &SetValue,
    at: usize,
) -> Result<(Value, Value), ValueError>
    requires at { at < length set.now }
    requires shallow { depth (tree_of argument.now) < MAX_NESTING }
    ensures ok { IfOk result (λ p.
        pair_of p ≡ (tree_of argument.now, slice_index_or set.now at (truth false))) }
    ensures shallow { IfOk result (λ p.
        max (depth (tree_of p.0)) (depth (tree_of p.1)) < MAX_NESTING) }
    ensures err { IfErr result (λ e. e ≡ Memory) }
{
    let member = &set.items()[at];
    Ok((argument.copy(alloc)?, member.copy(alloc)?))
}

// The choice with this number: for each argument a member of its set.
fn choice_at(
    alloc: Global,
    arguments: &[Value],
    sets: &[&SetValue],
    count: usize,
    number: usize,
) -> Result<Vec<(Value, Value)>, ValueError>
    requires sets { length arguments.now ≡ length sets.now }
    requires count { count ≡ ways (map (λ s. s.now) sets.now) }
    requires number { number < count }
    requires shallow { deepest (trees (map tree_of arguments.now)) < MAX_NESTING }
    ensures ok { IfOk result (λ v.
        map pair_of v.items
        ≡ zip (map tree_of arguments.now) (choice_of (map (λ s. s.now) sets.now) number)) }
    ensures shallow { IfOk result (λ v.
        deepest_pair (pairs_of (map pair_of v.items)) < MAX_NESTING) }
    ensures err { IfErr result (λ e. e ≡ Memory) }
{
    let mut pairs = Vec::with_capacity(alloc, arguments.len())?;
    let mut ways = count;
    let mut left = number;
    for i in 0..sets.len() {
        let set = sets[i];
        ways /= set.len();
        pairs.push(pick(alloc, &arguments[i], set, left / ways)?)?;
        left %= ways;
    }
    Ok(pairs)
}

// All functions that map each argument to a member of its set, in rising order.
fn functions(
    alloc: Global,
    arguments: &[Value],
    sets: &[&SetValue],
    count: usize,
) -> Result<Vec<Value>, ValueError>
    requires sets { length arguments.now ≡ length sets.now }
    requires count { count ≡ ways (map (λ s. s.now) sets.now) }
    requires few { length arguments.now ≤ MAX_ELEMENTS }
    requires rising { IsStrictlySortedBy tree_cmp (map tree_of arguments.now) }
    requires shallow { deepest (trees (map tree_of arguments.now)) < MAX_NESTING }
    ensures ok { IfOk result (λ v.
        map tree_of v.items
        ≡ functions_by (map tree_of arguments.now) (map (λ s. s.now) sets.now)) }
    ensures err { IfErr result (λ e. e ≡ Memory) }
{
    let mut functions = Vec::with_capacity(alloc, count)?;
    for number in 0..count {
        let pairs = choice_at(alloc, arguments, sets, count, number)?;
        functions.push(Value::Fun(fun_within(alloc, pairs)?))?;
    }
    Ok(functions)
}

// A reference to each set.
fn each_of(alloc: Global, sets: &[SetValue]) -> Result<Vec<&SetValue>, ValueError>
    ensures ok { IfOk result (λ v. map (λ s. s.now) v.items ≡ sets.now) }
    ensures err { IfErr result (λ e. e ≡ Memory) }
{
    let mut parts = Vec::with_capacity(alloc, sets.len())?;
    for set in sets {
        parts.push(set)?;
    }
    Ok(parts)
}

// A reference to one set for each of some values.
fn repeated<'a>(
    alloc: Global,
    set: &'a SetValue,
    items: &[Value],
) -> Result<Vec<&'a SetValue>, ValueError>
    ensures ok { IfOk result (λ v.
        map (λ s. s.now) v.items ≡ map (λ (t : Tree). set.now) (map tree_of items.now)) }
    ensures err { IfErr result (λ e. e ≡ Memory) }
{
    let mut parts = Vec::with_capacity(alloc, items.len())?;
    for i in 0..items.len() {
        let _item = &items[i];
        parts.push(set)?;
    }
    Ok(parts)
}

// The set of all functions that map each argument to a member of its set.
fn set_of_functions(
    alloc: Global,
    arguments: &[Value],
    sets: &[&SetValue],
    count: usize,
) -> Result<SetValue, ValueError>
    requires sets { length arguments.now ≡ length sets.now }
    requires count { count ≡ ways (map (λ s. s.now) sets.now) }
    requires few { length arguments.now ≤ MAX_ELEMENTS }
    requires rising { IsStrictlySortedBy tree_cmp (map tree_of arguments.now) }
    requires shallow { deepest (trees (map tree_of arguments.now)) < MAX_NESTING }
    requires lists { AllByRecursion (IsStrictlySortedBy tree_cmp) (map (λ s. s.now) sets.now) }
    ensures { MakesSet
        (set_of (functions_by (map tree_of arguments.now) (map (λ s. s.now) sets.now))) result }
{
    set_from_rising(alloc, functions(alloc, arguments, sets, count)?)
}

// The tuples with one item of each set, in the order of the sets.
fn set_of_tuples(alloc: Global, sets: &[&SetValue]) -> Result<SetValue, ValueError>
    ensures { MakesSetOfFunctions (set_of (tuples_of (map (λ s. s.now) sets.now))) result }
{
    if has_empty(sets) {
        return Ok(SetValue::empty(alloc));
    }
    if sets.len() > MAX_ELEMENTS {
        return Err(ValueError::TooMany);
    }
    match count_of(sets) {
        None => Err(ValueError::TooMany),
        Some(count) => {
            let numbers = count_up(alloc, 1, sets.len() as u64)?;
            set_of_functions(alloc, numbers.as_slice(), sets, count)
        }
    }
}

// The members of a list whose bits are set in a number; the first member has the highest bit.
fn sublist_at(
    alloc: Global,
    items: &[Value],
    count: usize,
    number: usize,
) -> Result<Vec<Value>, ValueError>
    requires count { count ≡ 2 ^ length items.now }
    ensures ok { IfOk result (λ v.
        map tree_of v.items ≡ sublist_of (map tree_of items.now) number) }
    ensures err { IfErr result (λ e. e ≡ Memory) }
{
    let mut kept = Vec::new(alloc);
    let mut half = count;
    let mut left = number;
    for item in items {
        half /= 2;
        keep_copy(alloc, &mut kept, item, left >= half)?;
        left %= half;
    }
    Ok(kept)
}

// All subsets of a rising list.
fn subsets(alloc: Global, items: &[Value], count: usize) -> Result<Vec<Value>, ValueError>
    requires count { count ≡ 2 ^ length items.now }
    requires value { IsValue (set (trees (map tree_of items.now))) }
    ensures ok { IfOk result (λ v. map tree_of v.items ≡ subsets_of (map tree_of items.now)) }
    ensures err { IfErr result (λ e. e ≡ Memory) }
{
    let mut subsets = Vec::with_capacity(alloc, count)?;
    for number in 0..count {
        let items = sublist_at(alloc, items, count, number)?;
        subsets.push(Value::Set(set_within(alloc, items)?))?;
    }
    Ok(subsets)
}

// The fields by name, each with its set.
fn keyed_fields(
    alloc: Global,
    fields: &[(Text, SetValue)],
) -> Result<Vec<(Value, &SetValue)>, ValueError>
    ensures ok { IfOk result (λ v. map (field_of (λ s. s.now)) v.items ≡ keyed fields.now) }
    ensures err { IfErr result (λ e. e ≡ Memory) }
{
    let mut pairs = Vec::with_capacity(alloc, fields.len())?;
    for field in fields {
        pairs.push((Value::Text(field.0.copy(alloc)?), &field.1))?;
    }
    Ok(pairs)
}

// The fields in the order of their names.
fn sorted_fields(
    alloc: Global,
    fields: &[(Text, SetValue)],
) -> Result<Vec<(Value, &SetValue)>, ValueError>
    ensures ok { IfOk result (λ v.
        map (field_of (λ s. s.now)) v.items ≡ fun_of (keyed fields.now)) }
    ensures err { IfErr result (λ e. e ≡ Memory) }
{
    let mut pairs = keyed_fields(alloc, fields)?;
    sort_pairs(&mut pairs)?;
    drop_repeats(&mut pairs);
    Ok(pairs)
}

fn field_sets<'a>(
    alloc: Global,
    fields: &[(Value, &'a SetValue)],
) -> Result<Vec<&'a SetValue>, ValueError>
    ensures ok { IfOk result (λ v. map (λ s. s.now) v.items ≡ map (λ f. f.1.now) fields.now) }
    ensures err { IfErr result (λ e. e ≡ Memory) }
{
    let mut sets = Vec::with_capacity(alloc, fields.len())?;
    for field in fields {
        sets.push(field.1)?;
    }
    Ok(sets)
}

fn field_names(alloc: Global, fields: Vec<(Value, &SetValue)>) -> Result<Vec<Value>, ValueError>
    ensures ok { IfOk result (λ v.
        map tree_of v.items ≡ map (λ f. tree_of f.0) fields.entry.items) }
    ensures err { IfErr result (λ e. e ≡ Memory) }
{
    let mut names = Vec::with_capacity(alloc, fields.len())?;
    for field in fields {
        names.push(field.0)?;
    }
    Ok(names)
}

// The set of records with these field names, in rising order, and these sets of values.
fn set_of_records(
    alloc: Global,
    names: &[Value],
    sets: &[&SetValue],
) -> Result<SetValue, ValueError>
    requires sets { length names.now ≡ length sets.now }
    requires rising { IsStrictlySortedBy tree_cmp (map tree_of names.now) }
    requires shallow { deepest (trees (map tree_of names.now)) < MAX_NESTING }
    ensures made { MakesSetOfFunctions
        (set_of (functions_by (map tree_of names.now) (map (λ s. s.now) sets.now))) result }
    ensures rising { AllByRecursion (IsStrictlySortedBy tree_cmp) (map (λ s. s.now) sets.now) }
{
    if has_empty(sets) {
        return Ok(SetValue::empty(alloc));
    }
    if sets.len() > MAX_ELEMENTS {
        return Err(ValueError::TooMany);
    }
    match count_of(sets) {
        None => Err(ValueError::TooMany),
        Some(count) => set_of_functions(alloc, names, sets, count),
    }
}

impl SetValue {
    /// All subsets: `SUBSET S`.
    pub fn power(&self, alloc: Global) -> Result<SetValue, ValueError>
        ensures { MakesSet (set_of (subsets_of self.now)) result }
    {
        let items = self.items();
        if items.len() > MAX_POWER {
            return Err(ValueError::TooMany);
        }
        SetValue::from_values(alloc, subsets(alloc, items, 1 << items.len())?)
    }

    /// The functions from `domain` to `range`: `[domain -> range]`.
    pub fn function_set(
        alloc: Global,
        domain: &SetValue,
        range: &SetValue,
    ) -> Result<SetValue, ValueError>
        ensures { MakesSet (set_of (functions_of domain.now range.now)) result }
    {
        let arguments = domain.items();
        // Twenty arguments with two values each already have over a million functions.
        if arguments.len() > MAX_POWER && range.items().len() > 1 {
            return Err(ValueError::TooMany);
        }
        let ranges = repeated(alloc, range, arguments)?;
        match count_of(ranges.as_slice()) {
            None => Err(ValueError::TooMany),
            Some(count) => set_of_functions(alloc, arguments, ranges.as_slice(), count),
        }
    }

    /// The tuples with one item of each set, in the order of the sets: `S \X T`. A tuple of over a million items is
    /// `TooMany` as well.
    pub fn product(alloc: Global, sets: &[SetValue]) -> Result<SetValue, ValueError>
        ensures { MakesSetOfFunctions (set_of (tuples_of sets.now)) result }
    {
        let parts = each_of(alloc, sets)?;
        set_of_tuples(alloc, parts.as_slice())
    }

    /// The records with these fields, each value a member of its field's set: `[a : S, ..]`. A record of over a million
    /// fields is `TooMany` as well.
    pub fn record_set(alloc: Global, fields: &[(Text, SetValue)]) -> Result<SetValue, ValueError>
        requires { IsTrue (is_each_once (keys_of fields.now)) }
        ensures { MakesSetOfFunctions (set_of (records_of fields.now)) result }
    {
        let fields = sorted_fields(alloc, fields)?;
        let sets = field_sets(alloc, fields.as_slice())?;
        let names = field_names(alloc, fields)?;
        set_of_records(alloc, names.as_slice(), sets.as_slice())
    }
}
