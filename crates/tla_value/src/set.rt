// Finite sets, as rising lists.
ghost use Rattle.std.specs.Prelude.{◌≡◌, ◌<◌, ◌≤◌, ◌++◌, ◌∷◌, map, filter, length, insert, not, is_ok, option_map, slice_get, Some, IfOk, IfErr, OnOk, OnErr};
ghost use Rattle.std.specs.List.{list_all};
ghost use Rattle.std.specs.List.Sorted.{IsStrictlySortedBy};
ghost use Rattle.tla_value.specs.Tree.{set, trees, deepest};
ghost use Rattle.tla_value.specs.TreeOf.{tree_of};
ghost use Rattle.tla_value.specs.Order.{tree_cmp};
ghost use Rattle.tla_value.specs.IsValue.{IsValue, AreValues, FitNumbers, IsSetList};
ghost use Rattle.tla_value.specs.Sets.{is_member, set_of, RefusesSet, MakesSet};
ghost use Rattle.tla_value.specs.Choices.{counted_up, range_of};
ghost use Rattle.tla_value.specs.declared.error.ValueError.TheVariants.{Memory};

use crate::error::ValueError;
use crate::merge::{all_stand_in, chosen, merged};
use crate::value::{SetValue, Value};
use std::alloc::Global;

/// The most members of a set, and pairs of a function.
pub const MAX_ELEMENTS: usize = 1_000_000;

/// The deepest nesting of a value.
pub const MAX_NESTING: u64 = 64;

// The greatest nesting among some values.
pub(crate) fn deepest_of(values: &[Value]) -> u64
    ensures nesting { result ≡ deepest (trees (map tree_of values.now)) }
    ensures values { AreValues (trees (map tree_of values.now)) }
{
    let mut deepest = 0;
    for value in values {
        deepest = value.nesting().max(deepest);
    }
    deepest
}

// The set of a rising list, within the limits.
pub(crate) fn set_within(alloc: Global, items: Vec<Value>) -> Result<SetValue, ValueError>
    requires { IsSetList (map tree_of items.items) }
    ensures ok { IfOk result (λ s. s ≡ map tree_of items.items) }
    ensures err { IfErr result (λ e. e ≡ Memory) }
{
    let deepest = deepest_of(&items);
    SetValue::from_parts(alloc, items, deepest + 1)
}

// The set of a rising list.
pub(crate) fn set_from_rising(alloc: Global, items: Vec<Value>) -> Result<SetValue, ValueError>
    requires { IsStrictlySortedBy tree_cmp (map tree_of items.items) }
    ensures { MakesSet (map tree_of items.items) result }
{
    if items.len() > MAX_ELEMENTS {
        return Err(ValueError::TooMany);
    }
    let deepest = deepest_of(&items);
    if deepest >= MAX_NESTING {
        return Err(ValueError::TooDeep);
    }
    SetValue::from_parts(alloc, items, deepest + 1)
}

// The values in rising order, each once.
pub(crate) fn sort_values(values: Vec<Value>) -> Vec<Value>
    ensures { map tree_of result.items ≡ set_of (map tree_of values.items) }
{
    let mut values = values;
    values.sort_unstable();
    values.dedup();
    values
}

// `count` consecutive numbers, from `low` on.
pub(crate) fn count_up(alloc: Global, low: i64, count: u64) -> Result<Vec<Value>, ValueError>
    requires fits { FitNumbers count low }
    requires few { count ≤ MAX_ELEMENTS }
    ensures ok { IfOk result (λ v. map tree_of v.items ≡ counted_up count low) }
    ensures err { IfErr result (λ e. e ≡ Memory) }
{
    let mut numbers = Vec::new(alloc);
    for offset in 0..count {
        numbers.push(Value::Int(low + offset as i64))?;
    }
    Ok(numbers)
}

impl SetValue {
    /// The set of these values.
    pub fn from_values(alloc: Global, values: Vec<Value>) -> Result<SetValue, ValueError>
        ensures { MakesSet (set_of (map tree_of values.items)) result }
    {
        set_from_rising(alloc, sort_values(values))
    }

    /// The member at an index of the rising list.
    pub fn get(&self, index: usize) -> Option<&Value>
        ensures { option_map (λ v. tree_of v.now) result ≡ slice_get self.now index }
    {
        self.items().get(index)
    }

    /// Whether a value is a member.
    pub fn contains(&self, value: &Value) -> bool
        ensures { result ≡ is_member (tree_of value.now) self.now }
    {
        self.place(value).is_ok()
    }

    // The index of a value, or the index at which it would be.
    pub(crate) fn place(&self, value: &Value) -> Result<usize, usize>
        ensures found { is_ok result ≡ is_member (tree_of value.now) self.now }
        ensures at { IfOk result (λ i. slice_get self.now i ≡ Some (tree_of value.now)) }
        ensures within { IfErr result (λ i. i ≤ length self.now) }
        ensures there { IfOk result (λ _. set_of (tree_of value.now ∷ self.now) ≡ self.now) }
        ensures absent { IfErr result (λ i.
            set_of (tree_of value.now ∷ self.now) ≡ insert self.now i (tree_of value.now)) }
        ensures value { IsValue (set (trees self.now)) }
    {
        self.items().binary_search(value)
    }

    /// The values that are members of at least one of the two sets.
    pub fn union(&self, alloc: Global, other: &SetValue) -> Result<SetValue, ValueError>
        ensures { MakesSet (set_of (self.now ++ other.now)) result }
    {
        let items = merged(alloc, self.items(), other.items())?;
        set_from_rising(alloc, items)
    }

    /// The members that the other set has too.
    pub fn intersect(&self, alloc: Global, other: &SetValue) -> Result<SetValue, ValueError>
        ensures { MakesSet (filter (λ t. is_member t other.now) self.now) result }
    {
        let items = chosen(alloc, self.items(), other.items(), true)?;
        set_from_rising(alloc, items)
    }

    /// The members that the other set doesn't have.
    pub fn minus(&self, alloc: Global, other: &SetValue) -> Result<SetValue, ValueError>
        ensures { MakesSet (filter (λ t. not (is_member t other.now)) self.now) result }
    {
        let items = chosen(alloc, self.items(), other.items(), false)?;
        set_from_rising(alloc, items)
    }

    /// Whether each member is a member of the other set.
    pub fn is_subset(&self, other: &SetValue) -> bool
        ensures { result ≡ list_all (λ t. is_member t other.now) self.now }
    {
        all_stand_in(self.items(), other.items())
    }

    /// The numbers from `low` to `high`.
    pub fn range(alloc: Global, low: i64, high: i64) -> Result<SetValue, ValueError>
        ensures { MakesSet (range_of low high) result }
    {
        if high < low {
            return Ok(SetValue::empty(alloc));
        }
        let steps = high.abs_diff(low);
        if steps >= MAX_ELEMENTS as u64 {
            return Err(ValueError::TooMany);
        }
        set_from_rising(alloc, count_up(alloc, low, steps + 1)?)
    }

    /// Adds a value, and returns whether it is new.
    pub fn insert(&mut self, value: Value) -> Result<bool, ValueError>
        ensures new { IfOk result (λ added. added ≡ not (is_member (tree_of value) self.old)) }
        ensures ok { OnOk result (self.new ≡ set_of (tree_of value ∷ self.old)) }
        ensures value { OnOk result (IsValue (set (trees self.new))) }
        ensures err { OnErr result (self.new ≡ self.old) }
        ensures refused { IfErr result (RefusesSet (set_of (tree_of value ∷ self.old))) }
    {
        let Err(place) = self.place(&value) else {
            return Ok(false);
        };
        if self.len() >= MAX_ELEMENTS {
            return Err(ValueError::TooMany);
        }
        let nesting = value.nesting();
        if nesting >= MAX_NESTING {
            return Err(ValueError::TooDeep);
        }
        self.insert_at(place, value, nesting)?;
        Ok(true)
    }
}
