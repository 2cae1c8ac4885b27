// The domains of functions: consecutive numbers, or the members of a set.
ghost use Rattle.std.specs.Prelude.{◌≡◌, ◌+◌, ◌<◌, ◌≤◌, ◌+ℤ◌, pos, max, true, false, length, map, slice_get, Some, IfSome, IfNone, IfOk, IfErr};
ghost use Rattle.tla_value.specs.Tree.{deepest_pair, int, pairs};
ghost use Rattle.tla_value.specs.TreeOf.{tree_of};
ghost use Rattle.tla_value.specs.IsValue.{FitNumbers, IsSetList};
ghost use Rattle.tla_value.specs.Sets.{is_member};
ghost use Rattle.tla_value.specs.Choices.{counted_up};
ghost use Rattle.tla_value.specs.Private.Held.{domain_trees, entry_pairs, FitsDomain};
ghost use Rattle.tla_value.specs.declared.error.ValueError.TheVariants.{Memory};
ghost use Rattle.tla_value.specs.declared.set.TheConstants.{MAX_ELEMENTS};

use crate::error::ValueError;
use crate::set::{count_up, deepest_of, set_within};
use crate::value::{Domain, SetValue, Value};
use std::alloc::Global;

// Whether a value is the number `first + steps`.
fn is_number(value: &Value, first: i64, steps: usize) -> bool
    ensures number { result ≡ true → tree_of value.now ≡ int (first +ℤ pos steps) }
    ensures fits { result ≡ true → FitNumbers (steps + 1) first }
{
    let Value::Int(number) = value else {
        return false;
    };
    let number = *number;
    number >= first && number.abs_diff(first) == steps as u64
}

// The first of some values, if they are consecutive numbers.
fn first_number(arguments: &[Value]) -> Option<i64>
    ensures numbers { IfSome result (λ z.
        map tree_of arguments.now ≡ counted_up (length arguments.now) z) }
    ensures fit { IfSome result (λ z.
        (0 < length arguments.now) × FitNumbers (length arguments.now) z) }
{
    let [Value::Int(first), ..] = arguments else {
        return None;
    };
    let first = *first;
    for i in 0..arguments.len() {
        if !is_number(&arguments[i], first, i) {
            return None;
        }
    }
    Some(first)
}

// The domain of a sequence of `count` values.
pub(crate) fn first_numbers(alloc: Global, count: usize) -> Domain
    requires { count ≤ MAX_ELEMENTS }
    ensures numbers { domain_trees count result ≡ counted_up count (pos 1) }
    ensures fits { FitsDomain count result }
{
    if count == 0 {
        Domain::Listed(SetValue::empty(alloc))
    } else {
        Domain::Numbers(1)
    }
}

// The index of a value among `count` consecutive numbers from `first` on.
fn number_place(first: i64, count: usize, value: &Value) -> Option<usize>
    ensures some { IfSome result (λ i.
        slice_get (counted_up count first) i ≡ Some (tree_of value.now)) }
    ensures none { IfNone result (is_member (tree_of value.now) (counted_up count first) ≡ false) }
{
    let Value::Int(number) = value else {
        return None;
    };
    let number = *number;
    if number < first {
        return None;
    }
    let steps = number.abs_diff(first);
    if steps < count as u64 {
        Some(steps as usize)
    } else {
        None
    }
}

// The greatest nesting among some arguments and their values.
pub(crate) fn deepest_of_pairs(domain: &Domain, values: &[Value]) -> u64
    requires { FitsDomain (length values.now) domain.now }
    ensures { result ≡ deepest_pair (pairs (entry_pairs domain.now values.now)) }
{
    let deepest = deepest_of(values);
    match domain {
        Domain::Numbers(_) => deepest,
        Domain::Listed(set) => deepest.max(set.nesting() - 1),
    }
}

// The same after one value replaced another. `before` is the greatest nesting before; `replaced` and `added` are those
// of the old and the new value. Visits all parts only if the old value may have been the deepest and the new one is
// less deep.
pub(crate) fn deepest_after(
    domain: &Domain,
    values: &[Value],
    before: u64,
    replaced: u64,
    added: u64,
) -> u64
    requires fits { FitsDomain (length values.now) domain.now }
    requires there { added ≤ deepest_pair (pairs (entry_pairs domain.now values.now)) }
    requires within { deepest_pair (pairs (entry_pairs domain.now values.now)) ≤ max before added }
    requires kept { before
        ≤ max (deepest_pair (pairs (entry_pairs domain.now values.now))) replaced }
    ensures { result ≡ deepest_pair (pairs (entry_pairs domain.now values.now)) }
{
    if added >= before {
        added
    } else if replaced < before {
        before
    } else {
        deepest_of_pairs(domain, values)
    }
}

impl Domain {
    // The domain of a rising list of arguments.
    pub(crate) fn from_rising(alloc: Global, arguments: Vec<Value>) -> Result<Domain, ValueError>
        requires { IsSetList (map tree_of arguments.items) }
        ensures ok { IfOk result (λ d.
            domain_trees (length arguments.items) d ≡ map tree_of arguments.items) }
        ensures fits { IfOk result (FitsDomain (length arguments.items)) }
        ensures err { IfErr result (λ e. e ≡ Memory) }
    {
        match first_number(arguments.as_slice()) {
            Some(first) => Ok(Domain::Numbers(first)),
            None => Ok(Domain::Listed(set_within(alloc, arguments)?)),
        }
    }

    // The domain of the members of a set, which shares them.
    pub(crate) fn from_set(alloc: Global, set: &SetValue) -> Result<Domain, ValueError>
        ensures ok { IfOk result (λ d. domain_trees (length set.now) d ≡ set.now) }
        ensures fits { IfOk result (FitsDomain (length set.now)) }
        ensures err { IfErr result (λ e. e ≡ Memory) }
    {
        match first_number(set.items()) {
            Some(first) => Ok(Domain::Numbers(first)),
            None => Ok(Domain::Listed(set.copy(alloc)?)),
        }
    }

    // The same domain, which shares its members.
    pub(crate) fn copy(&self, alloc: Global) -> Result<Domain, ValueError>
        ensures ok { IfOk result (λ d. d ≡ self.now) }
        ensures err { IfErr result (λ e. e ≡ Memory) }
    {
        match self {
            Domain::Numbers(first) => Ok(Domain::Numbers(*first)),
            Domain::Listed(set) => Ok(Domain::Listed(set.copy(alloc)?)),
        }
    }

    // The `count` arguments, as a set.
    pub(crate) fn to_set(&self, alloc: Global, count: usize) -> Result<SetValue, ValueError>
        requires list { IsSetList (domain_trees count self.now) }
        requires fits { FitsDomain count self.now }
        ensures ok { IfOk result (λ s. s ≡ domain_trees count self.now) }
        ensures err { IfErr result (λ e. e ≡ Memory) }
    {
        match self {
            Domain::Numbers(first) => set_within(alloc, count_up(alloc, *first, count as u64)?),
            Domain::Listed(set) => set.copy(alloc),
        }
    }

    // The index of a value among the `count` arguments.
    pub(crate) fn place(&self, count: usize, value: &Value) -> Option<usize>
        ensures some { IfSome result (λ i.
            slice_get (domain_trees count self.now) i ≡ Some (tree_of value.now)) }
        ensures none { IfNone result
            (is_member (tree_of value.now) (domain_trees count self.now) ≡ false) }
    {
        match self {
            Domain::Numbers(first) => number_place(*first, count, value),
            Domain::Listed(set) => set.place(value).ok(),
        }
    }
}
