// Passes over two rising lists side by side, each linear in their lengths.
ghost use Rattle.std.specs.Prelude.{◌≡◌, ◌≤◌, [], ◌∷◌, ◌++◌, cond, drop, length, map, IfOk, IfErr, OnOk};
ghost use Rattle.std.specs.List.{list_all};
ghost use Rattle.std.specs.List.Sorted.{IsStrictlySortedBy};
ghost use Rattle.std.specs.declared.cmp.Ordering.TheVariants.{Less};
ghost use Rattle.tla_value.specs.Tree.{Tree};
ghost use Rattle.tla_value.specs.TreeOf.{tree_of};
ghost use Rattle.tla_value.specs.Order.{tree_cmp};
ghost use Rattle.tla_value.specs.Sets.{is_member, set_of};
ghost use Rattle.tla_value.specs.Private.Inner.{chosen_of};
ghost use Rattle.tla_value.specs.declared.error.ValueError.TheVariants.{Memory};

use crate::error::ValueError;
use crate::order::compare;
use crate::value::Value;
use std::alloc::Global;
use std::cmp::Ordering;

// Skips the items below a value, from an index on. Returns whether the next item is the value, and the new index.
fn reach(items: &[Value], from: usize, value: &Value) -> (bool, usize)
    requires rising { IsStrictlySortedBy tree_cmp (map tree_of items.now) }
    requires within { from ≤ length items.now }
    ensures within { result.1 ≤ length items.now }
    ensures found { result.0 ≡ is_member (tree_of value.now) (drop from (map tree_of items.now)) }
    ensures kept { (q : Tree) → tree_cmp (tree_of value.now) q ≡ Less
        → is_member q (drop result.1 (map tree_of items.now))
        ≡ is_member q (drop from (map tree_of items.now)) }
{
    let mut at = from;
    while at < items.len() {
        match compare(&items[at], value) {
            Ordering::Less => at += 1,
            Ordering::Equal => return (true, at),
            Ordering::Greater => return (false, at),
        }
    }
    (false, at)
}

// Adds a copy of a value at the end, if it is wanted.
pub(crate) fn keep_copy(
    alloc: Global,
    kept: &mut Vec<Value>,
    item: &Value,
    wanted: bool,
) -> Result<(), ValueError>
    ensures ok { OnOk result
        (map tree_of kept.new.items
        ≡ cond wanted (map tree_of kept.old.items ++ tree_of item.now ∷ [])
        (map tree_of kept.old.items)) }
    ensures err { IfErr result (λ e. e ≡ Memory) }
{
    if wanted {
        kept.push(item.copy(alloc)?)?;
    }
    Ok(())
}

// The values that are in the other list, or those that aren't.
pub(crate) fn chosen(
    alloc: Global,
    items: &[Value],
    others: &[Value],
    shared: bool,
) -> Result<Vec<Value>, ValueError>
    requires rising { IsStrictlySortedBy tree_cmp (map tree_of items.now) }
    requires others { IsStrictlySortedBy tree_cmp (map tree_of others.now) }
    ensures ok { IfOk result (λ v.
        map tree_of v.items ≡ chosen_of shared (map tree_of others.now) (map tree_of items.now)) }
    ensures err { IfErr result (λ e. e ≡ Memory) }
{
    let mut kept = Vec::new(alloc);
    let mut at = 0;
    for item in items {
        let (there, next) = reach(others, at, item);
        keep_copy(alloc, &mut kept, item, there == shared)?;
        at = next;
    }
    Ok(kept)
}

// Whether each value is in the other list.
pub(crate) fn all_stand_in(items: &[Value], others: &[Value]) -> bool
    requires rising { IsStrictlySortedBy tree_cmp (map tree_of items.now) }
    requires others { IsStrictlySortedBy tree_cmp (map tree_of others.now) }
    ensures { result
        ≡ list_all (λ t. is_member t (map tree_of others.now)) (map tree_of items.now) }
{
    let mut at = 0;
    for item in items {
        let (there, next) = reach(others, at, item);
        if !there {
            return false;
        }
        at = next;
    }
    true
}

// The values of both lists in rising order, each once.
pub(crate) fn merged(
    alloc: Global,
    left: &[Value],
    right: &[Value],
) -> Result<Vec<Value>, ValueError>
    requires left { IsStrictlySortedBy tree_cmp (map tree_of left.now) }
    requires right { IsStrictlySortedBy tree_cmp (map tree_of right.now) }
    ensures ok { IfOk result (λ v.
        map tree_of v.items ≡ set_of (map tree_of left.now ++ map tree_of right.now)) }
    ensures err { IfErr result (λ e. e ≡ Memory) }
{
    let mut merged = Vec::new(alloc);
    let mut i = 0;
    let mut j = 0;
    while i < left.len() && j < right.len() {
        let first = &left[i];
        let second = &right[j];
        match compare(first, second) {
            Ordering::Less => {
                keep_copy(alloc, &mut merged, first, true)?;
                i += 1;
            }
            Ordering::Equal => {
                keep_copy(alloc, &mut merged, first, true)?;
                i += 1;
                j += 1;
            }
            Ordering::Greater => {
                keep_copy(alloc, &mut merged, second, true)?;
                j += 1;
            }
        }
    }
    add_copies(alloc, &mut merged, &left[i..])?;
    add_copies(alloc, &mut merged, &right[j..])?;
    Ok(merged)
}

// Adds copies of some values at the end.
fn add_copies(alloc: Global, to: &mut Vec<Value>, items: &[Value]) -> Result<(), ValueError>
    ensures ok { OnOk result
        (map tree_of to.new.items ≡ map tree_of to.old.items ++ map tree_of items.now) }
    ensures err { IfErr result (λ e. e ≡ Memory) }
{
    for item in items {
        to.push(item.copy(alloc)?)?;
    }
    Ok(())
}
