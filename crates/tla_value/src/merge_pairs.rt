// One pass over the pairs of two functions.
ghost use Rattle.std.specs.Prelude.{◌≡◌, [], ◌∷◌, ◌++◌, map, IfOk, IfErr, OnOk};
ghost use Rattle.std.specs.List.Sorted.{IsStrictlySortedBy};
ghost use Rattle.tla_value.specs.TreeOf.{pair_of};
ghost use Rattle.tla_value.specs.Order.{tree_cmp};
ghost use Rattle.tla_value.specs.Funs.{arguments, fun_of};
ghost use Rattle.tla_value.specs.declared.error.ValueError.TheVariants.{Memory};

use crate::copy::copy_pair;
use crate::error::ValueError;
use crate::order::compare;
use crate::value::Value;
use std::alloc::Global;
use std::cmp::Ordering;

// The pairs of both lists in the order of their arguments. At a common argument the left pair counts.
pub(crate) fn merged_pairs(
    alloc: Global,
    left: &[(Value, Value)],
    right: &[(Value, Value)],
) -> Result<Vec<(Value, Value)>, ValueError>
    requires left { IsStrictlySortedBy tree_cmp (arguments (map pair_of left.now)) }
    requires right { IsStrictlySortedBy tree_cmp (arguments (map pair_of right.now)) }
    ensures ok { IfOk result (λ v.
        map pair_of v.items ≡ fun_of (map pair_of left.now ++ map pair_of right.now)) }
    ensures err { IfErr result (λ e. e ≡ Memory) }
{
    let mut merged = Vec::new(alloc);
    let mut i = 0;
    let mut j = 0;
    while i < left.len() && j < right.len() {
        let first = &left[i];
        let second = &right[j];
        match compare(&first.0, &second.0) {
            Ordering::Less => {
                keep_pair(alloc, &mut merged, first)?;
                i += 1;
            }
            Ordering::Equal => {
                keep_pair(alloc, &mut merged, first)?;
                i += 1;
                j += 1;
            }
            Ordering::Greater => {
                keep_pair(alloc, &mut merged, second)?;
                j += 1;
            }
        }
    }
    keep_pairs(alloc, &mut merged, &left[i..])?;
    keep_pairs(alloc, &mut merged, &right[j..])?;
    Ok(merged)
}

// Adds a copy of a pair at the end.
fn keep_pair(
    alloc: Global,
    kept: &mut Vec<(Value, Value)>,
    pair: &(Value, Value),
) -> Result<(), ValueError>
    ensures ok { OnOk result (kept.new.items ≡ kept.old.items ++ pair.now ∷ []) }
    ensures err { IfErr result (λ e. e ≡ Memory) }
{
    kept.push(copy_pair(alloc, &pair.0, &pair.1)?)?;
    Ok(())
}

// Adds copies of some pairs at the end.
fn keep_pairs(
    alloc: Global,
    kept: &mut Vec<(Value, Value)>,
    pairs: &[(Value, Value)],
) -> Result<(), ValueError>
    ensures ok { OnOk result
        (map pair_of kept.new.items ≡ map pair_of kept.old.items ++ map pair_of pairs.now) }
    ensures err { IfErr result (λ e. e ≡ Memory) }
{
    for pair in pairs {
        keep_pair(alloc, kept, pair)?;
    }
    Ok(())
}
