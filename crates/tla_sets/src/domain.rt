//! The function on all choices from some sets.
ghost use Rattle.std.specs.Prelude.{◌≡◌, ◌<◌, ◌%◌, length, map, option_map, slice_get, slice_index_or, zip, IfOk, IfErr};
ghost use Rattle.std.specs.List.{AllByRecursion};
ghost use Rattle.std.specs.List.Sorted.{IsStrictlySortedBy};
ghost use Rattle.tla_value.specs.Order.{tree_cmp};
ghost use Rattle.tla_value.specs.TreeOf.{tree_of};
ghost use Rattle.tla_value.specs.Choices.{choices};
ghost use Rattle.tla_core.specs.Fault.{out_of_memory};
ghost use Rattle.tla_core.specs.Kinds.{as_set, make_fun};
ghost use Rattle.tla_core.specs.Lists.{each};
ghost use Rattle.tla_operators.specs.Evaluated.{tree_of_evaluated};
ghost use Rattle.tla_sets.specs.Domain.{AreForChoices, FindsDomain, function_rule};
ghost use Rattle.tla_operators.specs.Gives.{Gives, GivesBy};

use std::alloc::Global;
use tla_core::Place;
use tla_operators::evaluated::Evaluated;
use tla_operators::fault_ref::FaultRef;
use tla_operators::functions::made_fun;
use tla_operators::rules::copied;
use tla_operators::sets::{as_sets, copied_set, members, refused};
use tla_value::{FunValue, SetValue, Value};

/// The domain of the functions on all choices from some sets, or the fault of every such function.
#[derive(Drop)]
pub enum Domain<'p> {
    Tuples(SetValue),
    Refused(FaultRef<'p>),
}

/// The members of each of some sets; another value is a fault.
pub fn lists_of<'p, 'a>(
    alloc: Global,
    place: &'p Place,
    sets: &'a [Evaluated<'a>],
) -> Result<Vec<&'a [Value]>, FaultRef<'p>>
    ensures { GivesBy (λ v. map (λ l. map tree_of l.now) v.items) result
        (each (as_set place.now) (map tree_of_evaluated sets.now)) }
{
    let mut lists = Vec::with_capacity(alloc, sets.len())?;
    for set in sets {
        lists.push(members(place, set.value())?)?;
    }
    Ok(lists)
}

/// The member of a list at an index, if there is one.
pub fn member_of<'a>(list: &'a [Value], number: usize) -> Option<&'a Value>
    ensures { option_map (λ v. tree_of v.now) result ≡ slice_get (map tree_of list.now) number }
{
    list.get(number)
}

/// The member of a list at an index modulo the list's length.
fn member_at(list: &[Value], number: usize) -> &Value
    requires { 0 < length list.now }
    ensures { result.now ≡ slice_index_or list.now (number % length list.now) result.now }
{
    &list[number % list.len()]
}

/// Choice `number` of one member of each list, the first list varying slowest; none if there are fewer choices.
pub fn choice_at<'p>(
    alloc: Global,
    lists: &[&[Value]],
    number: usize,
) -> Result<Option<Vec<Value>>, FaultRef<'p>>
    ensures ok { IfOk result (λ o.
        option_map (λ v. map tree_of v.items) o
        ≡ slice_get (choices (map (λ l. map tree_of l.now) lists.now)) number) }
    ensures err { IfErr result (λ f. f ≡ out_of_memory) }
{
    let mut choice = Vec::with_capacity(alloc, lists.len())?;
    let mut left = number;
    for i in 0..lists.len() {
        let list = lists[lists.len() - 1 - i];
        if list.is_empty() {
            return Ok(None);
        }
        choice.push(copied(alloc, member_at(list, left))?)?;
        left /= list.len();
    }
    if left > 0 {
        return Ok(None);
    }
    choice.reverse();
    Ok(Some(choice))
}

/// The members of each set rise.
fn each_rises(sets: &[SetValue])
    ensures { AllByRecursion (IsStrictlySortedBy tree_cmp) sets.now }
{
    for set in sets {
        let _rising = set.items();
    }
}

/// The function on the members of a set, in their order, with these values.
pub fn function_with<'p>(
    alloc: Global,
    place: &'p Place,
    domain: &SetValue,
    values: Vec<Value>,
) -> Result<Value, FaultRef<'p>>
    requires { length domain.now ≡ length values.items }
    ensures { Gives result (make_fun place.now (zip domain.now (map tree_of values.items))) }
{
    let _rising = domain.items();
    made_fun(place, FunValue::on(alloc, domain, values))
}

/// The function on the members of one set, with these values.
pub fn function_on<'p>(
    alloc: Global,
    place: &'p Place,
    sets: &[Evaluated<'_>],
    values: Vec<Value>,
) -> Result<Value, FaultRef<'p>>
    requires one { length sets.now ≡ 1 }
    requires paired { AreForChoices place.now (map tree_of_evaluated sets.now)
        (map tree_of values.items) }
    ensures { Gives result
        (function_rule place.now (map tree_of_evaluated sets.now) (map tree_of values.items)) }
{
    let domain = copied_set(alloc, place, sets[0].value())?;
    function_with(alloc, place, &domain, values)
}

/// The domain of the functions on all choices from some sets, or the fault of every such function.
pub fn domain_of<'p>(
    alloc: Global,
    place: &'p Place,
    sets: &[Evaluated<'_>],
) -> Result<Domain<'p>, FaultRef<'p>>
    requires { length sets.now ≡ 1 → ⊥ }
    ensures { FindsDomain place.now (map tree_of_evaluated sets.now) result }
{
    let sets = as_sets(alloc, place, sets)?;
    each_rises(sets.as_slice());
    match SetValue::product(alloc, sets.as_slice()) {
        Ok(tuples) => Ok(Domain::Tuples(tuples)),
        Err(error) => Ok(Domain::Refused(refused(place, error))),
    }
}
