//! Functions and sets over all choices from some sets.
ghost use Rattle.std.specs.Prelude.{◌≡◌, ◌∷◌, [], IfOk, OnOk, List, length, map, option_map, slice_get, zip};
ghost use Rattle.tla_value.specs.Tree.{Tree};
ghost use Rattle.tla_value.specs.TreeOf.{tree_of};
ghost use Rattle.tla_value.specs.Choices.{choices};
ghost use Rattle.tla_core.specs.Kinds.{as_set, make_fun, make_set};
ghost use Rattle.tla_core.specs.Lists.{each};
ghost use Rattle.tla_operators.specs.Evaluated.{tree_of_evaluated};
ghost use Rattle.tla_operators.specs.Gathered.{Adds, IsGathered};
ghost use Rattle.tla_sets.specs.Domain.{AreForChoices, function_rule};
ghost use Rattle.tla_quick.specs.Private.Answers.{Answers};

use crate::stop::Stop;
use std::alloc::Global;
use tla_core::Place;
use tla_operators::evaluated::Evaluated;
use tla_operators::gathered::Gathered;
use tla_operators::sets::copied_set;
use tla_sets::domain::{Domain, choice_at, domain_of, function_with, lists_of};
use tla_value::{SetValue, Value};

/// The members of each of some sets.
pub(crate) fn known_lists<'a>(
    alloc: Global,
    place: &Place,
    sets: &'a [Evaluated<'a>],
) -> Result<Vec<&'a [Value]>, Stop>
    ensures { Answers (λ v. map (λ l. map tree_of l.now) v.items) result
        (each (as_set place.now) (map tree_of_evaluated sets.now)) }
{
    Ok(lists_of(alloc, place, sets)?)
}

/// Choice `number` of one member from each list; None if there are fewer choices.
pub(crate) fn known_choice(
    alloc: Global,
    lists: &[&[Value]],
    number: usize,
) -> Result<Option<Vec<Value>>, Stop>
    ensures { IfOk result (λ o.
        option_map (λ v. map tree_of v.items) o
        ≡ slice_get (choices (map (λ l. map tree_of l.now) lists.now)) number) }
{
    Ok(choice_at(alloc, lists, number)?)
}

/// Adds a value to a collection.
pub(crate) fn gather(values: &mut Gathered, value: Value) -> Result<(), Stop>
    ensures { OnOk result (Adds (tree_of value ∷ []) values.old values.new) }
{
    Ok(values.add(value)?)
}

/// The set of the collected values.
pub(crate) fn gathered_set(alloc: Global, place: &Place, values: Gathered) -> Result<Value, Stop>
    ensures { (ts : List Tree)
        → IsGathered ts values
        → Answers tree_of result (make_set place.now ts) }
{
    Ok(values.into_set(alloc, place)?)
}

/// The domain of a function over all choices from these sets.
pub(crate) fn known_domain(
    alloc: Global,
    place: &Place,
    sets: &[Evaluated<'_>],
) -> Result<SetValue, Stop>
    ensures { IfOk result (λ ts.
        (ys : List Tree)
        → AreForChoices place.now (map tree_of_evaluated sets.now) ys
        → (length ts ≡ length ys)
        × (function_rule place.now (map tree_of_evaluated sets.now) ys
        ≡ make_fun place.now (zip ts ys))) }
{
    if sets.len() == 1 {
        one_domain(alloc, place, sets)
    } else {
        domain_of_several(alloc, place, sets)
    }
}

/// The domain for one set: its members.
fn one_domain(alloc: Global, place: &Place, sets: &[Evaluated<'_>]) -> Result<SetValue, Stop>
    requires { length sets.now ≡ 1 }
    ensures { IfOk result (λ ts.
        (ys : List Tree)
        → AreForChoices place.now (map tree_of_evaluated sets.now) ys
        → (length ts ≡ length ys)
        × (function_rule place.now (map tree_of_evaluated sets.now) ys
        ≡ make_fun place.now (zip ts ys))) }
{
    let domain = copied_set(alloc, place, sets[0].value())?;
    Ok(domain)
}

/// The domain for several sets: the tuples with one member of each.
fn domain_of_several(alloc: Global, place: &Place, sets: &[Evaluated<'_>]) -> Result<SetValue, Stop>
    requires { length sets.now ≡ 1 → ⊥ }
    ensures { IfOk result (λ ts.
        (ys : List Tree)
        → AreForChoices place.now (map tree_of_evaluated sets.now) ys
        → (length ts ≡ length ys)
        × (function_rule place.now (map tree_of_evaluated sets.now) ys
        ≡ make_fun place.now (zip ts ys))) }
{
    match domain_of(alloc, place, sets)? {
        Domain::Tuples(tuples) => Ok(tuples),
        Domain::Refused(_) => Err(Stop::GaveUp),
    }
}

/// The function on the members of a set, in their order, with these values.
pub(crate) fn made_function_with(
    alloc: Global,
    place: &Place,
    domain: &SetValue,
    values: Vec<Value>,
) -> Result<Value, Stop>
    requires { length domain.now ≡ length values.items }
    ensures { Answers tree_of result
        (make_fun place.now (zip domain.now (map tree_of values.items))) }
{
    Ok(function_with(alloc, place, domain, values)?)
}
