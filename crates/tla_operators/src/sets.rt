//! Sets built from values, and membership in values.
ghost use Rattle.std.specs.Prelude.{◌≡◌, ◌<◌, ◌≤◌, ◌++◌, ◌∷◌, [], Ok, Some, List, false, true, filter, length, map, not, option_map, slice_get};
ghost use Rattle.tla_value.specs.Tree.{Tree, int, truth, set, trees};
ghost use Rattle.tla_value.specs.TreeOf.{tree_of};
ghost use Rattle.tla_value.specs.Order.{tree_eq};
ghost use Rattle.tla_value.specs.Funs.{arguments};
ghost use Rattle.tla_value.specs.Sets.{is_member, MakesSet, MakesSetOfFunctions};
ghost use Rattle.tla_core.specs.Kinds.{as_set, members_of, rising_set, sized_set, size_of_functions};
ghost use Rattle.tla_value.specs.declared.set.TheConstants.{MAX_ELEMENTS};
ghost use Rattle.tla_value.specs.Choices.{range_of, functions_of};
ghost use Rattle.tla_core.specs.Expr.{Union};
ghost use Rattle.tla_core.specs.Operators.{joined_sets, unary_rule};
ghost use Rattle.tla_core.specs.Lists.{each};
ghost use Rattle.tla_core.specs.SetForms.{on_sets};
ghost use Rattle.tla_operators.specs.Gives.{Gives, GivesBy, GivesTruth, IsRefusal, contains_rule, subsets_rule, tuples_rule};
ghost use Rattle.tla_operators.specs.Evaluated.{Evaluates, tree_of_evaluated};
ghost use Rattle.tla_operators.specs.Gathered.{Gathers};

use crate::evaluated::Evaluated;
use crate::fault_ref::{FaultRef, fault_at, memory};
use crate::gathered::Gathered;
use std::alloc::Global;
use tla_core::{FaultCode, Place};
use tla_value::{Arguments, FunValue, SetValue, Value, ValueError};

/// The members of a set; another value is a fault.
#[tactic(auto, using(crate::proofs::Known::as_set_known))]
pub fn members<'p, 'a>(place: &'p Place, set: &'a Value) -> Result<&'a [Value], FaultRef<'p>>
    ensures { GivesBy (λ s. map tree_of s.now) result (as_set place.now (tree_of set.now)) }
{
    match set {
        Value::Set(set) => Ok(set.items()),
        _ => Err(fault_at(FaultCode::WrongKind, place)),
    }
}

/// Whether a value is a member of a set; anything but a set is a fault.
#[tactic(auto, using(crate::proofs::Known::as_set_known))]
pub fn contains<'p>(place: &'p Place, set: &Value, value: &Value) -> Result<bool, FaultRef<'p>>
    ensures { GivesTruth result (contains_rule place.now (tree_of set.now) (tree_of value.now)) }
{
    match set {
        Value::Set(set) => Ok(set.contains(value)),
        _ => Err(fault_at(FaultCode::WrongKind, place)),
    }
}

/// The fault of a value that would exceed a limit.
pub fn refused(place: &Place, error: ValueError) -> FaultRef<'_>
    ensures { IsRefusal error place.now result }
{
    match error {
        ValueError::TooMany => fault_at(FaultCode::TooMany, place),
        ValueError::TooDeep => fault_at(FaultCode::TooDeep, place),
        ValueError::Memory => memory(),
    }
}

/// The set as a value, or the fault for the limit that it would exceed.
#[tactic(auto, using(crate::proofs::Made::set_made, crate::proofs::Made::set_refused))]
pub fn made_set(place: &Place, made: Result<SetValue, ValueError>) -> Result<Value, FaultRef<'_>>
    ensures { (ts : List Tree) → MakesSet ts made → Gives result (rising_set place.now ts) }
{
    match made {
        Ok(set) => Ok(Value::Set(set)),
        Err(error) => Err(refused(place, error)),
    }
}

/// `S \cup T`.
pub fn union_of<'p>(
    alloc: Global,
    place: &'p Place,
    left: &Value,
    right: &Value,
) -> Result<Value, FaultRef<'p>>
    ensures { Gives result
        (on_sets place.now (λ xs ys. xs ++ ys) (tree_of left.now) (tree_of right.now)) }
{
    match (left, right) {
        (Value::Set(left), Value::Set(right)) => made_set(place, left.union(alloc, right)),
        (_, _) => Err(fault_at(FaultCode::WrongKind, place)),
    }
}

/// `S \cap T`.
pub fn intersection_of<'p>(
    alloc: Global,
    place: &'p Place,
    left: &Value,
    right: &Value,
) -> Result<Value, FaultRef<'p>>
    ensures { Gives result
        (on_sets place.now (λ xs ys. filter (λ v. is_member v ys) xs) (tree_of left.now)
        (tree_of right.now)) }
{
    match (left, right) {
        (Value::Set(left), Value::Set(right)) => {
            let _rising = left.items();
            made_set(place, left.intersect(alloc, right))
        }
        (_, _) => Err(fault_at(FaultCode::WrongKind, place)),
    }
}

/// `S \ T`.
pub fn difference_of<'p>(
    alloc: Global,
    place: &'p Place,
    left: &Value,
    right: &Value,
) -> Result<Value, FaultRef<'p>>
    ensures { Gives result
        (on_sets place.now (λ xs ys. filter (λ v. not (is_member v ys)) xs) (tree_of left.now)
        (tree_of right.now)) }
{
    match (left, right) {
        (Value::Set(left), Value::Set(right)) => {
            let _rising = left.items();
            made_set(place, left.minus(alloc, right))
        }
        (_, _) => Err(fault_at(FaultCode::WrongKind, place)),
    }
}

/// `SUBSET S`.
pub fn subsets_of<'p>(alloc: Global, place: &'p Place, set: &Value) -> Result<Value, FaultRef<'p>>
    ensures { Gives result (subsets_rule place.now (tree_of set.now)) }
{
    match set {
        Value::Set(set) => made_set(place, set.power(alloc)),
        _ => Err(fault_at(FaultCode::WrongKind, place)),
    }
}

/// `[S -> T]`.
pub fn functions_between<'p>(
    alloc: Global,
    place: &'p Place,
    domain: &Value,
    range: &Value,
) -> Result<Value, FaultRef<'p>>
    ensures { Gives result
        (on_sets place.now functions_of (tree_of domain.now) (tree_of range.now)) }
{
    match (domain, range) {
        (Value::Set(domain), Value::Set(range)) => made_set(
            place,
            SetValue::function_set(alloc, domain, range),
        ),
        (_, _) => Err(fault_at(FaultCode::WrongKind, place)),
    }
}

/// The set of functions as a value, or the fault for the limit that it would exceed.
#[tactic(auto, using(crate::proofs::Made::functions_made, crate::proofs::Made::functions_refused))]
pub fn made_functions(
    place: &Place,
    made: Result<SetValue, ValueError>,
) -> Result<Value, FaultRef<'_>>
    ensures { (ts : List Tree)
        → MakesSetOfFunctions ts made
        → Gives result (sized_set place.now (size_of_functions ts) ts) }
{
    match made {
        Ok(set) => Ok(Value::Set(set)),
        Err(error) => Err(refused(place, error)),
    }
}

/// `S \X T ..`: the tuples with one item of each set.
pub fn tuples_with<'p>(
    alloc: Global,
    place: &'p Place,
    values: &[Evaluated<'_>],
) -> Result<Value, FaultRef<'p>>
    ensures { Gives result (tuples_rule place.now (map tree_of_evaluated values.now)) }
{
    let sets = as_sets(alloc, place, values)?;
    made_functions(place, SetValue::product(alloc, sets.as_slice()))
}

/// A copy of a value as a set; another value is a fault.
#[tactic(auto, using(crate::proofs::Known::as_set_known))]
pub fn copied_set<'p>(
    alloc: Global,
    place: &'p Place,
    value: &Value,
) -> Result<SetValue, FaultRef<'p>>
    ensures { GivesBy (λ s. s) result (as_set place.now (tree_of value.now)) }
{
    match value {
        Value::Set(set) => match set.copy(alloc) {
            Ok(set) => Ok(set),
            Err(_) => Err(memory()),
        },
        _ => Err(fault_at(FaultCode::WrongKind, place)),
    }
}

/// Copies of some values as sets; another value is a fault.
pub fn as_sets<'p>(
    alloc: Global,
    place: &'p Place,
    values: &[Evaluated<'_>],
) -> Result<Vec<SetValue>, FaultRef<'p>>
    ensures { GivesBy (λ v. v.items) result
        (each (as_set place.now) (map tree_of_evaluated values.now)) }
{
    let mut sets = Vec::with_capacity(alloc, values.len())?;
    for value in values {
        sets.push(copied_set(alloc, place, value.value())?)?;
    }
    Ok(sets)
}

/// The members of a value, if it is a set.
#[tactic(auto, using(crate::proofs::Known::members_known))]
pub fn if_set<'a>(value: &'a Value) -> Option<&'a [Value]>
    ensures { option_map (λ s. map tree_of s.now) result ≡ members_of (tree_of value.now) }
{
    match value {
        Value::Set(set) => Some(set.items()),
        _ => None,
    }
}

/// The numbers from `low` to `high`.
pub(crate) fn range(
    alloc: Global,
    place: &Place,
    low: i64,
    high: i64,
) -> Result<Value, FaultRef<'_>>
    ensures { Gives result (rising_set place.now (range_of low high)) }
{
    made_set(place, SetValue::range(alloc, low, high))
}

/// `UNION S`.
pub(crate) fn union_all<'p>(
    alloc: Global,
    place: &'p Place,
    sets: &Value,
) -> Result<Value, FaultRef<'p>>
    ensures { Gives result (unary_rule Union place.now (tree_of sets.now)) }
{
    let sets = members(place, sets)?;
    joined(alloc, place, sets)?.into_set(alloc, place)
}

/// The distinct members of some sets.
fn joined<'p>(alloc: Global, place: &'p Place, sets: &[Value]) -> Result<Gathered, FaultRef<'p>>
    ensures { Gathers result (joined_sets place.now (map tree_of sets.now)) }
{
    let mut gathered = Gathered::new(alloc);
    for set in sets {
        gathered.add_copies(alloc, members(place, set)?)?;
    }
    Ok(gathered)
}

/// `BOOLEAN`.
pub fn booleans<'p, 'a>(alloc: Global, place: &'p Place) -> Result<Evaluated<'a>, FaultRef<'p>>
    ensures { Evaluates result (Ok (set (trees (truth false ∷ truth true ∷ [])))) }
{
    Ok(Evaluated::Owned(truth_values(alloc, place)?))
}

/// The set of FALSE and TRUE.
fn truth_values(alloc: Global, place: &Place) -> Result<Value, FaultRef<'_>>
    ensures { Gives result (Ok (set (trees (truth false ∷ truth true ∷ [])))) }
{
    let values = Vec::from_array(alloc, [Value::Truth(false), Value::Truth(true)])?;
    made_set(place, SetValue::from_values(alloc, values))
}

fn is_number(value: &Value, number: i64) -> bool
    ensures { result ≡ tree_eq (int number) (tree_of value.now) }
{
    match value {
        Value::Int(found) => *found == number,
        _ => false,
    }
}

fn is_same(left: &Value, right: &Value) -> bool
    ensures { result ≡ tree_eq (tree_of left.now) (tree_of right.now) }
{
    left == right
}

/// Whether the argument of a function at an index is this value.
fn is_argument(function: &FunValue, place: usize, value: &Value) -> bool
    requires within { place < length function.now }
    requires few { length function.now ≤ MAX_ELEMENTS }
    ensures { option_map (λ a. tree_eq a (tree_of value.now))
        (slice_get (arguments function.now) place)
        ≡ Some result }
{
    match function.arguments() {
        Arguments::Numbers(first) => is_number(value, first + place as i64),
        Arguments::Listed(listed) => is_same(&listed[place], value),
    }
}

/// Whether the arguments of a function are exactly these values, in order.
pub fn has_domain(function: &FunValue, values: &[Value]) -> bool
    ensures { result
        ≡ tree_eq (set (trees (arguments function.now))) (set (trees (map tree_of values.now))) }
{
    if function.len() != values.len() {
        return false;
    }
    for i in 0..values.len() {
        if !is_argument(function, i, &values[i]) {
            return false;
        }
    }
    true
}
