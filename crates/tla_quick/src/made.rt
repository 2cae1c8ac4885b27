//! Applies forms to the values of their operands.
ghost use Rattle.std.specs.Prelude.{◌≡◌, ◌<◌, ◌+◌, ◌++◌, Ok, IfOk, IfSome, OnOk, List, length, cond, map, slice_get};
ghost use Rattle.std.specs.Option.{option_to_list};
ghost use Rattle.tla_value.specs.Tree.{Tree, truth, fun, pairs};
ghost use Rattle.tla_value.specs.TreeOf.{tree_of, pair_of};
ghost use Rattle.tla_value.specs.Funs.{MakesFun};
ghost use Rattle.tla_core.specs.declared.fault.Place.{Place as AnyPlace};
ghost use Rattle.tla_core.specs.declared.fault.FaultCode.TheVariants.{NoChoice};
ghost use Rattle.tla_core.specs.Kinds.{as_fun, as_set, make_fun, make_set, or_fault, rising_fun};
ghost use Rattle.tla_core.specs.Fault.{Outcome};
ghost use Rattle.tla_core.specs.Expr.{Expr, Exprs, Iff, sub_seq, product, enumerated};
ghost use Rattle.tla_core.specs.ExprOf.{binary_of};
ghost use Rattle.tla_core.specs.Operators.{binary_rule};
ghost use Rattle.tla_core.specs.Lists.{each};
ghost use Rattle.tla_core.specs.Meaning.{Meaning, Bound, Present, Next, elements};
ghost use Rattle.tla_core.specs.Value.{val, mem, means, mean_all};
ghost use Rattle.tla_code.specs.Forms.{one_expr, two_expr, list_expr};
ghost use Rattle.tla_code.specs.declared.code.OneForm.TheVariants.{Field};
ghost use Rattle.tla_code.specs.declared.code.TwoForm.TheVariants.{Apply, Operator as of_two};
ghost use Rattle.tla_operators.specs.Evaluated.{tree_of_evaluated};
ghost use Rattle.tla_sets.specs.Elements.{elements_of};
ghost use Rattle.tla_quick.specs.Private.Answers.{Answers};

use crate::patterns::try_set;
use crate::stop::Stop;
use std::alloc::Global;
use tla_code::{ListForm, OneForm, TwoForm};
use tla_core::{Binary, Place};
use tla_eval::laws::sets;
use tla_operators::evaluated::Evaluated;
use tla_operators::functions::{apply, field, into_function, made_fun};
use tla_operators::operators::{binary, two_ints, unary};
use tla_operators::sequences::{sequence_of, sub_seq};
use tla_operators::sets::{
    difference_of, functions_between, intersection_of, made_set, subsets_of, tuples_with, union_of,
};
use tla_sets::asked::{set_has, two_have};
use tla_sets::elements::{Elements, chosen_at, elements_of_two, into_values, keep_at, members_of};
use tla_value::{FunValue, SetValue, Text, Value, ValueError};

/// An owned value: a borrowed one is copied.
pub(crate) fn owned(alloc: Global, value: Evaluated<'_>) -> Result<Value, Stop>
    ensures value { IfOk result (λ v. tree_of_evaluated value.entry ≡ tree_of v) }
    ensures told { (o : Outcome Tree)
        → o ≡ Ok (tree_of_evaluated value.entry)
        → Answers tree_of result o }
{
    Ok(value.into_value(alloc)?)
}

/// A value as a truth value.
pub(crate) fn known_truth(value: &Value) -> Result<bool, Stop>
    ensures { (o : Outcome Tree) → o ≡ Ok (tree_of value.now) → Answers truth result o }
{
    match value {
        Value::Truth(holds) => Ok(*holds),
        _ => Err(Stop::GaveUp),
    }
}

/// The sum of two numbers of names or definitions.
pub(crate) fn count_more(count: usize, more: usize) -> Result<usize, Stop>
    ensures { IfOk result (λ n. n ≡ count + more) }
{
    match count.checked_add(more) {
        Some(sum) => Ok(sum),
        None => Err(Stop::GaveUp),
    }
}

/// Whether a value is a member of a set.
pub(crate) fn has_known(set: &Value, value: &Value) -> Result<bool, Stop>
    ensures { (e : Expr) (b : Bound) (s : Present) (t : Next)
        → val e b s t ≡ Ok (tree_of set.now)
        → Answers (λ x. x) result (mem (tree_of value.now) e b s t) }
{
    sets();
    let _depth = value.nesting();
    match set {
        Value::Set(set) => Ok(set.contains(value)),
        _ => Err(Stop::GaveUp),
    }
}

/// The value of a form with one operand.
pub(crate) fn made_of_one<'m, 'a>(
    alloc: Global,
    place: &Place,
    form: OneForm<'m>,
    operand: Evaluated<'a>,
) -> Result<Evaluated<'a>, Stop>
    ensures { (e : Expr) (b : Bound) (s : Present) (t : Next)
        → val e b s t ≡ Ok (tree_of_evaluated operand.entry)
        → Answers tree_of_evaluated result (val (one_expr form.entry place.now e) b s t) }
{
    match form {
        OneForm::Operator(operator) => Ok(unary(alloc, place, operator, operand)?),
        OneForm::Field(name) => Ok(field(alloc, place, name, operand)?),
        OneForm::Power => Ok(Evaluated::Owned(subsets_of(alloc, place, operand.value())?)),
        OneForm::CheckPattern(count) => {
            try_set(count, operand.value())?;
            Ok(operand)
        }
        OneForm::Sequences => Err(Stop::GaveUp),
    }
}

/// The value of a form with two operands that needs both values.
pub(crate) fn made_of_two<'a>(
    alloc: Global,
    place: &Place,
    form: TwoForm,
    left: Evaluated<'a>,
    right: Evaluated<'a>,
) -> Result<Evaluated<'a>, Stop>
    ensures { (e d : Expr) (b : Bound) (s : Present) (t : Next)
        → val e b s t ≡ Ok (tree_of_evaluated left.entry)
        → val d b s t ≡ Ok (tree_of_evaluated right.entry)
        → Answers tree_of_evaluated result (val (two_expr form place.now e d) b s t) }
{
    match form {
        TwoForm::Apply => Ok(apply(alloc, place, left, right.value())?),
        _ => Ok(Evaluated::Owned(made_of_values(alloc, place, form, left.value(), right.value())?)),
    }
}

/// The value of a function at an argument, borrowed from the function.
pub(crate) fn held_at<'a>(
    alloc: Global,
    place: &Place,
    function: &'a Value,
    argument: &Value,
) -> Option<&'a Value>
    ensures { (e d : Expr) (b : Bound) (s : Present) (t : Next)
        → val e b s t ≡ Ok (tree_of function.now)
        → val d b s t ≡ Ok (tree_of argument.now)
        → IfSome result (λ v. val (two_expr Apply place.now e d) b s t ≡ Ok (tree_of v.now)) }
{
    match apply(alloc, place, Evaluated::Borrowed(function), argument) {
        Ok(Evaluated::Borrowed(value)) => Some(value),
        _ => None,
    }
}

/// The value of a record's field, borrowed from the record.
pub(crate) fn held_field<'a>(
    alloc: Global,
    place: &Place,
    name: &Text,
    base: &'a Value,
) -> Option<&'a Value>
    ensures { (e : Expr) (b : Bound) (s : Present) (t : Next)
        → val e b s t ≡ Ok (tree_of base.now)
        → IfSome result (λ v.
        val (one_expr (Field name.entry) place.now e) b s t ≡ Ok (tree_of v.now)) }
{
    match field(alloc, place, name, Evaluated::Borrowed(base)) {
        Ok(Evaluated::Borrowed(value)) => Some(value),
        _ => None,
    }
}

/// The value of any other form with two operands: it borrows nothing from them.
fn made_of_values(
    alloc: Global,
    place: &Place,
    form: TwoForm,
    left: &Value,
    right: &Value,
) -> Result<Value, Stop>
    ensures { (e d : Expr) (b : Bound) (s : Present) (t : Next)
        → val e b s t ≡ Ok (tree_of left.now)
        → val d b s t ≡ Ok (tree_of right.now)
        → Answers tree_of result (val (two_expr form place.now e d) b s t) }
{
    match form {
        TwoForm::Operator(operator) => Ok(binary(alloc, place, operator, left, right)?),
        TwoForm::Functions => Ok(functions_between(alloc, place, left, right)?),
        TwoForm::Cup => Ok(union_of(alloc, place, left, right)?),
        TwoForm::Cap => Ok(intersection_of(alloc, place, left, right)?),
        TwoForm::Minus => Ok(difference_of(alloc, place, left, right)?),
        _ => Err(Stop::GaveUp),
    }
}

/// Whether a form with two operands that compares their values is TRUE.
pub(crate) fn compared(
    place: &Place,
    form: TwoForm,
    left: &Value,
    right: &Value,
) -> Result<bool, Stop>
    ensures { (e d : Expr) (b : Bound) (s : Present) (t : Next)
        → val e b s t ≡ Ok (tree_of left.now)
        → val d b s t ≡ Ok (tree_of right.now)
        → Answers truth result (val (two_expr form place.now e d) b s t) }
{
    match form {
        TwoForm::Equal => Ok(left == right),
        TwoForm::Operator(operator) => compared_by(place, operator, left, right),
        _ => Err(Stop::GaveUp),
    }
}

/// Whether an operator that compares two values is TRUE.
fn compared_by(place: &Place, operator: Binary, left: &Value, right: &Value) -> Result<bool, Stop>
    ensures { Answers truth result
        (binary_rule (binary_of operator) place.now (tree_of left.now) (tree_of right.now)) }
{
    match operator {
        Binary::Unequal => Ok(left != right),
        Binary::Iff => same_truth(left, right),
        Binary::LessThan => {
            let (left, right) = two_ints(place, left, right)?;
            Ok(left < right)
        }
        Binary::GreaterThan => {
            let (left, right) = two_ints(place, left, right)?;
            Ok(left > right)
        }
        Binary::AtMost => {
            let (left, right) = two_ints(place, left, right)?;
            Ok(left <= right)
        }
        Binary::AtLeast => {
            let (left, right) = two_ints(place, left, right)?;
            Ok(left >= right)
        }
        _ => Err(Stop::GaveUp),
    }
}

/// `<=>`
fn same_truth(left: &Value, right: &Value) -> Result<bool, Stop>
    ensures { (p : AnyPlace)
        → Answers truth result (binary_rule Iff p (tree_of left.now) (tree_of right.now)) }
{
    match (left, right) {
        (Value::Truth(left), Value::Truth(right)) => Ok(*left == *right),
        (_, _) => Err(Stop::GaveUp),
    }
}

/// Whether a value is a member of the result of an operator. A range is not built.
pub(crate) fn operator_has(
    alloc: Global,
    place: &Place,
    operator: Binary,
    left: &Value,
    right: &Value,
    value: &Value,
) -> Result<bool, Stop>
    ensures { (e d : Expr) (b : Bound) (s : Present) (t : Next)
        → val e b s t ≡ Ok (tree_of left.now)
        → val d b s t ≡ Ok (tree_of right.now)
        → Answers (λ x. x) result
        (mem (tree_of value.now) (two_expr (of_two operator) place.now e d) b s t) }
{
    Ok(two_have(alloc, place, operator, left, right, value)?)
}

/// The elements of the result of the operator at the place `at`. A range is not built.
pub(crate) fn operator_elements<'a>(
    alloc: Global,
    place: &Place,
    at: &Place,
    operator: Binary,
    left: &Value,
    right: &Value,
) -> Result<Elements<'a>, Stop>
    ensures { (e d : Expr) (b : Bound) (s : Present) (t : Next)
        → val e b s t ≡ Ok (tree_of left.now)
        → val d b s t ≡ Ok (tree_of right.now)
        → Answers elements_of result
        (elements place.now (means (two_expr (of_two operator) at.now e d)) b s t) }
{
    Ok(elements_of_two(alloc, place, at, operator, left, right)?)
}

/// The elements of a set.
pub(crate) fn known_elements<'a>(place: &Place, set: Evaluated<'a>) -> Result<Elements<'a>, Stop>
    ensures { (e : Expr) (b : Bound) (s : Present) (t : Next)
        → val e b s t ≡ Ok (tree_of_evaluated set.entry)
        → Answers elements_of result (elements place.now (means e) b s t) }
{
    Ok(members_of(place, set)?)
}

/// `SubSeq`.
pub(crate) fn made_of_three(
    alloc: Global,
    place: &Place,
    first: &Value,
    second: &Value,
    third: &Value,
) -> Result<Value, Stop>
    ensures { (e d f : Expr) (b : Bound) (s : Present) (t : Next)
        → val e b s t ≡ Ok (tree_of first.now)
        → val d b s t ≡ Ok (tree_of second.now)
        → val f b s t ≡ Ok (tree_of third.now)
        → Answers tree_of result (val (sub_seq place.now e d f) b s t) }
{
    Ok(sub_seq(alloc, place, first, second, third)?)
}

/// The value of a form with a list of operands.
pub(crate) fn made_of_list(
    alloc: Global,
    place: &Place,
    form: ListForm,
    values: Vec<Value>,
) -> Result<Value, Stop>
    ensures { (es : Exprs) (b : Bound) (s : Present) (t : Next)
        → each (λ (m : Meaning). m.value b s t) (mean_all es) ≡ Ok (map tree_of values.items)
        → Answers tree_of result (val (list_expr form place.now es) b s t) }
{
    match form {
        ListForm::Enumerated => Ok(made_set(place, SetValue::from_values(alloc, values))?),
        ListForm::Tuple => Ok(sequence_of(alloc, place, values)?),
        _ => Err(Stop::GaveUp),
    }
}

/// `S \X T ..`.
pub(crate) fn made_product(
    alloc: Global,
    place: &Place,
    values: &[Evaluated<'_>],
) -> Result<Value, Stop>
    ensures { (es : Exprs) (b : Bound) (s : Present) (t : Next)
        → each (λ (m : Meaning). m.value b s t) (mean_all es)
        ≡ Ok (map tree_of_evaluated values.now)
        → Answers tree_of result (val (product place.now es) b s t) }
{
    Ok(tuples_with(alloc, place, values)?)
}

/// Whether a value is one of these values.
pub(crate) fn one_of_known(
    alloc: Global,
    place: &Place,
    values: &[Evaluated<'_>],
    value: &Value,
) -> Result<bool, Stop>
    ensures { (es : Exprs) (b : Bound) (s : Present) (t : Next)
        → each (λ (m : Meaning). m.value b s t) (mean_all es)
        ≡ Ok (map tree_of_evaluated values.now)
        → Answers (λ x. x) result (mem (tree_of value.now) (enumerated place.now es) b s t) }
{
    Ok(set_has(alloc, place, values, value)?)
}

/// The set of some values.
pub(crate) fn set_of(alloc: Global, place: &Place, values: Vec<Value>) -> Result<Value, Stop>
    ensures { Answers tree_of result (make_set place.now (map tree_of values.items)) }
{
    Ok(made_set(place, SetValue::from_values(alloc, values))?)
}

/// A copy of the element at an index.
pub(crate) fn chosen<'a>(
    alloc: Global,
    elements: &'a Elements<'a>,
    number: usize,
) -> Result<Value, Stop>
    requires { number < length (elements_of elements.now) }
    ensures { (p : AnyPlace)
        → Answers tree_of result
        (or_fault NoChoice p (slice_get (elements_of elements.now) number)) }
{
    Ok(chosen_at(alloc, elements, number)?)
}

/// Appends a copy of the element at an index, if it is to be kept.
pub(crate) fn keep<'a>(
    alloc: Global,
    kept: &mut Vec<Value>,
    elements: &'a Elements<'a>,
    number: usize,
    keep: bool,
) -> Result<(), Stop>
    requires { number < length (elements_of elements.now) }
    ensures { OnOk result
        (map tree_of kept.new.items
        ≡ cond keep
        (map tree_of kept.old.items
        ++ option_to_list (slice_get (elements_of elements.now) number))
        (map tree_of kept.old.items)) }
{
    Ok(keep_at(alloc, kept, elements, number, keep)?)
}

/// The members of a set.
#[tactic(auto, using(tla_operators::proofs::Known::as_set_known))]
pub(crate) fn known_members(set: &Value) -> Result<&[Value], Stop>
    ensures { (place : AnyPlace)
        → Answers (λ vs. map tree_of vs.now) result (as_set place (tree_of set.now)) }
{
    match set {
        Value::Set(set) => Ok(set.items()),
        _ => Err(Stop::GaveUp),
    }
}

/// The record of some fields.
pub(crate) fn made_record(
    alloc: Global,
    place: &Place,
    pairs: Vec<(Value, Value)>,
) -> Result<Value, Stop>
    ensures { Answers tree_of result (make_fun place.now (map pair_of pairs.items)) }
{
    Ok(made_fun(place, FunValue::from_pairs(alloc, pairs))?)
}

/// An owned function: a borrowed one is copied.
pub(crate) fn known_function(
    alloc: Global,
    place: &Place,
    value: Evaluated<'_>,
) -> Result<FunValue, Stop>
    ensures { Answers (λ f. f) result (as_fun place.now (tree_of_evaluated value.entry)) }
{
    Ok(into_function(alloc, place, value)?)
}

/// A function as a value.
pub(crate) fn owned_function(function: FunValue) -> Value
    ensures { tree_of result ≡ fun (pairs function) }
{
    Value::Fun(function)
}

/// The function as a value.
pub(crate) fn made_function(
    place: &Place,
    made: Result<FunValue, ValueError>,
) -> Result<Value, Stop>
    ensures { (ps : List (Tree × Tree))
        → MakesFun ps made
        → Answers tree_of result (rising_fun place.now ps) }
{
    Ok(made_fun(place, made)?)
}

/// The elements by value.
pub(crate) fn all_values(alloc: Global, elements: Elements<'_>) -> Result<Vec<Value>, Stop>
    ensures { IfOk result (λ v. map tree_of v.items ≡ elements_of elements.entry) }
{
    Ok(into_values(alloc, elements)?)
}
