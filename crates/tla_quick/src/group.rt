//! Conditions and values that are evaluated together: what they have in common is evaluated once.
ghost use Rattle.std.specs.Prelude.{◌≡◌, IfOk, IfSome, map, option_map};
ghost use Rattle.std.specs.List.{AllZip};
ghost use Rattle.tla_value.specs.TreeOf.{tree_of};
ghost use Rattle.tla_code.specs.CodeExpr.{Scope, code_expr, expr_in};
ghost use Rattle.tla_code.specs.Forms.{list_expr};
ghost use Rattle.tla_code.specs.Private.Listed.{StandsFor, exprs_of_cores};
ghost use Rattle.tla_quick.specs.Groups.{referred, AreFound};
ghost use Rattle.tla_quick.specs.SameMeaning.{HasSameValue, HasSameValue-prop};
ghost use Rattle.tla_quick.specs.Private.Kept.{prepared_expr};
ghost use Rattle.tla_quick.specs.Private.Grouped.{group_expr, IsAnswer};

use crate::constants::{is_shared, prepare_code};
use crate::environment::Environment;
use crate::evaluation::value;
use crate::frame::Frame;
use crate::prepared::Prepared;
use std::alloc::{AllocError, Global};
use std::marker::Model;
use tla_code::{Code, ListForm, ThreeForm, code_of};
use tla_core::{Core, Place};
use tla_eval::Partial;
use tla_value::{State, Value};

/// Conditions, and expressions whose values are needed if all conditions are TRUE. In contracts, the two lists.
#[derive(Drop)]
pub struct Group<'m> {
    place: Place,
    conditions: Vec<&'m Core>,
    values: Vec<&'m Core>,
    prepared: Box<Prepared<'m>>,
    ghost same: { HasSameValue (prepared_expr prepared.value) (group_expr place (referred conditions.items) (referred values.items)) } by { HasSameValue-prop (prepared_expr prepared.value) (group_expr place (referred conditions.items) (referred values.items)) },
}

impl<'m> Model for Group<'m> {
    ghost use Rattle.std.specs.Prelude.{List};
    ghost use Rattle.std.specs.Coded.{coded_list, coded×};
    ghost use Rattle.tla_core.specs.declared.expression.Core.{Core};
    ghost use Rattle.tla_core.specs.contracts.expression.Core.{the_row};
    ghost use Rattle.tla_quick.specs.Groups.{referred};

    ghost Value = { List Core × List Core };

    ghost coded = { coded× (coded_list the_row.coded) (coded_list the_row.coded) };

    ghost view = { λ g. (referred g.conditions.items, referred g.values.items) };
}

impl<'m> Group<'m> {
    /// The group of some conditions and values under `names` bound names, or none if they have no parts in common. The
    /// only error is that memory ran out.
    pub fn new(
        alloc: Global,
        place: Place,
        conditions: Vec<&'m Core>,
        values: Vec<&'m Core>,
        names: usize,
    ) -> Result<Option<Group<'m>>, AllocError>
        ensures { IfOk result (λ o.
            IfSome o (λ g. g ≡ (referred conditions.entry.items, referred values.entry.items))) }
    {
        let code = group_code(alloc, place, conditions.as_slice(), values.as_slice())?;
        if !is_shared(alloc, &code, names) {
            return Ok(None);
        }
        let prepared = Box::new(alloc, prepare_code(alloc, code, names))?;
        Ok(Some(Group {
            place,
            conditions,
            values,
            prepared,
        }))
    }

    /// The conditions.
    pub fn conditions(&self) -> &[&'m Core]
        ensures { referred result.now ≡ self.now.0 }
    {
        self.conditions.as_slice()
    }

    /// The expressions of the values.
    pub fn values(&self) -> &[&'m Core]
        ensures { referred result.now ≡ self.now.1 }
    {
        self.values.as_slice()
    }

    /// None if the evaluation gave up; `Some(None)` if a condition is FALSE; else the values.
    pub fn found<'x>(
        &'x self,
        alloc: Global,
        bound: &'x [Value],
        now: Option<&'x State>,
        partial: &'x Partial,
    ) -> Option<Option<Vec<Value>>>
        ensures { IfSome result (λ r.
            AreFound self.now.0 self.now.1 (map tree_of bound.now)
            (option_map (λ s. s.now) now.entry) partial.now
            (option_map (λ v. map tree_of v.items) r)) }
    {
        let outer = Frame::Outer(&self.prepared.constants);
        let frame = Frame::Many(&outer, 0, bound);
        let environment = Environment {
            frame: &frame,
            now,
            next: partial,
            names: bound.len(),
            definitions: self.prepared.constants.len(),
        };
        match value(alloc, &self.prepared.code, &environment) {
            Ok(found) => answer_of(alloc, found.value()),
            Err(_) => None,
        }
    }
}

/// The code of a group: IF all conditions THEN the tuple of the values ELSE FALSE, as a disjunction of nothing.
fn group_code<'m>(
    alloc: Global,
    place: Place,
    conditions: &[&'m Core],
    values: &[&'m Core],
) -> Result<Code<'m>, AllocError>
    ensures { IfOk result (λ c.
        code_expr c ≡ group_expr place (referred conditions.now) (referred values.now)) }
{
    let conditions = list_code(alloc, place, ListForm::Conjunction, conditions)?;
    let values = list_code(alloc, place, ListForm::Tuple, values)?;
    let nothing = list_code(alloc, place, ListForm::Disjunction, &[])?;
    Ok(Code::Three(place, ThreeForm::If, conditions, values, nothing))
}

/// The code of a form with a list of operands, in a box.
fn list_code<'m>(
    alloc: Global,
    place: Place,
    form: ListForm,
    cores: &[&'m Core],
) -> Result<Box<Code<'m>>, AllocError>
    ensures { IfOk result (λ c.
        (scope : Scope)
        → expr_in scope c.value ≡ list_expr form place (exprs_of_cores (referred cores.now))) }
{
    let codes = codes_of(alloc, cores)?;
    Ok(Box::new(alloc, Code::List(place, form, codes))?)
}

/// The codes of some expressions.
fn codes_of<'m>(alloc: Global, cores: &[&'m Core]) -> Result<Vec<Code<'m>>, AllocError>
    ensures { IfOk result (λ cs. AllZip StandsFor (referred cores.now) cs.items) }
{
    let mut codes = Vec::new(alloc);
    for core in cores {
        codes.push(code_of(alloc, core)?)?;
    }
    Ok(codes)
}

/// Decodes the value of a group's code: FALSE means that a condition is FALSE; a sequence contains the values.
fn answer_of(alloc: Global, value: &Value) -> Option<Option<Vec<Value>>>
    ensures { IfSome result (λ r.
        IsAnswer (tree_of value.now) (option_map (λ v. map tree_of v.items) r)) }
{
    match value {
        Value::Truth(_) => Some(None),
        Value::Fun(function) => Some(Some(copies(alloc, function.values())?)),
        _ => None,
    }
}

/// Copies of some values, or none if memory ran out.
fn copies(alloc: Global, values: &[Value]) -> Option<Vec<Value>>
    ensures { IfSome result (λ v. v.items ≡ values.now) }
{
    let mut copies = Vec::new(alloc);
    for value in values {
        copies.push(value.copy(alloc).ok()?).ok()?;
    }
    Some(copies)
}
