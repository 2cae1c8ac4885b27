//! Evaluation of parts under bound names, with a limited number of evaluations.

use crate::chosen::{Chosen, Path};
use std::alloc::Global;
use tla_core::{Core, Fault, FaultCode, Opening, Place, memory};
use tla_eval::{Partial, eval, member, opened};
use tla_quick::Expression;
use tla_reading::{members_of, plain_part_of, read, value_of};
use tla_value::{State, Value};

/// The present state, the values of the bound names, and the number of evaluations left.
///
/// The only error of its calls is that memory ran out. They return None if the evaluation faults, or if no evaluation
/// is left.
#[derive(Drop)]
pub(crate) struct Walk<'a> {
    alloc: Global,
    now: Option<&'a State>,
    path: Path,
    budget: u64,
}

impl<'a> Walk<'a> {
    pub(crate) fn new(alloc: Global, now: Option<&'a State>, budget: u64) -> Walk<'a> {
        Walk {
            alloc,
            now,
            path: Path::new(alloc),
            budget,
        }
    }

    pub(crate) fn alloc(&self) -> Global {
        self.alloc
    }

    /// The number of evaluations left.
    pub(crate) fn budget(&self) -> u64 {
        self.budget
    }

    /// The number of bound names.
    pub(crate) fn len(&self) -> usize {
        self.path.len()
    }

    /// Unbinds all names but the first `count`.
    pub(crate) fn truncate(&mut self, count: usize) {
        self.path.truncate(count);
    }

    /// Binds a name of the form at a place.
    pub(crate) fn bind(&mut self, place: Place, value: Value) -> Result<(), Fault> {
        self.path.push(place, value)?;
        Ok(())
    }

    /// Binds a name of the form at a place to a copy of a value.
    pub(crate) fn bind_copy(&mut self, place: Place, value: &Value) -> Result<(), Fault> {
        let copy = self.copy(value)?;
        self.bind(place, copy)
    }

    /// Binds a copy of the old value under EXCEPT.
    pub(crate) fn bind_old(&mut self, value: &Value) -> Result<(), Fault> {
        let copy = self.copy(value)?;
        self.path.push_unnamed(copy)?;
        Ok(())
    }

    /// A copy of a value.
    pub(crate) fn copy(&self, value: &Value) -> Result<Value, Fault> {
        match value.copy(self.alloc) {
            Ok(copy) => Ok(copy),
            Err(_) => Err(memory()),
        }
    }

    /// Binds the items of destructured elements; false if one doesn't fit its pattern.
    pub(crate) fn open(&mut self, place: Place, openings: &[Opening]) -> Result<bool, Fault> {
        let items = match opened(self.alloc, place, openings, self.path.values()) {
            Ok(items) => items,
            Err(fault) if fault.code == FaultCode::Memory => return Err(fault),
            Err(_) => return Ok(false),
        };
        for opening in openings {
            self.path.hide(opening.name);
        }
        for item in items {
            self.path.push(place, item)?;
        }
        Ok(true)
    }

    /// The values of the bound names that occur in the text, the outermost first.
    pub(crate) fn bound_choices(&self) -> Result<Vec<Chosen>, Fault> {
        self.path.named_choices(self.alloc)
    }

    /// The value of an expression.
    pub(crate) fn value(&mut self, core: &Core, next: &Partial) -> Result<Option<Value>, Fault> {
        if !self.spend() {
            return Ok(None);
        }
        let expression = self.expression(core)?;
        let bound = self.path.values();
        unless_faulty(value_of(self.alloc, &expression, bound, self.now, next))
    }

    /// The truth value of an expression.
    pub(crate) fn truth(&mut self, core: &Core, next: &Partial) -> Result<Option<bool>, Fault> {
        match self.value(core, next)? {
            Some(Value::Truth(holds)) => Ok(Some(holds)),
            _ => Ok(None),
        }
    }

    /// Whether a value is a member of a set.
    pub(crate) fn has(
        &mut self,
        value: &Value,
        set: &Core,
        next: &Partial,
    ) -> Result<Option<bool>, Fault> {
        if !self.spend() {
            return Ok(None);
        }
        let expression = self.expression(set)?;
        let bound = self.path.values();
        unless_faulty(member_of(self.alloc, value, &expression, bound, self.now, next))
    }

    /// The elements of a set.
    pub(crate) fn elements(
        &mut self,
        set: &Core,
        next: &Partial,
    ) -> Result<Option<Vec<Value>>, Fault> {
        if !self.spend() {
            return Ok(None);
        }
        let expression = self.expression(set)?;
        let bound = self.path.values();
        let place = set.place();
        unless_faulty(members_of(self.alloc, place, &expression, bound, self.now, next))
    }

    /// The states that a part of an action leads to from a state.
    pub(crate) fn states_of(
        &mut self,
        part: &Core,
        from: &Partial,
    ) -> Result<Option<Vec<Partial>>, Fault> {
        if !self.spend() {
            return Ok(None);
        }
        let from = from.copy(self.alloc)?;
        let part = plain_part_of(self.alloc, part)?;
        unless_faulty(read(self.alloc, &part, self.path.values(), self.now, from))
    }

    /// The fault of an expression.
    pub(crate) fn fault(&mut self, core: &Core, next: &Partial) -> Result<Option<Fault>, Fault> {
        if !self.spend() {
            return Ok(None);
        }
        match eval(self.alloc, core, self.path.values(), self.now, next) {
            Ok(_) => Ok(None),
            Err(fault) => unless_memory(fault),
        }
    }

    /// The fault of reading a part of an action.
    pub(crate) fn reading_fault(
        &mut self,
        part: &Core,
        from: &Partial,
    ) -> Result<Option<Fault>, Fault> {
        if !self.spend() {
            return Ok(None);
        }
        let from = from.copy(self.alloc)?;
        let part = plain_part_of(self.alloc, part)?;
        match read(self.alloc, &part, self.path.values(), self.now, from) {
            Ok(_) => Ok(None),
            Err(fault) => unless_memory(fault),
        }
    }

    /// An expression, prepared for evaluation: what it names several times is evaluated once.
    fn expression<'c>(&self, core: &'c Core) -> Result<Expression<'c>, Fault> {
        Ok(Expression::new(self.alloc, core, self.path.len())?)
    }

    /// Counts an evaluation; false if none is left.
    fn spend(&mut self) -> bool {
        if self.budget == 0 {
            return false;
        }
        self.budget -= 1;
        true
    }
}

/// Whether a value is a member of the set that an expression denotes, or the first fault.
fn member_of(
    alloc: Global,
    value: &Value,
    set: &Expression<'_>,
    bound: &mut Vec<Value>,
    now: Option<&State>,
    next: &Partial,
) -> Result<bool, Fault> {
    match (&*set).has(alloc, value, bound.as_slice(), now, next) {
        Some(holds) => Ok(holds),
        None => member(alloc, value, set.core(), bound, now, next),
    }
}

/// The result of an evaluation; None if it faults.
fn unless_faulty<T: Drop>(answer: Result<T, Fault>) -> Result<Option<T>, Fault> {
    match answer {
        Ok(value) => Ok(Some(value)),
        Err(fault) if fault.code == FaultCode::Memory => Err(fault),
        Err(_) => Ok(None),
    }
}

/// A fault, unless memory ran out.
fn unless_memory(fault: Fault) -> Result<Option<Fault>, Fault> {
    if fault.code == FaultCode::Memory {
        Err(fault)
    } else {
        Ok(Some(fault))
    }
}
