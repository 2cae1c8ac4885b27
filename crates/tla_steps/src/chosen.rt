//! A part of an action, and the values that quantifiers above it chose.

use std::alloc::{AllocError, Global};
use tla_core::{Fault, Place, memory};
use tla_value::Value;

/// The value of a name that a quantifier or another form binds. The value of a name in a pattern is an item of the
/// element.
#[derive(Drop)]
pub struct Chosen {
    /// The place of the form that binds the name.
    pub place: Place,
    /// The index of the name among the names of the form.
    pub name: usize,
    pub value: Value,
}

/// A part of an action, and the values that the `\E` above it chose, the outermost first.
#[derive(Drop)]
pub struct Taken {
    pub place: Place,
    /// The place of the innermost conjunction whose leading conjunct contains it.
    pub within: Option<Place>,
    pub chosen: Vec<Chosen>,
}

/// The bound names in scope at a part.
#[derive(Drop)]
pub(crate) struct Path {
    values: Vec<Value>,
    /// The place of the form that binds each; none if it has no name in the text.
    places: Vec<Option<Place>>,
}

impl Path {
    pub(crate) fn new(alloc: Global) -> Path {
        Path {
            values: Vec::new(alloc),
            places: Vec::new(alloc),
        }
    }

    /// Adds a choice. The only error is that memory ran out.
    pub(crate) fn push(&mut self, place: Place, value: Value) -> Result<(), AllocError> {
        self.places.push(Some(place))?;
        self.values.push(value)?;
        Ok(())
    }

    /// Adds a value that has no name in the text. The only error is that memory ran out.
    pub(crate) fn push_unnamed(&mut self, value: Value) -> Result<(), AllocError> {
        self.places.push(None)?;
        self.values.push(value)?;
        Ok(())
    }

    /// Marks an element as having no name in the text: a pattern replaces it by its items.
    pub(crate) fn hide(&mut self, name: usize) {
        if let Some(place) = self.places.get_mut(name) {
            *place = None;
        }
    }

    /// Removes all choices but the first `count`.
    pub(crate) fn truncate(&mut self, count: usize) {
        self.places.truncate(count);
        self.values.truncate(count);
    }

    /// The number of choices.
    pub(crate) fn len(&self) -> usize {
        self.values.len()
    }

    /// The values that were chosen, the outermost first.
    pub(crate) fn values(&mut self) -> &mut Vec<Value> {
        &mut self.values
    }

    /// The choices that have a name in the text. The only error is that memory ran out.
    pub(crate) fn named_choices(&self, alloc: Global) -> Result<Vec<Chosen>, Fault> {
        let mut chosen = Vec::new(alloc);
        let mut last = None;
        let mut name = 0usize;
        for (at, value) in self.places.iter().zip(self.values.iter()) {
            let Some(at) = *at else {
                continue;
            };
            name = if last == Some(at) {
                name.saturating_add(1)
            } else {
                0
            };
            last = Some(at);
            let Ok(value) = value.copy(alloc) else {
                return Err(memory());
            };
            chosen.push(Chosen {
                place: at,
                name,
                value,
            })?;
        }
        Ok(chosen)
    }
}
