//! Differences of the values of two states.

use std::alloc::AllocError;
use tla_value::Value;

/// An argument on the path into a value.
#[derive(Clone, Copy)]
pub(crate) enum Key<'a> {
    Number(i64),
    Value(&'a Value),
}

/// A part of a variable's value: the variable, and the arguments on the path to the part.
#[derive(Drop)]
pub(crate) struct Path<'a> {
    pub(crate) variable: &'a str,
    pub(crate) keys: Vec<Key<'a>>,
}

/// Where an item of a sequence was inserted or removed.
#[derive(Clone, Copy)]
pub(crate) enum Spot {
    Front,
    End,
    /// At this index between others, from 1.
    Between(usize),
}

/// The change of a part.
#[derive(Clone, Copy)]
pub(crate) enum Change<'a> {
    /// It has another value.
    Other(&'a Value, &'a Value),
    /// The set has a new member.
    Gained(&'a Value),
    /// The set lost a member.
    Lost(&'a Value),
    /// An item was inserted into the sequence.
    Put(&'a Value, Spot),
    /// An item was removed from the sequence.
    Taken(&'a Value, Spot),
    /// The argument is new in the domain of the function.
    New(&'a Value),
    /// The argument is no longer in the domain of the function.
    Gone(&'a Value),
}

/// A part of a variable's value, and its change.
#[derive(Drop)]
pub(crate) struct Difference<'a> {
    pub(crate) path: Path<'a>,
    pub(crate) change: Change<'a>,
}

impl<'a> Path<'a> {
    /// A change of this part.
    pub(crate) fn became(&self, change: Change<'a>) -> Result<Difference<'a>, AllocError> {
        Ok(Difference {
            path: Path {
                variable: self.variable,
                keys: self.keys.clone()?,
            },
            change,
        })
    }

    /// A change of the value at an argument of this part.
    pub(crate) fn became_at(
        &self,
        key: Key<'a>,
        change: Change<'a>,
    ) -> Result<Difference<'a>, AllocError> {
        let mut keys = self.keys.clone()?;
        keys.push(key)?;
        Ok(Difference {
            path: Path {
                variable: self.variable,
                keys,
            },
            change,
        })
    }
}
