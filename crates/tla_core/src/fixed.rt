//! Expressions of constants alone.
ghost use Rattle.std.specs.Prelude.{◌≡◌};

use crate::fault::Place;
use tla_value::{Text, Value};

/// A constant, or a set in braces, a tuple or a record of such expressions.
#[derive(Drop)]
pub(crate) enum Fixed {
    Constant(Place, Value),
    Enumerated(Place, Vec<Fixed>),
    Tuple(Place, Vec<Fixed>),
    Record(Place, Vec<(Text, Fixed)>),
}

impl Fixed {
    ghost use Rattle.tla_core.specs.Value.{means};
    ghost use Rattle.tla_core.specs.FixedOf.{fixed_of};

    /// The place of the expression, borrowed.
    pub(crate) fn lent_place(&self) -> &Place
        ensures { result.now ≡ (means (fixed_of self.now)).place }
    {
        match self {
            Fixed::Constant(place, _) => place,
            Fixed::Enumerated(place, _) => place,
            Fixed::Tuple(place, _) => place,
            Fixed::Record(place, _) => place,
        }
    }
}
