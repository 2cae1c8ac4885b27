//! Why an expression has no expansion.
ghost use Rattle.std.specs.Prelude.{◌≡◌};

use std::alloc::{AllocError, AllocFailed};
use tla_core::Place;

/// Why an expression has no expansion within the limits.
#[derive(Clone, Copy, Debug)]
pub enum Failure {
    /// It has none at all, because of what is at this place: an unknown name, another number of arguments, a prime on a
    /// variable's next value, a temporal operator, or an unsupported form.
    NoExpansion(Place),
    /// It would have too many nodes, in all or on a path, or a number above 64 bits.
    TooLarge,
    Memory,
}

impl From<AllocError> for Failure {
    ghost use Rattle.tla_scopes.specs.declared.failure.Failure.TheVariants.{Memory};

    ghost from_gives = { λ _ f. f ≡ Memory };

    fn from(_error: AllocError) -> Failure {
        Failure::Memory
    }
}

impl<T: Drop> From<AllocFailed<T>> for Failure {
    ghost use Rattle.tla_scopes.specs.declared.failure.Failure.TheVariants.{Memory};

    ghost from_gives = { λ _ f. f ≡ Memory };

    fn from(_error: AllocFailed<T>) -> Failure {
        Failure::Memory
    }
}
