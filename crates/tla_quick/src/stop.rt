//! Why an evaluation gives up.

use std::alloc::{AllocError, AllocFailed};
use tla_operators::fault_ref::FaultRef;

/// Why there is no result. `Needed(n)`: definition n must be evaluated first. (With 32 bits for n, results fit in
/// registers.)
#[derive(Clone, Copy)]
pub(crate) enum Stop {
    GaveUp,
    Needed(u32),
}

impl From<AllocError> for Stop {
    ghost from_gives = { λ _ _. Unit {0} };

    fn from(_error: AllocError) -> Stop {
        Stop::GaveUp
    }
}

impl<T: Drop> From<AllocFailed<T>> for Stop {
    ghost from_gives = { λ _ _. Unit {0} };

    fn from(_error: AllocFailed<T>) -> Stop {
        Stop::GaveUp
    }
}

impl<'p> From<FaultRef<'p>> for Stop {
    ghost from_gives = { λ _ _. Unit {0} };

    fn from(_error: FaultRef<'p>) -> Stop {
        Stop::GaveUp
    }
}

/// The stop of a definition with this number.
pub(crate) fn needed(number: usize) -> Stop {
    match u32::try_from(number) {
        Ok(number) => Stop::Needed(number),
        Err(_) => Stop::GaveUp,
    }
}

/// Ok if the evaluation stopped because it needs `definition`; any other stop is returned.
pub(crate) fn needs(stop: Stop, definition: usize) -> Result<(), Stop> {
    match stop {
        Stop::Needed(number) => {
            if number as usize == definition {
                Ok(())
            } else {
                Err(stop)
            }
        }
        Stop::GaveUp => Err(stop),
    }
}
