//! Why a pass gives up.

use std::alloc::{AllocError, AllocFailed};

/// Memory ran out, or the expression stays unchanged.
pub(crate) struct GaveUp;

impl From<AllocError> for GaveUp {
    fn from(_error: AllocError) -> GaveUp {
        GaveUp
    }
}

impl<T: Drop> From<AllocFailed<T>> for GaveUp {
    fn from(_error: AllocFailed<T>) -> GaveUp {
        GaveUp
    }
}
