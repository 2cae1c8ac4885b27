//! Faults while they propagate. (This project's own choice.)
ghost use Rattle.std.specs.Prelude.{◌≡◌, Some, None};
ghost use Rattle.tla_core.specs.Fault.{out_of_memory};

use std::alloc::{AllocError, AllocFailed};
use std::marker::Model;
use tla_core::{Fault, FaultCode, Place};

/// A fault whose place is borrowed from the expression, so that results are smaller.
#[derive(Drop)]
pub struct FaultRef<'p> {
    code: FaultCode,
    place: Option<&'p Place>,
}

impl<'p> Model for FaultRef<'p> {
    ghost use Rattle.std.specs.Prelude.{None, option_map};
    ghost use Rattle.tla_core.specs.declared.fault.Fault.{Fault};

    ghost Value = { Fault };

    ghost view = { λ t. record { code = t.code; place = option_map (λ p. p.now) t.place; variable = None } };
}

/// A fault of the node at a place.
pub fn fault_at(code: FaultCode, place: &Place) -> FaultRef<'_>
    ensures { result ≡ record { code = code; place = Some place.now; variable = None } }
{
    FaultRef {
        code,
        place: Some(place),
    }
}

/// The fault `Memory`.
pub fn memory<'p>() -> FaultRef<'p>
    ensures { result ≡ out_of_memory }
{
    FaultRef {
        code: FaultCode::Memory,
        place: None,
    }
}

impl<'p> From<AllocError> for FaultRef<'p> {
    ghost use Rattle.tla_core.specs.Fault.{out_of_memory};

    ghost from_gives = { λ _ f. f ≡ out_of_memory };

    fn from(_error: AllocError) -> FaultRef<'p> {
        memory()
    }
}

impl<'p, T: Drop> From<AllocFailed<T>> for FaultRef<'p> {
    ghost use Rattle.tla_core.specs.Fault.{out_of_memory};

    ghost from_gives = { λ _ f. f ≡ out_of_memory };

    fn from(_error: AllocFailed<T>) -> FaultRef<'p> {
        memory()
    }
}

impl<'p> From<FaultRef<'p>> for Fault {
    ghost from_gives = { λ t f. f ≡ t };

    fn from(fault: FaultRef<'p>) -> Fault {
        Fault {
            code: fault.code,
            place: fault.place.copied(),
            variable: None,
        }
    }
}
