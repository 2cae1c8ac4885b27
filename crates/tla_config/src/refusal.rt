//! Why reading stops.
ghost use Rattle.std.specs.Prelude.{◌≡◌};

use std::alloc::AllocError;

/// Why tokens are refused, and at which of them by its number.
#[derive(Clone, Copy)]
pub enum Refusal {
    /// The token has no place here.
    Unexpected(usize),
    /// The statement that begins here is left out of the language, or the replacement in another module.
    LeftOut(usize),
    /// The value of the item that begins here is beyond the limits of values.
    TooLarge(usize),
    NoMemory,
}

impl From<AllocError> for Refusal {
    ghost use Rattle.tla_config.specs.declared.refusal.Refusal.TheVariants.{NoMemory};

    ghost from_gives = { λ _ e. e ≡ NoMemory };

    fn from(_error: AllocError) -> Refusal {
        Refusal::NoMemory
    }
}
