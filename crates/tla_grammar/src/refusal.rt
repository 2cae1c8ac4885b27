//! Why a reading stops.
ghost use Rattle.std.specs.Prelude.{◌≡◌};

use std::alloc::AllocError;

/// Why there is no tree, and at which token by its number.
#[derive(Clone, Copy)]
pub enum Refusal {
    /// The token has no place here.
    Unexpected(usize),
    /// The operator may not be beside another one without parentheses.
    Precedence(usize),
    /// The token is at or left of its junction list's column, but the item isn't complete.
    Column(usize),
    /// The form that begins here is nested too deep.
    Nesting(usize),
    /// The form that begins here is left out of the language.
    LeftOut(usize),
    /// The module, a name under EXTENDS, is not known.
    UnknownModule(usize),
    /// MODULE of a second header.
    SecondHeader(usize),
    NoMemory,
}

impl From<AllocError> for Refusal {
    ghost use Rattle.tla_grammar.specs.declared.refusal.Refusal.TheVariants.{NoMemory};

    ghost from_gives = { λ _ e. e ≡ NoMemory };

    fn from(_error: AllocError) -> Refusal {
        Refusal::NoMemory
    }
}
