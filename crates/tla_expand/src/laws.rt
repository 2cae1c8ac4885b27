//! Laws of expansion, over its definitions alone.

ghost use Rattle.tla_expand.specs.Laws.{ExpansionsFit, PrimesFit};

/// In a scope whose meanings name what exists, an expansion names what exists.
pub fn expansions_fit()
    ensures { ExpansionsFit }
{}

/// Primes change no bound name. After one prime there are no present values, after two no variables.
pub fn primes_fit()
    ensures { PrimesFit }
{}
