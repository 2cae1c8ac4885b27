//! How many primes are on an expression.

ghost use Rattle.std.specs.Prelude.{◌≡◌};
ghost use Rattle.tla_scopes.specs.Primes as primes_of;

/// The third prime adds nothing to what the second does.
#[derive(Clone, Copy, Debug, PartialEq, Eq, Hash)]
pub enum Primes {
    Never,
    Once,
    Twice,
}

pub fn one_more(primes: Primes) -> Primes
    ensures { result ≡ primes_of.one_more primes }
{
    match primes {
        Primes::Never => Primes::Once,
        Primes::Once | Primes::Twice => Primes::Twice,
    }
}

/// Whether these are fewer primes than those.
pub fn are_fewer(primes: Primes, others: Primes) -> bool
    ensures { result ≡ primes_of.are_fewer primes others }
{
    match primes {
        Primes::Never => match others {
            Primes::Never => false,
            Primes::Once | Primes::Twice => true,
        },
        Primes::Once => match others {
            Primes::Never | Primes::Once => false,
            Primes::Twice => true,
        },
        Primes::Twice => false,
    }
}
