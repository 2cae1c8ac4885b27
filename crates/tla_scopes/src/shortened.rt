//! Bodies of definitions, each reduced to the part that has its meaning. So a use of a definition that returns its
//! argument costs nothing, however many others its body uses.

ghost use Rattle.std.specs.Prelude.{◌≡◌, ◌≤◌, ◌<◌, length, ℕ, List, Some, IfSome, IfNone};
ghost use Rattle.tla_core.specs.declared.fault.Place.{Place};
ghost use Rattle.tla_tree.specs.View.{view};
ghost use Rattle.tla_scopes.specs.Meanings.{Scope, Argument, with_parameters, operator};
ghost use Rattle.tla_scopes.specs.Expand.{expand};
ghost use Rattle.tla_scopes.specs.Private.Parameters.{IsAbsent, IsLast};
ghost use Rattle.tla_scopes.specs.Scopes.{AreLinked, scope_at, arguments_in};
ghost use Rattle.tla_scopes.specs.Costs.{Costs, cost, costs_in, total};
ghost use Rattle.tla_scopes.specs.Listed.{listed};

use crate::arena::{What, find};
use crate::entries::Entries;
use crate::primes::Primes;
use crate::projections::given_argument;
use tla_tree::{Expr, Written};

/// The last parameter of a name.
pub(crate) fn last_of(parameters: &[Written], name: &[u8]) -> Option<usize>
    ensures within { IfSome result (λ i. i < length parameters.now) }
    ensures some { IfSome result (λ i. IsLast name.now parameters.now i) }
    ensures none { IfNone result (IsAbsent name.now parameters.now) }
{
    let mut at = parameters.len();
    while at > 0 {
        at -= 1;
        if parameters[at].word.as_bytes() == name {
            return Some(at);
        }
    }
    None
}

/// The argument that a use of a name means, if its definition returns it without primes.
fn returned_argument<'a>(
    entries: &Entries<'_, 'a>,
    scope: usize,
    name: &[u8],
    arguments: &'a [Expr],
) -> Option<&'a Expr>
    requires linked { AreLinked (listed entries.now) }
    requires within { scope ≤ length (listed entries.now) }
    ensures same { IfSome result (λ e.
        (σ : Scope) (p : Place) (d : ℕ)
        → scope_at (listed entries.now) scope name.now p (arguments_in arguments.now σ) d
        ≡ expand (view e.now) σ d) }
    ensures costs { IfSome result (λ e.
        (σ : Costs) → cost (view e.now) σ ≤ total (costs_in arguments.now σ)) }
{
    let entry = find(entries, scope, name)?;
    let What::Gives(count, given) = entry.what else {
        return None;
    };
    match given.primes {
        Primes::Never => given_argument(arguments, count, given),
        Primes::Once | Primes::Twice => None,
    }
}

/// The part that has the meaning of a body, by one step, whatever its parameters mean.
fn part_of<'a>(
    entries: &Entries<'_, 'a>,
    scope: usize,
    parameters: &[Written],
    body: &'a Expr,
) -> Option<&'a Expr>
    requires linked { AreLinked (listed entries.now) }
    requires within { scope ≤ length (listed entries.now) }
    ensures same { IfSome result (λ e.
        (args : List Argument) (σ : Scope) (d : ℕ)
        → with_parameters parameters.now args (scope_at (listed entries.now) scope) ≡ Some σ
        → expand (view e.now) σ d ≡ expand (view body.now) σ d) }
    ensures costs { IfSome result (λ e.
        (σ : Costs) → cost (view e.now) σ ≤ cost (view body.now) σ) }
{
    match body {
        Expr::Paren(_, inner) => Some(inner),
        Expr::Call(name, arguments) => {
            let word = name.word.as_bytes();
            if last_of(parameters, word).is_some() {
                return None;
            }
            returned_argument(entries, scope, word, arguments.as_slice())
        }
        _ => None,
    }
}

/// A part of a body that has its meaning for all arguments. It is looked for in more steps than a body is deep.
pub(crate) fn shortened_body<'a>(
    entries: &Entries<'_, 'a>,
    scope: usize,
    parameters: &[Written],
    body: &'a Expr,
) -> &'a Expr
    requires linked { AreLinked (listed entries.now) }
    requires within { scope ≤ length (listed entries.now) }
    ensures same { operator parameters.now (expand (view result.now))
        (scope_at (listed entries.now) scope)
        ≡ operator parameters.now (expand (view body.now)) (scope_at (listed entries.now) scope) }
    ensures costs { (σ : Costs) → cost (view result.now) σ ≤ cost (view body.now) σ }
{
    let mut part = body;
    for _turn in 0..1000 {
        match part_of(entries, scope, parameters, part) {
            Some(next) => part = next,
            None => return part,
        }
    }
    part
}
