//! The expansion of a name.

ghost use Rattle.std.specs.Prelude.{◌≡◌, ◌≢◌, ◌≤◌, length, Some, None, IfOk, IfErr};
ghost use Rattle.tla_core.specs.declared.fault.Place as fault;
ghost use Rattle.tla_core.specs.Expr as expr;
ghost use Rattle.tla_core.specs.ExprOf.{expr_of};
ghost use Rattle.tla_model.specs.Size.{IsWithinLimits};
ghost use Rattle.tla_tree.specs.Tree.{Name};
ghost use Rattle.tla_scopes.specs.Expand as expansion;
ghost use Rattle.tla_scopes.specs.Primes.{with_primes};
ghost use Rattle.tla_scopes.specs.Scopes.{AreLinked, scope_at};
ghost use Rattle.tla_scopes.specs.Listed.{listed};

use crate::expand::{ExpandContext, NODES_BELOW, PATH_BELOW, expand, node_of};
use std::alloc::Global;
use tla_core::Core;
use tla_model::{MAX_NODES, MAX_PATH};
use tla_scopes::{Entries, Failure, Primes, Reduction, place_of, use_of};
use tla_tree::Written;

/// The expansion of a name without arguments in a scope, with these primes, with at most 200,000 nodes, and at most 300
/// on a path.
pub(crate) fn named_expansion<'a>(
    alloc: Global,
    entries: &mut Entries<'_, 'a>,
    name: &Written,
    scope: usize,
    primes: Primes,
    reported: Option<Primes>,
) -> Result<Core, Failure>
    requires linked { AreLinked (listed entries.old) }
    requires scope { scope ≤ length (listed entries.old) }
    ensures found { IfOk result (λ c.
        with_primes primes
        (expansion.expand (Name name.now) (scope_at (listed entries.old) scope) 0)
        ≡ Some (expr_of c)) }
    ensures limits { IfOk result (λ c. IsWithinLimits (expr_of c)) }
    ensures gone { IfErr result (λ f.
        (p : fault.Place)
        → f ≡ Failure.NoExpansion p
        → with_primes primes
        (expansion.expand (Name name.now) (scope_at (listed entries.old) scope) 0)
        ≡ None) }
    ensures none { IfErr result (λ f.
        f ≢ Failure.Memory
        → (e : expr.Expr)
        → with_primes primes
        (expansion.expand (Name name.now) (scope_at (listed entries.old) scope) 0)
        ≡ Some e
        → IsWithinLimits e
        → ⊥) }
{
    let at = place_of(name.place);
    let word = name.word.as_bytes();
    match use_of(entries, at, word, &[], scope, primes)? {
        Reduction::Goes(tree, scope, primes) => {
            let inside = ExpandContext {
                scope,
                primes,
                bound: 0,
                depth_left: MAX_PATH,
                nodes_left: MAX_NODES,
                reported,
            };
            let made = expand(alloc, entries, tree, inside)?;
            Ok(made.core)
        }
        Reduction::Ends(head) => {
            let inside = ExpandContext {
                scope: head.scope,
                primes: head.primes,
                bound: 0,
                depth_left: PATH_BELOW,
                nodes_left: NODES_BELOW,
                reported,
            };
            let made = node_of(alloc, entries, head.form, inside)?;
            Ok(made.core)
        }
    }
}
