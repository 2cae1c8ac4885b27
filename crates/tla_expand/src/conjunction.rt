//! The expansion of a conjunction whose parts are in a list.

ghost use Rattle.std.specs.Prelude.{◌≡◌, ◌≢◌, ◌≤◌, length, map, Some, None, IfOk, IfErr};
ghost use Rattle.std.specs.Borrow.{Bor};
ghost use Rattle.tla_core.specs.declared.fault.Place as fault;
ghost use Rattle.tla_core.specs.Expr as expr;
ghost use Rattle.tla_core.specs.ExprOf.{expr_of};
ghost use Rattle.tla_model.specs.Size.{IsWithinLimits};
ghost use Rattle.tla_tree.specs.declared.tree.Bullet.TheVariants as bullet;
ghost use Rattle.tla_tree.specs.declared.tree.Expr as syntax;
ghost use Rattle.tla_tree.specs.Tree.{Junction, trees as trees_of};
ghost use Rattle.tla_tree.specs.View.{view};
ghost use Rattle.tla_scopes.specs.Expand as expansion;
ghost use Rattle.tla_expand.specs.Private.Gives.{part_in, pointed, GivesMany};
ghost use Rattle.tla_scopes.specs.Maybe.{each_of};
ghost use Rattle.tla_scopes.specs.Primes.{with_primes};
ghost use Rattle.tla_scopes.specs.Scopes.{AreLinked, scope_at};
ghost use Rattle.tla_scopes.specs.Listed.{listed};

use crate::builders;
use crate::expand::{ExpandContext, NODES_BELOW, PATH_BELOW, expand};
use crate::expanded::Many;
use std::alloc::Global;
use tla_core::Core;
use tla_lex::Place;
use tla_scopes::{Entries, Failure, Primes, place_of};
use tla_tree::{Expr, push};

/// Expressions of one scope, in a list, with at most 199,999 nodes, and at most 299 on a path.
fn expand_parts<'a>(
    alloc: Global,
    entries: &mut Entries<'_, 'a>,
    trees: &[&'a Expr],
    scope: usize,
    primes: Primes,
    reported: Option<Primes>,
) -> Result<Many, Failure>
    requires linked { AreLinked (listed entries.old) }
    requires scope { scope ≤ length (listed entries.old) }
    ensures same { GivesMany 299 199999 result
        (each_of (part_in primes (scope_at (listed entries.old) scope) 0) (pointed trees.now)) }
{
    let mut parts = Vec::new(alloc);
    let mut nodes_left = NODES_BELOW;
    for i in 0..trees.len() {
        let at = ExpandContext {
            scope,
            primes,
            bound: 0,
            depth_left: PATH_BELOW,
            nodes_left,
            reported,
        };
        let part = expand(alloc, entries, trees[i], at)?;
        nodes_left = part.nodes_left;
        push(&mut parts, part.core)?;
    }
    Ok(Many { parts, nodes_left })
}

/// The expansion of a conjunction in a scope, with these primes, with at most 200,000 nodes, and at most 300 on a path.
pub(crate) fn conjunction<'a>(
    alloc: Global,
    entries: &mut Entries<'_, 'a>,
    place: Place,
    trees: &[&'a Expr],
    scope: usize,
    primes: Primes,
    reported: Option<Primes>,
) -> Result<Core, Failure>
    requires linked { AreLinked (listed entries.old) }
    requires scope { scope ≤ length (listed entries.old) }
    ensures found { IfOk result (λ c.
        with_primes primes
        (expansion.expand
        (Junction place bullet.And
        (trees_of (map (λ (t : Bor syntax.Expr). view t.now) trees.now)))
        (scope_at (listed entries.old) scope) 0)
        ≡ Some (expr_of c)) }
    ensures limits { IfOk result (λ c. IsWithinLimits (expr_of c)) }
    ensures gone { IfErr result (λ f.
        (p : fault.Place)
        → f ≡ Failure.NoExpansion p
        → with_primes primes
        (expansion.expand
        (Junction place bullet.And
        (trees_of (map (λ (t : Bor syntax.Expr). view t.now) trees.now)))
        (scope_at (listed entries.old) scope) 0)
        ≡ None) }
    ensures none { IfErr result (λ f.
        f ≢ Failure.Memory
        → (e : expr.Expr)
        → with_primes primes
        (expansion.expand
        (Junction place bullet.And
        (trees_of (map (λ (t : Bor syntax.Expr). view t.now) trees.now)))
        (scope_at (listed entries.old) scope) 0)
        ≡ Some e
        → IsWithinLimits e
        → ⊥) }
{
    let many = expand_parts(alloc, entries, trees, scope, primes, reported)?;
    Ok(builders::conjunction(place_of(place), many.parts))
}
