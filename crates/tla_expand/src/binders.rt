//! The elements that binder lists bind.

ghost use Rattle.std.specs.Prelude.{◌≡◌, ◌++◌, ◌∷◌, [], map, IfOk, OnOk, IfErr};
ghost use Rattle.tla_tree.specs.View.{view, pattern_view, group_view};
ghost use Rattle.tla_tree.specs.Tree.{binders};
ghost use Rattle.tla_scopes.specs.Meanings.{Scope};
ghost use Rattle.tla_scopes.specs.Bound.{bind_each, bind_entry};
ghost use Rattle.tla_scopes.specs.Expand.{binds_of, expand};
ghost use Rattle.tla_expand.specs.Private.Binders.{binds_in};

use std::alloc::Global;
use tla_scopes::Failure;
use tla_tree::{Binder, Expr, Pattern, Written, push};

/// What an element is bound to.
#[derive(Clone, Copy)]
pub(crate) enum Names<'a> {
    Name(&'a Written),
    /// Names for its items.
    Tuple(&'a [Written]),
}

/// An element that is bound, with its set.
#[derive(Clone, Copy)]
pub(crate) struct Bind<'a> {
    pub(crate) names: Names<'a>,
    pub(crate) set: &'a Expr,
}

/// Adds elements with these names.
fn push_each<'a>(
    binds: &mut Vec<Bind<'a>>,
    names: &'a [Written],
    set: &'a Expr,
) -> Result<(), Failure>
    ensures ok { OnOk result
        ((σ : Scope)
        → binds_in binds.new.items σ
        ≡ binds_in binds.old.items σ ++ bind_each names.now (expand (view set.now) σ) []) }
    ensures err { IfErr result (λ e. e ≡ Failure.Memory) }
{
    for i in 0..names.len() {
        let bind = Bind {
            names: Names::Name(&names[i]),
            set,
        };
        push(binds, bind)?;
    }
    Ok(())
}

/// Adds the elements of one entry.
fn push_entry<'a>(
    binds: &mut Vec<Bind<'a>>,
    pattern: &'a Pattern,
    set: &'a Expr,
) -> Result<(), Failure>
    ensures ok { OnOk result
        ((σ : Scope)
        → binds_in binds.new.items σ
        ≡ binds_in binds.old.items σ
        ++ bind_entry (pattern_view pattern.now) (expand (view set.now) σ) []) }
    ensures err { IfErr result (λ e. e ≡ Failure.Memory) }
{
    match pattern {
        Pattern::Each(names) => push_each(binds, names.as_slice(), set),
        Pattern::Tuple(names) => {
            let names = Names::Tuple(names.as_slice());
            Ok(push(binds, Bind { names, set })?)
        }
    }
}

/// The elements of one entry, each with its set. The only error is that memory ran out.
pub(crate) fn bind_one<'a>(
    alloc: Global,
    pattern: &'a Pattern,
    set: &'a Expr,
) -> Result<Vec<Bind<'a>>, Failure>
    ensures ok { IfOk result (λ bs.
        (σ : Scope)
        → binds_in bs.items σ
        ≡ bind_entry (pattern_view pattern.now) (expand (view set.now) σ) []) }
    ensures err { IfErr result (λ e. e ≡ Failure.Memory) }
{
    let mut binds = Vec::new(alloc);
    push_entry(&mut binds, pattern, set)?;
    Ok(binds)
}

/// The elements of a binder list in order, each with its set. The only error is that memory ran out.
pub(crate) fn bind_list<'a>(alloc: Global, groups: &'a [Binder]) -> Result<Vec<Bind<'a>>, Failure>
    ensures ok { IfOk result (λ bs.
        (σ : Scope) → binds_in bs.items σ ≡ binds_of (binders (map group_view groups.now)) σ) }
    ensures err { IfErr result (λ e. e ≡ Failure.Memory) }
{
    let mut binds = Vec::new(alloc);
    for i in 0..groups.len() {
        let group = &groups[i];
        push_entry(&mut binds, &group.pattern, &group.set)?;
    }
    Ok(binds)
}
