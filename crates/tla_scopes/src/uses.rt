//! From an expression to the form that it means.

ghost use Rattle.std.specs.Prelude.{◌≡◌, ◌≤◌, ◌+◌, length, ℕ, true, List, map, IfOk, OnOk, IfErr};
ghost use Rattle.tla_tree.specs.View.{view, definition_view};
ghost use Rattle.tla_tree.specs.Tree.{definitions as definitions_of};
ghost use Rattle.tla_scopes.specs.declared.arena.Entry as arena_entry;
ghost use Rattle.tla_scopes.specs.Meanings.{Scope, standard, operator, builtin_meaning};
ghost use Rattle.tla_scopes.specs.Expand.{expand, definitions_in, definition_in};
ghost use Rattle.tla_scopes.specs.Scopes.{AreLinked, IsBelow, Extends, scope_at, entry_scope, meaning_of, arguments_in};
ghost use Rattle.tla_scopes.specs.Reductions.{reduction_gives, head_gives, IsAlone, IsWithin, Explains};
ghost use Rattle.tla_scopes.specs.Forms.{means_another};
ghost use Rattle.tla_scopes.specs.Primes.{with_primes};
ghost use Rattle.tla_scopes.specs.Costs.{Costs, cost, form_cost, costs_in, total, cost_by, cost_after, costs_after, costs_at, with_costs, entry_costs, AreAtMost, IsCheaper, IsShorter};
ghost use Rattle.tla_scopes.specs.Listed.{listed};

use crate::arena::{Entry, What, bind, enter, find};
use crate::entries::Entries;
use crate::failure::Failure;
use crate::forms::{form_of, takes};
use crate::nodes::{Binders, Builtin, Form, Gather, Leaf, OwnForm};
use crate::operators::builtin_for;
use crate::places::place_of;
use crate::primes::{Primes, one_more};
use crate::projections::{given_argument, later_place, projection_of, with_more};
use crate::shortened::shortened_body;
use tla_core::Place;
use tla_tree::{Definition, Expr, Written};

/// A form, with the scope of its parts and the primes on it; and the place of the last prime that was found on the way
/// to it.
#[derive(Clone, Copy)]
pub struct Head<'a> {
    pub form: Form<'a>,
    pub scope: usize,
    pub primes: Primes,
    pub primed: Option<Place>,
}

/// What an expression is reduced to: another one in a scope, with primes on it; or its form.
#[derive(Clone, Copy)]
pub enum Reduction<'a> {
    Goes(&'a Expr, usize, Primes),
    Ends(Head<'a>),
}

/// The use of a name of a module.
fn use_of_module<'a>(
    place: Place,
    name: &[u8],
    arguments: &'a [Expr],
    scope: usize,
    primes: Primes,
) -> Result<Head<'a>, Failure>
    ensures scope { IfOk result (λ h. h.scope ≡ scope) }
    ensures same { IfOk result (λ h.
        (es : List arena_entry.Entry) (d : ℕ)
        → with_primes primes
        (standard name.now place (arguments_in arguments.now (scope_at es scope)) d)
        ≡ head_gives es h d) }
    ensures cost { IfOk result (λ h. (σ : Costs) → form_cost h.form σ ≡ 0) }
    ensures err { IfErr result (λ e.
        (σ : Scope)
        → Explains e (λ d. standard name.now place (arguments_in arguments.now σ) d)) }
{
    let Some(builtin) = builtin_for(name) else {
        return Err(Failure::NoExpansion(place));
    };
    use_of_builtin(place, builtin, arguments, scope, primes)
}

/// The use of an operator of a module.
fn use_of_builtin<'a>(
    place: Place,
    builtin: Builtin,
    arguments: &'a [Expr],
    scope: usize,
    primes: Primes,
) -> Result<Head<'a>, Failure>
    ensures scope { IfOk result (λ h. h.scope ≡ scope) }
    ensures same { IfOk result (λ h.
        (es : List arena_entry.Entry) (d : ℕ)
        → with_primes primes
        (builtin_meaning builtin place (arguments_in arguments.now (scope_at es scope)) d)
        ≡ head_gives es h d) }
    ensures cost { IfOk result (λ h. (σ : Costs) → form_cost h.form σ ≡ 0) }
    ensures err { IfErr result (λ e.
        (σ : Scope)
        → Explains e (λ d. builtin_meaning builtin place (arguments_in arguments.now σ) d)) }
{
    if !takes(builtin, arguments) {
        return Err(Failure::NoExpansion(place));
    }
    Ok(Head {
        form: Form::Use(place, builtin, arguments),
        scope,
        primes,
        primed: None,
    })
}

/// The use of a name that takes no arguments.
fn use_without_arguments<'a>(
    place: Place,
    what: What<'a>,
    arguments: &[Expr],
    scope: usize,
    primes: Primes,
) -> Result<Reduction<'a>, Failure>
    requires { IsAlone what }
    ensures within { IfOk result (λ s.
        (es : List arena_entry.Entry) (rest : ℕ)
        → IsBelow (length es) what.entry rest
        → scope ≤ length es
        → IsWithin es s) }
    ensures same { IfOk result (λ s.
        (es : List arena_entry.Entry) (d : ℕ)
        → with_primes primes
        (meaning_of (scope_at es) what.entry place
        (arguments_in arguments.now (scope_at es scope)) d)
        ≡ reduction_gives es s d) }
    ensures shorter { IfOk result (λ s.
        (es : List arena_entry.Entry) (ns : List ℕ) (n : ℕ)
        → cost_by (costs_at es) what.entry ns ≤ n
        → IsShorter es s (n + 1)) }
    ensures err { IfErr result (λ e.
        (at : ℕ → Scope) (σ : Scope)
        → Explains e (λ d. meaning_of at what.entry place (arguments_in arguments.now σ) d)) }
{
    if arguments.len() > 0 {
        return Err(Failure::NoExpansion(place));
    }
    let form = match what {
        What::Argument(tree, from) => return Ok(Reduction::Goes(tree, from, primes)),
        What::Function(at, groups, body, home) => {
            return Ok(Reduction::Ends(Head {
                form: Form::Binders(at, Binders::Gathered(Gather::Function), groups, body),
                scope: home,
                primes,
                primed: None,
            }));
        }
        What::Bound(index) => Form::Leaf(place, Leaf::Bound(index)),
        What::Variable(index) => Form::Variable(place, index),
        What::Value(value) => Form::Leaf(place, Leaf::Value(value)),
        What::Definition(_, _, _) | What::Gives(_, _) | What::Module(_) | What::Unknown =>
            return Err(Failure::NoExpansion(place)),
    };
    Ok(Reduction::Ends(Head {
        form,
        scope,
        primes,
        primed: None,
    }))
}

/// The reduction of the use of a name.
pub fn use_of<'a>(
    entries: &mut Entries<'_, 'a>,
    place: Place,
    name: &[u8],
    arguments: &'a [Expr],
    scope: usize,
    primes: Primes,
) -> Result<Reduction<'a>, Failure>
    requires linked { AreLinked (listed entries.old) }
    requires scope { scope ≤ length (listed entries.old) }
    ensures linked { OnOk result (AreLinked (listed entries.new)) }
    ensures extends { OnOk result (Extends (listed entries.new) (listed entries.old)) }
    ensures within { IfOk result (λ s. IsWithin (listed entries.new) s) }
    ensures same { IfOk result (λ s.
        (d : ℕ)
        → with_primes primes
        (scope_at (listed entries.old) scope name.now place
        (arguments_in arguments.now (scope_at (listed entries.old) scope)) d)
        ≡ reduction_gives (listed entries.new) s d) }
    ensures shorter { IfOk result (λ s.
        IsShorter (listed entries.new) s
        (total (costs_in arguments.now (costs_at (listed entries.old) scope))
        + costs_at (listed entries.old) scope name.now
        (costs_in arguments.now (costs_at (listed entries.old) scope)) + 1)) }
    ensures err { IfErr result (λ e.
        Explains e (λ d.
        scope_at (listed entries.old) scope name.now place
        (arguments_in arguments.now (scope_at (listed entries.old) scope)) d)) }
{
    let Some(entry) = find(entries, scope, name) else {
        let head = use_of_module(place, name, arguments, scope, primes)?;
        return Ok(Reduction::Ends(head));
    };
    if let What::Definition(parameters, body, home) = entry.what {
        if parameters.len() != arguments.len() {
            return Err(Failure::NoExpansion(place));
        }
        let inner = bind(entries, parameters, home, arguments, scope)?;
        return Ok(Reduction::Goes(body, inner, primes));
    }
    if let What::Gives(count, given) = entry.what {
        return match given_argument(arguments, count, given) {
            Some(argument) => Ok(Reduction::Goes(argument, scope, with_more(primes, given.primes))),
            None => Err(Failure::NoExpansion(place)),
        };
    }
    if let What::Module(builtin) = entry.what {
        let head = use_of_builtin(place, builtin, arguments, scope, primes)?;
        return Ok(Reduction::Ends(head));
    }
    use_without_arguments(place, entry.what, arguments, scope, primes)
}

/// The scope inside a LET. The only error is that memory ran out.
fn enter_definitions<'a>(
    entries: &mut Entries<'_, 'a>,
    definitions: &'a [Definition],
    scope: usize,
) -> Result<usize, Failure>
    requires linked { AreLinked (listed entries.old) }
    requires scope { scope ≤ length (listed entries.old) }
    ensures linked { OnOk result (AreLinked (listed entries.new)) }
    ensures extends { OnOk result (Extends (listed entries.new) (listed entries.old)) }
    ensures within { IfOk result (λ s. s ≤ length (listed entries.new)) }
    ensures same { IfOk result (λ s.
        definitions_in (definitions_of (map definition_view definitions.now))
        (scope_at (listed entries.old) scope)
        ≡ scope_at (listed entries.new) s) }
    ensures cheaper { IfOk result (λ s.
        IsCheaper (costs_at (listed entries.new) s)
        (costs_after (definitions_of (map definition_view definitions.now))
        (costs_at (listed entries.old) scope))) }
    ensures err { IfErr result (λ e. e ≡ Failure.Memory) }
{
    let mut at = scope;
    for i in 0..definitions.len() {
        let entry = entry_of(entries, &definitions[i], at);
        at = enter(entries, entry)?;
    }
    Ok(at)
}

/// What the name of a definition means, by its parameters and its body.
fn operator_of<'a>(
    entries: &Entries<'_, 'a>,
    parameters: &'a [Written],
    body: &'a Expr,
    scope: usize,
) -> What<'a>
    requires linked { AreLinked (listed entries.now) }
    requires within { scope ≤ length (listed entries.now) }
    ensures below { IsBelow scope result scope }
    ensures same { meaning_of (scope_at (listed entries.now)) result
        ≡ operator parameters.now (expand (view body.now)) (scope_at (listed entries.now) scope) }
    ensures cheaper { (τ : Costs) (ns ms : List ℕ)
        → IsCheaper (costs_at (listed entries.now) scope) τ
        → AreAtMost ns ms
        → cost_by (costs_at (listed entries.now)) result ns
        ≤ total ms + cost (view body.now) (with_costs parameters.now ms τ) }
{
    match projection_of(entries, scope, parameters, body) {
        Some(given) => What::Gives(parameters.len(), given),
        None => {
            let part = shortened_body(entries, scope, parameters, body);
            What::Definition(parameters, part, scope)
        }
    }
}

/// The entry of a definition, with the scope before it.
pub fn entry_of<'a>(
    entries: &Entries<'_, 'a>,
    definition: &'a Definition,
    scope: usize,
) -> Entry<'a>
    requires linked { AreLinked (listed entries.now) }
    requires within { scope ≤ length (listed entries.now) }
    ensures rest { result.rest ≡ scope }
    ensures below { IsBelow scope result.what result.rest }
    ensures scope { entry_scope (scope_at (listed entries.now)) result
        ≡ definition_in (definition_view definition.now) (scope_at (listed entries.now) scope) }
    ensures cheaper { (τ : Costs)
        → IsCheaper (costs_at (listed entries.now) scope) τ
        → IsCheaper (entry_costs (costs_at (listed entries.now)) result)
        (cost_after (definition_view definition.now) τ) }
{
    match definition {
        Definition::Operator(name, parameters, body) => {
            let parameters = parameters.as_slice();
            Entry {
                name: name.word.as_bytes(),
                what: operator_of(entries, parameters, body, scope),
                rest: scope,
            }
        }
        Definition::Function(name, groups, body) => Entry {
            name: name.word.as_bytes(),
            what: What::Function(place_of(name.place), groups, body, scope),
            rest: scope,
        },
    }
}

/// The next reduction, towards its form, of an expression that means another one.
fn reduce<'a>(
    entries: &mut Entries<'_, 'a>,
    tree: &'a Expr,
    scope: usize,
    primes: Primes,
) -> Result<Reduction<'a>, Failure>
    requires another { means_another (view tree.now) ≡ true }
    requires linked { AreLinked (listed entries.old) }
    requires scope { scope ≤ length (listed entries.old) }
    ensures linked { OnOk result (AreLinked (listed entries.new)) }
    ensures extends { OnOk result (Extends (listed entries.new) (listed entries.old)) }
    ensures within { IfOk result (λ s. IsWithin (listed entries.new) s) }
    ensures same { IfOk result (λ s.
        (d : ℕ)
        → with_primes primes (expand (view tree.now) (scope_at (listed entries.old) scope) d)
        ≡ reduction_gives (listed entries.new) s d) }
    ensures shorter { IfOk result (λ s.
        IsShorter (listed entries.new) s
        (cost (view tree.now) (costs_at (listed entries.old) scope))) }
    ensures err { IfErr result (λ e.
        Explains e (λ d. expand (view tree.now) (scope_at (listed entries.old) scope) d)) }
{
    match tree {
        Expr::Name(name) => {
            let at = place_of(name.place);
            use_of(entries, at, name.word.as_bytes(), &[], scope, primes)
        }
        Expr::Call(name, arguments) => {
            let at = place_of(name.place);
            let arguments = arguments.as_slice();
            use_of(entries, at, name.word.as_bytes(), arguments, scope, primes)
        }
        Expr::At(at) => use_of(entries, place_of(*at), b"@".as_slice(), &[], scope, primes),
        Expr::Paren(_, inner) => Ok(Reduction::Goes(inner, scope, primes)),
        Expr::Prime(_, inner) => Ok(Reduction::Goes(inner, scope, one_more(primes))),
        Expr::Let(_, definitions, inner) => {
            let inside = enter_definitions(entries, definitions.as_slice(), scope)?;
            Ok(Reduction::Goes(inner, inside, primes))
        }
        _ => unreachable!(),
    }
}

/// The next reduction of an expression towards its form.
pub fn next_reduction<'a>(
    entries: &mut Entries<'_, 'a>,
    tree: &'a Expr,
    scope: usize,
    primes: Primes,
) -> Result<Reduction<'a>, Failure>
    requires linked { AreLinked (listed entries.old) }
    requires scope { scope ≤ length (listed entries.old) }
    ensures linked { OnOk result (AreLinked (listed entries.new)) }
    ensures extends { OnOk result (Extends (listed entries.new) (listed entries.old)) }
    ensures within { IfOk result (λ s. IsWithin (listed entries.new) s) }
    ensures same { IfOk result (λ s.
        (d : ℕ)
        → with_primes primes (expand (view tree.now) (scope_at (listed entries.old) scope) d)
        ≡ reduction_gives (listed entries.new) s d) }
    ensures shorter { IfOk result (λ s.
        IsShorter (listed entries.new) s
        (cost (view tree.now) (costs_at (listed entries.old) scope))) }
    ensures err { IfErr result (λ e.
        Explains e (λ d. expand (view tree.now) (scope_at (listed entries.old) scope) d)) }
{
    match form_of(tree) {
        OwnForm::Goes => reduce(entries, tree, scope, primes),
        OwnForm::Nothing(at) => Err(Failure::NoExpansion(at)),
        OwnForm::Form(form) => Ok(Reduction::Ends(Head {
            form,
            scope,
            primes,
            primed: None,
        })),
    }
}

/// The larger of two.
fn larger(first: usize, second: usize) -> usize
    ensures first { first ≤ result }
    ensures second { second ≤ result }
    ensures least { (n : ℕ) → first ≤ n → second ≤ n → result ≤ n }
{
    if first < second { second } else { first }
}

/// Drops the entries of a call that returns one of its arguments: all after this scope, and after the first `kept`.
fn drop_entries<'a>(entries: &mut Entries<'_, 'a>, kept: usize, scope: usize)
    requires linked { AreLinked (listed entries.old) }
    requires kept { kept ≤ length (listed entries.old) }
    requires scope { scope ≤ length (listed entries.old) }
    ensures linked { AreLinked (listed entries.new) }
    ensures within { scope ≤ length (listed entries.new) }
    ensures same { scope_at (listed entries.new) scope ≡ scope_at (listed entries.old) scope }
    ensures costs { costs_at (listed entries.new) scope ≡ costs_at (listed entries.old) scope }
    ensures extends { (es : List arena_entry.Entry)
        → length es ≤ kept
        → Extends (listed entries.old) es
        → Extends (listed entries.new) es }
{
    let end = larger(kept, scope);
    entries.truncate(end);
}

/// The place of the last prime, counting those on an argument that a use returns.
fn last_argument_prime(
    entries: &Entries<'_, '_>,
    scope: usize,
    name: &[u8],
    before: Option<Place>,
) -> Option<Place>
    requires linked { AreLinked (listed entries.now) }
    requires scope { scope ≤ length (listed entries.now) }
{
    match find(entries, scope, name) {
        Some(entry) => match entry.what {
            What::Gives(_, given) => later_place(before, given.primed),
            _ => before,
        },
        None => before,
    }
}

/// The place of the last prime, counting those of an expression. `primes` are all primes so far.
fn last_prime(
    entries: &Entries<'_, '_>,
    scope: usize,
    tree: &Expr,
    primes: Primes,
    before: Option<Place>,
) -> Option<Place>
    requires linked { AreLinked (listed entries.now) }
    requires scope { scope ≤ length (listed entries.now) }
{
    match tree {
        Expr::Prime(at, _) => Some(place_of(*at)),
        Expr::Call(name, _) => match primes {
            Primes::Never => before,
            Primes::Once | Primes::Twice => {
                last_argument_prime(entries, scope, name.word.as_bytes(), before)
            }
        },
        _ => before,
    }
}

/// The form of an expression, after a chain of reductions.
pub fn find_head<'a>(
    entries: &mut Entries<'_, 'a>,
    start: &'a Expr,
    scope: usize,
    primes: Primes,
) -> Result<Head<'a>, Failure>
    requires linked { AreLinked (listed entries.old) }
    requires scope { scope ≤ length (listed entries.old) }
    ensures linked { OnOk result (AreLinked (listed entries.new)) }
    ensures extends { OnOk result (Extends (listed entries.new) (listed entries.old)) }
    ensures within { IfOk result (λ h. h.scope ≤ length (listed entries.new)) }
    ensures same { IfOk result (λ h.
        (d : ℕ)
        → with_primes primes (expand (view start.now) (scope_at (listed entries.old) scope) d)
        ≡ head_gives (listed entries.new) h d) }
    ensures err { IfErr result (λ e.
        Explains e (λ d.
        with_primes primes (expand (view start.now) (scope_at (listed entries.old) scope) d))) }
{
    let kept = entries.len();
    let mut tree = start;
    let mut at = scope;
    let mut with = primes;
    let mut primed = None;
    loop {
        match next_reduction(entries, tree, at, with)? {
            Reduction::Ends(head) => return Ok(Head { primed, ..head }),
            Reduction::Goes(next, inner, more) => {
                primed = last_prime(entries, at, tree, more, primed);
                drop_entries(entries, kept, inner);
                tree = next;
                at = inner;
                with = more;
            }
        }
    }
}
