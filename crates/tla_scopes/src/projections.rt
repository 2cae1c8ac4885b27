//! Definitions that return one of their arguments, through parentheses, primes, LET and uses of other such definitions.
//! A use of such a definition costs nothing, however many others its body uses. A name of a LET may also lead to an
//! argument of parameters around the LET.

ghost use Rattle.std.specs.Prelude.{◌≡◌, ◌≤◌, length, ℕ, None, IfSome, IfNone, drop};
ghost use Rattle.tla_core.specs.declared.fault.Place.{Place};
ghost use Rattle.tla_tree.specs.View.{view, definition_view};
ghost use Rattle.tla_scopes.specs.Meanings.{Scope, parameter, operator};
ghost use Rattle.tla_scopes.specs.Expand.{expand};
ghost use Rattle.tla_scopes.specs.Primes.{with_primes};
ghost use Rattle.tla_scopes.specs.Arguments as backs;
ghost use Rattle.tla_scopes.specs.Arguments.{argument_at};
ghost use Rattle.tla_scopes.specs.Private.LocalScopes.{Layers, Means, IsRound, IsFound, IsGiven, IsSummary, IsOperator, IsReduction, IsUse, GivesBack, depth, with_layer, with_count, reached_in, defined_name};
ghost use Rattle.tla_scopes.specs.Scopes.{AreLinked, scope_at, arguments_in};
ghost use Rattle.tla_scopes.specs.Costs.{Costs, cost, costs_in, total};
ghost use Rattle.tla_scopes.specs.Listed.{listed};

use crate::arena::{Projection, What, find};
use crate::entries::Entries;
use crate::places::place_of;
use crate::primes::{Primes, one_more};
use crate::shortened::last_of;
use tla_core::Place;
use tla_tree::{Definition, Expr, Written};

/// An argument of a layer of parameters around a part of a body. The layer's number is how many names and layers are
/// around it.
#[derive(Clone, Copy)]
pub(crate) struct Reached {
    pub(crate) layer: usize,
    pub(crate) given: Projection,
}

/// What is known of a name.
#[derive(Clone, Copy)]
pub(crate) enum Summary {
    /// An operator with this many parameters that returns one of its arguments.
    Gives(usize, Projection),
    /// An operator that leads to an argument of parameters around it, whatever its own arguments are.
    Reaches(usize, Reached),
    Other,
}

/// The names around a part of a body, from the innermost to those around the definition.
#[derive(Clone, Copy)]
pub(crate) enum LocalScope<'a> {
    Outside,
    /// A layer of parameters, and what is around it.
    Parameters(&'a [Written], &'a LocalScope<'a>),
    /// A name of a LET, and those before it.
    Named(&'a [u8], Summary, &'a LocalScope<'a>),
}

/// A part of a body, with the names around it, the primes on it, and the place of the last of these.
#[derive(Clone, Copy)]
pub(crate) struct BodyPart<'a> {
    pub(crate) known: &'a LocalScope<'a>,
    pub(crate) tree: &'a Expr,
    pub(crate) primes: Primes,
    pub(crate) primed: Option<Place>,
}

/// The result of one reduction of a part of a body.
#[derive(Clone, Copy)]
pub(crate) enum BodyReduction<'a> {
    Continue(BodyPart<'a>),
    Argument(Reached),
    Stuck,
}

/// How many LETs and names of LETs may be entered at once.
const MAX_DEPTH: usize = 1000;

/// These primes, and `more` of them.
pub(crate) fn with_more(primes: Primes, more: Primes) -> Primes
    ensures { result ≡ backs.with_more primes more }
{
    match more {
        Primes::Never => primes,
        Primes::Once => one_more(primes),
        Primes::Twice => one_more(one_more(primes)),
    }
}

/// The argument that a use returns, if it has as many as its operator has parameters.
pub(crate) fn given_argument<'a>(
    arguments: &'a [Expr],
    count: usize,
    given: Projection,
) -> Option<&'a Expr>
    ensures some { IfSome result (λ e.
        (σ : Scope) (p : Place) (d : ℕ)
        → backs.given count given p (arguments_in arguments.now σ) d
        ≡ with_primes given.primes (expand (view e.now) σ d)) }
    ensures costs { IfSome result (λ e.
        (σ : Costs) → cost (view e.now) σ ≤ total (costs_in arguments.now σ)) }
    ensures none { IfNone result
        ((σ : Scope) (p : Place) (d : ℕ)
        → backs.given count given p (arguments_in arguments.now σ) d ≡ None) }
{
    if count != arguments.len() {
        return None;
    }
    if given.index < arguments.len() {
        return Some(&arguments[given.index]);
    }
    None
}

/// The place of the last prime, if more were found.
pub(crate) fn later_place(before: Option<Place>, met: Option<Place>) -> Option<Place> {
    match met {
        Some(place) => Some(place),
        None => before,
    }
}

/// How many names and layers of parameters these are.
fn depth_of(known: &LocalScope<'_>) -> Option<usize>
    ensures { IfSome result (λ n. n ≡ depth known.now) }
{
    let mut at = known;
    for met in 0..usize::MAX {
        match at {
            LocalScope::Outside => return Some(met),
            LocalScope::Parameters(_, rest) => at = rest,
            LocalScope::Named(_, _, rest) => at = rest,
        }
    }
    None
}

/// A parameter by its number, in the layer that is just outside these names.
fn parameter_summary(round: &LocalScope<'_>, index: usize) -> Summary
    ensures { (f : Layers) → Means f result (parameter (argument_at index (f (depth round.now)))) }
{
    match depth_of(round) {
        Some(layer) => Summary::Reaches(
            0,
            Reached {
                layer,
                given: Projection {
                    index,
                    primes: Primes::Never,
                    primed: None,
                },
            },
        ),
        None => Summary::Other,
    }
}

/// What is known of a name, unless it is one from outside.
fn summary_of(known: &LocalScope<'_>, name: &[u8]) -> Option<Summary>
    ensures { IsFound name.now known.now result }
{
    let mut at = known;
    loop {
        match at {
            LocalScope::Outside => return None,
            LocalScope::Parameters(parameters, rest) => {
                if let Some(index) = last_of(parameters, name) {
                    return Some(parameter_summary(rest, index));
                }
                at = rest;
            }
            LocalScope::Named(word, summary, rest) => {
                if *word == name {
                    return Some(*summary);
                }
                at = rest;
            }
        }
    }
}

/// The argument that an operator of a scope returns.
fn projection_in_scope(
    entries: &Entries<'_, '_>,
    scope: usize,
    name: &[u8],
) -> Option<(usize, Projection)>
    requires linked { AreLinked (listed entries.now) }
    requires within { scope ≤ length (listed entries.now) }
    ensures { IfSome result (λ g.
        scope_at (listed entries.now) scope name.now ≡ backs.given g.0 g.1) }
{
    match find(entries, scope, name)?.what {
        What::Gives(count, given) => Some((count, given)),
        _ => None,
    }
}

/// What is known of a name, wherever it is from.
fn summary_of_name(
    entries: &Entries<'_, '_>,
    scope: usize,
    known: &LocalScope<'_>,
    name: &[u8],
) -> Summary
    requires linked { AreLinked (listed entries.now) }
    requires within { scope ≤ length (listed entries.now) }
    ensures { IsGiven (scope_at (listed entries.now) scope) known.now name.now result }
{
    match summary_of(known, name) {
        Some(summary) => summary,
        None => match projection_in_scope(entries, scope, name) {
            Some((count, given)) => Summary::Gives(count, given),
            None => Summary::Other,
        },
    }
}

/// An argument under the primes on a part.
fn under_primes_of(part: BodyPart<'_>, given: Projection) -> Projection
    ensures index { result.index ≡ given.index }
    ensures primes { result.primes ≡ backs.with_more part.entry.primes given.primes }
{
    Projection {
        primes: with_more(part.primes, given.primes),
        primed: later_place(part.primed, given.primed),
        ..given
    }
}

/// Reduces the use of a name.
fn reduce_use<'a>(
    entries: &Entries<'_, '_>,
    scope: usize,
    part: BodyPart<'a>,
    name: &Written,
    arguments: &'a [Expr],
) -> BodyReduction<'a>
    requires linked { AreLinked (listed entries.now) }
    requires within { scope ≤ length (listed entries.now) }
    ensures { IsUse (view part.entry.tree.now) name.now arguments.now
        → IsReduction (scope_at (listed entries.now) scope) part.entry result }
{
    match summary_of_name(entries, scope, part.known, name.word.as_bytes()) {
        Summary::Gives(count, given) => match given_argument(arguments, count, given) {
            Some(tree) => {
                let more = under_primes_of(part, given);
                BodyReduction::Continue(BodyPart {
                    known: part.known,
                    tree,
                    primes: more.primes,
                    primed: more.primed,
                })
            }
            None => BodyReduction::Stuck,
        },
        Summary::Reaches(count, reached) => {
            if count != arguments.len() {
                return BodyReduction::Stuck;
            }
            BodyReduction::Argument(Reached {
                layer: reached.layer,
                given: under_primes_of(part, reached.given),
            })
        }
        Summary::Other => BodyReduction::Stuck,
    }
}

/// Reduces a part of a body by one step.
fn reduce_once<'a>(entries: &Entries<'_, '_>, scope: usize, part: BodyPart<'a>) -> BodyReduction<'a>
    requires linked { AreLinked (listed entries.now) }
    requires within { scope ≤ length (listed entries.now) }
    ensures { IsReduction (scope_at (listed entries.now) scope) part.entry result }
{
    match part.tree {
        Expr::Name(name) => reduce_use(entries, scope, part, name, &[]),
        Expr::Call(name, arguments) => reduce_use(entries, scope, part, name, arguments.as_slice()),
        Expr::Paren(_, inner) => BodyReduction::Continue(BodyPart {
            tree: inner,
            ..part
        }),
        Expr::Prime(at, inner) => BodyReduction::Continue(BodyPart {
            tree: inner,
            primes: one_more(part.primes),
            primed: Some(place_of(*at)),
            ..part
        }),
        _ => BodyReduction::Stuck,
    }
}

/// Reduces a part of a body as far as possible: to an argument, or to a part that can't be reduced.
fn reduce_fully<'a>(
    entries: &Entries<'_, '_>,
    scope: usize,
    start: BodyPart<'a>,
) -> BodyReduction<'a>
    requires linked { AreLinked (listed entries.now) }
    requires within { scope ≤ length (listed entries.now) }
    ensures { IsReduction (scope_at (listed entries.now) scope) start.entry result }
{
    let mut part = start;
    for _turn in 0..u64::MAX {
        match reduce_once(entries, scope, part) {
            BodyReduction::Continue(next) => part = next,
            BodyReduction::Argument(reached) => return BodyReduction::Argument(reached),
            BodyReduction::Stuck => return BodyReduction::Continue(part),
        }
    }
    BodyReduction::Stuck
}

/// The name of a definition.
fn name_of<'a>(definition: &'a Definition) -> &'a [u8]
    ensures { result.now ≡ defined_name (definition_view definition.now) }
{
    match definition {
        Definition::Operator(name, _, _) => name.word.as_bytes(),
        Definition::Function(name, _, _) => name.word.as_bytes(),
    }
}

/// Reduces a part of a body inside a LET of these definitions, from one on.
#[cycle(reach)]
fn reach_in_let(
    entries: &Entries<'_, '_>,
    scope: usize,
    part: BodyPart<'_>,
    definitions: &[Definition],
    from: usize,
    depth_left: usize,
) -> Option<Reached>
    requires linked { AreLinked (listed entries.now) }
    requires within { scope ≤ length (listed entries.now) }
    ensures { IfSome result (λ r.
        GivesBack (scope_at (listed entries.now) scope) part.entry (drop from definitions.now)
        r) }
{
    if depth_left == 0 {
        return None;
    }
    if from < definitions.len() {
        let definition = &definitions[from];
        let summary = definition_summary(entries, scope, part.known, definition, depth_left - 1);
        let known = LocalScope::Named(name_of(definition), summary, part.known);
        let inside = BodyPart {
            known: &known,
            ..part
        };
        return reach_in_let(
            entries,
            scope,
            inside,
            definitions,
            from + 1,
            depth_left - 1,
        );
    }
    match reduce_fully(entries, scope, part) {
        BodyReduction::Argument(reached) => Some(reached),
        BodyReduction::Continue(end) => match end.tree {
            Expr::Let(_, inner_definitions, tree) => {
                let inside = BodyPart { tree, ..end };
                reach_in_let(
                    entries,
                    scope,
                    inside,
                    inner_definitions.as_slice(),
                    0,
                    depth_left - 1,
                )
            }
            _ => None,
        },
        BodyReduction::Stuck => None,
    }
}

/// The summary of an operator with this many parameters that leads to an argument of its own, or of a layer around it.
fn operator_summary(known: &LocalScope<'_>, count: usize, reached: Reached) -> Summary
    ensures means { (f : Layers)
        → Means f result
        (with_count count (λ args.
        reached_in reached (with_layer (depth known.now) args f))) }
    ensures round { IsRound (depth known.now) result }
{
    let Some(own) = depth_of(known) else {
        return Summary::Other;
    };
    if reached.layer == own {
        return Summary::Gives(count, reached.given);
    }
    if reached.layer < own {
        return Summary::Reaches(count, reached);
    }
    Summary::Other
}

/// What is known of a definition.
#[cycle(reach)]
fn definition_summary(
    entries: &Entries<'_, '_>,
    scope: usize,
    known: &LocalScope<'_>,
    definition: &Definition,
    depth_left: usize,
) -> Summary
    requires linked { AreLinked (listed entries.now) }
    requires within { scope ≤ length (listed entries.now) }
    ensures { IsSummary (scope_at (listed entries.now) scope) known.now
        (definition_view definition.now) result }
{
    let Definition::Operator(_, parameters, body) = definition else {
        return Summary::Other;
    };
    match reach_in_operator(
        entries,
        scope,
        &*known,
        parameters.as_slice(),
        body,
        depth_left,
    ) {
        Some(reached) => operator_summary(known, parameters.len(), reached),
        None => Summary::Other,
    }
}

/// The argument that an operator leads to.
#[cycle(reach)]
fn reach_in_operator(
    entries: &Entries<'_, '_>,
    scope: usize,
    known: &LocalScope<'_>,
    parameters: &[Written],
    body: &Expr,
    depth_left: usize,
) -> Option<Reached>
    requires linked { AreLinked (listed entries.now) }
    requires within { scope ≤ length (listed entries.now) }
    ensures { IfSome result (λ r.
        IsOperator (scope_at (listed entries.now) scope) known.now parameters.now (view body.now)
        r) }
{
    let inside = LocalScope::Parameters(&*parameters, &*known);
    let part = BodyPart {
        known: &inside,
        tree: &*body,
        primes: Primes::Never,
        primed: None,
    };
    reach_in_let(entries, scope, part, &[], 0, depth_left)
}

/// The argument that a definition returns.
pub(crate) fn projection_of(
    entries: &Entries<'_, '_>,
    scope: usize,
    parameters: &[Written],
    body: &Expr,
) -> Option<Projection>
    requires linked { AreLinked (listed entries.now) }
    requires within { scope ≤ length (listed entries.now) }
    ensures { IfSome result (λ g.
        operator parameters.now (expand (view body.now)) (scope_at (listed entries.now) scope)
        ≡ backs.given (length parameters.now) g) }
{
    if parameters.len() == 0 {
        return None;
    }
    match reach_in_operator(
        entries,
        scope,
        &LocalScope::Outside,
        parameters,
        body,
        MAX_DEPTH,
    ) {
        Some(reached) => {
            if reached.layer > 0 {
                return None;
            }
            Some(reached.given)
        }
        None => None,
    }
}
