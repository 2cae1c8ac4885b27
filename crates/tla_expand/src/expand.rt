//! The expansion of an expression, within limits of its size.
//!
//! The functions of single forms are not inlined: else each level of an expression takes the stack of them all.

ghost use Rattle.std.specs.Prelude.{◌≡◌, ◌≢◌, ◌≤◌, ◌<◌, ◌+◌, ◌∷◌, [], length, ℕ, Option, Some, None, map, IfOk, IfErr, OnOk};
ghost use Rattle.tla_core.specs.declared.fault.Place.{Place};
ghost use Rattle.tla_core.specs.Expr as expr;
ghost use Rattle.tla_core.specs.ExprOf.{expr_of};
ghost use Rattle.tla_tree.specs.View.{view};
ghost use Rattle.tla_scopes.specs.Maybe.{each_of};
ghost use Rattle.tla_scopes.specs.Lists.{exprs, arms_with, fields_of};
ghost use Rattle.tla_scopes.specs.Primes.{primed_now, with_primes};
ghost use Rattle.tla_scopes.specs.Nodes as nodes;
ghost use Rattle.tla_scopes.specs.Meanings.{builtin_meaning};
ghost use Rattle.tla_scopes.specs.Expand as expansion;
ghost use Rattle.tla_scopes.specs.Scopes.{AreLinked, scope_at, arguments_in};
ghost use Rattle.tla_scopes.specs.Forms.{form_in};
ghost use Rattle.tla_model.specs.Size.{IsWithinLimits};
ghost use Rattle.tla_expand.specs.Private.Gives.{part_in, key_in, arm_in, field_in, both, made, Fails, Gives, GivesTwo, most_named};
ghost use Rattle.tla_scopes.specs.Listed.{listed};

mod binding;
mod levels;
mod lists;
mod unchanged;
mod updates;

use crate::builders::{
    cases_core, cases_or_core, fielded_core, leaf_core, many_core, one_core, product_core,
    three_core, two_core,
};
use crate::expanded::{Expanded, Pair};
use crate::parts::boxed;
use binding::{Under, bound_one, bound_several, gather_node};
use levels::{node_of_head, unchanged_node};
use lists::{arms_of, expand_all, expand_argument, named_parts};
use std::alloc::Global;
use tla_core::{Core, Place};
use tla_model::{MAX_NODES, MAX_PATH};
use tla_scopes::{
    BinaryNode, Binders, Builtin, Entries, Failure, Fielded, Form, Headed, Leaf, ListNode, Primes,
    TernaryNode, UnaryNode, find_head,
};
use tla_tree::{Arm, Expr, Field, Step};
use unchanged::{angle_node, square_node};
use updates::except_node;

/// The most nodes on a path below the outermost node.
pub(crate) const PATH_BELOW: usize = MAX_PATH - 1;

/// The most nodes below the outermost node.
pub(crate) const NODES_BELOW: usize = MAX_NODES - 1;

/// The context of an expression, and how large its expansion may be.
#[derive(Clone, Copy)]
pub(crate) struct ExpandContext {
    /// The scope of its names.
    pub(crate) scope: usize,
    /// The primes on it.
    pub(crate) primes: Primes,
    /// How many names are bound around it.
    pub(crate) bound: usize,
    /// How many nodes there may be on a path.
    pub(crate) depth_left: usize,
    /// How many nodes there may be.
    pub(crate) nodes_left: usize,
    /// Some if operands are also examined without more primes, to report the first refusal: the primes on the whole
    /// expression.
    pub(crate) reported: Option<Primes>,
}

impl ExpandContext {
    /// The context of a node's operands: one node less, in all and on each path.
    #[tactic(auto, using(crate::proofs::Sizes::some_node, crate::proofs::Sizes::some_depth))]
    fn inside(self) -> Result<ExpandContext, Failure>
        ensures scope { IfOk result (λ s. s.scope ≡ self.scope) }
        ensures primes { IfOk result (λ s. s.primes ≡ self.primes) }
        ensures bound { IfOk result (λ s. s.bound ≡ self.bound) }
        ensures depth_left { IfOk result (λ s. s.depth_left + 1 ≡ self.depth_left) }
        ensures nodes_left { IfOk result (λ s. s.nodes_left + 1 ≡ self.nodes_left) }
        ensures reported { IfOk result (λ s. s.reported ≡ self.reported) }
        ensures err { IfErr result (λ f. f ≡ Failure.TooLarge) }
        // There is no node at all within such limits.
        ensures none { IfErr result (λ f.
            (o : Option expr.Expr) → Fails self.depth_left self.nodes_left f o) }
    {
        if self.depth_left == 0 || self.nodes_left == 0 {
            return Err(Failure::TooLarge);
        }
        Ok(ExpandContext {
            depth_left: self.depth_left - 1,
            nodes_left: self.nodes_left - 1,
            ..self
        })
    }
}

/// A node without parts.
#[inline(never)]
fn leaf_of<'a>(
    alloc: Global,
    place: Place,
    node: Leaf<'a>,
    primes: Primes,
    nodes_left: usize,
) -> Result<Expanded, Failure>
    ensures { (depth_left : ℕ)
        → Gives (depth_left + 1) (nodes_left + 1) result
        (with_primes primes (nodes.leaf node.entry place)) }
{
    let core = leaf_core(alloc, place, node)?;
    Ok(Expanded { core, nodes_left })
}

/// A variable, under these primes.
#[inline(never)]
fn variable_of(
    place: Place,
    index: usize,
    primes: Primes,
    nodes_left: usize,
) -> Result<Expanded, Failure>
    ensures { (depth_left : ℕ)
        → Gives (depth_left + 1) (nodes_left + 1) result (primed_now primes place index) }
{
    match primes {
        Primes::Never => Ok(Expanded {
            core: Core::Now(place, index),
            nodes_left,
        }),
        Primes::Once => Ok(Expanded {
            core: Core::Next(place, index),
            nodes_left,
        }),
        Primes::Twice => Err(Failure::NoExpansion(place)),
    }
}

/// The expansion of an expression.
#[cycle(expand)]
pub(crate) fn expand<'a>(
    alloc: Global,
    entries: &mut Entries<'_, 'a>,
    tree: &'a Expr,
    at: ExpandContext,
) -> Result<Expanded, Failure>
    requires linked { AreLinked (listed entries.old) }
    requires scope { at.scope ≤ length (listed entries.old) }
    requires small { at.bound + at.nodes_left ≤ most_named (listed entries.old) }
    ensures kept { OnOk result (listed entries.new ≡ listed entries.old) }
    ensures same { Gives at.depth_left at.nodes_left result
        (part_in at.primes (scope_at (listed entries.old) at.scope) at.bound tree.now) }
{
    let inside = at.inside()?;
    let mark = entries.len();
    let found = find_head(entries, tree, at.scope, at.primes)?;
    let inside = ExpandContext {
        scope: found.scope,
        primes: found.primes,
        ..inside
    };
    let made = node_of_head(alloc, entries, found, at.primes, inside)?;
    entries.truncate(mark);
    Ok(made)
}

/// The node of a form. The limits in the context are those of its operands.
#[cycle(expand)]
pub(crate) fn node_of<'a>(
    alloc: Global,
    entries: &mut Entries<'_, 'a>,
    form: Form<'a>,
    at: ExpandContext,
) -> Result<Expanded, Failure>
    requires linked { AreLinked (listed entries.old) }
    requires scope { at.scope ≤ length (listed entries.old) }
    requires small { at.bound + at.nodes_left < most_named (listed entries.old) }
    ensures kept { OnOk result (listed entries.new ≡ listed entries.old) }
    ensures same { Gives (at.depth_left + 1) (at.nodes_left + 1) result
        (with_primes at.primes
        (form_in form.entry (scope_at (listed entries.old) at.scope) at.bound)) }
{
    match form {
        Form::Leaf(place, node) => leaf_of(alloc, place, node, at.primes, at.nodes_left),
        Form::Variable(place, index) => variable_of(place, index, at.primes, at.nodes_left),
        Form::One(place, node, part) => one_node(alloc, entries, place, node, part, at),
        Form::Two(place, node, a, b) => two_node(alloc, entries, place, node, a, b, at),
        Form::Three(place, node, first, second, third) => {
            let operands = Operands {
                first,
                second,
                third,
            };
            three_node(alloc, entries, place, node, operands, at)
        }
        Form::Many(place, node, items) => {
            many_node(alloc, entries, place, node, items.as_slice(), at)
        }
        Form::Use(place, builtin, arguments) => {
            use_node(alloc, entries, place, builtin, arguments, at)
        }
        Form::Headed(place, node, first, others) => match node {
            Headed::Index => index_node(alloc, entries, place, first, others.as_slice(), at),
            Headed::Product => product_node(alloc, entries, place, first, others.as_slice(), at),
        },
        Form::Cases(place, arms, last) => match last {
            None => cases_node(alloc, entries, place, arms.as_slice(), at),
            Some(last) => cases_or_node(alloc, entries, place, arms.as_slice(), last, at),
        },
        Form::Fields(place, node, fields) => {
            fields_node(alloc, entries, place, node, fields.as_slice(), at)
        }
        Form::Except(place, function, updates) => {
            except_node(alloc, entries, place, function, updates.as_slice(), at)
        }
        Form::Action(place, step, action, place_v, v) => match step {
            Step::Box => square_node(alloc, entries, place, action, place_v, v, at),
            Step::Angle => angle_node(alloc, entries, place, action, place_v, v, at),
        },
        Form::Unchanged(place, operand) => unchanged_node(alloc, entries, place, operand, at),
        Form::Binders(place, Binders::Nested(node), groups, body) => {
            bound_several(alloc, entries, place, node, groups.as_slice(), body, at)
        }
        Form::Binders(place, Binders::Gathered(node), groups, body) => {
            gather_node(alloc, entries, place, node, groups.as_slice(), body, at)
        }
        Form::Binds(place, node, pattern, set, body) => {
            let under = Under {
                place,
                node,
                home: at.scope,
                body,
            };
            bound_one(alloc, entries, under, pattern, set, at)
        }
    }
}

/// The use of an operator of a module.
#[cycle(expand)]
#[inline(never)]
fn use_node<'a>(
    alloc: Global,
    entries: &mut Entries<'_, 'a>,
    place: Place,
    builtin: Builtin,
    arguments: &'a [Expr],
    at: ExpandContext,
) -> Result<Expanded, Failure>
    requires linked { AreLinked (listed entries.old) }
    requires scope { at.scope ≤ length (listed entries.old) }
    requires small { at.bound + at.nodes_left ≤ most_named (listed entries.old) }
    ensures kept { OnOk result (listed entries.new ≡ listed entries.old) }
    ensures same { Gives (at.depth_left + 1) (at.nodes_left + 1) result
        (with_primes at.primes
        (builtin_meaning builtin place
        (arguments_in arguments.now (scope_at (listed entries.old) at.scope)) at.bound)) }
{
    match builtin {
        Builtin::Kinds(kind) => match arguments {
            [] => leaf_of(alloc, place, Leaf::Kinds(kind), at.primes, at.nodes_left),
            _ => Err(Failure::NoExpansion(place)),
        },
        Builtin::Sequences => match arguments {
            [first] => one_node(alloc, entries, place, UnaryNode::Sequences, first, at),
            _ => Err(Failure::NoExpansion(place)),
        },
        Builtin::One(operator) => match arguments {
            [first] => one_node(alloc, entries, place, UnaryNode::Unary(operator), first, at),
            _ => Err(Failure::NoExpansion(place)),
        },
        Builtin::Two(node) => match arguments {
            [one, other] => two_node(alloc, entries, place, node, one, other, at),
            _ => Err(Failure::NoExpansion(place)),
        },
        Builtin::Three(node) => match arguments {
            [first, second, third] => {
                let operands = Operands {
                    first,
                    second,
                    third,
                };
                three_node(alloc, entries, place, node, operands, at)
            }
            _ => Err(Failure::NoExpansion(place)),
        },
    }
}

/// A node of one part.
#[cycle(expand)]
#[inline(never)]
fn one_node<'a>(
    alloc: Global,
    entries: &mut Entries<'_, 'a>,
    place: Place,
    node: UnaryNode<'a>,
    part: &'a Expr,
    at: ExpandContext,
) -> Result<Expanded, Failure>
    requires linked { AreLinked (listed entries.old) }
    requires scope { at.scope ≤ length (listed entries.old) }
    requires small { at.bound + at.nodes_left ≤ most_named (listed entries.old) }
    ensures kept { OnOk result (listed entries.new ≡ listed entries.old) }
    ensures same { Gives (at.depth_left + 1) (at.nodes_left + 1) result
        (made (λ x. nodes.one node.entry place x)
        (part_in at.primes (scope_at (listed entries.old) at.scope) at.bound part.now)) }
{
    let part = expand(alloc, entries, part, at)?;
    let core = one_core(alloc, place, node, part.core)?;
    Ok(Expanded {
        core,
        nodes_left: part.nodes_left,
    })
}

/// A node of two parts.
#[cycle(expand)]
#[inline(never)]
fn two_node<'a>(
    alloc: Global,
    entries: &mut Entries<'_, 'a>,
    place: Place,
    node: BinaryNode,
    first: &'a Expr,
    second: &'a Expr,
    at: ExpandContext,
) -> Result<Expanded, Failure>
    requires linked { AreLinked (listed entries.old) }
    requires scope { at.scope ≤ length (listed entries.old) }
    requires small { at.bound + at.nodes_left ≤ most_named (listed entries.old) }
    ensures kept { OnOk result (listed entries.new ≡ listed entries.old) }
    ensures same { Gives (at.depth_left + 1) (at.nodes_left + 1) result
        (made (λ xy. nodes.two node place xy.0 xy.1)
        (both (part_in at.primes (scope_at (listed entries.old) at.scope) at.bound first.now)
        (part_in at.primes (scope_at (listed entries.old) at.scope) at.bound second.now))) }
{
    let two = two_parts(alloc, entries, first, second, at.primes, at)?;
    let core = two_core(alloc, place, node, two.first, two.second)?;
    Ok(Expanded {
        core,
        nodes_left: two.nodes_left,
    })
}

/// The operands of a node of three parts.
#[derive(Clone, Copy)]
struct Operands<'a> {
    first: &'a Expr,
    second: &'a Expr,
    third: &'a Expr,
}

/// A node of three parts.
#[cycle(expand)]
#[inline(never)]
fn three_node<'a>(
    alloc: Global,
    entries: &mut Entries<'_, 'a>,
    place: Place,
    node: TernaryNode,
    operands: Operands<'a>,
    at: ExpandContext,
) -> Result<Expanded, Failure>
    requires linked { AreLinked (listed entries.old) }
    requires scope { at.scope ≤ length (listed entries.old) }
    requires small { at.bound + at.nodes_left ≤ most_named (listed entries.old) }
    ensures kept { OnOk result (listed entries.new ≡ listed entries.old) }
    ensures same { Gives (at.depth_left + 1) (at.nodes_left + 1) result
        (made (λ t. nodes.three node place t.0.0 t.0.1 t.1)
        (both
        (both
        (part_in at.primes (scope_at (listed entries.old) at.scope) at.bound
        operands.entry.first.now)
        (part_in at.primes (scope_at (listed entries.old) at.scope) at.bound
        operands.entry.second.now))
        (part_in at.primes (scope_at (listed entries.old) at.scope) at.bound
        operands.entry.third.now))) }
{
    let Operands {
        first,
        second,
        third,
    } = operands;
    let two = two_parts(alloc, entries, first, second, at.primes, at)?;
    let nodes_left = two.nodes_left;
    let second = boxed(alloc, two.second)?;
    let third = expand(alloc, entries, third, ExpandContext { nodes_left, ..at })?;
    let core = three_core(alloc, place, node, two.first, second, third.core)?;
    Ok(Expanded {
        core,
        nodes_left: third.nodes_left,
    })
}

/// A node of a list of parts.
#[cycle(expand)]
#[inline(never)]
fn many_node<'a>(
    alloc: Global,
    entries: &mut Entries<'_, 'a>,
    place: Place,
    node: ListNode,
    items: &'a [Expr],
    at: ExpandContext,
) -> Result<Expanded, Failure>
    requires linked { AreLinked (listed entries.old) }
    requires scope { at.scope ≤ length (listed entries.old) }
    requires small { at.bound + at.nodes_left ≤ most_named (listed entries.old) }
    ensures kept { OnOk result (listed entries.new ≡ listed entries.old) }
    ensures same { Gives (at.depth_left + 1) (at.nodes_left + 1) result
        (made (λ xs. nodes.many node place (exprs xs))
        (each_of (part_in at.primes (scope_at (listed entries.old) at.scope) at.bound)
        items.now)) }
{
    let many = expand_all(alloc, entries, items, at)?;
    let core = many_core(alloc, place, node, many.parts)?;
    Ok(Expanded {
        core,
        nodes_left: many.nodes_left,
    })
}

/// The application of a function.
#[cycle(expand)]
#[inline(never)]
fn index_node<'a>(
    alloc: Global,
    entries: &mut Entries<'_, 'a>,
    place: Place,
    function: &'a Expr,
    items: &'a [Expr],
    at: ExpandContext,
) -> Result<Expanded, Failure>
    requires linked { AreLinked (listed entries.old) }
    requires scope { at.scope ≤ length (listed entries.old) }
    requires small { at.bound + at.nodes_left ≤ most_named (listed entries.old) }
    ensures kept { OnOk result (listed entries.new ≡ listed entries.old) }
    ensures same { Gives (at.depth_left + 1) (at.nodes_left + 1) result
        (made (λ xy. nodes.two BinaryNode.Apply place xy.0 xy.1)
        (both
        (part_in at.primes (scope_at (listed entries.old) at.scope) at.bound function.now)
        (key_in at.primes (scope_at (listed entries.old) at.scope) at.bound items.now))) }
{
    let function = expand(alloc, entries, function, at)?;
    let nodes_left = function.nodes_left;
    let function = boxed(alloc, function.core)?;
    let key = expand_argument(
        alloc,
        entries,
        place,
        items,
        ExpandContext { nodes_left, ..at },
    )?;
    let core = two_core(alloc, place, BinaryNode::Apply, function, key.core)?;
    Ok(Expanded {
        core,
        nodes_left: key.nodes_left,
    })
}

/// CASE without OTHER.
#[cycle(expand)]
#[inline(never)]
fn cases_node<'a>(
    alloc: Global,
    entries: &mut Entries<'_, 'a>,
    place: Place,
    arms: &'a [Arm],
    at: ExpandContext,
) -> Result<Expanded, Failure>
    requires linked { AreLinked (listed entries.old) }
    requires scope { at.scope ≤ length (listed entries.old) }
    requires small { at.bound + at.nodes_left ≤ most_named (listed entries.old) }
    ensures kept { OnOk result (listed entries.new ≡ listed entries.old) }
    ensures same { Gives (at.depth_left + 1) (at.nodes_left + 1) result
        (made (λ xs. expr.cases place (arms_with xs expr.no_arms))
        (each_of (arm_in at.primes (scope_at (listed entries.old) at.scope) at.bound)
        arms.now)) }
{
    let made = arms_of(alloc, entries, arms, at)?;
    Ok(Expanded {
        core: cases_core(place, made.arms),
        nodes_left: made.nodes_left,
    })
}

/// CASE with OTHER.
#[cycle(expand)]
#[inline(never)]
fn cases_or_node<'a>(
    alloc: Global,
    entries: &mut Entries<'_, 'a>,
    place: Place,
    arms: &'a [Arm],
    last: &'a Expr,
    at: ExpandContext,
) -> Result<Expanded, Failure>
    requires linked { AreLinked (listed entries.old) }
    requires scope { at.scope ≤ length (listed entries.old) }
    requires small { at.bound + at.nodes_left ≤ most_named (listed entries.old) }
    ensures kept { OnOk result (listed entries.new ≡ listed entries.old) }
    ensures same { Gives (at.depth_left + 1) (at.nodes_left + 1) result
        (made (λ xs. expr.cases place (arms_with xs.0 (expr.other xs.1)))
        (both
        (each_of (arm_in at.primes (scope_at (listed entries.old) at.scope) at.bound)
        arms.now)
        (part_in at.primes (scope_at (listed entries.old) at.scope) at.bound last.now))) }
{
    let made = arms_of(alloc, entries, arms, at)?;
    let nodes_left = made.nodes_left;
    let last = expand(alloc, entries, last, ExpandContext { nodes_left, ..at })?;
    let core = cases_or_core(alloc, place, made.arms, last.core)?;
    Ok(Expanded {
        core,
        nodes_left: last.nodes_left,
    })
}

/// A product. Its operands are in one list.
#[cycle(expand)]
#[inline(never)]
fn product_node<'a>(
    alloc: Global,
    entries: &mut Entries<'_, 'a>,
    place: Place,
    first: &'a Expr,
    others: &'a [Expr],
    at: ExpandContext,
) -> Result<Expanded, Failure>
    requires linked { AreLinked (listed entries.old) }
    requires scope { at.scope ≤ length (listed entries.old) }
    requires small { at.bound + at.nodes_left ≤ most_named (listed entries.old) }
    ensures kept { OnOk result (listed entries.new ≡ listed entries.old) }
    ensures same { Gives (at.depth_left + 1) (at.nodes_left + 1) result
        (made (λ xs. expr.product place (exprs (xs.0 ∷ xs.1)))
        (both (part_in at.primes (scope_at (listed entries.old) at.scope) at.bound first.now)
        (each_of (part_in at.primes (scope_at (listed entries.old) at.scope) at.bound)
        others.now))) }
{
    let first = expand(alloc, entries, first, at)?;
    let nodes_left = first.nodes_left;
    let first = boxed(alloc, first.core)?;
    let others = expand_all(alloc, entries, others, ExpandContext { nodes_left, ..at })?;
    let core = product_core(place, first, others.parts)?;
    Ok(Expanded {
        core,
        nodes_left: others.nodes_left,
    })
}

/// A record, or a set of records.
#[cycle(expand)]
#[inline(never)]
fn fields_node<'a>(
    alloc: Global,
    entries: &mut Entries<'_, 'a>,
    place: Place,
    node: Fielded,
    fields: &'a [Field],
    at: ExpandContext,
) -> Result<Expanded, Failure>
    requires linked { AreLinked (listed entries.old) }
    requires scope { at.scope ≤ length (listed entries.old) }
    requires small { at.bound + at.nodes_left ≤ most_named (listed entries.old) }
    ensures kept { OnOk result (listed entries.new ≡ listed entries.old) }
    ensures same { Gives (at.depth_left + 1) (at.nodes_left + 1) result
        (made (λ xs. nodes.fielded node place (fields_of xs))
        (each_of (field_in at.primes (scope_at (listed entries.old) at.scope) at.bound)
        fields.now)) }
{
    let made = named_parts(alloc, entries, fields, at)?;
    let core = fielded_core(alloc, place, node, made.fields)?;
    Ok(Expanded {
        core,
        nodes_left: made.nodes_left,
    })
}

/// Two expressions of one scope, the first of them under these primes.
#[cycle(expand)]
fn two_parts<'a>(
    alloc: Global,
    entries: &mut Entries<'_, 'a>,
    first: &'a Expr,
    second: &'a Expr,
    primes: Primes,
    at: ExpandContext,
) -> Result<Pair, Failure>
    requires linked { AreLinked (listed entries.old) }
    requires scope { at.scope ≤ length (listed entries.old) }
    requires small { at.bound + at.nodes_left ≤ most_named (listed entries.old) }
    ensures kept { OnOk result (listed entries.new ≡ listed entries.old) }
    ensures same { GivesTwo at.depth_left at.nodes_left result
        (both (part_in primes (scope_at (listed entries.old) at.scope) at.bound first.now)
        (part_in at.primes (scope_at (listed entries.old) at.scope) at.bound second.now)) }
{
    let first = expand(alloc, entries, first, ExpandContext { primes, ..at })?;
    let nodes_left = first.nodes_left;
    let first = boxed(alloc, first.core)?;
    let second = expand(alloc, entries, second, ExpandContext { nodes_left, ..at })?;
    Ok(Pair {
        first,
        second: second.core,
        nodes_left: second.nodes_left,
    })
}

/// The expansion of an expression in a scope, with at most 200,000 nodes, of which at most 300 on a path.
pub(crate) fn expansion<'a>(
    alloc: Global,
    entries: &mut Entries<'_, 'a>,
    tree: &'a Expr,
    scope: usize,
    primes: Primes,
    reported: Option<Primes>,
) -> Result<Core, Failure>
    requires linked { AreLinked (listed entries.old) }
    requires scope { scope ≤ length (listed entries.old) }
    ensures found { IfOk result (λ c.
        with_primes primes
        (expansion.expand (view tree.now) (scope_at (listed entries.old) scope) 0)
        ≡ Some (expr_of c)) }
    ensures limits { IfOk result (λ c. IsWithinLimits (expr_of c)) }
    ensures gone { IfErr result (λ f.
        (p : Place)
        → f ≡ Failure.NoExpansion p
        → with_primes primes
        (expansion.expand (view tree.now) (scope_at (listed entries.old) scope) 0)
        ≡ None) }
    ensures none { IfErr result (λ f.
        f ≢ Failure.Memory
        → (e : expr.Expr)
        → with_primes primes
        (expansion.expand (view tree.now) (scope_at (listed entries.old) scope) 0)
        ≡ Some e
        → IsWithinLimits e
        → ⊥) }
{
    let at = ExpandContext {
        scope,
        primes,
        bound: 0,
        depth_left: MAX_PATH,
        nodes_left: MAX_NODES,
        reported,
    };
    let made = expand(alloc, entries, tree, at)?;
    Ok(made.core)
}
