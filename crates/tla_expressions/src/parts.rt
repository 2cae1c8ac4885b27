//! The results of the rules of expressions, and nodes made of lists.

ghost use Rattle.std.specs.Prelude.{◌≡◌, ◌≤◌, ℕ, List, Ok, max, IfOk, IfErr, map};
ghost use Rattle.tla_lex.specs.declared.token.Token.{Token};
ghost use Rattle.tla_grammar.specs.Edges as edges;
ghost use Rattle.tla_expressions.specs.Gives.{Gives};
ghost use Rattle.tla_tree.specs.View.{view, group_view, choice_view, definition_view};
ghost use Rattle.tla_tree.specs.Tree as tree;
ghost use Rattle.tla_tree.specs.Tree.{trees, binders};

use std::alloc::Global;
use tla_grammar::Refusal;
use tla_lex::Place;
use tla_tree::{Arm, Binder, Brackets, Bullet, Definition, Expr, Pattern, Quantifier, Written};

/// A tree, the number of the token after it, and its depth.
///
/// It is in a box, which a rule that stops early drops in one step. If the tree itself were here, each proof would go
/// through all its parts.
#[derive(Drop)]
pub struct Parsed {
    pub tree: Box<Expr>,
    pub end: usize,
    pub depth: usize,
}

/// Trees, the number of the token after the last, and their greatest depth.
#[derive(Drop)]
pub struct ParsedItems {
    pub items: Vec<Expr>,
    pub end: usize,
    pub depth: usize,
}

/// An entry of a binder list, the number of the token after it, and the depth of its set.
#[derive(Drop)]
pub struct ParsedBinder {
    pub pattern: Pattern,
    pub set: Box<Expr>,
    pub end: usize,
    pub depth: usize,
}

/// A binder list, the number of the token after it, and the greatest depth of a set.
#[derive(Drop)]
pub struct ParsedBinders {
    pub binders: Vec<Binder>,
    pub end: usize,
    pub depth: usize,
}

fn boxed(alloc: Global, tree: Expr) -> Result<Box<Expr>, Refusal>
    ensures ok { IfOk result (λ b. b.value ≡ tree) }
    ensures err { IfErr result (λ e. e ≡ Refusal.NoMemory) }
{
    Box::new(alloc, tree).ok().ok_or(Refusal::NoMemory)
}

/// The tree, which has this depth, in a box, with the number of the token after it. The only error is that memory ran
/// out.
pub fn node(alloc: Global, tree: Expr, end: usize, depth: usize) -> Result<Parsed, Refusal>
    requires { depth ≡ edges.depth (view tree) }
    ensures gives { (text : List ℕ) (tokens : List Token) (most : ℕ)
        → depth ≤ most
        → Gives text tokens most result (Ok (view tree, end)) }
    ensures err { IfErr result (λ e. e ≡ Refusal.NoMemory) }
{
    let tree = boxed(alloc, tree)?;
    Ok(Parsed { tree, end, depth })
}

/// An entry of a binder list.
pub fn binder_of(pattern: Pattern, set: Box<Expr>) -> Binder
    ensures pattern { result.pattern ≡ pattern }
    ensures set { result.set ≡ set.value }
{
    Binder {
        pattern,
        set: Box::into_inner(set),
    }
}

/// An arm of CASE, the number of the token after it, and the greatest depth in it.
#[derive(Drop)]
pub struct ParsedArm {
    pub arm: Arm,
    pub end: usize,
    pub depth: usize,
}

/// An arm of CASE, from its guard and its value.
pub fn arm_of(guard: Parsed, value: Parsed) -> ParsedArm
    ensures guard { result.arm.guard ≡ guard.tree.value }
    ensures value { result.arm.value ≡ value.tree.value }
    ensures end { result.end ≡ value.end }
    ensures depth { result.depth ≡ max guard.depth value.depth }
{
    ParsedArm {
        arm: Arm {
            guard: Box::into_inner(guard.tree),
            value: Box::into_inner(value.tree),
        },
        end: value.end,
        depth: guard.depth.max(value.depth),
    }
}

/// Arms of CASE, the number of the token after the last, and the greatest depth in them.
#[derive(Drop)]
pub struct ParsedArms {
    pub arms: Vec<Arm>,
    pub end: usize,
    pub depth: usize,
}

/// A definition, the number of the token after it, and the greatest depth in it.
#[derive(Drop)]
pub struct ParsedDefinition {
    pub definition: Definition,
    pub end: usize,
    pub depth: usize,
}

/// Definitions, the number of the token after the last, and the greatest depth in them.
#[derive(Drop)]
pub struct ParsedDefinitions {
    pub definitions: Vec<Definition>,
    pub end: usize,
    pub depth: usize,
}

pub fn junction_of(at: Place, bullet: Bullet, items: Vec<Expr>) -> Expr
    ensures { view result ≡ tree.Junction at bullet (trees (map view items.items)) }
{
    Expr::Junction(at, bullet, items)
}

pub fn listing_of(at: Place, brackets: Brackets, items: Vec<Expr>) -> Expr
    ensures { view result ≡ tree.Listing at brackets (trees (map view items.items)) }
{
    Expr::Listing(at, brackets, items)
}

pub fn call_of(name: Written, items: Vec<Expr>) -> Expr
    ensures { view result ≡ tree.Call name (trees (map view items.items)) }
{
    Expr::Call(name, items)
}

pub fn index_of(at: Place, operand: Box<Expr>, items: Vec<Expr>) -> Expr
    ensures { view result ≡ tree.Index at (view operand.value) (trees (map view items.items)) }
{
    Expr::Index(at, operand, items)
}

pub fn product_of(at: Place, first: Box<Expr>, others: Vec<Expr>) -> Expr
    ensures { view result ≡ tree.Product at (view first.value) (trees (map view others.items)) }
{
    Expr::Product(at, first, others)
}

pub fn quantified_of(
    at: Place,
    quantifier: Quantifier,
    groups: Vec<Binder>,
    body: Box<Expr>,
) -> Expr
    ensures { view result
        ≡ tree.Quantified at quantifier (binders (map group_view groups.items))
        (view body.value) }
{
    Expr::Quantified(at, quantifier, groups, body)
}

pub fn case_of(at: Place, arms: Vec<Arm>) -> Expr
    ensures { view result ≡ tree.Case at (tree.arms (map choice_view arms.items)) tree.no_other }
{
    Expr::Case(at, arms, None)
}

pub fn case_with_other(at: Place, arms: Vec<Arm>, value: Box<Expr>) -> Expr
    ensures { view result
        ≡ tree.Case at (tree.arms (map choice_view arms.items)) (tree.other (view value.value)) }
{
    Expr::Case(at, arms, Some(value))
}

pub fn let_of(at: Place, definitions: Vec<Definition>, body: Box<Expr>) -> Expr
    ensures { view result
        ≡ tree.Let at (tree.definitions (map definition_view definitions.items))
        (view body.value) }
{
    Expr::Let(at, definitions, body)
}

pub fn function_of(name: Written, groups: Vec<Binder>, body: Box<Expr>) -> Definition
    ensures { definition_view result
        ≡ tree.DefinesFunction name (binders (map group_view groups.items)) (view body.value) }
{
    Definition::Function(name, groups, Box::into_inner(body))
}

pub fn image_of(at: Place, element: Box<Expr>, groups: Vec<Binder>) -> Expr
    ensures { view result
        ≡ tree.Image at (view element.value) (binders (map group_view groups.items)) }
{
    Expr::Image(at, element, groups)
}

pub fn mapping_of(at: Place, groups: Vec<Binder>, body: Box<Expr>) -> Expr
    ensures { view result
        ≡ tree.Function at (binders (map group_view groups.items)) (view body.value) }
{
    Expr::Function(at, groups, body)
}
