//! The nodes of an expression, made of their parts.

ghost use Rattle.std.specs.Prelude.{◌≡◌, ◌∷◌, IfOk, IfErr, Some, map};
ghost use Rattle.tla_core.specs.ExprOf.{expr_of, exprs_of_arm};
ghost use Rattle.tla_core.specs.Expr as expr;
ghost use Rattle.tla_scopes.specs.Lists.{exprs, arms_with, fields_of, updates_of, named_part, changed_part};
ghost use Rattle.tla_scopes.specs.Nodes as nodes;
ghost use Rattle.tla_scopes.specs.Bound.{under_openings};
ghost use Rattle.tla_expand.specs.Private.Gives.{MakesLeaf};

use crate::parts::{box_beside, boxed, list_of_two, with_first};
use std::alloc::Global;
use tla_core::{Core, Kind, Opening, Place};
use tla_scopes::{
    BinaryNode, Binding, Failure, Fielded, Gather, Leaf, ListNode, TernaryNode, UnaryNode,
};
use tla_tree::{Constant, Word};
use tla_value::{Text, Value};

/// The text of a name or a string. Its bytes are UTF-8, so the only error is that memory ran out.
pub(crate) fn text_of(alloc: Global, word: &Word) -> Result<Text, Failure>
    ensures ok { IfOk result (λ t. t ≡ word.now) }
    ensures err { IfErr result (λ e. e ≡ Failure.Memory) }
{
    let Ok(text) = str::from_utf8(word.as_bytes()) else {
        return Err(Failure::Memory);
    };
    match Text::new(alloc, text) {
        Ok(text) => Ok(text),
        Err(_) => Err(Failure::Memory),
    }
}

/// The constant that a word means.
fn constant_core(place: Place, constant: Constant) -> Core
    ensures { expr_of result ≡ nodes.constant_of place constant }
{
    match constant {
        Constant::True => Core::Constant(place, Value::Truth(true)),
        Constant::False => Core::Constant(place, Value::Truth(false)),
        Constant::Boolean => Core::Booleans(place),
        Constant::String => Core::KindSet(place, Kind::Strings),
    }
}

fn value_core(alloc: Global, place: Place, value: &Value) -> Result<Core, Failure>
    ensures { MakesLeaf result (nodes.value_of place value.now) }
{
    match value.copy(alloc) {
        Ok(value) => Ok(Core::Constant(place, value)),
        Err(_) => Err(Failure::Memory),
    }
}

/// A node without parts.
pub(crate) fn leaf_core(alloc: Global, place: Place, leaf: Leaf<'_>) -> Result<Core, Failure>
    ensures { MakesLeaf result (nodes.leaf leaf.entry place) }
{
    match leaf {
        Leaf::Number(number) => match i64::try_from(number) {
            Ok(number) => Ok(Core::Constant(place, Value::Int(number))),
            Err(_) => Err(Failure::TooLarge),
        },
        Leaf::Text(word) => Ok(Core::Constant(place, Value::Text(text_of(alloc, word)?))),
        Leaf::Word(constant) => Ok(constant_core(place, constant)),
        Leaf::Bound(index) => Ok(Core::Bound(place, index)),
        Leaf::Value(value) => value_core(alloc, place, value),
        Leaf::Kinds(kind) => Ok(Core::KindSet(place, kind)),
    }
}

/// A node of one part.
pub(crate) fn one_core(
    alloc: Global,
    place: Place,
    node: UnaryNode<'_>,
    part: Core,
) -> Result<Core, Failure>
    ensures ok { IfOk result (λ c. expr_of c ≡ nodes.one node.entry place (expr_of part)) }
    ensures err { IfErr result (λ e. e ≡ Failure.Memory) }
{
    let part = boxed(alloc, part)?;
    match node {
        UnaryNode::Unary(operator) => Ok(Core::Unary(place, operator, part)),
        UnaryNode::Power => Ok(Core::Power(place, part)),
        UnaryNode::Sequences => Ok(Core::Sequences(place, part)),
        UnaryNode::Field(word) => Ok(Core::Field(place, text_of(alloc, word)?, part)),
    }
}

/// A node of two parts.
pub(crate) fn two_core(
    alloc: Global,
    place: Place,
    node: BinaryNode,
    first: Box<Core>,
    second: Core,
) -> Result<Core, Failure>
    ensures ok { IfOk result (λ c.
        expr_of c ≡ nodes.two node place (expr_of first.value) (expr_of second)) }
    ensures err { IfErr result (λ e. e ≡ Failure.Memory) }
{
    match node {
        BinaryNode::And => {
            let parts = list_of_two(alloc, Box::into_inner(first), second)?;
            Ok(conjunction(place, parts))
        }
        BinaryNode::Or => {
            let parts = list_of_two(alloc, Box::into_inner(first), second)?;
            Ok(disjunction(place, parts))
        }
        _ => {
            let (second, first) = box_beside(alloc, second, first)?;
            Ok(two_boxed(place, node, first, second))
        }
    }
}

/// A node of two parts that isn't a list.
fn two_boxed(place: Place, node: BinaryNode, first: Box<Core>, second: Box<Core>) -> Core
    requires and { node ≡ BinaryNode.And → ⊥ }
    requires or { node ≡ BinaryNode.Or → ⊥ }
    ensures { expr_of result ≡ nodes.two node place (expr_of first.value) (expr_of second.value) }
{
    match node {
        BinaryNode::Binary(operator) => Core::Binary(place, operator, first, second),
        BinaryNode::Apply => Core::Apply(place, first, second),
        BinaryNode::Equal => Core::Equal(place, first, second),
        BinaryNode::Implies => Core::Implies(place, first, second),
        BinaryNode::Member => Core::Member(place, first, second),
        BinaryNode::NotMember => Core::NotMember(place, first, second),
        BinaryNode::Subset => Core::Subset(place, first, second),
        BinaryNode::Cup => Core::Cup(place, first, second),
        BinaryNode::Cap => Core::Cap(place, first, second),
        BinaryNode::Minus => Core::Minus(place, first, second),
        BinaryNode::Assert => Core::Assert(place, first, second),
        BinaryNode::Functions => Core::Functions(place, first, second),
        BinaryNode::And | BinaryNode::Or => unreachable!(),
    }
}

/// A node of three parts.
pub(crate) fn three_core(
    alloc: Global,
    place: Place,
    node: TernaryNode,
    first: Box<Core>,
    second: Box<Core>,
    third: Core,
) -> Result<Core, Failure>
    ensures ok { IfOk result (λ c.
        expr_of c
        ≡ nodes.three node place (expr_of first.value) (expr_of second.value) (expr_of third)) }
    ensures err { IfErr result (λ e. e ≡ Failure.Memory) }
{
    let (third, two) = box_beside(alloc, third, (first, second))?;
    let (first, second) = two;
    match node {
        TernaryNode::If => Ok(Core::If(place, first, second, third)),
        TernaryNode::SubSeq => Ok(Core::SubSeq(place, first, second, third)),
    }
}

/// A conjunction of its parts.
pub(crate) fn conjunction(place: Place, parts: Vec<Core>) -> Core
    ensures { expr_of result ≡ expr.conjunction place (exprs (map expr_of parts.items)) }
{
    Core::Conjunction(place, parts)
}

fn disjunction(place: Place, parts: Vec<Core>) -> Core
    ensures { expr_of result ≡ expr.disjunction place (exprs (map expr_of parts.items)) }
{
    Core::Disjunction(place, parts)
}

fn enumerated(alloc: Global, place: Place, parts: Vec<Core>) -> Result<Core, Failure>
    ensures ok { IfOk result (λ c.
        expr_of c ≡ expr.enumerated place (exprs (map expr_of parts.items))) }
    ensures err { IfErr result (λ e. e ≡ Failure.Memory) }
{
    Ok(Core::set_of(alloc, place, parts)?)
}

/// A tuple of its parts. The only error is that memory ran out.
pub(crate) fn tuple(alloc: Global, place: Place, parts: Vec<Core>) -> Result<Core, Failure>
    ensures ok { IfOk result (λ c. expr_of c ≡ expr.tuple place (exprs (map expr_of parts.items))) }
    ensures err { IfErr result (λ e. e ≡ Failure.Memory) }
{
    Ok(Core::tuple_of(alloc, place, parts)?)
}

fn product(place: Place, parts: Vec<Core>) -> Core
    ensures { expr_of result ≡ expr.product place (exprs (map expr_of parts.items)) }
{
    Core::Product(place, parts)
}

/// A node of a list of parts. The only error is that memory ran out.
pub(crate) fn many_core(
    alloc: Global,
    place: Place,
    node: ListNode,
    parts: Vec<Core>,
) -> Result<Core, Failure>
    ensures ok { IfOk result (λ c.
        expr_of c ≡ nodes.many node place (exprs (map expr_of parts.items))) }
    ensures err { IfErr result (λ e. e ≡ Failure.Memory) }
{
    match node {
        ListNode::Set => enumerated(alloc, place, parts),
        ListNode::Tuple => tuple(alloc, place, parts),
        ListNode::And => Ok(conjunction(place, parts)),
        ListNode::Or => Ok(disjunction(place, parts)),
        ListNode::Product => Ok(product(place, parts)),
    }
}

/// What UNCHANGED of a tuple is, of UNCHANGED of its parts.
pub(crate) fn unchanged_core(place: Place, parts: Vec<Core>) -> Core
    ensures { expr_of result ≡ nodes.kept place (exprs (map expr_of parts.items)) }
{
    if parts.len() == 0 {
        return Core::Constant(place, Value::Truth(true));
    }
    conjunction(place, parts)
}

/// A node of a set and a body.
pub(crate) fn binding_core(
    alloc: Global,
    place: Place,
    node: Binding,
    set: Box<Core>,
    body: Core,
) -> Result<Core, Failure>
    ensures ok { IfOk result (λ c.
        expr_of c ≡ nodes.binding node place (expr_of set.value) (expr_of body)) }
    ensures err { IfErr result (λ e. e ≡ Failure.Memory) }
{
    let (body, set) = box_beside(alloc, body, set)?;
    match node {
        Binding::ForAll => Ok(Core::ForAll(place, set, body)),
        Binding::ForSome => Ok(Core::ForSome(place, set, body)),
        Binding::Choose => Ok(Core::Choose(place, set, body)),
        Binding::Filter => Ok(Core::Filter(place, set, body)),
    }
}

/// A body under elements that are opened, if any. The only error is that memory ran out.
pub(crate) fn destructure_core(
    alloc: Global,
    place: Place,
    openings: Vec<Opening>,
    body: Core,
) -> Result<Core, Failure>
    ensures ok { IfOk result (λ c.
        under_openings place openings.items (Some (expr_of body)) ≡ Some (expr_of c)) }
    ensures err { IfErr result (λ e. e ≡ Failure.Memory) }
{
    if openings.len() == 0 {
        return Ok(body);
    }
    let body = boxed(alloc, body)?;
    Ok(destructure(place, openings, body))
}

fn destructure(place: Place, openings: Vec<Opening>, body: Box<Core>) -> Core
    ensures { expr_of result ≡ expr.opened place openings.items (expr_of body.value) }
{
    Core::Destructure(place, openings, body)
}

/// A set whose elements must be sequences of `count` items. The only error is that memory ran out.
pub(crate) fn check_pattern_core(
    alloc: Global,
    place: Place,
    count: usize,
    set: Core,
) -> Result<Core, Failure>
    ensures ok { IfOk result (λ c. expr_of c ≡ expr.tried place count (expr_of set)) }
    ensures err { IfErr result (λ e. e ≡ Failure.Memory) }
{
    let set = boxed(alloc, set)?;
    Ok(Core::CheckPattern(place, count, set))
}

/// A product of a first operand and others. The only error is that memory ran out.
pub(crate) fn product_core(
    place: Place,
    first: Box<Core>,
    others: Vec<Core>,
) -> Result<Core, Failure>
    ensures ok { IfOk result (λ c.
        expr_of c ≡ expr.product place (exprs (expr_of first.value ∷ map expr_of others.items))) }
    ensures err { IfErr result (λ e. e ≡ Failure.Memory) }
{
    let parts = with_first(Box::into_inner(first), others)?;
    Ok(product(place, parts))
}

/// CASE.
pub(crate) fn cases_core(place: Place, arms: Vec<(Core, Core)>) -> Core
    ensures { expr_of result
        ≡ expr.cases place (arms_with (map exprs_of_arm arms.items) expr.no_arms) }
{
    Core::Cases(place, arms, None)
}

/// CASE with OTHER. The only error is that memory ran out.
pub(crate) fn cases_or_core(
    alloc: Global,
    place: Place,
    arms: Vec<(Core, Core)>,
    last: Core,
) -> Result<Core, Failure>
    ensures ok { IfOk result (λ c.
        expr_of c
        ≡ expr.cases place
        (arms_with (map exprs_of_arm arms.items) (expr.other (expr_of last)))) }
    ensures err { IfErr result (λ e. e ≡ Failure.Memory) }
{
    let (last, arms) = box_beside(alloc, last, arms)?;
    Ok(cases_or(place, arms, last))
}

fn cases_or(place: Place, arms: Vec<(Core, Core)>, last: Box<Core>) -> Core
    ensures { expr_of result
        ≡ expr.cases place
        (arms_with (map exprs_of_arm arms.items) (expr.other (expr_of last.value))) }
{
    Core::Cases(place, arms, Some(last))
}

/// A node of sets and a body. The only error is that memory ran out.
pub(crate) fn gather_core(
    alloc: Global,
    place: Place,
    node: Gather,
    sets: Vec<Core>,
    body: Core,
) -> Result<Core, Failure>
    ensures ok { IfOk result (λ c.
        expr_of c ≡ nodes.gather node place (exprs (map expr_of sets.items)) (expr_of body)) }
    ensures err { IfErr result (λ e. e ≡ Failure.Memory) }
{
    let (body, sets) = box_beside(alloc, body, sets)?;
    match node {
        Gather::Image => Ok(image(place, sets, body)),
        Gather::Function => Ok(function(place, sets, body)),
    }
}

fn image(place: Place, sets: Vec<Core>, body: Box<Core>) -> Core
    ensures { expr_of result
        ≡ expr.image place (exprs (map expr_of sets.items)) (expr_of body.value) }
{
    Core::Image(place, sets, body)
}

fn function(place: Place, sets: Vec<Core>, body: Box<Core>) -> Core
    ensures { expr_of result
        ≡ expr.function place (exprs (map expr_of sets.items)) (expr_of body.value) }
{
    Core::Function(place, sets, body)
}

/// A node of fields. The only error is that memory ran out.
pub(crate) fn fielded_core(
    alloc: Global,
    place: Place,
    node: Fielded,
    fields: Vec<(Text, Core)>,
) -> Result<Core, Failure>
    ensures ok { IfOk result (λ c.
        expr_of c ≡ nodes.fielded node place (fields_of (map named_part fields.items))) }
    ensures err { IfErr result (λ e. e ≡ Failure.Memory) }
{
    match node {
        Fielded::Record => record(alloc, place, fields),
        Fielded::Records => Ok(records(place, fields)),
    }
}

fn record(alloc: Global, place: Place, fields: Vec<(Text, Core)>) -> Result<Core, Failure>
    ensures ok { IfOk result (λ c.
        expr_of c ≡ expr.record_of place (fields_of (map named_part fields.items))) }
    ensures err { IfErr result (λ e. e ≡ Failure.Memory) }
{
    Ok(Core::record_of(alloc, place, fields)?)
}

fn records(place: Place, fields: Vec<(Text, Core)>) -> Core
    ensures { expr_of result ≡ expr.records place (fields_of (map named_part fields.items)) }
{
    Core::Records(place, fields)
}

/// EXCEPT.
pub(crate) fn except(place: Place, function: Box<Core>, updates: Vec<(Vec<Core>, Core)>) -> Core
    ensures { expr_of result
        ≡ expr.except place (expr_of function.value)
        (updates_of (map changed_part updates.items)) }
{
    Core::Except(place, function, updates)
}
