//! Whether two trees of constants are the same.
ghost use Rattle.std.specs.Prelude.{◌≡◌, IsTrue, map};
ghost use Rattle.tla_value.specs.Tree.{text};
ghost use Rattle.tla_value.specs.TreeOf.{tree_of};
ghost use Rattle.tla_value.specs.Order.{tree_eq};
ghost use Rattle.tla_core.specs.Expr.{constant, enumerated, tuple, record_of};
ghost use Rattle.tla_core.specs.FixedOf.{fixed_of};
ghost use Rattle.tla_core.specs.Private.Known.{exprs, fields, named_fixed};

use crate::fault::Place;
use crate::fixed::Fixed;
use tla_value::{Text, Value};

fn is_place(place: &Place, other: &Place) -> bool
    ensures { IsTrue result → place.now ≡ other.now }
{
    place == other
}

#[tactic(auto, using(crate::proofs::SameTrees::same_value))]
fn is_value(value: &Value, other: &Value) -> bool
    ensures { IsTrue result → tree_of value.now ≡ tree_of other.now }
{
    value == other
}

fn is_name(name: &Text, other: &Text) -> bool
    ensures { result ≡ tree_eq (text name.now) (text other.now) }
{
    name.as_str().cmp(&other.as_str()).is_eq()
}

/// Whether two trees are the same, with their places.
#[cycle(same)]
pub(crate) fn same_tree(left: &Fixed, right: &Fixed) -> bool
    ensures { IsTrue result → fixed_of left.now ≡ fixed_of right.now }
{
    match left {
        Fixed::Constant(place, value) => is_constant(place, value, right),
        Fixed::Enumerated(place, parts) => is_enumerated(place, parts, right),
        Fixed::Tuple(place, parts) => is_tuple(place, parts, right),
        Fixed::Record(place, named) => is_record(place, named, right),
    }
}

/// Whether a tree is this constant.
fn is_constant(place: &Place, value: &Value, tree: &Fixed) -> bool
    ensures { IsTrue result → constant place.now (tree_of value.now) ≡ fixed_of tree.now }
{
    match tree {
        Fixed::Constant(at, other) => is_place(place, at) && is_value(value, other),
        _ => false,
    }
}

/// Whether a tree is the set of these parts.
#[cycle(same)]
fn is_enumerated(place: &Place, parts: &[Fixed], tree: &Fixed) -> bool
    ensures { IsTrue result
        → enumerated place.now (exprs (map fixed_of parts.now)) ≡ fixed_of tree.now }
{
    match tree {
        Fixed::Enumerated(at, others) => is_place(place, at) && same_parts(parts, others),
        _ => false,
    }
}

/// Whether a tree is the tuple of these parts.
#[cycle(same)]
fn is_tuple(place: &Place, parts: &[Fixed], tree: &Fixed) -> bool
    ensures { IsTrue result → tuple place.now (exprs (map fixed_of parts.now)) ≡ fixed_of tree.now }
{
    match tree {
        Fixed::Tuple(at, others) => is_place(place, at) && same_parts(parts, others),
        _ => false,
    }
}

/// Whether a tree is the record of these fields.
#[cycle(same)]
fn is_record(place: &Place, named: &[(Text, Fixed)], tree: &Fixed) -> bool
    ensures { IsTrue result
        → record_of place.now (fields (map named_fixed named.now)) ≡ fixed_of tree.now }
{
    match tree {
        Fixed::Record(at, others) => is_place(place, at) && same_fields(named, others),
        _ => false,
    }
}

/// Whether two lists have the same trees.
#[cycle(same)]
fn same_parts(parts: &[Fixed], others: &[Fixed]) -> bool
    ensures { IsTrue result → map fixed_of parts.now ≡ map fixed_of others.now }
{
    if parts.len() != others.len() {
        return false;
    }
    for i in 0..parts.len() {
        if !same_tree(&parts[i], &others[i]) {
            return false;
        }
    }
    true
}

/// Whether two lists have the same fields.
#[cycle(same)]
fn same_fields(named: &[(Text, Fixed)], others: &[(Text, Fixed)]) -> bool
    ensures { IsTrue result → map named_fixed named.now ≡ map named_fixed others.now }
{
    if named.len() != others.len() {
        return false;
    }
    for i in 0..named.len() {
        let field = &named[i];
        let other = &others[i];
        if !is_name(&field.0, &other.0) {
            return false;
        }
        if !same_tree(&field.1, &other.1) {
            return false;
        }
    }
    true
}
