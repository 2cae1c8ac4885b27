// Equality of values. Sets and functions with different hashes are unequal; their parts needn't be compared.
ghost use Rattle.std.specs.Prelude.{◌≡◌, ◌↔◌, IsTrue, map};
ghost use Rattle.tla_value.specs.TreeOf.{tree_of};
ghost use Rattle.tla_value.specs.ValueOrder.{value_eq};

use crate::order::compare;
use crate::value::Value;

// Whether two values are equal. Numbers are compared here, since a call would cost more.
pub(crate) fn equal(a: &Value, b: &Value) -> bool
    ensures { result ≡ value_eq a.now b.now }
{
    if let Value::Int(x) = a {
        if let Value::Int(y) = b {
            return x == y;
        }
    }
    equal_whole(a, b)
}

// The same, for values of any kind.
fn equal_whole(a: &Value, b: &Value) -> bool
    ensures { result ≡ value_eq a.now b.now }
{
    match (a, b) {
        (Value::Text(x), Value::Text(y)) => x.order(y).is_eq(),
        (Value::Model(x), Value::Model(y)) => x.order(y).is_eq(),
        (Value::Set(x), Value::Set(y)) => x.hash_word() == y.hash_word() && compare(a, b).is_eq(),
        (Value::Fun(x), Value::Fun(y)) => x.hash_word() == y.hash_word() && compare(a, b).is_eq(),
        (_, _) => compare(a, b).is_eq(),
    }
}

// Whether two lists have the same items.
pub(crate) fn equal_items(a: &[Value], b: &[Value]) -> bool
    ensures { IsTrue result ↔ (map tree_of a.now ≡ map tree_of b.now) }
{
    if a.len() != b.len() {
        return false;
    }
    for i in 0..a.len() {
        if !equal(&a[i], &b[i]) {
            return false;
        }
    }
    true
}
