//! How two values compare, where the commonest cases are told apart at once.
ghost use Rattle.std.specs.Prelude.{◌≡◌};
ghost use Rattle.std.specs.Cmp.Lexicographic.{slice_cmp};
ghost use Rattle.std.specs.Ordering.{nat_cmp};
ghost use Rattle.mlr_spec.specs.Order.{order_of};
ghost use Rattle.mlr_value.specs.Value.{tree_of};

use mlr_spec::Order;
use mlr_value::{Bytes, Value, compare};
use std::cmp::Ordering;

/// How two values compare in an order. Two ints in an order of numbers, and two strings in one of texts, are compared here.
#[inline]
pub(crate) fn compare_in(order: Order, value: &Value, other: &Value) -> Ordering
    ensures { result ≡ order_of order (tree_of value.now) (tree_of other.now) }
{
    match (order, value, other) {
        (Order::Number, Value::Int(value), Value::Int(other)) => value.n.cmp(&other.n),
        (Order::NumberDown, Value::Int(value), Value::Int(other)) => other.n.cmp(&value.n),
        (Order::Text, Value::Str(value), Value::Str(other)) => compare_texts(value, other),
        (Order::TextDown, Value::Str(value), Value::Str(other)) => compare_texts(other, value),
        _ => compare(order, value, other),
    }
}

/// How two texts compare. Short texts that are equal, as in a field of few values, are found so in one step.
#[inline]
fn compare_texts(text: &Bytes, other: &Bytes) -> Ordering
    ensures { result ≡ slice_cmp nat_cmp text.now other.now }
{
    if text.is(other) {
        return Ordering::Equal;
    }
    text.as_slice().cmp(other.as_slice())
}
