//! The orders of values.
ghost use Rattle.std.specs.Prelude.{◌≡◌, map};
ghost use Rattle.std.specs.Char.{to_ascii_lowercase};
ghost use Rattle.std.specs.Cmp.{IsTotalOrder};
ghost use Rattle.std.specs.Cmp.Lexicographic.{slice_cmp};
ghost use Rattle.std.specs.Ordering.{nat_cmp};
ghost use Rattle.mlr_spec.specs.Order.{order_of, by_text, by_folded, by_number, rank_of_text, rank_of_kind, number_in, string_in, by_kind};
ghost use Rattle.mlr_spec.specs.Tree.{text_of};
ghost use Rattle.mlr_value.specs.Value.{tree_of};

use crate::Value;
use itoa::Buffer;
use mlr_spec::Order;
use std::cmp::Ordering;

/// How the first value compares with the second in an order. Each order is total, up to values that it doesn't tell
/// apart. It takes no memory, and time in proportion to the shorter text.
#[tactic(auto, using(mlr_spec::specs::Order::order_total))]
pub fn compare(order: Order, x: &Value, y: &Value) -> Ordering
    ensures value { result ≡ order_of order (tree_of x.now) (tree_of y.now) }
    ensures law { IsTotalOrder (order_of order) }
{
    match order {
        Order::Text => rank_of_text(x).cmp(&rank_of_text(y)).then(by_text(x, y)),
        Order::TextDown => rank_of_text(x).cmp(&rank_of_text(y)).then(by_text(y, x)),
        Order::Folded => rank_of_text(x).cmp(&rank_of_text(y)).then(by_folded(x, y)),
        Order::FoldedDown => rank_of_text(x).cmp(&rank_of_text(y)).then(by_folded(y, x)),
        Order::Number => by_number(x, y),
        Order::NumberDown => by_number(y, x),
        Order::Mixed => by_kind(x, y),
    }
}

fn rank_of_text(x: &Value) -> u8
    ensures { result ≡ rank_of_text (tree_of x.now) }
{
    if x.is_collection() { 1 } else { 0 }
}

fn by_text(x: &Value, y: &Value) -> Ordering
    ensures { result ≡ by_text (tree_of x.now) (tree_of y.now) }
{
    let mut first = Buffer::new();
    let mut second = Buffer::new();
    text(x, &mut first).cmp(text(y, &mut second))
}

fn by_folded(x: &Value, y: &Value) -> Ordering
    ensures { result ≡ by_folded (tree_of x.now) (tree_of y.now) }
{
    let mut first = Buffer::new();
    let mut second = Buffer::new();
    folded_cmp(text(x, &mut first), text(y, &mut second))
}

/// The text of a value, for which the buffer has the digits of an int without a spelling.
fn text<'a>(value: &'a Value, digits: &'a mut Buffer) -> &'a [u8]
    ensures { result.now ≡ text_of (tree_of value.now) }
{
    match value {
        Value::Absent | Value::Empty | Value::Map(_) | Value::Array(_) => &[],
        Value::Str(text) | Value::Frac(text) | Value::Wide(text) => text.as_slice(),
        Value::Int(int) if int.spelling.is_empty() => digits.format(int.n).as_bytes(),
        Value::Int(int) => int.spelling.as_slice(),
        Value::Bool(true) => b"true",
        Value::Bool(false) => b"false",
        Value::Error => b"(error)",
    }
}

/// How two texts compare with their letters of ASCII in lower case.
fn folded_cmp(x: &[u8], y: &[u8]) -> Ordering
    ensures { result ≡ slice_cmp nat_cmp (map to_ascii_lowercase x.now)
        (map to_ascii_lowercase y.now) }
{
    for place in 0..x.len().min(y.len()) {
        let order = x[place]
            .to_ascii_lowercase()
            .cmp(&y[place].to_ascii_lowercase());
        if order != Ordering::Equal {
            return order;
        }
    }
    x.len().cmp(&y.len())
}

fn by_number(x: &Value, y: &Value) -> Ordering
    ensures { result ≡ by_number (tree_of x.now) (tree_of y.now) }
{
    match x {
        Value::Int(x) => {
            match y {
                Value::Int(y) => x.n.cmp(&y.n),
                _ => Ordering::Less,
            }
        }
        _ => {
            match y {
                Value::Int(_) => Ordering::Greater,
                _ => Ordering::Equal,
            }
        }
    }
}

fn by_kind(x: &Value, y: &Value) -> Ordering
    ensures { result ≡ by_kind (tree_of x.now) (tree_of y.now) }
{
    let by_value = number_in(x)
        .cmp(&number_in(y))
        .then(string_in(x).cmp(string_in(y)));
    rank_of_kind(x).cmp(&rank_of_kind(y)).then(by_value)
}

fn rank_of_kind(x: &Value) -> u8
    ensures { result ≡ rank_of_kind (tree_of x.now) }
{
    match x {
        Value::Int(_) => 0,
        Value::Bool(false) => 1,
        Value::Bool(true) => 2,
        Value::Empty => 3,
        Value::Str(_) => 4,
        _ => 5,
    }
}

fn number_in(x: &Value) -> i64
    ensures { result ≡ number_in (tree_of x.now) }
{
    match x {
        Value::Int(int) => int.n,
        _ => 0,
    }
}

fn string_in(x: &Value) -> &[u8]
    ensures { result.now ≡ string_in (tree_of x.now) }
{
    match x {
        Value::Str(text) => text.as_slice(),
        _ => &[],
    }
}
