//! Arithmetic on values.
ghost use Rattle.std.specs.Prelude.{◌≡◌, false, IfOk, IsOk};
ghost use Rattle.mlr_spec.specs.Arith.{arith_of, arith1_of, of_numbers, is_operand, tree_of_result};
ghost use Rattle.mlr_spec.specs.Tree.{is_absent};
ghost use Rattle.mlr_value.specs.Value.{tree_of};

use crate::{Bytes, IntValue, Value};
use mlr_ints::{result_of, result1_of};
use mlr_spec::{NoMemory, Op, Op1};
use std::alloc::Global;

/// The result of an operator on two values. It takes memory only where one of them is absent, for a copy of the other.
pub fn arith(alloc: Global, op: Op, x: &Value, y: &Value) -> Result<Value, NoMemory>
    ensures value { IfOk result (λ value. tree_of value
        ≡ arith_of op (tree_of x.now) (tree_of y.now)) }
    ensures memory { is_absent (tree_of x.now) ≡ false → is_absent (tree_of y.now) ≡ false
        → IsOk result }
{
    if !is_operand(x) || !is_operand(y) {
        return Ok(Value::Error);
    }
    if x.is_absent() {
        return y.copy(alloc);
    }
    if y.is_absent() {
        return x.copy(alloc);
    }
    if x.is_empty() || y.is_empty() {
        return Ok(Value::Empty);
    }
    Ok(of_numbers(alloc, op, x, y))
}

/// The result of an operator on one value. It takes memory only for a copy of a long spelling.
pub fn arith1(alloc: Global, op: Op1, x: &Value) -> Result<Value, NoMemory>
    ensures { IfOk result (λ value. tree_of value ≡ arith1_of op (tree_of x.now)) }
{
    match x {
        Value::Absent => Ok(Value::Absent),
        Value::Empty => Ok(Value::Empty),
        Value::Int(_) if op == Op1::Pos => x.copy(alloc),
        Value::Int(int) => Ok(of_result(alloc, result1_of(op, int.n))),
        _ => Ok(Value::Error),
    }
}

/// Whether arithmetic has a result for the value: a number, empty or absent.
fn is_operand(x: &Value) -> bool
    ensures { result ≡ is_operand (tree_of x.now) }
{
    x.is_number() || x.is_empty() || x.is_absent()
}

/// The result for two numbers, of which fractions and wide ones have none.
fn of_numbers(alloc: Global, op: Op, x: &Value, y: &Value) -> Value
    ensures { tree_of result ≡ of_numbers op (tree_of x.now) (tree_of y.now) }
{
    match x {
        Value::Int(x) => {
            match y {
                Value::Int(y) => of_result(alloc, result_of(op, x.n, y.n)),
                _ => Value::Error,
            }
        }
        _ => Value::Error,
    }
}

/// An int without a spelling, or the error value.
fn of_result(alloc: Global, number: Option<i64>) -> Value
    ensures { tree_of result ≡ tree_of_result number }
{
    match number {
        Some(n) => {
            Value::Int(IntValue {
                n,
                spelling: Bytes::new(alloc),
            })
        }
        None => Value::Error,
    }
}
