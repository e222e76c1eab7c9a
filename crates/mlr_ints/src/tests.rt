//! The results of the operators at the edges of 64 bits, by tables.

use crate::{result_of, result1_of};
use mlr_spec::{NoMemory, Op, Op1};

const MIN: i64 = i64::MIN;

const MAX: i64 = i64::MAX;

/// An operator, two numbers, and the result, if there is one.
type Row = (Op, i64, i64, Option<i64>);

/// Sums, differences and products, exact or modulo 2^64.
const SUMS: [Row; 16] = [
    (Op::Plus, 7, -9, Some(-2)),
    (Op::Plus, MAX, 1, None),
    (Op::Plus, MIN, -1, None),
    (Op::Plus, MAX, MIN, Some(-1)),
    (Op::Minus, 0, MIN, None),
    (Op::Minus, -1, MIN, Some(MAX)),
    (Op::Minus, MIN, 1, None),
    (Op::Times, -1, MIN, None),
    (Op::Times, 3_037_000_500, 3_037_000_500, None),
    (Op::Times, 4_294_967_296, -2_147_483_648, Some(MIN)),
    (Op::DotPlus, MAX, 1, Some(MIN)),
    (Op::DotPlus, MIN, MIN, Some(0)),
    (Op::DotMinus, MIN, 1, Some(MAX)),
    (Op::DotMinus, 0, MIN, Some(MIN)),
    (Op::DotTimes, MIN, -1, Some(MIN)),
    (Op::DotTimes, MAX, MAX, Some(1)),
];

/// Quotients and remainders.
const QUOTIENTS: [Row; 24] = [
    (Op::Divide, 6, 4, None),
    (Op::Divide, 6, 3, Some(2)),
    (Op::Divide, 6, -3, Some(-2)),
    (Op::Divide, 0, 5, Some(0)),
    (Op::Divide, 5, 0, None),
    (Op::Divide, 0, 0, None),
    (Op::Divide, MIN, -1, None),
    (Op::Divide, MIN, MIN, Some(1)),
    (Op::Divide, -1, MIN, None),
    (Op::IntDivide, 7, 2, Some(3)),
    (Op::IntDivide, -7, 2, Some(-4)),
    (Op::IntDivide, 7, -2, Some(-4)),
    (Op::IntDivide, -7, -2, Some(3)),
    (Op::IntDivide, 1, MIN, Some(-1)),
    (Op::IntDivide, MIN, -1, None),
    (Op::IntDivide, 7, 0, None),
    (Op::Mod, 7, 2, Some(1)),
    (Op::Mod, -7, 2, Some(1)),
    (Op::Mod, 7, -2, Some(-1)),
    (Op::Mod, -7, -2, Some(-1)),
    (Op::Mod, MIN, -1, Some(0)),
    (Op::Mod, MAX, MIN, Some(-1)),
    (Op::Mod, MIN, MAX, Some(MAX - 1)),
    (Op::Mod, 7, 0, None),
];

/// Powers.
const POWERS: [Row; 20] = [
    (Op::Power, 0, 0, Some(1)),
    (Op::Power, 0, 1, Some(0)),
    (Op::Power, 0, MAX, Some(0)),
    (Op::Power, 1, MAX, Some(1)),
    (Op::Power, -1, MAX, Some(-1)),
    (Op::Power, -1, MAX - 1, Some(1)),
    (Op::Power, -1, 66, Some(1)),
    (Op::Power, -1, 67, Some(-1)),
    (Op::Power, 2, 62, Some(4_611_686_018_427_387_904)),
    (Op::Power, 2, 63, None),
    (Op::Power, 2, 64, None),
    (Op::Power, -2, 63, Some(MIN)),
    (Op::Power, -2, 64, None),
    (Op::Power, -2, 65, None),
    (Op::Power, 2, 4_294_967_296, None),
    (Op::Power, MIN, 1, Some(MIN)),
    (Op::Power, MIN, 2, None),
    (Op::Power, 7, 2, Some(49)),
    (Op::Power, 2, -1, None),
    (Op::Power, 1, -1, None),
];

/// Bits and shifts.
const BITS: [Row; 20] = [
    (Op::BitAnd, 12, 10, Some(8)),
    (Op::BitAnd, -1, MIN, Some(MIN)),
    (Op::BitOr, 12, 10, Some(14)),
    (Op::BitOr, MIN, MAX, Some(-1)),
    (Op::BitXor, 12, 10, Some(6)),
    (Op::BitXor, -1, MAX, Some(MIN)),
    (Op::ShiftLeft, 1, 62, Some(4_611_686_018_427_387_904)),
    (Op::ShiftLeft, 1, 63, Some(MIN)),
    (Op::ShiftLeft, 1, 64, Some(1)),
    (Op::ShiftLeft, 3, 63, Some(MIN)),
    (Op::ShiftLeft, 1, -1, Some(MIN)),
    (Op::ShiftRight, -8, 1, Some(-4)),
    (Op::ShiftRight, -1, 63, Some(-1)),
    (Op::ShiftRight, MIN, -1, Some(-1)),
    (Op::ShiftRight, 5, 65, Some(2)),
    (Op::ShiftRightZero, -1, 1, Some(MAX)),
    (Op::ShiftRightZero, -1, 63, Some(1)),
    (Op::ShiftRightZero, -1, -1, Some(1)),
    (Op::ShiftRightZero, -1, 64, Some(-1)),
    (Op::ShiftRightZero, MIN, MIN, Some(MIN)),
];

fn first_wrong(rows: &[Row]) -> Option<usize> {
    for (i, (op, x, y, want)) in rows.iter().enumerate() {
        if result_of(*op, *x, *y) != *want {
            return Some(i);
        }
    }
    None
}

fn first_wrong_sum() -> Option<usize> {
    first_wrong(&SUMS)
}

fn first_wrong_quotient() -> Option<usize> {
    first_wrong(&QUOTIENTS)
}

fn first_wrong_power() -> Option<usize> {
    first_wrong(&POWERS)
}

fn first_wrong_bits() -> Option<usize> {
    first_wrong(&BITS)
}

#[test]
fn two_numbers_have_the_exact_result_or_none(rt: HostRuntime) -> Result<(), NoMemory> {
    assert_eq!(rt; first_wrong_sum(), None);
    assert_eq!(rt; first_wrong_quotient(), None);
    assert_eq!(rt; first_wrong_power(), None);
    assert_eq!(rt; first_wrong_bits(), None);
    Ok(())
}

#[test]
fn one_number_has_the_exact_result_or_none(rt: HostRuntime) -> Result<(), NoMemory> {
    assert_eq!(rt; result1_of(Op1::Neg, 7), Some(-7));
    assert_eq!(rt; result1_of(Op1::Neg, MIN), None);
    assert_eq!(rt; result1_of(Op1::Pos, MIN), Some(MIN));
    assert_eq!(rt; result1_of(Op1::BitNot, 0), Some(-1));
    assert_eq!(rt; result1_of(Op1::BitNot, MAX), Some(MIN));
    Ok(())
}
