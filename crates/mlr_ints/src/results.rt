//! The result of each operator on whole numbers.
ghost use Rattle.std.specs.Prelude.{◌≡◌};
ghost use Rattle.mlr_spec.specs.Arith.{exact, exact1, fitting};
ghost use Rattle.std.specs.declared.option.Option.TheVariants.{Some};

use crate::division::{exact_quotient, quotient, remainder};
use crate::power::power;
use crate::shifts::{shift_left, shift_right, shift_right_zero};
use mlr_spec::{Op, Op1};

/// The result for two ints; None where there is none in 64 bits.
pub const fn result_of(op: Op, x: i64, y: i64) -> Option<i64>
    ensures { result ≡ fitting (exact op x y) }
{
    match op {
        Op::Plus => x.checked_add(y),
        Op::Minus => x.checked_sub(y),
        Op::Times => x.checked_mul(y),
        Op::DotPlus => Some(x.wrapping_add(y)),
        Op::DotMinus => Some(x.wrapping_sub(y)),
        Op::DotTimes => Some(x.wrapping_mul(y)),
        Op::Divide => exact_quotient(x, y),
        Op::IntDivide => quotient(x, y),
        Op::Mod => remainder(x, y),
        Op::Power => power(x, y),
        Op::BitAnd => Some(x & y),
        Op::BitOr => Some(x | y),
        Op::BitXor => Some(x ^ y),
        Op::ShiftLeft => Some(shift_left(x, y)),
        Op::ShiftRight => Some(shift_right(x, y)),
        Op::ShiftRightZero => Some(shift_right_zero(x, y)),
    }
}

/// The result for one int; None where it isn't in 64 bits.
pub const fn result1_of(op: Op1, x: i64) -> Option<i64>
    ensures { result ≡ fitting (Some (exact1 op x)) }
{
    match op {
        Op1::Neg => x.checked_neg(),
        Op1::Pos => Some(x),
        Op1::BitNot => Some(!x),
    }
}
