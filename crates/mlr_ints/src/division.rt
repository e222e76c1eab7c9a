//! Quotients rounded down, and what is left of them, in 128 bits.
ghost use Rattle.std.specs.Prelude.{◌≡◌, ◌≤◌, ◌^◌, ◌*ℤ◌, ◌-ℤ◌, false, unsigned_abs};
ghost use Rattle.mlr_spec.specs.Arith.{exact, fitting, floor_div, floor_rem, is_zero};
ghost use Rattle.mlr_spec.specs.declared.arith.Op.TheVariants.{Divide, IntDivide, Mod};
ghost use Rattle.std.specs.declared.option.Option.TheVariants.{Some};

/// The quotient rounded down; None for a divisor of 0, and where it isn't in 64 bits.
pub(crate) const fn quotient(x: i64, y: i64) -> Option<i64>
    ensures { result ≡ fitting (exact IntDivide x y) }
{
    if y == 0 {
        return None;
    }
    narrowed(floor_quotient(x, y))
}

/// The quotient; None also where the divisor doesn't divide the dividend.
pub(crate) const fn exact_quotient(x: i64, y: i64) -> Option<i64>
    ensures { result ≡ fitting (exact Divide x y) }
{
    if y == 0 || floor_remainder(x, y) != 0 {
        return None;
    }
    narrowed(floor_quotient(x, y))
}

/// The remainder, which has the sign of the modulus; None for a modulus of 0.
pub(crate) const fn remainder(x: i64, y: i64) -> Option<i64>
    ensures { result ≡ fitting (exact Mod x y) }
{
    if y == 0 {
        return None;
    }
    narrowed(floor_remainder(x, y))
}

const fn floor_quotient(x: i64, y: i64) -> i128
    requires { is_zero y ≡ false }
    ensures value { result ≡ floor_div x y }
    ensures bound { unsigned_abs result ≤ 2 ^ 63 }
{
    let x = x as i128;
    let y = y as i128;
    if y < 0 {
        (-x).div_euclid(-y)
    } else {
        x.div_euclid(y)
    }
}

const fn floor_remainder(x: i64, y: i64) -> i128
    requires { is_zero y ≡ false }
    ensures { result ≡ floor_rem x y }
{
    difference(x, product(y, floor_quotient(x, y)))
}

const fn difference(x: i64, y: i128) -> i128
    requires { unsigned_abs y ≤ 2 ^ 126 }
    ensures { result ≡ x -ℤ y }
{
    x as i128 - y
}

const fn product(x: i64, y: i128) -> i128
    requires { unsigned_abs y ≤ 2 ^ 63 }
    ensures value { result ≡ x *ℤ y }
    ensures bound { unsigned_abs result ≤ 2 ^ 126 }
{
    x as i128 * y
}

/// The number, if it is in 64 bits.
const fn narrowed(z: i128) -> Option<i64>
    ensures { result ≡ fitting (Some z) }
{
    if i64::MIN as i128 <= z && z <= i64::MAX as i128 {
        Some(z as i64)
    } else {
        None
    }
}
