//! Powers of whole numbers.
ghost use Rattle.std.specs.Prelude.{◌≡◌, ℤ};
ghost use Rattle.std.specs.Int.{int_pow};
ghost use Rattle.mlr_spec.specs.Arith.{exact, fitting};
ghost use Rattle.mlr_spec.specs.declared.arith.Op.TheVariants.{Power};
ghost use Rattle.std.specs.declared.option.Option.TheVariants.{Some};

/// The power; None for a negative exponent, and where it isn't in 64 bits.
pub(crate) const fn power(x: i64, y: i64) -> Option<i64>
    ensures { result ≡ fitting (exact Power x y) }
{
    if y < 0 {
        return None;
    }
    x.checked_pow(exponent(y.unsigned_abs()))
}

/// An exponent of at most 65 with the same powers, as far as they are in 64 bits: beyond the 64th, those of 0, 1 and
/// -1 alone are, and they go by whether the exponent is even.
const fn exponent(n: u64) -> u32
    ensures { (x : ℤ) → fitting (Some (int_pow x result)) ≡ fitting (Some (int_pow x n)) }
{
    if n <= 65 {
        n as u32
    } else {
        64 + (n % 2) as u32
    }
}
