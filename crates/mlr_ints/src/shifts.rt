//! Shifts by a count modulo 64.
ghost use Rattle.std.specs.Prelude.{◌≡◌, ◌/◌, ◌^◌, ◌<◌};
ghost use Rattle.std.specs.Int.{w64, int_shl, int_shr, cast_signed, cast_unsigned};
ghost use Rattle.mlr_spec.specs.Arith.{shift_count};

/// `<<`
pub(crate) const fn shift_left(x: i64, y: i64) -> i64
    ensures { result ≡ int_shl w64 x (shift_count y) }
{
    x << count_of(y)
}

/// `>>`, which keeps the sign.
pub(crate) const fn shift_right(x: i64, y: i64) -> i64
    ensures { result ≡ int_shr x (shift_count y) }
{
    x >> count_of(y)
}

/// `>>>`, which fills with zeros.
pub(crate) const fn shift_right_zero(x: i64, y: i64) -> i64
    ensures { result ≡ cast_signed w64 (cast_unsigned w64 x / 2 ^ shift_count y) }
{
    (x.cast_unsigned() >> count_of(y)).cast_signed()
}

const fn count_of(y: i64) -> u32
    ensures value { result ≡ shift_count y }
    ensures bound { result < 64 }
{
    y.rem_euclid(64) as u32
}
