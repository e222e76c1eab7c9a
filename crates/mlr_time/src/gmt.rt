//! Seconds since 1970 as dates and times in UTC.
ghost use Rattle.std.specs.Prelude.{◌≡◌, ◌++◌, ◌∷◌, [], true, IfOk, pos};
ghost use Rattle.mlr_value.specs.Value.{tree_of};
ghost use Rattle.mlr_time.specs.Times.{second_of, sec2gmt, sec2gmtdate, has_date, day_at, seconds_at, date_text, time_text};

use crate::date::{date_text, time_text};
use mlr_spec::NoMemory;
use mlr_value::{Bytes, Value};
use std::alloc::Global;

/// An int of seconds as the date and time of day in UTC, to the second. Any other value, and an int outside the years 0
/// to 9999, stays as it is. It allocates for the text.
pub fn sec2gmt(alloc: Global, value: Value) -> Result<Value, NoMemory>
    ensures { IfOk result (λ made. tree_of made ≡ sec2gmt (tree_of value)) }
{
    match second_of(&value) {
        Some(second) => Ok(Value::Str(Bytes::copy_of(alloc, &gmt_at(second))?)),
        None => Ok(value),
    }
}

/// An int of seconds as the date in UTC. Any other value, and an int outside the years 0 to 9999, stays as it is. It
/// takes no memory.
pub fn sec2gmtdate(alloc: Global, value: Value) -> Result<Value, NoMemory>
    ensures { IfOk result (λ made. tree_of made ≡ sec2gmtdate (tree_of value)) }
{
    match second_of(&value) {
        Some(second) => Ok(Value::Str(Bytes::copy_of(alloc, &date_at(second))?)),
        None => Ok(value),
    }
}

/// The second of an int in the years 0 to 9999.
fn second_of(value: &Value) -> Option<i64>
    ensures { result ≡ second_of (tree_of value.now) }
{
    match value {
        Value::Int(int) if (FIRST..=LAST).contains(&int.n) => Some(int.n),
        _ => None,
    }
}

/// 0000-01-01T00:00:00Z.
const FIRST: i64 = -62_167_219_200;

/// 9999-12-31T23:59:59Z.
const LAST: i64 = 253_402_300_799;

/// How many seconds a day has.
const DAY: i64 = 86_400;

/// The date and time of day of a second in the years 0 to 9999, as `2017-07-14T02:40:00Z`.
#[inline(always)]
fn gmt_at(second: i64) -> [u8; 20]
    requires { has_date second ≡ true }
    ensures { result ≡ date_text (day_at second) ++ 84 ∷ time_text (seconds_at second) ++ 90 ∷ [] }
{
    let [y1, y2, y3, y4, after_year, m1, m2, after_month, d1, d2] = date_at(second);
    let seconds = second.rem_euclid(DAY) as u32;
    let [h1, h2, after_hour, n1, n2, after_minute, s1, s2] = time_text(seconds);
    [
        y1,
        y2,
        y3,
        y4,
        after_year,
        m1,
        m2,
        after_month,
        d1,
        d2,
        b'T',
        h1,
        h2,
        after_hour,
        n1,
        n2,
        after_minute,
        s1,
        s2,
        b'Z',
    ]
}

/// The date of a second in the years 0 to 9999.
#[inline(always)]
fn date_at(second: i64) -> [u8; 10]
    requires { has_date second ≡ true }
    ensures { result ≡ date_text (day_at second) }
{
    date_text(second.div_euclid(DAY))
}
