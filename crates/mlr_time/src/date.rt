//! Dates and times of day as texts.
ghost use Rattle.std.specs.Prelude.{◌≡◌, ◌<◌, pos, neg_ℤ};
ghost use Rattle.jiff_core.specs.Calendar.{IsBetween};
ghost use Rattle.mlr_time.specs.Times.{year_of, month_of, day_of, two_digits, four_digits, date_text, time_text};

use jiff_core::civil::Date;

/// The date of a day in the years 0 to 9999. Days count from 1970-01-01.
#[inline(always)]
fn date_of(day: i64) -> Date
    requires { IsBetween (neg_ℤ (pos 719_528)) (pos 2_932_896) day }
    ensures year { result.year ≡ pos (year_of day) }
    ensures month { result.month ≡ month_of day }
    ensures day { result.day ≡ day_of day }
{
    Date::from_unix_epoch_day(day).unwrap()
}

/// The date of a day in the years 0 to 9999, as `2017-07-14`.
#[inline(always)]
pub fn date_text(day: i64) -> [u8; 10]
    requires { IsBetween (neg_ℤ (pos 719_528)) (pos 2_932_896) day }
    ensures { result ≡ date_text day }
{
    let date = date_of(day);
    let [y1, y2, y3, y4] = four_digits(date.year as u16);
    let [m1, m2] = two_digits(date.month);
    let [d1, d2] = two_digits(date.day);
    [y1, y2, y3, y4, b'-', m1, m2, b'-', d1, d2]
}

/// The time of day that is so many seconds after midnight, as `02:40:00`.
#[inline(always)]
pub fn time_text(seconds: u32) -> [u8; 8]
    requires { seconds < 86_400 }
    ensures { result ≡ time_text seconds }
{
    let [h1, h2] = two_digits((seconds / 3600) as u8);
    let [m1, m2] = two_digits((seconds / 60 % 60) as u8);
    let [s1, s2] = two_digits((seconds % 60) as u8);
    [h1, h2, b':', m1, m2, b':', s1, s2]
}

/// The two digits of each number below 100, one number after another.
static PAIRS: [u8; 200] =
    *b"00010203040506070809101112131415161718192021222324252627282930313233343536373839404142434445464748495051525354555657585960616263646566676869707172737475767778798081828384858687888990919293949596979899";

/// The two decimal digits of a number below 100.
#[inline(always)]
fn two_digits(n: u8) -> [u8; 2]
    requires { n < 100 }
    ensures { result ≡ two_digits n }
{
    let first = n as usize * 2;
    let (tens, ones) = (PAIRS[first], PAIRS[first + 1]);
    [tens, ones]
}

/// The four decimal digits of a number below 10000.
#[inline(always)]
fn four_digits(n: u16) -> [u8; 4]
    requires { n < 10_000 }
    ensures { result ≡ four_digits n }
{
    let [thousands, hundreds] = two_digits((n / 100) as u8);
    let [tens, ones] = two_digits((n % 100) as u8);
    [thousands, hundreds, tens, ones]
}
