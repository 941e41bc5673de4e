ghost use Rattle.std.specs.Prelude.{◌≡◌, ◌^◌, ◌≤◌, pos, ◌+ℤ◌, if◌then◌else◌, IfOk, IfErr, IsTrue, IsFalse, Ok, Err};
ghost use Rattle.std.specs.Int.{IsInRange};
ghost use Rattle.jiff_core.specs.Calendar.{IsWithin};
ghost use Rattle.jiff_core.specs.Date.{epoch_day};
ghost use Rattle.bson_value.specs.Calendar.{is_date, dated, is_month, months_later, add_at};
ghost use Rattle.bson_value.specs.Calendar as Calendar;
ghost use Rattle.date_ops.specs.Civil.{month_number_of};

use crate::civil::{day_of, midnight, time_of};
use crate::range::dated;
use bson_value::{EvalCode, Unit};
use jiff::civil::Date;
use jiff_core::civil;

/// The date `amount` units after a date, or before it where `amount` is negative (the manual, `$dateAdd` and
/// `$dateSubtract`). Years, quarters and months keep the day of the month and the time of day; where the month
/// is shorter, the day is its last. The other units have a fixed length. `DateRange` exactly where the date or
/// the result is outside the years 1 to 9999, for any amount.
pub fn date_add(ms: i64, unit: Unit, amount: i64) -> Result<i64, EvalCode>
    ensures { result ≡ add_at unit ms amount }
{
    let amount = i128::from(amount);
    match unit {
        Unit::Year => add_months(ms, amount * 12),
        Unit::Quarter => add_months(ms, amount * 3),
        Unit::Month => add_months(ms, amount),
        Unit::Week => add_time(ms, amount * 604_800_000),
        Unit::Day => add_time(ms, amount * 86_400_000),
        Unit::Hour => add_time(ms, amount * 3_600_000),
        Unit::Minute => add_time(ms, amount * 60_000),
        Unit::Second => add_time(ms, amount * 1_000),
        Unit::Millisecond => add_time(ms, amount),
    }
}

// A date that many milliseconds later.
fn add_time(ms: i64, time: i128) -> Result<i64, EvalCode>
    requires { IsWithin (2 ^ 100) time }
    ensures { result ≡ (if is_date ms then dated (ms +ℤ time) else Err EvalCode.DateRange) }
{
    let ms = dated(i128::from(ms))?;
    dated(i128::from(ms) + time)
}

// A date that many months later.
fn add_months(ms: i64, months: i128) -> Result<i64, EvalCode>
    requires { IsWithin (2 ^ 100) months }
    ensures { result ≡ (if is_date ms then months_later ms months else Err EvalCode.DateRange) }
{
    let date = shift(day_of(ms)?, months)?;
    Ok(midnight(date) + i64::from(time_of(ms)))
}

// The same day of the month, or its last, that many months later.
fn shift(date: Date, months: i128) -> Result<Date, EvalCode>
    requires { IsWithin (2 ^ 100) months }
    ensures ok { IfOk result (λ d. let number = month_number_of date +ℤ months in
        IsTrue (is_month number) × (epoch_day d ≡ Calendar.day_in_month number date.day)) }
    ensures err { IfErr result (λ e. IsFalse (is_month (month_number_of date +ℤ months))
        × (e ≡ EvalCode.DateRange)) }
{
    let number = i128::from(month_number(date)) + months;
    if number < 12 || number > 119_999 {
        return Err(EvalCode::DateRange);
    }
    Ok(day_in_month(number as u32, date.to_plain().day))
}

// The number of the month, from January of the year 0.
fn month_number(date: Date) -> i32
    ensures value { result ≡ month_number_of date }
    ensures bound { IsWithin 200_000 result }
{
    i32::from(date.year()) * 12 + (i32::from(date.month()) - 1)
}

// The day of the month with that number, or its last.
fn day_in_month(number: u32, day: u8) -> Date
    requires month_in { IsInRange 12 119_999 number }
    requires day_in { 1 ≤ day }
    ensures { epoch_day result ≡ Calendar.day_in_month (pos number) day }
{
    let year = (number / 12) as i16;
    let month = (number % 12 + 1) as u8;
    Date::from_plain(civil::Date::constrain(year, month, day))
}
