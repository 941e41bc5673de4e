ghost use Rattle.std.specs.Prelude.{◌≡◌, ◌≤◌, pos, ◌*ℤ◌, if◌then◌else◌, IfOk, IsTrue, Ok, Err};
ghost use Rattle.std.specs.Int.{int_div_euclid};
ghost use Rattle.jiff_core.specs.Calendar.{IsWithin};
ghost use Rattle.jiff_core.specs.Date.{epoch_day};
ghost use Rattle.bson_value.specs.Calendar.{is_date, day_number, trunc_at, diff_at};
ghost use Rattle.bson_value.specs.Calendar as Calendar;
ghost use Rattle.date_ops.specs.Civil.{IsCivil};

use crate::civil::{day_of, midnight};
use crate::range::dated;
use bson_value::{EvalCode, Unit};
use jiff::civil::Date;
use jiff_core::civil;

/// The beginning of the unit that a date lies in (the manual, `$dateTrunc`). Weeks begin on Sunday. `DateRange`
/// exactly where the date or the beginning is outside the years 1 to 9999.
pub fn date_trunc(ms: i64, unit: Unit) -> Result<i64, EvalCode>
    ensures { result ≡ trunc_at unit ms }
{
    let date = day_of(ms)?;
    dated(i128::from(beginning(ms, date, unit)))
}

// The beginning of the unit, which may lie before the year 1.
fn beginning(ms: i64, date: Date, unit: Unit) -> i64
    requires in_range { IsTrue (is_date ms) }
    requires same_day { IsCivil (day_number ms) date }
    ensures { result ≡ Calendar.beginning unit ms }
{
    match unit {
        Unit::Year => midnight(date.first_of_year()),
        Unit::Quarter => midnight(first_of_quarter(date)),
        Unit::Month => midnight(date.first_of_month()),
        Unit::Week => {
            midnight(date) - i64::from(date.weekday().to_sunday_zero_offset()) * 86_400_000
        }
        Unit::Day => midnight(date),
        Unit::Hour => floor(ms, 3_600_000),
        Unit::Minute => floor(ms, 60_000),
        Unit::Second => floor(ms, 1_000),
        Unit::Millisecond => ms,
    }
}

// The latest multiple of the length that is not after a date.
fn floor(ms: i64, length: u32) -> i64
    requires in_range { IsTrue (is_date ms) }
    requires some { 1 ≤ length }
    ensures { result ≡ int_div_euclid ms (pos length) *ℤ pos length }
{
    ms - ms.rem_euclid(i64::from(length))
}

fn first_of_quarter(date: Date) -> Date
    ensures { epoch_day result ≡ Calendar.first_of_quarter date.year date.month }
{
    let date = date.to_plain();
    Date::from_plain(civil::Date::constrain(date.year, (date.month - 1) / 3 * 3 + 1, 1))
}

/// The boundaries between units that are crossed from the first date to the second, negative where the second
/// comes first (the manual, `$dateDiff`). Weeks begin on Sunday. `DateRange` exactly where one of the dates is
/// outside the years 1 to 9999.
pub fn date_diff(first: i64, second: i64, unit: Unit) -> Result<i64, EvalCode>
    ensures { result ≡ diff_at unit first second }
{
    let first = unit_number(first, unit)?;
    let second = unit_number(second, unit)?;
    Ok(second - first)
}

// The number of the unit that a date lies in, in the order of time.
fn number_on(ms: i64, date: Date, unit: Unit) -> i64
    requires in_range { IsTrue (is_date ms) }
    requires same_day { IsCivil (day_number ms) date }
    ensures value { result ≡ Calendar.unit_number unit ms }
    ensures bound { IsWithin 300_000_000_000_000 result }
{
    let date = date.to_plain();
    let year = i64::from(date.year);
    let day = i64::from(date.to_unix_epoch_day());
    match unit {
        Unit::Year => year,
        Unit::Quarter => year * 4 + i64::from((date.month + 2) / 3),
        Unit::Month => year * 12 + i64::from(date.month),
        Unit::Week => (day + 4).div_euclid(7),
        Unit::Day => day,
        Unit::Hour => ms.div_euclid(3_600_000),
        Unit::Minute => ms.div_euclid(60_000),
        Unit::Second => ms.div_euclid(1_000),
        Unit::Millisecond => ms,
    }
}

// The same with the range: `DateRange` outside the years 1 to 9999.
fn unit_number(ms: i64, unit: Unit) -> Result<i64, EvalCode>
    ensures value { result
        ≡ (if is_date ms then Ok (Calendar.unit_number unit ms) else Err EvalCode.DateRange) }
    ensures bound { IfOk result (IsWithin 300_000_000_000_000) }
{
    let date = day_of(ms)?;
    Ok(number_on(ms, date, unit))
}
