ghost use Rattle.std.specs.Prelude.{◌≡◌, ◌<◌, pos, neg_ℤ, ◌≤ℤ◌, IsTrue, IsFalse, IfOk, IfErr};
ghost use Rattle.bson_value.specs.Calendar.{is_date, day_number, since_midnight, iso_year, iso_week};
ghost use Rattle.bson_value.specs.Calendar as Calendar;
ghost use Rattle.jiff.specs.Week.{plain_week};
ghost use Rattle.jiff_core.specs.Calendar.{IsWithin};
ghost use Rattle.jiff_core.specs.Date.{epoch_day};
ghost use Rattle.date_ops.specs.Civil.{IsCivil};

use crate::range::dated;
use bson_value::EvalCode;
use jiff::civil::{Date, ISOWeekDate};
use jiff_core::civil;

/// The milliseconds of a day.
pub(crate) const DAY: i64 = 86_400_000;

/// The day that a date falls on, or `DateRange` outside the years 1 to 9999.
pub(crate) fn day_of(ms: i64) -> Result<Date, EvalCode>
    ensures ok { IfOk result (λ d. IsTrue (is_date ms) × IsCivil (day_number ms) d) }
    ensures err { IfErr result (λ e. IsFalse (is_date ms) × (e ≡ EvalCode.DateRange)) }
{
    let ms = dated(i128::from(ms))?;
    match civil::Date::from_unix_epoch_day(ms.div_euclid(DAY)) {
        Ok(date) => Ok(Date::from_plain(date)),
        Err(_) => Err(EvalCode::DateRange),
    }
}

/// The ISO 8601 week that a day lies in.
pub(crate) fn iso_week_of(date: Date) -> ISOWeekDate
    requires { neg_ℤ (pos 719_162) ≤ℤ epoch_day date }
    ensures year { (plain_week result).year ≡ iso_year (epoch_day date) }
    ensures week { (plain_week result).week ≡ iso_week (epoch_day date) }
{
    date.iso_week_date()
}

/// The milliseconds since that day began.
pub(crate) fn time_of(ms: i64) -> u32
    ensures value { result ≡ since_midnight ms }
    ensures bound { result < 86_400_000 }
{
    ms.rem_euclid(DAY) as u32
}

/// The date with which a day begins.
pub(crate) fn midnight(day: Date) -> i64
    ensures value { result ≡ Calendar.midnight (epoch_day day) }
    ensures bound { IsWithin 400_000_000_000_000 result }
{
    i64::from(day.to_plain().to_unix_epoch_day()) * DAY
}
