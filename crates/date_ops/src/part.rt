ghost use Rattle.std.specs.Prelude.{◌≡◌};
ghost use Rattle.bson_value.specs.Calendar.{part_at};

use crate::civil::{day_of, iso_week_of, time_of};
use bson_value::{EvalCode, Part};

/// A part of a date in UTC, as the operators `$year` to `$millisecond` give it (the manual, Date Expression
/// Operators). `DateRange` exactly where the date is outside the years 1 to 9999.
pub fn date_part(part: Part, ms: i64) -> Result<i32, EvalCode>
    ensures { result ≡ part_at part ms }
{
    let date = day_of(ms)?;
    let time = time_of(ms);
    Ok(match part {
        Part::Year => i32::from(date.year()),
        Part::Month => i32::from(date.month()),
        Part::DayOfMonth => i32::from(date.day()),
        Part::DayOfYear => i32::from(date.day_of_year()),
        Part::DayOfWeek => i32::from(date.weekday().to_sunday_one_offset()),
        Part::IsoDayOfWeek => i32::from(date.weekday().to_monday_one_offset()),
        Part::IsoWeek => i32::from(iso_week_of(date).week()),
        Part::IsoWeekYear => i32::from(iso_week_of(date).year()),
        Part::Hour => (time / 3_600_000) as i32,
        Part::Minute => (time / 60_000 % 60) as i32,
        Part::Second => (time / 1_000 % 60) as i32,
        Part::Millisecond => (time % 1_000) as i32,
    })
}
