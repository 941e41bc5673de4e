use bson_value::{EvalCode, Part};
use date_ops::date_part;
use std::alloc::Global;
use std::io::{self, BufWriter, Write};

const FIRST: i64 = -62_135_596_800_000;

const DAY: i64 = 86_400_000;

const DAYS: u32 = 3_652_059;

/// Writes a line for each day of the years 1 to 9999: its year, month, day of the month, day of the year, day of
/// the week, ISO day of the week, ISO week and ISO year, each of the day's last millisecond.
pub fn run(rt: &HostRuntime, alloc: Global) -> Result<(), io::Error> {
    let mut out = BufWriter::new(alloc, io::writer(rt))?;
    for day in 0..DAYS {
        let ms = FIRST + i64::from(day) * DAY + (DAY - 1);
        let year = part(Part::Year, ms);
        let month = part(Part::Month, ms);
        let of_month = part(Part::DayOfMonth, ms);
        let of_year = part(Part::DayOfYear, ms);
        let of_week = part(Part::DayOfWeek, ms);
        let iso_day = part(Part::IsoDayOfWeek, ms);
        let iso_week = part(Part::IsoWeek, ms);
        let iso_year = part(Part::IsoWeekYear, ms);
        writeln!(
            out,
            "{year} {month} {of_month} {of_year} {of_week} {iso_day} {iso_week} {iso_year}"
        )?;
    }
    out.flush()
}

fn part(part: Part, ms: i64) -> i32 {
    date_part(part, ms).unwrap_or(-1)
}
