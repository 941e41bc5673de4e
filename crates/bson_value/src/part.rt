/// A part of a date in UTC (the manual, Date Expression Operators).
#[derive(Clone, Copy, Debug, PartialEq, Eq)]
pub enum Part {
    /// `$year`
    Year,
    /// `$month`, from 1
    Month,
    /// `$dayOfMonth`, from 1
    DayOfMonth,
    /// `$dayOfYear`, from 1
    DayOfYear,
    /// `$dayOfWeek`, Sunday being 1
    DayOfWeek,
    /// `$isoDayOfWeek`, Monday being 1
    IsoDayOfWeek,
    /// `$isoWeek`, from 1
    IsoWeek,
    /// `$isoWeekYear`
    IsoWeekYear,
    /// `$hour`
    Hour,
    /// `$minute`
    Minute,
    /// `$second`
    Second,
    /// `$millisecond`
    Millisecond,
}
