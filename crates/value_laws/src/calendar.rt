//! The parts of a day (the manual, Date Expression Operators), for the days of the years 1 to 9999.

ghost use Rattle.std.specs.Prelude.{◌≡◌, ℕ, ◌+◌, ◌-◌, ◌*◌, ◌≤◌, ℤ, pos, ◌+ℤ◌, ◌<ℤ◌, ◌≤ℤ◌};
ghost use Rattle.jiff_core.specs.Calendar.{days_from_civil, days_in_month, weekday_number, iso_year_start, IsCivilDate};
ghost use Rattle.bson_value.specs.Calendar.{year, month, day_of_month, iso_year, iso_week};

/// A day is the one with its year, its month and its day of the month.
pub fn day_of_its_parts()
    ensures { (day : ℤ) → days_from_civil (pos 1) 1 1 ≤ℤ day → day ≤ℤ days_from_civil (pos 9999) 12 31 →
        days_from_civil (year day) (month day) (day_of_month day) ≡ day }
{}

/// A date of the calendar has the parts that it is made of.
pub fn parts_of_a_date()
    ensures { (y : ℤ) (m d : ℕ) → pos 1 ≤ℤ y → IsCivilDate y m d →
        (year (days_from_civil y m d) ≡ y) × (month (days_from_civil y m d) ≡ m) × (day_of_month (days_from_civil y m d) ≡ d) }
{}

/// The year is one from 1 to 9999, the month one from 1 to 12, and the day of the month lies within its month.
pub fn day_parts_in_range()
    ensures years { (day : ℤ) → days_from_civil (pos 1) 1 1 ≤ℤ day → day ≤ℤ days_from_civil (pos 9999) 12 31 →
        (pos 1 ≤ℤ year day) × (year day ≤ℤ pos 9999) }
    ensures months { (day : ℤ) → days_from_civil (pos 1) 1 1 ≤ℤ day → day ≤ℤ days_from_civil (pos 9999) 12 31 →
        (1 ≤ month day) × (month day ≤ 12) }
    ensures days { (day : ℤ) → days_from_civil (pos 1) 1 1 ≤ℤ day → day ≤ℤ days_from_civil (pos 9999) 12 31 →
        (1 ≤ day_of_month day) × (day_of_month day ≤ days_in_month (year day) (month day)) }
{}

/// The ISO year is the one whose first week has begun, with a Monday, and whose next year's hasn't.
pub fn day_in_its_iso_year()
    ensures begun { (day : ℤ) → days_from_civil (pos 1) 1 1 ≤ℤ day → day ≤ℤ days_from_civil (pos 9999) 12 31 →
        iso_year_start (iso_year day) ≤ℤ day }
    ensures ends { (day : ℤ) → days_from_civil (pos 1) 1 1 ≤ℤ day → day ≤ℤ days_from_civil (pos 9999) 12 31 →
        day <ℤ iso_year_start (iso_year day +ℤ pos 1) }
{}

/// The weeks of the ISO year are counted from 1 to at most 53, and the days of a week from Monday.
pub fn day_in_its_iso_week()
    ensures day { (day : ℤ) → days_from_civil (pos 1) 1 1 ≤ℤ day → day ≤ℤ days_from_civil (pos 9999) 12 31 →
        iso_year_start (iso_year day) +ℤ pos (7 * (iso_week day - 1) + weekday_number day) ≡ day }
    ensures weeks { (day : ℤ) → days_from_civil (pos 1) 1 1 ≤ℤ day → day ≤ℤ days_from_civil (pos 9999) 12 31 →
        (1 ≤ iso_week day) × (iso_week day ≤ 53) }
{}
