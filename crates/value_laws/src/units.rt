//! What a date is truncated to (the manual, `$dateTrunc`). The units of a kind are numbered in order of time.

ghost use Rattle.std.specs.Prelude.{◌≡◌, ℤ, ◌<ℤ◌, ◌≤ℤ◌, true};
ghost use Rattle.bson_value.specs.declared.unit.Unit.{Unit as DateUnit};
ghost use Rattle.bson_value.specs.Calendar.{is_date, beginning, unit_number};

/// The beginning of a date's unit is not later than the date, and lies in the same unit.
pub fn beginning_is_in_unit()
    ensures not_later { (unit : DateUnit) (ms : ℤ) → is_date ms ≡ true → beginning unit ms ≤ℤ ms }
    ensures same { (unit : DateUnit) (ms : ℤ) → is_date ms ≡ true → unit_number unit (beginning unit ms) ≡ unit_number unit ms }
{}

/// A date before that beginning lies in an earlier unit.
pub fn beginning_is_first()
    ensures { (unit : DateUnit) (ms before : ℤ) → is_date ms ≡ true → is_date before ≡ true → before <ℤ beginning unit ms →
        unit_number unit before <ℤ unit_number unit ms }
{}
