ghost use Rattle.std.specs.Prelude.{◌≡◌};
ghost use Rattle.bson_value.specs.Calendar as Calendar;

use bson_value::EvalCode;

/// 0001-01-01T00:00:00.000.
const FIRST: i128 = -62_135_596_800_000;

/// 9999-12-31T23:59:59.999.
const LAST: i128 = 253_402_300_799_999;

/// The date, or `DateRange` where it is outside the years 1 to 9999.
pub(crate) fn dated(ms: i128) -> Result<i64, EvalCode>
    ensures { result ≡ Calendar.dated ms }
{
    if FIRST <= ms && ms <= LAST {
        Ok(ms as i64)
    } else {
        Err(EvalCode::DateRange)
    }
}
