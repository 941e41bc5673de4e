//! The operators on dates. Each call takes its values over.

ghost use Rattle.std.specs.Prelude.{◌≡◌, Some};
ghost use Rattle.std.specs.Option.{option_map};
ghost use Rattle.bson_value.specs.View.{tree_of};
ghost use Rattle.bson_value.specs.Gives.{Gives};
ghost use Rattle.bson_value.specs.Tree.{leaf, int, long, date as a_date};
ghost use Rattle.bson_value.specs.Operands.{row, both as read_both, date_in, whole_in, gives};
ghost use Rattle.bson_value.specs.Calendar.{part_at, add_at, trunc_at, diff_at};
ghost use Rattle.expr_tree.specs.Rows.{signed, part_row, sum_row, diff_row, trunc_row};

use bson_value::{EvalCode, EvalError, Part, Unit, Value};
use date_ops::{date_add, date_diff, date_part, date_trunc};
use value_ops::{as_date, as_whole};

/// A part of the date.
pub(crate) fn part_of(part: Part, date: Option<Value>) -> Result<Option<Value>, EvalError>
    ensures { Gives (option_map tree_of) result (part_row part (option_map tree_of date)) }
{
    match as_date(&date)? {
        None => Ok(Some(Value::Null)),
        Some(ms) => Ok(Some(Value::Int(date_part(part, ms)?))),
    }
}

/// The date with which the unit begins.
pub(crate) fn truncated(date: Option<Value>, unit: Unit) -> Result<Option<Value>, EvalError>
    ensures { Gives (option_map tree_of) result (trunc_row unit (option_map tree_of date)) }
{
    match as_date(&date)? {
        None => Ok(Some(Value::Null)),
        Some(ms) => Ok(Some(Value::Date(date_trunc(ms, unit)?))),
    }
}

/// The boundaries of the unit from the first date to the second.
pub(crate) fn difference(
    first: Option<Value>,
    second: Option<Value>,
    unit: Unit,
) -> Result<Option<Value>, EvalError>
    ensures { Gives (option_map tree_of) result (diff_row unit (option_map tree_of first) (option_map tree_of second)) }
{
    let first = as_date(&first)?;
    let second = as_date(&second)?;
    match (first, second) {
        (Some(first), Some(second)) => Ok(Some(Value::Long(date_diff(first, second, unit)?))),
        _ => Ok(Some(Value::Null)),
    }
}

/// The date so many units later, or earlier where `back` is true.
pub(crate) fn sum(
    date: Option<Value>,
    unit: Unit,
    amount: Option<Value>,
    back: bool,
) -> Result<Option<Value>, EvalError>
    ensures { Gives (option_map tree_of) result (sum_row unit back (option_map tree_of date) (option_map tree_of amount)) }
{
    let date = as_date(&date)?;
    let amount = as_whole(&amount)?;
    match (date, amount) {
        (Some(date), Some(amount)) => Ok(Some(Value::Date(moved(date, unit, amount, back)?))),
        _ => Ok(Some(Value::Null)),
    }
}

// The date so many units later or earlier. The least amount has no negative: each unit is long enough for it to lead
// outside the years 1 to 9999.
fn moved(date: i64, unit: Unit, amount: i64, back: bool) -> Result<i64, EvalCode>
    ensures { result ≡ add_at unit date (signed back amount) }
{
    if !back {
        return date_add(date, unit, amount);
    }
    if amount == i64::MIN {
        return Err(EvalCode::DateRange);
    }
    date_add(date, unit, -amount)
}
