//! Whole numbers as values, in the types that they fit.

ghost use Rattle.bson_value.specs.View.{tree_of};
ghost use Rattle.std.specs.Option.{option_map};
ghost use Rattle.bson_value.specs.Gives.{Gives};
ghost use Rattle.bson_value.specs.Operands.{whole_of, long_of, date_of as a_date_of};

use bson_value::{EvalCode, EvalError, Value};

const LEAST_INT: i128 = -2_147_483_648;

const GREATEST_INT: i128 = 2_147_483_647;

const LEAST_LONG: i128 = -9_223_372_036_854_775_808;

const GREATEST_LONG: i128 = 9_223_372_036_854_775_807;

/// The number as an Int, where that is allowed and it fits, else as a Long; `Overflow` where it is beyond one.
pub(crate) fn whole(narrow: bool, number: i128) -> Result<Option<Value>, EvalError>
    ensures { Gives (option_map tree_of) result (whole_of narrow number) }
{
    if narrow && LEAST_INT <= number && number <= GREATEST_INT {
        Ok(Some(Value::Int(number as i32)))
    } else {
        long(number)
    }
}

/// The number as a Long; `Overflow` where it is beyond one.
pub(crate) fn long(number: i128) -> Result<Option<Value>, EvalError>
    ensures { Gives (option_map tree_of) result (long_of number) }
{
    if LEAST_LONG <= number && number <= GREATEST_LONG {
        Ok(Some(Value::Long(number as i64)))
    } else {
        Err(EvalError::Code(EvalCode::Overflow))
    }
}

/// The milliseconds as a date; `Overflow` where they are beyond one.
pub(crate) fn date(number: i128) -> Result<Option<Value>, EvalError>
    ensures { Gives (option_map tree_of) result (a_date_of number) }
{
    if LEAST_LONG <= number && number <= GREATEST_LONG {
        Ok(Some(Value::Date(number as i64)))
    } else {
        Err(EvalError::Code(EvalCode::Overflow))
    }
}
