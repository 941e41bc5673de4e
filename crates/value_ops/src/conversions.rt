//! Conversions (the manual, Type Expression Operators).

ghost use Rattle.std.specs.Prelude.{◌≡◌, pos, Some, Ok, IfOk};
ghost use Rattle.std.specs.Option.{option_map};
ghost use Rattle.std.specs.Str.{all_ascii_digits};
ghost use Rattle.std.specs.Fmt.{signed_decimal};
ghost use Rattle.bson_value.specs.Tree.{leaf, text as a_text};
ghost use Rattle.bson_value.specs.View.{tree_of, founds};
ghost use Rattle.bson_value.specs.Gives.{Gives};
ghost use Rattle.bson_value.specs.Operands.{row, gives_text};
ghost use Rattle.bson_value.specs.ConversionRows.{to_int_row, to_long_row, to_string_row, unsigned as the_unsigned, spelled as the_spelled, read_number, number_from, long_from, int_made as the_int, long_made as the_long, shown_from};

use crate::texts::text_of;
use bson_value::{EvalCode, EvalError, NoMemory, Value};
use itoa::Buffer;
use std::alloc::Global;

// Whether each byte is a digit.
fn are_digits(text: &[u8]) -> bool
    ensures { result ≡ all_ascii_digits text.now }
{
    for byte in text {
        if !byte.is_ascii_digit() {
            return false;
        }
    }
    true
}

// The number of 1 to 19 digits.
fn unsigned(digits: &str) -> Option<u64>
    ensures { option_map pos result ≡ the_unsigned digits.now }
{
    if digits.len() > 19 || !are_digits(digits.as_bytes()) {
        return None;
    }
    digits.parse::<u64>().ok()
}

fn widened(number: Option<u64>) -> Option<i128>
    ensures { result ≡ option_map pos number }
{
    match number {
        Some(number) => Some(i128::from(number)),
        None => None,
    }
}

// The number that a text spells: an optional `-` and 1 to 19 digits.
fn spelled(text: &str) -> Option<i128>
    ensures { result ≡ the_spelled text.now }
{
    match text.strip_prefix('-') {
        Some(digits) => unsigned(digits).map(|number| -i128::from(number)),
        None => widened(unsigned(text)),
    }
}

fn number_in(text: &str) -> Result<Option<i128>, EvalCode>
    ensures { result ≡ read_number (the_spelled text.now) }
{
    match spelled(text) {
        Some(number) => Ok(Some(number)),
        None => Err(EvalCode::BadConversion),
    }
}

// The number that `$toInt` sees in an operand.
fn number_of(value: &Value) -> Result<Option<i128>, EvalCode>
    ensures { result ≡ number_from (Some (tree_of value.now)) }
{
    match value {
        Value::Null => Ok(None),
        Value::Int(number) => Ok(Some(i128::from(*number))),
        Value::Long(number) => Ok(Some(i128::from(*number))),
        Value::Flag(true) => Ok(Some(1)),
        Value::Flag(false) => Ok(Some(0)),
        Value::Text(text) => number_in(text.as_str()),
        Value::Least => Err(EvalCode::BadConversion),
        Value::Doc(_) => Err(EvalCode::BadConversion),
        Value::List(_) => Err(EvalCode::BadConversion),
        Value::Bin(_, _) => Err(EvalCode::BadConversion),
        Value::Id(_) => Err(EvalCode::BadConversion),
        Value::Date(_) => Err(EvalCode::BadConversion),
        Value::Stamp(_) => Err(EvalCode::BadConversion),
        Value::Greatest => Err(EvalCode::BadConversion),
    }
}

// The number that `$toLong` sees in an operand.
fn long_of(value: &Value) -> Result<Option<i128>, EvalCode>
    ensures { result ≡ long_from (Some (tree_of value.now)) }
{
    match value {
        Value::Date(number) => Ok(Some(i128::from(*number))),
        Value::Least => number_of(value),
        Value::Null => number_of(value),
        Value::Int(_) => number_of(value),
        Value::Long(_) => number_of(value),
        Value::Text(_) => number_of(value),
        Value::Doc(_) => number_of(value),
        Value::List(_) => number_of(value),
        Value::Bin(_, _) => number_of(value),
        Value::Id(_) => number_of(value),
        Value::Flag(_) => number_of(value),
        Value::Stamp(_) => number_of(value),
        Value::Greatest => number_of(value),
    }
}

fn int_made(number: Option<i128>) -> Result<Option<Value>, EvalError>
    ensures { Gives (option_map tree_of) result (row (Ok number) the_int) }
{
    match number {
        None => Ok(Some(Value::Null)),
        Some(number) => match i32::try_from(number) {
            Ok(number) => Ok(Some(Value::Int(number))),
            Err(_) => Err(EvalError::Code(EvalCode::BadConversion)),
        },
    }
}

fn long_made(number: Option<i128>) -> Result<Option<Value>, EvalError>
    ensures { Gives (option_map tree_of) result (row (Ok number) the_long) }
{
    match number {
        None => Ok(Some(Value::Null)),
        Some(number) => match i64::try_from(number) {
            Ok(number) => Ok(Some(Value::Long(number))),
            Err(_) => Err(EvalError::Code(EvalCode::BadConversion)),
        },
    }
}

/// `$toInt`
pub(crate) fn to_int(args: &[Option<Value>]) -> Result<Option<Value>, EvalError>
    ensures { Gives (option_map tree_of) result (to_int_row (founds args.now)) }
{
    match args {
        [None] => Ok(Some(Value::Null)),
        [Some(value)] => int_made(number_of(value)?),
        _ => Err(EvalError::Code(EvalCode::WrongType)),
    }
}

/// `$toLong`
pub(crate) fn to_long(args: &[Option<Value>]) -> Result<Option<Value>, EvalError>
    ensures { Gives (option_map tree_of) result (to_long_row (founds args.now)) }
{
    match args {
        [None] => Ok(Some(Value::Null)),
        [Some(value)] => long_made(long_of(value)?),
        _ => Err(EvalError::Code(EvalCode::WrongType)),
    }
}

fn decimal(alloc: Global, number: i64) -> Result<Value, NoMemory>
    ensures { IfOk result (λ v. tree_of v ≡ leaf (a_text (signed_decimal number))) }
{
    let mut buffer = Buffer::new();
    text_of(alloc, buffer.format(number))
}

// A value as a text.
fn shown(alloc: Global, value: &Value) -> Result<Option<Value>, EvalError>
    ensures { Gives (option_map tree_of) result (row (shown_from (Some (tree_of value.now))) gives_text) }
{
    match value {
        Value::Null => Ok(Some(Value::Null)),
        Value::Int(number) => Ok(Some(decimal(alloc, i64::from(*number))?)),
        Value::Long(number) => Ok(Some(decimal(alloc, *number)?)),
        Value::Flag(true) => Ok(Some(text_of(alloc, "true")?)),
        Value::Flag(false) => Ok(Some(text_of(alloc, "false")?)),
        Value::Text(text) => Ok(Some(Value::Text(text.copy(alloc)?))),
        Value::Least => Err(EvalError::Code(EvalCode::BadConversion)),
        Value::Doc(_) => Err(EvalError::Code(EvalCode::BadConversion)),
        Value::List(_) => Err(EvalError::Code(EvalCode::BadConversion)),
        Value::Bin(_, _) => Err(EvalError::Code(EvalCode::BadConversion)),
        Value::Id(_) => Err(EvalError::Code(EvalCode::BadConversion)),
        Value::Date(_) => Err(EvalError::Code(EvalCode::BadConversion)),
        Value::Stamp(_) => Err(EvalError::Code(EvalCode::BadConversion)),
        Value::Greatest => Err(EvalError::Code(EvalCode::BadConversion)),
    }
}

/// `$toString`
pub(crate) fn to_string(alloc: Global, args: &[Option<Value>]) -> Result<Option<Value>, EvalError>
    ensures { Gives (option_map tree_of) result (to_string_row (founds args.now)) }
{
    match args {
        [None] => Ok(Some(Value::Null)),
        [Some(value)] => shown(alloc, value),
        _ => Err(EvalError::Code(EvalCode::WrongType)),
    }
}
