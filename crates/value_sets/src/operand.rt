//! How operands are read: only here are the kinds of values told apart.

ghost use Rattle.std.specs.Prelude.{◌≡◌, Some};
ghost use Rattle.std.specs.Option.{option_map};
ghost use Rattle.bson_value.specs.View.{tree_of};
ghost use Rattle.bson_value.specs.Operands.{operand_map, array_in, doc_in, text_in, date_in, whole_in, counts, is_int as of_int, is_date as of_date};
ghost use Rattle.bson_value.specs.NumberRows.{summand_in};

use bson_value::{Doc, EvalCode, List, Text, Value};

/// The array that an operand is; `None` where it is null or missing, else `NotArray`.
pub fn as_array(operand: &Option<Value>) -> Result<Option<&List>, EvalCode>
    ensures { operand_map (λ l. l.now) result ≡ array_in (option_map tree_of operand.now) }
{
    match operand {
        None => Ok(None),
        Some(value) => array_value(value),
    }
}

fn array_value(value: &Value) -> Result<Option<&List>, EvalCode>
    ensures { operand_map (λ l. l.now) result ≡ array_in (Some (tree_of value.now)) }
{
    match value {
        Value::Null => Ok(None),
        Value::List(list) => Ok(Some(list)),
        Value::Least => Err(EvalCode::NotArray),
        Value::Int(_) => Err(EvalCode::NotArray),
        Value::Long(_) => Err(EvalCode::NotArray),
        Value::Text(_) => Err(EvalCode::NotArray),
        Value::Doc(_) => Err(EvalCode::NotArray),
        Value::Bin(_, _) => Err(EvalCode::NotArray),
        Value::Id(_) => Err(EvalCode::NotArray),
        Value::Flag(_) => Err(EvalCode::NotArray),
        Value::Date(_) => Err(EvalCode::NotArray),
        Value::Stamp(_) => Err(EvalCode::NotArray),
        Value::Greatest => Err(EvalCode::NotArray),
    }
}

/// The document that an operand is; `None` where it is null or missing, else `NotDocument`.
pub fn as_doc(operand: &Option<Value>) -> Result<Option<&Doc>, EvalCode>
    ensures { operand_map (λ d. d.now) result ≡ doc_in (option_map tree_of operand.now) }
{
    match operand {
        None => Ok(None),
        Some(value) => doc_value(value),
    }
}

fn doc_value(value: &Value) -> Result<Option<&Doc>, EvalCode>
    ensures { operand_map (λ d. d.now) result ≡ doc_in (Some (tree_of value.now)) }
{
    match value {
        Value::Null => Ok(None),
        Value::Doc(doc) => Ok(Some(doc)),
        Value::Least => Err(EvalCode::NotDocument),
        Value::Int(_) => Err(EvalCode::NotDocument),
        Value::Long(_) => Err(EvalCode::NotDocument),
        Value::Text(_) => Err(EvalCode::NotDocument),
        Value::List(_) => Err(EvalCode::NotDocument),
        Value::Bin(_, _) => Err(EvalCode::NotDocument),
        Value::Id(_) => Err(EvalCode::NotDocument),
        Value::Flag(_) => Err(EvalCode::NotDocument),
        Value::Date(_) => Err(EvalCode::NotDocument),
        Value::Stamp(_) => Err(EvalCode::NotDocument),
        Value::Greatest => Err(EvalCode::NotDocument),
    }
}

/// The text that an operand is; `None` where it is null or missing, else `WrongType`.
pub fn as_text(operand: &Option<Value>) -> Result<Option<&Text>, EvalCode>
    ensures { operand_map (λ t. t.now) result ≡ text_in (option_map tree_of operand.now) }
{
    match operand {
        None => Ok(None),
        Some(value) => text_value(value),
    }
}

fn text_value(value: &Value) -> Result<Option<&Text>, EvalCode>
    ensures { operand_map (λ t. t.now) result ≡ text_in (Some (tree_of value.now)) }
{
    match value {
        Value::Null => Ok(None),
        Value::Text(text) => Ok(Some(text)),
        Value::Least => Err(EvalCode::WrongType),
        Value::Int(_) => Err(EvalCode::WrongType),
        Value::Long(_) => Err(EvalCode::WrongType),
        Value::Doc(_) => Err(EvalCode::WrongType),
        Value::List(_) => Err(EvalCode::WrongType),
        Value::Bin(_, _) => Err(EvalCode::WrongType),
        Value::Id(_) => Err(EvalCode::WrongType),
        Value::Flag(_) => Err(EvalCode::WrongType),
        Value::Date(_) => Err(EvalCode::WrongType),
        Value::Stamp(_) => Err(EvalCode::WrongType),
        Value::Greatest => Err(EvalCode::WrongType),
    }
}

/// The number of an Int or a Long; `None` where the operand is null or missing, else `WrongType`.
pub fn as_whole(operand: &Option<Value>) -> Result<Option<i64>, EvalCode>
    ensures { result ≡ whole_in (option_map tree_of operand.now) }
{
    match operand {
        None => Ok(None),
        Some(value) => whole_value(value),
    }
}

fn whole_value(value: &Value) -> Result<Option<i64>, EvalCode>
    ensures { result ≡ whole_in (Some (tree_of value.now)) }
{
    match value {
        Value::Null => Ok(None),
        Value::Int(number) => Ok(Some(i64::from(*number))),
        Value::Long(number) => Ok(Some(*number)),
        Value::Least => Err(EvalCode::WrongType),
        Value::Text(_) => Err(EvalCode::WrongType),
        Value::Doc(_) => Err(EvalCode::WrongType),
        Value::List(_) => Err(EvalCode::WrongType),
        Value::Bin(_, _) => Err(EvalCode::WrongType),
        Value::Id(_) => Err(EvalCode::WrongType),
        Value::Flag(_) => Err(EvalCode::WrongType),
        Value::Date(_) => Err(EvalCode::WrongType),
        Value::Stamp(_) => Err(EvalCode::WrongType),
        Value::Greatest => Err(EvalCode::WrongType),
    }
}

/// The milliseconds of a date; `None` where the operand is null or missing, else `WrongType`.
pub fn as_date(operand: &Option<Value>) -> Result<Option<i64>, EvalCode>
    ensures { result ≡ date_in (option_map tree_of operand.now) }
{
    match operand {
        None => Ok(None),
        Some(value) => date_value(value),
    }
}

fn date_value(value: &Value) -> Result<Option<i64>, EvalCode>
    ensures { result ≡ date_in (Some (tree_of value.now)) }
{
    match value {
        Value::Null => Ok(None),
        Value::Date(number) => Ok(Some(*number)),
        Value::Least => Err(EvalCode::WrongType),
        Value::Int(_) => Err(EvalCode::WrongType),
        Value::Long(_) => Err(EvalCode::WrongType),
        Value::Text(_) => Err(EvalCode::WrongType),
        Value::Doc(_) => Err(EvalCode::WrongType),
        Value::List(_) => Err(EvalCode::WrongType),
        Value::Bin(_, _) => Err(EvalCode::WrongType),
        Value::Id(_) => Err(EvalCode::WrongType),
        Value::Flag(_) => Err(EvalCode::WrongType),
        Value::Stamp(_) => Err(EvalCode::WrongType),
        Value::Greatest => Err(EvalCode::WrongType),
    }
}

/// The number of an Int, a Long or a date; `None` where the operand is null or missing, else `WrongType`.
pub fn as_summand(operand: &Option<Value>) -> Result<Option<i64>, EvalCode>
    ensures { result ≡ summand_in (option_map tree_of operand.now) }
{
    match operand {
        None => Ok(None),
        Some(value) => summand_value(value),
    }
}

fn summand_value(value: &Value) -> Result<Option<i64>, EvalCode>
    ensures { result ≡ summand_in (Some (tree_of value.now)) }
{
    match value {
        Value::Null => Ok(None),
        Value::Int(number) => Ok(Some(i64::from(*number))),
        Value::Long(number) => Ok(Some(*number)),
        Value::Date(number) => Ok(Some(*number)),
        Value::Least => Err(EvalCode::WrongType),
        Value::Text(_) => Err(EvalCode::WrongType),
        Value::Doc(_) => Err(EvalCode::WrongType),
        Value::List(_) => Err(EvalCode::WrongType),
        Value::Bin(_, _) => Err(EvalCode::WrongType),
        Value::Id(_) => Err(EvalCode::WrongType),
        Value::Flag(_) => Err(EvalCode::WrongType),
        Value::Stamp(_) => Err(EvalCode::WrongType),
        Value::Greatest => Err(EvalCode::WrongType),
    }
}

/// Whether the operand is an Int.
pub fn is_int(operand: &Option<Value>) -> bool
    ensures { result ≡ of_int (option_map tree_of operand.now) }
{
    match operand {
        None => false,
        Some(value) => int_value(value),
    }
}

fn int_value(value: &Value) -> bool
    ensures { result ≡ of_int (Some (tree_of value.now)) }
{
    match value {
        Value::Int(_) => true,
        Value::Least => false,
        Value::Null => false,
        Value::Long(_) => false,
        Value::Text(_) => false,
        Value::Doc(_) => false,
        Value::List(_) => false,
        Value::Bin(_, _) => false,
        Value::Id(_) => false,
        Value::Flag(_) => false,
        Value::Date(_) => false,
        Value::Stamp(_) => false,
        Value::Greatest => false,
    }
}

/// Whether the operand is a date.
pub fn is_date(operand: &Option<Value>) -> bool
    ensures { result ≡ of_date (option_map tree_of operand.now) }
{
    match operand {
        None => false,
        Some(value) => a_date(value),
    }
}

fn a_date(value: &Value) -> bool
    ensures { result ≡ of_date (Some (tree_of value.now)) }
{
    match value {
        Value::Date(_) => true,
        Value::Least => false,
        Value::Null => false,
        Value::Int(_) => false,
        Value::Long(_) => false,
        Value::Text(_) => false,
        Value::Doc(_) => false,
        Value::List(_) => false,
        Value::Bin(_, _) => false,
        Value::Id(_) => false,
        Value::Flag(_) => false,
        Value::Stamp(_) => false,
        Value::Greatest => false,
    }
}

/// Whether the operand counts as true: all but false, null, missing and 0 do.
pub fn counts_as_true(operand: &Option<Value>) -> bool
    ensures { result ≡ counts (option_map tree_of operand.now) }
{
    match operand {
        None => false,
        Some(value) => value_counts(value),
    }
}

fn value_counts(value: &Value) -> bool
    ensures { result ≡ counts (Some (tree_of value.now)) }
{
    match value {
        Value::Null => false,
        Value::Int(number) => *number != 0,
        Value::Long(number) => *number != 0,
        Value::Flag(flag) => *flag,
        Value::Least => true,
        Value::Text(_) => true,
        Value::Doc(_) => true,
        Value::List(_) => true,
        Value::Bin(_, _) => true,
        Value::Id(_) => true,
        Value::Date(_) => true,
        Value::Stamp(_) => true,
        Value::Greatest => true,
    }
}
