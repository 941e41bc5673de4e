//! Tests for types, which take any operand and have no rule for null (the manual, Type Expression Operators).

ghost use Rattle.std.specs.Prelude.{◌≡◌, Some};
ghost use Rattle.std.specs.Option.{option_map};
ghost use Rattle.bson_value.specs.View.{tree_of, founds};
ghost use Rattle.bson_value.specs.Gives.{Gives};
ghost use Rattle.bson_value.specs.CompareRows.{is_array_row, is_number_row, type_row, is_array as an_array, is_number as a_number, type_name as the_name};

use bson_value::{EvalCode, EvalError, Text, Value};
use std::alloc::Global;

fn is_list(value: &Value) -> bool
    ensures { result ≡ an_array (Some (tree_of value.now)) }
{
    match value {
        Value::List(_) => true,
        Value::Least => false,
        Value::Null => false,
        Value::Int(_) => false,
        Value::Long(_) => false,
        Value::Text(_) => false,
        Value::Doc(_) => false,
        Value::Bin(_, _) => false,
        Value::Id(_) => false,
        Value::Flag(_) => false,
        Value::Date(_) => false,
        Value::Stamp(_) => false,
        Value::Greatest => false,
    }
}

fn is_whole(value: &Value) -> bool
    ensures { result ≡ a_number (Some (tree_of value.now)) }
{
    match value {
        Value::Int(_) => true,
        Value::Long(_) => true,
        Value::Least => false,
        Value::Null => false,
        Value::Text(_) => false,
        Value::Doc(_) => false,
        Value::List(_) => false,
        Value::Bin(_, _) => false,
        Value::Id(_) => false,
        Value::Flag(_) => false,
        Value::Date(_) => false,
        Value::Stamp(_) => false,
        Value::Greatest => false,
    }
}

fn name_of(value: &Value) -> &'static str
    ensures { result.now ≡ the_name (Some (tree_of value.now)) }
{
    match value {
        Value::Least => "minKey",
        Value::Null => "null",
        Value::Int(_) => "int",
        Value::Long(_) => "long",
        Value::Text(_) => "string",
        Value::Doc(_) => "object",
        Value::List(_) => "array",
        Value::Bin(_, _) => "binData",
        Value::Id(_) => "objectId",
        Value::Flag(_) => "bool",
        Value::Date(_) => "date",
        Value::Stamp(_) => "timestamp",
        Value::Greatest => "maxKey",
    }
}

/// `$isArray`
pub(crate) fn is_array(args: &[Option<Value>]) -> Result<Option<Value>, EvalError>
    ensures { Gives (option_map tree_of) result (is_array_row (founds args.now)) }
{
    match args {
        [Some(value)] => Ok(Some(Value::Flag(is_list(value)))),
        [None] => Ok(Some(Value::Flag(false))),
        _ => Err(EvalError::Code(EvalCode::WrongType)),
    }
}

/// `$isNumber`
pub(crate) fn is_number(args: &[Option<Value>]) -> Result<Option<Value>, EvalError>
    ensures { Gives (option_map tree_of) result (is_number_row (founds args.now)) }
{
    match args {
        [Some(value)] => Ok(Some(Value::Flag(is_whole(value)))),
        [None] => Ok(Some(Value::Flag(false))),
        _ => Err(EvalError::Code(EvalCode::WrongType)),
    }
}

/// `$type`: the name of the operand's type.
pub(crate) fn type_name(alloc: Global, args: &[Option<Value>]) -> Result<Option<Value>, EvalError>
    ensures { Gives (option_map tree_of) result (type_row (founds args.now)) }
{
    match args {
        [Some(value)] => Ok(Some(Value::Text(Text::of(alloc, name_of(value))?))),
        [None] => Ok(Some(Value::Text(Text::of(alloc, "missing")?))),
        _ => Err(EvalError::Code(EvalCode::WrongType)),
    }
}
