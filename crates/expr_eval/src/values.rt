//! What the values of operands count as. Each call takes its value over.

ghost use Rattle.std.specs.Prelude.{◌≡◌, ◌++◌, [], Some};
ghost use Rattle.std.specs.Option.{option_map};
ghost use Rattle.bson_value.specs.View.{tree_of};
ghost use Rattle.bson_value.specs.Gives.{Gives};
ghost use Rattle.bson_value.specs.Operands.{operand_map, array_in, counts as counting, or_null as the_or_null};
ghost use Rattle.expr_tree.specs.Rows.{shallow as shallow_only, is_nothing as nothing_in};

use bson_value::{EvalCode, EvalError, List, Value, depth_of};
use value_ops::counts_as_true;

/// The greatest depth of a value within `$reduce`.
const MOST_DEPTH: u32 = 200;

/// Whether the value counts as true.
pub(crate) fn counts(value: Option<Value>) -> bool
    ensures { result ≡ counting (option_map tree_of value) }
{
    counts_as_true(&value)
}

/// Whether the value is null or missing.
pub(crate) fn is_nothing(value: &Option<Value>) -> bool
    ensures { result ≡ nothing_in (option_map tree_of value.now) }
{
    match value {
        None => true,
        Some(value) => is_null(value),
    }
}

fn is_null(value: &Value) -> bool
    ensures { result ≡ nothing_in (Some (tree_of value.now)) }
{
    match value {
        Value::Null => true,
        Value::Least => false,
        Value::Int(_) => false,
        Value::Long(_) => false,
        Value::Text(_) => false,
        Value::Doc(_) => false,
        Value::List(_) => false,
        Value::Bin(_, _) => false,
        Value::Id(_) => false,
        Value::Flag(_) => false,
        Value::Date(_) => false,
        Value::Stamp(_) => false,
        Value::Greatest => false,
    }
}

/// The value, null in place of a missing one.
pub(crate) fn or_null(value: Option<Value>) -> Value
    ensures { tree_of result ≡ the_or_null (option_map tree_of value) }
{
    match value {
        Some(value) => value,
        None => Value::Null,
    }
}

/// The array, moved out; None where the value is null or missing, else `NotArray`.
pub(crate) fn into_array(value: Option<Value>) -> Result<Option<List>, EvalCode>
    ensures { operand_map (λ l. l) result ≡ array_in (option_map tree_of value) }
{
    match value {
        None => Ok(None),
        Some(value) => value_into_array(value),
    }
}

fn value_into_array(value: Value) -> Result<Option<List>, EvalCode>
    ensures { operand_map (λ l. l) result ≡ array_in (Some (tree_of value)) }
{
    match value {
        Value::Null => Ok(None),
        Value::List(list) => Ok(Some(list)),
        Value::Least => Err(EvalCode::NotArray),
        Value::Int(_) => Err(EvalCode::NotArray),
        Value::Long(_) => Err(EvalCode::NotArray),
        Value::Text(_) => Err(EvalCode::NotArray),
        Value::Doc(_) => Err(EvalCode::NotArray),
        Value::Bin(_, _) => Err(EvalCode::NotArray),
        Value::Id(_) => Err(EvalCode::NotArray),
        Value::Flag(_) => Err(EvalCode::NotArray),
        Value::Date(_) => Err(EvalCode::NotArray),
        Value::Stamp(_) => Err(EvalCode::NotArray),
        Value::Greatest => Err(EvalCode::NotArray),
    }
}

/// The value itself. `NestTooDeep` where it is nested deeper than 200.
pub(crate) fn shallow(value: Option<Value>) -> Result<Option<Value>, EvalError>
    ensures { Gives (option_map tree_of) result (shallow_only (option_map tree_of value)) }
{
    match value {
        Some(value) => shallow_value(value),
        None => Ok(None),
    }
}

fn shallow_value(value: Value) -> Result<Option<Value>, EvalError>
    ensures { Gives (option_map tree_of) result (shallow_only (Some (tree_of value))) }
{
    match depth_of(&value, MOST_DEPTH) {
        Some(_) => Ok(Some(value)),
        None => Err(EvalError::Code(EvalCode::NestTooDeep)),
    }
}
