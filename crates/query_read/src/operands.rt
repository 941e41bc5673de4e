//! The operands of tests that are no queries.

ghost use Rattle.std.specs.Prelude.{◌≡◌};
ghost use Rattle.bson_value.specs.View.{tree_of};
ghost use Rattle.expr_read.specs.Reads.{Reads};
ghost use Rattle.query_read.specs.Reading.{bound_in, values_in, flag_in, natural, size_in};
ghost use Rattle.query_read.specs.Words.{type_in, is_extreme};

use crate::words::{type_named, type_numbered};
use bson_value::{List, Value};
use expr_read::FormError;
use std::alloc::Global;

fn is_extreme(value: &Value) -> bool
    ensures { result ≡ is_extreme (tree_of value.now) }
{
    match value {
        Value::Least | Value::Greatest => true,
        Value::Null | Value::Int(_) | Value::Long(_) => false,
        Value::Date(_) | Value::Stamp(_) | Value::Flag(_) => false,
        Value::Text(_) | Value::Doc(_) | Value::List(_) => false,
        Value::Bin(_, _) | Value::Id(_) => false,
    }
}

/// The operand of a test that orders values. MinKey and MaxKey are refused as `Form`.
pub fn bound_in(alloc: Global, value: &Value) -> Result<Value, FormError>
    ensures { Reads tree_of result (bound_in (tree_of value.now)) }
{
    if is_extreme(value) {
        Err(FormError::Form)
    } else {
        Ok(value.copy(alloc)?)
    }
}

/// The values of an array. Another value is refused as `Form`.
#[tactic(auto, using(crate::proofs::Fields::members_trees))]
pub fn values_in(alloc: Global, value: &Value) -> Result<List, FormError>
    ensures { Reads (λ l. l) result (values_in (tree_of value.now)) }
{
    match value {
        Value::List(list) => Ok(list.copy(alloc)?),
        Value::Least | Value::Null | Value::Greatest => Err(FormError::Form),
        Value::Int(_) | Value::Long(_) | Value::Date(_) | Value::Stamp(_) => Err(FormError::Form),
        Value::Text(_) | Value::Doc(_) | Value::Bin(_, _) => Err(FormError::Form),
        Value::Id(_) | Value::Flag(_) => Err(FormError::Form),
    }
}

/// A boolean. Another value is refused as `Form`.
pub fn flag_in(value: &Value) -> Result<bool, FormError>
    ensures { Reads (λ b. b) result (flag_in (tree_of value.now)) }
{
    match value {
        Value::Flag(flag) => Ok(*flag),
        Value::Least | Value::Null | Value::Greatest => Err(FormError::Form),
        Value::Int(_) | Value::Long(_) | Value::Date(_) | Value::Stamp(_) => Err(FormError::Form),
        Value::Text(_) | Value::Doc(_) | Value::Bin(_, _) => Err(FormError::Form),
        Value::Id(_) | Value::List(_) => Err(FormError::Form),
    }
}

fn given(number: Option<u8>) -> Result<u8, FormError>
    ensures { Reads (λ n. n) result number }
{
    match number {
        Some(number) => Ok(number),
        None => Err(FormError::Form),
    }
}

/// The BSON number of the type that an alias or a whole number says, 255 for MinKey. Another value is refused as `Form`.
pub fn type_in(value: &Value) -> Result<u8, FormError>
    ensures { Reads (λ n. n) result (type_in (tree_of value.now)) }
{
    match value {
        Value::Text(alias) => given(type_named(alias.bytes())),
        Value::Int(number) => given(type_numbered(i64::from(*number))),
        Value::Long(number) => given(type_numbered(*number)),
        Value::Least | Value::Null | Value::Greatest => Err(FormError::Form),
        Value::Date(_) | Value::Stamp(_) => Err(FormError::Form),
        Value::Doc(_) | Value::List(_) | Value::Bin(_, _) => Err(FormError::Form),
        Value::Id(_) | Value::Flag(_) => Err(FormError::Form),
    }
}

fn natural(number: i64) -> Result<u64, FormError>
    ensures { Reads (λ n. n) result (natural number) }
{
    if number < 0 {
        Err(FormError::Form)
    } else {
        Ok(number.unsigned_abs())
    }
}

/// A whole number that isn't negative. Another value is refused as `Form`.
pub fn size_in(value: &Value) -> Result<u64, FormError>
    ensures { Reads (λ n. n) result (size_in (tree_of value.now)) }
{
    match value {
        Value::Int(number) => natural(i64::from(*number)),
        Value::Long(number) => natural(*number),
        Value::Least | Value::Null | Value::Greatest => Err(FormError::Form),
        Value::Date(_) | Value::Stamp(_) => Err(FormError::Form),
        Value::Text(_) | Value::Doc(_) | Value::List(_) => Err(FormError::Form),
        Value::Bin(_, _) | Value::Id(_) | Value::Flag(_) => Err(FormError::Form),
    }
}
