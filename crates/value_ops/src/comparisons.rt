//! Comparisons and negation, which take any operands and have no rule for null (the manual, Comparison and Boolean
//! Expression Operators).

ghost use Rattle.std.specs.Prelude.{◌≡◌};
ghost use Rattle.std.specs.Ordering.{is_eq, is_ne, is_lt, is_le, is_gt, is_ge};
ghost use Rattle.std.specs.Option.{option_map};
ghost use Rattle.bson_value.specs.View.{tree_of, founds};
ghost use Rattle.bson_value.specs.Order.{found_order};
ghost use Rattle.bson_value.specs.Gives.{Gives};
ghost use Rattle.bson_value.specs.CompareRows.{cmp_row, eq_row, ne_row, gt_row, gte_row, lt_row, lte_row, not_row, cmp_number};

use bson_value::{EvalCode, EvalError, Value, compare_found};
use std::cmp::Ordering;
use value_sets::counts_as_true;

// The order of two operands.
fn order_of(a: &Option<Value>, b: &Option<Value>) -> Ordering
    ensures { result ≡ found_order (option_map tree_of a.now) (option_map tree_of b.now) }
{
    compare_found(a.as_ref(), b.as_ref())
}

fn number_of(order: Ordering) -> i32
    ensures { result ≡ cmp_number order }
{
    match order {
        Ordering::Less => -1,
        Ordering::Equal => 0,
        Ordering::Greater => 1,
    }
}

/// `$cmp`: -1, 0 or 1.
pub(crate) fn cmp(args: &[Option<Value>]) -> Result<Option<Value>, EvalError>
    ensures { Gives (option_map tree_of) result (cmp_row (founds args.now)) }
{
    match args {
        [a, b] => Ok(Some(Value::Int(number_of(order_of(a, b))))),
        _ => Err(EvalError::Code(EvalCode::WrongType)),
    }
}

/// `$eq`
pub(crate) fn eq(args: &[Option<Value>]) -> Result<Option<Value>, EvalError>
    ensures { Gives (option_map tree_of) result (eq_row (founds args.now)) }
{
    match args {
        [a, b] => Ok(Some(Value::Flag(order_of(a, b).is_eq()))),
        _ => Err(EvalError::Code(EvalCode::WrongType)),
    }
}

/// `$ne`
pub(crate) fn ne(args: &[Option<Value>]) -> Result<Option<Value>, EvalError>
    ensures { Gives (option_map tree_of) result (ne_row (founds args.now)) }
{
    match args {
        [a, b] => Ok(Some(Value::Flag(order_of(a, b).is_ne()))),
        _ => Err(EvalError::Code(EvalCode::WrongType)),
    }
}

/// `$gt`
pub(crate) fn gt(args: &[Option<Value>]) -> Result<Option<Value>, EvalError>
    ensures { Gives (option_map tree_of) result (gt_row (founds args.now)) }
{
    match args {
        [a, b] => Ok(Some(Value::Flag(order_of(a, b).is_gt()))),
        _ => Err(EvalError::Code(EvalCode::WrongType)),
    }
}

/// `$gte`
pub(crate) fn gte(args: &[Option<Value>]) -> Result<Option<Value>, EvalError>
    ensures { Gives (option_map tree_of) result (gte_row (founds args.now)) }
{
    match args {
        [a, b] => Ok(Some(Value::Flag(order_of(a, b).is_ge()))),
        _ => Err(EvalError::Code(EvalCode::WrongType)),
    }
}

/// `$lt`
pub(crate) fn lt(args: &[Option<Value>]) -> Result<Option<Value>, EvalError>
    ensures { Gives (option_map tree_of) result (lt_row (founds args.now)) }
{
    match args {
        [a, b] => Ok(Some(Value::Flag(order_of(a, b).is_lt()))),
        _ => Err(EvalError::Code(EvalCode::WrongType)),
    }
}

/// `$lte`
pub(crate) fn lte(args: &[Option<Value>]) -> Result<Option<Value>, EvalError>
    ensures { Gives (option_map tree_of) result (lte_row (founds args.now)) }
{
    match args {
        [a, b] => Ok(Some(Value::Flag(order_of(a, b).is_le()))),
        _ => Err(EvalError::Code(EvalCode::WrongType)),
    }
}

/// `$not`: true where the operand counts as false.
pub(crate) fn not(args: &[Option<Value>]) -> Result<Option<Value>, EvalError>
    ensures { Gives (option_map tree_of) result (not_row (founds args.now)) }
{
    match args {
        [operand] => Ok(Some(Value::Flag(!counts_as_true(operand)))),
        _ => Err(EvalError::Code(EvalCode::WrongType)),
    }
}
