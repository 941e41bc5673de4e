//! Arithmetic (the manual, Arithmetic Expression Operators).

ghost use Rattle.std.specs.Prelude.{◌≡◌, ◌≢◌, ℕ, ◌+◌, ◌*◌, ◌^◌, ◌-◌, map, pos, ◌+ℤ◌, ◌-ℤ◌, int_rem, fold, IfSome};
ghost use Rattle.std.specs.Option.{option_map};
ghost use Rattle.std.specs.List.{list_all, count_by};
ghost use Rattle.bson_value.specs.View.{tree_of, founds};
ghost use Rattle.bson_value.specs.Gives.{Gives};
ghost use Rattle.bson_value.specs.Operands.{operand_map, all, whole_in, is_int as of_int, is_date as of_date};
ghost use Rattle.bson_value.specs.NumberRows.{add_row, subtract_row, multiply_row, mod_row, abs_row, summand_in, sum_of as the_sum, difference as the_difference, times as the_times, remainder as the_remainder};
ghost use Rattle.value_ops.specs.Folded.{with_operand, IsWithin};

use crate::number::{date, long, whole};
use bson_value::{EvalCode, EvalError, Value};
use value_sets::{as_summand, as_whole, is_date, is_int};

// How many of the operands are dates.
fn dates_in(args: &[Option<Value>]) -> usize
    ensures { result ≡ count_by of_date (founds args.now) }
{
    args.iter().filter(|operand| is_date(operand)).count()
}

// Whether all of the operands are Ints.
fn all_ints(args: &[Option<Value>]) -> bool
    ensures { result ≡ list_all of_int (founds args.now) }
{
    for operand in args {
        if !is_int(operand) {
            return false;
        }
    }
    true
}

// The exact sum of a running sum and one more number.
fn plus(sum: i128, number: i64) -> i128
    requires { IsWithin (2 ^ 127 - 2 ^ 63) sum }
    ensures value { result ≡ sum +ℤ number }
    ensures bound { (i : ℕ) → IsWithin (2 ^ 63 * i) sum → IsWithin (2 ^ 63 * (i + 1)) result }
{
    sum + i128::from(number)
}

// The running sum with one more operand, where none was null or missing.
fn plus_operand(sum: Option<i128>, number: Option<i64>) -> Option<i128>
    requires { IfSome sum (λ s. IsWithin (2 ^ 127 - 2 ^ 63) s) }
    ensures value { result ≡ with_operand ◌+ℤ◌ sum number }
    ensures bound { (i : ℕ) → IfSome sum (λ s. IsWithin (2 ^ 63 * i) s) → IfSome result (λ s. IsWithin (2 ^ 63 * (i + 1)) s) }
{
    match (sum, number) {
        (Some(sum), Some(number)) => Some(plus(sum, number)),
        _ => None,
    }
}

// The sum of numbers and dates. It is exact for any number of operands: fewer than 2^64 numbers of 64 bits have one of
// 128 bits.
fn sum_of(args: &[Option<Value>]) -> Result<Option<i128>, EvalCode>
    ensures { result ≡ operand_map the_sum (all (map summand_in (founds args.now))) }
{
    let mut sum = Some(0);
    for operand in args {
        sum = plus_operand(sum, as_summand(operand)?);
    }
    Ok(sum)
}

/// `$add`: the exact sum of whole numbers and at most one date.
pub(crate) fn add(args: &[Option<Value>]) -> Result<Option<Value>, EvalError>
    ensures { Gives (option_map tree_of) result (add_row (founds args.now)) }
{
    let dates = dates_in(args);
    if dates > 1 {
        return Err(EvalError::Code(EvalCode::WrongType));
    }
    match sum_of(args)? {
        None => Ok(Some(Value::Null)),
        Some(sum) if dates == 1 => date(sum),
        Some(sum) => whole(all_ints(args), sum),
    }
}

fn difference(
    a: &Option<Value>,
    b: &Option<Value>,
    number: i128,
) -> Result<Option<Value>, EvalError>
    ensures { Gives (option_map tree_of) result (the_difference (option_map tree_of a.now) (option_map tree_of b.now) number) }
{
    match (is_date(a), is_date(b)) {
        (true, true) => long(number),
        (false, true) => Err(EvalError::Code(EvalCode::WrongType)),
        (true, false) => date(number),
        (false, false) => whole(is_int(a) && is_int(b), number),
    }
}

// The exact difference.
fn minus(from: i64, less: i64) -> i128
    ensures { result ≡ from -ℤ less }
{
    i128::from(from) - i128::from(less)
}

/// `$subtract`: the difference of two numbers, a date less a number, or the milliseconds between two dates.
pub(crate) fn subtract(args: &[Option<Value>]) -> Result<Option<Value>, EvalError>
    ensures { Gives (option_map tree_of) result (subtract_row (founds args.now)) }
{
    match args {
        [a, b] => match (as_summand(a)?, as_summand(b)?) {
            (Some(from), Some(less)) => difference(a, b, minus(from, less)),
            _ => Ok(Some(Value::Null)),
        },
        _ => Err(EvalError::Code(EvalCode::WrongType)),
    }
}

fn times(product: Result<i64, EvalCode>, number: i64) -> Result<i64, EvalCode>
    ensures { result ≡ the_times product number }
{
    match product?.checked_mul(number) {
        Some(product) => Ok(product),
        None => Err(EvalCode::Overflow),
    }
}

// The running product with one more number, where none of the operands was null or missing.
fn times_operand(
    product: Option<Result<i64, EvalCode>>,
    number: Option<i64>,
) -> Option<Result<i64, EvalCode>>
    ensures { result ≡ with_operand the_times product number }
{
    match (product, number) {
        (Some(product), Some(number)) => Some(times(product, number)),
        _ => None,
    }
}

// The product from the left, or `Overflow` where one on the way is beyond 64 bits.
fn product_of(args: &[Option<Value>]) -> Result<Option<Result<i64, EvalCode>>, EvalCode>
    ensures { result ≡ operand_map (fold the_times (Ok (pos 1))) (all (map whole_in (founds args.now))) }
{
    let mut product = Some(Ok(1));
    for i in 0..args.len() {
        product = times_operand(product, as_whole(&args[i])?);
    }
    Ok(product)
}

/// `$multiply`: the product of whole numbers, each running product from the left being within 64 bits.
pub(crate) fn multiply(args: &[Option<Value>]) -> Result<Option<Value>, EvalError>
    ensures { Gives (option_map tree_of) result (multiply_row (founds args.now)) }
{
    match product_of(args)? {
        None => Ok(Some(Value::Null)),
        Some(product) => whole(all_ints(args), i128::from(product?)),
    }
}

// The remainder, with the sign of the number.
fn rest_of(number: i64, divisor: i64) -> i128
    requires { divisor ≢ pos 0 }
    ensures { result ≡ int_rem number divisor }
{
    i128::from(number) % i128::from(divisor)
}

fn remainder(narrow: bool, number: i64, divisor: i64) -> Result<Option<Value>, EvalError>
    ensures { Gives (option_map tree_of) result (the_remainder narrow number divisor) }
{
    if divisor == 0 {
        return Err(EvalError::Code(EvalCode::ZeroDivisor));
    }
    whole(narrow, rest_of(number, divisor))
}

/// `$mod`: the remainder of two whole numbers, with the sign of the first.
pub(crate) fn modulo(args: &[Option<Value>]) -> Result<Option<Value>, EvalError>
    ensures { Gives (option_map tree_of) result (mod_row (founds args.now)) }
{
    match args {
        [a, b] => match (as_whole(a)?, as_whole(b)?) {
            (Some(number), Some(divisor)) => remainder(is_int(a) && is_int(b), number, divisor),
            _ => Ok(Some(Value::Null)),
        },
        _ => Err(EvalError::Code(EvalCode::WrongType)),
    }
}

/// `$abs`
pub(crate) fn abs(args: &[Option<Value>]) -> Result<Option<Value>, EvalError>
    ensures { Gives (option_map tree_of) result (abs_row (founds args.now)) }
{
    match args {
        [operand] => match as_whole(operand)? {
            Some(number) => whole(is_int(operand), i128::from(number.unsigned_abs())),
            None => Ok(Some(Value::Null)),
        },
        _ => Err(EvalError::Code(EvalCode::WrongType)),
    }
}
