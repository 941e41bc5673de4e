//! `$range` (the manual, Array Expression Operators).

ghost use Rattle.std.specs.Prelude.{◌≡◌, ◌≢◌, ◌≤◌, pos, ◌+ℤ◌, ◌*ℤ◌, FitsSigned, IfOk, MatchResult, Some};
ghost use Rattle.std.specs.Int.{w32, int_gap};
ghost use Rattle.std.specs.Option.{option_map};
ghost use Rattle.bson_value.specs.View.{tree_of, founds};
ghost use Rattle.bson_value.specs.Gives.{Gives};
ghost use Rattle.bson_value.specs.ArrayRows.{range_row, range_of as the_range, steps_between as the_steps, numbers_from, edge_in};

use bson_value::{EvalCode, EvalError, List, NoMemory, Value};
use std::alloc::Global;
use value_sets::as_whole;

/// A range has at most so many items.
const MOST: u64 = 1_048_576;

// A whole number within an Int; null, missing and every other operand are `WrongType`.
fn edge(operand: &Option<Value>) -> Result<i32, EvalCode>
    ensures { MatchResult result (λ n. edge_in (option_map tree_of operand.now) ≡ Ok (Some n)) (λ c. edge_in (option_map tree_of operand.now) ≡ Err c) }
{
    match as_whole(operand)? {
        Some(number) if -2_147_483_648 <= number && number <= 2_147_483_647 => Ok(number as i32),
        _ => Err(EvalCode::WrongType),
    }
}

// How far the second number is above the first.
fn gap(low: i32, high: i32) -> u64
    ensures { result ≡ int_gap low high }
{
    (i64::from(high) - i64::from(low)).max(0) as u64
}

// The number of steps from the start on that stay before the end.
fn steps_between(start: i32, end: i32, step: i32) -> u64
    requires { step ≢ pos 0 }
    ensures { result ≡ the_steps start end step }
{
    let distance = if step > 0 {
        gap(start, end)
    } else {
        gap(end, start)
    };
    distance.div_ceil(u64::from(step.unsigned_abs()))
}

// The number after so many steps.
fn number_at(start: i32, step: i32, steps: u64) -> i32
    requires few { steps ≤ 1_048_576 }
    requires fits { FitsSigned w32 (start +ℤ pos steps *ℤ step) }
    ensures { result ≡ start +ℤ pos steps *ℤ step }
{
    (i64::from(start) + steps as i64 * i64::from(step)) as i32
}

fn numbers(alloc: Global, start: i32, end: i32, step: i32, count: u64) -> Result<List, NoMemory>
    requires step { step ≢ pos 0 }
    requires few { count ≤ 1_048_576 }
    requires count { count ≡ the_steps start end step }
    ensures { IfOk result (λ l. l ≡ numbers_from start step count) }
{
    let mut numbers = List::new(alloc);
    for steps in 0..count {
        numbers.add(Value::Int(number_at(start, step, steps)))?;
    }
    Ok(numbers)
}

fn range_of(alloc: Global, start: i32, end: i32, step: i32) -> Result<Option<Value>, EvalError>
    ensures { Gives (option_map tree_of) result (the_range start end step) }
{
    if step == 0 {
        return Err(EvalError::Code(EvalCode::BadCount));
    }
    let count = steps_between(start, end, step);
    if count > MOST {
        return Err(EvalError::Code(EvalCode::RangeTooLong));
    }
    Ok(Some(Value::List(numbers(alloc, start, end, step, count)?)))
}

/// `$range`: the Ints from a start by steps of 1 or of a third operand, up to an end that is left out.
pub(crate) fn range(alloc: Global, args: &[Option<Value>]) -> Result<Option<Value>, EvalError>
    ensures { Gives (option_map tree_of) result (range_row (founds args.now)) }
{
    match args {
        [start, end] => range_of(alloc, edge(start)?, edge(end)?, 1),
        [start, end, step] => range_of(alloc, edge(start)?, edge(end)?, edge(step)?),
        _ => Err(EvalError::Code(EvalCode::WrongType)),
    }
}
