//! Sets of two arrays of numbers.

use bson_value::{List, Op, Value};
use std::alloc::Global;
use std::io;
use value_ops::apply;

/// Makes two arrays of `count` numbers, gives them to a set operator `rounds` times, and prints how many members the
/// last set has and a number that they give.
pub fn run(
    rt: &impl Print,
    alloc: Global,
    operator: &str,
    count: u32,
    rounds: u32,
) -> Result<(), io::Error> {
    match digest_of_last(alloc, operator_named(operator), count, rounds) {
        Some((len, sum)) => println!(rt; "{len} {sum}"),
        None => println!(rt; "no memory"),
    }
}

fn operator_named(word: &str) -> Op {
    match word {
        "union" => Op::SetUnion,
        "intersection" => Op::SetIntersection,
        _ => Op::SetDifference,
    }
}

fn numbers(alloc: Global, count: u32, first: u64) -> Option<List> {
    let mut list = List::new(alloc);
    let mut state = first;
    let range = u64::from(count) * 2 + 1;
    for place in 0..count {
        state = state
            .wrapping_mul(6364136223846793005)
            .wrapping_add(1442695040888963407);
        let number = i64::try_from((state >> 33) % range).ok()?;
        list.add(number_as(number, place % 2 == 0)).ok()?;
    }
    Some(list)
}

fn number_as(number: i64, narrow: bool) -> Value {
    match i32::try_from(number) {
        Ok(int) => {
            if narrow {
                Value::Int(int)
            } else {
                Value::Long(number)
            }
        }
        Err(_) => Value::Long(number),
    }
}

fn number_in(value: &Value) -> u64 {
    match value {
        Value::Int(number) => i64::from(*number).cast_unsigned(),
        Value::Long(number) => number.cast_unsigned(),
        _ => 0,
    }
}

fn digest_of_last(alloc: Global, operator: Op, count: u32, rounds: u32) -> Option<(usize, u64)> {
    let mut args = Vec::new(alloc);
    args.push(Some(Value::List(numbers(alloc, count, 7)?)))
        .ok()?;
    args.push(Some(Value::List(numbers(alloc, count, 11)?)))
        .ok()?;
    let mut last = None;
    for _ in 0..rounds {
        last = digest_of(&apply(alloc, operator, args.as_slice()).ok()?);
    }
    last
}

fn digest_of(value: &Option<Value>) -> Option<(usize, u64)> {
    match value {
        Some(Value::List(list)) => {
            let mut sum = 0u64;
            for place in 0..list.len() {
                sum = sum
                    .wrapping_mul(31)
                    .wrapping_add(number_in(list.value(place)));
            }
            Some((list.len(), sum))
        }
        _ => None,
    }
}
