//! How deep a value each call takes on the stack: a list within a list, and so on.

use bson_value::{List, Value, compare, depth_of};
use std::alloc::Global;
use std::cmp::Ordering;
use std::io;

fn nested(alloc: Global, levels: u32) -> Option<Value> {
    let mut value = Value::Null;
    for _ in 0..levels {
        let mut list = List::new(alloc);
        list.add(value).ok()?;
        value = Value::List(list);
    }
    Some(value)
}

/// Makes a value of so many levels, makes the call `what` with it (`compare`, `copy` or `depth`; any other word none),
/// and drops it.
pub fn run(rt: &impl Print, alloc: Global, what: &str, levels: u32) -> Result<(), io::Error> {
    let (Some(value), Some(other)) = (nested(alloc, levels), nested(alloc, levels)) else {
        return println!(rt; "no memory");
    };
    let done = match what {
        "compare" => compare(&value, &other) == Ordering::Equal,
        "copy" => value.copy(alloc).is_ok(),
        "depth" => depth_of(&value, u32::MAX).is_some(),
        _ => true,
    };
    println!(rt; "{what} {levels} {done}")
}
