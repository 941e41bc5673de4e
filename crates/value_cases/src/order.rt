//! The comparison order, by `compare` of `bson_value` and by the keys of `key_codec`.

use bson_value::{Bytes, Value, compare, compare_found};
use case_notation::{Item, is_case, read_items};
use key_codec::key_bytes;
use std::alloc::Global;
use std::rt::Files;
use std::{fs, io};

/// An item of the table, with the number of its line, a copy of its value unless that is missing, and its keys.
#[derive(Drop)]
struct Placed {
    line: usize,
    item: Item,
    copy: Option<Value>,
    rising: Bytes,
    falling: Bytes,
}

fn key(alloc: Global, value: Option<&Value>, falling: bool) -> Option<Bytes> {
    let mut key = Bytes::new(alloc);
    key_bytes(alloc, value, falling, &mut key).ok()?;
    Some(key)
}

fn place(alloc: Global, line: usize, item: Item) -> Option<Placed> {
    let copy = item.operand(alloc, b"missing")?;
    Some(Placed {
        line,
        item,
        rising: key(alloc, copy.as_ref(), false)?,
        falling: key(alloc, copy.as_ref(), true)?,
        copy,
    })
}

// Each value of the text. None where a line isn't one of values.
fn places(alloc: Global, text: &str) -> Option<Vec<Placed>> {
    let mut places = Vec::new(alloc);
    for (at, line) in text.lines().enumerate() {
        if is_case(line) {
            for item in read_items(alloc, line)? {
                places.push(place(alloc, at.wrapping_add(1), item)?).ok()?;
            }
        }
    }
    Some(places)
}

// Whether two compare as their lines, by their values and by their keys.
fn compare_well(a: &Placed, b: &Placed) -> bool {
    let wanted = a.line.cmp(&b.line);
    let by_value = match (a.item.value(), &b.copy) {
        (Some(a), Some(b)) => compare(a, b) == wanted,
        _ => true,
    };
    by_value
        && compare_found(a.copy.as_ref(), b.copy.as_ref()) == wanted
        && a.rising.bytes().cmp(b.rising.bytes()) == wanted
        && a.falling.bytes().cmp(b.falling.bytes()) == wanted.reverse()
}

/// Compares each two values of the file of that path, and prints how many there are, and which two compare otherwise than
/// their lines say.
pub(crate) fn check_order(
    rt: &(impl Files + Print + AllocGlobal),
    path: &str,
) -> Result<(), io::Error> {
    let text = fs::read_to_string(rt, path)?;
    let Some(places) = places(rt.alloc(), text.as_str()) else {
        return println!(rt; "{path}: a line has no values");
    };
    let mut different = 0usize;
    for a in &places {
        for b in &places {
            if !compare_well(a, b) {
                different = different.wrapping_add(1);
                println!(rt; "{path} lines {} and {}: compare otherwise", a.line, b.line)?;
            }
        }
    }
    println!(rt; "{path}: {} values, {different} differ", places.len())
}
