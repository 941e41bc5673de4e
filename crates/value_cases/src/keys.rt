//! Keys of `key_codec`: `bytes up 1 -> 0x068101`.

use bson_value::{Bytes, Value};
use case_notation::{Item, Table};
use key_codec::key_bytes;
use std::alloc::Global;
use std::cmp::Ordering;

/// The table of keys.
pub(crate) struct Keys;

fn falls(direction: &[u8]) -> Option<bool> {
    match direction {
        b"up" => Some(false),
        b"down" => Some(true),
        _ => None,
    }
}

// The key of parts that have their direction before them.
fn key(alloc: Global, items: &[Item]) -> Option<Bytes> {
    let mut key = Bytes::new(alloc);
    for pair in items.chunks(2) {
        let [direction, part] = pair else {
            return None;
        };
        let part = part.operand(alloc, b"empty")?;
        key_bytes(alloc, part.as_ref(), falls(direction.word()?)?, &mut key).ok()?;
    }
    Some(key)
}

fn ordering(alloc: Global, ordering: Ordering) -> Option<Item> {
    match ordering {
        Ordering::Less => Item::of_word(alloc, "less"),
        Ordering::Equal => Item::of_word(alloc, "equal"),
        Ordering::Greater => Item::of_word(alloc, "greater"),
    }
}

fn is_against(item: &Item) -> bool {
    matches!(item.word(), Some(b"against"))
}

// How the bytes of two keys stand to each other.
fn order(alloc: Global, items: &[Item]) -> Option<Ordering> {
    let at = items.iter().position(is_against)?;
    let first = key(alloc, items.get(..at)?)?;
    let second = key(alloc, items.get(at.checked_add(1)?..)?)?;
    Some(first.bytes().cmp(second.bytes()))
}

impl Table for Keys {
    fn answer(&self, alloc: Global, question: &[Item]) -> Option<Vec<Item>> {
        let [call, items @ ..] = question else {
            return None;
        };
        match call.word()? {
            b"bytes" => Item::Value(Value::Bin(0, key(alloc, items)?)).alone(alloc),
            b"order" => ordering(alloc, order(alloc, items)?)?.alone(alloc),
            _ => None,
        }
    }
}
