//! Paths into a wide document: one field set again and again, and the fields of many paths kept.

use bson_codec::decode;
use bson_value::{Doc, Path, Value};
use doc_path::{keep, set};
use std::alloc::Global;
use std::io;

/// Runs `how` of this case: `set` sets one field of a document of `fields` fields, `rounds` times; `keep` keeps the fields
/// of `fields` paths of a document of so many fields, `rounds` times.
pub fn run(
    rt: &impl Print,
    alloc: Global,
    how: &str,
    fields: u32,
    rounds: u32,
) -> Result<(), io::Error> {
    let sum = match how {
        "set" => set_often(alloc, fields, rounds),
        "keep" => keep_often(alloc, fields, rounds),
        _ => None,
    };
    match sum {
        Some(sum) => println!(rt; "{sum}"),
        None => println!(rt; "usage: engine_bench paths set|keep FIELDS ROUNDS"),
    }
}

// A document of so many fields, each with its place as its value.
fn wide(alloc: Global, fields: u32) -> Option<Doc> {
    let mut bytes = Vec::new(alloc);
    let len = fields.wrapping_mul(14).wrapping_add(5);
    bytes.extend_from_slice(&len.to_le_bytes()).ok()?;
    for place in 0..fields {
        let name = format!(in alloc; "f{place:07}").ok()?;
        bytes.push(0x10).ok()?;
        bytes.extend_from_slice(name.as_bytes()).ok()?;
        bytes.push(0).ok()?;
        bytes.extend_from_slice(&place.to_le_bytes()).ok()?;
    }
    bytes.push(0).ok()?;
    let (doc, _end) = decode(alloc, bytes.as_slice(), 0).ok()?;
    Some(doc)
}

fn path_to(alloc: Global, place: u32) -> Option<Path> {
    let text = format!(in alloc; "f{place:07}").ok()?;
    Path::read(alloc, text.as_bytes()).ok()
}

fn sum_of(doc: &Doc) -> u64 {
    let mut sum = 0u64;
    for i in 0..doc.len() {
        if let Value::Int(n) = doc.value(i) {
            sum = sum
                .wrapping_mul(31)
                .wrapping_add(u64::from((*n).unsigned_abs()));
        }
    }
    sum
}

fn set_often(alloc: Global, fields: u32, rounds: u32) -> Option<u64> {
    let mut doc = wide(alloc, fields)?;
    let fields = fields.max(1);
    for round in 0..rounds {
        let path = path_to(alloc, round.wrapping_mul(7919) % fields)?;
        doc = set(alloc, doc, &path, Some(Value::Flag(true))).ok()?;
    }
    Some(sum_of(&doc))
}

fn keep_often(alloc: Global, fields: u32, rounds: u32) -> Option<u64> {
    let doc = wide(alloc, fields)?;
    let mut paths = Vec::new(alloc);
    for place in 0..fields {
        paths
            .push(path_to(alloc, place.wrapping_mul(7919) % fields)?)
            .ok()?;
    }
    let mut sum = 0u64;
    for _ in 0..rounds {
        let kept = keep(alloc, doc.copy(alloc).ok()?, paths.as_slice()).ok()?;
        sum = sum.wrapping_mul(31).wrapping_add(sum_of(&kept));
    }
    Some(sum)
}
