//! The bytes of one part of a key.

ghost use Rattle.std.specs.Prelude.{◌≡◌, ◌++◌, ◌∷◌, [], ◌-◌, map, OnOk, OnErr};
ghost use Rattle.std.specs.Option.{option_map};
ghost use Rattle.bson_value.specs.Tree.{pairs_of, trees_of};
ghost use Rattle.bson_value.specs.View.{tree_of};
ghost use Rattle.key_codec.specs.Keyed.{tag, body_key, pairs_key, trees_key, found_key, part_key};
ghost use Rattle.key_codec.specs.Seen.{seen, seen_pairs, seen_trees, seen_part};

use crate::collation::Collation;
use crate::scalar::{put_binary, put_signed, put_text};
use bson_value::{Bytes, Doc, List, NoMemory, Value, class_of};
use std::alloc::Global;

// Stands for an empty array: above MinKey's tag and below that of null.
const EMPTY_ARRAY: u8 = 3;

// Stands after the last pair of a document, where it is less than every tag.
const PAIRS_END: u8 = 0;

// Stands after the last element of an array, where it is less than every tag.
const ELEMENTS_END: u8 = 0;

fn tag_of(value: &Value) -> u8
    ensures { result ≡ tag (tree_of value.now) }
{
    value.known();
    2 * class_of(value)
}

// What follows the tag.
#[cycle(key)]
fn put_body(out: &mut Vec<u8>, collation: Collation, value: &Value) -> Result<(), NoMemory>
    ensures { OnOk result (out.new.items ≡ out.old.items ++ body_key (seen collation (tree_of value.now))) }
{
    match value {
        Value::Least | Value::Null | Value::Greatest => Ok(()),
        Value::Int(number) => put_signed(out, i64::from(*number)),
        Value::Long(number) => put_signed(out, *number),
        Value::Text(text) => put_text(out, collation, text.bytes()),
        Value::Doc(doc) => put_pairs(out, collation, doc),
        Value::List(list) => put_members(out, collation, list),
        Value::Bin(subtype, bytes) => put_binary(out, *subtype, bytes.bytes()),
        Value::Id(id) => {
            out.extend_from_slice(id.as_slice())?;
            Ok(())
        }
        Value::Flag(flag) => {
            out.push(u8::from(*flag))?;
            Ok(())
        }
        Value::Date(number) => put_signed(out, *number),
        Value::Stamp(number) => {
            out.extend_from_slice(&number.to_be_bytes())?;
            Ok(())
        }
    }
}

// What stands before a pair's value: its tag, and the name up to a byte 0, which no name holds.
fn put_head(out: &mut Vec<u8>, tag: u8, name: &[u8]) -> Result<(), NoMemory>
    ensures { OnOk result (out.new.items ≡ out.old.items ++ tag ∷ (name.now ++ 0 ∷ [])) }
{
    out.push(tag)?;
    out.extend_from_slice(name)?;
    out.push(0)?;
    Ok(())
}

#[cycle(key)]
fn put_pairs(out: &mut Vec<u8>, collation: Collation, doc: &Doc) -> Result<(), NoMemory>
    ensures { OnOk result (out.new.items ≡ out.old.items ++ pairs_key (seen_pairs collation (pairs_of doc.now))) }
{
    for i in 0..doc.len() {
        let value = doc.value(i);
        put_head(out, tag_of(value), doc.name(i))?;
        put_body(out, collation, value)?;
    }
    out.push(PAIRS_END)?;
    Ok(())
}

#[cycle(key)]
fn put_members(out: &mut Vec<u8>, collation: Collation, list: &List) -> Result<(), NoMemory>
    ensures { OnOk result (out.new.items ≡ out.old.items ++ trees_key (seen_trees collation (trees_of list.now))) }
{
    for i in 0..list.len() {
        let value = list.value(i);
        out.push(tag_of(value))?;
        put_body(out, collation, value)?;
    }
    out.push(ELEMENTS_END)?;
    Ok(())
}

// A part in rising order.
#[tactic(auto, unfolding(crate::specs::Keyed::found_key))]
fn put_found(out: &mut Vec<u8>, collation: Collation, value: Option<&Value>) -> Result<(), NoMemory>
    ensures { let found = option_map (λ v. seen collation (tree_of v.now)) value.entry in
        OnOk result (out.new.items ≡ out.old.items ++ found_key found) }
{
    match value {
        None => {
            out.push(EMPTY_ARRAY)?;
            Ok(())
        }
        Some(value) => {
            out.push(tag_of(value))?;
            put_body(out, collation, value)
        }
    }
}

// From rising to falling order.
fn turn(bytes: &mut Vec<u8>)
    ensures { bytes.new.items ≡ map (λ b. 255 - b) bytes.old.items }
{
    for b in bytes.iter_mut() {
        *b = 255 - *b;
    }
}

// The part is made beside `out` and added in one step, so that a refusal changes nothing.
#[tactic(auto, unfolding(crate::specs::Keyed::part_key))]
fn put_part(
    alloc: Global,
    value: Option<&Value>,
    falling: bool,
    collation: Collation,
    out: &mut Bytes,
) -> Result<(), NoMemory>
    ensures ok { let found = option_map (λ v. tree_of v.now) value.entry in
        OnOk result (out.new ≡ out.old ++ part_key (seen_part collation (falling, found))) }
    ensures err { OnErr result (out.new ≡ out.old) }
{
    // Numbers, dates and most texts fit into this room.
    let mut part = Vec::with_capacity(alloc, 64)?;
    put_found(&mut part, collation, value)?;
    if falling {
        turn(&mut part);
    }
    out.add(part.as_slice())
}

/// Appends one part of a key: the value, or for None the mark of an empty array, in rising or falling order.
///
/// Keys are compared by their plain bytes ([`keys_are_ordered`](crate::keys_are_ordered)). The work is linear in
/// the size of the value. The one error is want of memory; `out` is then as before.
pub fn key_bytes(
    alloc: Global,
    value: Option<&Value>,
    falling: bool,
    out: &mut Bytes,
) -> Result<(), NoMemory>
    ensures ok { let found = option_map (λ v. tree_of v.now) value.entry in
        OnOk result (out.new ≡ out.old ++ part_key (falling, found)) }
    ensures err { OnErr result (out.new ≡ out.old) }
{
    put_part(alloc, value, falling, Collation::Simple, out)
}
