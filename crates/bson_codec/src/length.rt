//! How long a spelling is, found without writing it.

ghost use Rattle.std.specs.Prelude.{◌≡◌, ◌+◌, ◌<◌, ◌^◌, length};
ghost use Rattle.bson_value.specs.Tree.{pairs_of, trees_of};
ghost use Rattle.bson_value.specs.View.{tree_of};
ghost use Rattle.bson_codec.specs.Spelling.{tree_bytes, pairs_bytes, trees_bytes, framed, spelling};
ghost use Rattle.bson_codec.specs.Writing.{less, capped};

use bson_value::{Doc, List, Value};
use itoa::Buffer;

// What is left of the room where so many bytes are taken.
fn take(room: u64, len: u64) -> Option<u64>
    ensures { result ≡ less room len }
{
    if len <= room { Some(room - len) } else { None }
}

#[cycle(measure)]
fn take_value(room: u64, value: &Value) -> Option<u64>
    ensures { result ≡ less room (length (tree_bytes (tree_of value.now))) }
{
    match value {
        Value::Least | Value::Null | Value::Greatest => Some(room),
        Value::Int(_) => take(room, 4),
        Value::Long(_) | Value::Date(_) | Value::Stamp(_) => take(room, 8),
        Value::Text(text) => take(take(room, text.bytes().len() as u64)?, 5),
        Value::Doc(doc) => take_doc(room, doc),
        Value::List(list) => take_list(room, list),
        Value::Bin(_, bytes) => take(take(room, bytes.bytes().len() as u64)?, 5),
        Value::Id(id) => take(room, id.as_slice().len() as u64),
        Value::Flag(_) => take(room, 1),
    }
}

// An element's type byte, name, byte 0 and value.
#[cycle(measure)]
fn take_element(room: u64, name: &[u8], value: &Value) -> Option<u64>
    ensures { result ≡ less room (length name.now + 2 + length (tree_bytes (tree_of value.now))) }
{
    let room = take(room, name.len() as u64)?;
    let room = take(room, 2)?;
    take_value(room, value)
}

#[cycle(measure)]
fn take_doc(room: u64, doc: &Doc) -> Option<u64>
    ensures { result ≡ less room (length (framed (pairs_bytes (pairs_of doc.now)))) }
{
    let mut left = take(room, 5)?;
    for i in 0..doc.len() {
        left = take_element(left, doc.name(i), doc.value(i))?;
    }
    Some(left)
}

#[cycle(measure)]
fn take_list(room: u64, list: &List) -> Option<u64>
    ensures { result ≡ less room (length (framed (trees_bytes 0 (trees_of list.now)))) }
{
    let mut left = take(room, 5)?;
    for i in 0..list.len() {
        let mut name = Buffer::new();
        left = take_element(left, name.format(i).as_bytes(), list.value(i))?;
    }
    Some(left)
}

/// How many bytes the spelling of the document has, where these are at most `cap`. It takes no memory, and stops
/// as soon as the cap is passed.
pub fn encoded_len(doc: &Doc, cap: u64) -> Option<u64>
    ensures { result ≡ capped cap (length (spelling doc.now)) }
{
    let left = take_doc(cap, doc)?;
    Some(cap - left)
}
