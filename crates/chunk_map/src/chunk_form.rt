//! Chunks in a cluster file.

ghost use Rattle.std.specs.Prelude.{◌≡◌, ◌≤◌, length, option_map, option_and_then, IfOk};
ghost use Rattle.bson_value.specs.View.{tree_of};
ghost use Rattle.chunk_map.specs.Form.{all_of, chunk_in, chunk_of, chunks_in, values_in, doc_at};
ghost use Rattle.chunk_map.specs.Sound.{AreInOrder};

use crate::fields::{doc_field, doc_in, some_few, text_field};
use crate::key_form::read_values;
use crate::names::is_shard_name;
use crate::shard_form::place_of;
use crate::{Chunk, Shard};
use bson_value::{Doc, List, NoMemory, Value};
use std::alloc::Global;

// The key in the field at that place.
fn key_at(
    alloc: Global,
    key: &Doc,
    doc: &Doc,
    place: usize,
    name: &[u8],
) -> Result<Option<List>, NoMemory>
    ensures { IfOk result (λ o. o ≡ option_and_then (values_in key.now) (doc_at place name.now doc.now)) }
{
    match doc_field(doc, place, name) {
        Some(found) => read_values(alloc, key, found),
        None => Ok(None),
    }
}

fn chunk_in(
    alloc: Global,
    key: &Doc,
    shards: &[Shard],
    doc: &Doc,
) -> Result<Option<Chunk>, NoMemory>
    requires order { AreInOrder shards.now }
    requires few { length shards.now ≤ 64 }
    ensures { IfOk result (λ o. o ≡ chunk_in key.now shards.now doc.now) }
{
    if doc.len() != 3 {
        return Ok(None);
    }
    let Some(min) = key_at(alloc, key, doc, 0, b"min")? else {
        return Ok(None);
    };
    let Some(max) = key_at(alloc, key, doc, 1, b"max")? else {
        return Ok(None);
    };
    let Some(name) = text_field(doc, 2, b"shard") else {
        return Ok(None);
    };
    if !is_shard_name(name.bytes()) {
        return Ok(None);
    }
    let shard = place_of(shards, name.bytes());
    Ok(Some(Chunk::new(min, max, shard as u32)))
}

#[tactic(auto, unfolding(crate::specs::Form::chunk_of))]
fn chunk_of(
    alloc: Global,
    key: &Doc,
    shards: &[Shard],
    value: &Value,
) -> Result<Option<Chunk>, NoMemory>
    requires order { AreInOrder shards.now }
    requires few { length shards.now ≤ 64 }
    ensures { IfOk result (λ o. o ≡ chunk_of key.now shards.now (tree_of value.now)) }
{
    match doc_in(value) {
        Some(doc) => chunk_in(alloc, key, shards, doc),
        None => Ok(None),
    }
}

fn read_each(
    alloc: Global,
    key: &Doc,
    shards: &[Shard],
    list: &List,
) -> Result<Option<Vec<Chunk>>, NoMemory>
    requires order { AreInOrder shards.now }
    requires few { length shards.now ≤ 64 }
    ensures { IfOk result (λ o. option_map (λ v. v.items) o ≡ all_of (chunk_of key.now shards.now) list.now) }
{
    let mut chunks = Vec::new(alloc);
    for i in 0..list.len() {
        let Some(chunk) = chunk_of(alloc, key, shards, list.value(i))? else {
            return Ok(None);
        };
        chunks.push(chunk)?;
    }
    Ok(Some(chunks))
}

/// The chunks of a list, on shards in the order of their names.
#[tactic(auto, unfolding(crate::specs::Form::chunks_in))]
pub fn read_chunks(
    alloc: Global,
    key: &Doc,
    shards: &[Shard],
    list: &List,
) -> Result<Option<Vec<Chunk>>, NoMemory>
    requires order { AreInOrder shards.now }
    requires few { length shards.now ≤ 64 }
    ensures { IfOk result (λ o. option_map (λ v. v.items) o ≡ chunks_in key.now shards.now list.now) }
{
    match some_few(10_000, list) {
        Some(list) => read_each(alloc, key, shards, list),
        None => Ok(None),
    }
}
