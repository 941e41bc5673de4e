//! Collections in a cluster file.

ghost use Rattle.std.specs.Prelude.{◌≡◌, ◌≤◌, length, IfOk, IfSome, option_map, option_and_then, codes};
ghost use Rattle.bson_value.specs.View.{tree_of};
ghost use Rattle.chunk_map.specs.Form.{by_name, shards_in, chunks_in, list_at, unsharded_in, sharded_in, collection_in, collection_of};
ghost use Rattle.chunk_map.specs.Sound.{AreInOrder};

use crate::chunk_form::read_chunks;
use crate::fields::{doc_field, doc_in, list_field, text_field};
use crate::key_form::read_paths;
use crate::names::is_collection_name;
use crate::shard_form::{make_shard, only_shard, order_by_name, read_shards};
use crate::written::Written;
use crate::{Chunk, Shard};
use bson_value::{Doc, NoMemory, Value};
use std::alloc::Global;

#[tactic(auto, unfolding(crate::specs::Form::unsharded_in))]
fn unsharded_in(alloc: Global, doc: &Doc) -> Result<Option<Written>, NoMemory>
    ensures { IfOk result (λ o. o ≡ unsharded_in doc.now) }
{
    let Some(name) = text_field(doc, 0, b"name") else {
        return Ok(None);
    };
    let Some(list) = list_field(doc, 1, b"shards") else {
        return Ok(None);
    };
    let Some((shard, file)) = only_shard(list) else {
        return Ok(None);
    };
    if !is_collection_name(name.bytes()) {
        return Ok(None);
    }
    let shard = make_shard(alloc, shard, file)?;
    Ok(Some(Written::unsharded(alloc, name.copy(alloc)?, shard)?))
}

// The shards of a collection, in the order of their names.
fn shards_at(alloc: Global, doc: &Doc) -> Result<Option<Vec<Shard>>, NoMemory>
    ensures shards { IfOk result (λ o. option_map (λ v. v.items) o ≡ option_map by_name (option_and_then shards_in (list_at 2 (codes "shards") doc.now))) }
    ensures order { IfOk result (λ o. IfSome o (λ v. AreInOrder v.items)) }
{
    let Some(list) = list_field(doc, 2, b"shards") else {
        return Ok(None);
    };
    let Some(mut shards) = read_shards(alloc, list)? else {
        return Ok(None);
    };
    order_by_name(&mut shards)?;
    Ok(Some(shards))
}

fn chunks_at(
    alloc: Global,
    key: &Doc,
    shards: &[Shard],
    doc: &Doc,
) -> Result<Option<Vec<Chunk>>, NoMemory>
    requires order { AreInOrder shards.now }
    requires few { length shards.now ≤ 64 }
    ensures { IfOk result (λ o. option_map (λ v. v.items) o ≡ option_and_then (chunks_in key.now shards.now) (list_at 3 (codes "chunks") doc.now)) }
{
    match list_field(doc, 3, b"chunks") {
        Some(list) => read_chunks(alloc, key, shards, list),
        None => Ok(None),
    }
}

#[tactic(auto, unfolding(crate::specs::Form::sharded_in))]
fn sharded_in(alloc: Global, doc: &Doc) -> Result<Option<Written>, NoMemory>
    ensures { IfOk result (λ o. o ≡ sharded_in doc.now) }
{
    let Some(name) = text_field(doc, 0, b"name") else {
        return Ok(None);
    };
    let Some(key) = doc_field(doc, 1, b"key") else {
        return Ok(None);
    };
    let Some(paths) = read_paths(alloc, key)? else {
        return Ok(None);
    };
    let Some(shards) = shards_at(alloc, doc)? else {
        return Ok(None);
    };
    let Some(chunks) = chunks_at(alloc, key, shards.as_slice(), doc)? else {
        return Ok(None);
    };
    if !is_collection_name(name.bytes()) {
        return Ok(None);
    }
    Ok(Some(Written::sharded(name.copy(alloc)?, paths, shards, chunks)))
}

fn collection_in(alloc: Global, doc: &Doc) -> Result<Option<Written>, NoMemory>
    ensures { IfOk result (λ o. o ≡ collection_in doc.now) }
{
    match doc.len() {
        2 => unsharded_in(alloc, doc),
        4 => sharded_in(alloc, doc),
        _ => Ok(None),
    }
}

/// The collection that a value spells.
#[tactic(auto, unfolding(crate::specs::Form::collection_of))]
pub fn read_collection(alloc: Global, value: &Value) -> Result<Option<Written>, NoMemory>
    ensures { IfOk result (λ o. o ≡ collection_of (tree_of value.now)) }
{
    match doc_in(value) {
        Some(doc) => collection_in(alloc, doc),
        None => Ok(None),
    }
}
