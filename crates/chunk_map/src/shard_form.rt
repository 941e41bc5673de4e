//! Shards in a cluster file.

ghost use Rattle.std.specs.Prelude.{◌≡◌, ◌≤◌, ◌++◌, ◌∷◌, [], length, option_map, option_and_then, IfOk, IfSome, OnOk, vec_len};
ghost use Rattle.bson_value.specs.View.{tree_of};
ghost use Rattle.chunk_map.specs.Form.{shard_in, shard_of, only_shard, shards_in, all_of, by_name, place_of};
ghost use Rattle.chunk_map.specs.Table.{shard_row};
ghost use Rattle.chunk_map.specs.Sound.{AreInOrder};

use crate::Shard;
use crate::fields::{doc_in, some_few, text_field};
use crate::names::{is_file_name, is_shard_name};
use bson_value::{Doc, List, NoMemory, Text, Value};
use std::alloc::Global;

// A shard's name and the name of its file.
pub type FoundShard<'a> = (&'a Text, &'a Text);

fn shard_in(doc: &Doc) -> Option<FoundShard<'_>>
    ensures { option_map (λ s. shard_row s.0.now s.1.now) result ≡ shard_in doc.now }
{
    if doc.len() != 2 {
        return None;
    }
    let Some(name) = text_field(doc, 0, b"name") else {
        return None;
    };
    let Some(file) = text_field(doc, 1, b"file") else {
        return None;
    };
    if is_shard_name(name.bytes()) && is_file_name(file.bytes()) {
        Some((name, file))
    } else {
        None
    }
}

#[tactic(auto, unfolding(crate::specs::Form::shard_of))]
fn shard_of(value: &Value) -> Option<FoundShard<'_>>
    ensures { option_map (λ s. shard_row s.0.now s.1.now) result ≡ shard_of (tree_of value.now) }
{
    match doc_in(value) {
        Some(doc) => shard_in(doc),
        None => None,
    }
}

/// The shard of a list that has one.
pub fn only_shard(list: &List) -> Option<FoundShard<'_>>
    ensures { option_map (λ s. shard_row s.0.now s.1.now) result ≡ only_shard list.now }
{
    if list.len() == 1 {
        shard_of(list.value(0))
    } else {
        None
    }
}

/// A shard of these names.
pub fn make_shard(alloc: Global, name: &Text, file: &Text) -> Result<Shard, NoMemory>
    ensures { IfOk result (λ s. s ≡ shard_row name.now file.now) }
{
    Ok(Shard::new(name.copy(alloc)?, file.copy(alloc)?))
}

fn read_each(alloc: Global, list: &List) -> Result<Option<Vec<Shard>>, NoMemory>
    ensures { IfOk result (λ o. option_map (λ v. v.items) o ≡ all_of shard_of list.now) }
{
    let mut shards = Vec::new(alloc);
    for i in 0..list.len() {
        let Some((name, file)) = shard_of(list.value(i)) else {
            return Ok(None);
        };
        shards.push(make_shard(alloc, name, file)?)?;
    }
    Ok(Some(shards))
}

/// The shards of a list, as they are listed.
#[tactic(auto, unfolding(crate::specs::Form::shards_in))]
pub fn read_shards(alloc: Global, list: &List) -> Result<Option<Vec<Shard>>, NoMemory>
    ensures { IfOk result (λ o. option_map (λ v. v.items) o ≡ shards_in list.now) }
{
    match some_few(64, list) {
        Some(list) => read_each(alloc, list),
        None => Ok(None),
    }
}

/// Puts the shards in the order of their names.
pub fn order_by_name(shards: &mut Vec<Shard>) -> Result<(), NoMemory>
    ensures items { OnOk result (shards.new.items ≡ by_name shards.old.items) }
    ensures order { OnOk result (AreInOrder shards.new.items) }
{
    match shards.sort_by(|a, b| a.name().bytes().cmp(b.name().bytes())) {
        Ok(()) => Ok(()),
        Err(_) => Err(NoMemory),
    }
}

/// The place of the shard of that name among shards in the order of their names; where none has it, their number.
pub fn place_of(shards: &[Shard], name: &[u8]) -> usize
    requires { AreInOrder shards.now }
    ensures { result ≡ place_of name.now shards.now }
{
    let place = shards.partition_point(|shard| shard.name().bytes().cmp(name).is_lt());
    if place < shards.len() && shards[place].name().bytes() == name {
        place
    } else {
        shards.len()
    }
}
