ghost use Rattle.std.specs.Prelude.{◌≡◌, ◌<◌, ◌≤◌, Some, IfOk, IfErr, length};

use crate::key::key_of;
use crate::{Chunk, Key, Shard};
use bson_value::{Doc, Path, Text};
use std::marker::Model;

/// A collection of a cluster.
#[derive(Debug, Drop)]
pub struct Collection {
    name: Text,
    key_paths: Vec<Path>,
    shards: Vec<Shard>,
    chunks: Vec<Chunk>,
}

impl Model for Collection {
    ghost use Rattle.chunk_map.specs.Table.{CollectionRow};
    ghost use Rattle.chunk_map.specs.Code.{collection_code};

    ghost Value = { CollectionRow };

    ghost coded = { collection_code };

    ghost use Rattle.chunk_map.specs.Sound.{IsSound};

    ghost view = { λ c. record { name = c.name; key_paths = c.key_paths.items; shards = c.shards.items; chunks = c.chunks.items } };

    ghost invariant = { λ c. IsSound (record { name = c.name; key_paths = c.key_paths.items; shards = c.shards.items; chunks = c.chunks.items }) };
}

impl Collection {
    ghost use Rattle.chunk_map.specs.Table.{sharded};
    ghost use Rattle.chunk_map.specs.Sound.{AreInOrder, IsSound};
    ghost use Rattle.chunk_map.specs.Keys.{key_of, shard_of_key};
    ghost use Rattle.chunk_map.specs.Owned.{owns};

    pub(crate) fn new(
        name: Text,
        key_paths: Vec<Path>,
        shards: Vec<Shard>,
        chunks: Vec<Chunk>,
    ) -> Collection
        requires { IsSound (sharded name key_paths.items shards.items chunks.items) }
        ensures { result ≡ sharded name key_paths.items shards.items chunks.items }
    {
        Collection {
            name,
            key_paths,
            shards,
            chunks,
        }
    }

    /// What holds of each collection. It does nothing.
    pub fn known(&self)
        ensures { IsSound self.now }
    {
        let _name = &self.name;
    }

    /// Its name.
    pub fn name(&self) -> &Text
        ensures { result.now ≡ self.now.name }
    {
        &self.name
    }

    /// The paths of its key, none where it isn't sharded.
    pub fn key_paths(&self) -> &[Path]
        ensures { result.now ≡ self.now.key_paths }
    {
        self.key_paths.as_slice()
    }

    /// Its shards, in the order of their names, 64 at most.
    pub fn shards(&self) -> &[Shard]
        ensures all { result.now ≡ self.now.shards }
        ensures few { length result.now ≤ 64 }
        ensures order { AreInOrder result.now }
    {
        self.shards.as_slice()
    }

    /// Its chunks as they are listed, none where it isn't sharded.
    pub fn chunks(&self) -> &[Chunk]
        ensures { result.now ≡ self.now.chunks }
    {
        self.chunks.as_slice()
    }

    /// The key of a document: the values of the key's paths, borrowed, a missing one counting as null (the manual,
    /// Missing Shard Key Fields). It is refused with the least part, counted from 1, whose path meets an array.
    pub fn key_of<'a>(&self, doc: &'a Doc) -> Result<Key<'a>, usize>
        ensures key { result ≡ key_of self.now.key_paths doc.now }
        ensures parts { IfOk result (λ key. length key ≡ length self.now.key_paths) }
        ensures part { IfErr result (λ part. (1 ≤ part) × (part ≤ length self.now.key_paths)) }
    {
        self.known();
        key_of(self.key_paths(), doc)
    }

    /// The shard that owns the documents with this key: its place in the order of names. It is found by a binary
    /// search among the chunks.
    pub fn shard_of(&self, key: &Key<'_>) -> u32
        requires sharded { 0 < length self.now.key_paths }
        requires parts { length key.now ≡ length self.now.key_paths }
        ensures shard { shard_of_key key.now self.now.chunks ≡ Some result }
        ensures within { result < length self.now.shards }
    {
        self.known();
        let chunks = self.chunks();
        let head = key.head();
        let place = chunks.partition_point(|chunk| !chunk.compare_max(key, &head).is_lt());
        chunks[place.min(chunks.len() - 1)].shard()
    }

    /// Whether the shard of that place owns the document: the one that has its key, or the only one of a collection
    /// that isn't sharded.
    pub fn owns(&self, shard: u32, doc: &Doc) -> bool
        ensures { result ≡ owns self.now shard doc.now }
    {
        if self.key_paths().is_empty() {
            return true;
        }
        match self.key_of(doc) {
            Ok(key) => self.shard_of(&key) == shard,
            Err(_) => false,
        }
    }
}
