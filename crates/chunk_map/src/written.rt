ghost use Rattle.std.specs.Prelude.{◌≡◌, IfOk};

use crate::{Chunk, Collection, Shard};
use bson_value::{NoMemory, Path, Text};
use std::alloc::Global;
use std::marker::Model;

// A collection as a cluster file has it: it has the shape of one, and nothing else is known of it.
#[derive(Debug, Drop)]
pub struct Written {
    name: Text,
    key_paths: Vec<Path>,
    shards: Vec<Shard>,
    chunks: Vec<Chunk>,
}

impl Model for Written {
    ghost use Rattle.chunk_map.specs.Table.{CollectionRow};
    ghost use Rattle.chunk_map.specs.Code.{collection_code};

    ghost Value = { CollectionRow };

    ghost coded = { collection_code };

    ghost use Rattle.chunk_map.specs.Sound.{IsShaped};

    ghost view = { λ c. record { name = c.name; key_paths = c.key_paths.items; shards = c.shards.items; chunks = c.chunks.items } };

    ghost invariant = { λ c. IsShaped (record { name = c.name; key_paths = c.key_paths.items; shards = c.shards.items; chunks = c.chunks.items }) };
}

impl Written {
    ghost use Rattle.std.specs.Prelude.{length, None, []};
    ghost use Rattle.chunk_map.specs.Table.{unsharded, sharded};
    ghost use Rattle.chunk_map.specs.Sound.{IsShaped, IsSharded, AreGood};

    // A collection that isn't sharded.
    pub fn unsharded(alloc: Global, name: Text, shard: Shard) -> Result<Written, NoMemory>
        ensures { IfOk result (λ c. c ≡ unsharded name shard) }
    {
        let mut shards = Vec::new(alloc);
        shards.push(shard)?;
        Ok(Written {
            name,
            key_paths: Vec::new(alloc),
            shards,
            chunks: Vec::new(alloc),
        })
    }

    // A collection that is sharded.
    pub fn sharded(
        name: Text,
        key_paths: Vec<Path>,
        shards: Vec<Shard>,
        chunks: Vec<Chunk>,
    ) -> Written
        requires { IsSharded (sharded name key_paths.items shards.items chunks.items) }
        ensures { result ≡ sharded name key_paths.items shards.items chunks.items }
    {
        Written {
            name,
            key_paths,
            shards,
            chunks,
        }
    }

    // What holds of each. It does nothing.
    pub fn known(&self)
        ensures { IsShaped self.now }
    {
        let _name = &self.name;
    }

    pub fn name(&self) -> &[u8]
        ensures { result.now ≡ self.now.name }
    {
        self.name.bytes()
    }

    pub fn shards(&self) -> &[Shard]
        ensures { result.now ≡ self.now.shards }
    {
        self.shards.as_slice()
    }

    pub fn chunks(&self) -> &[Chunk]
        ensures { result.now ≡ self.now.chunks }
    {
        self.chunks.as_slice()
    }

    // The collection, of which nothing is wrong.
    pub fn into_collection(self) -> Collection
        requires { AreGood (length self.shards) None self.chunks [] }
        ensures { result ≡ self }
    {
        Collection::new(self.name, self.key_paths, self.shards, self.chunks)
    }
}
