//! What a cluster file stands for, whoever reads it. Each function here does nothing: it is its contract.

ghost use Rattle.std.specs.Prelude.{◌≡◌, ◌↔◌, Ok, Err, length};
ghost use Rattle.std.specs.List.{flat_map, range_with_len};
ghost use Rattle.chunk_map.specs.Form.{table};
ghost use Rattle.chunk_map.specs.Owned.{Files, owned, part};
ghost use Rattle.chunk_map.specs.Sound.{HaveOneChunk};
ghost use Rattle.chunk_map.specs.Spelled.{IsCluster, IsRefused};
ghost use Rattle.chunk_map.specs.Table.{CollectionRow, Table};
ghost use Rattle.chunk_map.specs.declared.errors.BadCluster.{BadCluster};

use crate::Collection;

/// A cluster file stands for a routing table exactly where it is the document that spells the table, and is refused
/// by the first refusal exactly where that is so.
pub fn cluster_is(bytes: &[u8])
    ensures good { (cs : Table) → (table bytes.now ≡ Ok cs) ↔ IsCluster bytes.now cs }
    ensures bad { (b : BadCluster) → (table bytes.now ≡ Err b) ↔ IsRefused bytes.now b }
{
    let _bytes = bytes;
}

/// Each key of a sharded collection lies in one chunk and no other, and this chunk tells the key's shard.
pub fn has_one_chunk(collection: &Collection)
    ensures { HaveOneChunk collection.now }
{
    collection.known();
}

/// What a collection owns are its shards' parts, one after another.
pub fn owned_by_shard()
    ensures { (files : Files) (c : CollectionRow) → owned files c ≡ flat_map (part files c) (range_with_len 0 (length c.shards)) }
{}
