ghost use Rattle.std.specs.Prelude.{◌≡◌};

use crate::Key;
use crate::head::Head;
use bson_value::List;
use std::cmp::Ordering;
use std::marker::Model;

/// A range of keys of a collection, and the shard that owns the documents with a key in it.
#[derive(Debug, Drop)]
pub struct Chunk {
    min: List,
    max: List,
    shard: u32,
    // the head of `max`
    head: Head,
}

impl Model for Chunk {
    ghost use Rattle.chunk_map.specs.Table.{ChunkRow};
    ghost use Rattle.chunk_map.specs.Code.{chunk_code};

    ghost Value = { ChunkRow };

    ghost coded = { chunk_code };

    ghost view = { λ c. record { lowest = c.min; bound = c.max; shard = c.shard } };

    ghost use Rattle.std.specs.Prelude.{◌≡◌};
    ghost use Rattle.chunk_map.specs.Heads.{key_head};

    ghost invariant = { λ c. c.head ≡ key_head c.max };
}

impl Chunk {
    ghost use Rattle.chunk_map.specs.Table.{chunk_row};
    ghost use Rattle.chunk_map.specs.Keys.{key_order};
    ghost use Rattle.chunk_map.specs.Heads.{key_head};

    pub(crate) fn new(min: List, max: List, shard: u32) -> Chunk
        ensures { result ≡ chunk_row min max shard }
    {
        let head = Head::of_key(&max);
        Chunk {
            min,
            max,
            shard,
            head,
        }
    }

    /// The lowest key of the range.
    pub fn min(&self) -> &List
        ensures { result.now ≡ self.now.lowest }
    {
        &self.min
    }

    /// The key behind the range.
    pub fn max(&self) -> &List
        ensures { result.now ≡ self.now.bound }
    {
        &self.max
    }

    /// The shard's place in the order of names.
    pub fn shard(&self) -> u32
        ensures { result ≡ self.now.shard }
    {
        self.shard
    }

    // The order of a key, whose head is given, to the key behind the range. Its parts are looked at only where the
    // heads are equal.
    pub(crate) fn compare_max(&self, key: &Key<'_>, head: &Head) -> Ordering
        requires { head.now ≡ key_head key.now }
        ensures { result ≡ key_order key.now self.now.bound }
    {
        match head.compare(&self.head) {
            Ordering::Equal => key.compare(&self.max),
            by_head => by_head,
        }
    }
}
