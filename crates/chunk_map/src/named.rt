//! The names that stood before in a cluster file.

ghost use Rattle.std.specs.Prelude.{◌≡◌, ◌++◌, ◌∷◌, [], true, false, not, IfOk, OnOk};
ghost use Rattle.chunk_map.specs.Form.{has_shard_twice, is_twice_named};
ghost use Rattle.chunk_map.specs.Named.{has_name, HasMore, HasFiles, HasSeen};
ghost use Rattle.chunk_map.specs.Table.{Table};

use crate::Shard;
use crate::written::Written;
use bson_value::NoMemory;
use std::alloc::Global;
use std::collections::BTreeMap;

type Names<'a> = BTreeMap<&'a [u8], ()>;

// The names of the collections that were read so far, and of their files.
#[derive(Drop)]
pub struct Seen<'a> {
    collections: BTreeMap<&'a [u8], ()>,
    files: BTreeMap<&'a [u8], ()>,
}

// Keeps the name, and answers whether it is new.
fn add_name<'a>(names: &mut Names<'a>, name: &'a [u8]) -> Result<bool, NoMemory>
    ensures fresh { IfOk result (λ fresh. fresh ≡ not (has_name name.now names.old)) }
    ensures names { OnOk result (HasMore name.now names.old names.new) }
{
    Ok(names.insert(name, ())?.is_none())
}

// Keeps the shards' files, and answers whether all files and all names of the shards are new.
fn add_shards<'a>(
    alloc: Global,
    files: &mut Names<'a>,
    shards: &'a [Shard],
) -> Result<bool, NoMemory>
    ensures fresh { (before : Table) → HasFiles files.old before [] → IfOk result (λ fresh. fresh ≡ not (has_shard_twice before [] shards.now)) }
    ensures files { (before : Table) → HasFiles files.old before [] → IfOk result (λ fresh. fresh ≡ true → HasFiles files.new before shards.now) }
{
    let mut names = BTreeMap::new(alloc);
    for shard in shards {
        if !add_name(&mut names, shard.name().bytes())? {
            return Ok(false);
        }
        if !add_name(files, shard.file().bytes())? {
            return Ok(false);
        }
    }
    Ok(true)
}

impl<'a> Seen<'a> {
    // None as yet.
    pub fn new(alloc: Global) -> Seen<'a>
        ensures { HasSeen result [] }
    {
        Seen {
            collections: BTreeMap::new(alloc),
            files: BTreeMap::new(alloc),
        }
    }

    // Keeps the collection's names, and answers whether one of them stood before.
    #[tactic(auto, unfolding(crate::specs::Form::is_twice_named))]
    pub fn is_twice_named(&mut self, alloc: Global, row: &'a Written) -> Result<bool, NoMemory>
        ensures twice { (before : Table) → HasSeen self.old before → IfOk result (λ twice. twice ≡ is_twice_named before row.now) }
        ensures seen { (before : Table) → HasSeen self.old before → IfOk result (λ twice. twice ≡ false → HasSeen self.new (before ++ row.now ∷ [])) }
    {
        if !add_name(&mut self.collections, row.name())? {
            return Ok(true);
        }
        Ok(!add_shards(alloc, &mut self.files, row.shards())?)
    }
}
