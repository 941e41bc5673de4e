//! What the order of shards and the names of collections, shards and files are. Each function here does nothing: it is
//! its contract.

ghost use Rattle.std.specs.Prelude.{◌≡◌, ◌↔◌, true, List as Seq};
ghost use Rattle.std.specs.List.Sorted.{IsPermutation, IsStableBy};
ghost use Rattle.chunk_map.specs.Form.{by_name, name_before, is_twice_named};
ghost use Rattle.chunk_map.specs.Sound.{AreInOrder};
ghost use Rattle.chunk_map.specs.Table.{ShardRow, CollectionRow, Table};
ghost use Rattle.stage_laws.specs.Names.{NamesAnew};

/// The shards of a collection stand in the order of their names, each once as it was written, and those of one name as
/// they stood; nothing else is so.
pub fn shards_by_name()
    ensures permuted { (shards : Seq ShardRow) → IsPermutation shards (by_name shards) }
    ensures sorted { (shards : Seq ShardRow) → AreInOrder (by_name shards) }
    ensures stable { (shards : Seq ShardRow) → IsStableBy name_before shards (by_name shards) }
    ensures only { (shards others : Seq ShardRow) → AreInOrder others → IsStableBy name_before shards others → others ≡ by_name shards }
{}

/// A collection is refused for its names exactly where an earlier collection has its name, two of its shards have one
/// name, or one of its files stands twice in it or in an earlier collection.
pub fn twice_named()
    ensures { (before : Table) (c : CollectionRow) → (is_twice_named before c ≡ true) ↔ NamesAnew before c }
{}
