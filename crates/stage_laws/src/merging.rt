//! What the shards of a merge gave. Each function here does nothing: it is its contract.

ghost use Rattle.std.specs.Prelude.{◌≡◌, ℕ, ◌<◌, ◌≤◌, ◌++◌, ◌∷◌, List as Seq, length, slice_get, Some};
ghost use Rattle.std.specs.List.{flat_map};
ghost use Rattle.merge_cursor.specs.declared.item.Keyed.{Keyed};
ghost use Rattle.merge_cursor.specs.Laws.{lists};
ghost use Rattle.merge_cursor.specs.Schedule.{Event, arrives};
ghost use Rattle.stage_laws.specs.Batches.{brings};

/// Each shard gives the batches that arrived of it, one after another in the order of their arrival; a batch of a shard
/// that there is not changes nothing.
pub fn shard_gives_batches()
    ensures count { (n : ℕ) (events : Seq Event) → length (lists n events) ≡ n }
    ensures each { (n i : ℕ) (events : Seq Event) → i < n → slice_get (lists n events) i ≡ Some (flat_map (brings i) events) }
    ensures none { (n i : ℕ) (front back : Seq Event) (batch : Seq Keyed) → n ≤ i → lists n (front ++ arrives i batch ∷ back) ≡ lists n (front ++ back) }
{}
