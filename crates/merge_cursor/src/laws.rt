//! What holds of every schedule. The functions do nothing: their clauses are for those who prove what they build on a
//! core.

ghost use Rattle.merge_cursor.specs.Whole.{IsStableOrder, IsOnlyStableOrder};
ghost use Rattle.merge_cursor.specs.Laws.{TakesPrefix, TakesAll, TakenJoins, ListsJoin, FailuresJoin};

/// Whatever happens, what was taken so far is the beginning of the whole of the lists that the shards end with, and
/// all of it where each shard is used up.
pub fn takes_the_whole()
    ensures prefix { TakesPrefix }
    ensures all { TakesAll }
{}

/// The whole by key is the joined lists sorted by key, with equal keys in the order that they had; nothing else is.
pub fn whole_is_stable()
    ensures stable { IsStableOrder }
    ensures only { IsOnlyStableOrder }
{}

/// What a schedule takes, brings and ends with is what its parts do, one after another.
pub fn schedules_join()
    ensures taken { TakenJoins }
    ensures lists { ListsJoin }
    ensures failures { FailuresJoin }
{}
