//! What `$sort` gives. Each function here does nothing: it is its contract.

ghost use Rattle.std.specs.Prelude.{◌≡◌, ◌++◌, [], List as Seq};
ghost use Rattle.std.specs.List.Sorted.{IsPermutation, IsSorted, IsStable};
ghost use Rattle.stage_tree.specs.Outcome.{Fields};
ghost use Rattle.stage_tree.specs.Sorting.{sort_order, sorted_onto};
ghost use Rattle.stage_tree.specs.Stage.{Keys};

/// Sorted documents are the given ones, in the order of the keys, and those that are equal in it stand as they stood;
/// nothing else is so.
pub fn sort_is_stable()
    ensures permuted { (keys : Keys) (documents : Seq Fields) → IsPermutation documents (sorted_onto keys [] documents) }
    ensures sorted { (keys : Keys) (documents : Seq Fields) → IsSorted (sort_order keys) (sorted_onto keys [] documents) }
    ensures stable { (keys : Keys) (documents : Seq Fields) → IsStable (sort_order keys) documents (sorted_onto keys [] documents) }
    ensures only { (keys : Keys) (documents others : Seq Fields) → IsSorted (sort_order keys) others → IsStable (sort_order keys) documents others →
        others ≡ sorted_onto keys [] documents }
{}

/// More documents are put among those that are sorted already as if all had been sorted at once.
pub fn sort_takes_more()
    ensures { (keys : Keys) (sorted more : Seq Fields) → IsSorted (sort_order keys) sorted →
        sorted_onto keys sorted more ≡ sorted_onto keys [] (sorted ++ more) }
{}
