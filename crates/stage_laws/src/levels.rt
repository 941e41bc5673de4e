//! What the levels of a `$graphLookup` are. Each function here does nothing: it is its contract.

ghost use Rattle.std.specs.Prelude.{◌≡◌, ℕ, ◌≤◌, suc, not, ◌&&◌, Bool as Test, [], ◌∷◌, ◌++◌, List as Seq, map, length, Option as Maybe, Some, None, if◌then◌else◌};
ghost use Rattle.std.specs.List.{flat_map, range_with_len};
ghost use Rattle.bson_value.specs.Paths.{Steps};
ghost use Rattle.bson_value.specs.Tree.{Tree};
ghost use Rattle.expr_tree.specs.QueryNode.{QueryNode};
ghost use Rattle.stage_tree.specs.Outcome.{Fields};
ghost use Rattle.stage_tree.specs.Joining.{is_one_of, id_of, level, levels, with_level};
ghost use Rattle.stage_laws.specs.Levels.{AreLevels};

/// A document behind others comes last on the level, exactly where it belongs there, its `_id` is on no earlier level
/// and not earlier on this one.
pub fn level_takes()
    ensures { (belongs : Fields → Test) (seen : Seq Tree) (front : Seq Fields) (e : Fields) →
        level belongs seen (front ++ e ∷ []) ≡
        level belongs seen front ++ (if belongs e && (not (is_one_of seen (id_of e)) && not (is_one_of (map id_of (level belongs seen front)) (id_of e))) then e ∷ [] else []) }
{}

/// There are levels, of which the first looks for the start's values and each other for those that the level before it
/// leads to, with no `_id` of an earlier level; those past the number of documents are empty. What is found are the
/// levels one after another: all of them, or those up to the greatest.
pub fn graph_levels()
    ensures there_are { (others : Seq Fields) (restrict : Maybe QueryNode) (from field : Steps) (start : Seq Tree) →
        (on : ℕ → Seq Fields) × AreLevels others restrict from field start on }
    ensures ended { (others : Seq Fields) (restrict : Maybe QueryNode) (from field : Steps) (start : Seq Tree) (on : ℕ → Seq Fields) →
        AreLevels others restrict from field start on → (n : ℕ) → length others ≤ n → on n ≡ [] }
    ensures all { (others : Seq Fields) (restrict : Maybe QueryNode) (from field : Steps) (start : Seq Tree) (on : ℕ → Seq Fields) →
        AreLevels others restrict from field start on → (depth : Maybe Steps) (count : ℕ) → length others ≤ count →
        levels (suc (length others)) others restrict from field None depth 0 start [] ≡ flat_map (λ n. map (with_level depth n) (on n)) (range_with_len 0 count) }
    ensures most { (others : Seq Fields) (restrict : Maybe QueryNode) (from field : Steps) (start : Seq Tree) (on : ℕ → Seq Fields) →
        AreLevels others restrict from field start on → (depth : Maybe Steps) (most : ℕ) →
        levels (suc (length others)) others restrict from field (Some most) depth 0 start [] ≡ flat_map (λ n. map (with_level depth n) (on n)) (range_with_len 0 (suc most)) }
{}
