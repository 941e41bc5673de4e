//! Which fields merged documents have (the manual, `$mergeObjects`).

ghost use Rattle.std.specs.Prelude.{◌≡◌, ℕ, List as Seq, [], ◌∷◌, ◌++◌, map, reverse, take, length, None};
ghost use Rattle.std.specs.Option.{option_or};
ghost use Rattle.bson_value.specs.Tree.{Tree};
ghost use Rattle.bson_value.specs.Pairs.{find};
ghost use Rattle.bson_value.specs.ObjectRows.{Fields, merged};

/// A name has the value that it is given last.
pub fn merged_value_is_last()
    ensures { (fields more : Fields) (name : Seq ℕ) → find name (merged fields more) ≡ option_or (find name (reverse more)) (find name fields) }
{}

/// The fields that were there keep their places, and a field with a new name comes last.
pub fn merged_fields_in_place()
    ensures kept { (fields more : Fields) → take (length fields) (map (λ p. p.0) (merged fields more)) ≡ map (λ p. p.0) fields }
    ensures new { (fields more : Fields) (name : Seq ℕ) (value : Tree) → find name (merged fields more) ≡ None →
        merged fields (more ++ (name, value) ∷ []) ≡ merged fields more ++ (name, value) ∷ [] }
{}
