//! What holds of paths, whoever follows them. Each function here does nothing: it is its contract.

ghost use Rattle.std.specs.Prelude.{◌≡◌, ℕ, ◌∷◌, [], true, Some, List as Seq, map, filter};
ghost use Rattle.bson_value.specs.Tree.{Tree, doc, pairs_of};
ghost use Rattle.bson_value.specs.Paths.{Steps, reach as reached, plain as plainly, set_at, unset as the_unset, keep as the_keep};
ghost use Rattle.doc_path.specs.Ways.{is_free, IsNew, stays};

/// What an expression's path reaches is the value on the way through documents alone, where no array is met.
pub fn plain_is_reach()
    ensures { (steps : Steps) (value : Tree) → is_free steps value ≡ true → reached steps value ≡ plainly steps value }
{}

/// What was set is reached, where no array is met on the way.
pub fn set_is_reached()
    ensures { (first : Seq ℕ) (rest : Steps) (value : Tree) (pairs : Seq (Seq ℕ × Tree)) →
        is_free (first ∷ rest) (doc (pairs_of pairs)) ≡ true →
        reached (first ∷ rest) (doc (pairs_of (set_at (first ∷ rest) value pairs))) ≡ Some value }
{}

/// A field that was new is gone again after it was set and unset, and the document is as before.
pub fn unset_is_back()
    ensures { (steps : Steps) (value : Tree) (pairs : Seq (Seq ℕ × Tree)) → IsNew steps pairs → the_unset steps (set_at steps value pairs) ≡ pairs }
{}

/// To keep all first steps is to keep the document.
pub fn keep_all_is_same()
    ensures { (pairs : Seq (Seq ℕ × Tree)) → the_keep (map (λ p. p.0 ∷ []) pairs) pairs ≡ pairs }
{}

/// The names that are kept stand in their stored order: they are those of the fields of which something stays.
pub fn kept_in_order()
    ensures { (paths : Seq Steps) (pairs : Seq (Seq ℕ × Tree)) → map (λ p. p.0) (the_keep paths pairs) ≡ map (λ p. p.0) (filter (stays paths) pairs) }
{}
