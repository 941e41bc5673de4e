//! What is known of keys.

ghost use Rattle.std.specs.Prelude.{◌≡◌, ◌↔◌, ◌++◌, ◌∷◌, [], ◌≤◌, List, ℕ, ℤ, Bool, Some, length};
ghost use Rattle.std.specs.Ordering.{ordering_then};
ghost use Rattle.std.specs.declared.cmp.Ordering.TheVariants.{Equal};
ghost use Rattle.bson_value.specs.Tree.{Tree, leaf, int, long};
ghost use Rattle.bson_value.specs.Order.{bytes_order};
ghost use Rattle.bson_value.specs.Proper.{IsProper};
ghost use Rattle.key_codec.specs.Fits.{Fits, AreAlike};
ghost use Rattle.key_codec.specs.Keyed.{Part, part_key, keyed, parts_order};

/// What is known of keys, for any two lists of parts with the same directions. It does nothing.
///
/// - `order`: plain byte order of two keys is the order of their parts, the first that differs deciding.
/// - `equal`: the keys are equal exactly where the parts are order-equal.
/// - `onward`: where the parts are order-equal, what follows the keys is compared next, and else it counts for
///   nothing. So a key may be followed by more, as another key or a sequence number.
/// - `joined`: one part more is its bytes at the end.
/// - `fits`: each value of a document fits into a key. Of texts a key needs only that they are bytes.
/// - `short`: an int32 or an int64 takes no more than ten bytes.
pub fn keys_are_ordered()
    ensures order { (ps qs : List Part) → AreAlike ps qs → bytes_order (keyed ps) (keyed qs) ≡ parts_order ps qs }
    ensures equal { (ps qs : List Part) → AreAlike ps qs → (keyed ps ≡ keyed qs) ↔ (parts_order ps qs ≡ Equal) }
    ensures onward { (ps qs : List Part) → AreAlike ps qs → (x y : List ℕ)
        → bytes_order (keyed ps ++ x) (keyed qs ++ y) ≡ ordering_then (parts_order ps qs) (bytes_order x y) }
    ensures joined { (ps : List Part) (p : Part) → keyed (ps ++ p ∷ []) ≡ keyed ps ++ part_key p }
    ensures fits { (t : Tree) → IsProper t → Fits t }
    ensures short { (falls : Bool) (n : ℤ)
        → (length (part_key (falls, Some (leaf (int n)))) ≤ 10)
        × (length (part_key (falls, Some (leaf (long n)))) ≤ 10) }
{}
