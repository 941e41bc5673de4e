//! By which value of a path documents are sorted (the manual, Comparison and Sort Order). The candidates are the parts of
//! the path's ends: the elements of an array, the mark of an empty one, null for a missing value, or the value.

ghost use Rattle.std.specs.Prelude.{◌≡◌, ◌≢◌, ℕ, Bool, [], length, slice_index_or, Some};
ghost use Rattle.std.specs.List.{flat_map, IsFirstBest};
ghost use Rattle.bson_value.specs.Tree.{Tree, leaf, null};
ghost use Rattle.bson_value.specs.Paths.{Steps, ends};
ghost use Rattle.bson_value.specs.SortValue.{sort_parts, comes_before, sort_value};

/// Where there is no part, the sort value is null.
pub fn sort_value_of_none()
    ensures { (falling : Bool) (path : Steps) (document : Tree) → flat_map sort_parts (ends path document) ≡ [] →
        sort_value falling path document ≡ Some (leaf null) }
{}

/// Else it is one of the parts: none of the parts comes before it, and it comes before each part that stands in front of
/// it.
pub fn sort_value_comes_first()
    ensures { (falling : Bool) (path : Steps) (document : Tree) → flat_map sort_parts (ends path document) ≢ [] →
        (place : ℕ)
        × IsFirstBest (comes_before falling) (flat_map sort_parts (ends path document)) (length (flat_map sort_parts (ends path document))) place
        × (slice_index_or (flat_map sort_parts (ends path document)) place (Some (leaf null)) ≡ sort_value falling path document) }
{}
