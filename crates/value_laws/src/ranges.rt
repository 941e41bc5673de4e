//! What `$range` gives (the manual, `$range`).

ghost use Rattle.std.specs.Prelude.{◌≡◌, ℕ, ◌<◌, ℤ, pos, ◌+ℤ◌, ◌*ℤ◌, ◌<ℤ◌, ◌≤ℤ◌, length, slice_get, Some};
ghost use Rattle.bson_value.specs.Tree.{leaf, int};
ghost use Rattle.bson_value.specs.ArrayRows.{steps_between, numbers_from};

/// Of n items, item i lies i steps from the start.
pub fn range_items()
    ensures count { (start step : ℤ) (n : ℕ) → length (numbers_from start step n) ≡ n }
    ensures item { (start step : ℤ) (n i : ℕ) → i < n → slice_get (numbers_from start step n) i ≡ Some (leaf (int (start +ℤ pos i *ℤ step))) }
{}

/// With a positive step each item is below the end, and the number one step behind the last isn't: without an item, the
/// start.
pub fn rising_range_ends()
    ensures inside { (start end step : ℤ) (i : ℕ) → pos 0 <ℤ step → i < steps_between start end step → (start +ℤ pos i *ℤ step) <ℤ end }
    ensures outside { (start end step : ℤ) → pos 0 <ℤ step → end ≤ℤ (start +ℤ pos (steps_between start end step) *ℤ step) }
{}

/// With a negative step each item is above the end, and the number one step behind the last isn't.
pub fn falling_range_ends()
    ensures inside { (start end step : ℤ) (i : ℕ) → step <ℤ pos 0 → i < steps_between start end step → end <ℤ (start +ℤ pos i *ℤ step) }
    ensures outside { (start end step : ℤ) → step <ℤ pos 0 → (start +ℤ pos (steps_between start end step) *ℤ step) ≤ℤ end }
{}
