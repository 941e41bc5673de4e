//! What `$split` gives (the manual, `$split`). The separator isn't empty.

ghost use Rattle.std.specs.Prelude.{◌≡◌, ◌≢◌, ℕ, ◌<◌, ◌≤◌, List as Seq, [], ◌∷◌, ◌++◌, length};
ghost use Rattle.std.specs.List.{All, join_by};
ghost use Rattle.std.specs.Str.Pattern.{LacksTextAt};
ghost use Rattle.bson_value.specs.TextRows.{parts};

/// A text in which the separator stands nowhere is its one part.
pub fn split_in_one_part()
    ensures { (separator text : Seq ℕ) → ((k : ℕ) → k ≤ length text → LacksTextAt separator text k) → parts separator 0 text ≡ text ∷ [] }
{}

/// The first part is what stands before the separator's first place, and the others are the parts of what follows it.
pub fn split_at_first_place()
    ensures { (separator before after : Seq ℕ) → separator ≢ [] →
        ((k : ℕ) → k < length before → LacksTextAt separator (before ++ (separator ++ after)) k) →
        parts separator 0 (before ++ (separator ++ after)) ≡ before ∷ parts separator 0 after }
{}

/// The parts with the separator between each two are the text again.
pub fn split_parts_join()
    ensures { (separator text : Seq ℕ) → separator ≢ [] → join_by (λ part. part) separator (parts separator 0 text) ≡ text }
{}

/// The separator stands in none of the parts.
pub fn split_parts_lack_separator()
    ensures { (separator text : Seq ℕ) → separator ≢ [] → All (λ part. (k : ℕ) → k ≤ length part → LacksTextAt separator part k) (parts separator 0 text) }
{}
