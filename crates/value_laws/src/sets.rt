//! Which members a set has that is made of an array (the manual, Set Expression Operators). Members that compare equal are
//! the same.

ghost use Rattle.std.specs.Prelude.{◌≡◌, true, false, List as Seq, [], ◌∷◌, ◌++◌};
ghost use Rattle.std.specs.List.{IsDistinct};
ghost use Rattle.bson_value.specs.Tree.{Tree};
ghost use Rattle.bson_value.specs.SetRows.{same, has, firsts};

/// No two members are the same.
pub fn set_members_differ()
    ensures { (array : Seq Tree) → IsDistinct same (firsts array) }
{}

/// What is the same as a value of the array is the same as a member, and nothing else is.
pub fn set_has_each_value()
    ensures { (array : Seq Tree) (value : Tree) → has (firsts array) value ≡ has array value }
{}

/// The members stand in the order in which they are first met: with one value more behind the array, the value is the last
/// member where it is new, and else changes nothing.
pub fn set_members_in_order()
    ensures new { (array : Seq Tree) (value : Tree) → has array value ≡ false → firsts (array ++ value ∷ []) ≡ firsts array ++ value ∷ [] }
    ensures met { (array : Seq Tree) (value : Tree) → has array value ≡ true → firsts (array ++ value ∷ []) ≡ firsts array }
{}
