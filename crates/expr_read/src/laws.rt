//! What the reading of values is, said from outside. The functions here do nothing: each is its contract.

ghost use Rattle.std.specs.Prelude.{◌≡◌, Some};
ghost use Rattle.bson_value.specs.Tree.{Tree};
ghost use Rattle.expr_tree.specs.Node.{Node};
ghost use Rattle.expr_tree.specs.Spells.{Names, Spells};
ghost use Rattle.expr_read.specs.Reading.{reading};

/// Under the names that are bound, a value is read as what it spells, and each tree that it spells is what it is read
/// as.
pub fn spelling()
    ensures found { (names : Names) (t : Tree) (n : Node) → reading t names ≡ Some n → Spells names t n }
    ensures only { (names : Names) (t : Tree) (n : Node) → Spells names t n → reading t names ≡ Some n }
{}

/// At most one tree belongs to a value.
pub fn one_tree()
    ensures { (names : Names) (t : Tree) (m n : Node) → Spells names t m → Spells names t n → m ≡ n }
{}
