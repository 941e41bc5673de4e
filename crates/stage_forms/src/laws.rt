//! What the reading of stages is, said from outside. The functions here do nothing: each is its contract.

ghost use Rattle.std.specs.Prelude.{◌≡◌, ℕ, List, Some};
ghost use Rattle.bson_value.specs.Tree.{Tree};
ghost use Rattle.stage_tree.specs.Stage.{StageNode};
ghost use Rattle.stage_forms.specs.Reading.{plain_stage_reading};
ghost use Rattle.stage_forms.specs.Written.{SpellsPlainStage};

/// A name and the value behind it are read as the stage that they spell, and each stage that they spell is what they
/// are read as.
pub fn plain_stage_spelling()
    ensures found { (number : ℕ) (name : List ℕ) (t : Tree) (s : StageNode) → plain_stage_reading number name t ≡ Some s → SpellsPlainStage number name t s }
    ensures only { (number : ℕ) (name : List ℕ) (t : Tree) (s : StageNode) → SpellsPlainStage number name t s → plain_stage_reading number name t ≡ Some s }
{}

/// At most one stage belongs to a name and a value.
pub fn one_plain_stage()
    ensures { (number : ℕ) (name : List ℕ) (t : Tree) (r s : StageNode) → SpellsPlainStage number name t r → SpellsPlainStage number name t s → r ≡ s }
{}
