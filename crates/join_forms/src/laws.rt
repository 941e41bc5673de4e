//! What the reading of these stages is, said from outside. The functions here do nothing: each is its contract.

ghost use Rattle.std.specs.Prelude.{◌≡◌, ℕ, List, Some};
ghost use Rattle.bson_value.specs.Tree.{Tree};
ghost use Rattle.join_forms.specs.Reading.{joining_stage_reading};
ghost use Rattle.join_forms.specs.Written.{SpellsJoiningStage};
ghost use Rattle.stage_tree.specs.Stage.{StageNode};

/// A name and a value are read as the stage that they spell, and each stage that they spell is what they are read as.
pub fn joining_stage_spelling()
    ensures found { (name : List ℕ) (t : Tree) (s : StageNode) → joining_stage_reading name t ≡ Some s → SpellsJoiningStage name t s }
    ensures only { (name : List ℕ) (t : Tree) (s : StageNode) → SpellsJoiningStage name t s → joining_stage_reading name t ≡ Some s }
{}

/// At most one stage belongs to a name and a value.
pub fn one_joining_stage()
    ensures { (name : List ℕ) (t : Tree) (r s : StageNode) → SpellsJoiningStage name t r → SpellsJoiningStage name t s → r ≡ s }
{}
