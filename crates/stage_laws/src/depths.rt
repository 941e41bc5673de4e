//! How deep values and documents can be nested that expressions and stages give. Each function here does nothing: it is
//! its contract.

ghost use Rattle.std.specs.Prelude.{◌≡◌, ℕ, ◌≤◌, Some, None, Ok, List as Seq};
ghost use Rattle.std.specs.List.{All};
ghost use Rattle.bson_value.specs.Depth.{depth};
ghost use Rattle.bson_value.specs.Tree.{Tree, doc, pairs_of};
ghost use Rattle.expr_tree.specs.Bound.{Around, bound};
ghost use Rattle.expr_tree.specs.Env.{Env};
ghost use Rattle.expr_tree.specs.Eval.{eval};
ghost use Rattle.expr_tree.specs.Node.{Node};
ghost use Rattle.expr_tree.specs.Spells.{Names, Spells};
ghost use Rattle.pipeline_limits.specs.Limits.{value_bound, bound_behind, bound_after, past_limits};
ghost use Rattle.stage_read.specs.Written.{SpellsCommand};
ghost use Rattle.stage_tree.specs.Outcome.{Fields, World};
ghost use Rattle.stage_tree.specs.Rows.{value_for};
ghost use Rattle.stage_tree.specs.Stage.{StageNode, Stages};
ghost use Rattle.stage_tree.specs.Written.{runs, written};
ghost use Rattle.stage_laws.specs.Bounds.{bounds_at, bounds};
ghost use Rattle.stage_laws.specs.Deepest.{IsDeepest};
ghost use Rattle.stage_laws.specs.Depths.{SaysSomething, AreWithin, HasSteps};
ghost use Rattle.stage_laws.specs.Nested.{IsNested, AreNested, CollectionsAreNested, IsTold, StageHasSteps, EachIn, EachStage};

/// The value of an expression, each of whose paths into the document has a step, is nested at most as deep as the
/// expression's bound, over each document that is nested at most as deep as the bound of documents, and under names
/// whose values are nested at most as deep as theirs; so also over a document alone.
pub fn values_within_bound()
    ensures value { (e : Node) (around : Around) (env : Env) (t : Tree) → HasSteps e → AreWithin around env → SaysSomething (bound e around) → eval e env ≡ Ok (Some t) → depth t ≤ bound e around }
    ensures alone { (e : Node) (b : ℕ) (d : Fields) (t : Tree) → HasSteps e → IsNested b d → SaysSomething (value_bound b e) → value_for d e ≡ Ok (Some t) → depth t ≤ value_bound b e }
{}

/// The bound isn't greater than it has to be: a literal, the document, one of the document's deepest fields, and arrays
/// and documents of such have a value that is nested exactly as deep as the bound over such documents.
pub fn bound_is_met()
    ensures { (d : Fields) (e : Node) → IsDeepest d e → SaysSomething (value_bound (depth (doc (pairs_of d))) e) → (t : Tree) × (value_for d e ≡ Ok (Some t)) × (depth t ≡ value_bound (depth (doc (pairs_of d))) e) }
{}

/// Each path into the document has a step, in every expression that a value spells.
pub fn paths_have_steps()
    ensures { (names : Names) (t : Tree) (e : Node) → Spells names t e → HasSteps e }
{}

/// The documents behind a stage are nested at most as deep as the stage's bound, and those behind a pipeline as deep as
/// the pipeline's, where those before it keep to theirs and those of the collections to 100; so no document behind a
/// pipeline that the limits let pass is nested deeper than 1,000. It is said of the stages whose documents are told, and
/// in whose expressions each path into the document has a step.
pub fn documents_within_bound()
    ensures stage { (s : StageNode) (origins : Seq ℕ) (w : World) (b : ℕ) (ds es : Seq Fields) → EachIn IsTold s → EachIn StageHasSteps s → CollectionsAreNested w → All SaysSomething (bounds_at s b) → AreNested b ds → runs s origins w ds ≡ Ok es →
        AreNested (bound_behind s b) es }
    ensures pipeline { (ss : Stages) (w : World) (b : ℕ) (ds es : Seq Fields) → EachStage IsTold ss → EachStage StageHasSteps ss → CollectionsAreNested w → All SaysSomething (bounds ss b) → AreNested b ds → written ss w ds ≡ Ok es →
        AreNested (bound_after ss b) es }
    ensures passed { (ss : Stages) (w : World) (ds es : Seq Fields) → EachStage IsTold ss → EachStage StageHasSteps ss → CollectionsAreNested w → AreNested 100 ds → past_limits ss ≡ None →
        written ss w ds ≡ Ok es → AreNested 1000 es }
{}

/// Each path into the document has a step, in the expressions of every command that is written; and no document behind
/// the stages of such a command is nested deeper than 1,000, where what the stages give is told, and where the documents
/// before them and those of the collections are nested at most 100 deep.
pub fn command_within_limit()
    ensures paths { (fields : Fields) (name : Seq ℕ) (ss : Stages) → SpellsCommand fields name ss → EachStage StageHasSteps ss }
    ensures documents { (fields : Fields) (name : Seq ℕ) (ss : Stages) (w : World) (ds es : Seq Fields) → SpellsCommand fields name ss → EachStage IsTold ss → CollectionsAreNested w → AreNested 100 ds → written ss w ds ≡ Ok es →
        AreNested 1000 es }
{}
