//! Which pipelines a chain runs.

ghost use Rattle.std.specs.Prelude.{◌≡◌};
ghost use Rattle.stage_tree.specs.Stage.{stages_of};
ghost use Rattle.stage_tree.specs.StageView.{stage_of};
ghost use Rattle.stage_chain.specs.Chain.{is_built as the_built, is_reshape_stage};

use stage_tree::{Pipeline, Stage};

/// Whether each stage is Keep, Match, Project, AddFields, Unset, ReplaceRoot, Unwind, Limit, Skip or Count.
pub fn is_built(pipeline: &Pipeline) -> bool
    ensures { result ≡ the_built (stages_of pipeline.now) }
{
    for placed in pipeline.stages() {
        if !is_reshape(placed.stage()) {
            return false;
        }
    }
    true
}

fn is_reshape(stage: &Stage) -> bool
    ensures { result ≡ is_reshape_stage (stage_of stage.now) }
{
    match stage {
        Stage::Keep(_) => true,
        Stage::Match(_) => true,
        Stage::Project(_) => true,
        Stage::AddFields(_) => true,
        Stage::Unset(_) => true,
        Stage::ReplaceRoot(_) => true,
        Stage::Unwind(_) => true,
        Stage::Limit(_) => true,
        Stage::Skip(_) => true,
        Stage::Count(_) => true,
        Stage::Group(_) => false,
        Stage::Sort(_) => false,
        Stage::Lookup(_) => false,
        Stage::GraphLookup(_) => false,
        Stage::Facet(_) => false,
        Stage::Union(_, _) => false,
        Stage::Window(_) => false,
        Stage::Merge(_) => false,
    }
}
