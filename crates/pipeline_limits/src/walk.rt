//! The bounds behind stages, found one after another until one passes.

ghost use Rattle.std.specs.Prelude.{◌≡◌};
ghost use Rattle.stage_tree.specs.Stage.{stages_of, pipes_of};
ghost use Rattle.stage_tree.specs.StageView.{stage_of};
ghost use Rattle.pipeline_limits.specs.Limits.{begins};
ghost use Rattle.pipeline_limits.specs.Walk.{head_in, pipes_in, unless_past, walk_stage, walk, walk_pipes};

use crate::behind::{MOST_LEVELS, bound_behind};
use bson_value::Name;
use stage_tree::{Pipeline, Placed, Stage};

fn not_past(bound: u64) -> Option<u32>
    ensures { result ≡ unless_past bound }
{
    if bound > 1000 {
        None
    } else {
        Some(bound as u32)
    }
}

/// The bound behind the stage. None where it passes 1,000, or where that behind a stage of an inner pipeline does.
#[cycle(walk)]
pub(crate) fn through_stage(stage: &Stage, depth: u32) -> Option<u32>
    ensures { result ≡ walk_stage (stage_of stage.now) depth }
{
    let inner = through_inner(stage, depth)?;
    not_past(bound_behind(stage, inner, depth))
}

// The greatest bound behind the inner pipelines.
#[cycle(walk)]
fn through_inner(stage: &Stage, depth: u32) -> Option<u32>
    ensures { result ≡ walk_pipes 0 (pipes_in (stage_of stage.now)) (begins (head_in (stage_of stage.now)) depth) }
{
    match stage {
        Stage::Facet(facets) => through_facets(facets.facets(), depth),
        Stage::Union(_, pipeline) => through_stages(pipeline.stages(), MOST_LEVELS),
        Stage::Keep(_)
        | Stage::Match(_)
        | Stage::Project(_)
        | Stage::AddFields(_)
        | Stage::Unset(_)
        | Stage::ReplaceRoot(_)
        | Stage::Unwind(_)
        | Stage::Group(_)
        | Stage::Sort(_)
        | Stage::Limit(_)
        | Stage::Skip(_)
        | Stage::Count(_)
        | Stage::Lookup(_)
        | Stage::GraphLookup(_)
        | Stage::Window(_)
        | Stage::Merge(_) => Some(0),
    }
}

/// The bound behind the last of the stages.
#[cycle(walk)]
pub(crate) fn through_stages(stages: &[Placed], depth: u32) -> Option<u32>
    ensures { result ≡ walk (stages_of stages.now) depth }
{
    let mut bound = depth;
    for placed in stages {
        bound = through_stage(placed.stage(), bound)?;
    }
    Some(bound)
}

#[cycle(walk)]
fn through_facets(facets: &[(Name, Pipeline)], depth: u32) -> Option<u32>
    ensures { result ≡ walk_pipes 0 (pipes_of facets.now) depth }
{
    let mut deepest = 0;
    for facet in facets {
        deepest = through_stages(facet.1.stages(), depth)?.max(deepest);
    }
    Some(deepest)
}
