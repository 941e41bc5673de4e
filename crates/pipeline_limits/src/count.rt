//! The number of stages.

ghost use Rattle.std.specs.Prelude.{◌≡◌};
ghost use Rattle.expr_tree.specs.Bound.{no_more};
ghost use Rattle.stage_tree.specs.Stage.{stages_of, pipes_of};
ghost use Rattle.stage_tree.specs.StageView.{stage_of};
ghost use Rattle.pipeline_limits.specs.Limits.{stages_in, stages_at, stages_within};

use bson_value::Name;
use stage_tree::{Pipeline, Placed, Stage};

/// The number of stages, those of inner pipelines among them. A number that passes 2^64 - 1 counts as that. The call
/// goes down once for each level of inner pipelines, and takes no memory but stack.
pub fn stage_count(pipeline: &Pipeline) -> u64
    ensures { result ≡ no_more (stages_in (stages_of pipeline.now)) }
{
    count_stages(pipeline.stages())
}

#[cycle(count)]
fn count_stages(stages: &[Placed]) -> u64
    ensures { result ≡ no_more (stages_in (stages_of stages.now)) }
{
    let mut count: u64 = 0;
    for placed in stages {
        count = count.saturating_add(count_stage(placed.stage()));
    }
    count
}

#[cycle(count)]
fn count_stage(stage: &Stage) -> u64
    ensures { result ≡ no_more (stages_at (stage_of stage.now)) }
{
    match stage {
        Stage::Facet(facets) => count_facets(facets.facets()).saturating_add(1),
        Stage::Union(_, pipeline) => count_stages(pipeline.stages()).saturating_add(1),
        Stage::Keep(_)
        | Stage::Match(_)
        | Stage::Project(_)
        | Stage::AddFields(_)
        | Stage::Unset(_)
        | Stage::ReplaceRoot(_)
        | Stage::Unwind(_)
        | Stage::Group(_)
        | Stage::Sort(_)
        | Stage::Limit(_)
        | Stage::Skip(_)
        | Stage::Count(_)
        | Stage::Lookup(_)
        | Stage::GraphLookup(_)
        | Stage::Window(_)
        | Stage::Merge(_) => 1,
    }
}

#[cycle(count)]
fn count_facets(facets: &[(Name, Pipeline)]) -> u64
    ensures { result ≡ no_more (stages_within (pipes_of facets.now)) }
{
    let mut count: u64 = 0;
    for facet in facets {
        count = count.saturating_add(count_stages(facet.1.stages()));
    }
    count
}
