//! Whether a pipeline keeps to the limits.

ghost use Rattle.std.specs.Prelude.{◌≡◌, Some, None, if◌then◌else◌};
ghost use Rattle.stage_tree.specs.Stage.{stages_of};
ghost use Rattle.pipeline_limits.specs.Limits.{passes, bound_after, first_passing, past_limits};

use crate::behind::MOST_LEVELS;
use crate::count::stage_count;
use crate::walk::{through_stage, through_stages};
use stage_tree::{BadCommand, CommandWhy, Pipeline};

/// The greatest number of stages.
const MOST_STAGES: u64 = 100;

/// How deep a document behind the pipeline can be nested, over documents that are nested at most `depth` levels. None
/// exactly where the bound behind one of its stages passes 1,000, or that behind a stage of an inner pipeline. The call
/// takes no memory but stack.
pub fn depth_behind(pipeline: &Pipeline, depth: u32) -> Option<u32>
    ensures { result ≡ (if passes (stages_of pipeline.now) depth then None else Some (bound_after (stages_of pipeline.now) depth)) }
{
    through_stages(pipeline.stages(), depth)
}

/// The place, counted from 1, of the first stage behind which a document could be nested deeper than 1,000 levels, or
/// which has such a stage in an inner pipeline. The documents before the first stage are those of a collection. The
/// call takes no memory but stack.
pub fn first_too_deep(pipeline: &Pipeline) -> Option<usize>
    ensures { result ≡ first_passing 1 100 (stages_of pipeline.now) }
{
    let mut depth = MOST_LEVELS;
    let mut place: usize = 1;
    for placed in pipeline.stages() {
        match through_stage(placed.stage(), depth) {
            Some(behind) => depth = behind,
            None => return Some(place),
        }
        place += 1;
    }
    None
}

/// Why the pipeline of a command is refused: it has more than 100 stages, or it has a stage behind which a document
/// could be nested deeper than 1,000 levels. None where it keeps to both limits.
pub fn over_limits(pipeline: &Pipeline) -> Option<BadCommand>
    ensures { result ≡ past_limits (stages_of pipeline.now) }
{
    if stage_count(pipeline) > MOST_STAGES {
        return Some(BadCommand {
            stage: 0,
            why: CommandWhy::Stages,
        });
    }
    let place = first_too_deep(pipeline)?;
    Some(BadCommand {
        stage: place as u32,
        why: CommandWhy::StaticDepth,
    })
}
