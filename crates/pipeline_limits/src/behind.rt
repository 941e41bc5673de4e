//! The bound behind a stage.

ghost use Rattle.std.specs.Prelude.{◌≡◌, map, if◌then◌else◌};
ghost use Rattle.expr_tree.specs.View.{node_of};
ghost use Rattle.stage_tree.specs.StageView.{stage_of, made_in, window_of};
ghost use Rattle.pipeline_limits.specs.Limits.{behind_row, made_bound, group_bound, graph_bound, lookup_bound, window_bound};
ghost use Rattle.pipeline_limits.specs.Walk.{head_in};

use crate::values::{
    bound_at, bound_of, bound_with_index, bound_with_made, bound_with_outputs, bound_with_unwind,
    deepest_argument, deepest_taken, levels_of,
};
use bson_value::Path;
use stage_tree::{GraphLookup, Group, Project, Stage, Window};

/// The depth that a document of a collection doesn't pass.
pub(crate) const MOST_LEVELS: u32 = 100;

/// The bound behind the stage, where that before it is `depth`, and the greatest behind its inner pipelines `inner`.
pub(crate) fn bound_behind(stage: &Stage, inner: u32, depth: u32) -> u64
    ensures { result ≡ behind_row (head_in (stage_of stage.now)) inner depth }
{
    let before = u64::from(depth);
    match stage {
        Stage::Keep(_) => before,
        Stage::Match(_) => before,
        Stage::Project(project) => behind_project(project, depth),
        Stage::AddFields(made) => bound_with_made(made.items(), depth),
        Stage::Unset(_) => before,
        Stage::ReplaceRoot(expr) => bound_of(expr, depth),
        Stage::Unwind(unwind) => bound_with_index(&unwind.index, before),
        Stage::Group(group) => behind_group(group, depth),
        Stage::Sort(_) => before,
        Stage::Limit(_) => before,
        Stage::Skip(_) => before,
        Stage::Count(_) => 1,
        Stage::Lookup(lookup) => {
            bound_with_unwind(&lookup.unwind, behind_lookup(&lookup.target, depth))
        }
        Stage::GraphLookup(graph) => behind_graph(graph, depth),
        Stage::Facet(_) => u64::from(inner) + 2,
        Stage::Union(_, _) => u64::from(inner.max(depth)),
        Stage::Window(window) => behind_window(window, depth),
        Stage::Merge(_) => before,
    }
}

fn behind_project(project: &Project, depth: u32) -> u64
    ensures { result ≡ if project.now.excludes then depth else made_bound (made_in project.now.made) depth }
{
    if project.excludes {
        u64::from(depth)
    } else {
        bound_with_made(project.made.items(), depth)
    }
}

fn behind_group(group: &Group, depth: u32) -> u64
    ensures { result ≡ group_bound (node_of group.now.key) (map (λ p. (p.0, (p.1, node_of p.2))) group.now.parts) depth }
{
    let of_key = bound_of(&group.key, depth);
    deepest_argument(group.parts.items(), of_key, depth).saturating_add(2)
}

fn behind_lookup(target: &Path, depth: u32) -> u64
    ensures { result ≡ lookup_bound target.now depth }
{
    let before = u64::from(depth);
    let held = u64::from(depth.max(MOST_LEVELS)) + 1;
    bound_at(target, held).max(before)
}

fn behind_graph(graph: &GraphLookup, depth: u32) -> u64
    ensures { result ≡ graph_bound (node_of graph.now.start) graph.now.target graph.now.depth depth }
{
    let before = u64::from(depth);
    let of_start = bound_of(&graph.start, depth).max(before.max(100));
    let held = levels_of(&graph.depth).max(of_start).saturating_add(1);
    bound_at(&graph.target, held).max(before)
}

fn behind_window(window: &Window, depth: u32) -> u64
    ensures { result ≡ window_bound (node_of window.now.partition) (map (λ o. (o.0, window_of o.1)) window.now.outputs) depth }
{
    let of_partition = bound_of(&window.partition, depth).max(u64::from(depth).max(100));
    let held = deepest_taken(window.outputs.items(), of_partition, depth).saturating_add(1);
    bound_with_outputs(window.outputs.items(), held, depth)
}
