//! Stages as documents: `{unwind: {path: "a", index: "i", preserve: false}}`. Expressions, queries and the edges of frames
//! are texts there, as `Debug` shows them. What no written stage has is not shown: a Keep, a joined `$unwind`, a `$sort` of
//! the first documents alone, and a `$group` that is left unfinished.

use crate::fields::{Fields, Items, debugged, flag, int, long, path_of, shown_of, text_of};
use bson_value::{AccKind, Path, Value};
use expr_tree::Expr;
use stage_tree::{
    Command, Edge, Facets, GraphLookup, Group, Item, Lookup, Merge, Pipeline, Placed, Project,
    Stage, Unwind, Window, WindowFn,
};
use std::alloc::Global;

fn paths(alloc: Global, paths: &[Path]) -> Option<Value> {
    let mut list = Items::new(alloc);
    for path in paths {
        list = list.add(path_of(alloc, path));
    }
    list.done()
}

fn numbers(alloc: Global, numbers: &[u32]) -> Option<Value> {
    let mut list = Items::new(alloc);
    for number in numbers {
        list = list.add(int(*number));
    }
    list.done()
}

fn made(alloc: Global, made: &[(Path, Expr)]) -> Option<Value> {
    let mut fields = Fields::new(alloc);
    for part in made {
        fields = fields.at(&part.0, shown_of(alloc, &part.1));
    }
    fields.done()
}

fn keys(alloc: Global, keys: &[(Path, bool)]) -> Option<Value> {
    let mut fields = Fields::new(alloc);
    for key in keys {
        let way = if key.1 { -1 } else { 1 };
        fields = fields.at(&key.0, Some(Value::Int(way)));
    }
    fields.done()
}

fn condition(alloc: Global, item: &Item) -> Option<Value> {
    Fields::new(alloc)
        .add(b"number", int(item.origin))
        .shown(b"query", &item.query)
        .done()
}

fn conditions(alloc: Global, items: &[Item]) -> Option<Value> {
    let mut list = Items::new(alloc);
    for item in items {
        list = list.add(condition(alloc, item));
    }
    list.done()
}

fn project(alloc: Global, project: &Project) -> Option<Value> {
    let way: &[u8] = if project.excludes { b"out" } else { b"in" };
    Fields::new(alloc)
        .add(b"_id", flag(project.keeps_id))
        .add(way, paths(alloc, project.paths.items()))
        .add(b"set", made(alloc, project.made.items()))
        .done()
}

// With a path, if there is one.
fn with_path(fields: Fields, name: &[u8], path: &Option<Path>) -> Fields {
    match path {
        Some(path) => fields.path(name, path),
        None => fields,
    }
}

fn unwind(alloc: Global, unwind: &Unwind) -> Option<Value> {
    let fields = Fields::new(alloc).path(b"path", &unwind.path);
    with_path(fields, b"index", &unwind.index)
        .add(b"preserve", flag(unwind.preserve))
        .done()
}

fn accumulator(alloc: Global, kind: &AccKind, argument: &Expr) -> Option<Value> {
    let kind = debugged(alloc, kind)?;
    Fields::new(alloc).shown(kind.as_bytes(), argument).done()
}

fn group(alloc: Global, group: &Group) -> Option<Value> {
    let mut fields = Fields::new(alloc).shown(b"_id", &group.key);
    for part in group.parts.items() {
        fields = fields.add(part.0.bytes(), accumulator(alloc, &part.1, &part.2));
    }
    fields.done()
}

fn lookup(alloc: Global, lookup: &Lookup) -> Option<Value> {
    Fields::new(alloc)
        .text(b"from", lookup.foreign.bytes())
        .path(b"localField", &lookup.local)
        .path(b"foreignField", &lookup.field)
        .path(b"as", &lookup.target)
        .done()
}

// With the depth that isn't passed, if there is one.
fn with_limit(fields: Fields, depth: &Option<u64>) -> Fields {
    match depth {
        Some(depth) => fields.add(b"maxDepth", long(*depth)),
        None => fields,
    }
}

fn graph_lookup(alloc: Global, graph: &GraphLookup) -> Option<Value> {
    let fields = Fields::new(alloc)
        .text(b"from", graph.foreign.bytes())
        .shown(b"startWith", &graph.start)
        .path(b"connectFromField", &graph.connect_from)
        .path(b"connectToField", &graph.connect_to)
        .path(b"as", &graph.target);
    let fields = with_path(
        with_limit(fields, &graph.max_depth),
        b"depthField",
        &graph.depth,
    );
    match &graph.restrict {
        Some(query) => fields.shown(b"restrict", query).done(),
        None => fields.done(),
    }
}

fn over_frame(
    alloc: Global,
    kind: &AccKind,
    argument: &Expr,
    low: &Edge,
    high: &Edge,
) -> Option<Value> {
    let kind = debugged(alloc, kind)?;
    Fields::new(alloc)
        .shown(kind.as_bytes(), argument)
        .shown(b"low", low)
        .shown(b"high", high)
        .done()
}

fn shifted(alloc: Global, output: &Expr, by: i64, default: &Value) -> Option<Value> {
    Fields::new(alloc)
        .shown(b"Shift", output)
        .add(b"by", Some(Value::Long(by)))
        .add(b"default", default.copy(alloc).ok())
        .done()
}

fn function(alloc: Global, function: &WindowFn) -> Option<Value> {
    match function {
        WindowFn::Acc(kind, argument, low, high) => over_frame(alloc, kind, argument, low, high),
        WindowFn::Rank => text_of(alloc, b"Rank"),
        WindowFn::DenseRank => text_of(alloc, b"DenseRank"),
        WindowFn::Number => text_of(alloc, b"Number"),
        WindowFn::Shift(output, by, default) => shifted(alloc, output, *by, default),
    }
}

fn outputs(alloc: Global, outputs: &[(Path, WindowFn)]) -> Option<Value> {
    let mut fields = Fields::new(alloc);
    for output in outputs {
        fields = fields.at(&output.0, function(alloc, &output.1));
    }
    fields.done()
}

fn window(alloc: Global, window: &Window) -> Option<Value> {
    Fields::new(alloc)
        .shown(b"partitionBy", &window.partition)
        .add(b"sortBy", keys(alloc, window.keys.items()))
        .add(b"output", outputs(alloc, window.outputs.items()))
        .done()
}

fn merge(alloc: Global, merge: &Merge) -> Option<Value> {
    Fields::new(alloc)
        .text(b"into", merge.target.bytes())
        .shown(b"whenMatched", &merge.matched)
        .shown(b"whenNotMatched", &merge.unmatched)
        .done()
}

// The pipeline within a stage. None where pipelines stand more than `deep` deep within it.
#[cycle(outline)]
fn inner(alloc: Global, pipeline: &Pipeline, deep: u32) -> Option<Value> {
    if deep == 0 {
        return None;
    }
    stages(alloc, pipeline.stages(), deep - 1)
}

#[cycle(outline)]
fn facets(alloc: Global, facets: &Facets, deep: u32) -> Option<Value> {
    let mut fields = Fields::new(alloc);
    for facet in facets.facets() {
        fields = fields.add(facet.0.bytes(), inner(alloc, &facet.1, deep));
    }
    fields.done()
}

#[cycle(outline)]
fn with_stage(alloc: Global, fields: Fields, stage: &Stage, deep: u32) -> Fields {
    match stage {
        Stage::Match(items) => fields.add(b"match", conditions(alloc, items.items())),
        Stage::Project(part) => fields.add(b"project", project(alloc, part)),
        Stage::AddFields(part) => fields.add(b"set", made(alloc, part.items())),
        Stage::Unset(part) => fields.add(b"unset", paths(alloc, part.items())),
        Stage::ReplaceRoot(expr) => fields.shown(b"root", expr),
        Stage::Unwind(part) => fields.add(b"unwind", unwind(alloc, part)),
        Stage::Group(part) if !part.partial => fields.add(b"group", group(alloc, part)),
        Stage::Sort(part) if part.cap.is_none() => fields.add(
            b"sort",
            keys(alloc, part.keys.items()),
        ),
        Stage::Limit(count) => fields.add(b"limit", long(*count)),
        Stage::Skip(count) => fields.add(b"skip", long(*count)),
        Stage::Count(name) => fields.text(b"count", name.bytes()),
        Stage::Lookup(part) if part.unwind.is_none() => fields.add(b"lookup", lookup(alloc, part)),
        Stage::GraphLookup(part) => fields.add(b"graphLookup", graph_lookup(alloc, part)),
        Stage::Facet(part) => fields.add(b"facet", facets(alloc, part, deep)),
        Stage::Union(name, pipeline) => fields
            .text(b"union", name.bytes())
            .add(b"pipeline", inner(alloc, pipeline, deep)),
        Stage::Window(part) => fields.add(b"window", window(alloc, part)),
        Stage::Merge(part) => fields.add(b"merge", merge(alloc, part)),
        _ => fields.add(b"", None),
    }
}

#[cycle(outline)]
fn stages(alloc: Global, stages: &[Placed], deep: u32) -> Option<Value> {
    let mut list = Items::new(alloc);
    for placed in stages {
        let fields = Fields::new(alloc).add(b"numbers", numbers(alloc, placed.origins().items()));
        list = list.add(with_stage(alloc, fields, placed.stage(), deep).done());
    }
    list.done()
}

/// The stage.
pub(crate) fn stage_outline(alloc: Global, stage: &Stage) -> Option<Value> {
    with_stage(alloc, Fields::new(alloc), stage, 0).done()
}

/// The command, each stage with the numbers of its written stages.
pub(crate) fn command_outline(alloc: Global, command: &Command) -> Option<Value> {
    Fields::new(alloc)
        .text(b"collection", command.collection.bytes())
        .add(b"stages", stages(alloc, command.pipeline.stages(), 9))
        .done()
}
