//! `$graphLookup`

ghost use Rattle.std.specs.Prelude.{◌≡◌};
ghost use Rattle.std.specs.Option.{option_map};
ghost use Rattle.bson_value.specs.View.{tree_of};
ghost use Rattle.expr_read.specs.Reads.{Reads};
ghost use Rattle.expr_tree.specs.QueryView.{query_of};
ghost use Rattle.join_forms.specs.Reading.{maybe, restriction, graph_ways, graph_limits, graph_in, graph_reading};
ghost use Rattle.join_forms.specs.Views.{limits_of};
ghost use Rattle.stage_parts.specs.Paths.{path_text};
ghost use Rattle.stage_parts.specs.Values.{as_count};
ghost use Rattle.stage_tree.specs.StageView.{stage_of};

use crate::fields::{collection_at, expr_at, form_in, path_at};
use bson_value::{Doc, Path, Value};
use expr_read::FormError;
use expr_tree::Query;
use query_read::read_restriction;
use stage_parts::{count_in, doc_in, read_path_text};
use stage_tree::{GraphLookup, Stage};
use std::alloc::Global;

/// The greatest level, the path of the level, and the restriction.
type Limits = (Option<u64>, Option<Path>, Option<Query>);

const REQUIRED: [&[u8]; 5] = [
    b"from",
    b"startWith",
    b"connectFromField",
    b"connectToField",
    b"as",
];

const OPTIONAL: [&[u8]; 3] = [b"maxDepth", b"depthField", b"restrictSearchWithMatch"];

fn max_depth_in(value: Option<&Value>) -> Option<Option<u64>>
    ensures { result ≡ maybe as_count (option_map (λ v. tree_of v.now) value.entry) }
{
    match value {
        Some(value) => match count_in(value) {
            Some(count) => Some(Some(count)),
            None => None,
        },
        None => Some(None),
    }
}

fn read_depth(alloc: Global, value: Option<&Value>) -> Result<Option<Path>, FormError>
    ensures { Reads (λ p. p) result (maybe path_text (option_map (λ v. tree_of v.now) value.entry)) }
{
    match value {
        Some(value) => Ok(Some(read_path_text(alloc, value)?)),
        None => Ok(None),
    }
}

fn read_query(alloc: Global, value: &Value) -> Result<Query, FormError>
    ensures { Reads query_of result (restriction (tree_of value.now)) }
{
    match doc_in(value) {
        Some(doc) => read_restriction(alloc, doc),
        None => Err(FormError::Form),
    }
}

fn read_restrict(alloc: Global, value: Option<&Value>) -> Result<Option<Query>, FormError>
    ensures { Reads (option_map query_of) result (maybe restriction (option_map (λ v. tree_of v.now) value.entry)) }
{
    match value {
        Some(value) => Ok(Some(read_query(alloc, value)?)),
        None => Ok(None),
    }
}

// The paths from and to, and the path that is set.
fn read_ways(alloc: Global, doc: &Doc) -> Result<(Path, Path, Path), FormError>
    ensures { Reads (λ w. (w.0, w.1, w.2)) result (graph_ways doc.now) }
{
    let connect_from = path_at(alloc, doc, b"connectFromField")?;
    let connect_to = path_at(alloc, doc, b"connectToField")?;
    let target = path_at(alloc, doc, b"as")?;
    Ok((connect_from, connect_to, target))
}

fn read_limits(alloc: Global, doc: &Doc) -> Result<Limits, FormError>
    ensures { Reads limits_of result (graph_limits doc.now) }
{
    match max_depth_in(doc.get(b"maxDepth")) {
        Some(max_depth) => {
            let depth = read_depth(alloc, doc.get(b"depthField"))?;
            let restrict = read_restrict(alloc, doc.get(b"restrictSearchWithMatch"))?;
            Ok((max_depth, depth, restrict))
        }
        None => Err(FormError::Form),
    }
}

fn read_graph_in(alloc: Global, doc: &Doc) -> Result<Stage, FormError>
    ensures { Reads stage_of result (graph_in doc.now) }
{
    let foreign = collection_at(alloc, doc, b"from")?;
    let start = expr_at(alloc, doc, b"startWith")?;
    let (connect_from, connect_to, target) = read_ways(alloc, doc)?;
    let (max_depth, depth, restrict) = read_limits(alloc, doc)?;
    Ok(Stage::GraphLookup(GraphLookup {
        foreign,
        start,
        connect_from,
        connect_to,
        target,
        max_depth,
        depth,
        restrict,
    }))
}

/// The `$graphLookup` that a value is (the manual, `$graphLookup`).
pub fn read_graph_lookup(alloc: Global, value: &Value) -> Result<Stage, FormError>
    ensures { Reads stage_of result (graph_reading (tree_of value.now)) }
{
    match form_in(value, &REQUIRED, &OPTIONAL) {
        Some(doc) => read_graph_in(alloc, doc),
        None => Err(FormError::Form),
    }
}
