ghost use Rattle.std.specs.Prelude.{◌≡◌, IfOk};

use crate::copied::copy_path;
use bson_value::{NoMemory, Path, Text};
use expr_tree::{Expr, Query};
use std::alloc::Global;

/// `$graphLookup` (the manual, `$graphLookup`).
#[derive(Drop)]
pub struct GraphLookup {
    /// `from`: the name of the other collection.
    pub foreign: Text,
    /// `startWith`
    pub start: Expr,
    /// `connectFromField`
    pub connect_from: Path,
    /// `connectToField`
    pub connect_to: Path,
    /// `as`
    pub target: Path,
    /// `maxDepth`: the greatest level, counted from 0.
    pub max_depth: Option<u64>,
    /// `depthField`: the path that is set to the level.
    pub depth: Option<Path>,
    /// `restrictSearchWithMatch`
    pub restrict: Option<Query>,
}

impl GraphLookup {
    /// An equal stage.
    pub fn copy(&self, alloc: Global) -> Result<GraphLookup, NoMemory>
        ensures { IfOk result (λ g. g ≡ self.now) }
    {
        let (connect_from, connect_to, target) = copy_ways(alloc, self)?;
        let (depth, restrict) = copy_limits(alloc, self)?;
        let (foreign, start) = copy_begin(alloc, self)?;
        Ok(GraphLookup {
            foreign,
            start,
            connect_from,
            connect_to,
            target,
            max_depth: self.max_depth,
            depth,
            restrict,
        })
    }
}

fn copy_begin(alloc: Global, graph: &GraphLookup) -> Result<(Text, Expr), NoMemory>
    ensures { IfOk result (λ p. p ≡ (graph.now.foreign, graph.now.start)) }
{
    Ok((graph.foreign.copy(alloc)?, graph.start.copy(alloc)?))
}

fn copy_ways(alloc: Global, graph: &GraphLookup) -> Result<(Path, Path, Path), NoMemory>
    ensures { IfOk result (λ p. p ≡ (graph.now.connect_from, graph.now.connect_to, graph.now.target)) }
{
    Ok((
        graph.connect_from.copy(alloc)?,
        graph.connect_to.copy(alloc)?,
        graph.target.copy(alloc)?,
    ))
}

fn copy_limits(
    alloc: Global,
    graph: &GraphLookup,
) -> Result<(Option<Path>, Option<Query>), NoMemory>
    ensures { IfOk result (λ p. p ≡ (graph.now.depth, graph.now.restrict)) }
{
    Ok((
        copy_path(alloc, &graph.depth)?,
        copy_query(alloc, &graph.restrict)?,
    ))
}

fn copy_query(alloc: Global, query: &Option<Query>) -> Result<Option<Query>, NoMemory>
    ensures { IfOk result (λ q. q ≡ query.now) }
{
    match query {
        Some(query) => Ok(Some(query.copy(alloc)?)),
        None => Ok(None),
    }
}
