//! Stages and pipelines made of parts that were read, or the first reason why a part was not.

ghost use Rattle.std.specs.Prelude.{◌≡◌, ◌∷◌, [], IfOk, List, ℕ, Option, Some};
ghost use Rattle.std.specs.Option.{option_map};
ghost use Rattle.bson_value.specs.Tree.{pairs_of};
ghost use Rattle.stage_tree.specs.Stage.{StageNode};
ghost use Rattle.stage_tree.specs.StageView.{stage_of};
ghost use Rattle.expr_read.specs.Reads.{Reads};
ghost use Rattle.stage_read.specs.Answers.{Answers};
ghost use Rattle.stage_read.specs.Commands.{numbered};
ghost use Rattle.stage_read.specs.Reading.{Placings, Facets as SomeFacets, with_facets, with_union, full_union};

use crate::errors::{CommandError, form_at};
use crate::parts::{collection_at, count};
use bson_value::{Doc, NoMemory, Text};
use expr_read::FormError;
use stage_tree::{Facets, Pipeline, Row, Stage};
use std::alloc::Global;

/// The origins of a stage that comes from the written stage of that number alone.
pub fn origins(alloc: Global, number: u32) -> Result<Row<u32>, NoMemory>
    ensures { IfOk result (λ os. os ≡ number ∷ []) }
{
    let mut origins = Row::new(alloc);
    origins.add(number)?;
    Ok(origins)
}

/// `$facet`
pub fn facet_of(facets: Result<Facets, FormError>) -> Result<Stage, FormError>
    ensures { (fs : Option SomeFacets) → Reads (λ f. f) facets fs → Reads stage_of result (with_facets fs) }
{
    let facets = facets?;
    if 1 <= facets.len() {
        Ok(Stage::Facet(facets))
    } else {
        Err(FormError::Form)
    }
}

fn union_of(
    alloc: Global,
    name: Option<&Text>,
    pipeline: Result<Pipeline, FormError>,
) -> Result<Stage, FormError>
    ensures { (ss : Option Placings) → Reads (λ p. p) pipeline ss → Reads stage_of result (with_union (option_map (λ t. t.now) name.entry) ss) }
{
    match name {
        Some(name) => Ok(Stage::Union(name.copy(alloc)?, pipeline?)),
        None => Err(FormError::Form),
    }
}

/// `$unionWith` of a collection's name.
pub fn bare_union(alloc: Global, name: Option<&Text>) -> Result<Stage, FormError>
    ensures { Reads stage_of result (with_union (option_map (λ t. t.now) name.entry) (Some [])) }
{
    match name {
        Some(name) => {
            let name = name.copy(alloc)?;
            Ok(Stage::Union(name, Pipeline::new(alloc)))
        }
        None => Err(FormError::Form),
    }
}

/// `$unionWith` of `{coll, pipeline}`.
pub fn full_union(
    alloc: Global,
    doc: &Doc,
    pipeline: Result<Pipeline, FormError>,
) -> Result<Stage, FormError>
    ensures { (ss : Option Placings) → Reads (λ p. p) pipeline ss → Reads stage_of result (full_union (pairs_of doc.now) ss) }
{
    if count(doc) == 2 {
        union_of(alloc, collection_at(doc), pipeline)
    } else {
        Err(FormError::Form)
    }
}

/// What the written stage of that number is; where it is none, that number's refusal.
pub fn numbered(number: u32, stage: Result<Stage, FormError>) -> Result<Stage, CommandError>
    ensures { (s : Option StageNode) → Reads stage_of stage s → Answers stage_of result (numbered number s) }
{
    match stage {
        Ok(stage) => Ok(stage),
        Err(FormError::Form) => Err(form_at(number)),
        Err(FormError::Memory) => Err(CommandError::Memory),
    }
}
