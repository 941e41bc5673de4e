//! Reading stages: one function for each place where a value may stand. Each calls itself once for each level of
//! pipelines within pipelines.

ghost use Rattle.std.specs.Prelude.{◌≡◌, []};
ghost use Rattle.bson_value.specs.Tree.{pairs_of, trees_of};
ghost use Rattle.bson_value.specs.View.{tree_of};
ghost use Rattle.expr_read.specs.Reads.{Reads};
ghost use Rattle.stage_tree.specs.StageView.{stage_of};
ghost use Rattle.stage_read.specs.Reading.{simple_reading, stage_reading, named_reading, facet_reading, facets_from, union_reading, pipeline_at, pipeline_reading, stages_from};

use crate::kind::read_kind;
use crate::made::{bare_union, facet_of, full_union, origins};
use crate::parts::{collection_in, doc_in, field_of, list_in, only_field};
use crate::place::{Place, in_union, may_facet, may_merge};
use crate::words::{is_facet, is_merge, is_union};
use bson_value::{Doc, List, Value};
use expr_read::FormError;
use stage_parts::read_field_name;
use stage_tree::{Facets, Pipeline, Placed, Stage};
use std::alloc::Global;

fn read_simple(
    alloc: Global,
    place: Place,
    number: u32,
    name: &[u8],
    value: &Value,
) -> Result<Stage, FormError>
    ensures { Reads stage_of result (simple_reading place number name.now (tree_of value.now)) }
{
    if !is_merge(name) || may_merge(place) {
        read_kind(alloc, number, name, value)
    } else {
        Err(FormError::Form)
    }
}

/// The stage that the value is at this place, from the written stage of that number.
#[cycle(read)]
pub fn read_stage(
    alloc: Global,
    place: Place,
    number: u32,
    value: &Value,
) -> Result<Stage, FormError>
    ensures { Reads stage_of result (stage_reading place number (tree_of value.now)) }
{
    match only_field(value) {
        Some(field) => read_named(alloc, place, number, field.0, field.1),
        None => Err(FormError::Form),
    }
}

#[cycle(read)]
fn read_named(
    alloc: Global,
    place: Place,
    number: u32,
    name: &[u8],
    value: &Value,
) -> Result<Stage, FormError>
    ensures { Reads stage_of result (named_reading place number name.now (tree_of value.now)) }
{
    if is_facet(name) {
        if may_facet(place) {
            read_facet(alloc, number, value)
        } else {
            Err(FormError::Form)
        }
    } else if is_union(name) {
        read_union(alloc, in_union(place), number, value)
    } else {
        read_simple(alloc, place, number, name, value)
    }
}

#[cycle(read)]
fn read_facet(alloc: Global, number: u32, value: &Value) -> Result<Stage, FormError>
    ensures { Reads stage_of result (facet_reading number (tree_of value.now)) }
{
    match doc_in(value) {
        Some(doc) => facet_of(read_facets(alloc, number, doc)),
        None => Err(FormError::Form),
    }
}

#[cycle(read)]
#[tactic(auto, using(crate::proofs::Rows::facets_done))]
fn read_facets(alloc: Global, number: u32, doc: &Doc) -> Result<Facets, FormError>
    ensures { Reads (λ f. f) result (facets_from number [] (pairs_of doc.now)) }
{
    let mut facets = Facets::new(alloc);
    for i in 0..doc.len() {
        let bytes = doc.name(i);
        let value = doc.value(i);
        let name = read_field_name(alloc, bytes)?;
        let pipeline = read_pipeline(alloc, Place::Facet, number, value)?;
        facets.add(name, pipeline)?;
    }
    Ok(facets)
}

#[cycle(read)]
fn read_union(alloc: Global, place: Place, number: u32, value: &Value) -> Result<Stage, FormError>
    ensures { Reads stage_of result (union_reading place number (tree_of value.now)) }
{
    match doc_in(value) {
        Some(doc) => full_union(alloc, doc, read_pipeline_at(alloc, place, number, doc)),
        None => bare_union(alloc, collection_in(value)),
    }
}

#[cycle(read)]
fn read_pipeline_at(
    alloc: Global,
    place: Place,
    number: u32,
    doc: &Doc,
) -> Result<Pipeline, FormError>
    ensures { Reads (λ p. p) result (pipeline_at place number (pairs_of doc.now)) }
{
    match field_of(doc, b"pipeline") {
        Some(value) => read_pipeline(alloc, place, number, value),
        None => Err(FormError::Form),
    }
}

#[cycle(read)]
fn read_pipeline(
    alloc: Global,
    place: Place,
    number: u32,
    value: &Value,
) -> Result<Pipeline, FormError>
    ensures { Reads (λ p. p) result (pipeline_reading place number (tree_of value.now)) }
{
    match list_in(value) {
        Some(list) => read_stages(alloc, place, number, list),
        None => Err(FormError::Form),
    }
}

#[cycle(read)]
#[tactic(auto, using(crate::proofs::Rows::stages_done))]
fn read_stages(alloc: Global, place: Place, number: u32, list: &List) -> Result<Pipeline, FormError>
    ensures { Reads (λ p. p) result (stages_from place number [] (trees_of list.now)) }
{
    let mut pipeline = Pipeline::new(alloc);
    for i in 0..list.len() {
        let origins = origins(alloc, number)?;
        let stage = read_stage(alloc, place, number, list.value(i))?;
        pipeline.add(Placed::new(stage, origins))?;
    }
    Ok(pipeline)
}
