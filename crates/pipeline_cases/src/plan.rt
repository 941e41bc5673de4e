//! Reads pipelines as users write them, also where they pass the limits of commands, and such as only a plan has. A stage is
//! a document as users write it, or one of these:
//!
//! - `{numbers: [4, 2], $limit: 1}`: the numbers of the written stages that it comes from, in place of its own;
//! - `{$keep: ["a"]}`: only the fields of these names stay;
//! - `{$match: [{a: 1}, {b: 2}]}`: several conditions, of which the i-th has the i-th number, or the last;
//! - `{$project: {a: 1, b: "$c"}, excludes: true}`: an exclusion that has fields to make;
//! - `{$lookup: {from: "f", ..}, $unwind: "$a"}`: a join with the `$unwind` behind it.

use bson_value::{Doc, List, Name, Text, Value};
use join_forms::read_joining_stage;
use query_read::{FormError, read_query};
use stage_forms::read_plain_stage;
use stage_tree::{Facets, Item, Pipeline, Placed, Row, Stage, Unwind};
use std::alloc::Global;
use std::collections::VecDeque;

fn text_in(value: &Value) -> Option<&Text> {
    match value {
        Value::Text(text) => Some(text),
        _ => None,
    }
}

fn list_in(value: &Value) -> Option<&List> {
    match value {
        Value::List(list) => Some(list),
        _ => None,
    }
}

fn doc_in(value: &Value) -> Option<&Doc> {
    match value {
        Value::Doc(doc) => Some(doc),
        _ => None,
    }
}

fn number_in(value: &Value) -> Option<u32> {
    match value {
        Value::Int(number) => u32::try_from(*number).ok(),
        _ => None,
    }
}

fn numbers_in(alloc: Global, list: &List) -> Option<Row<u32>> {
    let mut numbers = Row::new(alloc);
    for i in 0..list.len() {
        numbers.add(number_in(list.value(i))?).ok()?;
    }
    Some(numbers)
}

// The numbers in the array, or the place where there is none.
fn numbers_of(alloc: Global, list: Option<Value>, place: u32) -> Option<Row<u32>> {
    match list {
        Some(value) => numbers_in(alloc, list_in(&value)?),
        None => {
            let mut numbers = Row::new(alloc);
            numbers.add(place).ok()?;
            Some(numbers)
        }
    }
}

fn name_in(alloc: Global, value: &Value) -> Option<Name> {
    Name::read(alloc, text_in(value)?.bytes()).ok()
}

fn names_in(alloc: Global, list: &List) -> Option<Row<Name>> {
    let mut names = Row::new(alloc);
    for i in 0..list.len() {
        names.add(name_in(alloc, list.value(i))?).ok()?;
    }
    Some(names)
}

fn keep(alloc: Global, list: &List) -> Result<Stage, FormError> {
    match names_in(alloc, list) {
        Some(names) => Ok(Stage::Keep(names)),
        None => Err(FormError::Form),
    }
}

fn add_condition(alloc: Global, items: &mut Row<Item>, origin: u32, doc: &Doc) -> Option<()> {
    match read_query(alloc, doc) {
        Ok(query) => items.add(Item { query, origin }).ok(),
        Err(_) => None,
    }
}

fn conditions_in(alloc: Global, numbers: &[u32], list: &List) -> Option<Row<Item>> {
    let mut items = Row::new(alloc);
    for i in 0..list.len() {
        let origin = *numbers.get(i).or(numbers.last())?;
        add_condition(alloc, &mut items, origin, doc_in(list.value(i))?)?;
    }
    Some(items)
}

fn conditions(alloc: Global, numbers: &[u32], list: &List) -> Result<Stage, FormError> {
    match conditions_in(alloc, numbers, list) {
        Some(items) => Ok(Stage::Match(items)),
        None => Err(FormError::Form),
    }
}

fn written(alloc: Global, numbers: &[u32], name: &[u8], value: &Value) -> Result<Stage, FormError> {
    let number = numbers.first().copied().unwrap_or(0);
    match read_plain_stage(alloc, number, name, value) {
        Ok(stage) => Ok(stage),
        Err(_) => read_joining_stage(alloc, name, value),
    }
}

fn unwind_of(alloc: Global, stage: &Stage) -> Option<Unwind> {
    match stage {
        Stage::Unwind(unwind) => unwind.copy(alloc).ok(),
        _ => None,
    }
}

// The `$unwind` that the value spells.
fn unwind_in(alloc: Global, value: &Value) -> Option<Unwind> {
    match written(alloc, &[], b"$unwind", value) {
        Ok(stage) => {
            let unwind = unwind_of(alloc, &stage);
            drop(stage);
            unwind
        }
        Err(_) => None,
    }
}

// Makes an exclusion of a projection, and says whether it is one.
fn exclude(stage: &mut Stage) -> bool {
    match stage {
        Stage::Project(project) => {
            project.excludes = true;
            true
        }
        _ => false,
    }
}

// Puts the `$unwind` behind a join, and says whether both are there.
fn join(stage: &mut Stage, unwind: Option<Unwind>) -> bool {
    match stage {
        Stage::Lookup(lookup) => {
            lookup.unwind = unwind;
            lookup.unwind.is_some()
        }
        _ => false,
    }
}

// Makes an exclusion of the stage where that is asked for, or puts the `$unwind` behind it, and says whether it could.
fn mark(alloc: Global, stage: &mut Stage, unwind: &Option<Value>, excludes: bool) -> bool {
    match unwind {
        Some(value) => join(stage, unwind_in(alloc, value)),
        None if excludes => exclude(stage),
        None => true,
    }
}

// Appends the stage.
fn add_marked(
    alloc: Global,
    pipeline: &mut Pipeline,
    stage: Result<Stage, FormError>,
    numbers: Row<u32>,
    unwind: &Option<Value>,
    excludes: bool,
) -> Option<()> {
    match stage {
        Ok(stage) => {
            let mut stage = stage;
            if mark(alloc, &mut stage, unwind, excludes) {
                pipeline.add(Placed::new(stage, numbers)).ok()
            } else {
                drop(stage);
                None
            }
        }
        Err(_) => None,
    }
}

// The `$unwind` that stands beside a join.
fn unwind_beside(doc: &mut Doc) -> Option<Value> {
    if doc.len() > 1 {
        doc.take(b"$unwind")
    } else {
        None
    }
}

// How many pipelines the stage has within it.
fn inner_count(stage: &Doc) -> usize {
    match stage.get(b"$facet") {
        Some(Value::Doc(facets)) => facets.len(),
        _ => { if union_list(stage).is_some() { 1 } else { 0 } }
    }
}

fn union_list(stage: &Doc) -> Option<&List> {
    let operand = doc_in(stage.get(b"$unionWith")?)?;
    list_in(operand.get(b"pipeline")?)
}

fn facet_list(facets: &Doc, i: usize) -> Option<&List> {
    if i < facets.len() {
        list_in(facets.value(i))
    } else {
        None
    }
}

// The stages of a pipeline within the stage.
fn inner_list(stage: &Doc, i: usize) -> Option<&List> {
    match stage.get(b"$facet") {
        Some(facets) => facet_list(doc_in(facets)?, i),
        None => union_list(stage),
    }
}

fn with_facet(
    alloc: Global,
    facets: Option<Facets>,
    name: &[u8],
    pipeline: Option<Pipeline>,
) -> Option<Facets> {
    let mut facets = facets?;
    let pipeline = pipeline?;
    facets.add(Name::read(alloc, name).ok()?, pipeline).ok()?;
    Some(facets)
}

fn facets(alloc: Global, doc: &Doc, inner: Vec<Pipeline>) -> Result<Stage, FormError> {
    let mut inner = VecDeque::from(inner);
    let mut facets = Some(Facets::new(alloc));
    for i in 0..doc.len() {
        facets = with_facet(alloc, facets, doc.name(i), inner.pop_front());
    }
    match facets {
        Some(facets) => Ok(Stage::Facet(facets)),
        None => Err(FormError::Form),
    }
}

fn other_name(alloc: Global, doc: &Doc) -> Option<Text> {
    text_in(doc.get(b"coll")?)?.copy(alloc).ok()
}

fn union(alloc: Global, doc: &Doc, inner: Vec<Pipeline>) -> Result<Stage, FormError> {
    let mut inner = inner;
    match (other_name(alloc, doc), inner.pop()) {
        (Some(name), Some(pipeline)) => Ok(Stage::Union(name, pipeline)),
        _ => Err(FormError::Form),
    }
}

// A stage whose operand is an array.
fn listed(
    alloc: Global,
    numbers: &[u32],
    name: &[u8],
    value: &Value,
    list: &List,
) -> Result<Stage, FormError> {
    match name {
        b"$keep" => keep(alloc, list),
        b"$match" => conditions(alloc, numbers, list),
        _ => written(alloc, numbers, name, value),
    }
}

// A stage whose operand is a document, and the pipelines within it.
fn documented(
    alloc: Global,
    numbers: &[u32],
    name: &[u8],
    value: &Value,
    doc: &Doc,
    inner: Vec<Pipeline>,
) -> Result<Stage, FormError> {
    match name {
        b"$facet" => facets(alloc, doc, inner),
        b"$unionWith" => union(alloc, doc, inner),
        _ => written(alloc, numbers, name, value),
    }
}

fn stage(
    alloc: Global,
    numbers: &[u32],
    doc: &Doc,
    inner: Vec<Pipeline>,
) -> Result<Stage, FormError> {
    if doc.len() != 1 {
        return Err(FormError::Form);
    }
    let name = doc.name(0);
    let value = doc.value(0);
    match value {
        Value::List(list) => listed(alloc, numbers, name, value, list),
        Value::Doc(doc) => documented(alloc, numbers, name, value, doc, inner),
        _ => written(alloc, numbers, name, value),
    }
}

// Appends the stage that the document is, with the pipelines within it.
fn add_stage(
    alloc: Global,
    pipeline: &mut Pipeline,
    place: u32,
    doc: &mut Doc,
    inner: Vec<Pipeline>,
) -> Option<()> {
    let numbers = numbers_of(alloc, doc.take(b"numbers"), place)?;
    let excludes = doc.take(b"excludes").is_some();
    let unwind = unwind_beside(doc);
    let stage = stage(alloc, numbers.items(), doc, inner);
    add_marked(alloc, pipeline, stage, numbers, &unwind, excludes)
}

fn place_of(i: usize) -> Option<u32> {
    u32::try_from(i).ok()?.checked_add(1)
}

fn copied(alloc: Global, doc: &Doc) -> Option<Doc> {
    doc.copy(alloc).ok()
}

// The pipeline with one stage more, where all are there.
fn with_stage(
    alloc: Global,
    pipeline: Option<Pipeline>,
    i: usize,
    doc: &Doc,
    inner: Option<Vec<Pipeline>>,
) -> Option<Pipeline> {
    let mut pipeline = pipeline?;
    let place = place_of(i)?;
    let mut doc = copied(alloc, doc)?;
    add_stage(alloc, &mut pipeline, place, &mut doc, inner?)?;
    Some(pipeline)
}

fn with_inner(inner: Option<Vec<Pipeline>>, pipeline: Option<Pipeline>) -> Option<Vec<Pipeline>> {
    let mut inner = inner?;
    inner.push(pipeline?).ok()?;
    Some(inner)
}

// No pipelines, where the stage has none.
fn no_inner(alloc: Global, stage: &Doc) -> Option<Vec<Pipeline>> {
    if inner_count(stage) == 0 {
        Some(Vec::new(alloc))
    } else {
        None
    }
}

// The pipelines within the stage, where they stand at most `deep` deep.
#[cycle(plan)]
fn inner(alloc: Global, stage: &Doc, deep: u32) -> Option<Vec<Pipeline>> {
    if deep == 0 {
        return no_inner(alloc, stage);
    }
    let mut inner = Some(Vec::new(alloc));
    for i in 0..inner_count(stage) {
        inner = with_inner(inner, pipeline(alloc, inner_list(stage, i), deep - 1));
    }
    inner
}

#[cycle(plan)]
fn pipeline(alloc: Global, stages: Option<&List>, deep: u32) -> Option<Pipeline> {
    let stages = stages?;
    let mut pipeline = Some(Pipeline::new(alloc));
    for i in 0..stages.len() {
        let doc = doc_in(stages.value(i))?;
        pipeline = with_stage(alloc, pipeline, i, doc, inner(alloc, doc, deep));
    }
    pipeline
}

/// The pipeline, where each stage is one and pipelines stand at most nine deep within pipelines.
pub(crate) fn read_plan(alloc: Global, stages: &List) -> Option<Pipeline> {
    pipeline(alloc, Some(stages), 9)
}
