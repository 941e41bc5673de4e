//! Documents that go through a pipeline, and what comes out: `[{_id: 1}] [{$set: {a: 5}}] -> [{_id: 1, a: 5}]`, or `failure 2
//! !4` for a failure of stage 2 with the code 4.

use crate::fields::{Fields, Items, list_of};
use crate::plan::read_plan;
use bson_value::{Doc, Docs, Failure, List, Value};
use case_notation::{Item, Table};
use stage_chain::{Chain, is_built};
use stage_read::{CommandError, read_command};
use stage_tree::{Command, Pipeline};
use std::alloc::Global;

/// The pipelines that users write.
pub(crate) struct Pipelines;

/// The pipelines that only a plan has.
pub(crate) struct Plans;

fn parts(question: &[Item]) -> Option<(&List, &List)> {
    let [docs, stages] = question else {
        return None;
    };
    Some((list_of(docs)?, list_of(stages)?))
}

// A command with these stages.
fn command_of(alloc: Global, stages: &List) -> Option<Value> {
    let stages = Value::List(stages.copy(alloc).ok()?);
    Fields::new(alloc)
        .text(b"aggregate", b"c")
        .add(b"pipeline", Some(stages))
        .done()
}

fn pipeline_of(command: Result<Command, CommandError>) -> Option<Pipeline> {
    Some(command.ok()?.pipeline)
}

fn read_stages(alloc: Global, stages: &List) -> Option<Pipeline> {
    match command_of(alloc, stages)? {
        Value::Doc(doc) => pipeline_of(read_command(alloc, &doc)),
        _ => None,
    }
}

fn push(alloc: Global, chain: &mut Chain, value: &Value, out: &mut Docs) -> Option<()> {
    match value {
        Value::Doc(doc) => chain.push(alloc, doc.copy(alloc).ok()?, out).ok(),
        _ => None,
    }
}

fn run(alloc: Global, chain: &mut Chain, docs: &List) -> Option<Docs> {
    let mut out = Docs::new(alloc);
    for i in 0..docs.len() {
        push(alloc, chain, docs.value(i), &mut out)?;
    }
    chain.finish(alloc, &mut out).ok()?;
    Some(out)
}

fn copied(alloc: Global, doc: &Doc) -> Option<Value> {
    Some(Value::Doc(doc.copy(alloc).ok()?))
}

fn as_list(alloc: Global, docs: &Docs) -> Option<Value> {
    let mut list = Items::new(alloc);
    for i in 0..docs.len() {
        list = list.add(copied(alloc, docs.doc(i)));
    }
    list.done()
}

fn failed(alloc: Global, failure: Failure) -> Option<Vec<Item>> {
    let mut items = Item::of_word(alloc, "failure")?.alone(alloc)?;
    items.push(Item::of_number(u64::from(failure.stage))?).ok()?;
    items.push(Item::of_code(alloc, failure.code)?).ok()?;
    Some(items)
}

fn ended(alloc: Global, failure: Option<Failure>, out: &Docs) -> Option<Vec<Item>> {
    match failure {
        Some(failure) => failed(alloc, failure),
        None => Item::Value(as_list(alloc, out)?).alone(alloc),
    }
}

fn run_through(alloc: Global, chain: &mut Chain, docs: &List) -> Option<Vec<Item>> {
    let out = run(alloc, chain, docs)?;
    ended(alloc, chain.failure(), &out)
}

fn given(alloc: Global, pipeline: Pipeline, docs: &List) -> Option<Vec<Item>> {
    if !is_built(&pipeline) {
        return Item::of_word(alloc, "unbuilt")?.alone(alloc);
    }
    let mut chain = Chain::new(alloc, pipeline).ok()?;
    run_through(alloc, &mut chain, docs)
}

impl Table for Pipelines {
    fn answer(&self, alloc: Global, question: &[Item]) -> Option<Vec<Item>> {
        let (docs, stages) = parts(question)?;
        given(alloc, read_stages(alloc, stages)?, docs)
    }
}

impl Table for Plans {
    fn answer(&self, alloc: Global, question: &[Item]) -> Option<Vec<Item>> {
        let (docs, stages) = parts(question)?;
        given(alloc, read_plan(alloc, stages)?, docs)
    }
}
