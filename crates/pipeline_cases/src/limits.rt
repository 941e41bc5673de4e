//! Pipelines, and how they stand to the limits: `3 stages 302 levels fits`, or `5 stages past 2 refused 2 StaticDepth`.

use crate::commands::refusal;
use crate::fields::list_of;
use crate::plan::read_plan;
use bson_value::{List, Value};
use case_notation::{Item, Table};
use pipeline_limits::{depth_behind, first_too_deep, over_limits, stage_count};
use stage_tree::{BadCommand, Pipeline};
use std::alloc::Global;

/// The table of limits.
pub(crate) struct Limits;

fn depth_of(item: &Item) -> Option<u32> {
    match item.value()? {
        Value::Int(depth) => u32::try_from(*depth).ok(),
        _ => None,
    }
}

// The pipeline, and how deep the documents before it are nested at most.
fn parts(question: &[Item]) -> Option<(&List, u32)> {
    let [stages, depth @ ..] = question else {
        return None;
    };
    match depth {
        [] => Some((list_of(stages)?, 100)),
        [depth] => Some((list_of(stages)?, depth_of(depth)?)),
        _ => None,
    }
}

fn measured(alloc: Global, pipeline: &Pipeline, depth: u32) -> Option<Vec<Item>> {
    let mut items = Item::of_number(stage_count(pipeline))?.alone(alloc)?;
    items.push(Item::of_word(alloc, "stages")?).ok()?;
    if let Some(depth) = depth_behind(pipeline, depth) {
        items.push(Item::of_number(u64::from(depth))?).ok()?;
        items.push(Item::of_word(alloc, "levels")?).ok()?;
    }
    if let Some(place) = first_too_deep(pipeline) {
        items.push(Item::of_word(alloc, "past")?).ok()?;
        items.push(Item::of_number(place as u64)?).ok()?;
    }
    Some(items)
}

fn append(items: &mut Vec<Item>, more: Vec<Item>) -> Option<()> {
    for item in more {
        items.push(item).ok()?;
    }
    Some(())
}

fn refused(alloc: Global, bad: BadCommand) -> Option<Vec<Item>> {
    let mut items = Item::of_word(alloc, "refused")?.alone(alloc)?;
    append(&mut items, refusal(alloc, bad)?)?;
    Some(items)
}

fn decided(alloc: Global, pipeline: &Pipeline) -> Option<Vec<Item>> {
    match over_limits(pipeline) {
        Some(bad) => refused(alloc, bad),
        None => Item::of_word(alloc, "fits")?.alone(alloc),
    }
}

fn answered(alloc: Global, pipeline: &Pipeline, depth: u32) -> Option<Vec<Item>> {
    let mut items = measured(alloc, pipeline, depth)?;
    append(&mut items, decided(alloc, pipeline)?)?;
    Some(items)
}

impl Table for Limits {
    fn answer(&self, alloc: Global, question: &[Item]) -> Option<Vec<Item>> {
        let (stages, depth) = parts(question)?;
        let pipeline = read_plan(alloc, stages)?;
        answered(alloc, &pipeline, depth)
    }
}
