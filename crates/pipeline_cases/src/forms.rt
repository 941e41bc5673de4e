//! Stages as users write them, and what they are read as: `{$limit: 5} -> {limit: 5L}`, or `refused`.

use crate::fields::{common, doc_of};
use crate::outline::stage_outline;
use bson_value::{NoMemory, Value};
use case_notation::{Item, Table};
use expr_read::FormError;
use join_forms::read_joining_stage;
use stage_forms::read_plain_stage;
use stage_tree::Stage;
use std::alloc::Global;

/// The stages that `stage_forms` reads, each as the seventh of its pipeline.
pub(crate) struct PlainStages;

/// The stages that `join_forms` reads.
pub(crate) struct JoiningStages;

// The one field of the question's document.
fn field(question: &[Item]) -> Option<(&[u8], &Value)> {
    let [item] = question else {
        return None;
    };
    let doc = doc_of(item)?;
    if doc.len() != 1 {
        return None;
    }
    Some((doc.name(0), doc.value(0)))
}

// A stage is handed to `drop`, since its own end, written out in a function, would be most of what is to be proved there.
fn shown(alloc: Global, stage: &Stage) -> Option<Item> {
    match stage.copy(alloc) {
        Ok(copy) => {
            let item = common(
                alloc,
                stage_outline(alloc, stage),
                stage_outline(alloc, &copy),
            );
            drop(copy);
            item
        }
        Err(NoMemory) => None,
    }
}

fn found(alloc: Global, stage: Result<Stage, FormError>) -> Option<Item> {
    match stage {
        Ok(stage) => {
            let item = shown(alloc, &stage);
            drop(stage);
            item
        }
        Err(FormError::Form) => Item::of_word(alloc, "refused"),
        Err(FormError::Memory) => None,
    }
}

impl Table for PlainStages {
    fn answer(&self, alloc: Global, question: &[Item]) -> Option<Vec<Item>> {
        let (name, value) = field(question)?;
        found(alloc, read_plain_stage(alloc, 7, name, value))?.alone(alloc)
    }
}

impl Table for JoiningStages {
    fn answer(&self, alloc: Global, question: &[Item]) -> Option<Vec<Item>> {
        let (name, value) = field(question)?;
        found(alloc, read_joining_stage(alloc, name, value))?.alone(alloc)
    }
}
