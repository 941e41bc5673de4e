//! `$lookup`

ghost use Rattle.bson_value.specs.View.{tree_of};
ghost use Rattle.expr_read.specs.Reads.{Reads};
ghost use Rattle.join_forms.specs.Reading.{lookup_in, lookup_reading};
ghost use Rattle.stage_tree.specs.StageView.{stage_of};

use crate::fields::{collection_at, form_in, path_at};
use bson_value::{Doc, Value};
use expr_read::FormError;
use stage_tree::{Lookup, Stage};
use std::alloc::Global;

const REQUIRED: [&[u8]; 4] = [b"from", b"localField", b"foreignField", b"as"];

fn read_lookup_in(alloc: Global, doc: &Doc) -> Result<Stage, FormError>
    ensures { Reads stage_of result (lookup_in doc.now) }
{
    let foreign = collection_at(alloc, doc, b"from")?;
    let local = path_at(alloc, doc, b"localField")?;
    let field = path_at(alloc, doc, b"foreignField")?;
    let target = path_at(alloc, doc, b"as")?;
    Ok(Stage::Lookup(Lookup {
        foreign,
        local,
        field,
        target,
        unwind: None,
    }))
}

/// The `$lookup` that a value is (the manual, `$lookup`).
pub fn read_lookup(alloc: Global, value: &Value) -> Result<Stage, FormError>
    ensures { Reads stage_of result (lookup_reading (tree_of value.now)) }
{
    match form_in(value, &REQUIRED, &[]) {
        Some(doc) => read_lookup_in(alloc, doc),
        None => Err(FormError::Form),
    }
}
