//! `$group`

ghost use Rattle.std.specs.Prelude.{◌≡◌, [], codes};
ghost use Rattle.std.specs.Str.{bytes_eq};
ghost use Rattle.bson_value.specs.View.{tree_of};
ghost use Rattle.expr_read.specs.Reads.{Reads};
ghost use Rattle.expr_tree.specs.View.{node_of};
ghost use Rattle.join_forms.specs.Reading.{accumulator_in, accumulator_value, part, parts_from, group_in, group_reading};
ghost use Rattle.join_forms.specs.Views.{accumulator_of, parts_of};
ghost use Rattle.stage_tree.specs.StageView.{stage_of};

use crate::accumulators::read_accumulator;
use crate::fields::{expr_at, one_field};
use bson_value::{AccKind, Doc, Name, Value};
use expr_read::FormError;
use expr_tree::Expr;
use stage_parts::{doc_in, read_field_name};
use stage_tree::{Group, Row, Stage};
use std::alloc::Global;

fn read_accumulator_in(alloc: Global, doc: &Doc) -> Result<(AccKind, Expr), FormError>
    ensures { Reads accumulator_of result (accumulator_in doc.now) }
{
    match one_field(doc) {
        Some((name, value)) => read_accumulator(alloc, name, value),
        None => Err(FormError::Form),
    }
}

fn read_accumulator_value(alloc: Global, value: &Value) -> Result<(AccKind, Expr), FormError>
    ensures { Reads accumulator_of result (accumulator_value (tree_of value.now)) }
{
    match doc_in(value) {
        Some(doc) => read_accumulator_in(alloc, doc),
        None => Err(FormError::Form),
    }
}

fn read_part(alloc: Global, name: &[u8], value: &Value) -> Result<(Name, AccKind, Expr), FormError>
    ensures { Reads (λ p. (p.0, (p.1, node_of p.2))) result (part name.now (tree_of value.now)) }
{
    let name = read_field_name(alloc, name)?;
    let (kind, argument) = read_accumulator_value(alloc, value)?;
    Ok((name, kind, argument))
}

fn is_id(name: &[u8]) -> bool
    ensures { result ≡ bytes_eq name.now (codes "_id") }
{
    name == b"_id".as_slice()
}

fn read_parts(alloc: Global, doc: &Doc) -> Result<Row<(Name, AccKind, Expr)>, FormError>
    ensures { Reads parts_of result (parts_from [] doc.now) }
{
    let mut parts = Row::new(alloc);
    for i in 0..doc.len() {
        let name = doc.name(i);
        if is_id(name) {
            continue;
        }
        let part = read_part(alloc, name, doc.value(i))?;
        parts.add(part)?;
    }
    Ok(parts)
}

fn read_group_in(alloc: Global, doc: &Doc) -> Result<Stage, FormError>
    ensures { Reads stage_of result (group_in doc.now) }
{
    let key = expr_at(alloc, doc, b"_id")?;
    let parts = read_parts(alloc, doc)?;
    Ok(Stage::Group(Group {
        key,
        parts,
        partial: false,
    }))
}

/// The `$group` that a value is (the manual, `$group`).
pub fn read_group(alloc: Global, value: &Value) -> Result<Stage, FormError>
    ensures { Reads stage_of result (group_reading (tree_of value.now)) }
{
    match doc_in(value) {
        Some(doc) => read_group_in(alloc, doc),
        None => Err(FormError::Form),
    }
}
