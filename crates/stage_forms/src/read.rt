//! The stages, by their names.

ghost use Rattle.std.specs.Prelude.{◌≡◌, IfOk, Err};
ghost use Rattle.bson_value.specs.View.{tree_of};
ghost use Rattle.expr_read.specs.Reads.{Reads};
ghost use Rattle.expr_tree.specs.QueryView.{query_of};
ghost use Rattle.stage_tree.specs.Stage.{StageNode};
ghost use Rattle.stage_tree.specs.StageView.{stage_of};
ghost use Rattle.stage_forms.specs.Reading.{match_of, match_reading, replace_reading, new_root, replace_root_reading, limit_reading, skip_reading, count_reading, by_kind, plain_stage_reading};
ghost use Rattle.stage_forms.specs.Written.{SpellsPlainStage};

use crate::kind::{Kind, kind_named};
use crate::project::{read_add_fields, read_project};
use crate::unwind::{read_sort, read_unset, read_unwind};
use bson_value::{Doc, NoMemory, Value};
use expr_read::{FormError, read_expr};
use expr_tree::Query;
use query_read::read_query;
use stage_parts::{count_in, doc_in, read_field_name, text_in};
use stage_tree::{Item, Row, Stage};
use std::alloc::Global;

fn match_of(alloc: Global, number: u32, query: Query) -> Result<Stage, NoMemory>
    ensures { IfOk result (λ s. stage_of s ≡ match_of number (query_of query)) }
{
    let mut items = Row::new(alloc);
    items.add(Item {
        query,
        origin: number,
    })?;
    Ok(Stage::Match(items))
}

fn read_match(alloc: Global, number: u32, value: &Value) -> Result<Stage, FormError>
    ensures { Reads stage_of result (match_reading number (tree_of value.now)) }
{
    match doc_in(value) {
        Some(doc) => {
            let query = read_query(alloc, doc)?;
            Ok(match_of(alloc, number, query)?)
        }
        None => Err(FormError::Form),
    }
}

// `$replaceWith`
fn read_replace(alloc: Global, value: &Value) -> Result<Stage, FormError>
    ensures { Reads stage_of result (replace_reading (tree_of value.now)) }
{
    let expr = read_expr(alloc, value)?;
    Ok(Stage::ReplaceRoot(expr))
}

fn new_root(alloc: Global, doc: &Doc) -> Result<Stage, FormError>
    ensures { Reads stage_of result (new_root doc.now) }
{
    if doc.len() != 1 {
        return Err(FormError::Form);
    }
    match doc.get(b"newRoot") {
        Some(value) => read_replace(alloc, value),
        None => Err(FormError::Form),
    }
}

fn read_replace_root(alloc: Global, value: &Value) -> Result<Stage, FormError>
    ensures { Reads stage_of result (replace_root_reading (tree_of value.now)) }
{
    match doc_in(value) {
        Some(doc) => new_root(alloc, doc),
        None => Err(FormError::Form),
    }
}

fn read_limit(value: &Value) -> Result<Stage, FormError>
    ensures { Reads stage_of result (limit_reading (tree_of value.now)) }
{
    match count_in(value) {
        Some(n) => {
            if n == 0 {
                Err(FormError::Form)
            } else {
                Ok(Stage::Limit(n))
            }
        }
        None => Err(FormError::Form),
    }
}

fn read_skip(value: &Value) -> Result<Stage, FormError>
    ensures { Reads stage_of result (skip_reading (tree_of value.now)) }
{
    match count_in(value) {
        Some(n) => Ok(Stage::Skip(n)),
        None => Err(FormError::Form),
    }
}

fn read_count(alloc: Global, value: &Value) -> Result<Stage, FormError>
    ensures { Reads stage_of result (count_reading (tree_of value.now)) }
{
    match text_in(value) {
        Some(text) => {
            let name = read_field_name(alloc, text.bytes())?;
            Ok(Stage::Count(name))
        }
        None => Err(FormError::Form),
    }
}

fn read_kind(alloc: Global, kind: Kind, number: u32, value: &Value) -> Result<Stage, FormError>
    ensures { Reads stage_of result (by_kind kind number (tree_of value.now)) }
{
    match kind {
        Kind::Match => read_match(alloc, number, value),
        Kind::Project => read_project(alloc, value),
        Kind::AddFields => read_add_fields(alloc, value),
        Kind::Unset => read_unset(alloc, value),
        Kind::ReplaceRoot => read_replace_root(alloc, value),
        Kind::ReplaceWith => read_replace(alloc, value),
        Kind::Unwind => read_unwind(alloc, value),
        Kind::Sort => read_sort(alloc, value),
        Kind::Limit => read_limit(value),
        Kind::Skip => read_skip(value),
        Kind::Count => read_count(alloc, value),
    }
}

fn read_named(alloc: Global, number: u32, name: &[u8], value: &Value) -> Result<Stage, FormError>
    ensures { Reads stage_of result (plain_stage_reading number name.now (tree_of value.now)) }
{
    match kind_named(name) {
        Some(kind) => read_kind(alloc, kind, number, value),
        None => Err(FormError::Form),
    }
}

/// The stage that a document of this name and value is (the manual, Aggregation Stages), in the written stage of that
/// number, counted from 1. It is refused as `Form` exactly where the name is that of none of these stages, or the value
/// has no form of it.
pub fn read_plain_stage(
    alloc: Global,
    number: u32,
    name: &[u8],
    value: &Value,
) -> Result<Stage, FormError>
    ensures found { IfOk result (λ s. SpellsPlainStage number name.now (tree_of value.now) (stage_of s)) }
    ensures refused { result ≡ Err FormError.Form → (s : StageNode) → ¬ SpellsPlainStage number name.now (tree_of value.now) s }
    ensures read { Reads stage_of result (plain_stage_reading number name.now (tree_of value.now)) }
{
    read_named(alloc, number, name, value)
}
