//! `$merge`

ghost use Rattle.std.specs.Prelude.{◌≡◌};
ghost use Rattle.std.specs.Option.{option_map};
ghost use Rattle.bson_value.specs.View.{tree_of};
ghost use Rattle.expr_read.specs.Reads.{Reads};
ghost use Rattle.join_forms.specs.Reading.{matched_value, unmatched_value, otherwise, is_on, ways_in, merge_in, merge_form, merge_name, merge_reading};
ghost use Rattle.stage_tree.specs.StageView.{stage_of};
ghost use Rattle.stage_tree.specs.declared.merge.WhenMatched.TheVariants as M;
ghost use Rattle.stage_tree.specs.declared.merge.WhenUnmatched.TheVariants as U;

use crate::fields::{collection_at, form_in};
use crate::words::{matched_named, unmatched_named};
use bson_value::{Doc, Text, Value};
use expr_read::FormError;
use stage_parts::{read_collection, text_in};
use stage_tree::{Merge, Stage, WhenMatched, WhenUnmatched};
use std::alloc::Global;

const REQUIRED: [&[u8]; 1] = [b"into"];

const OPTIONAL: [&[u8]; 3] = [b"on", b"whenMatched", b"whenNotMatched"];

// `on` is `_id`, or it isn't there.
fn is_on(value: Option<&Value>) -> bool
    ensures { result ≡ is_on (option_map (λ v. tree_of v.now) value.entry) }
{
    match value {
        Some(value) => match text_in(value) {
            Some(text) => text.bytes() == b"_id".as_slice(),
            None => false,
        },
        None => true,
    }
}

fn matched_in(value: Option<&Value>) -> Option<WhenMatched>
    ensures { result ≡ otherwise M.Merge matched_value (option_map (λ v. tree_of v.now) value.entry) }
{
    match value {
        Some(value) => match text_in(value) {
            Some(text) => matched_named(text.bytes()),
            None => None,
        },
        None => Some(WhenMatched::Merge),
    }
}

fn unmatched_in(value: Option<&Value>) -> Option<WhenUnmatched>
    ensures { result ≡ otherwise U.Insert unmatched_value (option_map (λ v. tree_of v.now) value.entry) }
{
    match value {
        Some(value) => match text_in(value) {
            Some(text) => unmatched_named(text.bytes()),
            None => None,
        },
        None => Some(WhenUnmatched::Insert),
    }
}

// What is done, by the words of the document.
fn ways_in(doc: &Doc) -> Option<(WhenMatched, WhenUnmatched)>
    ensures { result ≡ ways_in doc.now }
{
    if !is_on(doc.get(b"on")) {
        return None;
    }
    let matched = matched_in(doc.get(b"whenMatched"))?;
    let unmatched = unmatched_in(doc.get(b"whenNotMatched"))?;
    Some((matched, unmatched))
}

fn read_merge_in(alloc: Global, doc: &Doc) -> Result<Stage, FormError>
    ensures { Reads stage_of result (merge_in doc.now) }
{
    match ways_in(doc) {
        Some((matched, unmatched)) => {
            let target = collection_at(alloc, doc, b"into")?;
            Ok(Stage::Merge(Merge {
                target,
                matched,
                unmatched,
            }))
        }
        None => Err(FormError::Form),
    }
}

fn read_merge_form(alloc: Global, value: &Value) -> Result<Stage, FormError>
    ensures { Reads stage_of result (merge_form (tree_of value.now)) }
{
    match form_in(value, &REQUIRED, &OPTIONAL) {
        Some(doc) => read_merge_in(alloc, doc),
        None => Err(FormError::Form),
    }
}

// A `$merge` that is written as the name of the collection.
fn read_merge_name(alloc: Global, text: &Text) -> Result<Stage, FormError>
    ensures { Reads stage_of result (merge_name text.now) }
{
    let target = read_collection(alloc, text)?;
    Ok(Stage::Merge(Merge {
        target,
        matched: WhenMatched::Merge,
        unmatched: WhenUnmatched::Insert,
    }))
}

/// The `$merge` that a value is (the manual, `$merge`).
pub fn read_merge(alloc: Global, value: &Value) -> Result<Stage, FormError>
    ensures { Reads stage_of result (merge_reading (tree_of value.now)) }
{
    match text_in(value) {
        Some(text) => read_merge_name(alloc, text),
        None => read_merge_form(alloc, value),
    }
}
