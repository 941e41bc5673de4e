//! The parts of values that are read.

ghost use Rattle.std.specs.Prelude.{◌≡◌, ◌<◌, IfSome, drop, length, None};
ghost use Rattle.std.specs.Option.{option_map};
ghost use Rattle.bson_value.specs.Pairs.{find};
ghost use Rattle.bson_value.specs.Tree.{leaf, doc, text, entries, tree_size, pairs_of, pairs_size, trees_of, trees_size};
ghost use Rattle.bson_value.specs.View.{tree_of};
ghost use Rattle.stage_read.specs.Commands.{first_only, field_step, pipeline_from, named_parts, command_parts};
ghost use Rattle.stage_read.specs.Parts.{only_field, doc_of, list_of};
ghost use Rattle.stage_read.specs.Reading.{collection_in, collection_at};

use crate::words::{is_ignored, is_pipeline};
use bson_value::{Doc, List, Text, Value};
use stage_parts::is_collection_name;

/// The document that a value is. It is as large as the value.
pub fn doc_in(value: &Value) -> Option<&Doc>
    ensures doc { option_map (λ d. pairs_of d.now) result ≡ doc_of (tree_of value.now) }
    ensures size { IfSome result (λ d. pairs_size (pairs_of d.now) ≡ tree_size (tree_of value.now)) }
{
    match value {
        Value::Doc(doc) => Some(doc),
        Value::Least | Value::Null | Value::Greatest => None,
        Value::Int(_) | Value::Long(_) | Value::Date(_) | Value::Stamp(_) => None,
        Value::Text(_) | Value::List(_) | Value::Bin(_, _) => None,
        Value::Id(_) | Value::Flag(_) => None,
    }
}

/// The array that a value is. It is as large as the value.
pub fn list_in(value: &Value) -> Option<&List>
    ensures list { option_map (λ l. trees_of l.now) result ≡ list_of (tree_of value.now) }
    ensures size { IfSome result (λ l. trees_size (trees_of l.now) ≡ tree_size (tree_of value.now)) }
{
    match value {
        Value::List(list) => Some(list),
        Value::Least | Value::Null | Value::Greatest => None,
        Value::Int(_) | Value::Long(_) | Value::Date(_) | Value::Stamp(_) => None,
        Value::Text(_) | Value::Doc(_) | Value::Bin(_, _) => None,
        Value::Id(_) | Value::Flag(_) => None,
    }
}

fn one_of(fields: &Doc) -> Option<(&[u8], &Value)>
    ensures field { option_map (λ p. (p.0.now, tree_of p.1.now)) result ≡ only_field (doc (pairs_of fields.now)) }
    ensures size { IfSome result (λ p. tree_size (tree_of p.1.now) < pairs_size (pairs_of fields.now)) }
{
    if fields.len() == 1 {
        Some((fields.name(0), fields.value(0)))
    } else {
        None
    }
}

/// The one field of a document. It is smaller than the document.
pub fn only_field(value: &Value) -> Option<(&[u8], &Value)>
    ensures field { option_map (λ p. (p.0.now, tree_of p.1.now)) result ≡ only_field (tree_of value.now) }
    ensures size { IfSome result (λ p. tree_size (tree_of p.1.now) < tree_size (tree_of value.now)) }
{
    match value {
        Value::Doc(doc) => one_of(doc),
        Value::Least | Value::Null | Value::Greatest => None,
        Value::Int(_) | Value::Long(_) | Value::Date(_) | Value::Stamp(_) => None,
        Value::Text(_) | Value::List(_) | Value::Bin(_, _) => None,
        Value::Id(_) | Value::Flag(_) => None,
    }
}

/// The value at that name. It is smaller than the document.
pub fn field_of<'a>(doc: &'a Doc, name: &[u8]) -> Option<&'a Value>
    ensures found { option_map (λ v. tree_of v.now) result ≡ find name.now doc.now }
    ensures size { IfSome result (λ v. tree_size (tree_of v.now) < pairs_size (pairs_of doc.now)) }
{
    doc.get(name)
}

fn named(name: &Text) -> Option<&Text>
    ensures { option_map (λ t. t.now) result ≡ collection_in (leaf (text name.now)) }
{
    if is_collection_name(name.bytes()) {
        Some(name)
    } else {
        None
    }
}

/// The name of a collection.
pub fn collection_in(value: &Value) -> Option<&Text>
    ensures { option_map (λ t. t.now) result ≡ collection_in (tree_of value.now) }
{
    match value {
        Value::Text(text) => named(text),
        Value::Least | Value::Null | Value::Greatest => None,
        Value::Int(_) | Value::Long(_) | Value::Date(_) | Value::Stamp(_) => None,
        Value::Doc(_) | Value::List(_) | Value::Bin(_, _) => None,
        Value::Id(_) | Value::Flag(_) => None,
    }
}

/// The number of fields.
pub fn count(doc: &Doc) -> usize
    ensures { result ≡ length (entries (pairs_of doc.now)) }
{
    doc.len()
}

/// The name of a collection at `coll`.
pub fn collection_at(doc: &Doc) -> Option<&Text>
    ensures { option_map (λ t. t.now) result ≡ collection_at (pairs_of doc.now) }
{
    match doc.get(b"coll") {
        Some(value) => collection_in(value),
        None => None,
    }
}

// The stages that were met in front of a field, or are this field's.
fn field_step<'a>(
    found: Option<&'a List>,
    name: &[u8],
    value: &'a Value,
) -> Option<Option<&'a List>>
    ensures { option_map (option_map (λ l. trees_of l.now)) result ≡ field_step (option_map (λ l. trees_of l.now) found.entry) name.now (tree_of value.now) }
{
    if is_pipeline(name) {
        match found {
            Some(_) => None,
            None => match list_in(value) {
                Some(list) => Some(Some(list)),
                None => None,
            },
        }
    } else if is_ignored(name) {
        Some(found)
    } else {
        None
    }
}

// The stages behind the first field.
fn pipeline_in(doc: &Doc) -> Option<&List>
    ensures { option_map (λ l. trees_of l.now) result ≡ pipeline_from None (drop 1 doc.now) }
{
    let mut found = None;
    for i in 1..doc.len() {
        let bytes = doc.name(i);
        let value = doc.value(i);
        match field_step(found, bytes, value) {
            Some(next) => found = next,
            None => return None,
        }
    }
    found
}

fn parts_behind<'a>(doc: &'a Doc, value: &'a Value) -> Option<(&'a Text, &'a List)>
    ensures { option_map (λ p. (p.0.now, trees_of p.1.now)) result ≡ named_parts (collection_in (tree_of value.now)) (pipeline_from None (drop 1 doc.now)) }
{
    match collection_in(value) {
        Some(name) => match pipeline_in(doc) {
            Some(list) => Some((name, list)),
            None => None,
        },
        None => None,
    }
}

/// The name of a command's collection, and its stages.
pub fn command_parts(doc: &Doc) -> Option<(&Text, &List)>
    ensures { option_map (λ p. (p.0.now, trees_of p.1.now)) result ≡ command_parts doc.now }
{
    if doc.len() == 0 {
        return None;
    }
    if doc.name(0) == b"aggregate".as_slice() {
        parts_behind(doc, doc.value(0))
    } else {
        None
    }
}
