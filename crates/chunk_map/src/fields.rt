//! Fields of the documents in a cluster file.

ghost use Rattle.std.specs.Prelude.{◌≡◌, ◌≤◌, length, option_map, option_and_then, IfSome};
ghost use Rattle.bson_value.specs.View.{tree_of};
ghost use Rattle.chunk_map.specs.Form.{text_of, doc_of, list_of, is_one, field_at, text_at, doc_at, list_at, some_few, collections_in};

use bson_value::{Doc, List, Text, Value};

fn text_in(value: &Value) -> Option<&Text>
    ensures { option_map (λ t. t.now) result ≡ text_of (tree_of value.now) }
{
    match value {
        Value::Text(text) => Some(text),
        Value::Least | Value::Null | Value::Greatest => None,
        Value::Int(_) | Value::Long(_) | Value::Date(_) | Value::Stamp(_) => None,
        Value::Doc(_) | Value::List(_) | Value::Bin(_, _) => None,
        Value::Id(_) | Value::Flag(_) => None,
    }
}

/// The document that a value is.
pub fn doc_in(value: &Value) -> Option<&Doc>
    ensures { option_map (λ d. d.now) result ≡ doc_of (tree_of value.now) }
{
    match value {
        Value::Doc(doc) => Some(doc),
        Value::Least | Value::Null | Value::Greatest => None,
        Value::Int(_) | Value::Long(_) | Value::Date(_) | Value::Stamp(_) => None,
        Value::Text(_) | Value::List(_) | Value::Bin(_, _) => None,
        Value::Id(_) | Value::Flag(_) => None,
    }
}

fn list_in(value: &Value) -> Option<&List>
    ensures { option_map (λ l. l.now) result ≡ list_of (tree_of value.now) }
{
    match value {
        Value::List(list) => Some(list),
        Value::Least | Value::Null | Value::Greatest => None,
        Value::Int(_) | Value::Long(_) | Value::Date(_) | Value::Stamp(_) => None,
        Value::Text(_) | Value::Doc(_) | Value::Bin(_, _) => None,
        Value::Id(_) | Value::Flag(_) => None,
    }
}

/// Whether a value is the number 1.
pub fn is_one(value: &Value) -> bool
    ensures { result ≡ is_one (tree_of value.now) }
{
    match value {
        Value::Int(n) => *n == 1,
        Value::Long(n) => *n == 1,
        Value::Least | Value::Null | Value::Greatest => false,
        Value::Date(_) | Value::Stamp(_) => false,
        Value::Text(_) | Value::Doc(_) | Value::List(_) | Value::Bin(_, _) => false,
        Value::Id(_) | Value::Flag(_) => false,
    }
}

// The value of the field at that place, where it has this name.
fn field_in<'a>(doc: &'a Doc, place: usize, name: &[u8]) -> Option<&'a Value>
    ensures { option_map (λ v. tree_of v.now) result ≡ field_at place name.now doc.now }
{
    if place < doc.len() && doc.name(place) == name {
        Some(doc.value(place))
    } else {
        None
    }
}

/// The text in the field at that place, where it has this name.
pub fn text_field<'a>(doc: &'a Doc, place: usize, name: &[u8]) -> Option<&'a Text>
    ensures { option_map (λ t. t.now) result ≡ text_at place name.now doc.now }
{
    match field_in(doc, place, name) {
        Some(value) => text_in(value),
        None => None,
    }
}

/// The document in the field at that place, where it has this name.
pub fn doc_field<'a>(doc: &'a Doc, place: usize, name: &[u8]) -> Option<&'a Doc>
    ensures { option_map (λ d. d.now) result ≡ doc_at place name.now doc.now }
{
    match field_in(doc, place, name) {
        Some(value) => doc_in(value),
        None => None,
    }
}

/// The list in the field at that place, where it has this name.
pub fn list_field<'a>(doc: &'a Doc, place: usize, name: &[u8]) -> Option<&'a List>
    ensures { option_map (λ l. l.now) result ≡ list_at place name.now doc.now }
{
    match field_in(doc, place, name) {
        Some(value) => list_in(value),
        None => None,
    }
}

/// A list of 1 to so many items.
pub fn some_few(most: usize, list: &List) -> Option<&List>
    ensures list { option_map (λ l. l.now) result ≡ some_few most list.now }
    ensures few { IfSome result (λ l. length l.now ≤ most) }
{
    if 1 <= list.len() && list.len() <= most {
        Some(list)
    } else {
        None
    }
}

/// The list of collections in a cluster file's document.
#[tactic(auto, unfolding(crate::specs::Form::collections_in))]
pub fn collections_in(doc: &Doc) -> Option<&List>
    ensures list { option_map (λ l. l.now) result ≡ collections_in doc.now }
    ensures few { IfSome result (λ l. length l.now ≤ 100) }
{
    if doc.len() != 2 {
        return None;
    }
    let Some(one) = field_in(doc, 0, b"cluster") else {
        return None;
    };
    if !is_one(one) {
        return None;
    }
    match list_field(doc, 1, b"collections") {
        Some(list) => some_few(100, list),
        None => None,
    }
}
