//! The parts of a value that is read.

ghost use Rattle.std.specs.Prelude.{◌≡◌, ◌<◌, ◌≤◌, ◌==◌, ◌||◌, Some, length, slice_get, IfSome};
ghost use Rattle.std.specs.Char.{is_ascii_alphanumeric};
ghost use Rattle.std.specs.List.{list_all, list_any};
ghost use Rattle.std.specs.Option.{option_map, option_and_then};
ghost use Rattle.bson_value.specs.Tree.{tree_size, pairs_of, pairs_size, trees_of, trees_size};
ghost use Rattle.bson_value.specs.Pairs.{find};
ghost use Rattle.bson_value.specs.View.{tree_of};
ghost use Rattle.expr_read.specs.Reading.{fields_seen, items_seen, seen_of, text_of, chosen_name, operator_in, item_name, unit_in, only_if, is_one, date_field, one_item, date_operand};
ghost use Rattle.expr_read.specs.Reads.{Reads};
ghost use Rattle.expr_read.specs.Rows.{row_of};
ghost use Rattle.expr_read.specs.Seen.{fields_in, items_in};
ghost use Rattle.expr_tree.specs.Forms.{has_sign, is_field_name, is_variable_name};

use crate::errors::FormError;
use crate::row::{Row, row_named, unit_named};
use bson_value::{Doc, List, Name, Text, Unit, Value};
use std::alloc::Global;

pub fn text_in(value: &Value) -> Option<&[u8]>
    ensures { option_map (λ t. t.now) result ≡ text_of (tree_of value.now) }
{
    match value {
        Value::Text(text) => Some(text.bytes()),
        Value::Least | Value::Null | Value::Greatest => None,
        Value::Int(_) | Value::Long(_) | Value::Date(_) | Value::Stamp(_) => None,
        Value::Doc(_) | Value::List(_) | Value::Bin(_, _) => None,
        Value::Id(_) | Value::Flag(_) => None,
    }
}

/// The document that a value is. It is as large as the value.
pub fn doc_in(value: &Value) -> Option<&Doc>
    ensures seen { option_map (λ d. fields_seen d.now) result ≡ fields_in (seen_of (tree_of value.now)) }
    ensures size { IfSome result (λ d. pairs_size (pairs_of d.now) ≡ tree_size (tree_of value.now)) }
{
    match value {
        Value::Doc(doc) => Some(doc),
        Value::Least | Value::Null | Value::Greatest => None,
        Value::Int(_) | Value::Long(_) | Value::Date(_) | Value::Stamp(_) => None,
        Value::Text(_) | Value::List(_) | Value::Bin(_, _) => None,
        Value::Id(_) | Value::Flag(_) => None,
    }
}

/// The array that a value is. It is as large as the value.
pub fn list_in(value: &Value) -> Option<&List>
    ensures seen { option_map (λ l. items_seen l.now) result ≡ items_in (seen_of (tree_of value.now)) }
    ensures size { IfSome result (λ l. trees_size (trees_of l.now) ≡ tree_size (tree_of value.now)) }
{
    match value {
        Value::List(list) => Some(list),
        Value::Least | Value::Null | Value::Greatest => None,
        Value::Int(_) | Value::Long(_) | Value::Date(_) | Value::Stamp(_) => None,
        Value::Text(_) | Value::Doc(_) | Value::Bin(_, _) => None,
        Value::Id(_) | Value::Flag(_) => None,
    }
}

/// The number of fields.
pub fn count(doc: &Doc) -> usize
    ensures { result ≡ length (fields_seen doc.now) }
{
    doc.len()
}

/// The number of items.
pub fn count_items(list: &List) -> usize
    ensures { result ≡ length (items_seen list.now) }
{
    list.len()
}

/// The value at that name. It is smaller than the document.
pub fn field_of<'a>(doc: &'a Doc, name: &[u8]) -> Option<&'a Value>
    ensures seen { option_map (λ v. seen_of (tree_of v.now)) result ≡ find name.now (fields_seen doc.now) }
    ensures size { IfSome result (λ v. tree_size (tree_of v.now) < pairs_size (pairs_of doc.now)) }
{
    doc.get(name)
}

/// The item at that place. It is smaller than the array.
pub fn item_of(list: &List, i: usize) -> Option<&Value>
    ensures seen { option_map (λ v. seen_of (tree_of v.now)) result ≡ slice_get (items_seen list.now) i }
    ensures size { IfSome result (λ v. tree_size (tree_of v.now) < trees_size (trees_of list.now)) }
{
    if i < list.len() {
        Some(list.value(i))
    } else {
        None
    }
}

/// The bytes begin with a dollar sign.
pub fn has_sign(name: &[u8]) -> bool
    ensures { result ≡ has_sign name.now }
{
    match name {
        [b'$', ..] => true,
        _ => false,
    }
}

fn has_dot(name: &[u8]) -> bool
    ensures { result ≡ list_any (λ b. b == 46) name.now }
{
    name.iter().any(|b| *b == b'.')
}

/// A document that an expression makes can have the name.
pub fn is_field_name(name: &[u8]) -> bool
    ensures { result ≡ is_field_name name.now }
{
    !has_sign(name) && !has_dot(name)
}

fn are_word(bytes: &[u8]) -> bool
    ensures { result ≡ list_all (λ c. is_ascii_alphanumeric c || c == 95) bytes.now }
{
    bytes
        .iter()
        .all(|b| b.is_ascii_alphanumeric() || *b == b'_')
}

/// An expression can bind the name.
pub fn is_variable_name(name: &[u8]) -> bool
    ensures { result ≡ is_variable_name name.now }
{
    match name {
        [] => false,
        [first, rest @ ..] => first.is_ascii_lowercase() && are_word(rest),
    }
}

fn operator_of(doc: &Doc) -> Option<Option<Row>>
    ensures row { option_map (λ row. option_map row_of row) result ≡ operator_in doc.now }
    ensures one { IfSome result (λ _. 0 < length doc.now) }
{
    if doc.len() != 1 {
        return None;
    }
    let name = doc.name(0);
    if has_sign(name) {
        Some(row_named(name))
    } else {
        None
    }
}

/// Where the document is an operator, what that takes, if there is such an operator.
pub fn operator_in(doc: &Doc) -> Option<Option<Row>>
    ensures row { option_map (λ row. option_map row_of row) result ≡ operator_in (fields_seen doc.now) }
    ensures one { IfSome result (λ _. 0 < length doc.now) }
{
    operator_of(doc)
}

fn variable_in(value: &Value) -> Option<&[u8]>
    ensures { option_map (λ t. t.now) result ≡ option_and_then chosen_name (text_of (tree_of value.now)) }
{
    match text_in(value) {
        Some(name) => {
            if is_variable_name(name) {
                Some(name)
            } else {
                None
            }
        }
        None => None,
    }
}

/// The name of an element in `$map` or `$filter`: that at `as`, and `this` in a document of two fields.
pub fn item_name(doc: &Doc) -> Option<&[u8]>
    ensures { option_map (λ t. t.now) result ≡ item_name (fields_seen doc.now) }
{
    let count = count(doc);
    if count == 2 {
        return Some(b"this");
    }
    if count != 3 {
        return None;
    }
    match field_of(doc, b"as") {
        Some(value) => variable_in(value),
        None => None,
    }
}

/// The unit of a document with dates.
pub fn unit_in(doc: &Doc) -> Option<Unit>
    ensures { result ≡ unit_in (fields_seen doc.now) }
{
    match field_of(doc, b"unit") {
        Some(value) => match text_in(value) {
            Some(name) => unit_named(name),
            None => None,
        },
        None => None,
    }
}

/// A field of that name can be in a document that is made.
pub fn field_name(alloc: Global, name: &[u8]) -> Result<Name, FormError>
    ensures { Reads (λ n. n) result (only_if (is_field_name name.now) (Some name.now)) }
{
    if !is_field_name(name) {
        return Err(FormError::Form);
    }
    match Name::read(alloc, name) {
        Ok(name) => Ok(name),
        Err(_) => Err(FormError::Memory),
    }
}

/// An expression can bind that name.
pub fn variable_name(alloc: Global, name: &[u8]) -> Result<Text, FormError>
    ensures { Reads (λ n. n) result (only_if (is_variable_name name.now) (Some name.now)) }
{
    if !is_variable_name(name) {
        return Err(FormError::Form);
    }
    match Text::read(alloc, name) {
        Ok(name) => Ok(name),
        Err(_) => Err(FormError::Memory),
    }
}

/// The bound is one.
pub fn is_one(most: Option<usize>) -> bool
    ensures { result ≡ is_one most }
{
    match most {
        Some(most) => most == 1,
        None => false,
    }
}

fn date_in<'a>(value: &'a Value, doc: &'a Doc) -> &'a Value
    ensures seen { seen_of (tree_of result.now) ≡ date_field (seen_of (tree_of value.now)) (fields_seen doc.now) }
    ensures size { pairs_size (pairs_of doc.now) ≤ tree_size (tree_of value.now) → tree_size (tree_of result.now) ≤ tree_size (tree_of value.now) }
{
    match field_of(doc, b"date") {
        Some(date) => { if count(doc) == 1 { date } else { value } }
        None => value,
    }
}

fn only_item(list: &List) -> Option<&Value>
    ensures seen { option_map (λ v. seen_of (tree_of v.now)) result ≡ one_item (items_seen list.now) }
    ensures size { IfSome result (λ v. tree_size (tree_of v.now) < trees_size (trees_of list.now)) }
{
    if count_items(list) == 1 {
        item_of(list, 0)
    } else {
        None
    }
}

/// The operand of a part of a date: that at `date` of a document of one field, the item of an array of one, or the
/// value itself.
pub fn date_of(value: &Value) -> Option<&Value>
    ensures seen { option_map (λ v. seen_of (tree_of v.now)) result ≡ date_operand (seen_of (tree_of value.now)) }
    ensures size { IfSome result (λ v. tree_size (tree_of v.now) ≤ tree_size (tree_of value.now)) }
{
    match value {
        Value::List(list) => only_item(list),
        Value::Doc(doc) => Some(date_in(value, doc)),
        Value::Least | Value::Null | Value::Greatest => Some(value),
        Value::Int(_) | Value::Long(_) | Value::Date(_) | Value::Stamp(_) => Some(value),
        Value::Text(_) | Value::Bin(_, _) => Some(value),
        Value::Id(_) | Value::Flag(_) => Some(value),
    }
}
