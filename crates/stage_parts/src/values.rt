//! A value as what it is.

ghost use Rattle.std.specs.Prelude.{◌≡◌, IfSome};
ghost use Rattle.std.specs.Option.{option_map};
ghost use Rattle.bson_value.specs.Tree.{tree_size, pairs_of, pairs_size, trees_of, trees_size};
ghost use Rattle.bson_value.specs.View.{tree_of};
ghost use Rattle.stage_parts.specs.Values.{as_text, as_fields, as_items, as_whole, as_flag, as_count, natural};

use bson_value::{Doc, List, Text, Value};

/// The text that a value is. None exactly where it is no text.
pub fn text_in(value: &Value) -> Option<&Text>
    ensures { option_map (λ t. t.now) result ≡ as_text (tree_of value.now) }
{
    match value {
        Value::Text(text) => Some(text),
        Value::Least | Value::Null | Value::Greatest => None,
        Value::Int(_) | Value::Long(_) | Value::Date(_) | Value::Stamp(_) => None,
        Value::Doc(_) | Value::List(_) | Value::Bin(_, _) => None,
        Value::Id(_) | Value::Flag(_) => None,
    }
}

/// The document that a value is. None exactly where it is no document. It is as large as the value.
pub fn doc_in(value: &Value) -> Option<&Doc>
    ensures fields { option_map (λ d. d.now) result ≡ as_fields (tree_of value.now) }
    ensures size { IfSome result (λ d. pairs_size (pairs_of d.now) ≡ tree_size (tree_of value.now)) }
{
    match value {
        Value::Doc(doc) => Some(doc),
        Value::Least | Value::Null | Value::Greatest => None,
        Value::Int(_) | Value::Long(_) | Value::Date(_) | Value::Stamp(_) => None,
        Value::Text(_) | Value::List(_) | Value::Bin(_, _) => None,
        Value::Id(_) | Value::Flag(_) => None,
    }
}

/// The array that a value is. None exactly where it is no array. It is as large as the value.
pub fn list_in(value: &Value) -> Option<&List>
    ensures items { option_map (λ l. l.now) result ≡ as_items (tree_of value.now) }
    ensures size { IfSome result (λ l. trees_size (trees_of l.now) ≡ tree_size (tree_of value.now)) }
{
    match value {
        Value::List(list) => Some(list),
        Value::Least | Value::Null | Value::Greatest => None,
        Value::Int(_) | Value::Long(_) | Value::Date(_) | Value::Stamp(_) => None,
        Value::Text(_) | Value::Doc(_) | Value::Bin(_, _) => None,
        Value::Id(_) | Value::Flag(_) => None,
    }
}

/// The whole number that a value is, of 32 or of 64 bits. None exactly where it is none.
pub fn whole_in(value: &Value) -> Option<i64>
    ensures { result ≡ as_whole (tree_of value.now) }
{
    match value {
        Value::Int(n) => Some(i64::from(*n)),
        Value::Long(n) => Some(*n),
        Value::Least | Value::Null | Value::Greatest => None,
        Value::Date(_) | Value::Stamp(_) => None,
        Value::Text(_) | Value::Doc(_) | Value::List(_) | Value::Bin(_, _) => None,
        Value::Id(_) | Value::Flag(_) => None,
    }
}

/// The flag that a value is. None exactly where it is none.
pub fn flag_in(value: &Value) -> Option<bool>
    ensures { result ≡ as_flag (tree_of value.now) }
{
    match value {
        Value::Flag(flag) => Some(*flag),
        Value::Least | Value::Null | Value::Greatest => None,
        Value::Int(_) | Value::Long(_) | Value::Date(_) | Value::Stamp(_) => None,
        Value::Text(_) | Value::Doc(_) | Value::List(_) | Value::Bin(_, _) => None,
        Value::Id(_) => None,
    }
}

fn natural(n: i64) -> Option<u64>
    ensures { result ≡ natural n }
{
    if n < 0 { None } else { Some(n as u64) }
}

/// The whole number that a value is, where it isn't negative. None exactly where it is no such number.
pub fn count_in(value: &Value) -> Option<u64>
    ensures { result ≡ as_count (tree_of value.now) }
{
    match whole_in(value) {
        Some(n) => natural(n),
        None => None,
    }
}
