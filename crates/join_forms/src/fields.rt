//! Fields of a stage's document, and their values.

ghost use Rattle.std.specs.Prelude.{◌≡◌, Some, None, pos};
ghost use Rattle.std.specs.Option.{option_map};
ghost use Rattle.bson_value.specs.View.{tree_of};
ghost use Rattle.expr_read.specs.Reads.{Reads};
ghost use Rattle.expr_tree.specs.View.{node_of};
ghost use Rattle.join_forms.specs.Reading.{form_in, read_at, collection_value, expr_value, one_field, two_fields, is_empty_doc};
ghost use Rattle.stage_parts.specs.Names.{words};
ghost use Rattle.stage_parts.specs.Paths.{path_text};

use bson_value::{Doc, Path, Text, Value};
use expr_read::{FormError, read_expr};
use expr_tree::Expr;
use stage_parts::{doc_in, has_only, read_collection, read_path_text, text_in};
use std::alloc::Global;

/// A field: its name and its value.
pub type Field<'a> = (&'a [u8], &'a Value);

/// The document that a value is, where it has the required names, and no other but these and the optional ones.
pub fn form_in<'a>(value: &'a Value, required: &[&[u8]], optional: &[&[u8]]) -> Option<&'a Doc>
    ensures { option_map (λ d. d.now) result ≡ form_in (words required.now) (words optional.now) (tree_of value.now) }
{
    match doc_in(value) {
        Some(doc) => {
            if has_only(doc, required, optional) {
                Some(doc)
            } else {
                None
            }
        }
        None => None,
    }
}

/// The name of a collection that a value is.
pub fn collection_in(alloc: Global, value: &Value) -> Result<Text, FormError>
    ensures { Reads (λ t. t) result (collection_value (tree_of value.now)) }
{
    match text_in(value) {
        Some(text) => read_collection(alloc, text),
        None => Err(FormError::Form),
    }
}

/// The name of a collection that the value of that name is.
pub fn collection_at(alloc: Global, doc: &Doc, name: &[u8]) -> Result<Text, FormError>
    ensures { Reads (λ t. t) result (read_at collection_value name.now doc.now) }
{
    match doc.get(name) {
        Some(value) => collection_in(alloc, value),
        None => Err(FormError::Form),
    }
}

/// The path that the value of that name is.
pub fn path_at(alloc: Global, doc: &Doc, name: &[u8]) -> Result<Path, FormError>
    ensures { Reads (λ p. p) result (read_at path_text name.now doc.now) }
{
    match doc.get(name) {
        Some(value) => read_path_text(alloc, value),
        None => Err(FormError::Form),
    }
}

/// The expression that the value of that name is.
pub fn expr_at(alloc: Global, doc: &Doc, name: &[u8]) -> Result<Expr, FormError>
    ensures { Reads node_of result (read_at expr_value name.now doc.now) }
{
    match doc.get(name) {
        Some(value) => read_expr(alloc, value),
        None => Err(FormError::Form),
    }
}

/// The one field of a document.
pub fn one_field(doc: &Doc) -> Option<Field<'_>>
    ensures { option_map (λ f. (f.0.now, tree_of f.1.now)) result ≡ one_field doc.now }
{
    if doc.len() == 1 {
        Some((doc.name(0), doc.value(0)))
    } else {
        None
    }
}

/// The two fields of a document.
pub fn two_fields(doc: &Doc) -> Option<(Field<'_>, Field<'_>)>
    ensures { option_map (λ p. ((p.0.0.now, tree_of p.0.1.now), (p.1.0.now, tree_of p.1.1.now))) result ≡ two_fields doc.now }
{
    if doc.len() == 2 {
        Some(((doc.name(0), doc.value(0)), (doc.name(1), doc.value(1))))
    } else {
        None
    }
}

/// The value is a document without fields.
pub fn is_empty_doc(value: &Value) -> bool
    ensures { result ≡ is_empty_doc (tree_of value.now) }
{
    match doc_in(value) {
        Some(doc) => doc.len() == 0,
        None => false,
    }
}
