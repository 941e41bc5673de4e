//! Names of fields and of collections.

ghost use Rattle.std.specs.Prelude.{◌≡◌, Some};
ghost use Rattle.std.specs.List.{list_all};
ghost use Rattle.stage_parts.specs.Names.{words, is_one_of, is_known, has_each, has_only, is_name, is_unsigned, has_dot, made_name, field_name, is_letter_or_digit, is_collection_byte, is_collection_name, collection_name};
ghost use Rattle.expr_read.specs.Reading.{only_if};
ghost use Rattle.expr_read.specs.Reads.{Reads};

use bson_value::{Doc, Name, Text, TextError};
use expr_read::FormError;
use std::alloc::Global;

fn is_one_of(names: &[&[u8]], name: &[u8]) -> bool
    ensures { result ≡ is_one_of (words names.now) name.now }
{
    match names {
        [] => false,
        [first, rest @ ..] => *first == name || is_one_of(rest, name),
    }
}

fn has_each(doc: &Doc, names: &[&[u8]]) -> bool
    ensures { result ≡ has_each (words names.now) doc.now }
{
    match names {
        [] => true,
        [first, rest @ ..] => doc.get(first).is_some() && has_each(doc, rest),
    }
}

fn is_known(name: &[u8], required: &[&[u8]], optional: &[&[u8]]) -> bool
    ensures { result ≡ is_known (words required.now) (words optional.now) name.now }
{
    is_one_of(required, name) || is_one_of(optional, name)
}

fn are_known(doc: &Doc, required: &[&[u8]], optional: &[&[u8]]) -> bool
    ensures { result ≡ list_all (λ p. is_known (words required.now) (words optional.now) p.0) doc.now }
{
    for i in 0..doc.len() {
        if !is_known(doc.name(i), required, optional) {
            return false;
        }
    }
    true
}

/// The document has each name that is required, and no other but these and the optional ones. The lists are short:
/// each name of the document is looked for in both.
pub fn has_only(doc: &Doc, required: &[&[u8]], optional: &[&[u8]]) -> bool
    ensures { result ≡ has_only (words required.now) (words optional.now) doc.now }
{
    has_each(doc, required) && are_known(doc, required, optional)
}

fn is_unsigned(name: &[u8]) -> bool
    ensures { result ≡ is_unsigned name.now }
{
    match name {
        [] => false,
        [first, ..] => *first != b'$',
    }
}

fn has_dot(name: &[u8]) -> bool
    ensures { result ≡ has_dot name.now }
{
    name.iter().any(|b| *b == b'.')
}

fn read_name(alloc: Global, name: &[u8]) -> Result<Name, FormError>
    ensures { Reads (λ n. n) result (only_if (is_name name.now) (Some name.now)) }
{
    match Name::read(alloc, name) {
        Ok(name) => Ok(name),
        Err(TextError::NotText) => Err(FormError::Form),
        Err(TextError::Memory) => Err(FormError::Memory),
    }
}

/// A name that a stage makes. It is refused as `Form` exactly where it is empty, begins with `$`, isn't UTF-8 or holds
/// a byte 0.
pub fn read_made_name(alloc: Global, name: &[u8]) -> Result<Name, FormError>
    ensures { Reads (λ n. n) result (made_name name.now) }
{
    if is_unsigned(name) {
        read_name(alloc, name)
    } else {
        Err(FormError::Form)
    }
}

/// A name that a stage makes and that holds no dot; refused as `Form` for a dot too.
pub fn read_field_name(alloc: Global, name: &[u8]) -> Result<Name, FormError>
    ensures { Reads (λ n. n) result (field_name name.now) }
{
    if has_dot(name) {
        Err(FormError::Form)
    } else {
        read_made_name(alloc, name)
    }
}

fn is_letter_or_digit(b: u8) -> bool
    ensures { result ≡ is_letter_or_digit b }
{
    (48 <= b && b <= 57) || (65 <= b && b <= 90) || (97 <= b && b <= 122)
}

fn is_collection_byte(b: u8) -> bool
    ensures { result ≡ is_collection_byte b }
{
    is_letter_or_digit(b) || b == b'_' || b == b'-' || b == b'.'
}

fn are_collection_bytes(name: &[u8]) -> bool
    ensures { result ≡ list_all is_collection_byte name.now }
{
    name.iter().all(|b| is_collection_byte(*b))
}

/// A collection can have the name: 1 to 120 ASCII letters, digits, `_`, `-` and `.`.
pub fn is_collection_name(name: &[u8]) -> bool
    ensures { result ≡ is_collection_name name.now }
{
    let len = name.len();
    1 <= len && len <= 120 && are_collection_bytes(name)
}

/// The name of a collection: 1 to 120 ASCII letters, digits, `_`, `-` and `.`. Any other text is refused as `Form`.
pub fn read_collection(alloc: Global, text: &Text) -> Result<Text, FormError>
    ensures { Reads (λ t. t) result (collection_name text.now) }
{
    if is_collection_name(text.bytes()) {
        Ok(text.copy(alloc)?)
    } else {
        Err(FormError::Form)
    }
}
