//! Paths as they are written in a stage.

ghost use Rattle.bson_value.specs.View.{tree_of};
ghost use Rattle.expr_read.specs.Reading.{path_in};
ghost use Rattle.expr_read.specs.Reads.{Reads};
ghost use Rattle.stage_parts.specs.Paths.{behind_sign, path_text, field_path};

use crate::values::text_in;
use bson_value::{Path, PathError, Value};
use expr_read::FormError;
use std::alloc::Global;

/// The path of a text in dot notation (the manual, Dot Notation). It is refused as `Form` exactly where the bytes spell
/// no path.
pub fn read_path(alloc: Global, text: &[u8]) -> Result<Path, FormError>
    ensures { Reads (λ p. p) result (path_in text.now) }
{
    match Path::read(alloc, text) {
        Ok(path) => Ok(path),
        Err(PathError::Bad) => Err(FormError::Form),
        Err(PathError::Memory) => Err(FormError::Memory),
    }
}

fn read_behind_sign(alloc: Global, text: &[u8]) -> Result<Path, FormError>
    ensures { Reads (λ p. p) result (behind_sign text.now) }
{
    match text {
        [b'$', rest @ ..] => read_path(alloc, rest),
        _ => Err(FormError::Form),
    }
}

/// The path that a text is, as `"a.b"`. Another value is refused as `Form`.
pub fn read_path_text(alloc: Global, value: &Value) -> Result<Path, FormError>
    ensures { Reads (λ p. p) result (path_text (tree_of value.now)) }
{
    match text_in(value) {
        Some(text) => read_path(alloc, text.bytes()),
        None => Err(FormError::Form),
    }
}

/// The path that a text with a dollar sign in front is, as `"$a.b"`. Another value is refused as `Form`.
pub fn read_field_path(alloc: Global, value: &Value) -> Result<Path, FormError>
    ensures { Reads (λ p. p) result (field_path (tree_of value.now)) }
{
    match text_in(value) {
        Some(text) => read_behind_sign(alloc, text.bytes()),
        None => Err(FormError::Form),
    }
}
