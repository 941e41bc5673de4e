//! Window functions.

ghost use Rattle.std.specs.Prelude.{◌≡◌, Some, IfOk};
ghost use Rattle.bson_value.specs.Operands.{or_null};
ghost use Rattle.bson_value.specs.Pairs.{find};
ghost use Rattle.bson_value.specs.View.{tree_of};
ghost use Rattle.expr_read.specs.Reads.{Reads};
ghost use Rattle.join_forms.specs.Reading.{read_at, accumulated, framed, shift_in, shift_value, bare_function, alone, with_window, function_in, function};
ghost use Rattle.join_forms.specs.Views.{frame_of};
ghost use Rattle.stage_parts.specs.Values.{as_whole};
ghost use Rattle.stage_tree.specs.StageView.{window_of};

use crate::accumulators::{has_window, read_accumulator};
use crate::fields::{Field, expr_at, form_in, is_empty_doc, one_field, two_fields};
use crate::frame::{Frame, frame_in};
use bson_value::{Doc, NoMemory, Value};
use expr_read::FormError;
use stage_parts::{doc_in, whole_in};
use stage_tree::{Edge, WindowFn};
use std::alloc::Global;

const SHIFT_REQUIRED: [&[u8]; 2] = [b"output", b"by"];

const SHIFT_OPTIONAL: [&[u8]; 1] = [b"default"];

// An accumulator over a frame.
fn read_accumulated(
    alloc: Global,
    name: &[u8],
    value: &Value,
    frame: Frame,
) -> Result<WindowFn, FormError>
    ensures { Reads window_of result (accumulated name.now (tree_of value.now) (frame_of frame)) }
{
    let (kind, argument) = read_accumulator(alloc, name, value)?;
    if has_window(kind) {
        Ok(WindowFn::Acc(kind, argument, frame.0, frame.1))
    } else {
        Err(FormError::Form)
    }
}

fn read_framed(
    alloc: Global,
    name: &[u8],
    value: &Value,
    window: &Value,
) -> Result<WindowFn, FormError>
    ensures { Reads window_of result (framed name.now (tree_of value.now) (tree_of window.now)) }
{
    match frame_in(window) {
        Some(frame) => read_accumulated(alloc, name, value, frame),
        None => Err(FormError::Form),
    }
}

fn whole_at(doc: &Doc, name: &[u8]) -> Option<i64>
    ensures { result ≡ read_at as_whole name.now doc.now }
{
    match doc.get(name) {
        Some(value) => whole_in(value),
        None => None,
    }
}

// The value of that name, and null where it isn't there.
fn value_at(alloc: Global, doc: &Doc, name: &[u8]) -> Result<Value, NoMemory>
    ensures { IfOk result (λ v. tree_of v ≡ or_null (find name.now doc.now)) }
{
    match doc.get(name) {
        Some(value) => Ok(value.copy(alloc)?),
        None => Ok(Value::Null),
    }
}

fn read_shift_in(alloc: Global, doc: &Doc) -> Result<WindowFn, FormError>
    ensures { Reads window_of result (shift_in doc.now) }
{
    match whole_at(doc, b"by") {
        Some(by) => {
            let output = expr_at(alloc, doc, b"output")?;
            let default = value_at(alloc, doc, b"default")?;
            Ok(WindowFn::Shift(output, by, default))
        }
        None => Err(FormError::Form),
    }
}

fn read_shift(alloc: Global, value: &Value) -> Result<WindowFn, FormError>
    ensures { Reads window_of result (shift_value (tree_of value.now)) }
{
    match form_in(value, &SHIFT_REQUIRED, &SHIFT_OPTIONAL) {
        Some(doc) => read_shift_in(alloc, doc),
        None => Err(FormError::Form),
    }
}

// A function that takes an empty document, where it is allowed.
fn bare(allowed: bool, value: &Value, function: WindowFn) -> Result<WindowFn, FormError>
    ensures { Reads window_of result (bare_function allowed (tree_of value.now) (window_of function)) }
{
    if allowed && is_empty_doc(value) {
        Ok(function)
    } else {
        Err(FormError::Form)
    }
}

// A function that stands without a window.
fn read_alone(
    alloc: Global,
    sorted: bool,
    name: &[u8],
    value: &Value,
) -> Result<WindowFn, FormError>
    ensures { Reads window_of result (alone sorted name.now (tree_of value.now)) }
{
    if name == b"$rank".as_slice() {
        bare(sorted, value, WindowFn::Rank)
    } else if name == b"$denseRank".as_slice() {
        bare(sorted, value, WindowFn::DenseRank)
    } else if name == b"$documentNumber".as_slice() {
        bare(true, value, WindowFn::Number)
    } else if name == b"$shift".as_slice() {
        read_shift(alloc, value)
    } else {
        read_accumulated(alloc, name, value, (Edge::Unbounded, Edge::Unbounded))
    }
}

// A function and its window, in either order.
fn read_with_window(
    alloc: Global,
    first: Field<'_>,
    second: Field<'_>,
) -> Result<WindowFn, FormError>
    ensures { Reads window_of result (with_window ((first.entry.0.now, tree_of first.entry.1.now), (second.entry.0.now, tree_of second.entry.1.now))) }
{
    if first.0 == b"window".as_slice() {
        read_framed(alloc, second.0, second.1, first.1)
    } else if second.0 == b"window".as_slice() {
        read_framed(alloc, first.0, first.1, second.1)
    } else {
        Err(FormError::Form)
    }
}

fn read_function_in(alloc: Global, sorted: bool, doc: &Doc) -> Result<WindowFn, FormError>
    ensures { Reads window_of result (function_in sorted doc.now) }
{
    if let Some((name, value)) = one_field(doc) {
        return read_alone(alloc, sorted, name, value);
    }
    match two_fields(doc) {
        Some((first, second)) => read_with_window(alloc, first, second),
        None => Err(FormError::Form),
    }
}

/// The window function that the value of an output is. Ranks need documents that are sorted.
pub fn read_function(alloc: Global, sorted: bool, value: &Value) -> Result<WindowFn, FormError>
    ensures { Reads window_of result (function sorted (tree_of value.now)) }
{
    match doc_in(value) {
        Some(doc) => read_function_in(alloc, sorted, doc),
        None => Err(FormError::Form),
    }
}
