//! Reading of records from a front of what stands at their place.

ghost use Rattle.std.specs.Prelude.{◌≡◌, ◌+◌, ◌<◌, ◌≤◌, ◌^◌, length, Err, IfOk, ℕ, List as Seq};
ghost use Rattle.bson_value.specs.declared.bad.BadWhy.TheVariants.{Truncated};
ghost use Rattle.bson_value.specs.declared.bad.BadBson.{BadBson};
ghost use Rattle.bson_codec.specs.Fronts.{needed, IsFrontAt};
ghost use Rattle.bson_codec.specs.Reading.{Gives, doc_at, value_at, read_at};
ghost use Rattle.bson_codec.specs.Spelling.{IsSpelledAt};

use crate::error::DecodeError;
use crate::reading::doc_of;
use bson_value::{BadWhy, Doc};
use std::alloc::Global;

/// How many bytes a front is to have, so that the record at its begin can be read: four for the length, and then as
/// many as the length says, where a record has that length.
#[tactic(auto, unfolding(crate::specs::Fronts::needed))]
pub fn needed_of(front: &[u8]) -> usize
    ensures { result ≡ needed front.now }
{
    if front.len() < 4 {
        return 4;
    }
    let (head, _) = front.split_at(4);
    let len = u32::from_le_bytes([head[0], head[1], head[2], head[3]]);
    if len < 5 || len > 16_777_216 {
        return 4;
    }
    len as usize
}

fn front_of(alloc: Global, front: &[u8], at: usize) -> Result<(Doc, &[u8]), DecodeError>
    requires { at + length front.now < 2 ^ 63 }
    ensures exact { Gives (λ x. (x.0, x.1.now)) result (doc_at (value_at 99) Truncated 16777216 at front.now) }
    ensures sizes { IfOk result (λ x. length x.1.now ≤ length front.now) }
{
    doc_of(alloc, 99, BadWhy::Truncated, 16_777_216, at, front)
}

/// The record at the begin of a front of what stands at a place of a file, and its length. The place of a fault is
/// counted from the file's begin.
pub fn decode_front(alloc: Global, front: &[u8], at: usize) -> Result<(Doc, usize), DecodeError>
    requires { at + length front.now < 2 ^ 63 }
    ensures found { IfOk result (λ x. (file : Seq ℕ) → IsFrontAt file at front.now → IsSpelledAt file at x.0 (at + x.1)) }
    ensures size { IfOk result (λ x. (0 < x.1) × (x.1 ≤ length front.now)) }
    ensures faults { (b : BadBson) → result ≡ Err (DecodeError.Bad b) → (file : Seq ℕ) → IsFrontAt file at front.now → read_at at file ≡ Err b }
{
    match front_of(alloc, front, at) {
        Ok((doc, after)) => Ok((doc, front.len() - after.len())),
        Err(e) => Err(e),
    }
}
