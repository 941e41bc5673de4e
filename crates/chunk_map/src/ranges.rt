//! The ranges of chunks.

ghost use Rattle.std.specs.Prelude.{◌≡◌, ◌≤◌, ◌==◌, None, length, option_map};
ghost use Rattle.std.specs.List.{list_all};
ghost use Rattle.bson_value.specs.Order.{class};
ghost use Rattle.chunk_map.specs.Keys.{key_order, begins, follows};
ghost use Rattle.chunk_map.specs.Form.{chunks_fault};

use crate::{Chunk, ClusterWhy};
use bson_value::{List, class_of, compare};
use std::cmp::Ordering;

const LOWEST: u8 = 1;

const HIGHEST: u8 = 12;

// Part by part, up to the first difference.
fn compare_keys(a: &List, b: &List) -> Ordering
    ensures { result ≡ key_order a.now b.now }
{
    for i in 0..a.len().min(b.len()) {
        match compare(a.value(i), b.value(i)) {
            Ordering::Equal => {}
            by_part => return by_part,
        }
    }
    a.len().cmp(&b.len())
}

fn have_class(key: &List, number: u8) -> bool
    ensures { result ≡ list_all (λ t. class t == number) key.now }
{
    for i in 0..key.len() {
        if class_of(key.value(i)) != number {
            return false;
        }
    }
    true
}

// Whether a range may begin at this key, where the one before it ended at that.
fn begins(ended: Option<&List>, lowest: &List) -> bool
    ensures { result ≡ begins (option_map (λ k. k.now) ended.entry) lowest.now }
{
    match ended {
        Some(ended) => compare_keys(ended, lowest).is_eq(),
        None => have_class(lowest, LOWEST),
    }
}

fn follows(ended: Option<&List>, last: bool, chunk: &Chunk) -> bool
    ensures { result ≡ follows (option_map (λ k. k.now) ended.entry) last chunk.now }
{
    begins(ended, chunk.min())
        && compare_keys(chunk.min(), chunk.max()).is_lt()
        && (!last || have_class(chunk.max(), HIGHEST))
}

/// What is wrong with chunks over so many shards: the number of the first whose range doesn't follow those before, or
/// whose shard isn't listed.
pub fn chunks_fault(shards: usize, chunks: &[Chunk]) -> Option<(u32, ClusterWhy)>
    requires { length chunks.now ≤ 10000 }
    ensures { result ≡ chunks_fault shards 1 None chunks.now }
{
    let mut ended = None;
    for i in 0..chunks.len() {
        let chunk = &chunks[i];
        if !follows(ended, i + 1 == chunks.len(), chunk) {
            return Some((i as u32 + 1, ClusterWhy::Range));
        }
        if chunk.shard() as usize >= shards {
            return Some((i as u32 + 1, ClusterWhy::Shard));
        }
        ended = Some(chunk.max());
    }
    None
}
