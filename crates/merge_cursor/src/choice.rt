//! Which shard is asked, and which shard's front comes next.

ghost use Rattle.std.specs.Prelude.{◌≡◌, ◌<◌, ◌≤◌, ◌+◌, ◌↔◌, [], true, false, length, IsTrue, MatchOption};
ghost use Rattle.std.specs.List.{AllWithin};
ghost use Rattle.merge_cursor.specs.Whole.{key_before};
ghost use Rattle.merge_cursor.specs.Shards.{is_used_up, CanArrive, CanEnd, NoneIdle, IsFirstIdle, TakesFront, HasFront, IsBestSoFar};
ghost use Rattle.merge_cursor.specs.Choices.{IsChoice};

use crate::item::Keyed;
use crate::shards::Shard;

/// The shard with the least front, or why there is none.
#[derive(Clone, Copy)]
pub(crate) enum Choice {
    Front(usize),
    /// A shard that may give more has nothing waiting.
    Lacking,
    /// Each shard is used up.
    Empty,
}

pub(crate) fn may_arrive(shards: &[Shard], i: usize) -> bool
    ensures { IsTrue result ↔ CanArrive shards.now i }
{
    if i < shards.len() {
        shards[i].can_answer()
    } else {
        false
    }
}

pub(crate) fn may_end(shards: &[Shard], i: usize) -> bool
    ensures { IsTrue result ↔ CanEnd shards.now i }
{
    if i < shards.len() {
        shards[i].has_begun()
    } else {
        false
    }
}

/// The first shard that is to be asked.
pub(crate) fn first_idle(shards: &[Shard]) -> Option<usize>
    ensures { MatchOption result (NoneIdle shards.now) (IsFirstIdle shards.now) }
{
    for i in 0..shards.len() {
        if shards[i].is_idle() {
            return Some(i);
        }
    }
    None
}

/// The first shard from there on that is not used up.
pub(crate) fn skip_used_up(shards: &[Shard], from: usize) -> usize
    requires within { from ≤ length shards.now }
    requires before { AllWithin (λ s. is_used_up s ≡ true) shards.now 0 from }
    ensures within { result ≤ length shards.now }
    ensures before { AllWithin (λ s. is_used_up s ≡ true) shards.now 0 result }
    ensures at { result < length shards.now → AllWithin (λ s. is_used_up s ≡ false) shards.now result (result + 1) }
{
    for i in from..shards.len() {
        if !shards[i].is_used_up() {
            return i;
        }
    }
    shards.len()
}

/// The front of that shard, which leaves it.
pub(crate) fn take_front(shards: &mut Vec<Shard>, i: usize) -> Option<Keyed>
    requires { i < length shards.old.items }
    ensures { MatchOption result ((shards.new.items ≡ shards.old.items) × AllWithin (λ s. s.waiting ≡ []) shards.old.items i (i + 1)) (λ x. TakesFront shards.old.items i x shards.new.items) }
{
    shards[i].waiting.take_first()
}

fn comes_before(a: &Keyed, b: &Keyed) -> bool
    ensures { result ≡ key_before a.now b.now }
{
    a.key.bytes().cmp(b.key.bytes()).is_lt()
}

// The better of the best so far and the front of the i-th shard. Of equal keys the earlier shard's is kept.
fn better(shards: &[Shard], best: Option<usize>, i: usize, front: &Keyed) -> Option<usize>
    requires best { IsBestSoFar shards.now best i }
    requires front { HasFront shards.now i front.now }
    ensures { IsBestSoFar shards.now result (i + 1) }
{
    match best {
        None => Some(i),
        Some(b) => match shards[b].waiting.first() {
            None => unreachable!(),
            Some(least) => {
                if comes_before(front, least) {
                    Some(i)
                } else {
                    Some(b)
                }
            }
        },
    }
}

/// The first shard with the least front.
pub(crate) fn least_front(shards: &[Shard]) -> Choice
    ensures { IsChoice shards.now result }
{
    let mut best = None;
    for i in 0..shards.len() {
        match shards[i].waiting.first() {
            None => {
                if !shards[i].progress.is_over() {
                    return Choice::Lacking;
                }
            }
            Some(front) => {
                best = better(shards, best, i, front);
            }
        }
    }
    match best {
        None => Choice::Empty,
        Some(i) => Choice::Front(i),
    }
}
