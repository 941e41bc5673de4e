//! The merging core.

ghost use Rattle.std.specs.Prelude.{◌≡◌, ◌<◌, ◌↔◌, ◌∷◌, MatchOption, IsTrue, IfOk, None, length, slice_set, replicate, []};
ghost use Rattle.merge_cursor.specs.Core.{lesser};
ghost use Rattle.merge_cursor.specs.Shards.{NoneIdle, AllUsedUp, Lacks, Becomes, CanArrive, CanEnd};
ghost use Rattle.merge_cursor.specs.Schedule.{start, arrives, ends, Asks, Arrives, Ends, StandsFor};
ghost use Rattle.merge_cursor.specs.Laws.{Carries, HasTakenPrefix, HasTakenAll, HasLeast};
ghost use Rattle.merge_cursor.specs.Answers.{Answers, asked, take_of, took};

use crate::answer::Take;
use crate::choice::{
    Choice, first_idle, least_front, may_arrive, may_end, skip_used_up, take_front,
};
use crate::item::Keyed;
use crate::shards::{Progress, Shard};
use crate::waiting::Waiting;
use bson_value::{Failure, NoMemory};
use std::alloc::Global;
use std::marker::Model;

/// Merges the batches of several shards, in whatever order they come.
///
/// It is seen as its shards, each with what waits of it and how far it has come, the least failure that was given,
/// and whether it merges by key. No call but [`MergeCore::new`] takes memory: a batch is kept as it is moved in, and
/// an item is moved out. No key and no document is copied.
///
/// Where it merges by key, the keys of each shard's batches, one batch after another, are not to fall: what
/// [`takes_the_whole`](crate::takes_the_whole) says of the order of the items is said of such lists. Every call is
/// safe, and answers as its contract says, without that too.
#[derive(Debug, Drop)]
pub struct MergeCore {
    shards: Vec<Shard>,
    by_key: bool,
    // The shards before this one are used up. It stays 0 by key.
    done: usize,
    least: Option<Failure>,
}

impl Model for MergeCore {
    ghost use Rattle.std.specs.Prelude.{◌≡◌, ◌<◌, ◌≤◌, ◌^◌, length, true};
    ghost use Rattle.std.specs.List.{AllWithin};
    ghost use Rattle.merge_cursor.specs.Core.{Core};
    ghost use Rattle.merge_cursor.specs.CoreCode.{core_code};
    ghost use Rattle.merge_cursor.specs.Shards.{is_used_up};

    ghost Value = { Core };

    ghost coded = { core_code };

    ghost view = { λ c. record { by_key = c.by_key; shards = c.shards.items; least = c.least } };

    ghost invariant = { λ c. (length c.shards.items < 2 ^ 32) × (c.done ≤ length c.shards.items) × AllWithin (λ s. is_used_up s ≡ true) c.shards.items 0 c.done };
}

fn fresh_shards(alloc: Global, shards: u32) -> Result<Vec<Shard>, NoMemory>
    ensures { IfOk result (λ all. all.items ≡ replicate shards (record { waiting = []; progress = Progress.Fresh })) }
{
    let mut all = Vec::new(alloc);
    for _i in 0..shards {
        all.push(Shard {
            waiting: Waiting::new(alloc),
            progress: Progress::Fresh,
        })?;
    }
    Ok(all)
}

fn ask(shards: &mut Vec<Shard>, i: usize)
    requires { i < length shards.old.items }
    ensures { Becomes shards.old.items i Progress.Asked shards.new.items }
{
    shards[i].progress = Progress::Asked;
}

fn put(shards: &mut Vec<Shard>, i: usize, batch: Vec<Keyed>)
    requires { i < length shards.old.items }
    ensures { shards.new.items ≡ slice_set shards.old.items i (record { waiting = batch.items; progress = Progress.Answered }) }
{
    shards[i] = Shard {
        waiting: Waiting::of_batch(batch),
        progress: Progress::Answered,
    };
}

fn close(shards: &mut Vec<Shard>, i: usize)
    requires { i < length shards.old.items }
    ensures { Becomes shards.old.items i Progress.Over shards.new.items }
{
    shards[i].progress = Progress::Over;
}

// The failure with the lesser stage, and of one stage that with the lesser number of its code.
fn lesser(f: Option<Failure>, g: Option<Failure>) -> Option<Failure>
    ensures { result ≡ lesser f g }
{
    match (f, g) {
        (None, g) => g,
        (Some(f), None) => Some(f),
        (Some(f), Some(g)) => {
            if g.stage < f.stage || (g.stage == f.stage && g.code.number() < f.code.number()) {
                Some(g)
            } else {
                Some(f)
            }
        }
    }
}

fn take_of(item: Option<Keyed>) -> Take
    ensures { result ≡ take_of item }
{
    match item {
        None => Take::NotYet,
        Some(item) => Take::Item(item),
    }
}

impl MergeCore {
    /// A core of so many shards, all of them unasked. Memory can be refused here, and in no later call.
    pub fn new(alloc: Global, shards: u32, by_key: bool) -> Result<MergeCore, NoMemory>
        ensures fresh { IfOk result (λ c. c ≡ start by_key shards) }
        ensures schedule { IfOk result (λ c. StandsFor c []) }
    {
        Ok(MergeCore {
            shards: fresh_shards(alloc, shards)?,
            by_key,
            done: 0,
            least: None,
        })
    }

    fn ask_next(&mut self) -> Option<u32>
        ensures { MatchOption result (NoneIdle self.old.shards × (self.new ≡ self.old)) (λ i. Asks self.old i self.new) }
    {
        match first_idle(self.shards.as_slice()) {
            None => None,
            Some(i) => {
                ask(&mut self.shards, i);
                Some(i as u32)
            }
        }
    }

    fn accept(&mut self, shard: u32, batch: Vec<Keyed>)
        requires { CanArrive self.old.shards shard }
        ensures { Arrives self.old shard batch.items self.new }
    {
        put(&mut self.shards, shard as usize, batch);
    }

    fn finish(&mut self, shard: u32, failure: Option<Failure>)
        requires { CanEnd self.old.shards shard }
        ensures { Ends self.old shard failure self.new }
    {
        close(&mut self.shards, shard as usize);
        self.least = lesser(self.least, failure);
    }

    fn choose(&mut self) -> Take
        ensures { Answers self.old result self.new }
    {
        if self.by_key {
            match least_front(self.shards.as_slice()) {
                Choice::Lacking => Take::NotYet,
                Choice::Empty => Take::Ended,
                Choice::Front(i) => match take_front(&mut self.shards, i) {
                    None => unreachable!(),
                    Some(item) => Take::Item(item),
                },
            }
        } else {
            self.done = skip_used_up(self.shards.as_slice(), self.done);
            if self.done == self.shards.len() {
                return Take::Ended;
            }
            take_of(take_front(&mut self.shards, self.done))
        }
    }

    /// The shard to ask now: the least that has not ended, has no ask to answer, and has nothing waiting. It counts
    /// as asked until it arrives or ends. `None` exactly where there is no such shard, and then nothing changes.
    pub fn asks(&mut self) -> Option<u32>
        ensures asked { MatchOption result (NoneIdle self.old.shards × (self.new ≡ self.old)) (λ i. Asks self.old i self.new) }
        ensures none { (result ≡ None) ↔ NoneIdle self.old.shards }
        ensures schedule { Carries self.old (asked result) self.new }
    {
        self.ask_next()
    }

    /// Whether the shard may bring a batch: it has an ask to answer, and nothing of it waits.
    pub fn can_arrive(&self, shard: u32) -> bool
        ensures { IsTrue result ↔ CanArrive self.now.shards shard }
    {
        may_arrive(self.shards.as_slice(), shard as usize)
    }

    /// Whether the shard may end: it was asked at least once, and has not ended.
    pub fn can_end(&self, shard: u32) -> bool
        ensures { IsTrue result ↔ CanEnd self.now.shards shard }
    {
        may_end(self.shards.as_slice(), shard as usize)
    }

    /// A shard that was asked brings a batch, which may be empty. The batch is kept as it is.
    pub fn arrive(&mut self, shard: u32, batch: Vec<Keyed>)
        requires { CanArrive self.old.shards shard }
        ensures arrived { Arrives self.old shard batch.items self.new }
        ensures schedule { Carries self.old (arrives shard batch.items ∷ []) self.new }
    {
        self.accept(shard, batch);
    }

    /// A shard ends: it gives nothing more, and what waits of it still counts. The lesser of its failure and of those
    /// given before is kept.
    pub fn end(&mut self, shard: u32, failure: Option<Failure>)
        requires { CanEnd self.old.shards shard }
        ensures ended { Ends self.old shard failure self.new }
        ensures schedule { Carries self.old (ends shard failure ∷ []) self.new }
    {
        self.finish(shard, failure);
    }

    /// The next item, or why there is none. In order the choice needs the first shard that is not used up; by key it
    /// needs each shard that has not ended, and of equal keys the least shard's comes first.
    pub fn take(&mut self) -> Take
        ensures answer { Answers self.old result self.new }
        ensures not_yet { (result ≡ Take.NotYet) ↔ Lacks self.old.by_key self.old.shards }
        ensures ended { (result ≡ Take.Ended) ↔ AllUsedUp self.old.shards }

        // By whatever schedule the core came here and whatever comes later, what was taken is the beginning of the
        // whole of the lists that the shards end with; and all of it at the end.
        ensures schedule { Carries self.old (took result) self.new }
        ensures prefix { HasTakenPrefix self.new }
        ensures all { result ≡ Take.Ended → HasTakenAll self.new }
    {
        self.choose()
    }

    /// The least failure that a shard ended with: that of the least stage, and there the least number of a code.
    /// `None` exactly where no shard gave one.
    pub fn failure(&self) -> Option<Failure>
        ensures kept { result ≡ self.now.least }
        ensures least { HasLeast self.now result }
    {
        self.least
    }
}
