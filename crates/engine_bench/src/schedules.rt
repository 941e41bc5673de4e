//! Random schedules of a merge over random lists, each against the stable sort of the joined lists.

ghost use Rattle.std.specs.Prelude.{◌<◌, ◌^◌};

use bson_value::{Bytes, Doc, EvalCode, Failure, Name, NoMemory, Value};
use merge_cursor::{Keyed, MergeCore, Take};
use std::alloc::Global;
use std::io::{self, Print};

// Numbers from a linear congruence; the low bits are left out.
#[derive(Drop)]
struct Dice {
    state: u64,
}

impl Dice {
    // Below `sides`; 0 where there is none.
    fn roll(&mut self, sides: u64) -> u64
        ensures { result < 2 ^ 31 }
    {
        self.state = self
            .state
            .wrapping_mul(6364136223846793005)
            .wrapping_add(1442695040888963407);
        if sides == 0 {
            0
        } else {
            (self.state >> 33) % sides
        }
    }
}

// An item before it is given to the core.
#[derive(Debug, Drop)]
struct Sample {
    key: Vec<u8>,
    number: i32,
}

// A shard of the simulation: its list, how many of it were given and how many of these were taken, whether it was asked
// and whether it ended.
#[derive(Debug, Drop)]
struct Source {
    list: Vec<Sample>,
    given: usize,
    taken: usize,
    asked: bool,
    ended: bool,
    failure: Option<Failure>,
}

fn random_sample(alloc: Global, dice: &mut Dice, number: i32) -> Result<Sample, NoMemory> {
    let mut key = Vec::new(alloc);
    for _ in 0..dice.roll(4) {
        match dice.roll(3) {
            0 => key.push(0)?,
            1 => key.push(1)?,
            _ => key.push(255)?,
        }
    }
    Ok(Sample { key, number })
}

fn random_failure(dice: &mut Dice) -> Option<Failure> {
    let code = match dice.roll(3) {
        0 => EvalCode::WrongType,
        1 => EvalCode::Overflow,
        _ => EvalCode::NotMatched,
    };
    if dice.roll(4) == 0 {
        let stage = dice.roll(3) as u32;
        Some(Failure { stage, code })
    } else {
        None
    }
}

// After all of the list whose keys are not above its key.
fn insert(sorted: &mut Vec<Sample>, item: Sample) -> Result<(), NoMemory> {
    let mut at = 0;
    for i in 0..sorted.len() {
        if sorted[i].key.as_slice() <= item.key.as_slice() {
            at = i.wrapping_add(1);
        }
    }
    if at <= sorted.len() {
        sorted.insert(at, item)?;
    }
    Ok(())
}

fn random_source(
    alloc: Global,
    dice: &mut Dice,
    by_key: bool,
    first: i32,
) -> Result<Source, NoMemory> {
    let mut list = Vec::new(alloc);
    let count = dice.roll(9);
    for i in 0..count {
        let item = random_sample(alloc, dice, first.wrapping_add((i & 255) as i32))?;
        if by_key {
            insert(&mut list, item)?;
        } else {
            list.push(item)?;
        }
    }
    Ok(Source {
        list,
        given: 0,
        taken: 0,
        asked: false,
        ended: false,
        failure: random_failure(dice),
    })
}

fn copy_of(alloc: Global, item: &Sample) -> Result<Sample, NoMemory> {
    Ok(Sample {
        key: Vec::from_slice(alloc, item.key.as_slice())?,
        number: item.number,
    })
}

// The joined lists, sorted stably by key where it merges by key.
fn whole_of(alloc: Global, sources: &[Source], by_key: bool) -> Result<Vec<Sample>, NoMemory> {
    let mut whole = Vec::new(alloc);
    for source in sources {
        for item in &source.list {
            let item = copy_of(alloc, item)?;
            if by_key {
                insert(&mut whole, item)?;
            } else {
                whole.push(item)?;
            }
        }
    }
    Ok(whole)
}

fn keyed(alloc: Global, item: &Sample) -> Option<Keyed> {
    let mut key = Bytes::new(alloc);
    key.add(item.key.as_slice()).ok()?;
    let mut doc = Doc::new(alloc);
    doc.put(Name::read(alloc, b"n").ok()?, Value::Int(item.number))
        .ok()?;
    Some(Keyed { key, doc })
}

fn is_same(item: &Keyed, want: &Sample) -> bool {
    let number = match item.doc.get(b"n") {
        Some(Value::Int(number)) => *number,
        _ => -1,
    };
    number == want.number && item.key.bytes() == want.key.as_slice()
}

// The shard answers its ask: with some of its list, or by its end.
fn answer(
    alloc: Global,
    dice: &mut Dice,
    core: &mut MergeCore,
    shard: u32,
    source: &mut Source,
) -> Option<bool> {
    let left = source.list.len().wrapping_sub(source.given);
    if left == 0 && dice.roll(3) != 0 {
        if !core.can_end(shard) {
            return Some(false);
        }
        core.end(shard, source.failure);
        source.ended = true;
        source.asked = false;
        return Some(true);
    }
    let mut batch = Vec::new(alloc);
    for _ in 0..dice.roll(4) {
        if source.given < source.list.len() {
            batch.push(keyed(alloc, &source.list[source.given])?).ok()?;
            source.given += 1;
        }
    }
    if !core.can_arrive(shard) {
        return Some(false);
    }
    core.arrive(shard, batch);
    source.asked = false;
    Some(true)
}

fn lesser(least: Option<(u32, u8)>, failure: Option<Failure>) -> Option<(u32, u8)> {
    match (least, failure) {
        (None, None) => None,
        (Some(f), None) => Some(f),
        (None, Some(g)) => Some((g.stage, g.code.number())),
        (Some(f), Some(g)) => {
            if (g.stage, g.code.number()) < f {
                Some((g.stage, g.code.number()))
            } else {
                Some(f)
            }
        }
    }
}

fn least_of(sources: &[Source]) -> Option<(u32, u8)> {
    let mut least = None;
    for source in sources {
        if source.ended {
            least = lesser(least, source.failure);
        }
    }
    least
}

// Whether a shard that the choice needs has not ended, and nothing of it waits.
fn lacks(sources: &[Source], by_key: bool) -> bool {
    for source in sources {
        if !source.ended && source.given == source.taken {
            return true;
        }
        if !by_key && source.given != source.taken {
            return false;
        }
    }
    false
}

// One random schedule. False where an answer is not what it has to be.
fn schedule(alloc: Global, dice: &mut Dice) -> Option<bool> {
    let by_key = dice.roll(2) == 0;
    let shards = dice.roll(9) as u32;
    let mut sources = Vec::new(alloc);
    for shard in 0..shards {
        let source = random_source(alloc, dice, by_key, (shard & 255) as i32 * 100).ok()?;
        sources.push(source).ok()?;
    }
    let whole = whole_of(alloc, sources.as_slice(), by_key).ok()?;
    let mut core = MergeCore::new(alloc, shards, by_key).ok()?;
    let mut taken = 0usize;
    for _ in 0..1_000_000u32 {
        match dice.roll(3) {
            0 => {
                if let Some(shard) = core.asks() {
                    let at = shard as usize;
                    if at >= sources.len() || sources[at].asked || sources[at].ended {
                        return Some(false);
                    }
                    sources[at].asked = true;
                }
            }
            1 => {
                let shard = dice.roll(sources.len() as u64) as u32;
                let at = shard as usize;
                if at < sources.len() && sources[at].asked {
                    if !answer(alloc, dice, &mut core, shard, &mut sources[at])? {
                        return Some(false);
                    }
                }
            }
            _ => match core.take() {
                Take::Item(item) => {
                    if taken >= whole.len() || !is_same(&item, &whole[taken]) {
                        return Some(false);
                    }
                    let at = (whole[taken].number / 100) as i64;
                    let at = usize::try_from(at).unwrap_or(0);
                    if at >= sources.len() || lacks(sources.as_slice(), by_key) {
                        return Some(false);
                    }
                    sources[at].taken = sources[at].taken.wrapping_add(1);
                    taken = taken.wrapping_add(1);
                }
                Take::NotYet => {
                    if !lacks(sources.as_slice(), by_key) {
                        return Some(false);
                    }
                }
                Take::Ended => {
                    let failure = core.failure().map(|f| (f.stage, f.code.number()));
                    let all = taken == whole.len();
                    return Some(all && failure == least_of(sources.as_slice()));
                }
            },
        }
    }
    Some(false)
}

/// Runs so many schedules, and prints how many of them were right.
pub fn run(rt: &impl Print, alloc: Global, seed: u64, count: u32) -> Result<(), io::Error> {
    let mut dice = Dice { state: seed };
    let mut right = 0u32;
    for _ in 0..count {
        match schedule(alloc, &mut dice) {
            Some(true) => {
                right = right.wrapping_add(1);
            }
            Some(false) => {}
            None => println!(rt; "memory ran out")?,
        }
    }
    println!(rt; "{right} of {count} schedules right")
}
