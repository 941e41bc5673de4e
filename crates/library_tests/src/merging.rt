use bson_value::{Bytes, Doc, EvalCode, Failure, Name, Value};
use merge_cursor::{Keyed, MergeCore, Take};
use std::test::Fail;

// A document with the number in it, and this key.
fn item(rt: &HostRuntime, key: Bytes, number: i32) -> Option<Keyed> {
    let mut doc = Doc::new(rt.alloc());
    doc.put(Name::read(rt.alloc(), b"n").ok()?, Value::Int(number))
        .ok()?;
    Some(Keyed { key, doc })
}

// The items of a text such as 'a1ab23': letters are a key, and the digit after them is the number.
fn batch(rt: &HostRuntime, items: &[u8]) -> Option<Vec<Keyed>> {
    let mut batch = Vec::new(rt.alloc());
    let mut key = Bytes::new(rt.alloc());
    for byte in items {
        if byte.is_ascii_digit() {
            batch.push(item(rt, key, (*byte & 15) as i32)?).ok()?;
            key = Bytes::new(rt.alloc());
        } else {
            key.add(&[*byte]).ok()?;
        }
    }
    Some(batch)
}

// The item as in such a text, '~' for none yet, and '#' at the end.
fn shown(rt: &HostRuntime, take: Take) -> Option<Bytes> {
    let mut text = Bytes::new(rt.alloc());
    match take {
        Take::Item(item) => {
            text.add(item.key.bytes()).ok()?;
            let number = match item.doc.get(b"n") {
                Some(Value::Int(number)) => (*number & 15) as u8,
                _ => 15,
            };
            text.add(&[b'0' | number]).ok()?;
        }
        Take::NotYet => text.add(b"~").ok()?,
        Take::Ended => text.add(b"#").ok()?,
    }
    Some(text)
}

// Whether a take gives what the text says.
fn gives(rt: &HostRuntime, core: &mut MergeCore, text: &[u8]) -> Option<bool> {
    Some(shown(rt, core.take())?.bytes() == text)
}

fn code(digit: u8) -> EvalCode {
    match digit {
        b'1' => EvalCode::WrongType,
        b'2' => EvalCode::Overflow,
        _ => EvalCode::NotMatched,
    }
}

fn failure(stage: u8, digit: u8) -> Failure {
    Failure {
        stage: (stage & 15) as u32,
        code: code(digit),
    }
}

fn arrive(core: &mut MergeCore, shard: u32, batch: Vec<Keyed>) -> bool {
    if core.can_arrive(shard) {
        core.arrive(shard, batch);
        true
    } else {
        false
    }
}

fn end(core: &mut MergeCore, shard: u32, failure: Option<Failure>) -> bool {
    if core.can_end(shard) {
        core.end(shard, failure);
        true
    } else {
        false
    }
}

// Whether the step went as it says. '?' and a digit: that shard is asked, and '?-' none. A digit and '<': that shard
// brings the batch. A digit and '.': it ends; or '!' with the stage and the code of its failure. '!': the failure so
// far. '-' before a batch or an end: it is not its turn. Else the answer of a take.
fn step(rt: &HostRuntime, core: &mut MergeCore, word: &[u8]) -> Option<bool> {
    let went = match word {
        [b'?', b'-'] => core.asks() == None,
        [b'?', shard] => core.asks() == Some((*shard & 15) as u32),
        [b'-', shard, b'<'] => !core.can_arrive((*shard & 15) as u32),
        [b'-', shard, b'.'] => !core.can_end((*shard & 15) as u32),
        [shard, b'<', ..] => arrive(core, (*shard & 15) as u32, batch(rt, &word[2..])?),
        [shard, b'.'] => end(core, (*shard & 15) as u32, None),
        [b'!', b'-'] => core.failure() == None,
        [b'!', stage, digit] => core.failure() == Some(failure(*stage, *digit)),
        [shard, b'!', stage, digit] => {
            end(core, (*shard & 15) as u32, Some(failure(*stage, *digit)))
        }
        _ => gives(rt, core, word)?,
    };
    Some(went)
}

const IN_ORDER: bool = false;

const BY_KEY: bool = true;

// Schedules, step by step as `step` reads them, over so many shards.
const SCHEDULES: [(bool, u32, &str); 42] = [
    // The second shard's batch comes first, and waits for the first shard's.
    (IN_ORDER, 2, "?0 ?1 ?- 1<1 ~ 0<2 2 ~ 0. 1 1. #"),
    (BY_KEY, 2, "?0 ?1 1<b2 ~ 0<b1 b1"),
    // No shard.
    (IN_ORDER, 0, "?- # # !-"),
    (BY_KEY, 0, "?- # # !-"),
    // One shard, with no item, with an empty batch, with two batches.
    (IN_ORDER, 1, "~ ?0 ?- ~ 0. # ?- !-"),
    (BY_KEY, 1, "~ ?0 ?- ~ 0. # ?- !-"),
    (IN_ORDER, 1, "?0 0< ~ ?0 0< ~ ?0 0. #"),
    (BY_KEY, 1, "?0 0< ~ ?0 0< ~ ?0 0. #"),
    (IN_ORDER, 1, "?0 0<b1a2 ?- b1 ?- a2 ~ ?0 0<c3 c3 ?0 0. #"),
    (BY_KEY, 1, "?0 0<a1b2 ?- a1 ?- b2 ~ ?0 0<b3 b3 ?0 0. #"),
    // A shard that answered may end unasked, and what waits of it still counts.
    (IN_ORDER, 1, "?0 0<a1a2 0. ?- a1 a2 # #"),
    (BY_KEY, 1, "?0 0<a1a2 0. ?- a1 a2 # #"),
    // What is not a shard's turn.
    (
        IN_ORDER,
        2,
        "-0< -0. -2< -2. ?0 -1< -1. 0<a1 -0< a1 -0< ?0 0. -0< -0.",
    ),
    (BY_KEY, 2, "-0< -0. ?0 ?1 0< -0< 1<a1 -1< 1. -1. ?0 -1<"),
    // In order, the second shard first: it waits until the first is used up.
    (IN_ORDER, 2, "?0 ?1 1<a1 ~ 1. ~ 0<b2 b2 ~ ?0 0. a1 #"),
    (
        IN_ORDER,
        2,
        "?0 ?1 1<a1 0<c2d3 c2 ?- d3 ?0 ?- 0. a1 ?1 1. #",
    ),
    (IN_ORDER, 2, "?0 ?1 1. ~ 0. #"),
    (IN_ORDER, 2, "?0 0. ?1 ~ 1<a1 a1 ~ 1. #"),
    // In order, keys play no part.
    (IN_ORDER, 2, "?0 ?1 0<z1a2 1<b3 0. z1 a2 b3 1. #"),
    // Three shards in order, the middle one with no item.
    (IN_ORDER, 3, "?0 ?1 ?2 ?- 2<1 1. 0<2 2 ~ ?0 0. 1 ?2 2. #"),
    (
        IN_ORDER,
        3,
        "?0 ?1 ?2 0. 1<1 1 ~ 2<2 ~ ?1 1< ~ ?1 1. 2 ?2 2. #",
    ),
    (IN_ORDER, 3, "?0 0. ?1 1. ?2 2. # !-"),
    // By key, each open shard is needed.
    (BY_KEY, 2, "?0 ?1 0<a1 ~ 1<b2 a1 ~ ?0 0. b2 ~ ?1 1. #"),
    (BY_KEY, 2, "?0 ?1 0<a1 1. a1 ~ ?0 0<b2 b2 0. #"),
    (BY_KEY, 2, "?0 ?1 1<a1 0< ~ ?0 0<b2 a1 ~ ?1 1. b2 0. #"),
    (BY_KEY, 2, "?0 ?1 0<a1c3 1<b2d4 a1 b2 c3 ~ 0. d4 ~ 1. #"),
    (
        BY_KEY,
        2,
        "?0 ?1 0<c1 0. 1<a2b3 a2 b3 ~ ?1 1<d4 c1 d4 ?1 1. #",
    ),
    // Equal keys go by shard, over batches too.
    (BY_KEY, 2, "?0 ?1 1<b1 ~ 0<b2 b2 ~ ?0 0<b3 b3 ~ 0. b1 1. #"),
    (BY_KEY, 2, "?0 ?1 1<a1a2 0<a3 a3 ~ 0. a1 a2 1. #"),
    (
        BY_KEY,
        3,
        "?0 ?1 ?2 2<a3 ~ 1<a2 ~ 0<a1 a1 ~ 0. a2 ~ 1. a3 ~ 2. #",
    ),
    (
        BY_KEY,
        3,
        "?0 ?1 ?2 2<a1a2 1<a3b4 0<a5c6 0. 1. 2. a5 a3 a1 a2 b4 c6 #",
    ),
    (
        BY_KEY,
        3,
        "?0 ?1 ?2 0<b1 1<a2 2<a3 a2 ~ ?1 1<b4 a3 ~ 2. b1 ~ 0. b4 1. #",
    ),
    (BY_KEY, 3, "?0 ?1 ?2 0. 1<1 2<2 1 ~ ?1 1<3 3 1. 2 2. #"),
    // A key that another begins with is below it, and the empty key is below all.
    (BY_KEY, 2, "?0 ?1 0<ab1 1<a2 a2 ~ 1. ab1 0. #"),
    (BY_KEY, 2, "?0 ?1 0<a1ab2 1<aa3abc4 0. 1. a1 aa3 ab2 abc4 #"),
    (
        BY_KEY,
        3,
        "?0 ?1 ?2 0<abc1 1<ab2b3 2<4a5 0. 1. 2. 4 a5 ab2 abc1 b3 #",
    ),
    (BY_KEY, 2, "?0 ?1 0<aB1 1<ab2 0. 1. aB1 ab2 #"),
    // The least failure is kept: by the stage, and then by the code.
    (IN_ORDER, 2, "?0 ?1 !- 1!22 !22 0!21 !21 # !21"),
    (IN_ORDER, 2, "?0 ?1 0!21 !21 1!22 !21 # !21"),
    (BY_KEY, 2, "?0 ?1 0!13 !13 1!21 !13 #"),
    (BY_KEY, 3, "?0 ?1 ?2 0!31 1. !31 2!12 !12 #"),
    (BY_KEY, 2, "?0 ?1 0<a1 1<b2 0!11 a1 !11 b2 ~ ?1 1. # !11"),
];

#[test]
fn each_schedule_goes_as_it_says(rt: HostRuntime) -> Result<(), Fail> {
    for (by_key, shards, steps) in SCHEDULES {
        let mut core = MergeCore::new(rt.alloc(), shards, by_key)?;
        for word in steps.split_whitespace() {
            let went = step(&rt, &mut core, word.as_bytes()).ok_or("memory")?;
            assert!(rt; went, "{word} of {steps}");
        }
    }
    Ok(())
}

#[test]
fn many_shards_are_merged(rt: HostRuntime) -> Result<(), Fail> {
    let mut core = MergeCore::new(rt.alloc(), 2_000, BY_KEY)?;
    for shard in 0..2_000 {
        assert!(rt; core.asks() == Some(shard));
        assert!(rt; end(&mut core, shard, None));
    }
    assert!(rt; gives(&rt, &mut core, b"#") == Some(true));
    Ok(())
}
