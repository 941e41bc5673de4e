//! Whole runs over files in memory.

ghost use Rattle.std.specs.Prelude.{Some};

use crate::pipelines::{Case, failures, long_arrays, refusals, results};
use aggregate_command::{aggregate, run_in_memory};
use bson_value::{Bytes, Text};
use mq_ports::{
    Files, FindError, FoundFile, IoError, MemFiles, MemSink, MemSpill, MemTarget, Outside, Sink,
    SureFiles, SureSink,
};
use std::alloc::Global;
use std::test::Fail;

const RUN: &[&str] = &["run", "c.bson", "q.bson"];

const CHECK: &[&str] = &["check", "c.bson", "q.bson"];

// {cluster: 1, collections: [{name: "c", shards: [{name: "a", file: "a.bson"}]}]}
const ONE: &[u8] =
    b"j\0\0\0\x10cluster\0\x01\0\0\0\x04collections\0K\0\0\0\x030\0C\0\0\0\x02name\0\x02\0\0\0c\0\x04shards\0*\0\0\0\x030\0\"\0\0\0\x02name\0\x02\0\0\0a\0\x02file\0\x07\0\0\0a.bson\0\0\0\0\0\0";

// {cluster: 1, collections: [{name: "c", key: {k: 1}, shards: [a in "a.bson", b in "b.bson"], chunks: [from min to 10 on a,
// from 10 to max on b]}]}
const TWO: &[u8] =
    b"\x13\x01\0\0\x10cluster\0\x01\0\0\0\x04collections\0\xf4\0\0\0\x030\0\xec\0\0\0\x02name\0\x02\0\0\0c\0\x03key\0\x0c\0\0\0\x10k\0\x01\0\0\0\0\x04shards\0O\0\0\0\x030\0\"\0\0\0\x02name\0\x02\0\0\0a\0\x02file\0\x07\0\0\0a.bson\0\0\x031\0\"\0\0\0\x02name\0\x02\0\0\0b\0\x02file\0\x07\0\0\0b.bson\0\0\0\x04chunks\0k\0\0\0\x030\00\0\0\0\x03min\0\x08\0\0\0\xffk\0\0\x03max\0\x0c\0\0\0\x10k\0\n\0\0\0\0\x02shard\0\x02\0\0\0a\0\0\x031\00\0\0\0\x03min\0\x0c\0\0\0\x10k\0\n\0\0\0\0\x03max\0\x08\0\0\0\x7fk\0\0\x02shard\0\x02\0\0\0b\0\0\0\0\0\0";

// The same, but the second chunk begins at 11
const GAP: &[u8] =
    b"\x13\x01\0\0\x10cluster\0\x01\0\0\0\x04collections\0\xf4\0\0\0\x030\0\xec\0\0\0\x02name\0\x02\0\0\0c\0\x03key\0\x0c\0\0\0\x10k\0\x01\0\0\0\0\x04shards\0O\0\0\0\x030\0\"\0\0\0\x02name\0\x02\0\0\0a\0\x02file\0\x07\0\0\0a.bson\0\0\x031\0\"\0\0\0\x02name\0\x02\0\0\0b\0\x02file\0\x07\0\0\0b.bson\0\0\0\x04chunks\0k\0\0\0\x030\00\0\0\0\x03min\0\x08\0\0\0\xffk\0\0\x03max\0\x0c\0\0\0\x10k\0\n\0\0\0\0\x02shard\0\x02\0\0\0a\0\0\x031\00\0\0\0\x03min\0\x0c\0\0\0\x10k\0\x0b\0\0\0\0\x03max\0\x08\0\0\0\x7fk\0\0\x02shard\0\x02\0\0\0b\0\0\0\0\0\0";

// {aggregate: "c", pipeline: [{$match: {t: "x"}}]}
const MATCH: &[u8] =
    b"C\0\0\0\x02aggregate\0\x02\0\0\0c\0\x04pipeline\0#\0\0\0\x030\0\x1b\0\0\0\x03$match\0\x0e\0\0\0\x02t\0\x02\0\0\0x\0\0\0\0\0";

// {aggregate: "c", pipeline: []}
const ALL: &[u8] = b"%\0\0\0\x02aggregate\0\x02\0\0\0c\0\x04pipeline\0\x05\0\0\0\0\0";

// The same of the collection "d"
const OTHER: &[u8] = b"%\0\0\0\x02aggregate\0\x02\0\0\0d\0\x04pipeline\0\x05\0\0\0\0\0";

// {aggregate: "c", pipeline: [{$match: {t: 1}}]}
const NUMBER: &[u8] =
    b"A\0\0\0\x02aggregate\0\x02\0\0\0c\0\x04pipeline\0!\0\0\0\x030\0\x19\0\0\0\x03$match\0\x0c\0\0\0\x10t\0\x01\0\0\0\0\0\0\0";

// {aggregate: "c", pipeline: [{$skip: 1}, {$limit: 2}]}
const PAGE: &[u8] =
    b"L\0\0\0\x02aggregate\0\x02\0\0\0c\0\x04pipeline\0,\0\0\0\x030\0\x10\0\0\0\x10$skip\0\x01\0\0\0\0\x031\0\x11\0\0\0\x10$limit\0\x02\0\0\0\0\0\0";

// {aggregate: "c", pipeline: [{$sort: {t: 1}}]}
const SORT: &[u8] =
    b"@\0\0\0\x02aggregate\0\x02\0\0\0c\0\x04pipeline\0 \0\0\0\x030\0\x18\0\0\0\x03$sort\0\x0c\0\0\0\x10t\0\x01\0\0\0\0\0\0\0";

// {aggregate: "c", pipeline: [{$project: {v: {$add: ["$t", 1]}}}]}
const FAILS: &[u8] =
    b"`\0\0\0\x02aggregate\0\x02\0\0\0c\0\x04pipeline\0@\0\0\0\x030\08\0\0\0\x03$project\0)\0\0\0\x03v\0!\0\0\0\x04$add\0\x16\0\0\0\x020\0\x03\0\0\0$t\0\x101\0\x01\0\0\0\0\0\0\0\0\0";

// {_id: 1, t: "x"}
const X: &[u8] = b"\x17\0\0\0\x10_id\0\x01\0\0\0\x02t\0\x02\0\0\0x\0\0";

// The same, and {_id: 2, t: "y"}
const X_Y: &[u8] =
    b"\x17\0\0\0\x10_id\0\x01\0\0\0\x02t\0\x02\0\0\0x\0\0\x17\0\0\0\x10_id\0\x02\0\0\0\x02t\0\x02\0\0\0y\0\0";

const Y: &[u8] = b"\x17\0\0\0\x10_id\0\x02\0\0\0\x02t\0\x02\0\0\0y\0\0";

// {_id: 1, t: ["x", "y"]}
const LIST: &[u8] =
    b"(\0\0\0\x10_id\0\x01\0\0\0\x04t\0\x17\0\0\0\x020\0\x02\0\0\0x\0\x021\0\x02\0\0\0y\0\0\0";

// {_id: 3, k: 12, t: "x"}, and the same without its last byte
const CUT_OFF: &[u8] =
    b"\x1e\0\0\0\x10_id\0\x03\0\0\0\x10k\0\x0c\0\0\0\x02t\0\x02\0\0\0x\0\0\x1e\0\0\0\x10_id\0\x03\0\0\0\x10k\0\x0c\0\0\0\x02t\0\x02\0\0\0x\0";

// {v: 1.5}
const DOUBLE: &[u8] = b"\x10\0\0\0\x01v\0\0\0\0\0\0\0\xf8?\0";

// {_id: 1, k: 3, t: "x"}, {_id: 2, k: 4, t: "y"}
const ON_A: &[u8] =
    b"\x1e\0\0\0\x10_id\0\x01\0\0\0\x10k\0\x03\0\0\0\x02t\0\x02\0\0\0x\0\0\x1e\0\0\0\x10_id\0\x02\0\0\0\x10k\0\x04\0\0\0\x02t\0\x02\0\0\0y\0\0";

// Behind them {_id: 9, k: 15, t: "x"}, which b owns
const ORPHAN_ON_A: &[u8] =
    b"\x1e\0\0\0\x10_id\0\x01\0\0\0\x10k\0\x03\0\0\0\x02t\0\x02\0\0\0x\0\0\x1e\0\0\0\x10_id\0\x02\0\0\0\x10k\0\x04\0\0\0\x02t\0\x02\0\0\0y\0\0\x1e\0\0\0\x10_id\0\t\0\0\0\x10k\0\x0f\0\0\0\x02t\0\x02\0\0\0x\0\0";

// {_id: 3, k: 12, t: "x"}
const ON_B: &[u8] = b"\x1e\0\0\0\x10_id\0\x03\0\0\0\x10k\0\x0c\0\0\0\x02t\0\x02\0\0\0x\0\0";

// The first on a and the one on b
const BOTH: &[u8] =
    b"\x1e\0\0\0\x10_id\0\x01\0\0\0\x10k\0\x03\0\0\0\x02t\0\x02\0\0\0x\0\0\x1e\0\0\0\x10_id\0\x03\0\0\0\x10k\0\x0c\0\0\0\x02t\0\x02\0\0\0x\0\0";

// The second on a and the one on b
const PAGED: &[u8] =
    b"\x1e\0\0\0\x10_id\0\x02\0\0\0\x10k\0\x04\0\0\0\x02t\0\x02\0\0\0y\0\0\x1e\0\0\0\x10_id\0\x03\0\0\0\x10k\0\x0c\0\0\0\x02t\0\x02\0\0\0x\0\0";

// {_id: 5, k: 10, t: "a"} and {_id: 5, k: 10, t: "b"}
const BORDER_A: &[u8] = b"\x1e\0\0\0\x10_id\0\x05\0\0\0\x10k\0\n\0\0\0\x02t\0\x02\0\0\0a\0\0";

const BORDER_B: &[u8] = b"\x1e\0\0\0\x10_id\0\x05\0\0\0\x10k\0\n\0\0\0\x02t\0\x02\0\0\0b\0\0";

// {_id: 1, k: [3]}
const LIST_KEY: &[u8] = b"\x1d\0\0\0\x10_id\0\x01\0\0\0\x04k\0\x0c\0\0\0\x100\0\x03\0\0\0\0\0";

const NOTHING: &[u8] = b"";

// The words, the cluster file, the command file and the files of shards a and b, and the status, what was written and
// what was noted.
type Row = (
    &'static [&'static str],
    &'static [u8],
    &'static [u8],
    &'static [u8],
    &'static [u8],
    u8,
    &'static [u8],
    &'static [u8],
);

const ROWS: [Row; 33] = [
    (RUN, ONE, MATCH, X_Y, NOTHING, 0, X, b""),
    (RUN, ONE, MATCH, LIST, NOTHING, 0, LIST, b""),
    (RUN, ONE, ALL, X_Y, NOTHING, 0, X_Y, b""),
    (RUN, ONE, OTHER, CUT_OFF, NOTHING, 0, NOTHING, b""),
    (
        RUN,
        ONE,
        MATCH,
        CUT_OFF,
        NOTHING,
        5,
        NOTHING,
        b"error: shard c/a record 2 at 30: Truncated\n",
    ),
    (
        RUN,
        ONE,
        ALL,
        DOUBLE,
        NOTHING,
        5,
        NOTHING,
        b"error: shard c/a record 1 at 4: TypeRefused 1\n",
    ),
    (
        RUN,
        ONE,
        FAILS,
        X_Y,
        NOTHING,
        8,
        NOTHING,
        b"error: evaluation stage 1 code 1 WrongType\n",
    ),
    (
        RUN,
        ONE,
        FAILS,
        CUT_OFF,
        NOTHING,
        5,
        NOTHING,
        b"error: shard c/a record 2 at 30: Truncated\n",
    ),
    (CHECK, ONE, FAILS, X_Y, NOTHING, 0, NOTHING, b""),
    (
        RUN,
        ONE,
        SORT,
        CUT_OFF,
        NOTHING,
        1,
        NOTHING,
        b"error: not built\n",
    ),
    (RUN, ONE, NUMBER, X_Y, NOTHING, 0, NOTHING, b""),
    (RUN, TWO, PAGE, ON_A, ON_B, 0, PAGED, b""),
    (
        RUN,
        ONE,
        X_Y,
        X_Y,
        NOTHING,
        3,
        NOTHING,
        b"error: command stage 0: Trailing 23\n",
    ),
    (
        RUN,
        ONE,
        NOTHING,
        X_Y,
        NOTHING,
        3,
        NOTHING,
        b"error: command stage 0: Bytes at 0: Truncated\n",
    ),
    (
        RUN,
        X,
        MATCH,
        X_Y,
        NOTHING,
        4,
        NOTHING,
        b"error: cluster collection 0 chunk 0: Form\n",
    ),
    (
        RUN,
        DOUBLE,
        MATCH,
        X_Y,
        NOTHING,
        4,
        NOTHING,
        b"error: cluster collection 0 chunk 0: Bytes at 4: TypeRefused 1\n",
    ),
    (
        &["run", "d.bson", "q.bson"],
        ONE,
        MATCH,
        X_Y,
        NOTHING,
        6,
        NOTHING,
        b"error: no file d.bson\n",
    ),
    (
        &["run"],
        ONE,
        MATCH,
        X_Y,
        NOTHING,
        2,
        NOTHING,
        b"error: usage\n",
    ),
    (CHECK, ONE, MATCH, X_Y, NOTHING, 0, NOTHING, b""),
    (RUN, TWO, ALL, NOTHING, NOTHING, 0, NOTHING, b""),
    (RUN, TWO, MATCH, ON_A, ON_B, 0, BOTH, b""),
    (RUN, TWO, MATCH, ORPHAN_ON_A, ON_B, 0, BOTH, b""),
    (RUN, TWO, ALL, BORDER_A, BORDER_B, 0, BORDER_B, b""),
    (
        RUN,
        TWO,
        ALL,
        NOTHING,
        CUT_OFF,
        5,
        NOTHING,
        b"error: shard c/b record 2 at 30: Truncated\n",
    ),
    (
        RUN,
        GAP,
        ALL,
        NOTHING,
        NOTHING,
        4,
        NOTHING,
        b"error: cluster collection 1 chunk 2: Range\n",
    ),
    (
        RUN,
        TWO,
        ALL,
        LIST_KEY,
        NOTHING,
        5,
        NOTHING,
        b"error: shard c/a record 1 at 0: ArrayInKey 1\n",
    ),
    (
        CHECK,
        TWO,
        ALL,
        NOTHING,
        CUT_OFF,
        5,
        NOTHING,
        b"error: shard c/b record 2 at 30: Truncated\n",
    ),
    (CHECK, TWO, MATCH, ON_A, ON_B, 0, NOTHING, b""),
    (
        &["run", "c.bson", "q.bson", "--budget", "3"],
        TWO,
        ALL,
        NOTHING,
        NOTHING,
        2,
        NOTHING,
        b"error: usage\n",
    ),
    (
        &["run", "c.bson", "q.bson", "--stats", "--stats"],
        TWO,
        ALL,
        NOTHING,
        NOTHING,
        2,
        NOTHING,
        b"error: usage\n",
    ),
    (
        &["run", "c.bson", "q.bson", "--budget=4"],
        TWO,
        ALL,
        NOTHING,
        NOTHING,
        0,
        NOTHING,
        b"",
    ),
    (
        &["run", "c.bson", "q.bson", "--stats"],
        TWO,
        ALL,
        NOTHING,
        NOTHING,
        1,
        NOTHING,
        b"error: not built\n",
    ),
    (
        &["explain", "c.bson", "q.bson"],
        TWO,
        ALL,
        NOTHING,
        NOTHING,
        1,
        NOTHING,
        b"error: not built\n",
    ),
];

fn texts(alloc: Global, words: &[&str]) -> Result<Vec<Text>, Fail> {
    let mut texts = Vec::new(alloc);
    for word in words {
        texts.push(Text::read(alloc, word.as_bytes())?)?;
    }
    Ok(texts)
}

fn add(alloc: Global, files: &mut MemFiles, name: &str, content: &[u8]) -> Result<(), Fail> {
    let mut bytes = Bytes::new(alloc);
    bytes.add(content)?;
    files.add(Text::read(alloc, name.as_bytes())?, bytes)?;
    Ok(())
}

fn files_of(
    alloc: Global,
    cluster: &[u8],
    command: &[u8],
    a: &[u8],
    b: &[u8],
) -> Result<MemFiles, Fail> {
    let mut files = MemFiles::new(alloc);
    add(alloc, &mut files, "c.bson", cluster)?;
    add(alloc, &mut files, "q.bson", command)?;
    add(alloc, &mut files, "a.bson", a)?;
    add(alloc, &mut files, "b.bson", b)?;
    Ok(files)
}

fn run<F: Files, O: Sink>(
    alloc: Global,
    words: &[&str],
    files: &mut F,
    out: &mut O,
    notes: &mut MemSink,
) -> Result<u8, Fail> {
    let words = texts(alloc, words)?;
    let words = words.as_slice();
    let mut spill = MemSpill::new(alloc);
    let mut target = MemTarget::new(alloc);
    let status = aggregate(alloc, words, files, out, notes, &mut spill, &mut target);
    Ok(status.code())
}

// The case comes to its status, and writes and notes what it says.
fn holds(alloc: Global, case: &Case) -> Result<bool, Fail> {
    let (command, a, code, written, noted) = *case;
    let mut files = files_of(alloc, TWO, command, a, NOTHING)?;
    let mut out = MemSink::new(alloc);
    let mut notes = MemSink::new(alloc);
    let status = run(alloc, RUN, &mut files, &mut out, &mut notes)?;
    Ok(status == code && out.bytes() == written && notes.bytes() == noted)
}

// The place of the first case that doesn't hold.
fn failing(alloc: Global, cases: &[Case]) -> Result<Option<usize>, Fail> {
    for i in 0..cases.len() {
        if !holds(alloc, &cases[i])? {
            return Ok(Some(i));
        }
    }
    Ok(None)
}

#[test]
fn pipelines_give_results(rt: HostRuntime) -> Result<(), Fail> {
    assert_eq!(rt; failing(rt.alloc(), results())?, None);
    Ok(())
}

#[test]
fn pipelines_fail(rt: HostRuntime) -> Result<(), Fail> {
    assert_eq!(rt; failing(rt.alloc(), failures())?, None);
    Ok(())
}

#[test]
fn long_arrays_are_too_long(rt: HostRuntime) -> Result<(), Fail> {
    assert_eq!(rt; failing(rt.alloc(), long_arrays())?, None);
    Ok(())
}

#[test]
fn commands_are_refused(rt: HostRuntime) -> Result<(), Fail> {
    assert_eq!(rt; failing(rt.alloc(), refusals())?, None);
    Ok(())
}

// {aggregate: "c", pipeline: [..]} up to the five stages
const FIVE: &[u8] = b"\x9d\x05\0\0\x02aggregate\0\x02\0\0\0c\0\x04pipeline\0}\x05\0\0";

// {$lookup: {from: "f", localField: "l", foreignField: "r", as: ..}} up to the text of `as`, which has 199 bytes
const LOOKUP: &[u8] =
    b"\x15\x01\0\0\x03$lookup\0\x07\x01\0\0\x02from\0\x02\0\0\0f\0\x02localField\0\x02\0\0\0l\0\x02foreignField\0\x02\0\0\0r\0\x02as\0\xc8\0\0\0";

// Five `$lookup`, each of which sets a path of a hundred steps.
fn deep_command(alloc: Global) -> Result<Bytes, Fail> {
    let mut bytes = Bytes::new(alloc);
    bytes.add(FIVE)?;
    for place in b"01234" {
        bytes.add(b"\x03")?;
        bytes.add(&[*place, 0])?;
        bytes.add(LOOKUP)?;
        for _ in 1..100 {
            bytes.add(b"x.")?;
        }
        bytes.add(b"x\0\0\0")?;
    }
    bytes.add(b"\0\0")?;
    Ok(bytes)
}

#[test]
fn nesting_is_bounded_before_the_run(rt: HostRuntime) -> Result<(), Fail> {
    let alloc = rt.alloc();
    let command = deep_command(alloc)?;
    let mut files = files_of(alloc, ONE, command.bytes(), X, NOTHING)?;
    let mut out = MemSink::new(alloc);
    let mut notes = MemSink::new(alloc);
    assert_eq!(rt; run(alloc, RUN, &mut files, &mut out, &mut notes)?, 3);
    assert_eq!(rt;
        notes.bytes(),
        b"error: command stage 5: StaticDepth\n".as_slice()
    );
    Ok(())
}

// {aggregate: "c", pipeline: [..]} up to the hundred stages
const HUNDRED: &[u8] = b"\xf0\x07\0\0\x02aggregate\0\x02\0\0\0c\0\x04pipeline\0\xd0\x07\0\0";

// {$skip: 0}
const SKIP: &[u8] = b"\x10\0\0\0\x10$skip\0\0\0\0\0\0";

// {$unwind: "$u"}
const UNWIND: &[u8] = b"\x15\0\0\0\x02$unwind\0\x03\0\0\0$u\0\0";

// {_id: 1, u: [..]} up to the two hundred numbers
const NUMBERS: &[u8] = b"\xb0\x06\0\0\x10_id\0\x01\0\0\0\x04u\0\x9f\x06\0\0";

// The name that an item of an array has at a place.
fn add_place(bytes: &mut Bytes, place: u8) -> Result<(), Fail> {
    if place >= 100 {
        bytes.add(&[b'0' + place / 100])?;
    }
    if place >= 10 {
        bytes.add(&[b'0' + place / 10 % 10])?;
    }
    bytes.add(&[b'0' + place % 10, 0])?;
    Ok(())
}

// Ninety-nine stages that skip nothing, and the hundredth, which unwinds.
fn hundred_stages(alloc: Global) -> Result<Bytes, Fail> {
    let mut bytes = Bytes::new(alloc);
    bytes.add(HUNDRED)?;
    for place in 0..99u8 {
        bytes.add(b"\x03")?;
        add_place(&mut bytes, place)?;
        bytes.add(SKIP)?;
    }
    bytes.add(b"\x0399\0")?;
    bytes.add(UNWIND)?;
    bytes.add(b"\0\0")?;
    Ok(bytes)
}

// A document with the numbers from 0 to 199, and the documents that its elements become.
fn unwound(alloc: Global) -> Result<(Bytes, Bytes), Fail> {
    let mut whole = Bytes::new(alloc);
    let mut parts = Bytes::new(alloc);
    whole.add(NUMBERS)?;
    for number in 0..200u8 {
        whole.add(b"\x10")?;
        add_place(&mut whole, number)?;
        whole.add(&[number, 0, 0, 0])?;
        parts.add(b"\x15\0\0\0\x10_id\0\x01\0\0\0\x10u\0")?;
        parts.add(&[number, 0, 0, 0, 0])?;
    }
    whole.add(b"\0\0")?;
    Ok((whole, parts))
}

#[test]
fn hundred_stages_run(rt: HostRuntime) -> Result<(), Fail> {
    let alloc = rt.alloc();
    let command = hundred_stages(alloc)?;
    let (whole, parts) = unwound(alloc)?;
    let mut files = files_of(alloc, ONE, command.bytes(), whole.bytes(), NOTHING)?;
    let mut out = MemSink::new(alloc);
    let mut notes = MemSink::new(alloc);
    assert_eq!(rt; run(alloc, RUN, &mut files, &mut out, &mut notes)?, 0);
    assert_eq!(rt; out.bytes(), parts.bytes());
    assert_eq!(rt; notes.bytes(), NOTHING);
    Ok(())
}

#[test]
fn answers_rows(rt: HostRuntime) -> Result<(), Fail> {
    let alloc = rt.alloc();
    for (words, cluster, command, a, b, code, written, noted) in ROWS {
        let mut files = files_of(alloc, cluster, command, a, b)?;
        let mut out = MemSink::new(alloc);
        let mut notes = MemSink::new(alloc);
        assert_eq!(rt; run(alloc, words, &mut files, &mut out, &mut notes)?, code);
        assert_eq!(rt; out.bytes(), written);
        assert_eq!(rt; notes.bytes(), noted);
    }
    Ok(())
}

// X, and behind it six thousand documents {_id: 2, t: "y"}: 138,000 bytes, which are three pieces.
fn many_in(alloc: Global) -> Result<MemFiles, Fail> {
    let mut bytes = Bytes::new(alloc);
    bytes.add(X)?;
    for _ in 0..6_000 {
        bytes.add(Y)?;
    }
    let mut files = files_of(alloc, ONE, MATCH, NOTHING, NOTHING)?;
    files.add(Text::read(alloc, b"a.bson")?, bytes)?;
    Ok(files)
}

// Two calls for each of the cluster file and the command file, and four for the survey and for the run: each fails in
// turn, and the thirteenth is none of them.
#[test]
fn each_read_fault_ends_the_run(rt: HostRuntime) -> Result<(), Fail> {
    let alloc = rt.alloc();
    for call in 1..=13u64 {
        let mut files = many_in(alloc)?;
        files.fail_at(call)?;
        let mut out = MemSink::new(alloc);
        let mut notes = MemSink::new(alloc);
        let code = run(alloc, RUN, &mut files, &mut out, &mut notes)?;
        assert_eq!(rt; code, if call < 13 { 10 } else { 0 });
        assert_eq!(rt; out.bytes(), if call < 13 { NOTHING } else { X });
    }
    Ok(())
}

// A sink that takes a byte at a time, and whose second call fails.
#[derive(Drop)]
struct Narrow {
    content: Vec<u8>,
    calls: u64,
}

impl Sink for Narrow {
    ghost taken = { λ s. Some s.content.items };

    ghost faults = { λ s. s.calls };

    fn put(&mut self, piece: &[u8]) -> Result<usize, IoError> {
        self.calls = self.calls.saturating_add(1);
        if self.calls == 2 {
            return Err(IoError::Failed);
        }
        match piece {
            [] => Ok(0),
            [first, ..] => match self.content.push(*first) {
                Ok(()) => Ok(1),
                Err(_) => Err(IoError::Memory),
            },
        }
    }
}

// Files that tell nothing, and say of one how many bytes it has, whatever it holds.
#[derive(Drop)]
struct Quiet {
    files: MemFiles,
    name: &'static str,
    said: u64,
}

impl Outside for Quiet {
    ghost use Rattle.std.specs.Prelude.{None, Some, []};

    ghost Rest = { Unit {0} };

    ghost world = { λ s. record {
      held = None;
      file_faults = s.files.faults;
      file_calls = s.files.calls;
      runs = Some [];
      spill_faults = 0;
      begun = 0;
      rest = tt;
      loans = [];
    } };
}

impl Files for Quiet {
    fn find(&mut self, name: &[u8]) -> Result<FoundFile, FindError> {
        let found = self.files.find(name)?;
        let len = if name == self.name.as_bytes() {
            self.said
        } else {
            found.len
        };
        Ok(FoundFile { id: found.id, len })
    }

    fn read_at(&mut self, id: u64, at: u64, buf: &mut [u8]) -> Result<usize, IoError> {
        self.files.read_at(id, at, buf)
    }
}

#[test]
fn other_objects_run(rt: HostRuntime) -> Result<(), Fail> {
    let alloc = rt.alloc();
    let mut files = files_of(alloc, ONE, MATCH, X, NOTHING)?;
    let mut narrow = Narrow {
        content: Vec::new(alloc),
        calls: 0,
    };
    let mut notes = MemSink::new(alloc);
    assert_eq!(rt; run(alloc, RUN, &mut files, &mut narrow, &mut notes)?, 13);
    assert_eq!(rt; narrow.content.as_slice(), b"\x17".as_slice());
    assert_eq!(rt; notes.bytes(), b"error: write fault\n".as_slice());
    let mut quiet = Quiet {
        files,
        name: "a.bson",
        said: 4_294_967_296,
    };
    let mut out = MemSink::new(alloc);
    let mut notes = MemSink::new(alloc);
    assert_eq!(rt; run(alloc, RUN, &mut quiet, &mut out, &mut notes)?, 7);
    assert_eq!(rt;
        notes.bytes(),
        b"error: file too long a.bson 4294967296\n".as_slice()
    );
    Ok(())
}

// A run and a check end where a file says a byte more than it has.
#[test]
fn shorter_files_are_damaged(rt: HostRuntime) -> Result<(), Fail> {
    let alloc = rt.alloc();
    for (words, name, content) in [
        (RUN, "c.bson", ONE),
        (RUN, "q.bson", MATCH),
        (RUN, "a.bson", X),
        (CHECK, "a.bson", X),
    ] {
        let mut quiet = Quiet {
            files: files_of(alloc, ONE, MATCH, X, NOTHING)?,
            name,
            said: (content.len() as u64).saturating_add(1),
        };
        let mut out = MemSink::new(alloc);
        let mut notes = MemSink::new(alloc);
        assert_eq!(rt; run(alloc, words, &mut quiet, &mut out, &mut notes)?, 14);
        assert_eq!(rt; out.bytes(), NOTHING);
        assert_eq!(rt; notes.bytes(), b"error: damage\n".as_slice());
    }
    Ok(())
}

#[test]
fn sure_objects_meet_no_fault(rt: HostRuntime) -> Result<(), Fail> {
    let alloc = rt.alloc();
    let words = texts(alloc, RUN)?;
    let mut files = SureFiles::new(alloc);
    for (name, content) in [("c.bson", ONE), ("q.bson", MATCH), ("a.bson", X_Y)] {
        let mut bytes = Bytes::new(alloc);
        bytes.add(content)?;
        files.add(Text::read(alloc, name.as_bytes())?, bytes)?;
    }
    let mut out = SureSink::new(alloc);
    let mut notes = SureSink::new(alloc);
    let status = run_in_memory(alloc, words.as_slice(), &mut files, &mut out, &mut notes);
    assert_eq!(rt; status.code(), 0);
    assert_eq!(rt; out.bytes(), X);
    Ok(())
}
