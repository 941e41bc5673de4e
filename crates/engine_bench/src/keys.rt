//! Key bytes against `compare`: sorting documents by two fields, and random pairs of values.

use bson_value::{Bytes, Doc, List, Name, Text, Value, compare_found};
use key_codec::key_bytes;
use std::alloc::Global;
use std::cmp::Ordering;
use std::io;

/// Runs `how` of this case: `bytes` and `trees` sort `count` documents, `rounds` times; `pairs` compares `count` pairs.
pub fn run(
    rt: &impl Print,
    alloc: Global,
    how: &str,
    count: u32,
    rounds: u32,
) -> Result<(), io::Error> {
    match how {
        "bytes" => match by_bytes(alloc, count, rounds) {
            Some(sum) => println!(rt; "{sum}"),
            None => println!(rt; "no memory"),
        },
        "trees" => match by_trees(alloc, count, rounds) {
            Some(sum) => println!(rt; "{sum}"),
            None => println!(rt; "no memory"),
        },
        "pairs" => match pairs(alloc, count) {
            Some(tally) => println!(rt;
                "less {} equal {} greater {} wrong {}",
                tally.less, tally.equal, tally.greater, tally.wrong
            ),
            None => println!(rt; "no memory"),
        },
        _ => println!(rt; "usage: engine_bench keys bytes|trees|pairs COUNT ROUNDS"),
    }
}

/// A row of numbers that leaves its course once, after `turn` of them.
#[derive(Drop)]
struct Random {
    state: u64,
    turn: u32,
}

impl Random {
    fn draw(&mut self) -> u64 {
        self.state = self
            .state
            .wrapping_mul(6364136223846793005)
            .wrapping_add(1442695040888963407);
        if self.turn == 1 {
            self.state ^= 0x5555_5555_5555_5555;
        }
        self.turn = self.turn.saturating_sub(1);
        self.state >> 33
    }
}

fn text(alloc: Global, random: &mut Random) -> Option<Value> {
    let mut bytes = Vec::new(alloc);
    for _i in 0..10 {
        bytes.push(b'a' + (random.draw() % 26) as u8).ok()?;
    }
    Some(Value::Text(Text::read(alloc, bytes.as_slice()).ok()?))
}

fn put(alloc: Global, doc: &mut Doc, name: &[u8], value: Value) -> Option<()> {
    doc.put(Name::read(alloc, name).ok()?, value).ok()
}

// A field of a thousand texts and one of whole numbers, beside two others.
fn document(alloc: Global, number: u32, texts: &[Value], random: &mut Random) -> Option<Doc> {
    let mut doc = Doc::new(alloc);
    put(alloc, &mut doc, b"_id", Value::Long(i64::from(number)))?;
    let group = texts
        .get((random.draw() % 1000) as usize)?
        .copy(alloc)
        .ok()?;
    put(alloc, &mut doc, b"group", group)?;
    put(alloc, &mut doc, b"name", text(alloc, random)?)?;
    let at = (random.draw() % 1_000_000) as i32;
    put(alloc, &mut doc, b"at", Value::Int(at))?;
    Some(doc)
}

fn documents(alloc: Global, count: u32) -> Option<Vec<Doc>> {
    let mut random = Random { state: 7, turn: 0 };
    let mut texts = Vec::new(alloc);
    for _i in 0..1000 {
        texts.push(text(alloc, &mut random)?).ok()?;
    }
    let mut docs = Vec::new(alloc);
    for number in 0..count {
        docs.push(document(alloc, number, texts.as_slice(), &mut random)?)
            .ok()?;
    }
    Some(docs)
}

// Tells two orders apart.
fn mixed(sum: u64, place: u32) -> u64 {
    sum.wrapping_mul(31).wrapping_add(u64::from(place))
}

fn key(alloc: Global, doc: &Doc) -> Option<Bytes> {
    let mut key = Bytes::new(alloc);
    key_bytes(alloc, doc.get(b"group"), false, &mut key).ok()?;
    key_bytes(alloc, doc.get(b"at"), true, &mut key).ok()?;
    Some(key)
}

fn sorted_by_bytes(alloc: Global, docs: &[Doc]) -> Option<u64> {
    let mut keys = Vec::new(alloc);
    let mut place = 0u32;
    for doc in docs {
        keys.push((key(alloc, doc)?, place)).ok()?;
        place = place.wrapping_add(1);
    }
    keys.sort_by(|a: &(Bytes, u32), b: &(Bytes, u32)| a.0.bytes().cmp(b.0.bytes()))
        .ok()?;
    let mut sum = 0;
    for (_key, place) in &keys {
        sum = mixed(sum, *place);
    }
    Some(sum)
}

fn by_bytes(alloc: Global, count: u32, rounds: u32) -> Option<u64> {
    let docs = documents(alloc, count)?;
    let mut sum = 0u64;
    for _i in 0..rounds {
        sum = sum.wrapping_add(sorted_by_bytes(alloc, docs.as_slice())?);
    }
    Some(sum)
}

/// The two fields of a document that are sorted by, and its place.
#[derive(Drop)]
struct Row<'a> {
    group: Option<&'a Value>,
    at: Option<&'a Value>,
    place: u32,
}

fn compare_rows(a: &Row, b: &Row) -> Ordering {
    match compare_found(a.group, b.group) {
        Ordering::Equal => compare_found(b.at, a.at),
        order => order,
    }
}

fn sorted_by_trees(alloc: Global, docs: &[Doc]) -> Option<u64> {
    let mut rows = Vec::new(alloc);
    let mut place = 0u32;
    for doc in docs {
        let row = Row {
            group: doc.get(b"group"),
            at: doc.get(b"at"),
            place,
        };
        rows.push(row).ok()?;
        place = place.wrapping_add(1);
    }
    rows.sort_by(|a: &Row, b: &Row| compare_rows(a, b)).ok()?;
    let mut sum = 0;
    for row in &rows {
        sum = mixed(sum, row.place);
    }
    Some(sum)
}

fn by_trees(alloc: Global, count: u32, rounds: u32) -> Option<u64> {
    let docs = documents(alloc, count)?;
    let mut sum = 0u64;
    for _i in 0..rounds {
        sum = sum.wrapping_add(sorted_by_trees(alloc, docs.as_slice())?);
    }
    Some(sum)
}

const NUMBERS: [i64; 16] = [
    0,
    1,
    -1,
    2,
    127,
    128,
    255,
    256,
    -256,
    -257,
    65535,
    65536,
    2147483647,
    -2147483648,
    4294967296,
    -9223372036854775808,
];

const LETTERS: [u8; 4] = [0, 1, b'a', b'b'];

const NAMES: [&[u8]; 4] = [b"", b"a", b"ab", b"b"];

fn number(random: &mut Random) -> i64 {
    NUMBERS[(random.draw() % 16) as usize]
}

fn letters(alloc: Global, random: &mut Random) -> Option<Vec<u8>> {
    let mut letters = Vec::new(alloc);
    for _i in 0..random.draw() % 4 {
        letters.push(LETTERS[(random.draw() % 4) as usize]).ok()?;
    }
    Some(letters)
}

fn scalar(alloc: Global, random: &mut Random) -> Option<Value> {
    let value = match random.draw() % 12 {
        0 => Value::Least,
        1 => Value::Null,
        2 => {
            let number = number(random);
            i32::try_from(number).map_or(Value::Long(number), |number| Value::Int(number))
        }
        3 => Value::Long(number(random)),
        4 | 5 => Value::Text(Text::read(alloc, letters(alloc, random)?.as_slice()).ok()?),
        6 => {
            let mut bytes = Bytes::new(alloc);
            bytes.add(letters(alloc, random)?.as_slice()).ok()?;
            Value::Bin((random.draw() % 3) as u8, bytes)
        }
        7 => Value::Id([(random.draw() % 3) as u8; 12]),
        8 => Value::Flag(random.draw() % 2 == 1),
        9 => Value::Date(number(random)),
        10 => Value::Stamp(number(random).cast_unsigned()),
        _ => Value::Greatest,
    };
    Some(value)
}

fn deep(alloc: Global, random: &mut Random, depth: u32) -> Option<Value> {
    if depth == 0 {
        return scalar(alloc, random);
    }
    match random.draw() % 4 {
        0 | 1 => {
            let mut doc = Doc::new(alloc);
            for _i in 0..random.draw() % 4 {
                let name = NAMES[(random.draw() % 4) as usize];
                put(alloc, &mut doc, name, deep(alloc, random, depth - 1)?)?;
            }
            Some(Value::Doc(doc))
        }
        2 => {
            let mut list = List::new(alloc);
            for _i in 0..random.draw() % 4 {
                list.add(deep(alloc, random, depth - 1)?).ok()?;
            }
            Some(Value::List(list))
        }
        _ => scalar(alloc, random),
    }
}

// Now and then the mark of an empty array.
fn part(alloc: Global, random: &mut Random) -> Option<Option<Value>> {
    if random.draw() % 50 == 0 {
        return Some(None);
    }
    Some(Some(deep(alloc, random, 5)?))
}

/// How many pairs stood in which order, and how many had keys in another.
#[derive(Drop)]
struct Tally {
    less: u64,
    equal: u64,
    greater: u64,
    wrong: u64,
}

impl Tally {
    fn count(&mut self, order: Ordering, right: bool) {
        match order {
            Ordering::Less => self.less = self.less.wrapping_add(1),
            Ordering::Equal => self.equal = self.equal.wrapping_add(1),
            Ordering::Greater => self.greater = self.greater.wrapping_add(1),
        }
        if !right {
            self.wrong = self.wrong.wrapping_add(1);
        }
    }
}

fn bytes_of(alloc: Global, value: Option<&Value>, falling: bool) -> Option<Bytes> {
    let mut key = Bytes::new(alloc);
    key_bytes(alloc, value, falling, &mut key).ok()?;
    Some(key)
}

// Whether the keys of both directions stand as `order` says.
fn agrees(alloc: Global, a: Option<&Value>, b: Option<&Value>, order: Ordering) -> Option<bool> {
    let rising = bytes_of(alloc, a, false)?
        .bytes()
        .cmp(bytes_of(alloc, b, false)?.bytes());
    let falling = bytes_of(alloc, a, true)?
        .bytes()
        .cmp(bytes_of(alloc, b, true)?.bytes());
    Some(rising == order && falling == order.reverse())
}

// Each pair is drawn from one course, which the second value leaves somewhere, so that most pairs begin alike.
fn pairs(alloc: Global, count: u32) -> Option<Tally> {
    let mut tally = Tally {
        less: 0,
        equal: 0,
        greater: 0,
        wrong: 0,
    };
    let mut seeds = Random { state: 11, turn: 0 };
    for _i in 0..count {
        let state = seeds.draw();
        let turn = (1 + seeds.draw() % 12) as u32;
        let first = part(alloc, &mut Random { state, turn: 0 })?;
        let second = part(alloc, &mut Random { state, turn })?;
        let order = compare_found(first.as_ref(), second.as_ref());
        let right = agrees(alloc, first.as_ref(), second.as_ref(), order)?;
        tally.count(order, right);
    }
    Some(tally)
}
