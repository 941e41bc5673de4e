//! Runs one case of the benchmarks. The first word names it, and the others are its numbers.
#![tactic(auto)]

mod dates;
mod decode;
mod keys;
mod nesting;
mod paths;
mod project;
mod records;
mod schedules;
mod sets;

use std::{env, io};

fn word(words: &[String], place: usize) -> &str {
    words.get(place).map_or("", |word| word.as_str())
}

fn number(words: &[String], place: usize) -> u32 {
    words
        .get(place)
        .map_or(0, |word| word.parse::<u32>().unwrap_or(0))
}

fn main(rt: HostRuntime) -> Result<(), io::Error> {
    let alloc = rt.alloc();
    let mut words = Vec::new(alloc);
    for word in env::args(&rt)?.skip(1) {
        words.push(word)?;
    }
    let words = words.as_slice();
    match word(words, 0) {
        "dates" => dates::run(&rt, alloc),
        "decode" => decode::run(&rt, word(words, 1)),
        "decode_cases" => decode::cases(&rt, word(words, 1), number(words, 2) as usize),
        "keys" => {
            let how = word(words, 1);
            keys::run(&rt, alloc, how, number(words, 2), number(words, 3))
        }
        "nesting" => nesting::run(&rt, alloc, word(words, 1), number(words, 2)),
        "paths" => paths::run(
            &rt,
            alloc,
            word(words, 1),
            number(words, 2),
            number(words, 3),
        ),
        "pile" => records::run(&rt, alloc, number(words, 1), number(words, 2)),
        "project" => project::run(&rt, word(words, 1), word(words, 2)),
        "schedules" => schedules::run(&rt, alloc, u64::from(number(words, 1)), number(words, 2)),
        "sets" => {
            let operator = word(words, 1);
            sets::run(&rt, alloc, operator, number(words, 2), number(words, 3))
        }
        _ => println!(rt; "usage: engine_bench CASE NUMBER .."),
    }
}
