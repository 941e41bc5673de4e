//! Records of a 12-byte key and a 60-byte body, pushed into one block and ordered.

use pile::Pile;
use std::alloc::Global;
use std::io;

const LEAST: usize = 4096;

const MOST: usize = 268_435_456;

/// Pushes `count` records into a block of `bytes`, orders them, and prints a number that their order gives.
pub fn run(rt: &impl Print, alloc: Global, count: u32, bytes: u32) -> Result<(), io::Error> {
    match ordered(alloc, count, bytes as usize) {
        Some(sum) => println!(rt; "{sum}"),
        None => println!(rt; "no memory"),
    }
}

fn ordered(alloc: Global, count: u32, bytes: usize) -> Option<u64> {
    if bytes % 8 != 0 || bytes < LEAST || MOST < bytes {
        return None;
    }
    let mut pile = Pile::new(alloc, bytes).ok()?;
    let mut state = 7u64;
    let mut body = [0x5a; 60];
    for number in 0..count {
        let mut key = [0u8; 12];
        for place in 0..12usize {
            state = state
                .wrapping_mul(6364136223846793005)
                .wrapping_add(1442695040888963407);
            key[place] = (state >> 56) as u8;
        }
        body[(number % 60) as usize] = key[0];
        pile.push(&key, &body, u64::from(number)).ok()?;
    }
    pile.order();
    let mut sum = 0u64;
    for place in 0..pile.len() {
        let last = pile.body(place).last().map_or(0, |byte| u64::from(*byte));
        sum = sum.wrapping_mul(31).wrapping_add(pile.seq(place) ^ last);
    }
    Some(sum)
}
