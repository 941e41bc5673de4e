//! Blocks that fill up, and records in order.
use pile::Pile;
use std::prelude::*;

// The lengths of a key and of a body, how many such records a block of 4,096 bytes takes, and what is free then.
const FILLED: [(usize, usize, usize, usize); 9] = [
    (8, 16, 85, 16),
    (0, 0, 170, 16),
    (4072, 0, 1, 0),
    (4073, 0, 0, 4096),
    (0, 4072, 1, 0),
    (0, 4073, 0, 4096),
    (2000, 2072, 1, 0),
    (2000, 2073, 0, 4096),
    (1000, 1024, 2, 0),
];

#[test]
fn a_block_takes_what_fits(rt: HostRuntime) {
    let mut pile = Pile::new(rt.alloc(), 4096).expect(&rt, "memory");
    let bytes = [7u8; 4096];
    for (key, body, held, free) in FILLED {
        assert!(rt; key <= 4096 && body <= 4096);
        for i in 0..200usize {
            let pushed = pile.push(&bytes[..key], &bytes[..body], i as u64).is_ok();
            assert!(rt; pushed == (i < held));
        }
        assert!(rt; pile.len() == held);
        assert!(rt; pile.free() == free);
        pile.clear();
        assert!(rt; pile.len() == 0);
        assert!(rt; pile.free() == 4096);
    }
}

// Empty keys, equal keys with different numbers, and keys that begin alike, as they are pushed and in order.
const PUSHED: [(&[u8], &[u8], u64); 9] = [
    (b"ab", b"one", 5),
    (b"", b"two", 9),
    (b"abc", b"", 1),
    (b"ab", b"four", 2),
    (b"\xff", b"five", 0),
    (b"", b"six", 3),
    (b"a", b"seven", 7),
    (b"ab\0", b"eight", 4),
    (b"b", b"nine", 6),
];

const ORDERED: [(&[u8], &[u8], u64); 9] = [
    (b"", b"six", 3),
    (b"", b"two", 9),
    (b"a", b"seven", 7),
    (b"ab", b"four", 2),
    (b"ab", b"one", 5),
    (b"ab\0", b"eight", 4),
    (b"abc", b"", 1),
    (b"b", b"nine", 6),
    (b"\xff", b"five", 0),
];

// Whether the pile holds just these records, in this order.
fn holds(pile: &Pile, records: &[(&[u8], &[u8], u64)]) -> bool {
    if pile.len() != records.len() {
        return false;
    }
    for i in 0..records.len() {
        let (key, body, seq) = records[i];
        if pile.key(i) != key || pile.body(i) != body || pile.seq(i) != seq {
            return false;
        }
    }
    true
}

#[test]
fn records_come_in_order(rt: HostRuntime) {
    let mut pile = Pile::new(rt.alloc(), 4096).expect(&rt, "memory");
    for (key, body, seq) in PUSHED {
        assert!(rt; pile.push(key, body, seq).is_ok());
    }
    assert!(rt; holds(&pile, &PUSHED));
    pile.order();
    assert!(rt; holds(&pile, &ORDERED));
}
