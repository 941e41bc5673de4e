ghost use Rattle.std.specs.Prelude.{◌≡◌, ℕ, ◌+◌, ◌-◌, ◌*◌, ◌%◌, ◌<◌, ◌≤◌, [], ◌∷◌, ◌++◌, length, IfOk, MatchBool, MatchResult};
ghost use Rattle.std_alloc.specs.Vec.{vec_len, vec_capacity, vec_ptr};
ghost use Rattle.pile.specs.Records.{Record, counted_sum, free_of, record_at, record_lt, slot_lt, record_of, AllWithin, IsTheOrderOf};
ghost use Rattle.std.specs.List.Sorted.{IsPermutation, IsSortedBy};
ghost use Rattle.std.specs.Ordering.{is_lt};

use crate::block::{Husk, Middle, close, open, put_slot, regain, widen};
use crate::full::Full;
use crate::no_memory::NoMemory;
use crate::slot::Slot;
use std::alloc::Global;
use std::cmp::Ordering;
use std::marker::Model;
use std::mem::replace;
use std_alloc::vec::Lodged;

// The bytes of a slot.
const SLOT: usize = 24;

/// Records in one block: each has key bytes, body bytes and a number, and counts its bytes plus 24.
///
/// A contract sees a pile as its list of records and the size of its block in bytes. The block is freed when
/// the pile is dropped.
pub struct Pile {
    // The keys and bodies, from the block's first byte on.
    bytes: Vec<u8, Lodged>,
    // At the block's end. The last slot is that of the first record.
    slots: Vec<Slot, Lodged>,
    middle: Middle,
    husk: Husk,
    words: usize,
}

impl Model for Pile {
    ghost use Rattle.pile.specs.Records.{Contents, contents_code};

    ghost Value = { Contents };

    ghost coded = { contents_code };

    ghost use Rattle.pile.specs.Layout.{contents, IsLaid};

    ghost view = { contents };

    ghost invariant = { IsLaid };
}

impl Drop for Pile {
    fn drop(self) {
        let Pile {
            bytes,
            slots,
            mut middle,
            husk,
            words: _,
        } = self;
        regain(&mut middle, bytes, slots);
        drop(close(middle, husk));
    }
}

impl Pile {
    /// An empty pile with a block of this many bytes: a multiple of 8 from 4,096 to 268,435,456.
    ///
    /// This is the one call that takes memory. `NoMemory` comes only where there is none.
    pub fn new(alloc: Global, bytes: usize) -> Result<Pile, NoMemory>
        requires { (bytes % 8 ≡ 0) × (4096 ≤ bytes) × (bytes ≤ 268435456) }
        ensures { IfOk result (λ p. (p.records ≡ []) × (p.size ≡ bytes)) }
    {
        let words = bytes / 8;
        let mut vec = Vec::with_capacity(alloc, words)?;
        let base = vec.as_mut_ptr();
        let (middle, husk) = open(vec, base);
        Ok(Pile {
            bytes: Vec::new(Lodged),
            slots: Vec::new(Lodged),
            middle,
            husk,
            words,
        })
    }

    /// How many records there are.
    pub fn len(&self) -> usize
        ensures { result ≡ length self.now.records }
    {
        self.slots.len()
    }

    /// How many bytes of the block are free: its size less what the records count.
    pub fn free(&self) -> usize
        ensures free { result ≡ free_of self.now }
        ensures exact { result + counted_sum self.now.records ≡ self.now.size }
    {
        self.words * 8 - self.bytes.len() - self.slots.len() * SLOT
    }

    /// Appends a record.
    ///
    /// `Full` comes exactly where the record counts more bytes than are free: the length of its key and of its
    /// body, and 24. The pile is unchanged then.
    pub fn push(&mut self, key: &[u8], body: &[u8], seq: u64) -> Result<(), Full>
        ensures { MatchResult result (λ _. (length key.now + length body.now + 24 ≤ free_of self.old) × (self.new.records ≡ self.old.records ++ record { key = key.now; body = body.now; seq = seq } ∷ []) × (self.new.size ≡ self.old.size)) (λ _. (free_of self.old < length key.now + length body.now + 24) × (self.new ≡ self.old)) }
    {
        let free = self.free();
        if !fits(free, key.len(), body.len()) {
            return Err(Full);
        }
        let used = self.bytes.len();
        let count = self.slots.len() + 1;
        let slot = Slot {
            at: used as u64,
            key: key.len() as u32,
            body: body.len() as u32,
            seq,
        };
        let bytes = replace(&mut self.bytes, Vec::new(Lodged));
        self.bytes = with_room(&mut self.middle, bytes, used + key.len() + body.len());
        append(&mut self.bytes, key);
        append(&mut self.bytes, body);
        let slots = replace(&mut self.slots, Vec::new(Lodged));
        let at = self.words - 3 * count;
        self.slots = put_slot(&mut self.middle, slots, slot, at, count);
        Ok(())
    }

    /// The key of the record at `i`.
    pub fn key(&self, i: usize) -> &[u8]
        requires { i < length self.now.records }
        ensures { result.now ≡ (record_at self.now.records i).key }
    {
        let slot = self.slots[self.slots.len() - 1 - i];
        let at = slot.at as usize;
        &self.bytes[at..at + slot.key as usize]
    }

    /// The body of the record at `i`.
    pub fn body(&self, i: usize) -> &[u8]
        requires { i < length self.now.records }
        ensures { result.now ≡ (record_at self.now.records i).body }
    {
        let slot = self.slots[self.slots.len() - 1 - i];
        let at = slot.at as usize + slot.key as usize;
        &self.bytes[at..at + slot.body as usize]
    }

    /// The number of the record at `i`.
    pub fn seq(&self, i: usize) -> u64
        requires { i < length self.now.records }
        ensures { result ≡ (record_at self.now.records i).seq }
    {
        self.slots[self.slots.len() - 1 - i].seq
    }

    /// Puts the records in order of their key bytes, and those of equal keys in order of their numbers.
    ///
    /// Where all numbers differ, there is one such order. No byte of a record moves.
    pub fn order(&mut self)
        ensures permutation { IsPermutation self.old.records self.new.records }
        ensures sorted { IsSortedBy record_lt self.new.records }
        ensures only { IsTheOrderOf self.old.records self.new.records }
        ensures size { self.new.size ≡ self.old.size }
    {
        let bytes = self.bytes.as_slice();
        let slots = self.slots.as_mut_slice();
        sort(bytes, slots);
    }

    /// Takes all records out. The block stays.
    pub fn clear(&mut self)
        ensures { (self.new.records ≡ []) × (self.new.size ≡ self.old.size) }
    {
        let bytes = replace(&mut self.bytes, Vec::new(Lodged));
        let slots = replace(&mut self.slots, Vec::new(Lodged));
        regain(&mut self.middle, bytes, slots);
    }
}

// Whether a record with a key and a body of these lengths counts at most `free`.
fn fits(free: usize, key: usize, body: usize) -> bool
    ensures { MatchBool result (key + body + 24 ≤ free) (free < key + body + 24) }
{
    free >= SLOT && free - SLOT >= key && free - SLOT - key >= body
}

// The bytes, with room for `need` in all.
fn with_room(middle: &mut Middle, bytes: Vec<u8, Lodged>, need: usize) -> Vec<u8, Lodged>
    requires bytes { (bytes.cap ≡ middle.old.low * 8) × (0 < bytes.cap → bytes.ptr ≡ middle.old.base) }
    requires need { (bytes.len ≤ need) × (middle.old.low * 8 < bytes.len + 8) × (need + 24 * middle.old.high ≤ middle.old.words * 8) × (middle.old.words ≤ 33554432) }
    ensures middle { (middle.new.base ≡ middle.old.base) × (middle.new.words ≡ middle.old.words) × (middle.new.high ≡ middle.old.high) }
    ensures low { (result.cap ≡ middle.new.low * 8) × (need ≤ result.cap) × (middle.new.low * 8 < need + 8) × (0 < result.cap → result.ptr ≡ middle.new.base) }
    ensures bytes { (result.items ≡ bytes.items) × (result.len ≡ bytes.len) }
{
    if need <= bytes.capacity() {
        return bytes;
    }
    let low = (need + 7) / 8;
    widen(middle, bytes, low, low * 8)
}

// Appends bytes that there is room for.
fn append(bytes: &mut Vec<u8, Lodged>, more: &[u8])
    requires { bytes.old.len + length more.now ≤ bytes.old.cap }
    ensures items { bytes.new.items ≡ bytes.old.items ++ more.now }
    ensures in_place { (bytes.new.len ≡ bytes.old.len + length more.now) × (bytes.new.cap ≡ bytes.old.cap) × (bytes.new.ptr ≡ bytes.old.ptr) }
{
    let mut i = 0;
    while i < more.len() {
        bytes.push_reserved(more[i]);
        i += 1;
    }
}

// The key that a slot names, as far as the bytes reach.
fn key_of<'a>(bytes: &'a [u8], slot: &Slot) -> &'a [u8]
    ensures { result.now ≡ (record_of bytes.now slot.now).key }
{
    let from = (slot.at as usize).min(bytes.len());
    let rest = &bytes[from..];
    &rest[..(slot.key as usize).min(rest.len())]
}

// The order of two slots' records: by key bytes, then by number.
#[tactic(auto, unfolding(crate::specs::Records::record_lt))]
fn compare(bytes: &[u8], a: &Slot, b: &Slot) -> Ordering
    ensures { is_lt result ≡ slot_lt bytes.now a.now b.now }
{
    key_of(bytes, a)
        .cmp(key_of(bytes, b))
        .then(a.seq.cmp(&b.seq))
}

// Puts the slots in falling order, since the last slot is the first record.
fn sort(bytes: &[u8], slots: &mut [Slot])
    ensures permutation { IsPermutation slots.old slots.new }
    ensures len { length slots.new ≡ length slots.old }
    ensures sorted { IsSortedBy (λ a b. slot_lt bytes.now b a) slots.new }
{
    slots.sort_unstable_by(|a, b| compare(bytes, b, a));
}
