// Where a record lies in the block: its key from byte `at` on, its body right behind the key. It takes 24 bytes.
#[derive(Clone, Copy)]
pub struct Slot {
    pub at: u64,
    pub key: u32,
    pub body: u32,
    pub seq: u64,
}
