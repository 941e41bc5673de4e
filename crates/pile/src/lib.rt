//! Records in one block of memory: their bytes lie from the front, their slots from the back.
//!
//! A `Pile` takes its block when it is made, and nothing else is ever allocated. So each call but `Pile::new`
//! succeeds without more memory.
#![tactic(auto)]

mod block;
mod full;
mod no_memory;
mod pile;
mod slot;

pub use full::Full;
pub use no_memory::NoMemory;
pub use pile::Pile;
