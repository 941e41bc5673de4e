//! The batches of several shards, merged into one list.
//!
//! A [`MergeCore`] says which shard to ask, takes what the shards answer in whatever order it comes, and gives the
//! items of all shards one at a time: shard after shard, or in order of keys with equal keys in order of shards.
#![tactic(auto)]

mod answer;
mod choice;
mod item;
mod laws;
mod merge;
mod shards;
mod waiting;

pub use answer::Take;
pub use item::Keyed;
pub use laws::{schedules_join, takes_the_whole, whole_is_stable};
pub use merge::MergeCore;
