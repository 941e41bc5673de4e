//! Paths into documents: what a path reaches, where it ends, and documents with a path set or removed
//! (the manual: Field Paths, Query an Array, `$addFields`, `$unset`).
#![tactic(auto)]

mod expression_path;
mod found;
mod groups;
mod keep_path;
mod laws;
mod plain_path;
mod query_path;
mod set_path;
mod unset_path;

pub use expression_path::{reach, reach_value};
pub use found::Found;
pub use keep_path::keep;
pub use laws::{keep_all_is_same, kept_in_order, plain_is_reach, set_is_reached, unset_is_back};
pub use plain_path::plain;
pub use query_path::{candidates, ends};
pub use set_path::set;
pub use unset_path::unset;
