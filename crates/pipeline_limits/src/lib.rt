//! The limits of a pipeline: the number of its stages, and how deep a document behind each of them can be nested.
#![tactic(auto)]

mod behind;
mod count;
mod limits;
mod values;
mod walk;

pub use count::stage_count;
pub use limits::{depth_behind, first_too_deep, over_limits};
