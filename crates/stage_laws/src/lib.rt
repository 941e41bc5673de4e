//! What holds of the stages of a pipeline, of the limits and names round it, and of the survey and the merge of the files
//! below it, whoever runs them: laws of definitions that follow a loop, each in the subject's own words.
#![tactic(auto)]

mod depths;
mod expressions;
mod levels;
mod limits;
mod merging;
mod names;
mod sorting;
mod surveys;

pub use depths::{
    bound_is_met, command_within_limit, documents_within_bound, paths_have_steps,
    values_within_bound,
};
pub use expressions::{filtered_in_order, mapped_in_order, values_in_order};
pub use levels::{graph_levels, level_takes};
pub use limits::{first_too_deep_is, refused_past_limits};
pub use merging::shard_gives_batches;
pub use names::{shards_by_name, twice_named};
pub use sorting::{sort_is_stable, sort_takes_more};
pub use surveys::{
    collection_is_surveyed, file_is_surveyed, first_array_is, key_is, whole_records_are,
};
