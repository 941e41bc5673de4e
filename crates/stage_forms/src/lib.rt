//! Reads the stages that hold no other pipeline and no join: `$match`, `$project`, `$addFields`, `$set`, `$unset`,
//! `$replaceRoot`, `$replaceWith`, `$unwind`, `$sort`, `$limit`, `$skip` and `$count` (the manual, Aggregation Stages).
#![tactic(auto)]

mod kind;
mod laws;
mod leaves;
mod project;
mod read;
mod said;
mod unwind;

pub use kind::Kind;
pub use laws::{one_plain_stage, plain_stage_spelling};
pub use read::read_plain_stage;
