//! The survey of a collection's files, and its owned documents.
#![tactic(auto)]

mod errors;
mod file_survey;
mod owned_reader;
mod piece;
mod record_reader;

pub use errors::{BadShard, ShardWhy, SurveyError};
pub use file_survey::survey;
pub use owned_reader::OwnedReader;
