//! Reads commands: the collection and the stages that a document spells, or what is wrong with it first (the manual,
//! `aggregate` and Aggregation Stages).
#![tactic(auto)]

mod command;
mod errors;
mod kind;
mod laws;
mod made;
mod parts;
mod place;
mod stages;
mod words;

pub use command::read_command;
pub use errors::CommandError;
pub use laws::{command_is, one_command};
