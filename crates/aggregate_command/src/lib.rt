//! The whole of a call of the program: reads the words and the files, runs or checks the command over the documents that
//! the shards own, and writes the results and the notes.
#![tactic(auto)]

mod call;
mod files;
mod inputs;
mod laws;
mod notes;
mod plan;
mod read;
mod request;
mod results;
mod run;
mod shards;
mod status;
mod sure;
mod texts;
mod write;

pub use call::aggregate;
pub use chunk_map::cluster_is;
pub use laws::{failure_is, verdict_is};
pub use status::Status;
pub use sure::run_in_memory;
pub use write::put_all;
