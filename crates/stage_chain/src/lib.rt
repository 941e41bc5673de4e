//! The stages of a pipeline that work document by document, one after another: a document is pushed through all of them
//! (the manual, Aggregation Pipelines).
#![tactic(auto)]

mod built;
mod chain;
mod docs;
mod laws;
mod step;

pub use built::is_built;
pub use chain::Chain;
pub use laws::chain_is_written;
