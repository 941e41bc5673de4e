//! Whether a query holds of a document (the manual, Query and Projection Operators).
#![tactic(auto)]

mod checks;
mod expressions;
mod places;
mod queries;

pub use queries::matches;
