//! Stages, pipelines and commands as trees (the manual, Aggregation Stages), and what they mean: the list that a stage
//! gives, the written run of a pipeline with the failure that stands, and the check of its results.
#![tactic(auto)]

mod command;
mod copied;
mod edge;
mod graph_lookup;
mod group;
mod item;
mod lookup;
mod merge;
mod project;
mod row;
mod sort;
mod stage;
mod unwind;
mod window;

pub use command::{BadCommand, Command, CommandWhy};
pub use copied::Copied;
pub use edge::Edge;
pub use graph_lookup::GraphLookup;
pub use group::Group;
pub use item::Item;
pub use lookup::Lookup;
pub use merge::{Merge, WhenMatched, WhenUnmatched};
pub use project::Project;
pub use row::Row;
pub use sort::Sort;
pub use stage::{Facets, Pipeline, Placed, Stage};
pub use unwind::Unwind;
pub use window::{Window, WindowFn};
