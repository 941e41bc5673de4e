//! The values of expressions (the manual, Aggregation Expressions), and a bound on how deep they are nested.
#![tactic(auto)]

mod bound_scope;
mod bounds;
mod dates;
mod env;
mod evaluate;
mod made;
mod scope;
mod values;

pub use bounds::depth_bound;
pub use env::{Env, Names};
pub use evaluate::eval;
