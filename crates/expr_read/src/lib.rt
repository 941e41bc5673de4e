//! Reads expressions: the tree that a value of a document spells.
#![tactic(auto)]

mod errors;
mod laws;
mod made;
mod parts;
mod read;
mod row;
mod scope;
mod texts;

pub use errors::FormError;
pub use laws::{one_tree, spelling};
pub use read::read_expr;
