//! Reads queries: the tree that a query document spells.
#![tactic(auto)]

mod laws;
mod operands;
mod parts;
mod read;
mod words;

pub use expr_read::FormError;
pub use laws::{one_query, spelling};
pub use read::{read_query, read_restriction};
