//! What holds of a call of the program, whatever its words and its files: laws of what they come to, each in the
//! subject's own words.
#![tactic(auto)]

mod named;
mod refusals;

pub use named::files_are;
pub use refusals::refusals_are;
