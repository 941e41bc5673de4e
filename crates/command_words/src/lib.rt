//! The words of the command line: which mode they ask for, read with `clap`.
#![tactic(auto)]

mod arrive;
mod errors;
mod given;
mod help;
mod laws;
mod make_part;
mod mode;
mod modes;
mod numbers;
mod options;
mod parse;
mod read;
mod run_options;

pub use arrive::Arrive;
pub use errors::WordsError;
pub use help::own_answer;
pub use laws::modes_are_written;
pub use make_part::MakePart;
pub use mode::Mode;
pub use read::read_words;
pub use run_options::RunOptions;
