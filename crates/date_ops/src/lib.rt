//! The UTC calendar of date expressions: parts of dates, sums, truncation and differences. A date is a number
//! of milliseconds since 1970, and each call refuses dates outside the years 1 to 9999.
#![tactic(auto)]

mod civil;
mod part;
mod range;
mod sum;
mod unit;

pub use part::date_part;
pub use sum::date_add;
pub use unit::{date_diff, date_trunc};
