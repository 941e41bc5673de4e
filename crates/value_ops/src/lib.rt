//! The operators of expressions that take the values of their operands: what each gives on values, missing ones among
//! them (the manual, Aggregation Operators).
#![tactic(auto)]

mod arrays;
mod comparisons;
mod conversions;
mod dispatch;
mod number;
mod numbers;
mod ranges;
mod texts;
mod types;

pub use dispatch::apply;
pub use value_sets::{
    as_array, as_date, as_doc, as_text, as_whole, counts_as_true, is_date, is_int,
};
