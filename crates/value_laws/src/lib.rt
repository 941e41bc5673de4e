//! What holds of the definitions of values, said in the words of the manual. Each function here does nothing: it is its
//! contract.
#![tactic(auto)]

mod calendar;
mod conversions;
mod numbers;
mod objects;
mod operands;
mod ranges;
mod reading;
mod sets;
mod sorting;
mod texts;
mod units;

pub use calendar::{
    day_in_its_iso_week, day_in_its_iso_year, day_of_its_parts, day_parts_in_range, parts_of_a_date,
};
pub use conversions::shown_number_is_spelled;
pub use numbers::{product_in_64_bits, product_overflows};
pub use objects::{merged_fields_in_place, merged_value_is_last};
pub use operands::{all_are_held, first_code_stands, none_stands};
pub use ranges::{falling_range_ends, range_items, rising_range_ends};
pub use reading::{fault_is_first, fault_or_document, leftmost_fault};
pub use sets::{set_has_each_value, set_members_differ, set_members_in_order};
pub use sorting::{sort_value_comes_first, sort_value_of_none};
pub use texts::{
    split_at_first_place, split_in_one_part, split_parts_join, split_parts_lack_separator,
};
pub use units::{beginning_is_first, beginning_is_in_unit};
