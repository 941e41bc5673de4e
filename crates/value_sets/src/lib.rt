//! How the operands of operators are read, and the operators on sets and objects, whose members and fields are looked
//! up by their hashes (the manual, Set and Object Expression Operators).
#![tactic(auto)]

mod arrays_so_far;
mod digest;
mod member;
mod objects;
mod operand;
mod sets;

pub use objects::{array_to_object, merge_objects, object_to_array};
pub use operand::{
    as_array, as_date, as_doc, as_summand, as_text, as_whole, counts_as_true, is_date, is_int,
};
pub use sets::{set_difference, set_equals, set_intersection, set_is_subset, set_union};
