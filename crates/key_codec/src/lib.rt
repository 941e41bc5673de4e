//! Keys: values written as bytes whose plain order is the comparison order.
//!
//! A key is the bytes of its parts, one after the other. A part is a value, or the mark of an empty array, in
//! rising or falling order. [`key_bytes`] appends a part; [`keys_are_ordered`] says what is known of keys.
//!
//! A part begins with a tag, twice the class of its value (2 to 24); 3 is the mark of an empty array.
//!
//! | value | after the tag |
//! |---|---|
//! | int32, int64, date | 128 + k, then the number's k significant bytes, greatest first; of a negative n those of -1 - n, each of these 1 + k bytes taken from 255 |
//! | string | its bytes, with 1 after each byte 0, then two bytes 0 |
//! | document | for each pair the value's tag, the name, 0, and what follows the value's tag; then 0 |
//! | array | its elements with their tags; then 0 |
//! | binary data | a byte 255 for each whole 255 of the length, a byte for the rest; the subtype; the bytes |
//! | ObjectId | its twelve bytes |
//! | boolean | 0 or 1 |
//! | timestamp | eight bytes, greatest first |
//! | MinKey, null, MaxKey | nothing |
//!
//! In a falling part each byte is taken from 255. Every part tells its own end, so a falling one needs no more.
#![tactic(auto)]

mod collation;
mod laws;
mod part;
mod scalar;

pub use laws::keys_are_ordered;
pub use part::key_bytes;
