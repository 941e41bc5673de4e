//! The notation in which tables of cases are written: a line is a case, a question and behind an arrow its answer.
//!
//! Both are items with spaces between them. An item is a value or a bare word. Values are `null`, `true`, `false`, `min`
//! and `max` (MinKey and MaxKey); `5`, an int32; `5L`, an int64; `5D`, a date in milliseconds since 1970; `5S`, a
//! timestamp as one number; `"abc"`, a text, with `\n`, `\0` and `\1` for the bytes 10, 0 and 1, and `\` before a quote or
//! another `\`; `0x00ff`, binary data, its subtype before the x and its bytes in hex behind it; `#` and 24 hex digits, an
//! ObjectId; `[1, 2]`, an array; and `{a: 1, "b c": 2}`, a document, whose names need quotes where they are empty or hold a
//! space, a quote, a comma, a colon or a bracket. Between brackets a comma counts as a space. A bare word is any other word
//! outside brackets: what a table asks for, as `ends`, or an answer that is no value, as `missing`.
#![tactic(auto)]

mod case;
mod read;
mod table;
mod token;

pub use case::{Case, Item};
pub use read::{read_case, read_items};
pub use table::{Table, check_table, is_case};
