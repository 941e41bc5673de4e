//! Strict reading and writing of BSON documents (BSON 1.1): of each document there is one spelling, and bytes that are no
//! document's are refused with their leftmost fault.
#![tactic(auto)]

mod error;
mod frame;
mod front;
mod kind;
mod laws;
mod length;
mod names;
mod reading;
mod scalars;
mod seen;
mod writing;

pub use error::DecodeError;
pub use front::{decode_front, needed_of};
pub use laws::{document_is, records_are, spelled_once};
pub use length::encoded_len;
pub use reading::decode;
pub use writing::encode;
