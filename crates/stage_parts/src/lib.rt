//! What readers of stages share: values, names, paths and sort keys as they stand in a stage.
#![tactic(auto)]

mod apart;
mod keys;
mod names;
mod paths;
mod values;

pub use apart::{are_apart, are_apart_in, is_apart};
pub use keys::read_keys;
pub use names::{has_only, is_collection_name, read_collection, read_field_name, read_made_name};
pub use paths::{read_field_path, read_path, read_path_text};
pub use values::{count_in, doc_in, flag_in, list_in, text_in, whole_in};
