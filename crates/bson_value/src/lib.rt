//! The values of BSON documents: texts, names, bytes, documents, lists, their comparison order, and the
//! small enums that operators and evaluation errors are named by.
#![tactic(auto)]

mod acc_kind;
mod bad;
mod bytes;
mod depth;
mod docs;
mod errors;
mod eval_code;
mod name;
mod no_memory;
mod op;
mod order;
mod part;
mod path;
mod text;
mod unit;
mod value;

pub use acc_kind::AccKind;
pub use bad::{BadBson, BadWhy};
pub use bytes::Bytes;
pub use depth::{depth_of, full_depth};
pub use docs::Docs;
pub use errors::{EvalError, Failure};
pub use eval_code::EvalCode;
pub use name::Name;
pub use no_memory::NoMemory;
pub use op::Op;
pub use order::{
    class_of, compare, compare_found, found_order_is_total, order_goes_by_class, order_is_preorder,
    order_is_total,
};
pub use part::Part;
pub use path::{Path, PathError};
pub use text::{Text, TextError};
pub use unit::Unit;
pub use value::{Doc, Fields, Items, List, Value};
