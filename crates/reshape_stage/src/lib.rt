//! The operator of the stages that work document by document: `$match`, `$project`, `$addFields`, `$unset`,
//! `$replaceRoot`, `$unwind`, `$limit`, `$skip` and `$count` (the manual, Aggregation Stages).
#![tactic(auto)]

mod fields;
mod laws;
mod operator;
mod project;
mod shape;
mod unwind;
mod values;

pub use laws::operator_is_row;
pub use operator::ReshapeOp;
pub use values::lesser;
