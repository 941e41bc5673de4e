//! Expressions and queries as trees (the manual, Aggregation Expressions and Query and Projection Operators),
//! and what they mean: the value of an expression, how deep that value can be, and whether a query holds.
#![tactic(auto)]

mod expr;
mod query;

pub use expr::{Bindings, Branches, Expr, Exprs, NamedExprs, Operand};
pub use query::{Queries, Query, QueryItems, SubQuery, Test, Tests};
