//! Tables of cases of expressions and queries: their forms, their values and the bounds of how deep these are nested.
#![tactic(auto)]

mod answers;
mod depths;
mod expression_forms;
mod expressions;
mod queries;
mod query_forms;
mod trees;

use case_notation::check_table;
use depths::Depths;
use expression_forms::ExpressionForms;
use expressions::Expressions;
use queries::Queries;
use query_forms::QueryForms;
use std::io;
use std::rt::Files;

/// Asks the crates of expressions and queries each case of their tables, and prints how many there are and those that
/// differ.
pub fn check_queries(rt: &(impl Files + Print + AllocGlobal)) -> Result<(), io::Error> {
    check_table(rt, "expression_forms.txt", &ExpressionForms)?;
    check_table(rt, "expressions.txt", &Expressions)?;
    check_table(rt, "depths.txt", &Depths)?;
    check_table(rt, "query_forms.txt", &QueryForms)?;
    check_table(rt, "queries.txt", &Queries)
}
