//! Expressions as queries.

ghost use Rattle.bson_value.specs.Gives.{Gives};
ghost use Rattle.expr_tree.specs.View.{node_of};
ghost use Rattle.expr_tree.specs.QueryNode.{query, no_queries, counts as counting};
ghost use Rattle.expr_tree.specs.Holds.{document, holds};

use bson_value::{Doc, EvalError};
use expr_eval::{Env, Names, eval};
use expr_tree::Expr;
use std::alloc::Global;
use value_ops::counts_as_true;

/// Whether the value of the expression counts as true (the manual, `$expr`).
pub(crate) fn counts(alloc: Global, expr: &Expr, doc: &Doc) -> Result<bool, EvalError>
    ensures { Gives (λ b. b) result (holds (query (counting (node_of expr.now)) no_queries) (document doc.now)) }
{
    let env = Env {
        root: doc,
        names: Names::new(alloc),
    };
    let value = eval(alloc, expr, &env)?;
    Ok(counts_as_true(&value))
}
