//! Forms of expressions: `{$abs: "$a"} -> "Apply(Abs, ..)"`.

use crate::answers::{one, printed, refused, tree};
use bson_value::Value;
use case_notation::{Item, Table};
use expr_read::{FormError, read_expr};
use expr_tree::Expr;
use std::alloc::Global;

/// The table of forms.
pub(crate) struct ExpressionForms;

// What the expression prints, and its copy too.
fn shown(alloc: Global, expr: &Expr) -> Option<String> {
    let copy = expr.copy(alloc).ok()?;
    printed(alloc, expr, &copy)
}

// What the expression prints that the value is read as.
fn reading(alloc: Global, value: &Value) -> Option<String> {
    match read_expr(alloc, value) {
        Ok(expr) => shown(alloc, &expr),
        Err(FormError::Form) => refused(alloc),
        Err(FormError::Memory) => None,
    }
}

impl Table for ExpressionForms {
    fn answer(&self, alloc: Global, question: &[Item]) -> Option<Vec<Item>> {
        let [item] = question else {
            return None;
        };
        let read = reading(alloc, item.value()?)?;
        one(alloc, tree(alloc, read.as_str())?)
    }
}
