//! Accumulators, by their names.

ghost use Rattle.std.specs.Prelude.{◌≡◌};
ghost use Rattle.bson_value.specs.View.{tree_of};
ghost use Rattle.expr_read.specs.Reads.{Reads};
ghost use Rattle.join_forms.specs.Reading.{argument, accumulator};
ghost use Rattle.join_forms.specs.Views.{accumulator_of};
ghost use Rattle.join_forms.specs.Words.{has_window};

use crate::fields::is_empty_doc;
use crate::words::kind_named;
use bson_value::{AccKind, Value};
use expr_read::{FormError, read_expr};
use expr_tree::Expr;
use std::alloc::Global;

/// A window function can be this accumulator.
pub fn has_window(kind: AccKind) -> bool
    ensures { result ≡ has_window kind }
{
    match kind {
        AccKind::MergeObjects => false,
        AccKind::Sum | AccKind::Min | AccKind::Max => true,
        AccKind::First | AccKind::Last => true,
        AccKind::Push | AccKind::AddToSet | AccKind::Count => true,
    }
}

fn read_argument(
    alloc: Global,
    kind: Option<AccKind>,
    value: &Value,
) -> Result<(AccKind, Expr), FormError>
    ensures { Reads accumulator_of result (argument kind (tree_of value.now)) }
{
    match kind {
        Some(kind) => Ok((kind, read_expr(alloc, value)?)),
        None => Err(FormError::Form),
    }
}

/// The accumulator of that name, with its argument: an expression, and of `$count` an empty document, whose tree is
/// null.
pub fn read_accumulator(
    alloc: Global,
    name: &[u8],
    value: &Value,
) -> Result<(AccKind, Expr), FormError>
    ensures { Reads accumulator_of result (accumulator name.now (tree_of value.now)) }
{
    if name == b"$count".as_slice() {
        if is_empty_doc(value) {
            Ok((AccKind::Count, Expr::Literal(Value::Null)))
        } else {
            Err(FormError::Form)
        }
    } else {
        read_argument(alloc, kind_named(name), value)
    }
}
