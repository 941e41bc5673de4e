//! `$setWindowFields`

ghost use Rattle.std.specs.Prelude.{[], is_some};
ghost use Rattle.std.specs.Option.{option_map};
ghost use Rattle.bson_value.specs.View.{tree_of};
ghost use Rattle.expr_read.specs.Reads.{Reads};
ghost use Rattle.expr_tree.specs.View.{node_of};
ghost use Rattle.join_forms.specs.Reading.{otherwise, expr_value, keys_value, output, outputs_in, outputs, outputs_at, window_in, window_reading};
ghost use Rattle.join_forms.specs.Views.{outputs_of};
ghost use Rattle.join_forms.specs.Words.{nothing};
ghost use Rattle.stage_parts.specs.Each.{each};
ghost use Rattle.stage_tree.specs.StageView.{stage_of, window_of};

use crate::fields::form_in;
use crate::function::read_function;
use bson_value::{Doc, Path, Value};
use expr_read::{FormError, read_expr};
use expr_tree::Expr;
use stage_parts::{are_apart_in, doc_in, read_keys, read_path};
use stage_tree::{Row, Stage, Window, WindowFn};
use std::alloc::Global;

/// Paths that are set, each with its function.
type Outputs = Row<(Path, WindowFn)>;

const REQUIRED: [&[u8]; 1] = [b"output"];

const OPTIONAL: [&[u8]; 2] = [b"partitionBy", b"sortBy"];

fn read_partition(alloc: Global, value: Option<&Value>) -> Result<Expr, FormError>
    ensures { Reads node_of result (otherwise nothing expr_value (option_map (λ v. tree_of v.now) value.entry)) }
{
    match value {
        Some(value) => read_expr(alloc, value),
        None => Ok(Expr::Literal(Value::Null)),
    }
}

fn read_order(alloc: Global, value: Option<&Value>) -> Result<Row<(Path, bool)>, FormError>
    ensures { Reads (λ ks. ks) result (otherwise [] keys_value (option_map (λ v. tree_of v.now) value.entry)) }
{
    match value {
        Some(value) => match doc_in(value) {
            Some(doc) => read_keys(alloc, doc),
            None => Err(FormError::Form),
        },
        None => Ok(Row::new(alloc)),
    }
}

fn read_output(
    alloc: Global,
    sorted: bool,
    name: &[u8],
    value: &Value,
) -> Result<(Path, WindowFn), FormError>
    ensures { Reads (λ o. (o.0, window_of o.1)) result (output sorted (name.now, tree_of value.now)) }
{
    let path = read_path(alloc, name)?;
    let function = read_function(alloc, sorted, value)?;
    Ok((path, function))
}

fn read_each_output(alloc: Global, sorted: bool, doc: &Doc) -> Result<Outputs, FormError>
    ensures { Reads outputs_of result (each (output sorted) doc.now) }
{
    let mut outputs = Row::new(alloc);
    for i in 0..doc.len() {
        let name = doc.name(i);
        let value = doc.value(i);
        let output = read_output(alloc, sorted, name, value)?;
        outputs.add(output)?;
    }
    Ok(outputs)
}

fn read_outputs_in(alloc: Global, sorted: bool, doc: &Doc) -> Result<Outputs, FormError>
    ensures { Reads outputs_of result (outputs_in sorted doc.now) }
{
    let outputs = read_each_output(alloc, sorted, doc)?;
    if are_apart_in(alloc, outputs.items())? {
        Ok(outputs)
    } else {
        Err(FormError::Form)
    }
}

fn read_outputs(alloc: Global, sorted: bool, value: &Value) -> Result<Outputs, FormError>
    ensures { Reads outputs_of result (outputs sorted (tree_of value.now)) }
{
    match doc_in(value) {
        Some(doc) => read_outputs_in(alloc, sorted, doc),
        None => Err(FormError::Form),
    }
}

fn read_outputs_at(alloc: Global, sorted: bool, doc: &Doc) -> Result<Outputs, FormError>
    ensures { Reads outputs_of result (outputs_at sorted doc.now) }
{
    match doc.get(b"output") {
        Some(value) => read_outputs(alloc, sorted, value),
        None => Err(FormError::Form),
    }
}

fn read_window_in(alloc: Global, doc: &Doc) -> Result<Stage, FormError>
    ensures { Reads stage_of result (window_in doc.now) }
{
    let order = doc.get(b"sortBy");
    let partition = read_partition(alloc, doc.get(b"partitionBy"))?;
    let keys = read_order(alloc, order)?;
    let outputs = read_outputs_at(alloc, order.is_some(), doc)?;
    Ok(Stage::Window(Window {
        partition,
        keys,
        outputs,
    }))
}

/// The `$setWindowFields` that a value is (the manual, `$setWindowFields`).
pub fn read_window(alloc: Global, value: &Value) -> Result<Stage, FormError>
    ensures { Reads stage_of result (window_reading (tree_of value.now)) }
{
    match form_in(value, &REQUIRED, &OPTIONAL) {
        Some(doc) => read_window_in(alloc, doc),
        None => Err(FormError::Form),
    }
}
