//! Reading: one function for each place where a value may stand. Each calls itself once for each level of nesting.

ghost use Rattle.std.specs.Prelude.{◌≡◌, ◌<◌, [], IfOk, Err, Some};
ghost use Rattle.std.specs.Option.{option_map};
ghost use Rattle.bson_value.specs.Tree.{pairs_of, pairs_size};
ghost use Rattle.bson_value.specs.View.{tree_of};
ghost use Rattle.expr_tree.specs.Node.{Node};
ghost use Rattle.expr_tree.specs.Spells.{Spells};
ghost use Rattle.expr_tree.specs.View.{node_of};
ghost use Rattle.expr_tree.specs.Forms.{is_field_name, is_variable_name};
ghost use Rattle.expr_read.specs.Reading.{reading, doc_reading, named_from, all_from, at_name, at_place, by_row, by_shape, shape_reading, operands_from, condition_from, listed_condition, named_condition, branch_in, branch_reading, branches_from, branches_reading, branches_at, default_in, cases_in, variables_in, variables_over, mapped_in, filtered_in, reduced_in, date_reading, moved_in, between_in, cut_in, fields_seen, items_seen, seen_of};
ghost use Rattle.expr_read.specs.Reads.{Reads};
ghost use Rattle.expr_read.specs.Rows.{row_of, shape_of};
ghost use Rattle.expr_read.specs.Scopes.{names_in};
ghost use Rattle.expr_read.specs.Seen.{items_in};

use crate::errors::FormError;
use crate::made::{
    Read, array_of, bare, between_of, branch_of, condition_of, cut_of, document_of, filter_of,
    given, let_of, literal, map_of, moved_of, operator_of, part_of, reduce_of, switch_of,
};
use crate::parts::{
    count, count_items, date_of, doc_in, field_name, field_of, is_one, item_name, item_of, list_in,
    operator_in, unit_in, variable_name,
};
use crate::row::{Row, Shape};
use crate::scope::Scope;
use crate::texts::read_text;
use bson_value::{Doc, List, Value};
use expr_tree::{Bindings, Branches, Expr, Exprs, NamedExprs};
use std::alloc::Global;

/// The expression that the value is, where these names are bound.
#[cycle(read)]
pub fn read_value(alloc: Global, value: &Value, scope: &Scope<'_>) -> Read
    ensures { Reads node_of result (reading (tree_of value.now) (names_in scope.now)) }
{
    match value {
        Value::Doc(doc) => read_doc(alloc, doc, &*scope),
        Value::List(list) => array_of(read_items(alloc, list, &*scope)),
        Value::Text(text) => read_text(alloc, text, &*scope),
        Value::Least => literal(alloc, value),
        Value::Null => literal(alloc, value),
        Value::Int(_) => literal(alloc, value),
        Value::Long(_) => literal(alloc, value),
        Value::Bin(_, _) => literal(alloc, value),
        Value::Id(_) => literal(alloc, value),
        Value::Flag(_) => literal(alloc, value),
        Value::Date(_) => literal(alloc, value),
        Value::Stamp(_) => literal(alloc, value),
        Value::Greatest => literal(alloc, value),
    }
}

#[cycle(read)]
fn read_doc(alloc: Global, doc: &Doc, scope: &Scope<'_>) -> Read
    ensures { Reads node_of result (doc_reading (fields_seen doc.now) (names_in scope.now)) }
{
    match operator_in(doc) {
        None => document_of(read_fields(alloc, doc, &*scope)),
        Some(None) => Err(FormError::Form),
        Some(Some(row)) => read_row(alloc, row, doc.value(0), &*scope),
    }
}

// The expressions of an array's items.
#[cycle(read)]
fn read_items(alloc: Global, list: &List, scope: &Scope<'_>) -> Result<Exprs, FormError>
    ensures { Reads (λ es. es) result (all_from [] (items_seen list.now) (names_in scope.now)) }
{
    let mut exprs = Exprs::new(alloc);
    for i in 0..list.len() {
        let expr = read_value(alloc, list.value(i), &*scope)?;
        exprs.add(expr)?;
    }
    Ok(exprs)
}

// The fields of a document that is made.
#[cycle(read)]
fn read_fields(alloc: Global, doc: &Doc, scope: &Scope<'_>) -> Result<NamedExprs, FormError>
    ensures { Reads (λ fs. fs) result (named_from is_field_name ([], []) (fields_seen doc.now) (names_in scope.now)) }
{
    let mut fields = NamedExprs::new(alloc);
    for i in 0..doc.len() {
        let bytes = doc.name(i);
        let value = doc.value(i);
        let name = field_name(alloc, bytes)?;
        let expr = read_value(alloc, value, &*scope)?;
        fields.add(name, expr)?;
    }
    Ok(fields)
}

// The variables of a `$let`.
#[cycle(read)]
fn read_bindings(alloc: Global, doc: &Doc, scope: &Scope<'_>) -> Result<Bindings, FormError>
    ensures { Reads (λ bs. bs) result (named_from is_variable_name ([], []) (fields_seen doc.now) (names_in scope.now)) }
{
    let mut bindings = Bindings::new(alloc);
    for i in 0..doc.len() {
        let bytes = doc.name(i);
        let value = doc.value(i);
        let name = variable_name(alloc, bytes)?;
        let expr = read_value(alloc, value, &*scope)?;
        bindings.add(name, expr)?;
    }
    Ok(bindings)
}

// The expression at that name.
#[cycle(read)]
fn read_name(alloc: Global, doc: &Doc, name: &[u8], scope: &Scope<'_>) -> Read
    ensures { Reads node_of result (at_name name.now (fields_seen doc.now) (names_in scope.now)) }
{
    match field_of(doc, name) {
        Some(value) => read_value(alloc, value, &*scope),
        None => Err(FormError::Form),
    }
}

// The expression at that place.
#[cycle(read)]
fn read_place(alloc: Global, list: &List, i: usize, scope: &Scope<'_>) -> Read
    ensures { Reads node_of result (at_place i (items_seen list.now) (names_in scope.now)) }
{
    match item_of(list, i) {
        Some(value) => read_value(alloc, value, &*scope),
        None => Err(FormError::Form),
    }
}

// What an operator is over the value.
#[cycle(read)]
fn read_row(alloc: Global, row: Row, value: &Value, scope: &Scope<'_>) -> Read
    ensures { Reads node_of result (by_row (row_of row) (seen_of (tree_of value.now)) (names_in scope.now)) }
{
    match row {
        Row::AsItIs => literal(alloc, value),
        Row::Takes(kind, least, most) => {
            operator_of(
                kind,
                least,
                most,
                read_operands(alloc, most, value, &*scope),
            )
        }
        Row::Condition => read_condition(alloc, value, &*scope),
        Row::PartOf(part) => part_of(alloc, part, read_date(alloc, value, &*scope)),
        Row::Has(shape) => read_over(alloc, shape, value, &*scope),
    }
}

// Operands: those of an array, or a bare one.
#[cycle(read)]
fn read_operands(
    alloc: Global,
    most: Option<usize>,
    value: &Value,
    scope: &Scope<'_>,
) -> Result<Exprs, FormError>
    ensures { Reads (λ es. es) result (operands_from most (items_in (seen_of (tree_of value.now))) (seen_of (tree_of value.now)) (names_in scope.now)) }
{
    match list_in(value) {
        Some(list) => read_items(alloc, list, &*scope),
        None => {
            if is_one(most) {
                bare(alloc, read_value(alloc, value, &*scope))
            } else {
                Err(FormError::Form)
            }
        }
    }
}

// The operand of a part of a date.
#[cycle(read)]
fn read_date(alloc: Global, value: &Value, scope: &Scope<'_>) -> Read
    ensures { Reads node_of result (date_reading (seen_of (tree_of value.now)) (names_in scope.now)) }
{
    match date_of(value) {
        Some(date) => read_value(alloc, date, &*scope),
        None => Err(FormError::Form),
    }
}

#[cycle(read)]
fn read_condition(alloc: Global, value: &Value, scope: &Scope<'_>) -> Read
    ensures { Reads node_of result (condition_from (items_in (seen_of (tree_of value.now))) (seen_of (tree_of value.now)) (names_in scope.now)) }
{
    match list_in(value) {
        Some(list) => read_listed_condition(alloc, list, &*scope),
        None => match doc_in(value) {
            Some(doc) => read_named_condition(alloc, doc, &*scope),
            None => Err(FormError::Form),
        },
    }
}

#[cycle(read)]
fn read_listed_condition(alloc: Global, list: &List, scope: &Scope<'_>) -> Read
    ensures { Reads node_of result (listed_condition (items_seen list.now) (names_in scope.now)) }
{
    if count_items(list) != 3 {
        return Err(FormError::Form);
    }
    let cond = read_place(alloc, list, 0, &*scope);
    let yes = read_place(alloc, list, 1, &*scope);
    let no = read_place(alloc, list, 2, &*scope);
    condition_of(alloc, cond, yes, no)
}

#[cycle(read)]
fn read_named_condition(alloc: Global, doc: &Doc, scope: &Scope<'_>) -> Read
    ensures { Reads node_of result (named_condition (fields_seen doc.now) (names_in scope.now)) }
{
    let operands = count(doc);
    if operands != 3 {
        return Err(FormError::Form);
    }
    let cond = read_name(alloc, doc, b"if", &*scope);
    let yes = read_name(alloc, doc, b"then", &*scope);
    let no = read_name(alloc, doc, b"else", &*scope);
    condition_of(alloc, cond, yes, no)
}

// What an operator is over the fields of a document.
#[cycle(read)]
fn read_over(alloc: Global, shape: Shape, value: &Value, scope: &Scope<'_>) -> Read
    ensures { Reads node_of result (shape_reading (shape_of shape) (seen_of (tree_of value.now)) (names_in scope.now)) }
{
    match doc_in(value) {
        Some(doc) => read_shape(alloc, shape, doc, &*scope),
        None => Err(FormError::Form),
    }
}

#[cycle(read)]
fn read_shape(alloc: Global, shape: Shape, doc: &Doc, scope: &Scope<'_>) -> Read
    ensures { Reads node_of result (by_shape (shape_of shape) (fields_seen doc.now) (names_in scope.now)) }
{
    match shape {
        Shape::Cases => read_cases(alloc, doc, &*scope),
        Shape::Variables => read_let(alloc, doc, &*scope),
        Shape::Mapped => read_mapped(alloc, doc, &*scope),
        Shape::Filtered => read_filtered(alloc, doc, &*scope),
        Shape::Reduced => read_reduced(alloc, doc, &*scope),
        Shape::Moved(back) => read_moved(alloc, back, doc, &*scope),
        Shape::Between => read_between(alloc, doc, &*scope),
        Shape::Cut => read_cut(alloc, doc, &*scope),
    }
}

#[cycle(read)]
fn read_branch_in(alloc: Global, doc: &Doc, scope: &Scope<'_>) -> Result<(Expr, Expr), FormError>
    ensures { Reads (λ p. (node_of p.0, node_of p.1)) result (branch_in (fields_seen doc.now) (names_in scope.now)) }
{
    if count(doc) != 2 {
        return Err(FormError::Form);
    }
    let case = read_name(alloc, doc, b"case", &*scope);
    let value = read_name(alloc, doc, b"then", &*scope);
    branch_of(case, value)
}

#[cycle(read)]
fn read_branch(alloc: Global, value: &Value, scope: &Scope<'_>) -> Result<(Expr, Expr), FormError>
    ensures { Reads (λ p. (node_of p.0, node_of p.1)) result (branch_reading (seen_of (tree_of value.now)) (names_in scope.now)) }
{
    match doc_in(value) {
        Some(doc) => read_branch_in(alloc, doc, &*scope),
        None => Err(FormError::Form),
    }
}

#[cycle(read)]
fn read_branches(alloc: Global, list: &List, scope: &Scope<'_>) -> Result<Branches, FormError>
    ensures { Reads (λ bs. bs) result (branches_from [] (items_seen list.now) (names_in scope.now)) }
{
    let mut branches = Branches::new(alloc);
    for i in 0..list.len() {
        let (case, value) = read_branch(alloc, list.value(i), &*scope)?;
        branches.add(case, value)?;
    }
    Ok(branches)
}

#[cycle(read)]
fn read_all_branches(alloc: Global, value: &Value, scope: &Scope<'_>) -> Result<Branches, FormError>
    ensures { Reads (λ bs. bs) result (branches_reading (seen_of (tree_of value.now)) (names_in scope.now)) }
{
    match list_in(value) {
        Some(list) => {
            if count_items(list) == 0 {
                Err(FormError::Form)
            } else {
                read_branches(alloc, list, &*scope)
            }
        }
        None => Err(FormError::Form),
    }
}

#[cycle(read)]
fn read_branches_at(alloc: Global, doc: &Doc, scope: &Scope<'_>) -> Result<Branches, FormError>
    ensures { Reads (λ bs. bs) result (branches_at (fields_seen doc.now) (names_in scope.now)) }
{
    match field_of(doc, b"branches") {
        Some(value) => read_all_branches(alloc, value, &*scope),
        None => Err(FormError::Form),
    }
}

#[cycle(read)]
fn read_default(alloc: Global, doc: &Doc, scope: &Scope<'_>) -> Result<Option<Expr>, FormError>
    ensures { Reads (option_map node_of) result (default_in (fields_seen doc.now) (names_in scope.now)) }
{
    let count = count(doc);
    if count == 1 {
        return Ok(None);
    }
    if count != 2 {
        return Err(FormError::Form);
    }
    given(read_name(alloc, doc, b"default", &*scope))
}

#[cycle(read)]
fn read_cases(alloc: Global, doc: &Doc, scope: &Scope<'_>) -> Read
    ensures { Reads node_of result (cases_in (fields_seen doc.now) (names_in scope.now)) }
{
    let branches = read_branches_at(alloc, doc, &*scope);
    let default = read_default(alloc, doc, &*scope);
    switch_of(alloc, branches, default)
}

#[cycle(read)]
fn read_variables(alloc: Global, vars: &Doc, doc: &Doc, scope: &Scope<'_>) -> Read
    requires { pairs_size (pairs_of vars.now) < pairs_size (pairs_of doc.now) }
    ensures { Reads node_of result (variables_over (fields_seen vars.now) (fields_seen doc.now) (names_in scope.now)) }
{
    let bindings = read_bindings(alloc, vars, &*scope);
    let inner = Scope::Fields(&*scope, vars);
    let body = read_name(alloc, doc, b"in", &inner);
    let_of(alloc, bindings, body)
}

#[cycle(read)]
fn read_let(alloc: Global, doc: &Doc, scope: &Scope<'_>) -> Read
    ensures { Reads node_of result (variables_in (fields_seen doc.now) (names_in scope.now)) }
{
    if count(doc) != 2 {
        return Err(FormError::Form);
    }
    match field_of(doc, b"vars") {
        Some(vars) => match doc_in(vars) {
            Some(vars) => read_variables(alloc, vars, doc, &*scope),
            None => Err(FormError::Form),
        },
        None => Err(FormError::Form),
    }
}

#[cycle(read)]
fn read_mapped(alloc: Global, doc: &Doc, scope: &Scope<'_>) -> Read
    ensures { Reads node_of result (mapped_in (fields_seen doc.now) (names_in scope.now)) }
{
    match item_name(doc) {
        Some(name) => {
            let inner = Scope::Name(&*scope, name);
            let input = read_name(alloc, doc, b"input", &*scope);
            let body = read_name(alloc, doc, b"in", &inner);
            map_of(alloc, name, input, body)
        }
        None => Err(FormError::Form),
    }
}

#[cycle(read)]
fn read_filtered(alloc: Global, doc: &Doc, scope: &Scope<'_>) -> Read
    ensures { Reads node_of result (filtered_in (fields_seen doc.now) (names_in scope.now)) }
{
    match item_name(doc) {
        Some(name) => {
            let inner = Scope::Name(&*scope, name);
            let input = read_name(alloc, doc, b"input", &*scope);
            let body = read_name(alloc, doc, b"cond", &inner);
            filter_of(alloc, name, input, body)
        }
        None => Err(FormError::Form),
    }
}

#[cycle(read)]
fn read_reduced(alloc: Global, doc: &Doc, scope: &Scope<'_>) -> Read
    ensures { Reads node_of result (reduced_in (fields_seen doc.now) (names_in scope.now)) }
{
    if count(doc) != 3 {
        return Err(FormError::Form);
    }
    let this = Scope::Name(&*scope, b"this");
    let inner = Scope::Name(&this, b"value");
    let input = read_name(alloc, doc, b"input", &*scope);
    let first = read_name(alloc, doc, b"initialValue", &*scope);
    let body = read_name(alloc, doc, b"in", &inner);
    reduce_of(alloc, input, first, body)
}

#[cycle(read)]
fn read_moved(alloc: Global, back: bool, doc: &Doc, scope: &Scope<'_>) -> Read
    ensures { Reads node_of result (moved_in back (fields_seen doc.now) (names_in scope.now)) }
{
    if count(doc) != 3 {
        return Err(FormError::Form);
    }
    match unit_in(doc) {
        Some(unit) => {
            let start = read_name(alloc, doc, b"startDate", &*scope);
            let amount = read_name(alloc, doc, b"amount", &*scope);
            moved_of(alloc, unit, back, start, amount)
        }
        None => Err(FormError::Form),
    }
}

#[cycle(read)]
fn read_between(alloc: Global, doc: &Doc, scope: &Scope<'_>) -> Read
    ensures { Reads node_of result (between_in (fields_seen doc.now) (names_in scope.now)) }
{
    if count(doc) != 3 {
        return Err(FormError::Form);
    }
    match unit_in(doc) {
        Some(unit) => {
            let start = read_name(alloc, doc, b"startDate", &*scope);
            let end = read_name(alloc, doc, b"endDate", &*scope);
            between_of(alloc, unit, start, end)
        }
        None => Err(FormError::Form),
    }
}

#[cycle(read)]
fn read_cut(alloc: Global, doc: &Doc, scope: &Scope<'_>) -> Read
    ensures { Reads node_of result (cut_in (fields_seen doc.now) (names_in scope.now)) }
{
    if count(doc) != 2 {
        return Err(FormError::Form);
    }
    match unit_in(doc) {
        Some(unit) => cut_of(alloc, unit, read_name(alloc, doc, b"date", &*scope)),
        None => Err(FormError::Form),
    }
}

/// The expression that the value spells (the manual, Aggregation Expressions). It is refused as `Form` exactly where the
/// value spells none.
pub fn read_expr(alloc: Global, value: &Value) -> Read
    ensures found { IfOk result (λ e. Spells [] (tree_of value.now) (node_of e)) }
    ensures refused { result ≡ Err FormError.Form → (n : Node) → ¬ Spells [] (tree_of value.now) n }
    ensures read { Reads node_of result (reading (tree_of value.now) []) }
{
    read_value(alloc, value, &Scope::Empty)
}
