//! Reading: one function for each place where a document or a value may stand. Each calls itself once for each level of
//! nesting.

ghost use Rattle.std.specs.Prelude.{◌≡◌, [], IfOk, Err, true, false};
ghost use Rattle.bson_value.specs.Tree.{pairs_of, trees_of};
ghost use Rattle.bson_value.specs.View.{tree_of};
ghost use Rattle.expr_read.specs.Reads.{Reads};
ghost use Rattle.expr_tree.specs.QueryNode.{QueryNode};
ghost use Rattle.expr_tree.specs.QueryView.{query_of, test_of};
ghost use Rattle.query_read.specs.Reading.{at_path, at_value, denied_in, doc_reading, element_in, element_reading, itself, part_reading, parts_from, queries_from, queries_in, query_in, query_reading, test_reading, tests_from, tests_in};
ghost use Rattle.query_read.specs.Written.{SpellsQuery};

use crate::operands::{bound_in, flag_in, size_in, type_in, values_in};
use crate::parts::{
    begins_with_test, element_as, element_tests, equal_part, expr_part, has_fields, has_items,
    has_operator, joins_part, not_all, path_in, query_as,
};
use crate::words::{Operator, Word, operator_named, word_named};
use bson_value::{Doc, List, Path, Value};
use expr_read::FormError;
use expr_tree::{Queries, Query, Test, Tests};
use std::alloc::Global;

#[cycle(read)]
fn read_doc(alloc: Global, doc: &Doc, exprs: bool) -> Result<Query, FormError>
    ensures { Reads query_of result (doc_reading exprs (pairs_of doc.now)) }
{
    query_as(read_parts(alloc, doc, exprs))
}

#[cycle(read)]
fn read_parts(alloc: Global, doc: &Doc, exprs: bool) -> Result<Queries, FormError>
    ensures { Reads (λ q. q) result (parts_from exprs [] (pairs_of doc.now)) }
{
    let mut parts = Queries::new(alloc);
    for i in 0..doc.len() {
        let name = doc.name(i);
        let value = doc.value(i);
        parts = read_part(alloc, parts, name, value, exprs)?;
    }
    Ok(parts)
}

// The parts, with those of a field behind them.
#[cycle(read)]
fn read_part(
    alloc: Global,
    parts: Queries,
    name: &[u8],
    value: &Value,
    exprs: bool,
) -> Result<Queries, FormError>
    ensures { Reads (λ q. q) result (part_reading exprs parts name.now (tree_of value.now)) }
{
    match word_named(name) {
        Some(Word::Joins(connective)) => {
            joins_part(parts, connective, read_array(alloc, value, exprs))
        }
        Some(Word::Counts) => expr_part(alloc, parts, value, exprs),
        None => match path_in(alloc, name) {
            Ok(path) => read_value(alloc, parts, path, value),
            Err(e) => Err(e),
        },
    }
}

// The parts, with those of a path behind them.
#[cycle(read)]
fn read_value(
    alloc: Global,
    parts: Queries,
    path: Path,
    value: &Value,
) -> Result<Queries, FormError>
    ensures { Reads (λ q. q) result (at_value path parts (tree_of value.now) (λ put qs. tests_in put qs (tree_of value.now))) }
{
    match value {
        Value::Doc(doc) => {
            if has_operator(doc) {
                read_operators(alloc, parts, &path, doc)
            } else {
                equal_part(alloc, parts, path, value)
            }
        }
        Value::Least | Value::Null | Value::Greatest => equal_part(alloc, parts, path, value),
        Value::Int(_) | Value::Long(_) => equal_part(alloc, parts, path, value),
        Value::Date(_) | Value::Stamp(_) => equal_part(alloc, parts, path, value),
        Value::Text(_) | Value::List(_) => equal_part(alloc, parts, path, value),
        Value::Bin(_, _) | Value::Id(_) => equal_part(alloc, parts, path, value),
        Value::Flag(_) => equal_part(alloc, parts, path, value),
    }
}

// The parts in front, with a test of the path for each operator behind them.
#[cycle(read)]
fn read_operators(
    alloc: Global,
    front: Queries,
    path: &Path,
    doc: &Doc,
) -> Result<Queries, FormError>
    ensures { Reads (λ q. q) result (tests_from (at_path path.now) front (pairs_of doc.now)) }
{
    let mut parts = front;
    for i in 0..doc.len() {
        let name = doc.name(i);
        let value = doc.value(i);
        let test = read_test(alloc, name, value)?;
        let steps = path.copy(alloc)?;
        parts.add(Query::Test(steps, test))?;
    }
    Ok(parts)
}

// An array of queries, which isn't empty.
#[cycle(read)]
fn read_array(alloc: Global, value: &Value, exprs: bool) -> Result<Queries, FormError>
    ensures { Reads (λ q. q) result (queries_in exprs (tree_of value.now)) }
{
    match value {
        Value::List(list) => {
            if has_items(list) {
                read_queries(alloc, list, exprs)
            } else {
                Err(FormError::Form)
            }
        }
        Value::Least | Value::Null | Value::Greatest => Err(FormError::Form),
        Value::Int(_) | Value::Long(_) | Value::Date(_) | Value::Stamp(_) => Err(FormError::Form),
        Value::Text(_) | Value::Doc(_) | Value::Bin(_, _) => Err(FormError::Form),
        Value::Id(_) | Value::Flag(_) => Err(FormError::Form),
    }
}

#[cycle(read)]
fn read_queries(alloc: Global, list: &List, exprs: bool) -> Result<Queries, FormError>
    ensures { Reads (λ q. q) result (queries_from exprs [] (trees_of list.now)) }
{
    let mut queries = Queries::new(alloc);
    for i in 0..list.len() {
        let query = read_item(alloc, list.value(i), exprs)?;
        queries.add(query)?;
    }
    Ok(queries)
}

#[cycle(read)]
fn read_item(alloc: Global, value: &Value, exprs: bool) -> Result<Query, FormError>
    ensures { Reads query_of result (query_in exprs (tree_of value.now)) }
{
    match value {
        Value::Doc(doc) => read_doc(alloc, doc, exprs),
        Value::Least | Value::Null | Value::Greatest => Err(FormError::Form),
        Value::Int(_) | Value::Long(_) | Value::Date(_) | Value::Stamp(_) => Err(FormError::Form),
        Value::Text(_) | Value::List(_) | Value::Bin(_, _) => Err(FormError::Form),
        Value::Id(_) | Value::Flag(_) => Err(FormError::Form),
    }
}

// The test that the operator of that name is with the operand.
#[cycle(read)]
fn read_test(alloc: Global, name: &[u8], value: &Value) -> Result<Test, FormError>
    ensures { Reads test_of result (test_reading name.now (tree_of value.now)) }
{
    match operator_named(name) {
        None => Err(FormError::Form),
        Some(Operator::Eq) => Ok(Test::Eq(value.copy(alloc)?)),
        Some(Operator::Ne) => Ok(Test::Ne(value.copy(alloc)?)),
        Some(Operator::Gt) => Ok(Test::Gt(bound_in(alloc, value)?)),
        Some(Operator::Gte) => Ok(Test::Gte(bound_in(alloc, value)?)),
        Some(Operator::Lt) => Ok(Test::Lt(bound_in(alloc, value)?)),
        Some(Operator::Lte) => Ok(Test::Lte(bound_in(alloc, value)?)),
        Some(Operator::In) => Ok(Test::Among(values_in(alloc, value)?)),
        Some(Operator::Nin) => Ok(Test::NotAmong(values_in(alloc, value)?)),
        Some(Operator::Exists) => Ok(Test::Exists(flag_in(value)?)),
        Some(Operator::Type) => Ok(Test::Kind(type_in(value)?)),
        Some(Operator::Size) => Ok(Test::Size(size_in(value)?)),
        Some(Operator::All) => Ok(Test::All(values_in(alloc, value)?)),
        Some(Operator::ElemMatch) => read_element(alloc, value),
        Some(Operator::Not) => read_not(alloc, value),
    }
}

// `$elemMatch`: tests where the operand begins with one, else a query.
#[cycle(read)]
fn read_element(alloc: Global, value: &Value) -> Result<Test, FormError>
    ensures { Reads test_of result (element_in (tree_of value.now)) }
{
    match value {
        Value::Doc(doc) => read_elements(alloc, doc),
        Value::Least | Value::Null | Value::Greatest => Err(FormError::Form),
        Value::Int(_) | Value::Long(_) | Value::Date(_) | Value::Stamp(_) => Err(FormError::Form),
        Value::Text(_) | Value::List(_) | Value::Bin(_, _) => Err(FormError::Form),
        Value::Id(_) | Value::Flag(_) => Err(FormError::Form),
    }
}

#[cycle(read)]
fn read_elements(alloc: Global, doc: &Doc) -> Result<Test, FormError>
    ensures { Reads test_of result (element_reading (pairs_of doc.now)) }
{
    if begins_with_test(doc) {
        element_tests(read_tests(alloc, doc))
    } else {
        element_as(alloc, read_doc(alloc, doc, false))
    }
}

// `$not`: a document of operators, which isn't empty.
#[cycle(read)]
fn read_not(alloc: Global, value: &Value) -> Result<Test, FormError>
    ensures { Reads test_of result (denied_in (tree_of value.now)) }
{
    match value {
        Value::Doc(doc) => {
            if has_fields(doc) {
                not_all(read_tests(alloc, doc))
            } else {
                Err(FormError::Form)
            }
        }
        Value::Least | Value::Null | Value::Greatest => Err(FormError::Form),
        Value::Int(_) | Value::Long(_) | Value::Date(_) | Value::Stamp(_) => Err(FormError::Form),
        Value::Text(_) | Value::List(_) | Value::Bin(_, _) => Err(FormError::Form),
        Value::Id(_) | Value::Flag(_) => Err(FormError::Form),
    }
}

#[cycle(read)]
fn read_tests(alloc: Global, doc: &Doc) -> Result<Tests, FormError>
    ensures { Reads (λ t. t) result (tests_from itself [] (pairs_of doc.now)) }
{
    let mut tests = Tests::new(alloc);
    for i in 0..doc.len() {
        let name = doc.name(i);
        let value = doc.value(i);
        let test = read_test(alloc, name, value)?;
        tests.add(test)?;
    }
    Ok(tests)
}

/// The query that the document spells (the manual, Query and Projection Operators). It is refused as `Form` exactly where
/// the document spells none.
pub fn read_query(alloc: Global, doc: &Doc) -> Result<Query, FormError>
    ensures found { IfOk result (λ q. SpellsQuery true doc.now (query_of q)) }
    ensures refused { result ≡ Err FormError.Form → (q : QueryNode) → ¬ SpellsQuery true doc.now q }
    ensures read { Reads query_of result (query_reading true doc.now) }
{
    read_doc(alloc, doc, true)
}

/// The query without `$expr` that the document spells, as one that restricts `$graphLookup`. It is refused as `Form`
/// exactly where the document spells none.
pub fn read_restriction(alloc: Global, doc: &Doc) -> Result<Query, FormError>
    ensures found { IfOk result (λ q. SpellsQuery false doc.now (query_of q)) }
    ensures refused { result ≡ Err FormError.Form → (q : QueryNode) → ¬ SpellsQuery false doc.now q }
    ensures read { Reads query_of result (query_reading false doc.now) }
{
    read_doc(alloc, doc, false)
}
