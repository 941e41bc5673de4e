//! Parts of queries, made of what was read.

ghost use Rattle.std.specs.Prelude.{◌≡◌, ◌++◌, ◌∷◌, [], List as Seq, Option, Some};
ghost use Rattle.bson_value.specs.Tree.{pairs_of, trees_of};
ghost use Rattle.bson_value.specs.View.{tree_of};
ghost use Rattle.expr_read.specs.Reading.{path_in};
ghost use Rattle.expr_read.specs.Reads.{Reads};
ghost use Rattle.expr_tree.specs.Forms.{has_sign};
ghost use Rattle.expr_tree.specs.QueryNode.{QueryNode, query, queries_of, element_tests, not_all};
ghost use Rattle.expr_tree.specs.QueryView.{query_of, test_of};
ghost use Rattle.query_read.specs.Reading.{at_path, begins_with_test, element_as, expr_part, has_pairs, has_trees, head_of, joined, joins_part, query_as, tests_as};
ghost use Rattle.query_read.specs.Written.{equals, has_operator};

use crate::words::{Connective, operator_named};
use bson_value::{Doc, List, Path, PathError, Value};
use expr_read::{FormError, read_expr};
use expr_tree::{Queries, Query, SubQuery, Test, Tests};
use std::alloc::Global;

/// The path of that text. It is refused as `Form` exactly where there is none.
pub fn path_in(alloc: Global, text: &[u8]) -> Result<Path, FormError>
    ensures { Reads (λ p. p) result (path_in text.now) }
{
    match Path::read(alloc, text) {
        Ok(path) => Ok(path),
        Err(PathError::Bad) => Err(FormError::Form),
        Err(PathError::Memory) => Err(FormError::Memory),
    }
}

fn has_sign(name: &[u8]) -> bool
    ensures { result ≡ has_sign name.now }
{
    match name {
        [b'$', ..] => true,
        _ => false,
    }
}

/// The document isn't empty.
#[tactic(auto, using(crate::proofs::Fields::some_fields))]
pub fn has_fields(doc: &Doc) -> bool
    ensures { result ≡ has_pairs (pairs_of doc.now) }
{
    if doc.len() == 0 { false } else { true }
}

/// The array isn't empty.
#[tactic(auto, using(crate::proofs::Fields::some_items))]
pub fn has_items(list: &List) -> bool
    ensures { result ≡ has_trees (trees_of list.now) }
{
    if list.len() == 0 { false } else { true }
}

/// The document's first name begins with a dollar sign.
pub fn has_operator(doc: &Doc) -> bool
    ensures { result ≡ has_operator (pairs_of doc.now) }
{
    doc.len() != 0 && has_sign(doc.name(0))
}

/// The document's first name is that of a test.
pub fn begins_with_test(doc: &Doc) -> bool
    ensures { result ≡ begins_with_test (pairs_of doc.now) }
{
    doc.len() != 0 && operator_named(doc.name(0)).is_some()
}

// The conjunction of the parts, where they are not one alone.
fn joined(parts: Queries) -> Query
    ensures { query_of result ≡ joined parts }
{
    if parts.len() != 1 {
        return Query::And(parts);
    }
    match parts.into_queries().next() {
        Some(query) => query,
        None => unreachable!(),
    }
}

/// The query that a document with these parts is.
pub fn query_as(parts: Result<Queries, FormError>) -> Result<Query, FormError>
    ensures { (o : Option (Seq QueryNode)) → Reads (λ q. q) parts o → Reads query_of result (query_as o) }
{
    Ok(joined(parts?))
}

fn join(connective: Connective, queries: Queries) -> Query
    ensures { query_of result ≡ query (head_of connective) (queries_of queries) }
{
    match connective {
        Connective::And => Query::And(queries),
        Connective::Or => Query::Or(queries),
        Connective::Nor => Query::Nor(queries),
    }
}

/// The parts, with joined queries behind them.
pub fn joins_part(
    parts: Queries,
    connective: Connective,
    queries: Result<Queries, FormError>,
) -> Result<Queries, FormError>
    ensures { (o : Option (Seq QueryNode)) → Reads (λ q. q) queries o → Reads (λ q. q) result (joins_part connective parts o) }
{
    let mut parts = parts;
    parts.add(join(connective, queries?))?;
    Ok(parts)
}

/// The parts, with an expression behind them, where the flag says that it may stand there.
pub fn expr_part(
    alloc: Global,
    parts: Queries,
    value: &Value,
    exprs: bool,
) -> Result<Queries, FormError>
    ensures { Reads (λ q. q) result (expr_part exprs parts (tree_of value.now)) }
{
    if !exprs {
        return Err(FormError::Form);
    }
    let mut parts = parts;
    let expr = read_expr(alloc, value)?;
    parts.add(Query::Expr(expr))?;
    Ok(parts)
}

/// The parts, with an equal value at the path behind them.
pub fn equal_part(
    alloc: Global,
    parts: Queries,
    path: Path,
    value: &Value,
) -> Result<Queries, FormError>
    ensures { Reads (λ q. q) result (Some (parts ++ at_path path (equals (tree_of value.now)) ∷ [])) }
{
    let mut parts = parts;
    let value = value.copy(alloc)?;
    parts.add(Query::Test(path, Test::Eq(value)))?;
    Ok(parts)
}

/// `$elemMatch` with a query.
pub fn element_as(alloc: Global, query: Result<Query, FormError>) -> Result<Test, FormError>
    ensures { (o : Option QueryNode) → Reads query_of query o → Reads test_of result (element_as o) }
{
    Ok(Test::Elem(SubQuery::new(alloc, query?)?))
}

/// `$elemMatch` with tests.
pub fn element_tests(tests: Result<Tests, FormError>) -> Result<Test, FormError>
    ensures { (o : Option (Seq QueryNode)) → Reads (λ t. t) tests o → Reads test_of result (tests_as element_tests o) }
{
    Ok(Test::ElemTests(tests?))
}

/// `$not`
pub fn not_all(tests: Result<Tests, FormError>) -> Result<Test, FormError>
    ensures { (o : Option (Seq QueryNode)) → Reads (λ t. t) tests o → Reads test_of result (tests_as not_all o) }
{
    Ok(Test::Not(tests?))
}
