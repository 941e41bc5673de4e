//! Queries and tests, decided from the left. The calls go round in a cycle, once for each query or test within another.

ghost use Rattle.std.specs.Prelude.{◌≡◌, map, Some, IfOk};
ghost use Rattle.std.specs.List.{list_any, flat_map};
ghost use Rattle.std.specs.Option.{option_map};
ghost use Rattle.bson_value.specs.View.{tree_of};
ghost use Rattle.bson_value.specs.Gives.{Gives};
ghost use Rattle.expr_tree.specs.QueryView.{query_of, test_of};
ghost use Rattle.expr_tree.specs.Holds.{document, holds, holding_of, each_holds, some_holds, some_relates, elements, some_element as the_some_element};
ghost use Rattle.query_eval.specs.Places.{seen_at, ends_at, candidates_at};
ghost use Rattle.query_eval.specs.Checks.{relation_of, passes as the_passes};
ghost use Rattle.query_eval.specs.Elements.{some_end_element, element_passes as the_element_passes};

use crate::checks::{Check, Relation, all_of, one_of, passes, some_found, some_passes};
use crate::expressions::counts;
use crate::places::{Place, element_at, found_at};
use bson_value::{Doc, EvalError, List, NoMemory, Value};
use doc_path::{Found, ends};
use expr_tree::{Query, Test};
use std::alloc::Global;

/// A test of an element of an array.
#[derive(Clone, Copy)]
pub(crate) enum ElementTest<'a> {
    /// It is a document of which the query holds.
    Query(&'a Query),
    /// Each test holds of it; it isn't opened where it is an array.
    Tests(&'a [Test]),
}

/// Whether the query holds of the document. Conjunctions and disjunctions are decided from the left, and what stands
/// behind the deciding part isn't evaluated; so a code comes exactly where an expression that is evaluated gives it.
/// `Memory` may come in place of any answer. No value of the document is copied to be compared.
#[cycle(matches)]
pub fn matches(alloc: Global, query: &Query, doc: &Doc) -> Result<bool, EvalError>
    ensures { Gives (λ b. b) result (holds (query_of query.now) (document doc.now)) }
{
    match query {
        Query::And(queries) => every_matches(alloc, queries.queries(), doc),
        Query::Or(queries) => some_matches(alloc, queries.queries(), doc),
        Query::Nor(queries) => Ok(!some_matches(alloc, queries.queries(), doc)?),
        Query::Test(path, test) => tested(alloc, test, Place::of(doc, path)),
        Query::Expr(expr) => counts(alloc, expr, doc),
    }
}

#[cycle(matches)]
fn every_matches(alloc: Global, queries: &[Query], doc: &Doc) -> Result<bool, EvalError>
    ensures { Gives (λ b. b) result (each_holds (holding_of (map query_of queries.now)) (document doc.now)) }
{
    for query in queries {
        if !matches(alloc, query, doc)? {
            return Ok(false);
        }
    }
    Ok(true)
}

#[cycle(matches)]
fn some_matches(alloc: Global, queries: &[Query], doc: &Doc) -> Result<bool, EvalError>
    ensures { Gives (λ b. b) result (some_holds (holding_of (map query_of queries.now)) (document doc.now)) }
{
    for query in queries {
        if matches(alloc, query, doc)? {
            return Ok(true);
        }
    }
    Ok(false)
}

fn some_candidate(alloc: Global, check: Check<'_>, place: Place<'_>) -> Result<bool, NoMemory>
    ensures { IfOk result (λ b. b ≡ list_any (the_passes check.entry) (candidates_at place.entry)) }
{
    let found = place.candidates(alloc)?;
    Ok(some_passes(check, &found))
}

fn some_related(
    alloc: Global,
    relation: Relation,
    operand: &Value,
    place: Place<'_>,
) -> Result<bool, NoMemory>
    ensures { IfOk result (λ b. b ≡ some_relates (relation_of relation) (tree_of operand.now) (candidates_at place.entry)) }
{
    some_candidate(alloc, Check::Relates(relation, operand), place)
}

fn some_end(alloc: Global, check: Check<'_>, place: Place<'_>) -> Result<bool, NoMemory>
    ensures { IfOk result (λ b. b ≡ list_any (the_passes check.entry) (ends_at place.entry)) }
{
    match place {
        Place::One(value) => Ok(passes(check, value)),
        Place::Array(value, _) => Ok(passes(check, Some(value))),
        Place::At(doc, path) => Ok(some_found(check, &ends(alloc, doc, path)?)),
    }
}

#[cycle(matches)]
fn tested<'a>(alloc: Global, test: &'a Test, place: Place<'a>) -> Result<bool, EvalError>
    ensures { Gives (λ b. b) result (holds (test_of test.now) (seen_at place.entry)) }
{
    match test {
        Test::Eq(value) => Ok(some_related(alloc, Relation::Equal, value, place)?),
        Test::Ne(value) => Ok(!some_related(alloc, Relation::Equal, value, place)?),
        Test::Gt(value) => Ok(some_related(alloc, Relation::Greater, value, place)?),
        Test::Gte(value) => Ok(some_related(alloc, Relation::GreaterOrEqual, value, place)?),
        Test::Lt(value) => Ok(some_related(alloc, Relation::Less, value, place)?),
        Test::Lte(value) => Ok(some_related(alloc, Relation::LessOrEqual, value, place)?),
        Test::Among(values) => Ok(one_of(values, &place.candidates(alloc)?)),
        Test::NotAmong(values) => Ok(!one_of(values, &place.candidates(alloc)?)),
        Test::Exists(true) => Ok(some_candidate(alloc, Check::IsThere, place)?),
        Test::Exists(false) => Ok(!some_candidate(alloc, Check::IsThere, place)?),
        Test::Kind(number) => Ok(some_candidate(alloc, Check::HasType(*number), place)?),
        Test::Size(size) => Ok(some_end(alloc, Check::HasSize(*size), place)?),
        Test::All(values) => Ok(all_of(values, &place.candidates(alloc)?)),
        Test::Elem(query) => some_element(alloc, ElementTest::Query(query.query()), place),
        Test::ElemTests(tests) => some_element(alloc, ElementTest::Tests(tests.tests()), place),
        Test::Not(tests) => Ok(!every_tested(alloc, tests.tests(), place)?),
    }
}

#[cycle(matches)]
fn every_tested<'a>(alloc: Global, tests: &'a [Test], place: Place<'a>) -> Result<bool, EvalError>
    ensures { Gives (λ b. b) result (each_holds (holding_of (map test_of tests.now)) (seen_at place.entry)) }
{
    for test in tests {
        if !tested(alloc, test, place)? {
            return Ok(false);
        }
    }
    Ok(true)
}

// Whether an element of an end that is an array passes.
#[cycle(matches)]
fn some_element<'a>(
    alloc: Global,
    test: ElementTest<'a>,
    place: Place<'a>,
) -> Result<bool, EvalError>
    ensures { Gives (λ b. b) result (the_some_element (the_element_passes test.entry) (flat_map elements (ends_at place.entry))) }
{
    match place {
        Place::One(value) => element_in(alloc, test, value),
        Place::Array(value, _) => element_in(alloc, test, Some(value)),
        Place::At(doc, path) => {
            let found = ends(alloc, doc, path)?;
            element_at_ends(alloc, test, &found)
        }
    }
}

#[cycle(matches)]
fn element_at_ends<'a>(
    alloc: Global,
    test: ElementTest<'a>,
    found: &Found<'a>,
) -> Result<bool, EvalError>
    ensures { Gives (λ b. b) result (the_some_element (the_element_passes test.entry) (flat_map elements found.now)) }
{
    element_found(alloc, test, found)
}

// The same, end after end.
#[cycle(matches)]
fn element_found<'a>(
    alloc: Global,
    test: ElementTest<'a>,
    found: &Found<'a>,
) -> Result<bool, EvalError>
    ensures { Gives (λ b. b) result (some_end_element (the_element_passes test.entry) found.now) }
{
    for i in 0..found.len() {
        if element_in(alloc, test, found_at(found, i))? {
            return Ok(true);
        }
    }
    Ok(false)
}

#[cycle(matches)]
fn element_in<'a>(
    alloc: Global,
    test: ElementTest<'a>,
    end: Option<&'a Value>,
) -> Result<bool, EvalError>
    ensures { Gives (λ b. b) result (the_some_element (the_element_passes test.entry) (elements (option_map (λ v. tree_of v.now) end.entry))) }
{
    match end {
        Some(value) => element_within(alloc, test, value),
        None => Ok(false),
    }
}

#[cycle(matches)]
fn element_within<'a>(
    alloc: Global,
    test: ElementTest<'a>,
    value: &'a Value,
) -> Result<bool, EvalError>
    ensures { Gives (λ b. b) result (the_some_element (the_element_passes test.entry) (elements (Some (tree_of value.now)))) }
{
    match value {
        Value::List(list) => element_of(alloc, test, list),
        _ => Ok(false),
    }
}

#[cycle(matches)]
fn element_of<'a>(alloc: Global, test: ElementTest<'a>, list: &'a List) -> Result<bool, EvalError>
    ensures { Gives (λ b. b) result (the_some_element (the_element_passes test.entry) list.now) }
{
    for i in 0..list.len() {
        if element_passes(alloc, test, element_at(list, i))? {
            return Ok(true);
        }
    }
    Ok(false)
}

#[cycle(matches)]
fn element_passes<'a>(
    alloc: Global,
    test: ElementTest<'a>,
    value: &'a Value,
) -> Result<bool, EvalError>
    ensures { Gives (λ b. b) result (the_element_passes test.entry (tree_of value.now)) }
{
    match test {
        ElementTest::Query(query) => match value {
            Value::Doc(doc) => matches(alloc, query, doc),
            _ => Ok(false),
        },
        ElementTest::Tests(tests) => every_tested(alloc, tests, Place::One(Some(value))),
    }
}
