//! Forms of queries: `{a: {$gt: 1}} -> "Test(..)"`.

use crate::answers::{doc_of, one, printed, refused, tree};
use case_notation::{Item, Table};
use expr_tree::Query;
use query_read::{FormError, read_query, read_restriction};
use std::alloc::Global;

/// The table of forms.
pub(crate) struct QueryForms;

// What the query prints, and its copy too.
fn shown(alloc: Global, query: &Query) -> Option<String> {
    let copy = query.copy(alloc).ok()?;
    printed(alloc, query, &copy)
}

// What the query prints that was read.
fn reading(alloc: Global, read: Result<Query, FormError>) -> Option<String> {
    match read {
        Ok(query) => shown(alloc, &query),
        Err(FormError::Form) => refused(alloc),
        Err(FormError::Memory) => None,
    }
}

// The query, and the restriction where it is something else.
fn both(alloc: Global, query: &str, restriction: &str) -> Option<Vec<Item>> {
    let mut items = one(alloc, tree(alloc, query)?)?;
    if restriction != query {
        items.push(tree(alloc, restriction)?).ok()?;
    }
    Some(items)
}

impl Table for QueryForms {
    fn answer(&self, alloc: Global, question: &[Item]) -> Option<Vec<Item>> {
        let [doc] = question else {
            return None;
        };
        let doc = doc_of(doc)?;
        let query = reading(alloc, read_query(alloc, doc))?;
        let restriction = reading(alloc, read_restriction(alloc, doc))?;
        both(alloc, query.as_str(), restriction.as_str())
    }
}
