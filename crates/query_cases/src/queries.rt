//! Queries over documents: `{a: 1} {a: {$gt: 1}} -> false`.

use crate::answers::{code, doc_of, one, word};
use bson_value::{Doc, Value};
use case_notation::{Item, Table};
use expr_tree::Query;
use query_eval::matches;
use query_read::{FormError, read_query};
use std::alloc::Global;

/// The table of queries over documents.
pub(crate) struct Queries;

fn decided(alloc: Global, query: &Query, doc: &Doc) -> Option<Item> {
    match matches(alloc, query, doc) {
        Ok(holds) => Some(Item::Value(Value::Flag(holds))),
        Err(error) => code(alloc, error),
    }
}

fn asked(alloc: Global, doc: &Doc, query: Result<Query, FormError>) -> Option<Item> {
    match query {
        Ok(query) => decided(alloc, &query, doc),
        Err(FormError::Form) => word(alloc, "refused"),
        Err(FormError::Memory) => None,
    }
}

impl Table for Queries {
    fn answer(&self, alloc: Global, question: &[Item]) -> Option<Vec<Item>> {
        let [doc, query] = question else {
            return None;
        };
        let doc = doc_of(doc)?;
        let query = doc_of(query)?;
        one(alloc, asked(alloc, doc, read_query(alloc, query))?)
    }
}
