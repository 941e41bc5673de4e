//! Calls of `doc_path`: `reach {a: 1} a.b -> missing`.

use bson_value::{Doc, Path, Value};
use case_notation::{Item, Table};
use doc_path::{Found, candidates, ends, keep, plain, reach, set, unset};
use std::alloc::Global;

/// The table of paths.
pub(crate) struct Paths;

fn read_path(alloc: Global, item: &Item) -> Option<Path> {
    Path::read(alloc, item.word()?).ok()
}

fn read_paths(alloc: Global, items: &[Item]) -> Option<Vec<Path>> {
    let mut paths = Vec::new(alloc);
    for item in items {
        paths.push(read_path(alloc, item)?).ok()?;
    }
    Some(paths)
}

fn copied(alloc: Global, found: Option<&Value>) -> Option<Item> {
    match found {
        Some(value) => Item::of_found(alloc, Some(value.copy(alloc).ok()?)),
        None => Item::of_found(alloc, None),
    }
}

fn each(alloc: Global, found: &Found<'_>) -> Option<Vec<Item>> {
    let mut items = Vec::new(alloc);
    for i in 0..found.len() {
        items.push(copied(alloc, found.get(i))?).ok()?;
    }
    Some(items)
}

fn looked_at(alloc: Global, call: &[u8], doc: &Doc, path: &Path) -> Option<Vec<Item>> {
    match call {
        b"reach" => Item::of_found(alloc, reach(alloc, doc, path).ok()?)?.alone(alloc),
        b"plain" => copied(alloc, plain(doc, path))?.alone(alloc),
        b"ends" => each(alloc, &ends(alloc, doc, path).ok()?),
        b"candidates" => each(alloc, &candidates(alloc, doc, path).ok()?),
        _ => None,
    }
}

fn changed(alloc: Global, call: &[u8], doc: &Doc, items: &[Item]) -> Option<Doc> {
    let doc = doc.copy(alloc).ok()?;
    match (call, items) {
        (b"set", [to, value]) => {
            let value = value.operand(alloc, b"missing")?;
            set(alloc, doc, &read_path(alloc, to)?, value).ok()
        }
        (b"unset", [to]) => unset(doc, &read_path(alloc, to)?).ok(),
        (b"keep", items) => keep(alloc, doc, read_paths(alloc, items)?.as_slice()).ok(),
        _ => None,
    }
}

impl Table for Paths {
    fn answer(&self, alloc: Global, question: &[Item]) -> Option<Vec<Item>> {
        let [call, doc, items @ ..] = question else {
            return None;
        };
        let Value::Doc(doc) = doc.value()? else {
            return None;
        };
        let call = call.word()?;
        match changed(alloc, call, doc, items) {
            Some(changed) => Item::Value(Value::Doc(changed)).alone(alloc),
            None => match items {
                [to] => looked_at(alloc, call, doc, &read_path(alloc, to)?),
                _ => None,
            },
        }
    }
}
