//! Shards of documents, as `chunk_map` finds them: `shard c {k: 3} -> 0`.

use crate::clusters::{described, outcome, read};
use bson_value::{Doc, Value};
use case_notation::{Item, Table, is_case, read_case};
use chunk_map::{Cluster, Collection};
use std::alloc::Global;
use std::rt::Files;
use std::{fs, io};

/// The table of shards of that cluster.
#[derive(Drop)]
pub(crate) struct Shards {
    cluster: Cluster,
}

fn cluster_of(alloc: Global, line: &str) -> Option<Cluster> {
    match read_case(alloc, line)?.question.as_slice() {
        [_, file] => read(alloc, file)?.ok(),
        _ => None,
    }
}

/// The table of shards of the cluster that the first case of the file of that path gives.
pub(crate) fn first_cluster(
    rt: &(impl Files + AllocGlobal),
    path: &str,
) -> Result<Option<Shards>, io::Error> {
    let text = fs::read_to_string(rt, path)?;
    for line in text.lines() {
        if is_case(line) {
            return Ok(match cluster_of(rt.alloc(), line) {
                Some(cluster) => Some(Shards { cluster }),
                None => None,
            });
        }
    }
    Ok(None)
}

fn shard(alloc: Global, collection: &Collection, doc: &Doc) -> Option<Vec<Item>> {
    if collection.key_paths().is_empty() {
        return None;
    }
    match collection.key_of(doc) {
        Ok(key) => Item::of_number(u64::from(collection.shard_of(&key)))?.alone(alloc),
        Err(part) => {
            let mut items = Item::of_word(alloc, "array")?.alone(alloc)?;
            items.push(Item::of_number(part as u64)?).ok()?;
            Some(items)
        }
    }
}

impl Table for Shards {
    fn answer(&self, alloc: Global, question: &[Item]) -> Option<Vec<Item>> {
        let [call, name, items @ ..] = question else {
            return None;
        };
        if matches!(call.word()?, b"read") {
            return outcome(alloc, read(alloc, name)?);
        }
        let collection = self.cluster.collection(name.word()?);
        match (call.word()?, items) {
            (b"collection", []) => described(alloc, collection),
            (b"shard", [Item::Value(Value::Doc(doc))]) => shard(alloc, collection?, doc),
            (b"owns", [Item::Value(Value::Int(place)), Item::Value(Value::Doc(doc))]) => {
                let owns = collection?.owns(u32::try_from(*place).ok()?, doc);
                Item::Value(Value::Flag(owns)).alone(alloc)
            }
            _ => None,
        }
    }
}
