//! Cluster files, as `chunk_map` reads them: `read {cluster: 1, collections: []} -> 0 0 "Form"`.

use bson_codec::{encode, encoded_len};
use bson_value::{Bytes, List, Path, Text, Value, depth_of};
use case_notation::{Item, Table};
use chunk_map::{BadCluster, Cluster, ClusterError, Collection, read_cluster};
use std::alloc::Global;

/// The table of cluster files.
pub(crate) struct Clusters;

// The bytes that a document is spelled by.
fn spelled(alloc: Global, value: &Value) -> Option<Bytes> {
    let Value::Doc(doc) = value else {
        return None;
    };
    let _depth = depth_of(value, 100)?;
    let _len = encoded_len(doc, 16_777_216)?;
    let mut bytes = Bytes::new(alloc);
    encode(doc, &mut bytes).ok()?;
    Some(bytes)
}

/// What the cluster file of an item is read as. None where it isn't one, or memory was refused.
pub(crate) fn read(alloc: Global, file: &Item) -> Option<Result<Cluster, BadCluster>> {
    let bytes = match file.value()? {
        Value::Bin(_, bytes) => bytes.copy(alloc).ok()?,
        value => spelled(alloc, value)?,
    };
    match read_cluster(alloc, bytes.bytes()) {
        Ok(cluster) => Some(Ok(cluster)),
        Err(ClusterError::Bad(bad)) => Some(Err(bad)),
        Err(ClusterError::Memory) => None,
    }
}

fn refusal(alloc: Global, bad: BadCluster) -> Option<Vec<Item>> {
    let why = format!(in alloc; "{:?}", bad.why).ok()?;
    let mut items = Item::of_number(u64::from(bad.collection))?.alone(alloc)?;
    items.push(Item::of_number(u64::from(bad.chunk))?).ok()?;
    let why = Text::of(alloc, why.as_str()).ok()?;
    items.push(Item::Value(Value::Text(why))).ok()?;
    Some(items)
}

/// The answer to a question for what was read.
pub(crate) fn outcome(alloc: Global, read: Result<Cluster, BadCluster>) -> Option<Vec<Item>> {
    match read {
        Ok(cluster) => Item::of_number(cluster.collections().len() as u64)?.alone(alloc),
        Err(bad) => refusal(alloc, bad),
    }
}

fn path_word(alloc: Global, path: &Path) -> Option<Item> {
    let mut text = Bytes::new(alloc);
    for step in path.steps() {
        if !text.bytes().is_empty() {
            text.add(b".").ok()?;
        }
        text.add(step.bytes()).ok()?;
    }
    Some(Item::Word(Text::read(alloc, text.bytes()).ok()?))
}

fn text_word(alloc: Global, text: &Text) -> Option<Item> {
    Some(Item::Word(text.copy(alloc).ok()?))
}

fn list_item(alloc: Global, list: &List) -> Option<Item> {
    Some(Item::Value(Value::List(list.copy(alloc).ok()?)))
}

/// The answer to a question for a collection.
pub(crate) fn described(alloc: Global, collection: Option<&Collection>) -> Option<Vec<Item>> {
    let Some(collection) = collection else {
        return Item::of_found(alloc, None)?.alone(alloc);
    };
    let mut items = text_word(alloc, collection.name())?.alone(alloc)?;
    for path in collection.key_paths() {
        items.push(Item::of_word(alloc, "key")?).ok()?;
        items.push(path_word(alloc, path)?).ok()?;
    }
    for shard in collection.shards() {
        items.push(Item::of_word(alloc, "shard")?).ok()?;
        items.push(text_word(alloc, shard.name())?).ok()?;
        items.push(text_word(alloc, shard.file())?).ok()?;
    }
    for chunk in collection.chunks() {
        items.push(Item::of_word(alloc, "chunk")?).ok()?;
        items.push(list_item(alloc, chunk.min())?).ok()?;
        items.push(list_item(alloc, chunk.max())?).ok()?;
        items.push(Item::of_number(u64::from(chunk.shard()))?).ok()?;
    }
    Some(items)
}

impl Table for Clusters {
    fn answer(&self, alloc: Global, question: &[Item]) -> Option<Vec<Item>> {
        let [call, items @ ..] = question else {
            return None;
        };
        match (call.word()?, items) {
            (b"read", [file]) => outcome(alloc, read(alloc, file)?),
            (b"collection", [name, file]) => {
                let cluster = read(alloc, file)?.ok()?;
                described(alloc, cluster.collection(name.word()?))
            }
            _ => None,
        }
    }
}
