use bson_value::{Bytes, Doc};

/// A document with the bytes that it is ordered by: the bytes of a sort key or of a group key, and none where the
/// shards' lists are joined as they are.
#[derive(Debug, Drop)]
pub struct Keyed {
    pub key: Bytes,
    pub doc: Doc,
}
