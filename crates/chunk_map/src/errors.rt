use bson_value::{BadBson, NoMemory};

/// Why a cluster file stands for no routing table.
#[derive(Clone, Copy, Debug, PartialEq, Eq)]
pub enum ClusterWhy {
    /// The file doesn't begin with a document.
    Bytes(BadBson),
    /// Bytes stand behind the document, from this place on.
    Trailing(usize),
    /// The document, or a collection in it, has another shape.
    Form,
    /// A collection, a shard or a file has a name that stood before.
    TwiceNamed,
    /// The chunks' ranges don't follow one another from the lowest key to the highest.
    Range,
    /// A chunk lies on a shard that isn't listed.
    Shard,
}

/// A refused cluster file: the collection and the chunk that are refused, counted from 1, or 0 where none is meant.
#[derive(Clone, Copy, Debug, PartialEq, Eq)]
pub struct BadCluster {
    pub collection: u32,
    pub chunk: u32,
    pub why: ClusterWhy,
}

/// Why a cluster file wasn't read.
#[derive(Clone, Copy, Debug, PartialEq, Eq)]
pub enum ClusterError {
    /// It stands for no routing table.
    Bad(BadCluster),
    /// Memory was refused.
    Memory,
}

impl From<NoMemory> for ClusterError {
    ghost use Rattle.std.specs.Prelude.{◌≡◌};
    ghost use Rattle.chunk_map.specs.declared.errors.ClusterError.TheVariants.{Memory};

    ghost from_gives = { λ _ e. e ≡ Memory };

    fn from(_e: NoMemory) -> ClusterError {
        ClusterError::Memory
    }
}
