//! The routing table of a cluster: which collections there are, on which shards they lie, and which documents each
//! shard owns.
#![tactic(auto)]

mod chunk;
mod chunk_form;
mod cluster;
mod collection;
mod collection_form;
mod errors;
mod fields;
mod head;
mod key;
mod key_form;
mod laws;
mod named;
mod names;
mod ranges;
mod read;
mod shard;
mod shard_form;
mod written;

pub use chunk::Chunk;
pub use cluster::Cluster;
pub use collection::Collection;
pub use errors::{BadCluster, ClusterError, ClusterWhy};
pub use key::Key;
pub use laws::{cluster_is, has_one_chunk, owned_by_shard};
pub use read::read_cluster;
pub use shard::Shard;
