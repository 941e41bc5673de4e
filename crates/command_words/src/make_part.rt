/// One of the files of a generated workload.
#[derive(Clone, Copy, Debug, PartialEq, Eq)]
pub enum MakePart {
    /// The cluster file.
    Cluster,
    /// The command file.
    Command,
    /// The file of shard `a`.
    A,
    /// The file of shard `b`.
    B,
    /// The file of shard `c`.
    C,
}
