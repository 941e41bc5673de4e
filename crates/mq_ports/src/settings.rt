/// How much a run may hold.
#[derive(Clone, Copy, Debug, PartialEq, Eq)]
pub struct Settings {
    /// The bytes of the block that a sort, a group or a window keeps its records in.
    pub budget: usize,
    /// The number of local values whose matches a lookup keeps.
    pub cache: usize,
    /// The number of documents past which a list is refused.
    pub documents: u64,
}
