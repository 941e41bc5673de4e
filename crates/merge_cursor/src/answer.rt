use crate::item::Keyed;

/// What comes next of a merge.
#[derive(Debug, Drop)]
pub enum Take {
    /// The next item.
    Item(Keyed),
    /// A shard that the choice needs has not ended, and nothing of it waits.
    NotYet,
    /// Each shard has ended, and nothing waits.
    Ended,
}
