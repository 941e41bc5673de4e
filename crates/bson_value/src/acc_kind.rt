/// An accumulator of `$group` and of window functions (the manual, Accumulators).
#[derive(Clone, Copy, Debug, PartialEq, Eq)]
pub enum AccKind {
    /// `$sum`
    Sum,
    /// `$min`
    Min,
    /// `$max`
    Max,
    /// `$first`
    First,
    /// `$last`
    Last,
    /// `$push`
    Push,
    /// `$addToSet`
    AddToSet,
    /// `$mergeObjects`
    MergeObjects,
    /// `$count`
    Count,
}
