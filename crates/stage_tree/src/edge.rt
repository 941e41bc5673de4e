/// An edge of a window's frame.
#[derive(Clone, Copy, Debug, PartialEq, Eq)]
pub enum Edge {
    /// The partition's first or last document.
    Unbounded,
    /// So many places behind the current document, before it where negative.
    At(i64),
}
