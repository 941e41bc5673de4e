//! How texts compare.

/// How texts compare, at any depth of a value. The names of fields compare by their bytes under each collation.
#[derive(Clone, Copy)]
pub(crate) enum Collation {
    /// By their bytes.
    Simple,
}
