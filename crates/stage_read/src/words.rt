//! The words of commands and of stages that hold pipelines.

ghost use Rattle.std.specs.Prelude.{◌≡◌};
ghost use Rattle.stage_read.specs.Words.{is_pipeline, is_ignored, is_facet, is_union, is_merge};

/// The name of the field that has the stages of a command or of a `$unionWith`.
pub fn is_pipeline(name: &[u8]) -> bool
    ensures { result ≡ is_pipeline name.now }
{
    name == b"pipeline".as_slice()
}

/// A field of a command that may have any value, and says nothing.
pub fn is_ignored(name: &[u8]) -> bool
    ensures { result ≡ is_ignored name.now }
{
    name == b"cursor".as_slice()
        || name == b"allowDiskUse".as_slice()
        || name == b"comment".as_slice()
        || name == b"maxTimeMS".as_slice()
        || name == b"lsid".as_slice()
        || name == b"$db".as_slice()
}

/// The stage `$facet`.
pub fn is_facet(name: &[u8]) -> bool
    ensures { result ≡ is_facet name.now }
{
    name == b"$facet".as_slice()
}

/// The stage `$unionWith`.
pub fn is_union(name: &[u8]) -> bool
    ensures { result ≡ is_union name.now }
{
    name == b"$unionWith".as_slice()
}

/// The stage `$merge`.
pub fn is_merge(name: &[u8]) -> bool
    ensures { result ≡ is_merge name.now }
{
    name == b"$merge".as_slice()
}
