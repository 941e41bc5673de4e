//! Where stages stand.

ghost use Rattle.std.specs.Prelude.{◌≡◌, ◌<◌, ◌+◌, length, drop};
ghost use Rattle.bson_value.specs.Tree.{trees_of};
ghost use Rattle.stage_read.specs.Written.{place_before};
ghost use Rattle.stage_read.specs.Words.{may_merge, may_facet, in_union};

use bson_value::List;

/// Where a stage stands.
#[derive(Clone, Copy, Debug, PartialEq, Eq)]
pub enum Place {
    /// Last in the command.
    Last,
    /// Before another in the command, or in a `$unionWith` outside each `$facet`.
    Other,
    /// Within a `$facet`, at any depth.
    Facet,
}

/// A `$merge` may stand there.
pub fn may_merge(place: Place) -> bool
    ensures { result ≡ may_merge place }
{
    match place {
        Place::Last => true,
        Place::Other => false,
        Place::Facet => false,
    }
}

/// A `$facet` may stand there.
pub fn may_facet(place: Place) -> bool
    ensures { result ≡ may_facet place }
{
    match place {
        Place::Last => true,
        Place::Other => true,
        Place::Facet => false,
    }
}

/// Where the stages within a `$unionWith` stand.
pub fn in_union(place: Place) -> Place
    ensures { result ≡ in_union place }
{
    match place {
        Place::Last => Place::Other,
        Place::Other => Place::Other,
        Place::Facet => Place::Facet,
    }
}

/// Where the stage of that place in a command's list stands.
pub fn place_of(list: &List, i: usize) -> Place
    requires { i < length list.now }
    ensures { result ≡ place_before (trees_of (drop (i + 1) list.now)) }
{
    let count = list.len();
    if i + 1 < count {
        Place::Other
    } else {
        Place::Last
    }
}
