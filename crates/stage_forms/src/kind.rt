//! The names of stages.

ghost use Rattle.std.specs.Prelude.{◌≡◌, map};
ghost use Rattle.bson_value.specs.Pairs.{find};
ghost use Rattle.stage_forms.specs.Kinds.{kind_named};

/// A kind of stage, by its name.
#[derive(Clone, Copy, Debug, PartialEq, Eq)]
pub enum Kind {
    /// `$match`
    Match,
    /// `$project`
    Project,
    /// `$addFields` and `$set`
    AddFields,
    /// `$unset`
    Unset,
    /// `$replaceRoot`
    ReplaceRoot,
    /// `$replaceWith`
    ReplaceWith,
    /// `$unwind`
    Unwind,
    /// `$sort`
    Sort,
    /// `$limit`
    Limit,
    /// `$skip`
    Skip,
    /// `$count`
    Count,
}

const STAGES: [(&[u8], Kind); 12] = [
    (b"$match", Kind::Match),
    (b"$project", Kind::Project),
    (b"$addFields", Kind::AddFields),
    (b"$set", Kind::AddFields),
    (b"$unset", Kind::Unset),
    (b"$replaceRoot", Kind::ReplaceRoot),
    (b"$replaceWith", Kind::ReplaceWith),
    (b"$unwind", Kind::Unwind),
    (b"$sort", Kind::Sort),
    (b"$limit", Kind::Limit),
    (b"$skip", Kind::Skip),
    (b"$count", Kind::Count),
];

fn find_kind(kinds: &[(&[u8], Kind)], name: &[u8]) -> Option<Kind>
    ensures { result ≡ find name.now (map (λ k. (k.0.now, k.1)) kinds.now) }
{
    match kinds {
        [] => None,
        [first, rest @ ..] => {
            if first.0 == name {
                Some(first.1)
            } else {
                find_kind(rest, name)
            }
        }
    }
}

/// The kind of stage of that name. None exactly where it is none of these.
pub fn kind_named(name: &[u8]) -> Option<Kind>
    ensures { result ≡ kind_named name.now }
{
    find_kind(&STAGES, name)
}
