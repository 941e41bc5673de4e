//! Words, and what they name.

ghost use Rattle.std.specs.Prelude.{◌≡◌, map};
ghost use Rattle.bson_value.specs.Pairs.{find};
ghost use Rattle.join_forms.specs.Words.{kind_named, matched_named, unmatched_named};

use bson_value::AccKind;
use stage_tree::{WhenMatched, WhenUnmatched};

const ACCUMULATORS: [(&[u8], AccKind); 8] = [
    (b"$sum", AccKind::Sum),
    (b"$min", AccKind::Min),
    (b"$max", AccKind::Max),
    (b"$first", AccKind::First),
    (b"$last", AccKind::Last),
    (b"$push", AccKind::Push),
    (b"$addToSet", AccKind::AddToSet),
    (b"$mergeObjects", AccKind::MergeObjects),
];

const MATCHED: [(&[u8], WhenMatched); 4] = [
    (b"replace", WhenMatched::Replace),
    (b"keepExisting", WhenMatched::KeepExisting),
    (b"merge", WhenMatched::Merge),
    (b"fail", WhenMatched::Fail),
];

const UNMATCHED: [(&[u8], WhenUnmatched); 3] = [
    (b"insert", WhenUnmatched::Insert),
    (b"discard", WhenUnmatched::Discard),
    (b"fail", WhenUnmatched::Fail),
];

fn find<T: Copy>(rows: &[(&[u8], T)], name: &[u8]) -> Option<T>
    ensures { result ≡ find name.now (map (λ r. (r.0.now, r.1)) rows.now) }
{
    match rows {
        [] => None,
        [first, rest @ ..] => {
            if first.0 == name {
                Some(first.1)
            } else {
                find(rest, name)
            }
        }
    }
}

/// The accumulator of that name that takes an expression. `$count` takes none.
pub fn kind_named(name: &[u8]) -> Option<AccKind>
    ensures { result ≡ kind_named name.now }
{
    find(&ACCUMULATORS, name)
}

/// What a `$merge` does where a document is held, by its word.
pub fn matched_named(name: &[u8]) -> Option<WhenMatched>
    ensures { result ≡ matched_named name.now }
{
    find(&MATCHED, name)
}

/// What a `$merge` does where no document is held, by its word.
pub fn unmatched_named(name: &[u8]) -> Option<WhenUnmatched>
    ensures { result ≡ unmatched_named name.now }
{
    find(&UNMATCHED, name)
}
