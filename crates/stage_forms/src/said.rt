//! What a `$project` says of its paths.

ghost use Rattle.std.specs.Prelude.{◌≡◌};
ghost use Rattle.std.specs.List.{list_all};
ghost use Rattle.bson_value.specs.View.{tree_of};
ghost use Rattle.stage_forms.specs.Project.{said, is_kept, is_removed, keeps, removes, is_id, is_under_id, excludes, fits, leaves_id, keeps_id};
ghost use Rattle.stage_forms.specs.Reading.{is_even};
ghost use Rattle.stage_forms.specs.Views.{leaves_in};

use bson_value::{Path, Value};

// The name `_id`.
const ID: &[u8] = b"_id";

/// Whether a number or a flag keeps a path. None exactly where the value is neither.
pub fn said(value: &Value) -> Option<bool>
    ensures { result ≡ said (tree_of value.now) }
{
    match value {
        Value::Int(n) => Some(*n != 0),
        Value::Long(n) => Some(*n != 0),
        Value::Flag(flag) => Some(*flag),
        Value::Least | Value::Null | Value::Greatest => None,
        Value::Date(_) | Value::Stamp(_) => None,
        Value::Text(_) | Value::Doc(_) | Value::List(_) | Value::Bin(_, _) => None,
        Value::Id(_) => None,
    }
}

fn keeps(value: &Value) -> bool
    ensures { result ≡ keeps (tree_of value.now) }
{
    match said(value) {
        Some(kept) => kept,
        None => false,
    }
}

fn removes(value: &Value) -> bool
    ensures { result ≡ removes (tree_of value.now) }
{
    match said(value) {
        Some(kept) => !kept,
        None => false,
    }
}

fn is_under_id(path: &Path) -> bool
    ensures { result ≡ is_under_id path.now }
{
    match path.steps() {
        [] => false,
        [first, ..] => first.bytes() == ID,
    }
}

/// The path is `_id`.
pub fn is_id(path: &Path) -> bool
    ensures { result ≡ is_id path.now }
{
    path.len() == 1 && is_under_id(path)
}

/// The `$project` is an exclusion.
pub fn excludes(leaves: &[(Path, &Value)]) -> bool
    ensures { result ≡ excludes (leaves_in leaves.now) }
{
    let mut left = leaves;
    while let [first, rest @ ..] = left {
        if rest.is_empty() || !is_id(&first.0) {
            return removes(first.1);
        }
        left = rest;
    }
    false
}

fn fits(excl: bool, path: &Path, value: &Value) -> bool
    ensures { result ≡ fits excl (path.now, tree_of value.now) }
{
    if excl {
        removes(value) || (is_id(path) && keeps(value))
    } else {
        !removes(value) || is_id(path)
    }
}

fn all_fit(excl: bool, leaves: &[(Path, &Value)]) -> bool
    ensures { result ≡ list_all (fits excl) (leaves_in leaves.now) }
{
    for leaf in leaves {
        if !fits(excl, &leaf.0, leaf.1) {
            return false;
        }
    }
    true
}

/// There are paths, and they are an exclusion or an inclusion throughout.
pub fn is_even(excl: bool, leaves: &[(Path, &Value)]) -> bool
    ensures { result ≡ is_even excl (leaves_in leaves.now) }
{
    leaves.len() != 0 && all_fit(excl, leaves)
}

fn leaves_id(excl: bool, path: &Path, value: &Value) -> bool
    ensures { result ≡ leaves_id excl (path.now, tree_of value.now) }
{
    if excl {
        !(is_id(path) && removes(value))
    } else {
        !is_under_id(path) || (is_id(path) && keeps(value))
    }
}

/// `_id` stays whole.
pub fn keeps_id(excl: bool, leaves: &[(Path, &Value)]) -> bool
    ensures { result ≡ keeps_id excl (leaves_in leaves.now) }
{
    for leaf in leaves {
        if !leaves_id(excl, &leaf.0, leaf.1) {
            return false;
        }
    }
    true
}
