//! How deep values are nested.

ghost use Rattle.std.specs.Prelude.{◌≡◌, map, min};
ghost use Rattle.bson_value.specs.Tree.{pairs_of, trees_of};
ghost use Rattle.bson_value.specs.View.{tree_of, trees_in};
ghost use Rattle.bson_value.specs.Depth.{depth, pairs_depth, trees_depth, IsDepth};

use crate::name::Name;
use crate::value::{Value, members_of, pairs_in_value};

/// The depth of a value: 0 of a scalar, and of a document or an array 1 more than that of its deepest
/// member, or 1 where it is empty. None exactly where it is greater than `cap`; what is nested deeper
/// is not looked at, so the call goes at most `cap` levels down.
#[cycle(depth)]
pub fn depth_of(value: &Value, cap: u32) -> Option<u32>
    ensures { IsDepth cap (depth (tree_of value.now)) result }
{
    match value {
        Value::Doc(_) => {
            let deepest = pairs_deep(pairs_in_value(value), cap.checked_sub(1)?)?;
            Some(deepest + 1)
        }
        Value::List(_) => {
            let deepest = members_deep(members_of(value), cap.checked_sub(1)?)?;
            Some(deepest + 1)
        }
        Value::Least
        | Value::Null
        | Value::Int(_)
        | Value::Long(_)
        | Value::Text(_)
        | Value::Bin(_, _)
        | Value::Id(_)
        | Value::Flag(_)
        | Value::Date(_)
        | Value::Stamp(_)
        | Value::Greatest => Some(0),
    }
}

// The depth of the deepest value of the pairs.
#[cycle(depth)]
fn pairs_deep(pairs: &[(Name, Value)], cap: u32) -> Option<u32>
    ensures { IsDepth cap (pairs_depth (pairs_of (trees_in pairs.now))) result }
{
    let mut deepest = 0;
    for pair in pairs {
        deepest = deepest.max(depth_of(&pair.1, cap)?);
    }
    Some(deepest)
}

// The depth of the deepest of the values.
#[cycle(depth)]
fn members_deep(values: &[Value], cap: u32) -> Option<u32>
    ensures { IsDepth cap (trees_depth (trees_of (map tree_of values.now))) result }
{
    let mut deepest = 0;
    for value in values {
        deepest = deepest.max(depth_of(value, cap)?);
    }
    Some(deepest)
}

/// The depth of a value, counted as 2^64 - 1 where it is greater. The call goes as many levels down.
#[cycle(full_depth)]
pub fn full_depth(value: &Value) -> u64
    ensures { result ≡ min (depth (tree_of value.now)) 18_446_744_073_709_551_615 }
{
    match value {
        Value::Doc(_) => pairs_full(pairs_in_value(value)).saturating_add(1),
        Value::List(_) => members_full(members_of(value)).saturating_add(1),
        Value::Least
        | Value::Null
        | Value::Int(_)
        | Value::Long(_)
        | Value::Text(_)
        | Value::Bin(_, _)
        | Value::Id(_)
        | Value::Flag(_)
        | Value::Date(_)
        | Value::Stamp(_)
        | Value::Greatest => 0,
    }
}

// The depth of the deepest value of the pairs.
#[cycle(full_depth)]
fn pairs_full(pairs: &[(Name, Value)]) -> u64
    ensures { result ≡ min (pairs_depth (pairs_of (trees_in pairs.now))) 18_446_744_073_709_551_615 }
{
    let mut deepest = 0;
    for pair in pairs {
        deepest = full_depth(&pair.1).max(deepest);
    }
    deepest
}

// The depth of the deepest of the values.
#[cycle(full_depth)]
fn members_full(values: &[Value]) -> u64
    ensures { result ≡ min (trees_depth (trees_of (map tree_of values.now))) 18_446_744_073_709_551_615 }
{
    let mut deepest = 0;
    for value in values {
        deepest = full_depth(value).max(deepest);
    }
    deepest
}
