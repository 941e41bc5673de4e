//! Paths of which none is another's front.

ghost use Rattle.std.specs.Prelude.{◌≡◌, IfOk, map};
ghost use Rattle.std.specs.Ordering.{is_lt};
ghost use Rattle.std.specs.List.Sorted.{IsPermutation, IsSortedBy};
ghost use Rattle.stage_parts.specs.Paths.{begins, is_apart, are_apart, steps_in, steps_order, is_apart_from_first, are_neighbours_apart};

use bson_value::{Name, NoMemory, Path};
use std::alloc::Global;
use std::cmp::Ordering;

fn begins(front: &[Name], whole: &[Name]) -> bool
    ensures { result ≡ begins front.now whole.now }
{
    match front {
        [] => true,
        [step, front @ ..] => match whole {
            [] => false,
            [first, whole @ ..] => step.bytes() == first.bytes() && begins(front, whole),
        },
    }
}

/// Neither path is the other or begins it.
pub fn is_apart(a: &Path, b: &Path) -> bool
    ensures { result ≡ is_apart a.now b.now }
{
    !begins(a.steps(), b.steps()) && !begins(b.steps(), a.steps())
}

// Step by step: a path stands before those that it begins.
fn compare(a: &[Name], b: &[Name]) -> Ordering
    ensures { result ≡ steps_order a.now b.now }
{
    match a {
        [] => match b {
            [] => Ordering::Equal,
            _ => Ordering::Less,
        },
        [step, a @ ..] => match b {
            [] => Ordering::Greater,
            [other, b @ ..] => match step.bytes().cmp(other.bytes()) {
                Ordering::Equal => compare(a, b),
                by_step => by_step,
            },
        },
    }
}

fn sort(paths: &mut [&[Name]])
    ensures permutation { IsPermutation paths.old paths.new }
    ensures sorted { IsSortedBy (λ a b. is_lt (steps_order a.now b.now)) paths.new }
{
    paths.sort_unstable_by(|a, b| compare(a, b));
}

fn is_apart_from_first(path: &[Name], others: &[&[Name]]) -> bool
    ensures { result ≡ is_apart_from_first path.now (steps_in others.now) }
{
    match others {
        [] => true,
        [first, ..] => !begins(path, first),
    }
}

fn are_neighbours_apart(paths: &[&[Name]]) -> bool
    ensures { result ≡ are_neighbours_apart (steps_in paths.now) }
{
    let mut left = paths;
    while let [first, rest @ ..] = left {
        if !is_apart_from_first(first, rest) {
            return false;
        }
        left = rest;
    }
    true
}

// In the order of their steps, a path that begins any other begins the next one.
fn all_apart(paths: &mut [&[Name]]) -> bool
    ensures { result ≡ are_apart (steps_in paths.old) }
{
    sort(paths);
    are_neighbours_apart(paths)
}

/// The paths are distinct, and none is a prefix of another.
pub fn are_apart(alloc: Global, paths: &[Path]) -> Result<bool, NoMemory>
    ensures { IfOk result (λ apart. apart ≡ are_apart paths.now) }
{
    let mut all = Vec::new(alloc);
    for path in paths {
        all.push(path.steps())?;
    }
    Ok(all_apart(&mut all))
}

/// The first parts of the pairs are distinct, and none is a prefix of another.
pub fn are_apart_in<T>(alloc: Global, pairs: &[(Path, T)]) -> Result<bool, NoMemory>
    ensures { IfOk result (λ apart. apart ≡ are_apart (map (λ p. p.0) pairs.now)) }
{
    let mut all = Vec::new(alloc);
    for pair in pairs {
        all.push(pair.0.steps())?;
    }
    Ok(all_apart(&mut all))
}
