//! Keys of documents.

ghost use Rattle.std.specs.Prelude.{◌≡◌, ◌≤◌, ◌∷◌, length, map, option_map, IfOk, IfErr};
ghost use Rattle.bson_value.specs.Tree.{doc as a_doc, pairs_of};
ghost use Rattle.bson_value.specs.Order.{order};
ghost use Rattle.bson_value.specs.View.{tree_of};
ghost use Rattle.chunk_map.specs.Heads.{head_of, key_head};
ghost use Rattle.chunk_map.specs.Keys.{key_order, key_of};
ghost use Rattle.chunk_map.specs.KeyParts.{IsPart, part_of as part_tree};

use crate::head::Head;
use bson_value::{Doc, List, Name, Path, Value, compare};
use std::cmp::Ordering;
use std::marker::Model;

/// The most parts that a key may have.
const MOST_PARTS: usize = 4;

/// The key of a document: the values of up to four paths, borrowed from it. Seen as a list of trees.
#[derive(Drop)]
pub struct Key<'a> {
    // None stands for a missing value
    parts: [Option<&'a Value>; MOST_PARTS],
    len: usize,
}

impl<'a> Model for Key<'a> {
    ghost use Rattle.std.specs.Prelude.{List as Seq, ◌≤◌};
    ghost use Rattle.std.specs.Coded.{coded_list};
    ghost use Rattle.bson_value.specs.Tree.{Tree};
    ghost use Rattle.bson_value.specs.Code.{tree_code};

    ghost Value = { Seq Tree };

    ghost coded = { coded_list tree_code };

    ghost use Rattle.chunk_map.specs.KeyParts.{key_parts};

    ghost view = { λ k. key_parts k.len k.parts };

    ghost invariant = { λ k. k.len ≤ 4 };
}

// An array stands on the path's way or at its end.
#[derive(Clone, Copy, Debug, PartialEq, Eq)]
pub struct ArrayMet;

#[cycle(part)]
fn field_part<'a>(doc: &'a Doc, step: &Name, rest: &[Name]) -> Result<Option<&'a Value>, ArrayMet>
    ensures { IsPart result (step.now ∷ rest.now) (a_doc (pairs_of doc.now)) }
{
    match doc.get(step.bytes()) {
        Some(value) => part_in(value, rest),
        None => Ok(None),
    }
}

#[cycle(part)]
fn part_in<'a>(value: &'a Value, steps: &[Name]) -> Result<Option<&'a Value>, ArrayMet>
    ensures { IsPart result steps.now (tree_of value.now) }
{
    match steps {
        [] => match value {
            Value::List(_) => Err(ArrayMet),
            _ => Ok(Some(value)),
        },
        [step, rest @ ..] => match value {
            Value::Doc(doc) => field_part(doc, step, rest),
            Value::List(_) => Err(ArrayMet),
            _ => Ok(None),
        },
    }
}

// The value at the path's plain way, None where it is missing.
fn part_of<'a>(doc: &'a Doc, path: &Path) -> Result<Option<&'a Value>, ArrayMet>
    ensures { IsPart result path.now (a_doc (pairs_of doc.now)) }
{
    path.known();
    match path.steps() {
        [] => Ok(None), // a path has a step
        [step, rest @ ..] => field_part(doc, step, rest),
    }
}

/// The key of a document at these paths, or the number of the first part, from 1, whose path meets an array.
pub fn key_of<'a>(paths: &[Path], doc: &'a Doc) -> Result<Key<'a>, usize>
    requires { length paths.now ≤ 4 }
    ensures key { result ≡ key_of paths.now doc.now }
    ensures parts { IfOk result (λ key. length key ≡ length paths.now) }
    ensures part { IfErr result (λ part. (1 ≤ part) × (part ≤ length paths.now)) }
{
    let mut parts = [None; MOST_PARTS];
    for i in 0..paths.len() {
        match part_of(doc, &paths[i]) {
            Ok(value) => parts[i] = value,
            Err(_) => return Err(i + 1),
        }
    }
    Ok(Key {
        parts,
        len: paths.len(),
    })
}

fn compare_part(part: Option<&Value>, bound: &Value) -> Ordering
    ensures { result ≡ order (part_tree part.entry) (tree_of bound.now) }
{
    match part {
        Some(value) => compare(value, bound),
        None => compare(&Value::Null, bound),
    }
}

fn compare_parts(parts: &[Option<&Value>], bound: &List) -> Ordering
    ensures { result ≡ key_order (map part_tree parts.now) bound.now }
{
    for i in 0..parts.len().min(bound.len()) {
        match compare_part(parts[i], bound.value(i)) {
            Ordering::Equal => {}
            by_part => return by_part,
        }
    }
    parts.len().cmp(&bound.len())
}

fn part_head(part: Option<&Value>) -> Head
    ensures { result ≡ head_of (part_tree part.entry) }
{
    match part {
        Some(value) => Head::of(value),
        None => Head::of(&Value::Null),
    }
}

fn head_in(parts: &[Option<&Value>]) -> Head
    ensures { result ≡ key_head (map part_tree parts.now) }
{
    if parts.is_empty() {
        Head::of_none()
    } else {
        part_head(parts[0])
    }
}

impl<'a> Key<'a> {
    /// Its head.
    pub(crate) fn head(&self) -> Head
        ensures { result ≡ key_head self.now }
    {
        head_in(&self.parts[..self.len])
    }

    /// Its order to the bound of a range, part by part.
    pub(crate) fn compare(&self, bound: &List) -> Ordering
        ensures { result ≡ key_order self.now bound.now }
    {
        compare_parts(&self.parts[..self.len], bound)
    }
}
