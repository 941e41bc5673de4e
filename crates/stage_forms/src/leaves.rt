//! Paths with values, nested documents standing for longer paths.

ghost use Rattle.std.specs.Prelude.{◌≡◌, ◌++◌, ◌∷◌, [], IfOk, IfSome, MatchOption, map};
ghost use Rattle.std.specs.Option.{option_map};
ghost use Rattle.bson_value.specs.Tree.{pairs_of, pairs_size, tree_size};
ghost use Rattle.bson_value.specs.View.{tree_of};
ghost use Rattle.expr_read.specs.Reads.{Reads};
ghost use Rattle.expr_tree.specs.Forms.{has_sign};
ghost use Rattle.stage_parts.specs.Each.{each_from};
ghost use Rattle.stage_parts.specs.Paths.{are_apart};
ghost use Rattle.stage_forms.specs.Leaves.{nests, flat, flat_value, is_empty, leaf_reading, apart_leaves, leaves_reading};
ghost use Rattle.stage_forms.specs.Views.{leaves_in, nested};

use bson_value::{Bytes, Doc, NoMemory, Path, Value};
use expr_read::FormError;
use stage_parts::{are_apart_in, doc_in, read_path};
use std::alloc::Global;
use std::marker::Model;
use std::vec;

/// Paths, each with its value.
pub type Found<'a> = Vec<(Path, &'a Value)>;

// The document that stands for longer paths, where the value is one.
fn nested_in(value: &Value) -> Option<&Doc>
    ensures fields { option_map (λ d. d.now) result ≡ nested (tree_of value.now) }
    ensures size { IfSome result (λ d. pairs_size (pairs_of d.now) ≡ tree_size (tree_of value.now)) }
{
    match doc_in(value) {
        Some(doc) => { if nests(doc) { Some(doc) } else { None } }
        None => None,
    }
}

fn has_sign(name: &[u8]) -> bool
    ensures { result ≡ has_sign name.now }
{
    match name {
        [] => false,
        [first, ..] => *first == b'$',
    }
}

fn nests(doc: &Doc) -> bool
    ensures { result ≡ nests doc.now }
{
    if doc.len() == 0 {
        false
    } else {
        !has_sign(doc.name(0))
    }
}

fn is_empty(value: &Value) -> bool
    ensures { result ≡ is_empty (tree_of value.now) }
{
    match doc_in(value) {
        Some(doc) => doc.len() == 0,
        None => false,
    }
}

// The text of a longer path.
fn joined(alloc: Global, front: &[u8], name: &[u8]) -> Result<Bytes, NoMemory>
    ensures { IfOk result (λ b. b ≡ front.now ++ name.now) }
{
    let mut text = Bytes::new(alloc);
    text.add(front)?;
    text.add(name)?;
    Ok(text)
}

fn read_leaf<'a>(
    alloc: Global,
    text: &[u8],
    value: &'a Value,
) -> Result<(Path, &'a Value), FormError>
    ensures { Reads (λ l. (l.0, tree_of l.1.now)) result (leaf_reading (text.now, tree_of value.now)) }
{
    if is_empty(value) {
        return Err(FormError::Form);
    }
    let path = read_path(alloc, text)?;
    Ok((path, value))
}

fn add_leaf<'a>(
    alloc: Global,
    text: &[u8],
    value: &'a Value,
    found: Found<'a>,
) -> Result<Found<'a>, FormError>
    ensures { Reads (λ ls. leaves_in ls.items) result (each_from leaf_reading (leaves_in found.entry.items) ((text.now, tree_of value.now) ∷ [])) }
{
    let mut found = found;
    let leaf = read_leaf(alloc, text, value)?;
    match found.push(leaf) {
        Ok(()) => Ok(found),
        Err(_) => Err(FormError::Memory),
    }
}

#[cycle(walk)]
fn read_fields<'a>(
    alloc: Global,
    front: &[u8],
    doc: &'a Doc,
    found: Found<'a>,
) -> Result<Found<'a>, FormError>
    ensures { Reads (λ ls. leaves_in ls.items) result (each_from leaf_reading (leaves_in found.entry.items) (flat front.now (pairs_of doc.now))) }
{
    let mut found = found;
    for i in 0..doc.len() {
        let name = doc.name(i);
        let value = doc.value(i);
        let text = joined(alloc, front, name)?;
        found = read_value(alloc, text, value, found)?;
    }
    Ok(found)
}

#[cycle(walk)]
fn read_nested<'a>(
    alloc: Global,
    text: Bytes,
    doc: &'a Doc,
    found: Found<'a>,
) -> Result<Found<'a>, FormError>
    ensures { Reads (λ ls. leaves_in ls.items) result (each_from leaf_reading (leaves_in found.entry.items) (flat (text ++ 46 ∷ []) (pairs_of doc.now))) }
{
    let front = joined(alloc, text.bytes(), b".")?;
    read_fields(alloc, front.bytes(), doc, found)
}

#[cycle(walk)]
fn read_value<'a>(
    alloc: Global,
    text: Bytes,
    value: &'a Value,
    found: Found<'a>,
) -> Result<Found<'a>, FormError>
    ensures { Reads (λ ls. leaves_in ls.items) result (each_from leaf_reading (leaves_in found.entry.items) (flat_value text (tree_of value.now))) }
{
    match nested_in(value) {
        Some(doc) => read_nested(alloc, text, doc, found),
        None => add_leaf(alloc, text.bytes(), value, found),
    }
}

fn have_apart_paths(alloc: Global, found: &[(Path, &Value)]) -> Result<bool, NoMemory>
    ensures { IfOk result (λ apart. apart ≡ are_apart (map (λ l. l.0) (leaves_in found.now))) }
{
    are_apart_in(alloc, found)
}

fn apart_leaves<'a>(alloc: Global, found: Found<'a>) -> Result<Found<'a>, FormError>
    ensures { Reads (λ ls. leaves_in ls.items) result (apart_leaves (leaves_in found.entry.items)) }
{
    if have_apart_paths(alloc, found.as_slice())? {
        Ok(found)
    } else {
        Err(FormError::Form)
    }
}

/// The paths of a document, each with its value. A document that isn't empty and whose first name isn't that of an
/// operator stands for longer paths. It is refused as `Form` where a text is no path, a value is an empty document, or
/// a path is another or begins it.
pub fn read_leaves<'a>(alloc: Global, doc: &'a Doc) -> Result<Found<'a>, FormError>
    ensures { Reads (λ ls. leaves_in ls.items) result (leaves_reading doc.now) }
{
    let found = read_fields(alloc, b"", doc, Vec::new(alloc))?;
    apart_leaves(alloc, found)
}

/// Paths with values that are still to be given. Seen as the list of them.
#[derive(Drop)]
pub struct Leaves<'a> {
    leaves: vec::IntoIter<(Path, &'a Value)>,
}

impl<'a> Model for Leaves<'a> {
    ghost use Rattle.std.specs.Prelude.{List, ℕ};
    ghost use Rattle.std.specs.Vec.Iter.{into_iter_items};
    ghost use Rattle.std.specs.Coded.{coded_list, coded×, coded_ℕ};
    ghost use Rattle.bson_value.specs.Tree.{Tree};
    ghost use Rattle.bson_value.specs.Code.{tree_code};
    ghost use Rattle.stage_forms.specs.Views.{leaves_in};

    ghost Value = { List (List (List ℕ) × Tree) };

    ghost coded = { coded_list (coded× (coded_list (coded_list coded_ℕ)) tree_code) };

    ghost view = { λ l. leaves_in (into_iter_items l.leaves) };
}

impl<'a> Leaves<'a> {
    /// All of them are still to be given.
    pub fn new(found: Found<'a>) -> Leaves<'a>
        ensures { result ≡ leaves_in found.entry.items }
    {
        Leaves {
            leaves: found.into_iter(),
        }
    }

    /// The next path with its value. None exactly where all were given.
    pub fn next(&mut self) -> Option<(Path, &'a Value)>
        ensures { MatchOption result ((self.old ≡ []) × (self.new ≡ [])) (λ l. self.old ≡ (l.0, tree_of l.1.now) ∷ self.new) }
    {
        self.leaves.next()
    }
}
