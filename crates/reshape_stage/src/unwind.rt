//! `$unwind`: a document for each element of an array (the manual, `$unwind`).

ghost use Rattle.std.specs.Prelude.{◌≡◌, ◌∷◌, ◌++◌, [], Some, pos, IfOk, OnOk};
ghost use Rattle.std.specs.Option.{option_map};
ghost use Rattle.bson_value.specs.Tree.{doc as a_doc, leaf, long, pairs_of, trees_of};
ghost use Rattle.bson_value.specs.View.{tree_of};
ghost use Rattle.bson_value.specs.Paths.{plain as plainly, field_plain, set as the_set};
ghost use Rattle.stage_tree.specs.Rows.{with_index as the_with_index, preserved, unwound, unwind_value};
ghost use Rattle.reshape_stage.specs.Unwound.{array_stands as the_array_stands, emptied, in_one, place_leaf, stands};

use bson_value::{Doc, Docs, Items, List, Name, NoMemory, Path, Value};
use doc_path::{plain, set, unset};
use stage_tree::Unwind;
use std::alloc::Global;

/// What stands at the path of an `$unwind`.
#[derive(Clone, Copy, PartialEq, Eq)]
pub(crate) enum Stands {
    /// Null, or nothing.
    Nothing,
    /// An array without elements.
    Empty,
    /// An array with elements.
    Elements,
    /// Another value.
    Other,
}

fn stands_at(value: Option<&Value>) -> Stands
    ensures { result ≡ stands (option_map (λ v. tree_of v.now) value.entry) }
{
    match value {
        Some(value) => stands_as(value),
        None => Stands::Nothing,
    }
}

fn stands_as(value: &Value) -> Stands
    ensures { result ≡ stands (Some (tree_of value.now)) }
{
    match value {
        Value::Null => Stands::Nothing,
        Value::List(list) => array_stands(list),
        Value::Doc(_) => Stands::Other,
        _ => Stands::Other,
    }
}

fn array_stands(list: &List) -> Stands
    ensures { result ≡ the_array_stands (trees_of list.now) }
{
    if list.len() == 0 {
        Stands::Empty
    } else {
        Stands::Elements
    }
}

/// Appends the documents that the document gives. The elements are moved, and the rest of the document is copied for
/// each but the last.
pub(crate) fn unwind_into(
    alloc: Global,
    doc: Doc,
    unwind: &Unwind,
    out: &mut Docs,
) -> Result<(), NoMemory>
    ensures { OnOk result
        (out.new ≡ out.old ++ unwind_value unwind.now.path unwind.now.index unwind.now.preserve doc (plainly unwind.now.path (a_doc (pairs_of doc)))) }
{
    match stands_at(plain(&doc, &unwind.path)) {
        Stands::Nothing => preserve(alloc, doc, unwind, out),
        Stands::Empty => preserve(alloc, unset(doc, &unwind.path)?, unwind, out),
        Stands::Elements => unwind_elements(alloc, doc, unwind, out),
        Stands::Other => out.add(with_index(alloc, doc, &unwind.index, None)?),
    }
}

// A document without an element stays where such documents are preserved.
fn preserve(alloc: Global, doc: Doc, unwind: &Unwind, out: &mut Docs) -> Result<(), NoMemory>
    ensures { OnOk result (out.new ≡ out.old ++ preserved unwind.now.preserve unwind.now.index doc) }
{
    if unwind.preserve {
        out.add(with_index(alloc, doc, &unwind.index, None)?)
    } else {
        Ok(())
    }
}

// The document with the place of its element, or null where it has none, at the path of the index.
fn with_index(
    alloc: Global,
    doc: Doc,
    index: &Option<Path>,
    place: Option<u64>,
) -> Result<Doc, NoMemory>
    ensures { IfOk result (λ d. d ≡ the_with_index index.now (place_leaf place) doc) }
{
    match index {
        Some(path) => set(alloc, doc, path, Some(place_value(place)?)),
        None => Ok(doc),
    }
}

fn place_value(place: Option<u64>) -> Result<Value, NoMemory>
    ensures { IfOk result (λ v. tree_of v ≡ leaf (place_leaf place)) }
{
    match place {
        Some(place) => match i64::try_from(place) {
            Ok(place) => Ok(Value::Long(place)),
            Err(_) => Err(NoMemory), // so many elements have no room
        },
        None => Ok(Value::Null),
    }
}

fn unwind_elements(alloc: Global, doc: Doc, unwind: &Unwind, out: &mut Docs) -> Result<(), NoMemory>
    requires { stands (plainly unwind.now.path (a_doc (pairs_of doc))) ≡ Stands.Elements }
    ensures { OnOk result
        (out.new ≡ out.old ++ unwind_value unwind.now.path unwind.now.index unwind.now.preserve doc (plainly unwind.now.path (a_doc (pairs_of doc)))) }
{
    let (rest, value) = take_at(doc, &unwind.path);
    match value {
        Some(Value::List(list)) => unwind_each(alloc, rest, list.into_items(), unwind, out),
        _ => Err(NoMemory), // never: an array stands there
    }
}

// A document for each element.
fn unwind_each(
    alloc: Global,
    rest: Doc,
    items: Items,
    unwind: &Unwind,
    out: &mut Docs,
) -> Result<(), NoMemory>
    ensures { OnOk result (out.new ≡ out.old ++ unwound unwind.now.path unwind.now.index rest 0 (trees_of items)) }
{
    let mut items = items;
    let Some(first) = items.next() else {
        return Ok(());
    };
    let mut item = first;
    let mut place: u64 = 0;
    while let Some(next) = items.next() {
        let Some(after) = place.checked_add(1) else {
            return Err(NoMemory); // so many elements have no room
        };
        out.add(element(alloc, rest.copy(alloc)?, unwind, place, item)?)?;
        item = next;
        place = after;
    }
    out.add(element(alloc, rest, unwind, place, item)?)
}

fn element(
    alloc: Global,
    rest: Doc,
    unwind: &Unwind,
    place: u64,
    item: Value,
) -> Result<Doc, NoMemory>
    ensures { IfOk result (λ d. d ≡ the_with_index unwind.now.index (long (pos place)) (the_set unwind.now.path (Some (tree_of item)) rest)) }
{
    let doc = set(alloc, rest, &unwind.path, Some(item))?;
    with_index(alloc, doc, &unwind.index, Some(place))
}

// The value at the end of the path's way through documents, with null left in its place.
fn take_at(doc: Doc, path: &Path) -> (Doc, Option<Value>)
    ensures value { option_map tree_of result.1 ≡ plainly path.now (a_doc (pairs_of doc)) }
    ensures rest { result.0 ≡ emptied path.now doc }
{
    path.known();
    match path.steps() {
        [] => (doc, None), // a path has a step
        [step, rest @ ..] => take_field(doc, step, rest),
    }
}

#[cycle(take)]
fn take_field(doc: Doc, step: &Name, rest: &[Name]) -> (Doc, Option<Value>)
    ensures value { option_map tree_of result.1 ≡ field_plain step.now rest.now doc }
    ensures rest { result.0 ≡ emptied (step.now ∷ rest.now) doc }
{
    let mut doc = doc;
    match doc.place(step.bytes()) {
        None => (doc, None),
        Some(i) => {
            let there = doc.replace(i, Value::Null);
            match rest {
                [] => (doc, Some(there)),
                [next, rest @ ..] => {
                    let (left, value) = take_in(there, next, rest);
                    let _null = doc.replace(i, left);
                    (doc, value)
                }
            }
        }
    }
}

#[cycle(take)]
fn take_in(there: Value, step: &Name, rest: &[Name]) -> (Value, Option<Value>)
    ensures value { option_map tree_of result.1 ≡ plainly (step.now ∷ rest.now) (tree_of there) }
    ensures rest { tree_of result.0 ≡ in_one (emptied (step.now ∷ rest.now)) (tree_of there) }
{
    match there {
        Value::Doc(inner) => {
            let (left, value) = take_field(inner, step, rest);
            (Value::Doc(left), value)
        }
        other => (other, None),
    }
}
