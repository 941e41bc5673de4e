ghost use Rattle.std.specs.Prelude.{◌≡◌, ◌++◌, [], map, IfOk, OnOk};
ghost use Rattle.std.specs.List.{flat_map};
ghost use Rattle.std.specs.Option.{option_map};
ghost use Rattle.bson_value.specs.View.{tree_of};
ghost use Rattle.bson_value.specs.Tree.{doc as a_doc, pairs_of};
ghost use Rattle.bson_value.specs.Paths.{ends as the_ends, candidates as the_candidates, field_ends, named_ends, placed_ends, element_ends, opened};

use crate::found::Found;
use bson_value::{Doc, List, Name, NoMemory, Path, Value};
use itoa::Buffer;
use std::alloc::Global;

/// Where the path ends in the document, in order, as a query sees it (the manual, Query an Array): at an array in each
/// element that is a document and in the element whose decimal position the step is. There may be no end at all.
pub fn ends<'a>(alloc: Global, doc: &'a Doc, path: &Path) -> Result<Found<'a>, NoMemory>
    ensures { IfOk result (λ f. f ≡ the_ends path.now (a_doc (pairs_of doc.now))) }
{
    path.known();
    let mut found = Found::new(alloc);
    match path.steps() {
        [] => Ok(found), // a path has a step
        [step, rest @ ..] => {
            ends_in_field(doc, step, rest, &mut found)?;
            Ok(found)
        }
    }
}

/// What a test of a query looks at: the ends of the path, each array end followed by its elements.
pub fn candidates<'a>(alloc: Global, doc: &'a Doc, path: &Path) -> Result<Found<'a>, NoMemory>
    ensures { IfOk result (λ f. f ≡ the_candidates path.now (a_doc (pairs_of doc.now))) }
{
    let reached = ends(alloc, doc, path)?;
    open_each(alloc, &reached)
}

fn open_each<'a>(alloc: Global, reached: &Found<'a>) -> Result<Found<'a>, NoMemory>
    ensures { IfOk result (λ f. f ≡ flat_map opened reached.now) }
{
    let mut found = Found::new(alloc);
    for i in 0..reached.len() {
        open(reached.get(i), &mut found)?;
    }
    Ok(found)
}

fn open<'a>(end: Option<&'a Value>, found: &mut Found<'a>) -> Result<(), NoMemory>
    ensures { OnOk result (found.new ≡ found.old ++ opened (option_map (λ v. tree_of v.now) end.entry)) }
{
    found.add(end)?;
    match end {
        Some(value) => match value {
            Value::List(list) => add_members(list, found),
            _ => Ok(()),
        },
        None => Ok(()),
    }
}

fn add_members<'a>(list: &'a List, found: &mut Found<'a>) -> Result<(), NoMemory>
    ensures { OnOk result (found.new ≡ found.old ++ map Some list.now) }
{
    for i in 0..list.len() {
        found.add(Some(list.value(i)))?;
    }
    Ok(())
}

#[cycle(ends)]
fn ends_in_field<'a>(
    doc: &'a Doc,
    step: &Name,
    rest: &[Name],
    found: &mut Found<'a>,
) -> Result<(), NoMemory>
    ensures { OnOk result (found.new ≡ found.old ++ field_ends (the_ends rest.now) step.now doc.now) }
{
    match doc.get(step.bytes()) {
        Some(value) => ends_in(value, rest, found),
        None => found.add(None),
    }
}

#[cycle(ends)]
fn ends_in<'a>(value: &'a Value, steps: &[Name], found: &mut Found<'a>) -> Result<(), NoMemory>
    ensures { OnOk result (found.new ≡ found.old ++ the_ends steps.now (tree_of value.now)) }
{
    match steps {
        [] => found.add(Some(value)),
        [step, rest @ ..] => match value {
            Value::Doc(doc) => ends_in_field(doc, step, rest, found),
            Value::List(list) => ends_in_elements(list, step, rest, found),
            _ => found.add(None),
        },
    }
}

#[cycle(ends)]
fn ends_in_elements<'a>(
    list: &'a List,
    step: &Name,
    rest: &[Name],
    found: &mut Found<'a>,
) -> Result<(), NoMemory>
    ensures { OnOk result (found.new ≡ found.old ++ element_ends (the_ends rest.now) step.now 0 list.now) }
{
    for i in 0..list.len() {
        let element = list.value(i);
        ends_in_named(element, step, rest, found)?;
        ends_in_placed(element, i, step, rest, found)?;
    }
    Ok(())
}

#[cycle(ends)]
fn ends_in_named<'a>(
    element: &'a Value,
    step: &Name,
    rest: &[Name],
    found: &mut Found<'a>,
) -> Result<(), NoMemory>
    ensures { OnOk result (found.new ≡ found.old ++ named_ends (the_ends rest.now) step.now (tree_of element.now)) }
{
    match element {
        Value::Doc(doc) => ends_in_field(doc, step, rest, found),
        _ => Ok(()),
    }
}

#[cycle(ends)]
fn ends_in_placed<'a>(
    element: &'a Value,
    i: usize,
    step: &Name,
    rest: &[Name],
    found: &mut Found<'a>,
) -> Result<(), NoMemory>
    ensures { OnOk result (found.new ≡ found.old ++ placed_ends (the_ends rest.now) step.now i (tree_of element.now)) }
{
    let mut place = Buffer::new();
    if place.format(i).as_bytes() == step.bytes() {
        ends_in(element, rest, found)
    } else {
        Ok(())
    }
}
