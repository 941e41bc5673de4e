ghost use Rattle.std.specs.Prelude.{◌≡◌, IfOk, OnOk, ◌++◌, []};
ghost use Rattle.std.specs.Option.{option_map};
ghost use Rattle.bson_value.specs.View.{tree_of};
ghost use Rattle.bson_value.specs.Tree.{doc as a_doc, pairs_of};
ghost use Rattle.bson_value.specs.Paths.{reach as reached, field_reach, gather, in_doc, kept};

use bson_value::{Doc, List, Name, NoMemory, Path, Value};
use std::alloc::Global;

/// A copy of what the path reaches in the document, as an expression's field path does (the manual, Field Paths):
/// through documents, and at an array through each element that is a document, the values being an array then.
/// None where it is missing.
pub fn reach(alloc: Global, doc: &Doc, path: &Path) -> Result<Option<Value>, NoMemory>
    ensures { IfOk result (λ o. option_map tree_of o ≡ reached path.now (a_doc (pairs_of doc.now))) }
{
    match path.steps() {
        [] => Ok(Some(Value::Doc(doc.copy(alloc)?))),
        [step, rest @ ..] => reach_field(alloc, doc, step, rest),
    }
}

/// The same from a value, which need not be a document.
pub fn reach_value(alloc: Global, value: &Value, path: &Path) -> Result<Option<Value>, NoMemory>
    ensures { IfOk result (λ o. option_map tree_of o ≡ reached path.now (tree_of value.now)) }
{
    reach_in(alloc, value, path.steps())
}

#[cycle(reach)]
fn reach_in(alloc: Global, value: &Value, steps: &[Name]) -> Result<Option<Value>, NoMemory>
    ensures { IfOk result (λ o. option_map tree_of o ≡ reached steps.now (tree_of value.now)) }
{
    match steps {
        [] => Ok(Some(value.copy(alloc)?)),
        [step, rest @ ..] => match value {
            Value::Doc(doc) => reach_field(alloc, doc, step, rest),
            Value::List(list) => Ok(Some(Value::List(reach_all(alloc, list, step, rest)?))),
            _ => Ok(None),
        },
    }
}

#[cycle(reach)]
fn reach_field(
    alloc: Global,
    doc: &Doc,
    step: &Name,
    rest: &[Name],
) -> Result<Option<Value>, NoMemory>
    ensures { IfOk result (λ o. option_map tree_of o ≡ field_reach step.now rest.now doc.now) }
{
    match doc.get(step.bytes()) {
        Some(value) => reach_in(alloc, value, rest),
        None => Ok(None),
    }
}

#[cycle(reach)]
fn reach_member(
    alloc: Global,
    value: &Value,
    step: &Name,
    rest: &[Name],
) -> Result<Option<Value>, NoMemory>
    ensures { IfOk result (λ o. option_map tree_of o ≡ in_doc (field_reach step.now rest.now) (tree_of value.now)) }
{
    match value {
        Value::Doc(doc) => reach_field(alloc, doc, step, rest),
        _ => Ok(None),
    }
}

#[cycle(reach)]
fn reach_all(alloc: Global, list: &List, step: &Name, rest: &[Name]) -> Result<List, NoMemory>
    ensures { IfOk result (λ l. l ≡ gather (field_reach step.now rest.now) list.now) }
{
    let mut found = List::new(alloc);
    for i in 0..list.len() {
        let value = reach_member(alloc, list.value(i), step, rest)?;
        add_found(&mut found, value)?;
    }
    Ok(found)
}

pub(crate) fn add_found(list: &mut List, value: Option<Value>) -> Result<(), NoMemory>
    ensures { OnOk result (list.new ≡ list.old ++ kept (option_map tree_of value) []) }
{
    match value {
        Some(value) => list.add(value),
        None => Ok(()),
    }
}
