ghost use Rattle.std.specs.Prelude.{◌≡◌, ◌∷◌, map, IfOk};
ghost use Rattle.std.specs.Option.{option_map};
ghost use Rattle.bson_value.specs.View.{tree_of};
ghost use Rattle.bson_value.specs.Tree.{doc as a_doc, pairs_of};
ghost use Rattle.bson_value.specs.Paths.{set as the_set, set_at, made_doc, made_docs};

use crate::unset_path::unset;
use bson_value::{Doc, List, Name, NoMemory, Path, Value};
use std::alloc::Global;

/// The document with the value at the end of the path, in each element of an array on the way (the manual,
/// `$addFields`). What stands on the way and is no document becomes one, and a new name comes last. Without a value the
/// field is removed as `unset` does. The value is moved to its end, or copied to each end where the way leads through an
/// array; of the rest nothing is copied.
pub fn set(alloc: Global, doc: Doc, path: &Path, value: Option<Value>) -> Result<Doc, NoMemory>
    ensures { IfOk result (λ d. d ≡ the_set path.now (option_map tree_of value) doc) }
{
    match value {
        Some(value) => set_value(alloc, doc, path, value),
        None => unset(doc, path),
    }
}

fn set_value(alloc: Global, doc: Doc, path: &Path, value: Value) -> Result<Doc, NoMemory>
    ensures { IfOk result (λ d. d ≡ set_at path.now (tree_of value) doc) }
{
    match path.steps() {
        [] => Ok(doc), // a path has a step
        [step, rest @ ..] => move_to_field(alloc, doc, step, rest, value),
    }
}

#[cycle(move_to)]
fn move_to_field(
    alloc: Global,
    doc: Doc,
    step: &Name,
    rest: &[Name],
    value: Value,
) -> Result<Doc, NoMemory>
    ensures { IfOk result (λ d. d ≡ set_at (step.now ∷ rest.now) (tree_of value) doc) }
{
    let mut doc = doc;
    match rest {
        [] => {
            doc.put(step.copy(alloc)?, value)?;
            Ok(doc)
        }
        [next, rest @ ..] => match doc.place(step.bytes()) {
            Some(i) => {
                let there = doc.replace(i, Value::Null);
                let _null = doc.replace(i, move_into(alloc, there, next, rest, value)?);
                Ok(doc)
            }
            None => {
                let made = move_to_field(alloc, Doc::new(alloc), next, rest, value)?;
                doc.append(step.copy(alloc)?, Value::Doc(made))?;
                Ok(doc)
            }
        },
    }
}

#[cycle(move_to)]
fn move_into(
    alloc: Global,
    there: Value,
    step: &Name,
    rest: &[Name],
    value: Value,
) -> Result<Value, NoMemory>
    ensures { IfOk result (λ v. tree_of v ≡ made_docs (set_at (step.now ∷ rest.now) (tree_of value)) (tree_of there)) }
{
    match there {
        Value::Doc(doc) => Ok(Value::Doc(move_to_field(alloc, doc, step, rest, value)?)),
        Value::List(list) => Ok(Value::List(set_each(alloc, list, step, rest, &value)?)),
        _ => Ok(Value::Doc(move_to_field(alloc, Doc::new(alloc), step, rest, value)?)),
    }
}

#[cycle(set)]
fn set_field(
    alloc: Global,
    doc: Doc,
    step: &Name,
    rest: &[Name],
    value: &Value,
) -> Result<Doc, NoMemory>
    ensures { IfOk result (λ d. d ≡ set_at (step.now ∷ rest.now) (tree_of value.now) doc) }
{
    let mut doc = doc;
    match rest {
        [] => {
            doc.put(step.copy(alloc)?, value.copy(alloc)?)?;
            Ok(doc)
        }
        [next, rest @ ..] => match doc.place(step.bytes()) {
            Some(i) => {
                let there = doc.replace(i, Value::Null);
                let _null = doc.replace(i, set_in(alloc, there, next, rest, value)?);
                Ok(doc)
            }
            None => {
                let made = set_field(alloc, Doc::new(alloc), next, rest, value)?;
                doc.append(step.copy(alloc)?, Value::Doc(made))?;
                Ok(doc)
            }
        },
    }
}

#[cycle(set)]
fn set_in(
    alloc: Global,
    there: Value,
    step: &Name,
    rest: &[Name],
    value: &Value,
) -> Result<Value, NoMemory>
    ensures { IfOk result (λ v. tree_of v ≡ made_docs (set_at (step.now ∷ rest.now) (tree_of value.now)) (tree_of there)) }
{
    match there {
        Value::Doc(doc) => Ok(Value::Doc(set_field(alloc, doc, step, rest, value)?)),
        Value::List(list) => Ok(Value::List(set_each(alloc, list, step, rest, value)?)),
        _ => Ok(Value::Doc(set_field(alloc, Doc::new(alloc), step, rest, value)?)),
    }
}

#[cycle(set)]
fn set_each(
    alloc: Global,
    list: List,
    step: &Name,
    rest: &[Name],
    value: &Value,
) -> Result<List, NoMemory>
    ensures { IfOk result (λ l. l ≡ map (made_doc (set_at (step.now ∷ rest.now) (tree_of value.now))) list) }
{
    let mut list = list;
    for i in 0..list.len() {
        let element = list.replace(i, Value::Null);
        let _null = list.replace(i, set_own(alloc, element, step, rest, value)?);
    }
    Ok(list)
}

#[cycle(set)]
fn set_own(
    alloc: Global,
    element: Value,
    step: &Name,
    rest: &[Name],
    value: &Value,
) -> Result<Value, NoMemory>
    ensures { IfOk result (λ v. tree_of v ≡ made_doc (set_at (step.now ∷ rest.now) (tree_of value.now)) (tree_of element)) }
{
    match element {
        Value::Doc(doc) => Ok(Value::Doc(set_field(alloc, doc, step, rest, value)?)),
        _ => Ok(Value::Doc(set_field(alloc, Doc::new(alloc), step, rest, value)?)),
    }
}
