ghost use Rattle.std.specs.Prelude.{◌≡◌, ◌∷◌, map, IfOk, OnErr};
ghost use Rattle.bson_value.specs.View.{tree_of};
ghost use Rattle.bson_value.specs.Paths.{unset as the_unset, in_own, in_each};

use bson_value::{Doc, List, Name, NoMemory, Path, Value};

/// The document without the field at the end of the path: at documents on the way and at documents that are elements
/// of an array on it (the manual, `$unset`). Every other value stays, an array within an array among them. It takes no
/// memory, copies nothing and is never refused.
pub fn unset(doc: Doc, path: &Path) -> Result<Doc, NoMemory>
    ensures ok { IfOk result (λ d. d ≡ the_unset path.now doc) }
    ensures never_refused { OnErr result ⊥ }
{
    match path.steps() {
        [] => Ok(doc), // a path has a step
        [step, rest @ ..] => Ok(unset_field(doc, step, rest)),
    }
}

#[cycle(unset)]
fn unset_field(doc: Doc, step: &Name, rest: &[Name]) -> Doc
    ensures { result ≡ the_unset (step.now ∷ rest.now) doc }
{
    let mut doc = doc;
    match rest {
        [] => {
            let _removed = doc.take(step.bytes());
            doc
        }
        [next, rest @ ..] => match doc.place(step.bytes()) {
            Some(i) => {
                let value = doc.replace(i, Value::Null);
                let _null = doc.replace(i, unset_in(value, next, rest));
                doc
            }
            None => doc,
        },
    }
}

#[cycle(unset)]
fn unset_in(value: Value, step: &Name, rest: &[Name]) -> Value
    ensures { tree_of result ≡ in_each (the_unset (step.now ∷ rest.now)) (tree_of value) }
{
    match value {
        Value::Doc(doc) => Value::Doc(unset_field(doc, step, rest)),
        Value::List(list) => Value::List(unset_each(list, step, rest)),
        other => other,
    }
}

#[cycle(unset)]
fn unset_each(list: List, step: &Name, rest: &[Name]) -> List
    ensures { result ≡ map (in_own (the_unset (step.now ∷ rest.now))) list }
{
    let mut list = list;
    for i in 0..list.len() {
        let element = list.replace(i, Value::Null);
        let _null = list.replace(i, unset_own(element, step, rest));
    }
    list
}

#[cycle(unset)]
fn unset_own(element: Value, step: &Name, rest: &[Name]) -> Value
    ensures { tree_of result ≡ in_own (the_unset (step.now ∷ rest.now)) (tree_of element) }
{
    match element {
        Value::Doc(doc) => Value::Doc(unset_field(doc, step, rest)),
        kept => kept,
    }
}
