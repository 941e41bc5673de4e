//! Documents and arrays that are made of values.

ghost use Rattle.std.specs.Prelude.{◌≡◌, ◌∷◌, [], true, map, IfOk, OnOk};
ghost use Rattle.std.specs.Option.{option_map};
ghost use Rattle.bson_value.specs.Pairs.{put};
ghost use Rattle.bson_value.specs.View.{tree_of, founds};
ghost use Rattle.bson_value.specs.Gives.{Gives};
ghost use Rattle.bson_value.specs.Operands.{or_null as the_or_null};
ghost use Rattle.bson_value.specs.Operators.{operator};
ghost use Rattle.expr_tree.specs.Rows.{put_all, put_found as found_put, kept_if};
ghost use Rattle.expr_eval.specs.Seen.{HasNames};

use crate::values::or_null;
use bson_value::{Doc, EvalError, List, Name, NoMemory, Op, Value};
use std::alloc::Global;
use std::collections::{BTreeMap, VecDeque};
use value_ops::apply;

// A document of more names than this isn't searched for each of them: a search tree has those that it holds.
const FEW: usize = 16;

/// The document of the names and the values, without those that are missing.
pub(crate) fn made_doc<'a>(
    alloc: Global,
    names: &'a [Name],
    values: Vec<Option<Value>>,
) -> Result<Doc, NoMemory>
    ensures { IfOk result (λ d. d ≡ put_all [] names.now (founds values.items)) }
{
    let many = names.len() > FEW;
    let mut held = BTreeMap::new(alloc);
    let mut values = VecDeque::from(values);
    let mut doc = Doc::new(alloc);
    for name in names {
        match values.pop_front() {
            Some(value) => put_found(alloc, &mut doc, many, &mut held, name, value)?,
            None => return Ok(doc),
        }
    }
    Ok(doc)
}

// Puts a value that isn't missing. Where there are many names, `held` has those of the document.
fn put_found<'a>(
    alloc: Global,
    doc: &mut Doc,
    many: bool,
    held: &mut BTreeMap<&'a [u8], ()>,
    name: &'a Name,
    value: Option<Value>,
) -> Result<(), NoMemory>
    requires { many ≡ true → HasNames held.old doc.old }
    ensures doc { OnOk result (doc.new ≡ found_put name.now (option_map tree_of value) doc.old) }
    ensures held { OnOk result (many ≡ true → HasNames held.new doc.new) }
{
    match value {
        None => Ok(()),
        Some(value) if many => put_held(alloc, doc, held, name, value),
        Some(value) => doc.put(name.copy(alloc)?, value),
    }
}

// Puts a value, and keeps its name among those of the document.
fn put_held<'a>(
    alloc: Global,
    doc: &mut Doc,
    held: &mut BTreeMap<&'a [u8], ()>,
    name: &'a Name,
    value: Value,
) -> Result<(), NoMemory>
    requires { HasNames held.old doc.old }
    ensures doc { OnOk result (doc.new ≡ put name.now (tree_of value) doc.old) }
    ensures held { OnOk result (HasNames held.new doc.new) }
{
    let found = held.insert(name.bytes(), ())?;
    let name = name.copy(alloc)?;
    match found {
        Some(()) => doc.put(name, value),
        None => doc.append(name, value),
    }
}

/// The array of the values, missing ones as null.
pub(crate) fn made_list(alloc: Global, values: Vec<Option<Value>>) -> Result<List, NoMemory>
    ensures { IfOk result (λ l. l ≡ map the_or_null (founds values.items)) }
{
    let mut list = List::new(alloc);
    for value in values {
        list.add(or_null(value))?;
    }
    Ok(list)
}

/// Appends the value where it is kept.
pub(crate) fn add_if(list: &mut List, keep: bool, value: Value) -> Result<(), NoMemory>
    ensures { OnOk result (list.new ≡ kept_if keep list.old (tree_of value)) }
{
    if keep { list.add(value) } else { Ok(()) }
}

/// What the operator gives on the values.
pub(crate) fn apply_all(
    alloc: Global,
    op: Op,
    values: Vec<Option<Value>>,
) -> Result<Option<Value>, EvalError>
    ensures { Gives (option_map tree_of) result (operator op (founds values.items)) }
{
    apply(alloc, op, values.as_slice())
}

/// What the operator gives on one value.
pub(crate) fn apply_one(
    alloc: Global,
    op: Op,
    value: Option<Value>,
) -> Result<Option<Value>, EvalError>
    ensures { Gives (option_map tree_of) result (operator op (option_map tree_of value ∷ [])) }
{
    apply(alloc, op, &[value])
}

/// What the operator gives on two values.
pub(crate) fn apply_two(
    alloc: Global,
    op: Op,
    first: Option<Value>,
    second: Option<Value>,
) -> Result<Option<Value>, EvalError>
    ensures { Gives (option_map tree_of) result (operator op (option_map tree_of first ∷ option_map tree_of second ∷ [])) }
{
    apply(alloc, op, &[first, second])
}
