ghost use Rattle.std.specs.Prelude.{◌≡◌, ◌==◌, ◌++◌, [], None, length, IfOk, OnOk};
ghost use Rattle.std.specs.List.{list_any};
ghost use Rattle.std.specs.Option.{option_map, option_map_or};
ghost use Rattle.bson_value.specs.View.{tree_of};
ghost use Rattle.bson_value.specs.Tree.{pairs_of, trees_of, no_pairs, entries, members};
ghost use Rattle.bson_value.specs.Pairs.{find};
ghost use Rattle.bson_value.specs.Paths.{keep as the_keep, keep_part as part_kept, field_before};
ghost use Rattle.doc_path.specs.Kept.{steps_in, rests_in, left_of, kept_by, doc_kept_by, docs_kept_by};

use crate::expression_path::add_found;
use crate::groups::{Groups, group};
use bson_value::{Doc, List, Name, NoMemory, Path, Value};
use std::alloc::Global;

/// The document of the fields that the paths name, in their stored order (the manual, `$project`, inclusion). Within an
/// array the documents are kept, each with the named fields, and its other elements are dropped; so is a scalar that a
/// path leads through. The paths are looked up by their next step, and what stays is moved.
pub fn keep(alloc: Global, doc: Doc, paths: &[Path]) -> Result<Doc, NoMemory>
    ensures { IfOk result (λ d. d ≡ the_keep paths.now doc) }
{
    let all = all_steps(alloc, paths)?;
    let groups = group(alloc, all.as_slice())?;
    keep_fields(alloc, doc, &groups)
}

fn all_steps<'a>(alloc: Global, paths: &'a [Path]) -> Result<Vec<&'a [Name]>, NoMemory>
    ensures { IfOk result (λ v. steps_in v.items ≡ paths.now) }
{
    let mut all = Vec::new(alloc);
    for path in paths {
        all.push(path.steps())?;
    }
    Ok(all)
}

#[cycle(keep)]
fn keep_fields(alloc: Global, doc: Doc, groups: &Groups<'_>) -> Result<Doc, NoMemory>
    ensures { IfOk result (λ d. d ≡ entries (kept_by (rests_in groups.now) (pairs_of doc))) }
{
    doc.known();
    let mut kept = Doc::new(alloc);
    let mut fields = doc.into_fields();
    while let Some((name, value)) = fields.next() {
        let left = keep_value(alloc, value, groups.get(name.bytes()))?;
        add_left(&mut kept, name, left)?;
    }
    Ok(kept)
}

fn add_left(kept: &mut Doc, name: Name, left: Option<Value>) -> Result<(), NoMemory>
    requires { find name kept.old ≡ None }
    ensures { OnOk result (kept.new ≡ kept.old ++ entries (field_before name (option_map tree_of left) no_pairs)) }
{
    match left {
        Some(value) => kept.append(name, value),
        None => Ok(()),
    }
}

fn ends_here(rests: &[&[Name]]) -> bool
    ensures { result ≡ list_any (λ r. length r.now == 0) rests.now }
{
    rests.iter().any(|rest| rest.is_empty())
}

#[cycle(keep)]
fn keep_value(
    alloc: Global,
    value: Value,
    rests: Option<&Vec<&[Name]>>,
) -> Result<Option<Value>, NoMemory>
    ensures { IfOk result (λ o. option_map tree_of o ≡ left_of (option_map_or (λ v. steps_in v.now.items) rests.entry []) (tree_of value)) }
{
    match rests {
        Some(rests) => keep_left(alloc, value, rests.as_slice()),
        None => Ok(None),
    }
}

#[cycle(keep)]
fn keep_left(alloc: Global, value: Value, rests: &[&[Name]]) -> Result<Option<Value>, NoMemory>
    ensures { IfOk result (λ o. option_map tree_of o ≡ left_of (steps_in rests.now) (tree_of value)) }
{
    if rests.is_empty() {
        Ok(None)
    } else if ends_here(rests) {
        Ok(Some(value))
    } else {
        keep_part(alloc, value, rests)
    }
}

#[cycle(keep)]
fn keep_part(alloc: Global, value: Value, rests: &[&[Name]]) -> Result<Option<Value>, NoMemory>
    ensures { IfOk result (λ o. option_map tree_of o ≡ part_kept (steps_in rests.now) (tree_of value)) }
{
    match value {
        Value::Doc(doc) => {
            let groups = group(alloc, rests)?;
            Ok(Some(Value::Doc(keep_fields(alloc, doc, &groups)?)))
        }
        Value::List(list) => {
            let groups = group(alloc, rests)?;
            Ok(Some(Value::List(keep_docs(alloc, list, &groups)?)))
        }
        _ => Ok(None),
    }
}

#[cycle(keep)]
fn keep_docs(alloc: Global, list: List, groups: &Groups<'_>) -> Result<List, NoMemory>
    ensures { IfOk result (λ l. l ≡ members (docs_kept_by (rests_in groups.now) (trees_of list))) }
{
    let mut kept = List::new(alloc);
    let mut items = list.into_items();
    while let Some(item) = items.next() {
        let left = keep_member(alloc, item, groups)?;
        add_found(&mut kept, left)?;
    }
    Ok(kept)
}

#[cycle(keep)]
fn keep_member(alloc: Global, item: Value, groups: &Groups<'_>) -> Result<Option<Value>, NoMemory>
    ensures { IfOk result (λ o. option_map tree_of o ≡ doc_kept_by (rests_in groups.now) (tree_of item)) }
{
    match item {
        Value::Doc(doc) => Ok(Some(Value::Doc(keep_fields(alloc, doc, groups)?))),
        _ => Ok(None),
    }
}
