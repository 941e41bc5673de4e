//! `$unwind`, and what else is read of paths: `$unset` and `$sort`.

ghost use Rattle.std.specs.Prelude.{◌≡◌, [], ◌∷◌, Option, codes};
ghost use Rattle.std.specs.Option.{option_map};
ghost use Rattle.bson_value.specs.Pairs.{find};
ghost use Rattle.bson_value.specs.Paths.{Steps};
ghost use Rattle.bson_value.specs.View.{tree_of};
ghost use Rattle.expr_read.specs.Reads.{Reads};
ghost use Rattle.stage_tree.specs.StageView.{stage_of};
ghost use Rattle.stage_parts.specs.Each.{each};
ghost use Rattle.stage_parts.specs.Names.{has_only};
ghost use Rattle.stage_parts.specs.Paths.{are_apart, path_text};
ghost use Rattle.stage_parts.specs.Values.{as_items};
ghost use Rattle.stage_forms.specs.Reading.{one_path, some_paths, unset_from, unset_of, unset_reading, unwind_of, index_reading, preserve_reading, unwind_parts, path_at, unwind_fields, unwind_path, unwind_reading, sort_reading};
ghost use Rattle.stage_forms.specs.Written.{paths_of};

use bson_value::{Doc, List, Path, Value};
use expr_read::FormError;
use stage_parts::{
    are_apart, doc_in, flag_in, has_only, is_apart, list_in, read_field_path, read_keys,
    read_path_text,
};
use stage_tree::{Row, Sort, Stage, Unwind};
use std::alloc::Global;

fn one_path(alloc: Global, value: &Value) -> Result<Row<Path>, FormError>
    ensures { Reads (λ ps. ps) result (one_path (tree_of value.now)) }
{
    let path = read_path_text(alloc, value)?;
    let mut paths = Row::new(alloc);
    paths.add(path)?;
    Ok(paths)
}

fn each_path(alloc: Global, list: &List) -> Result<Row<Path>, FormError>
    ensures { Reads (λ ps. ps) result (each path_text list.now) }
{
    let mut paths = Row::new(alloc);
    for i in 0..list.len() {
        let path = read_path_text(alloc, list.value(i))?;
        paths.add(path)?;
    }
    Ok(paths)
}

fn some_paths(alloc: Global, list: &List) -> Result<Row<Path>, FormError>
    ensures { Reads (λ ps. ps) result (some_paths list.now) }
{
    if list.len() == 0 {
        Err(FormError::Form)
    } else {
        each_path(alloc, list)
    }
}

fn unset_paths(alloc: Global, value: &Value) -> Result<Row<Path>, FormError>
    ensures { Reads (λ ps. ps) result (unset_from (as_items (tree_of value.now)) (tree_of value.now)) }
{
    match list_in(value) {
        Some(list) => some_paths(alloc, list),
        None => one_path(alloc, value),
    }
}

fn unset_of(alloc: Global, paths: Row<Path>) -> Result<Stage, FormError>
    ensures { Reads stage_of result (unset_of paths) }
{
    if are_apart(alloc, paths.items())? {
        Ok(Stage::Unset(paths))
    } else {
        Err(FormError::Form)
    }
}

/// `$unset`
pub fn read_unset(alloc: Global, value: &Value) -> Result<Stage, FormError>
    ensures { Reads stage_of result (unset_reading (tree_of value.now)) }
{
    let paths = unset_paths(alloc, value)?;
    unset_of(alloc, paths)
}

/// `$sort`
pub fn read_sort(alloc: Global, value: &Value) -> Result<Stage, FormError>
    ensures { Reads stage_of result (sort_reading (tree_of value.now)) }
{
    match doc_in(value) {
        Some(doc) => {
            let keys = read_keys(alloc, doc)?;
            Ok(Stage::Sort(Sort { keys, cap: None }))
        }
        None => Err(FormError::Form),
    }
}

fn path_at(alloc: Global, doc: &Doc, name: &[u8]) -> Result<Path, FormError>
    ensures { Reads (λ p. p) result (path_at name.now doc.now) }
{
    match doc.get(name) {
        Some(value) => read_field_path(alloc, value),
        None => Err(FormError::Form),
    }
}

// The path of the index, where there is a value for it.
fn read_index(alloc: Global, value: Option<&Value>) -> Result<Option<Path>, FormError>
    ensures { Reads (λ p. p) result (index_reading (option_map (λ v. tree_of v.now) value.entry)) }
{
    match value {
        Some(value) => {
            let path = read_path_text(alloc, value)?;
            Ok(Some(path))
        }
        None => Ok(None),
    }
}

fn read_preserve(value: Option<&Value>) -> Option<bool>
    ensures { result ≡ preserve_reading (option_map (λ v. tree_of v.now) value.entry) }
{
    match value {
        Some(value) => flag_in(value),
        None => Some(false),
    }
}

fn two_apart(path: &Path, index: &Option<Path>) -> bool
    ensures { result ≡ are_apart (paths_of path.now index.now) }
{
    match index {
        Some(index) => is_apart(path, index),
        None => true,
    }
}

fn unwind_of(path: Path, index: Option<Path>, preserve: bool) -> Result<Stage, FormError>
    ensures { Reads stage_of result (unwind_of path index preserve) }
{
    if two_apart(&path, &index) {
        Ok(Stage::Unwind(Unwind {
            path,
            index,
            preserve,
        }))
    } else {
        Err(FormError::Form)
    }
}

fn unwind_parts(
    path: Result<Path, FormError>,
    index: Result<Option<Path>, FormError>,
    preserve: Option<bool>,
) -> Result<Stage, FormError>
    ensures { (p : Option Steps) (i : Option (Option Steps)) → Reads (λ x. x) path p → Reads (λ x. x) index i → Reads stage_of result (unwind_parts p i preserve) }
{
    let path = path?;
    let index = index?;
    match preserve {
        Some(preserve) => unwind_of(path, index, preserve),
        None => Err(FormError::Form),
    }
}

const REQUIRED: [&[u8]; 1] = [b"path"];

const OPTIONAL: [&[u8]; 2] = [b"includeArrayIndex", b"preserveNullAndEmptyArrays"];

fn has_names(doc: &Doc) -> bool
    ensures { result ≡ has_only (codes "path" ∷ []) (codes "includeArrayIndex" ∷ codes "preserveNullAndEmptyArrays" ∷ []) doc.now }
{
    has_only(doc, &REQUIRED, &OPTIONAL)
}

fn index_in(alloc: Global, doc: &Doc) -> Result<Option<Path>, FormError>
    ensures { Reads (λ p. p) result (index_reading (find (codes "includeArrayIndex") doc.now)) }
{
    read_index(alloc, doc.get(b"includeArrayIndex"))
}

fn preserve_in(doc: &Doc) -> Option<bool>
    ensures { result ≡ preserve_reading (find (codes "preserveNullAndEmptyArrays") doc.now) }
{
    read_preserve(doc.get(b"preserveNullAndEmptyArrays"))
}

fn unwind_named(alloc: Global, doc: &Doc) -> Result<Stage, FormError>
    ensures { Reads stage_of result (unwind_parts (path_at (codes "path") doc.now) (index_reading (find (codes "includeArrayIndex") doc.now)) (preserve_reading (find (codes "preserveNullAndEmptyArrays") doc.now))) }
{
    let path = path_at(alloc, doc, b"path");
    let index = index_in(alloc, doc);
    let preserve = preserve_in(doc);
    unwind_parts(path, index, preserve)
}

fn unwind_fields(alloc: Global, doc: &Doc) -> Result<Stage, FormError>
    ensures { Reads stage_of result (unwind_fields doc.now) }
{
    if has_names(doc) {
        unwind_named(alloc, doc)
    } else {
        Err(FormError::Form)
    }
}

fn unwind_path(alloc: Global, value: &Value) -> Result<Stage, FormError>
    ensures { Reads stage_of result (unwind_path (tree_of value.now)) }
{
    let path = read_field_path(alloc, value)?;
    Ok(Stage::Unwind(Unwind {
        path,
        index: None,
        preserve: false,
    }))
}

/// `$unwind`
pub fn read_unwind(alloc: Global, value: &Value) -> Result<Stage, FormError>
    ensures { Reads stage_of result (unwind_reading (tree_of value.now)) }
{
    match doc_in(value) {
        Some(doc) => unwind_fields(alloc, doc),
        None => unwind_path(alloc, value),
    }
}
