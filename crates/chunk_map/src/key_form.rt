//! Keys in a cluster file.

ghost use Rattle.std.specs.Prelude.{◌≡◌, ◌<◌, Some, None, map, length, slice_get, option_map, option_and_then, IfOk, if◌then◌else◌};
ghost use Rattle.bson_value.specs.Path.{pieces};
ghost use Rattle.chunk_map.specs.Form.{all_of, is_path_text, path_in, paths_in, same_names, values_in};

use crate::fields::is_one;
use bson_value::{Doc, List, NoMemory, Path, PathError};
use std::alloc::Global;

// The path of a text, if it is one.
fn read_path(alloc: Global, text: &[u8]) -> Result<Option<Path>, NoMemory>
    ensures { IfOk result (λ o. o ≡ (if is_path_text text.now then Some (pieces text.now) else None)) }
{
    match Path::read(alloc, text) {
        Ok(path) => Ok(Some(path)),
        Err(PathError::Bad) => Ok(None),
        Err(PathError::Memory) => Err(NoMemory),
    }
}

fn path_at(alloc: Global, key: &Doc, i: usize) -> Result<Option<Path>, NoMemory>
    requires { i < length key.now }
    ensures { IfOk result (λ o. o ≡ option_and_then path_in (slice_get key.now i)) }
{
    if is_one(key.value(i)) {
        read_path(alloc, key.name(i))
    } else {
        Ok(None)
    }
}

fn read_each(alloc: Global, key: &Doc) -> Result<Option<Vec<Path>>, NoMemory>
    ensures { IfOk result (λ o. option_map (λ v. v.items) o ≡ all_of path_in key.now) }
{
    let mut paths = Vec::new(alloc);
    for i in 0..key.len() {
        let Some(path) = path_at(alloc, key, i)? else {
            return Ok(None);
        };
        paths.push(path)?;
    }
    Ok(Some(paths))
}

/// The paths of a key.
#[tactic(auto, unfolding(crate::specs::Form::paths_in))]
pub fn read_paths(alloc: Global, key: &Doc) -> Result<Option<Vec<Path>>, NoMemory>
    ensures { IfOk result (λ o. option_map (λ v. v.items) o ≡ paths_in key.now) }
{
    if 1 <= key.len() && key.len() <= 4 {
        read_each(alloc, key)
    } else {
        Ok(None)
    }
}

fn same_names(key: &Doc, doc: &Doc) -> bool
    ensures { result ≡ same_names key.now doc.now }
{
    if key.len() != doc.len() {
        return false;
    }
    for i in 0..key.len() {
        if key.name(i) != doc.name(i) {
            return false;
        }
    }
    true
}

fn copy_values(alloc: Global, doc: &Doc) -> Result<List, NoMemory>
    ensures { IfOk result (λ l. l ≡ map (λ p. p.1) doc.now) }
{
    let mut values = List::new(alloc);
    for i in 0..doc.len() {
        values.add(doc.value(i).copy(alloc)?)?;
    }
    Ok(values)
}

/// The values at the key's paths, where the document has these names in the key's order.
#[tactic(auto, unfolding(crate::specs::Form::values_in))]
pub fn read_values(alloc: Global, key: &Doc, doc: &Doc) -> Result<Option<List>, NoMemory>
    ensures { IfOk result (λ o. o ≡ values_in key.now doc.now) }
{
    if same_names(key, doc) {
        Ok(Some(copy_values(alloc, doc)?))
    } else {
        Ok(None)
    }
}
