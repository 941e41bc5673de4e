//! Sort keys.

ghost use Rattle.std.specs.Prelude.{◌≡◌};
ghost use Rattle.bson_value.specs.View.{tree_of};
ghost use Rattle.expr_read.specs.Reads.{Reads};
ghost use Rattle.stage_parts.specs.Each.{each};
ghost use Rattle.stage_parts.specs.Keys.{falls, direction, sort_key, sort_keys};

use crate::paths::read_path;
use crate::values::whole_in;
use bson_value::{Doc, Path, Value};
use expr_read::FormError;
use stage_tree::Row;
use std::alloc::Global;

// The most paths of a sort.
const MOST_KEYS: usize = 32;

fn falls(n: i64) -> Option<bool>
    ensures { result ≡ falls n }
{
    if n == 1 {
        Some(false)
    } else if n == -1 {
        Some(true)
    } else {
        None
    }
}

fn direction(value: &Value) -> Option<bool>
    ensures { result ≡ direction (tree_of value.now) }
{
    match whole_in(value) {
        Some(n) => falls(n),
        None => None,
    }
}

fn read_key(alloc: Global, name: &[u8], value: &Value) -> Result<(Path, bool), FormError>
    ensures { Reads (λ k. k) result (sort_key (name.now, tree_of value.now)) }
{
    let path = read_path(alloc, name)?;
    match direction(value) {
        Some(falling) => Ok((path, falling)),
        None => Err(FormError::Form),
    }
}

fn read_all(alloc: Global, doc: &Doc) -> Result<Row<(Path, bool)>, FormError>
    ensures { Reads (λ ks. ks) result (each sort_key doc.now) }
{
    let mut keys = Row::new(alloc);
    for i in 0..doc.len() {
        let name = doc.name(i);
        let value = doc.value(i);
        let key = read_key(alloc, name, value)?;
        keys.add(key)?;
    }
    Ok(keys)
}

/// Sort keys: 1 to 32 paths, each with 1 for rising or -1 for falling order (the manual, `$sort`). The flag is true for
/// falling order. Another document is refused as `Form`.
pub fn read_keys(alloc: Global, doc: &Doc) -> Result<Row<(Path, bool)>, FormError>
    ensures { Reads (λ ks. ks) result (sort_keys doc.now) }
{
    let len = doc.len();
    if 1 <= len && len <= MOST_KEYS {
        read_all(alloc, doc)
    } else {
        Err(FormError::Form)
    }
}
