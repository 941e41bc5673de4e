//! The names of the pairs that were read so far, among which the next may not be.

ghost use Rattle.std.specs.Prelude.{◌≡◌, ◌∷◌, ◌++◌, ◌≤◌, [], take, length, is_some, None, OnOk};
ghost use Rattle.bson_value.specs.Tree.{Tree};
ghost use Rattle.bson_value.specs.Pairs.{find};
ghost use Rattle.bson_codec.specs.Seen.{HasLater};

use bson_value::{Doc, NoMemory};
use std::alloc::Global;
use std::collections::BTreeMap;

/// How many names are compared one by one. The names behind these go into a search tree, so that a small document
/// needs none and a wide one isn't searched from its begin for each name.
pub const FEW: usize = 16;

fn is_among_few(doc: &Doc, name: &[u8]) -> bool
    ensures { result ≡ is_some (find name.now (take FEW doc.now)) }
{
    let len = doc.len().min(FEW);
    for i in 0..len {
        if doc.name(i) == name {
            return true;
        }
    }
    false
}

/// Whether a pair of the document has this name.
pub fn is_named(doc: &Doc, later: &BTreeMap<&[u8], ()>, name: &[u8]) -> bool
    requires { HasLater later.now doc.now }
    ensures { result ≡ is_some (find name.now doc.now) }
{
    is_among_few(doc, name) || later.contains_key(name)
}

/// Keeps the name of a pair that is appended next.
pub fn keep_name<'a>(
    doc: &Doc,
    later: &mut BTreeMap<&'a [u8], ()>,
    name: &'a [u8],
) -> Result<(), NoMemory>
    requires { HasLater later.old doc.now }
    ensures { OnOk result ((t : Tree) → HasLater later.new (doc.now ++ (name.now, t) ∷ [])) }
{
    if doc.len() >= FEW {
        later.insert(name, ())?;
    }
    Ok(())
}
