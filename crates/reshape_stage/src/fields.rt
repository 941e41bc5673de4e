//! Documents of which some fields stay, or of which one comes first.

ghost use Rattle.std.specs.Prelude.{◌≡◌, ◌∷◌, ◌++◌, [], None, IfOk, OnOk};
ghost use Rattle.std.specs.List.{list_any};
ghost use Rattle.std.specs.Str.{bytes_eq};
ghost use Rattle.bson_value.specs.View.{tree_of};
ghost use Rattle.bson_value.specs.Pairs.{find};
ghost use Rattle.bson_value.specs.Tree.{entries, no_pairs};
ghost use Rattle.bson_value.specs.Paths.{keep as the_keep, field_before};
ghost use Rattle.reshape_stage.specs.Seen.{kept_if};
ghost use Rattle.stage_tree.specs.Rows.{id_name, id_first as the_id_first, steps_of};

use bson_value::{Doc, Name, NoMemory, Path, Value};
use std::alloc::Global;

/// The path `_id`.
pub(crate) fn id_path(alloc: Global) -> Result<Path, NoMemory>
    ensures { IfOk result (λ p. p ≡ id_name ∷ []) }
{
    match Path::read(alloc, b"_id") {
        Ok(path) => Ok(path),
        Err(_) => Err(NoMemory), // the text is a path's
    }
}

fn is_named(names: &[Name], name: &[u8]) -> bool
    ensures { result ≡ list_any (λ n. bytes_eq n name.now) names.now }
{
    names.iter().any(|other| other.bytes() == name)
}

/// The document of the fields of these names, in their stored order. What stays is moved.
pub(crate) fn keep_named(alloc: Global, doc: Doc, names: &[Name]) -> Result<Doc, NoMemory>
    ensures { IfOk result (λ d. d ≡ the_keep (steps_of names.now) doc) }
{
    doc.known();
    let mut kept = Doc::new(alloc);
    let mut fields = doc.into_fields();
    while let Some((name, value)) = fields.next() {
        let wanted = is_named(names, name.bytes());
        add_if(&mut kept, wanted, name, value)?;
    }
    Ok(kept)
}

fn add_if(kept: &mut Doc, wanted: bool, name: Name, value: Value) -> Result<(), NoMemory>
    requires { find name kept.old ≡ None }
    ensures { OnOk result (kept.new ≡ kept.old ++ entries (field_before name (kept_if wanted (tree_of value)) no_pairs)) }
{
    if wanted {
        kept.append(name, value)
    } else {
        Ok(())
    }
}

/// The document with `_id`, where it has one, in front of the other fields.
pub(crate) fn id_first(alloc: Global, doc: Doc) -> Result<Doc, NoMemory>
    ensures { IfOk result (λ d. d ≡ the_id_first doc) }
{
    let mut doc = doc;
    doc.known();
    let Some(place) = doc.place(b"_id") else {
        return Ok(doc);
    };
    if place == 0 {
        return Ok(doc);
    }
    match doc.take(b"_id") {
        Some(id) => put_first(alloc, id, doc),
        None => Ok(doc),
    }
}

fn put_first(alloc: Global, id: Value, rest: Doc) -> Result<Doc, NoMemory>
    requires { find id_name rest ≡ None }
    ensures { IfOk result (λ d. d ≡ (id_name, tree_of id) ∷ rest) }
{
    let Ok(name) = Name::read(alloc, b"_id") else {
        return Err(NoMemory); // the text is a name
    };
    rest.known();
    let mut doc = Doc::new(alloc);
    doc.append(name, id)?;
    let mut fields = rest.into_fields();
    while let Some((name, value)) = fields.next() {
        doc.append(name, value)?;
    }
    Ok(doc)
}
