//! Documents that are moved from one list to another.

ghost use Rattle.std.specs.Prelude.{◌≡◌, ◌++◌, [], OnOk};

use bson_value::{Docs, NoMemory};

/// Drops all documents of the list, whose room stays.
pub(crate) fn clear(docs: &mut Docs)
    ensures { docs.new ≡ [] }
{
    while let Some(_doc) = docs.take_first() {}
}

/// Moves all documents behind those of the other list.
pub(crate) fn move_all(docs: &mut Docs, out: &mut Docs) -> Result<(), NoMemory>
    ensures { OnOk result (out.new ≡ out.old ++ docs.old) }
{
    while let Some(doc) = docs.take_first() {
        out.add(doc)?;
    }
    Ok(())
}
