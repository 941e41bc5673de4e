ghost use Rattle.std.specs.Prelude.{◌≡◌, IfOk};

use crate::unwind::Unwind;
use bson_value::{NoMemory, Path, Text};
use std::alloc::Global;

/// `$lookup` by an equal value (the manual, `$lookup`), and the `$unwind` of its array where that was joined to it.
#[derive(Drop)]
pub struct Lookup {
    /// `from`: the name of the other collection.
    pub foreign: Text,
    /// `localField`
    pub local: Path,
    /// `foreignField`
    pub field: Path,
    /// `as`
    pub target: Path,
    /// The `$unwind` that follows.
    pub unwind: Option<Unwind>,
}

impl Lookup {
    /// An equal stage.
    pub fn copy(&self, alloc: Global) -> Result<Lookup, NoMemory>
        ensures { IfOk result (λ l. l ≡ self.now) }
    {
        Ok(Lookup {
            foreign: self.foreign.copy(alloc)?,
            local: self.local.copy(alloc)?,
            field: self.field.copy(alloc)?,
            target: self.target.copy(alloc)?,
            unwind: copy_unwind(alloc, &self.unwind)?,
        })
    }
}

fn copy_unwind(alloc: Global, unwind: &Option<Unwind>) -> Result<Option<Unwind>, NoMemory>
    ensures { IfOk result (λ u. u ≡ unwind.now) }
{
    match unwind {
        Some(unwind) => Ok(Some(unwind.copy(alloc)?)),
        None => Ok(None),
    }
}
