ghost use Rattle.std.specs.Prelude.{◌≡◌, IfOk};

use bson_value::{NoMemory, Text};
use std::alloc::Global;

/// `whenMatched` of a `$merge`.
#[derive(Clone, Copy, Debug, PartialEq, Eq)]
pub enum WhenMatched {
    /// The result stands in the held document's place.
    Replace,
    /// The held document stays.
    KeepExisting,
    /// Each field of the result is put into the held document.
    Merge,
    /// The run fails.
    Fail,
}

/// `whenNotMatched` of a `$merge`.
#[derive(Clone, Copy, Debug, PartialEq, Eq)]
pub enum WhenUnmatched {
    /// The result is appended.
    Insert,
    /// The result is left out.
    Discard,
    /// The run fails.
    Fail,
}

/// `$merge` (the manual, `$merge`).
#[derive(Drop)]
pub struct Merge {
    /// `into`: the name of the collection.
    pub target: Text,
    /// What happens where a held document has the result's `_id`.
    pub matched: WhenMatched,
    /// What happens where none has it.
    pub unmatched: WhenUnmatched,
}

impl Merge {
    /// An equal stage.
    pub fn copy(&self, alloc: Global) -> Result<Merge, NoMemory>
        ensures { IfOk result (λ m. m ≡ self.now) }
    {
        Ok(Merge {
            target: self.target.copy(alloc)?,
            matched: self.matched,
            unmatched: self.unmatched,
        })
    }
}
