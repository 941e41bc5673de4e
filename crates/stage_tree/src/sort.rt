ghost use Rattle.std.specs.Prelude.{◌≡◌, IfOk};

use crate::row::Row;
use bson_value::{NoMemory, Path};
use std::alloc::Global;

/// `$sort` (the manual, `$sort`), of which only the first documents may be wanted.
#[derive(Drop)]
pub struct Sort {
    /// The paths, each with true for falling order.
    pub keys: Row<(Path, bool)>,
    /// How many documents are wanted.
    pub cap: Option<u64>,
}

impl Sort {
    /// An equal stage.
    pub fn copy(&self, alloc: Global) -> Result<Sort, NoMemory>
        ensures { IfOk result (λ s. s ≡ self.now) }
    {
        Ok(Sort {
            keys: self.keys.copy(alloc)?,
            cap: self.cap,
        })
    }
}
