ghost use Rattle.std.specs.Prelude.{◌≡◌, IfOk};

use bson_value::NoMemory;
use expr_tree::Query;
use std::alloc::Global;

/// A condition of a Match, and the written stage that it comes from.
#[derive(Drop)]
pub struct Item {
    /// The condition.
    pub query: Query,
    /// The number of the written `$match`, counted from 1.
    pub origin: u32,
}

impl Item {
    /// An equal item.
    pub fn copy(&self, alloc: Global) -> Result<Item, NoMemory>
        ensures { IfOk result (λ i. i ≡ self.now) }
    {
        Ok(Item {
            query: self.query.copy(alloc)?,
            origin: self.origin,
        })
    }
}
