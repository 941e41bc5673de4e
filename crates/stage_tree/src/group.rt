ghost use Rattle.std.specs.Prelude.{◌≡◌, IfOk};

use crate::row::Row;
use bson_value::{AccKind, Name, NoMemory};
use expr_tree::Expr;
use std::alloc::Global;

/// `$group` (the manual, `$group`).
#[derive(Drop)]
pub struct Group {
    /// The expression of the key, `_id`.
    pub key: Expr,
    /// The accumulators: the name of the field, the kind and the argument.
    pub parts: Row<(Name, AccKind, Expr)>,
    /// The groups are left unfinished, to be joined with others.
    pub partial: bool,
}

impl Group {
    /// An equal stage.
    pub fn copy(&self, alloc: Global) -> Result<Group, NoMemory>
        ensures { IfOk result (λ g. g ≡ self.now) }
    {
        Ok(Group {
            key: self.key.copy(alloc)?,
            parts: self.parts.copy(alloc)?,
            partial: self.partial,
        })
    }
}
