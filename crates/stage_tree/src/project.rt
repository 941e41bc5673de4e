ghost use Rattle.std.specs.Prelude.{◌≡◌, IfOk};

use crate::row::Row;
use bson_value::{NoMemory, Path};
use expr_tree::Expr;
use std::alloc::Global;

/// `$project` (the manual, `$project`): an inclusion, or an exclusion, whose made fields don't count.
#[derive(Drop)]
pub struct Project {
    /// `_id` as it is stays.
    pub keeps_id: bool,
    /// The paths are removed, and everything else stays.
    pub excludes: bool,
    /// The paths that are kept or removed.
    pub paths: Row<Path>,
    /// The paths that are set, each with its expression, in the order in which they were written.
    pub made: Row<(Path, Expr)>,
}

impl Project {
    /// An equal stage.
    pub fn copy(&self, alloc: Global) -> Result<Project, NoMemory>
        ensures { IfOk result (λ p. p ≡ self.now) }
    {
        Ok(Project {
            keeps_id: self.keeps_id,
            excludes: self.excludes,
            paths: self.paths.copy(alloc)?,
            made: self.made.copy(alloc)?,
        })
    }
}
