ghost use Rattle.std.specs.Prelude.{◌≡◌, IfOk};

use crate::copied::copy_path;
use bson_value::{NoMemory, Path};
use std::alloc::Global;

/// `$unwind` (the manual, `$unwind`).
#[derive(Drop)]
pub struct Unwind {
    /// The path of the array.
    pub path: Path,
    /// `includeArrayIndex`: the path that is set to the element's place.
    pub index: Option<Path>,
    /// `preserveNullAndEmptyArrays`
    pub preserve: bool,
}

impl Unwind {
    /// An equal stage.
    pub fn copy(&self, alloc: Global) -> Result<Unwind, NoMemory>
        ensures { IfOk result (λ u. u ≡ self.now) }
    {
        Ok(Unwind {
            path: self.path.copy(alloc)?,
            index: copy_path(alloc, &self.index)?,
            preserve: self.preserve,
        })
    }
}
