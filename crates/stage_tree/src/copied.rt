ghost use Rattle.std.specs.Prelude.{◌≡◌, IfOk};

use crate::item::Item;
use crate::window::WindowFn;
use bson_value::{AccKind, Name, NoMemory, Path};
use expr_tree::Expr;
use std::alloc::Global;

/// What can be copied where memory is given.
pub trait Copied: Sized {
    /// An equal value.
    fn copied(&self, alloc: Global) -> Result<Self, NoMemory>
        ensures { IfOk result (λ x. x ≡ self.now) };
}

impl Copied for u32 {
    fn copied(&self, _alloc: Global) -> Result<u32, NoMemory> {
        Ok(*self)
    }
}

impl Copied for Name {
    fn copied(&self, alloc: Global) -> Result<Name, NoMemory> {
        self.copy(alloc)
    }
}

impl Copied for Path {
    fn copied(&self, alloc: Global) -> Result<Path, NoMemory> {
        self.copy(alloc)
    }
}

impl Copied for Item {
    fn copied(&self, alloc: Global) -> Result<Item, NoMemory> {
        self.copy(alloc)
    }
}

impl Copied for (Path, bool) {
    fn copied(&self, alloc: Global) -> Result<(Path, bool), NoMemory> {
        Ok((self.0.copy(alloc)?, self.1))
    }
}

impl Copied for (Path, Expr) {
    fn copied(&self, alloc: Global) -> Result<(Path, Expr), NoMemory> {
        Ok((self.0.copy(alloc)?, self.1.copy(alloc)?))
    }
}

impl Copied for (Path, WindowFn) {
    fn copied(&self, alloc: Global) -> Result<(Path, WindowFn), NoMemory> {
        Ok((self.0.copy(alloc)?, self.1.copy(alloc)?))
    }
}

impl Copied for (Name, AccKind, Expr) {
    fn copied(&self, alloc: Global) -> Result<(Name, AccKind, Expr), NoMemory> {
        Ok((self.0.copy(alloc)?, self.1, self.2.copy(alloc)?))
    }
}

/// A copy of a path that may not be there.
pub(crate) fn copy_path(alloc: Global, path: &Option<Path>) -> Result<Option<Path>, NoMemory>
    ensures { IfOk result (λ p. p ≡ path.now) }
{
    match path {
        Some(path) => Ok(Some(path.copy(alloc)?)),
        None => Ok(None),
    }
}
