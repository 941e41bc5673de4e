//! Paths into documents.

ghost use Rattle.std.specs.Prelude.{◌≡◌, ◌<◌, ◌↔◌, IsTrue, IfOk, Some, length, slice_get, take, drop, map};
ghost use Rattle.bson_value.specs.declared.path.PathError.TheVariants.{Memory};
ghost use Rattle.bson_value.specs.Path.{IsStep, IsPath, ReadsPath, some_path};

use crate::name::{Name, has_no_zero};
use crate::no_memory::NoMemory;
use std::alloc::{AllocFailed, Global};
use std::marker::Model;

/// The greatest number of steps of a path.
const MOST_STEPS: usize = 100;

/// Why there is no path.
#[derive(Clone, Copy, Debug, PartialEq, Eq)]
pub enum PathError {
    /// The bytes spell no path.
    Bad,
    /// Memory was refused.
    Memory,
}

impl From<NoMemory> for PathError {
    ghost from_gives = { λ _ e. e ≡ Memory };

    fn from(_e: NoMemory) -> PathError {
        PathError::Memory
    }
}

impl<T: Drop> From<AllocFailed<T>> for PathError {
    ghost from_gives = { λ _ e. e ≡ Memory };

    fn from(_e: AllocFailed<T>) -> PathError {
        PathError::Memory
    }
}

/// A path into a document, from 1 to 100 steps: the names that a text in dot notation has between its
/// dots (the manual, Dot Notation).
#[derive(Debug, Drop)]
pub struct Path {
    steps: Vec<Name>,
}

impl Model for Path {
    ghost use Rattle.std.specs.Prelude.{List, ℕ};
    ghost use Rattle.bson_value.specs.Path.{IsPath};

    ghost Value = { List (List ℕ) };

    ghost view = { λ p. p.steps.items };

    ghost invariant = { λ p. IsPath p.steps.items };
}

// The text can be a step: it isn't empty, doesn't begin with a dollar sign and holds no byte 0.
fn is_step(step: &str) -> bool
    ensures { IsTrue result ↔ IsStep step.now }
{
    !step.is_empty() && step.as_bytes()[0] != b'$' && has_no_zero(step.as_bytes())
}

impl Path {
    /// The path of a text in dot notation. It is refused as bad exactly where the bytes aren't UTF-8, a
    /// step is empty, begins with `$` or holds a byte 0, or there are more than 100 steps.
    pub fn read(alloc: Global, text: &[u8]) -> Result<Path, PathError>
        ensures { ReadsPath text.now result }
    {
        let Ok(text) = str::from_utf8(text) else {
            return Err(PathError::Bad);
        };
        let mut steps = Vec::new(alloc);
        for step in text.split('.') {
            if steps.len() == MOST_STEPS || !is_step(step) {
                return Err(PathError::Bad);
            }
            steps.push(Name::of(alloc, step)?)?;
        }
        Ok(Path { steps })
    }

    /// What holds of each path. It does nothing.
    pub fn known(&self)
        ensures { IsPath self.now }
    {
        let _steps = &self.steps;
    }

    /// The number of steps, from 1 to 100.
    pub fn len(&self) -> usize
        ensures len { result ≡ length self.now }
        ensures some { 0 < result }
    {
        self.steps.len()
    }

    /// All steps, in order.
    pub fn steps(&self) -> &[Name]
        ensures { result.now ≡ self.now }
    {
        self.steps.as_slice()
    }

    /// The step at that place.
    pub fn step(&self, i: usize) -> &[u8]
        requires { i < length self.now }
        ensures item { slice_get self.now i ≡ Some result.now }
        ensures step { IsStep result.now }
    {
        self.steps[i].bytes()
    }

    /// The steps after the first, as a path. None exactly where there is one step alone.
    pub fn rest(self) -> Option<Path>
        ensures { result ≡ some_path (drop 1 self) }
    {
        let mut steps = self.steps;
        let _first = steps.remove(0);
        if steps.is_empty() {
            None
        } else {
            Some(Path { steps })
        }
    }

    /// An equal path.
    pub fn copy(&self, alloc: Global) -> Result<Path, NoMemory>
        ensures { IfOk result (λ p. p ≡ self.now) }
    {
        let mut steps = Vec::new(alloc);
        for step in &self.steps {
            steps.push(step.copy(alloc)?)?;
        }
        Ok(Path { steps })
    }
}
