//! Why words have no mode.

ghost use Rattle.std.specs.Prelude.{◌≡◌};
ghost use Rattle.command_words.specs.declared.errors.WordsError.TheVariants.{Memory};

use bson_value::NoMemory;
use std::alloc::AllocError;

/// Why there is no mode.
#[derive(Clone, Copy, Debug, PartialEq, Eq)]
pub enum WordsError {
    /// The words have no reading.
    Usage,
    /// Memory was refused.
    Memory,
}

impl From<AllocError> for WordsError {
    ghost from_gives = { λ _ e. e ≡ Memory };

    fn from(_error: AllocError) -> WordsError {
        WordsError::Memory
    }
}

impl From<NoMemory> for WordsError {
    ghost from_gives = { λ _ e. e ≡ Memory };

    fn from(_error: NoMemory) -> WordsError {
        WordsError::Memory
    }
}
