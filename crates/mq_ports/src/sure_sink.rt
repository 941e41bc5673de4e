ghost use Rattle.std.specs.Prelude.{◌≡◌, [], Some};

use crate::{IoError, Sink};
use std::alloc::Global;
use std::marker::Model;

/// A sink in memory, none of whose calls fails.
#[derive(Drop)]
pub struct SureSink {
    content: Vec<u8>,
}

impl Model for SureSink {
    ghost use Rattle.std.specs.Prelude.{List, ℕ};

    ghost Value = { List ℕ };

    ghost view = { λ s. s.content.items };
}

impl SureSink {
    /// Nothing taken.
    pub fn new(alloc: Global) -> SureSink
        ensures { result ≡ [] }
    {
        SureSink {
            content: Vec::new(alloc),
        }
    }

    /// What was taken.
    pub fn bytes(&self) -> &[u8]
        ensures { result.now ≡ self.now }
    {
        self.content.as_slice()
    }
}

impl Sink for SureSink {
    ghost taken = { λ s. Some s };

    ghost faults = { λ _. 0 };

    fn put(&mut self, piece: &[u8]) -> Result<usize, IoError> {
        match self.content.extend_from_slice(piece) {
            Ok(()) => Ok(piece.len()),
            Err(_) => Err(IoError::Memory),
        }
    }
}
