ghost use Rattle.std.specs.Prelude.{◌≡◌, ◌+◌, ◌≤◌, ◌++◌, [], length, take, drop, IfOk, OnOk, OnErr};
ghost use Rattle.bson_value.specs.Proper.{AreBytes};

use crate::no_memory::NoMemory;
use std::alloc::Global;
use std::marker::Model;

/// A run of bytes that grows at its end.
#[derive(Debug, Drop)]
pub struct Bytes {
    bytes: Vec<u8>,
}

impl Model for Bytes {
    ghost use Rattle.std.specs.Prelude.{List, ℕ};

    ghost Value = { List ℕ };

    ghost view = { λ b. b.bytes.items };
}

// What holds of each slice of bytes. It does nothing.
pub(crate) fn are_bytes(bytes: &[u8])
    ensures { AreBytes bytes.now }
{
    let _bytes = bytes;
}

impl Bytes {
    /// No bytes.
    pub fn new(alloc: Global) -> Bytes
        ensures { result ≡ [] }
    {
        Bytes {
            bytes: Vec::new(alloc),
        }
    }

    /// The bytes, each below 256.
    pub fn bytes(&self) -> &[u8]
        ensures same { result.now ≡ self.now }
        ensures bytes { AreBytes self.now }
    {
        let bytes = self.bytes.as_slice();
        are_bytes(bytes);
        bytes
    }

    /// Appends the piece. A refusal changes nothing.
    pub fn add(&mut self, piece: &[u8]) -> Result<(), NoMemory>
        ensures ok { OnOk result (self.new ≡ self.old ++ piece.now) }
        ensures err { OnErr result (self.new ≡ self.old) }
    {
        self.bytes.extend_from_slice(piece)?;
        Ok(())
    }

    /// Writes the piece over the bytes at the place.
    pub fn patch(&mut self, at: usize, piece: &[u8])
        requires { at + length piece.now ≤ length self.old }
        ensures { self.new ≡ take at self.old ++ (piece.now ++ drop (at + length piece.now) self.old) }
    {
        self.bytes[at..at + piece.len()].copy_from_slice(piece);
    }

    /// Drops the bytes behind the first so many.
    pub fn truncate(&mut self, len: usize)
        ensures { self.new ≡ take len self.old }
    {
        self.bytes.truncate(len);
    }

    /// Equal bytes.
    pub fn copy(&self, alloc: Global) -> Result<Bytes, NoMemory>
        ensures { IfOk result (λ b. b ≡ self.now) }
    {
        Ok(Bytes {
            bytes: Vec::from_slice(alloc, self.bytes.as_slice())?,
        })
    }
}
