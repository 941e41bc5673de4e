//! The records of a file, one at a time.

ghost use Rattle.std.specs.Prelude.{◌≡◌, ◌+◌, ◌-◌, ◌^◌, ◌<◌, ◌≤◌, IfOk, IfSome, OnOk, OnErr, vec_len};

use crate::errors::{ReadError, RecordError};
use crate::piece::{drop_front, make_piece, read_on};
use bson_codec::{DecodeError, decode_front, needed_of};
use bson_value::{Doc, NoMemory};
use mq_ports::Files;
use std::alloc::Global;

// The records of a file, one at a time: of the file it keeps the record that comes next and what was read with it.
#[derive(Debug, Drop)]
pub struct RecordReader {
    id: u64,
    len: u64,
    // where the next record begins, and how many were given
    place: u64,
    given: u64,
    piece: Vec<u8>,
    // what was read of the file, of which this many bytes stand before the next record
    ahead: Vec<u8>,
    used: usize,
    ghost used_within: { used ≤ vec_len ahead },
    ghost within: { place + (vec_len ahead - used) ≤ len },
    ghost counted: { given ≤ place },
    ghost small: { len < 2 ^ 32 },
    ghost room: { 0 < vec_len piece },
}

impl RecordReader {
    ghost use Rattle.std.specs.Prelude.{[], IsErrOf, IsNone, Err, length, drop, is_some, ◌⊎◌, ℕ, List as Seq, if◌then◌else◌};
    ghost use Rattle.bson_codec.specs.Fronts.{needed, IsFrontAt};
    ghost use Rattle.bson_codec.specs.Spelling.{IsShort, IsSpelledAt};
    ghost use Rattle.bson_codec.specs.Reading.{read_at as record_at};
    ghost use Rattle.bson_value.specs.declared.bad.BadBson.{BadBson};
    ghost use Rattle.mq_ports.specs.Causes.{Caused};
    ghost use Rattle.mq_ports.specs.World.{OnlyFileCounts, contents_at};
    ghost use Rattle.orphan_filter.specs.Reading.{IsAlong, Follows, IsNext};
    ghost use Rattle.orphan_filter.specs.Reader.{reading_of, window_of, KeepsPlace};

    /// The reader of a file, of which `find` gave the id and the length.
    pub fn new(alloc: Global, id: u64, len: u64) -> Result<RecordReader, NoMemory>
        requires { len < 2 ^ 32 }
        ensures { IfOk result (λ r. reading_of r ≡ record { id = id; len = len; place = 0; given = 0; ahead = [] }) }
    {
        Ok(RecordReader {
            id,
            len,
            place: 0,
            given: 0,
            piece: make_piece(alloc)?,
            ahead: Vec::new(alloc),
            used: 0,
        })
    }

    /// How many records were given.
    pub fn given(&self) -> u64
        ensures value { result ≡ self.now.given }
        ensures small { result < 2 ^ 32 }
    {
        self.given
    }

    /// Where the next record begins.
    pub fn place(&self) -> u64
        ensures { result ≡ self.now.place }
    {
        self.place
    }

    // Reads on until the next record is there whole, or the file has ended.
    fn read_ahead<F: Files>(&mut self, files: &mut F) -> Result<(), ReadError>
        requires { IfSome (F.world files.old).held (λ held. IsAlong self.old.len self.old.place (window_of self.old) (contents_at self.old.id held)) }

        ensures enough { OnOk result ((needed (window_of self.new) ≤ length (window_of self.new)) ⊎ (self.new.place + length (window_of self.new) ≡ self.new.len)) }
        ensures within { self.new.place + length (window_of self.new) ≤ self.new.len }
        ensures keeps { KeepsPlace self.old self.new }
        ensures along { OnOk result (IfSome (F.world files.new).held (λ held. IsAlong self.new.len self.new.place (window_of self.new) (contents_at self.new.id held))) }
        ensures damage { IsErrOf result ReadError.Damage → IsNone (F.world files.old).held }
        ensures cause { Caused (F.world files.old).file_faults (F.world files.new).file_faults (IsErrOf result ReadError.Failed) }
        ensures alone { OnlyFileCounts (F.world files.old) (F.world files.new) }
    {
        let window = &self.ahead[self.used..];
        if needed_of(window) <= window.len() {
            return Ok(());
        }
        drop_front(&mut self.ahead, self.used);
        self.used = 0;
        let piece = self.piece.as_mut_slice();
        read_on(files, self.id, self.len, self.place, piece, &mut self.ahead)
    }

    // Decodes the next record, which is there whole, or what is left of the file.
    fn decode_next(&mut self, alloc: Global) -> Result<Doc, DecodeError>
        ensures found { IfOk result (λ doc. (file : Seq ℕ) → IsFrontAt file self.old.place (window_of self.old) → IsSpelledAt file self.old.place doc self.new.place) }
        ensures short { IfOk result (λ doc. IsShort doc) }
        ensures moves { OnOk result (self.old.place < self.new.place) }
        ensures window { OnOk result (window_of self.new ≡ drop (self.new.place - self.old.place) (window_of self.old)) }
        ensures within { OnOk result (self.new.place - self.old.place ≤ length (window_of self.old)) }
        ensures given { OnOk result (self.new.given ≡ self.old.given + 1) }
        ensures err { OnErr result (self.new.given ≡ self.old.given) }
        ensures bad { (b : BadBson) → result ≡ Err (DecodeError.Bad b) → (file : Seq ℕ) → IsFrontAt file self.old.place (window_of self.old) → record_at self.old.place file ≡ Err b }
        ensures same { (self.new.id ≡ self.old.id) × (self.new.len ≡ self.old.len) }
    {
        let window = &self.ahead[self.used..];
        let (doc, size) = match decode_front(alloc, window, self.place as usize) {
            Ok(found) => found,
            Err(e) => return Err(e),
        };
        self.used += size;
        self.place += size as u64;
        self.given += 1;
        Ok(doc)
    }

    /// The next record of the file, and None once it has ended.
    pub fn next_record<F: Files>(
        &mut self,
        alloc: Global,
        files: &mut F,
    ) -> Result<Option<Doc>, RecordError>
        requires { IfSome (F.world files.old).held (λ held. Follows (reading_of self.old) (contents_at self.old.id held)) }

        ensures next { IfOk result (λ doc. IfSome (F.world files.new).held (λ held. IsNext doc (reading_of self.old) (reading_of self.new) (contents_at self.old.id held))) }
        ensures short { IfOk result (λ doc. IfSome doc IsShort) }
        ensures moves { IfOk result (λ doc. IfSome doc (λ _. self.old.place < self.new.place)) }
        ensures given { IfOk result (λ doc. self.new.given ≡ self.old.given + (if is_some doc then 1 else 0)) }
        ensures err { OnErr result (self.new.given ≡ self.old.given) }
        ensures bad { (b : BadBson) → result ≡ Err (RecordError.Bad b) → IfSome (F.world files.old).held (λ held. (self.old.place < length (contents_at self.old.id held)) × (record_at self.old.place (contents_at self.old.id held) ≡ Err b)) }
        ensures same { (self.new.id ≡ self.old.id) × (self.new.len ≡ self.old.len) }
        ensures damage { IsErrOf result RecordError.Damage → IsNone (F.world files.old).held }
        ensures cause { Caused (F.world files.old).file_faults (F.world files.new).file_faults (IsErrOf result RecordError.Failed) }
        ensures alone { OnlyFileCounts (F.world files.old) (F.world files.new) }
    {
        if self.place == self.len {
            return Ok(None);
        }
        match self.read_ahead(files) {
            Ok(()) => {}
            Err(ReadError::Failed) => return Err(RecordError::Failed),
            Err(ReadError::Damage) => return Err(RecordError::Damage),
            Err(ReadError::Memory) => return Err(RecordError::Memory),
        }
        match self.decode_next(alloc) {
            Ok(doc) => Ok(Some(doc)),
            Err(DecodeError::Bad(bad)) => Err(RecordError::Bad(bad)),
            Err(DecodeError::Memory) => Err(RecordError::Memory),
        }
    }
}
