//! The owned documents of a shard.

ghost use Rattle.std.specs.Prelude.{◌≡◌, ◌+◌, ◌<◌, ◌≤◌, ◌^◌, Ok, None, Some, IfOk, IfErr, IfSome, IsErrOf, IsNone, OnOk, OnErr, is_some, length, option_map, slice_get, if◌then◌else◌};
ghost use Rattle.bson_codec.specs.Spelling.{IsShort};
ghost use Rattle.chunk_map.specs.Owned.{part};
ghost use Rattle.mq_ports.specs.Causes.{Caused};
ghost use Rattle.mq_ports.specs.World.{OnlyFileCounts};
ghost use Rattle.orphan_filter.specs.Survey.{files_in, IsGoodFile, surveyed};
ghost use Rattle.orphan_filter.specs.Owned.{OpensShard, FollowsShard, GoesOver, IsOver, IsNextOwned, reader_of, given_by, given_to, given_in, IsReadError};
ghost use Rattle.orphan_filter.specs.Reader.{reading_of};

use crate::errors::RecordError;
use crate::file_survey::LONGEST;
use crate::record_reader::RecordReader;
use bson_value::Doc;
use chunk_map::{Collection, Shard};
use mq_ports::{Files, FindError, OpError};
use std::alloc::Global;
use std::marker::Model;

/// A reader of the documents that a collection owns on one shard, in the order of the shard's records. It reads the
/// shard's file in pieces, and keeps one record at a time.
#[derive(Debug, Drop)]
pub struct OwnedReader {
    shard: u32,
    // how many documents were given
    given: u64,
    records: Option<RecordReader>,
}

impl Model for OwnedReader {
    ghost use Rattle.std.specs.Prelude.{◌≤◌, option_map};
    ghost use Rattle.orphan_filter.specs.OwnedReading.{OwnedReading};

    ghost Value = { OwnedReading };

    ghost use Rattle.orphan_filter.specs.Reader.{reading_of};
    ghost use Rattle.orphan_filter.specs.Owned.{given_to};

    ghost view = { λ r. record { shard = r.shard; given = r.given; reading = option_map reading_of r.records } };

    ghost invariant = { λ r. r.given ≤ given_to (option_map reading_of r.records) };
}

// The reader of a shard's file.
fn open<F: Files>(alloc: Global, shard: &Shard, files: &mut F) -> Result<RecordReader, OpError>
    requires { IfSome (F.world files.old).held (λ held. IsGoodFile (files_in held shard.now.file)) }

    ensures opened { IfOk result (λ r. IfSome (F.world files.new).held (λ held. OpensShard (reading_of r) shard.now held)) }
    ensures given { IfOk result (λ r. r.given ≡ 0) }
    ensures kind { IfErr result IsReadError }
    ensures damage { IsErrOf result OpError.Damage → IsNone (F.world files.old).held }
    ensures cause { Caused (F.world files.old).file_faults (F.world files.new).file_faults (IsErrOf result OpError.ReadFault) }
    ensures alone { OnlyFileCounts (F.world files.old) (F.world files.new) }
{
    let found = match files.find(shard.file().bytes()) {
        Ok(found) => found,
        Err(FindError::Absent) => return Err(OpError::Damage),
        Err(FindError::Failed) => return Err(OpError::ReadFault),
        Err(FindError::Memory) => return Err(OpError::Memory),
    };
    if found.len > LONGEST {
        return Err(OpError::Damage);
    }
    match RecordReader::new(alloc, found.id, found.len) {
        Ok(records) => Ok(records),
        Err(_) => Err(OpError::Memory),
    }
}

// The reader that was kept, or that of the shard's file.
fn records_of<F: Files>(
    alloc: Global,
    kept: Option<RecordReader>,
    given: u64,
    collection: &Collection,
    place: u32,
    files: &mut F,
) -> Result<RecordReader, OpError>
    requires shard { place < length collection.now.shards }
    requires good { IfSome (F.world files.old).held (λ held. surveyed (files_in held) collection.now ≡ Ok tt) }
    requires same { IfSome (F.world files.old).held (λ held. IsOver collection.now place given (option_map reading_of kept) held) }

    ensures follows { IfOk result (λ r. IfSome (F.world files.new).held (λ held. FollowsShard collection.now place given (reading_of r) (slice_get collection.now.shards place) held)) }
    ensures given { IfOk result (λ r. r.given ≡ given_to (option_map reading_of kept)) }
    ensures none { OnErr result (given_to (option_map reading_of kept) ≡ 0) }
    ensures kind { IfErr result IsReadError }
    ensures damage { IsErrOf result OpError.Damage → IsNone (F.world files.old).held }
    ensures cause { Caused (F.world files.old).file_faults (F.world files.new).file_faults (IsErrOf result OpError.ReadFault) }
    ensures alone { OnlyFileCounts (F.world files.old) (F.world files.new) }
{
    match kept {
        Some(records) => Ok(records),
        None => open(alloc, &collection.shards()[place as usize], files),
    }
}

// The next record of a shard's file.
fn next_of<F: Files>(
    alloc: Global,
    collection: &Collection,
    place: u32,
    given: u64,
    records: &mut RecordReader,
    files: &mut F,
) -> Result<Option<Doc>, OpError>
    requires good { IfSome (F.world files.old).held (λ held. surveyed (files_in held) collection.now ≡ Ok tt) }
    requires follows { IfSome (F.world files.old).held (λ held. FollowsShard collection.now place given (reading_of records.old) (slice_get collection.now.shards place) held) }

    ensures next { IfOk result (λ doc. IfSome (F.world files.new).held (λ held. IsNextOwned collection.now place given doc (reading_of records.new) held)) }
    ensures short { IfOk result (λ doc. IfSome doc IsShort) }
    ensures given { IfOk result (λ doc. records.new.given ≡ records.old.given + (if is_some doc then 1 else 0)) }
    ensures moves { IfOk result (λ doc. IfSome doc (λ _. records.old.place < records.new.place)) }
    ensures kept { OnErr result (records.new.given ≡ records.old.given) }
    ensures len { records.new.len ≡ records.old.len }
    ensures kind { IfErr result IsReadError }
    ensures damage { IsErrOf result OpError.Damage → IsNone (F.world files.old).held }
    ensures cause { Caused (F.world files.old).file_faults (F.world files.new).file_faults (IsErrOf result OpError.ReadFault) }
    ensures alone { OnlyFileCounts (F.world files.old) (F.world files.new) }
{
    match records.next_record(alloc, files) {
        Ok(doc) => Ok(doc),
        Err(RecordError::Failed) => Err(OpError::ReadFault),
        Err(RecordError::Memory) => Err(OpError::Memory),
        Err(RecordError::Bad(_)) => Err(OpError::Damage),
        Err(RecordError::Damage) => Err(OpError::Damage),
    }
}

// The next document that the shard owns, past the orphans before it.
fn next_owned<F: Files>(
    alloc: Global,
    collection: &Collection,
    place: u32,
    given: u64,
    records: &mut RecordReader,
    files: &mut F,
) -> Result<Option<Doc>, OpError>
    requires good { IfSome (F.world files.old).held (λ held. surveyed (files_in held) collection.now ≡ Ok tt) }
    requires follows { IfSome (F.world files.old).held (λ held. FollowsShard collection.now place given (reading_of records.old) (slice_get collection.now.shards place) held) }

    ensures next { IfOk result (λ doc. IfSome (F.world files.old).held (λ held. doc ≡ slice_get (part (files_in held) collection.now place) given)) }
    ensures follows { IfOk result (λ doc. IfSome (F.world files.new).held (λ held. FollowsShard collection.now place (given + (if is_some doc then 1 else 0)) (reading_of records.new) (slice_get collection.now.shards place) held)) }
    ensures counted { IfOk result (λ doc. records.old.given + (if is_some doc then 1 else 0) ≤ records.new.given) }
    ensures short { IfOk result (λ doc. IfSome doc IsShort) }
    ensures kept { records.old.given ≤ records.new.given }
    ensures few { records.new.given < 2 ^ 32 }
    ensures kind { IfErr result IsReadError }
    ensures damage { IsErrOf result OpError.Damage → IsNone (F.world files.old).held }
    ensures cause { Caused (F.world files.old).file_faults (F.world files.new).file_faults (IsErrOf result OpError.ReadFault) }
    ensures alone { OnlyFileCounts (F.world files.old) (F.world files.new) }
{
    'records: loop {
        match next_of(alloc, collection, place, given, records, files) {
            Ok(Some(doc)) => {
                if collection.owns(place, &doc) {
                    return Ok(Some(doc));
                }
            }
            Ok(None) => return Ok(None),
            Err(e) => return Err(e),
        }
    }
}

// How many documents an answer gives.
fn given_in(answer: &Result<Option<Doc>, OpError>) -> u64
    ensures { result ≡ given_in answer.now }
{
    match answer {
        Ok(Some(_)) => 1,
        Ok(None) => 0,
        Err(_) => 0,
    }
}

impl OwnedReader {
    /// A reader for the shard of that place in the order of names, which has given nothing.
    pub fn new(shard: u32) -> OwnedReader
        ensures { result ≡ reader_of shard }
    {
        OwnedReader {
            shard,
            given: 0,
            records: None,
        }
    }

    /// The next document that the shard owns, and None once it has given them all. Orphans are passed over. A
    /// collection is handed over that a survey of these files found good; what contradicts that is damage.
    pub fn next<F: Files>(
        &mut self,
        alloc: Global,
        collection: &Collection,
        files: &mut F,
    ) -> Result<Option<Doc>, OpError>
        requires shard { self.old.shard < length collection.now.shards }
        requires good { IfSome (F.world files.old).held (λ held. surveyed (files_in held) collection.now ≡ Ok tt) }
        requires same { IfSome (F.world files.old).held (λ held. GoesOver self.old collection.now held) }

        ensures next { IfOk result (λ doc. IfSome (F.world files.old).held (λ held. doc ≡ slice_get (part (files_in held) collection.now self.old.shard) (given_by self.old))) }
        // It may be written, and there are not more of them than a u32 counts, whether files tell or not.
        ensures short { IfOk result (λ doc. IfSome doc IsShort) }
        ensures few { OnOk result (given_by self.new < 2 ^ 32) }
        ensures given { IfOk result (λ doc. given_by self.new ≡ given_by self.old + (if is_some doc then 1 else 0)) }
        ensures same { OnOk result (IfSome (F.world files.new).held (λ held. GoesOver self.new collection.now held)) }
        ensures shard { self.new.shard ≡ self.old.shard }
        ensures kind { IfErr result IsReadError }
        ensures damage { IsErrOf result OpError.Damage → IsNone (F.world files.old).held }
        ensures cause { Caused (F.world files.old).file_faults (F.world files.new).file_faults (IsErrOf result OpError.ReadFault) }
        ensures alone { OnlyFileCounts (F.world files.old) (F.world files.new) }
    {
        let kept = self.records.take();
        let mut records = match records_of(alloc, kept, self.given, collection, self.shard, files) {
            Ok(records) => records,
            Err(e) => return Err(e),
        };
        let answer = next_owned(
            alloc,
            collection,
            self.shard,
            self.given,
            &mut records,
            files,
        );
        self.given += given_in(&answer);
        self.records = Some(records);
        answer
    }
}
