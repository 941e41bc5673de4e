//! The survey of a collection's files.

ghost use Rattle.std.specs.Prelude.{◌≡◌, ◌<◌, ◌^◌, true, IfOk, IfSome, IsErrOf, length, ◌⊎◌};
ghost use Rattle.chunk_map.specs.Keys.{key_of};
ghost use Rattle.mq_ports.specs.Causes.{Caused};
ghost use Rattle.mq_ports.specs.World.{OnlyFileCounts, contents_at};
ghost use Rattle.orphan_filter.specs.Reader.{reading_of};
ghost use Rattle.orphan_filter.specs.Survey.{files_in, bad_shard, file_verdict, surveyed, IsVerdict, IsFileVerdict};
ghost use Rattle.orphan_filter.specs.Surveying.{IsArrayPart, HasNoArray, IsReadOn};

use crate::errors::{BadShard, FileError, RecordError, ShardWhy, SurveyError};
use crate::record_reader::RecordReader;
use bson_value::Doc;
use chunk_map::{Collection, Shard};
use mq_ports::{Files, FindError};
use std::alloc::Global;

// The most bytes that a file may have.
pub(crate) const LONGEST: u64 = 4_294_967_295;

// The part of the collection's key whose path meets an array in the document, if one does.
fn array_part(collection: &Collection, doc: &Doc) -> Option<u32>
    ensures { IsArrayPart (key_of collection.now.key_paths doc.now) result }
{
    collection.known();
    match collection.key_of(doc) {
        Ok(_) => None,
        Err(part) => Some(part as u32),
    }
}

// Reads the next record and its key: whether there is one.
fn read_one<F: Files>(
    alloc: Global,
    collection: &Collection,
    reader: &mut RecordReader,
    files: &mut F,
) -> Result<bool, FileError>
    requires { IfSome (F.world files.old).held (λ held. HasNoArray collection.now.key_paths (reading_of reader.old) (contents_at reader.old.id held)) }
    ensures verdict { IfSome (F.world files.old).held (λ held. IsReadOn collection.now.key_paths result (reading_of reader.new) (contents_at reader.old.id held)) }
    ensures moves { IfOk result (λ more. more ≡ true → reader.old.place < reader.new.place) }
    ensures same { (reader.new.id ≡ reader.old.id) × (reader.new.len ≡ reader.old.len) }
    ensures cause { Caused (F.world files.old).file_faults (F.world files.new).file_faults (IsErrOf result FileError.Failed) }
    ensures alone { OnlyFileCounts (F.world files.old) (F.world files.new) }
{
    let start = reader.place();
    let doc = match reader.next_record(alloc, files) {
        Ok(Some(doc)) => doc,
        Ok(None) => return Ok(false),
        Err(RecordError::Bad(bad)) => return Err(FileError::Bad(reader.given() + 1, bad)),
        Err(RecordError::Failed) => return Err(FileError::Failed),
        Err(RecordError::Damage) => return Err(FileError::Damage),
        Err(RecordError::Memory) => return Err(FileError::Memory),
    };
    match array_part(collection, &doc) {
        None => Ok(true),
        Some(part) => Err(FileError::Array(reader.given(), start, part)),
    }
}

// Reads the records that are left.
fn read_all<F: Files>(
    alloc: Global,
    collection: &Collection,
    reader: &mut RecordReader,
    files: &mut F,
) -> Result<(), FileError>
    requires { IfSome (F.world files.old).held (λ held. HasNoArray collection.now.key_paths (reading_of reader.old) (contents_at reader.old.id held)) }
    ensures verdict { IfSome (F.world files.old).held (λ held. IsFileVerdict collection.now.key_paths result (contents_at reader.old.id held)) }
    ensures cause { Caused (F.world files.old).file_faults (F.world files.new).file_faults (IsErrOf result FileError.Failed) }
    ensures alone { OnlyFileCounts (F.world files.old) (F.world files.new) }
{
    'records: while read_one(alloc, collection, reader, files)? {}
    Ok(())
}

// Reads all records of a file.
fn survey_file<F: Files>(
    alloc: Global,
    collection: &Collection,
    files: &mut F,
    id: u64,
    len: u64,
) -> Result<(), FileError>
    requires small { len < 2 ^ 32 }
    requires len { IfSome (F.world files.old).held (λ held. len ≡ length (contents_at id held)) }
    ensures verdict { IfSome (F.world files.old).held (λ held. IsFileVerdict collection.now.key_paths result (contents_at id held)) }
    ensures cause { Caused (F.world files.old).file_faults (F.world files.new).file_faults (IsErrOf result FileError.Failed) }
    ensures alone { OnlyFileCounts (F.world files.old) (F.world files.new) }
{
    match RecordReader::new(alloc, id, len) {
        Ok(mut reader) => read_all(alloc, collection, &mut reader, files),
        Err(_) => Err(FileError::Memory),
    }
}

fn no_file(alloc: Global, shard: &Shard) -> SurveyError
    ensures { (result ≡ SurveyError.NoFile shard.now.file) ⊎ (result ≡ SurveyError.Memory) }
{
    match shard.file().copy(alloc) {
        Ok(name) => SurveyError::NoFile(name),
        Err(_) => SurveyError::Memory,
    }
}

fn too_long(alloc: Global, shard: &Shard, len: u64) -> SurveyError
    ensures { (result ≡ SurveyError.FileTooLong shard.now.file len) ⊎ (result ≡ SurveyError.Memory) }
{
    match shard.file().copy(alloc) {
        Ok(name) => SurveyError::FileTooLong(name, len),
        Err(_) => SurveyError::Memory,
    }
}

fn bad_shard(
    alloc: Global,
    collection: &Collection,
    shard: &Shard,
    number: u64,
    at: u64,
    why: ShardWhy,
) -> SurveyError
    ensures { (result ≡ SurveyError.Bad (bad_shard collection.now shard.now number at why)) ⊎ (result ≡ SurveyError.Memory) }
{
    let Ok(name) = collection.name().copy(alloc) else {
        return SurveyError::Memory;
    };
    let Ok(shard) = shard.name().copy(alloc) else {
        return SurveyError::Memory;
    };
    SurveyError::Bad(BadShard {
        collection: name,
        shard,
        number,
        at,
        why,
    })
}

// Surveys the file of a shard.
fn survey_shard<F: Files>(
    alloc: Global,
    collection: &Collection,
    shard: &Shard,
    files: &mut F,
) -> Result<(), SurveyError>
    ensures verdict { IfSome (F.world files.old).held (λ held. IsVerdict result (file_verdict collection.now shard.now (files_in held shard.now.file))) }
    ensures cause { Caused (F.world files.old).file_faults (F.world files.new).file_faults (IsErrOf result SurveyError.ReadFault) }
    ensures alone { OnlyFileCounts (F.world files.old) (F.world files.new) }
{
    let found = match files.find(shard.file().bytes()) {
        Ok(found) => found,
        Err(FindError::Absent) => return Err(no_file(alloc, shard)),
        Err(FindError::Failed) => return Err(SurveyError::ReadFault),
        Err(FindError::Memory) => return Err(SurveyError::Memory),
    };
    if found.len > LONGEST {
        return Err(too_long(alloc, shard, found.len));
    }
    match survey_file(alloc, collection, files, found.id, found.len) {
        Ok(()) => Ok(()),
        Err(FileError::Bad(number, bad)) => {
            let why = ShardWhy::Bson(bad.why);
            Err(bad_shard(alloc, collection, shard, number, bad.at as u64, why))
        }
        Err(FileError::Array(number, at, part)) => {
            let why = ShardWhy::ArrayInKey(part);
            Err(bad_shard(alloc, collection, shard, number, at, why))
        }
        Err(FileError::Failed) => Err(SurveyError::ReadFault),
        Err(FileError::Damage) => Err(SurveyError::Damage),
        Err(FileError::Memory) => Err(SurveyError::Memory),
    }
}

/// Whether each file of the collection is there and within its limit, and every record of it decodes and meets no
/// array at the key; else the first refusal by shard: absent, too long, or the first bad record. Files are read in
/// pieces, and one record is kept at a time.
#[tactic(auto, unfolding(crate::specs::Survey::surveyed))]
pub fn survey<F: Files>(
    alloc: Global,
    collection: &Collection,
    files: &mut F,
) -> Result<(), SurveyError>
    // Of files that tell: what is wrong with them, and never that they are damaged.
    ensures verdict { IfSome (F.world files.old).held (λ held. IsVerdict result (surveyed (files_in held) collection.now)) }
    ensures cause { Caused (F.world files.old).file_faults (F.world files.new).file_faults (IsErrOf result SurveyError.ReadFault) }
    ensures alone { OnlyFileCounts (F.world files.old) (F.world files.new) }
{
    for shard in collection.shards() {
        survey_shard(alloc, collection, shard, files)?;
    }
    Ok(())
}
