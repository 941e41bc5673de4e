//! The survey of a collection's files, and the run of a pipeline over its owned documents.

ghost use Rattle.std.specs.Prelude.{◌≡◌, ◌<◌, length, option_map, Ok, OnOk, IfErr, IfSome, IsErrOf, IsNone};
ghost use Rattle.chunk_map.specs.Owned.{owned, owned_if, part};
ghost use Rattle.mq_ports.specs.Causes.{Caused};
ghost use Rattle.orphan_filter.specs.Survey.{files_in, surveyed};
ghost use Rattle.aggregate_command.specs.Running.{with_document, with_documents};
ghost use Rattle.aggregate_command.specs.Status.{Answers, IsOfReading, IsOfFiles};
ghost use Rattle.aggregate_command.specs.Verdict.{good_survey, surveyed_if};

use crate::run::Run;
use crate::status::Status;
use chunk_map::{Collection, owned_by_shard};
use mq_ports::{Files, OpError};
use orphan_filter::{OwnedReader, SurveyError, survey};
use std::alloc::Global;

// Surveys the files of a collection.
fn survey_files<F: Files>(
    alloc: Global,
    files: &mut F,
    collection: &Collection,
) -> Result<(), Status>
    ensures survey { IfSome (F.world files.old).held (λ held. Answers (λ _. tt) result (good_survey (surveyed (files_in held) collection.now))) }
    ensures refusal { IfErr result IsOfFiles }
    ensures cause { Caused (F.world files.old).file_faults (F.world files.new).file_faults (IsErrOf result Status.ReadFault) }
    ensures held { (F.world files.new).held ≡ (F.world files.old).held }
{
    match survey(alloc, collection, files) {
        Ok(()) => Ok(()),
        Err(SurveyError::Bad(bad)) => Err(Status::BadShard(bad)),
        Err(SurveyError::NoFile(name)) => Err(Status::NoFile(name)),
        Err(SurveyError::FileTooLong(name, len)) => Err(Status::FileTooLong(name, len)),
        Err(SurveyError::ReadFault) => Err(Status::ReadFault),
        Err(SurveyError::Damage) => Err(Status::Damage),
        Err(SurveyError::Memory) => Err(Status::Memory),
    }
}

/// Surveys the files of a collection that the cluster names. One that it doesn't name has none.
pub fn survey_named<F: Files>(
    alloc: Global,
    files: &mut F,
    collection: Option<&Collection>,
) -> Result<(), Status>
    ensures survey { IfSome (F.world files.old).held (λ held. Answers (λ _. tt) result (surveyed_if (files_in held) (option_map (λ c. c.now) collection.entry))) }
    ensures refusal { IfErr result IsOfFiles }
    ensures cause { Caused (F.world files.old).file_faults (F.world files.new).file_faults (IsErrOf result Status.ReadFault) }
    ensures held { (F.world files.new).held ≡ (F.world files.old).held }
{
    match collection {
        Some(collection) => survey_files(alloc, files, collection),
        None => Ok(()),
    }
}

// Pushes the documents that the collection owns on a shard through the stages, one after another.
fn run_shard<F: Files>(
    alloc: Global,
    files: &mut F,
    collection: &Collection,
    shard: u32,
    run: &mut Run,
) -> Result<(), Status>
    requires shard { shard < length collection.now.shards }
    requires good { IfSome (F.world files.old).held (λ held. surveyed (files_in held) collection.now ≡ Ok tt) }

    ensures ran { OnOk result (IfSome (F.world files.old).held (λ held.
        run.new ≡ with_documents run.old (part (files_in held) collection.now shard))) }
    ensures kind { IfErr result IsOfReading }
    ensures damage { IsErrOf result Status.Damage → IsNone (F.world files.old).held }
    ensures cause { Caused (F.world files.old).file_faults (F.world files.new).file_faults (IsErrOf result Status.ReadFault) }
    ensures held { (F.world files.new).held ≡ (F.world files.old).held }
{
    let mut reader = OwnedReader::new(shard);
    'documents: loop {
        match reader.next(alloc, collection, files) {
            Ok(Some(doc)) => {
                if run.push(alloc, doc).is_err() {
                    return Err(Status::Memory);
                }
            }
            Ok(None) => return Ok(()),
            Err(OpError::ReadFault) => return Err(Status::ReadFault),
            Err(OpError::Memory) => return Err(Status::Memory),
            Err(OpError::Damage) | Err(OpError::SpillFault) | Err(OpError::Code(_)) => {
                return Err(Status::Damage);
            }
        }
    }
}

// How many shards a collection has.
fn count_shards(collection: &Collection) -> u32
    ensures { result ≡ length collection.now.shards }
{
    collection.shards().len() as u32
}

// Pushes the documents that the collection owns through the stages, shard by shard.
fn run_shards<F: Files>(
    alloc: Global,
    files: &mut F,
    collection: &Collection,
    run: &mut Run,
) -> Result<(), Status>
    requires { IfSome (F.world files.old).held (λ held. surveyed (files_in held) collection.now ≡ Ok tt) }

    ensures ran { OnOk result (IfSome (F.world files.old).held (λ held.
        run.new ≡ with_documents run.old (owned (files_in held) collection.now))) }
    ensures kind { IfErr result IsOfReading }
    ensures damage { IsErrOf result Status.Damage → IsNone (F.world files.old).held }
    ensures cause { Caused (F.world files.old).file_faults (F.world files.new).file_faults (IsErrOf result Status.ReadFault) }
    ensures held { (F.world files.new).held ≡ (F.world files.old).held }
{
    owned_by_shard();
    let count = count_shards(collection);
    for shard in 0..count {
        run_shard(alloc, files, collection, shard, run)?;
    }
    Ok(())
}

/// Pushes the documents that a collection owns, of which a survey found the files good, through the stages of a run.
/// A collection that the cluster doesn't name has none.
pub fn run_named<F: Files>(
    alloc: Global,
    files: &mut F,
    collection: Option<&Collection>,
    run: &mut Run,
) -> Result<(), Status>
    requires { IfSome (F.world files.old).held (λ held. surveyed_if (files_in held) (option_map (λ c. c.now) collection) ≡ Ok tt) }

    ensures ran { OnOk result (IfSome (F.world files.old).held (λ held.
        run.new ≡ with_documents run.old (owned_if (files_in held) (option_map (λ c. c.now) collection.entry)))) }
    ensures kind { IfErr result IsOfReading }
    ensures damage { IsErrOf result Status.Damage → IsNone (F.world files.old).held }
    ensures cause { Caused (F.world files.old).file_faults (F.world files.new).file_faults (IsErrOf result Status.ReadFault) }
    ensures held { (F.world files.new).held ≡ (F.world files.old).held }
{
    match collection {
        Some(collection) => run_shards(alloc, files, collection, run),
        None => Ok(()),
    }
}
