//! What is to be written, before anything is.

ghost use Rattle.std.specs.Prelude.{◌≡◌, ◌≤◌, ◌⊎◌, true, Ok, Err, IfErr, IfOk, IfSome, IsErrOf, IsNone, length, option_map};
ghost use Rattle.chunk_map.specs.Owned.{owned_if};
ghost use Rattle.mq_ports.specs.Causes.{Caused};
ghost use Rattle.orphan_filter.specs.Survey.{files_in};
ghost use Rattle.stage_tree.specs.Stage.{stages_of};
ghost use Rattle.stage_read.specs.Answers.{command_of};
ghost use Rattle.stage_chain.specs.Chain.{is_built};
ghost use Rattle.aggregate_command.specs.Request.{requested};
ghost use Rattle.aggregate_command.specs.Run.{number_of};
ghost use Rattle.aggregate_command.specs.Running.{begun, ended, with_documents};
ghost use Rattle.aggregate_command.specs.Status.{Answers, IsEarly, IsOfFiles};
ghost use Rattle.aggregate_command.specs.Verdict.{good_results, run_command, run_over, run_request, surveyed_if, verdict};

use crate::inputs::{read_command_file, read_table};
use crate::request::{Request, read_request};
use crate::run::Run;
use crate::shards::{run_named, survey_named};
use crate::status::Status;
use bson_value::{Bytes, Text};
use chunk_map::{Cluster, Collection};
use mq_ports::Files;
use stage_chain::chain_is_written;
use stage_tree::{Command, Pipeline};
use std::alloc::Global;

// A run of these stages, which has no document yet.
fn begin(alloc: Global, pipeline: Pipeline) -> Result<Run, Status>
    requires { is_built (stages_of pipeline) ≡ true }
    ensures run { IfOk result (λ r. r ≡ begun (stages_of pipeline)) }
    ensures kind { IfErr result (λ status. status ≡ Status.Memory) }
{
    match Run::new(alloc, pipeline) {
        Ok(run) => Ok(run),
        Err(_) => Err(Status::Memory),
    }
}

// What a run of so many stages comes to.
fn end(alloc: Global, run: Run, stages: u32) -> Result<Bytes, Status>
    requires { stages ≤ 100 }
    ensures bytes { Answers (λ bytes. bytes) result (good_results (ended stages run)) }
    ensures kind { IfErr result IsOfFiles }
    ensures cause { IsErrOf result Status.ReadFault → ⊥ }
{
    match run.finish(alloc, stages) {
        Ok(Ok(bytes)) => Ok(bytes),
        Ok(Err(failure)) => Err(Status::EvalError(failure)),
        Err(_) => Err(Status::Memory),
    }
}

// What the stages give of the documents of a collection, of which a survey found the files good.
fn run_stages<F: Files>(
    alloc: Global,
    files: &mut F,
    collection: Option<&Collection>,
    pipeline: Pipeline,
) -> Result<Bytes, Status>
    requires built { is_built (stages_of pipeline) ≡ true }
    requires few { length pipeline ≤ 100 }
    requires good { IfSome (F.world files.old).held (λ held. surveyed_if (files_in held) (option_map (λ c. c.now) collection) ≡ Ok tt) }

    ensures bytes { IfSome (F.world files.old).held (λ held. Answers (λ bytes. bytes) result (good_results
        (ended (number_of (stages_of pipeline)) (with_documents (begun (stages_of pipeline)) (owned_if (files_in held) (option_map (λ c. c.now) collection.entry)))))) }
    ensures refusal { IfErr result IsOfFiles }
    ensures cause { Caused (F.world files.old).file_faults (F.world files.new).file_faults (IsErrOf result Status.ReadFault) }
    ensures held { (F.world files.new).held ≡ (F.world files.old).held }
{
    let stages = pipeline.len() as u32;
    let mut run = begin(alloc, pipeline)?;
    run_named(alloc, files, collection, &mut run)?;
    end(alloc, run, stages)
}

// What a run or a check of a command writes.
fn run_over<F: Files>(
    alloc: Global,
    files: &mut F,
    cluster: &Cluster,
    runs: bool,
    command: Command,
) -> Result<Bytes, Status>
    requires built { is_built (stages_of command.pipeline) ≡ true }
    requires few { length command.pipeline ≤ 100 }

    ensures bytes { IfSome (F.world files.old).held (λ held. Answers (λ bytes. bytes) result (run_over (files_in held) cluster.now runs (command_of command))) }
    ensures refusal { IfErr result IsOfFiles }
    ensures cause { Caused (F.world files.old).file_faults (F.world files.new).file_faults (IsErrOf result Status.ReadFault) }
    ensures held { (F.world files.new).held ≡ (F.world files.old).held }
{
    chain_is_written();
    let collection = cluster.collection(command.collection.bytes());
    survey_named(alloc, files, collection)?;
    if !runs {
        return Ok(Bytes::new(alloc));
    }
    run_stages(alloc, files, collection, command.pipeline)
}

// What the command of a request writes.
fn run_command<F: Files>(
    alloc: Global,
    files: &mut F,
    request: &Request,
    cluster: &Cluster,
) -> Result<Bytes, Status>
    ensures bytes { IfSome (F.world files.old).held (λ held. Answers (λ bytes. bytes) result (run_command held request.now cluster.now)) }
    ensures refusal { IfErr result IsOfFiles }
    ensures cause { Caused (F.world files.old).file_faults (F.world files.new).file_faults (IsErrOf result Status.ReadFault) }
    ensures held { (F.world files.new).held ≡ (F.world files.old).held }
{
    let command = read_command_file(alloc, files, &request.command)?;
    run_over(alloc, files, cluster, request.runs, command)
}

// What a request writes.
fn run_request<F: Files>(alloc: Global, files: &mut F, request: &Request) -> Result<Bytes, Status>
    ensures bytes { IfSome (F.world files.old).held (λ held. Answers (λ bytes. bytes) result (run_request held request.now)) }
    ensures refusal { IfErr result IsOfFiles }
    ensures cause { Caused (F.world files.old).file_faults (F.world files.new).file_faults (IsErrOf result Status.ReadFault) }
    ensures held { (F.world files.new).held ≡ (F.world files.old).held }
{
    let cluster = read_table(alloc, files, &request.cluster)?;
    run_command(alloc, files, request, &cluster)
}

/// The bytes to write, or the status of the first refusal, fault or want of memory.
pub fn plan<F: Files>(alloc: Global, words: &[Text], files: &mut F) -> Result<Bytes, Status>
    ensures bytes { IfSome (F.world files.old).held (λ held. Answers (λ bytes. bytes) result (verdict words.now held)) }
    // Words that ask for nothing that is built are refused before a file is asked for.
    ensures words { IfErr (requested words.now) (λ status. IsErrOf result status ⊎ IsErrOf result Status.Memory) }
    ensures unasked { IfErr (requested words.now) (λ _. F.world files.new ≡ F.world files.old) }
    ensures usage { IsErrOf result Status.Usage → requested words.now ≡ Err Status.Usage }
    ensures refusal { IfErr result IsEarly }
    ensures cause { Caused (F.world files.old).file_faults (F.world files.new).file_faults (IsErrOf result Status.ReadFault) }
    ensures held { (F.world files.new).held ≡ (F.world files.old).held }
{
    let request = read_request(alloc, words)?;
    run_request(alloc, files, &request)
}
