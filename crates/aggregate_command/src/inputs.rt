//! The cluster file and the command file.

ghost use Rattle.std.specs.Prelude.{◌≡◌, ◌≤◌, true, IfErr, IfOk, IfSome, IsErrOf, length};
ghost use Rattle.bson_codec.specs.Records.{document_of};
ghost use Rattle.chunk_map.specs.Form.{table};
ghost use Rattle.mq_ports.specs.Causes.{Caused};
ghost use Rattle.aggregate_command.specs.Status.{Answers, IsOfBytes, IsOfFiles};
ghost use Rattle.stage_tree.specs.Stage.{stages_of};
ghost use Rattle.stage_read.specs.Answers.{command_of};
ghost use Rattle.stage_read.specs.Commands.{command_read};
ghost use Rattle.stage_chain.specs.Chain.{is_built};
ghost use Rattle.aggregate_command.specs.Verdict.{built, command_at, document_at, good_command, good_document, good_table, table_at};

use crate::files::read_file;
use crate::status::Status;
use bson_codec::{DecodeError, decode, document_is};
use bson_value::{Doc, Text};
use chunk_map::{Cluster, ClusterError, read_cluster};
use mq_ports::Files;
use stage_chain::is_built;
use stage_read::{CommandError, read_command};
use stage_tree::{BadCommand, Command, CommandWhy};
use std::alloc::Global;

// The routing table that bytes stand for.
fn table_in(alloc: Global, bytes: &[u8]) -> Result<Cluster, Status>
    ensures table { Answers (λ c. c) result (good_table (table bytes.now)) }
    ensures kind { IfErr result IsOfBytes }
{
    match read_cluster(alloc, bytes) {
        Ok(cluster) => Ok(cluster),
        Err(ClusterError::Bad(bad)) => Err(Status::BadCluster(bad)),
        Err(ClusterError::Memory) => Err(Status::Memory),
    }
}

/// The routing table of the cluster file of this name.
pub fn read_table<F: Files>(alloc: Global, files: &mut F, name: &Text) -> Result<Cluster, Status>
    ensures table { IfSome (F.world files.old).held (λ held. Answers (λ c. c) result (table_at held name.now)) }
    ensures refusal { IfErr result IsOfFiles }
    ensures cause { Caused (F.world files.old).file_faults (F.world files.new).file_faults (IsErrOf result Status.ReadFault) }
    ensures held { (F.world files.new).held ≡ (F.world files.old).held }
{
    let bytes = read_file(alloc, files, name)?;
    table_in(alloc, bytes.as_slice())
}

// That a command file is none, for a reason outside its stages.
fn bad_command(why: CommandWhy) -> Status
    ensures { result ≡ Status.BadCommand (record { stage = 0; why = why }) }
{
    Status::BadCommand(BadCommand { stage: 0, why })
}

// The document that bytes are.
fn document_in(alloc: Global, bytes: &[u8]) -> Result<Doc, Status>
    ensures document { Answers (λ d. d) result (good_document (document_of bytes.now)) }
    ensures kind { IfErr result IsOfBytes }
{
    document_is(bytes);
    match decode(alloc, bytes, 0) {
        Ok((doc, end)) => {
            if end < bytes.len() {
                return Err(bad_command(CommandWhy::Trailing(end)));
            }
            Ok(doc)
        }
        Err(DecodeError::Bad(bad)) => Err(bad_command(CommandWhy::Bytes(bad))),
        Err(DecodeError::Memory) => Err(Status::Memory),
    }
}

// The document of the command file of this name.
fn read_document<F: Files>(alloc: Global, files: &mut F, name: &Text) -> Result<Doc, Status>
    ensures document { IfSome (F.world files.old).held (λ held. Answers (λ d. d) result (document_at held name.now)) }
    ensures refusal { IfErr result IsOfFiles }
    ensures cause { Caused (F.world files.old).file_faults (F.world files.new).file_faults (IsErrOf result Status.ReadFault) }
    ensures held { (F.world files.new).held ≡ (F.world files.old).held }
{
    let bytes = read_file(alloc, files, name)?;
    document_in(alloc, bytes.as_slice())
}

// The command that a document spells.
#[tactic(auto, using(crate::proofs::Limits::few_stages))]
fn command_in(alloc: Global, document: &Doc) -> Result<Command, Status>
    ensures command { Answers command_of result (good_command (command_read document.now)) }
    ensures few { IfOk result (λ c. length c.pipeline ≤ 100) }
    ensures kind { IfErr result IsOfBytes }
{
    match read_command(alloc, document) {
        Ok(command) => Ok(command),
        Err(CommandError::Bad(bad)) => Err(Status::BadCommand(bad)),
        Err(CommandError::Memory) => Err(Status::Memory),
    }
}

// The command, where all its stages are built.
fn built(command: Command) -> Result<Command, Status>
    ensures command { Answers command_of result (built (command_of command)) }
    ensures same { IfOk result (λ c. c ≡ command) }
    ensures built { IfOk result (λ c. is_built (stages_of c.pipeline) ≡ true) }
    ensures kind { IfErr result IsOfBytes }
{
    if is_built(&command.pipeline) {
        Ok(command)
    } else {
        Err(Status::NotBuilt)
    }
}

/// The command of the command file of this name.
pub fn read_command_file<F: Files>(
    alloc: Global,
    files: &mut F,
    name: &Text,
) -> Result<Command, Status>
    ensures command { IfSome (F.world files.old).held (λ held. Answers command_of result (command_at held name.now)) }
    ensures built { IfOk result (λ c. is_built (stages_of c.pipeline) ≡ true) }
    ensures few { IfOk result (λ c. length c.pipeline ≤ 100) }
    ensures refusal { IfErr result IsOfFiles }
    ensures cause { Caused (F.world files.old).file_faults (F.world files.new).file_faults (IsErrOf result Status.ReadFault) }
    ensures held { (F.world files.new).held ≡ (F.world files.old).held }
{
    let document = read_document(alloc, files, name)?;
    let command = command_in(alloc, &document)?;
    built(command)
}
