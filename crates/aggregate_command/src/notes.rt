//! The line that goes to the notes.

ghost use Rattle.std.specs.Prelude.{◌≡◌, IfOk, IsErrOf, OnOk, string_bytes};
ghost use Rattle.std.specs.Io.KnownBytes.{Appends};
ghost use Rattle.mq_ports.specs.Causes.{Caused};
ghost use Rattle.aggregate_command.specs.Line.{line_of};

use crate::status::Status;
use crate::texts::{cluster_line, command_line, failure_line, shard_line};
use crate::write::put_all;
use mq_ports::{IoError, Sink};
use std::alloc::{AllocError, Global};

fn line(alloc: Global, status: &Status) -> Result<String, AllocError>
    ensures { IfOk result (λ line. string_bytes line ≡ line_of status.now) }
{
    match status {
        Status::Done => Ok(String::new(alloc)),
        Status::NotBuilt => String::from_str(alloc, "error: not built\n"),
        Status::Usage => String::from_str(alloc, "error: usage\n"),
        Status::BadCommand(bad) => command_line(alloc, *bad),
        Status::BadCluster(bad) => cluster_line(alloc, *bad),
        Status::BadShard(bad) => shard_line(alloc, bad),
        Status::NoFile(name) => {
            let name = name.as_str();
            format!(in alloc; "error: no file {name}\n")
        }
        Status::FileTooLong(name, len) => {
            let name = name.as_str();
            format!(in alloc; "error: file too long {name} {len}\n")
        }
        Status::EvalError(failure) => failure_line(alloc, *failure),
        Status::TooManyDocuments => String::from_str(alloc, "error: too many documents\n"),
        Status::ReadFault => String::from_str(alloc, "error: read fault\n"),
        Status::SpillFault => String::from_str(alloc, "error: spill fault\n"),
        Status::TargetFault => String::from_str(alloc, "error: target fault\n"),
        Status::WriteFault => String::from_str(alloc, "error: write fault\n"),
        Status::Damage => String::from_str(alloc, "error: damage\n"),
        Status::Memory => String::from_str(alloc, "error: memory\n"),
    }
}

/// Puts the line of a status.
pub fn note<E: Sink>(alloc: Global, notes: &mut E, status: &Status) -> Result<(), IoError>
    ensures line { OnOk result (Appends (E.taken notes.old) (E.taken notes.new) (line_of status.now)) }
    ensures cause { Caused (E.faults notes.old) (E.faults notes.new) (IsErrOf result IoError.Failed) }
{
    match line(alloc, status) {
        Ok(line) => put_all(notes, line.as_str().as_bytes()),
        Err(_) => Err(IoError::Memory),
    }
}
