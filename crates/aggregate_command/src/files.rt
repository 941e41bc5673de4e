//! The named files.

ghost use Rattle.std.specs.Prelude.{◌≡◌, ◌⊎◌, IfErr, IfSome, IsErrOf};
ghost use Rattle.mq_ports.specs.Causes.{Caused};
ghost use Rattle.aggregate_command.specs.Status.{Answers, IsOfFiles};
ghost use Rattle.aggregate_command.specs.Verdict.{file_in};

use crate::read::{ReadError, read_whole};
use crate::status::Status;
use bson_value::Text;
use mq_ports::{Files, FindError};
use std::alloc::Global;

/// The most bytes that a cluster file or a command file has.
const LONGEST: u64 = 16_777_216;

// That a file isn't held.
fn lacking(alloc: Global, name: &Text) -> Status
    ensures { (result ≡ Status.NoFile name.now) ⊎ (result ≡ Status.Memory) }
{
    match name.copy(alloc) {
        Ok(name) => Status::NoFile(name),
        Err(_) => Status::Memory,
    }
}

// That a file has too many bytes.
fn too_long(alloc: Global, name: &Text, len: u64) -> Status
    ensures { (result ≡ Status.FileTooLong name.now len) ⊎ (result ≡ Status.Memory) }
{
    match name.copy(alloc) {
        Ok(name) => Status::FileTooLong(name, len),
        Err(_) => Status::Memory,
    }
}

/// The bytes of a named file, which is held and not too long.
pub fn read_file<F: Files>(alloc: Global, files: &mut F, name: &Text) -> Result<Vec<u8>, Status>
    ensures bytes { IfSome (F.world files.old).held (λ held. Answers (λ bytes. bytes.items) result (file_in held name.now)) }
    ensures refusal { IfErr result IsOfFiles }
    ensures cause { Caused (F.world files.old).file_faults (F.world files.new).file_faults (IsErrOf result Status.ReadFault) }
    ensures held { (F.world files.new).held ≡ (F.world files.old).held }
{
    let found = match files.find(name.bytes()) {
        Ok(found) => found,
        Err(FindError::Absent) => return Err(lacking(alloc, name)),
        Err(FindError::Failed) => return Err(Status::ReadFault),
        Err(FindError::Memory) => return Err(Status::Memory),
    };
    if found.len > LONGEST {
        return Err(too_long(alloc, name, found.len));
    }
    match read_whole(alloc, files, found.id, found.len) {
        Ok(bytes) => Ok(bytes),
        Err(ReadError::Failed) => Err(Status::ReadFault),
        Err(ReadError::Damage) => Err(Status::Damage),
        Err(ReadError::Memory) => Err(Status::Memory),
    }
}
