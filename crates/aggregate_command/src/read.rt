//! Reading of a file.

ghost use Rattle.std.specs.Prelude.{◌≡◌, ◌<◌, ◌≤◌, IfOk, IfSome, IsErrOf, IsNone, OnOk, length, vec_len};
ghost use Rattle.mq_ports.specs.Causes.{Caused};
ghost use Rattle.mq_ports.specs.World.{contents_at};
ghost use Rattle.aggregate_command.specs.Reading.{IsFront};

use bson_value::NoMemory;
use mq_ports::{Files, IoError};
use std::alloc::Global;

// How many bytes are read at once.
const PIECE: usize = 65_536;

/// Why a file wasn't read.
#[derive(Clone, Copy, Debug, PartialEq, Eq)]
pub enum ReadError {
    /// A read failed, and was counted.
    Failed,
    /// The file ended before the length that was told of it.
    Damage,
    /// Memory was refused.
    Memory,
}

// Room for a piece of a file.
fn make_piece(alloc: Global) -> Result<Vec<u8>, NoMemory>
    ensures { IfOk result (λ piece. 0 < vec_len piece) }
{
    match vec![in alloc; 0; PIECE] {
        Ok(piece) => Ok(piece),
        Err(_) => Err(NoMemory),
    }
}

// Reads a piece behind a front that was read.
fn read_more<F: Files>(
    files: &mut F,
    id: u64,
    len: u64,
    piece: &mut [u8],
    bytes: &mut Vec<u8>,
) -> Result<(), ReadError>
    requires room { 0 < length piece.old }
    requires before { vec_len bytes.old < len }
    requires len { IfSome (F.world files.old).held (λ held. len ≡ length (contents_at id held)) }
    requires front { IfSome (F.world files.old).held (λ held. IsFront bytes.old.items (contents_at id held)) }

    ensures more { OnOk result (vec_len bytes.old < vec_len bytes.new) }
    ensures within { OnOk result (vec_len bytes.new ≤ len) }
    ensures front { OnOk result (IfSome (F.world files.new).held (λ held. IsFront bytes.new.items (contents_at id held))) }
    ensures damage { IsErrOf result ReadError.Damage → IsNone (F.world files.old).held }
    ensures cause { Caused (F.world files.old).file_faults (F.world files.new).file_faults (IsErrOf result ReadError.Failed) }
    ensures held { (F.world files.new).held ≡ (F.world files.old).held }
{
    let at = bytes.len() as u64;
    let want = (len - at).min(piece.len() as u64) as usize;
    let buf = &mut piece[..want];
    let count = match files.read_at(id, at, buf) {
        Ok(count) => count,
        Err(IoError::Failed) => return Err(ReadError::Failed),
        Err(IoError::Memory) => return Err(ReadError::Memory),
    };
    if count == 0 {
        return Err(ReadError::Damage);
    }
    match bytes.extend_from_slice(&buf[..count]) {
        Ok(()) => Ok(()),
        Err(_) => Err(ReadError::Memory),
    }
}

/// Reads a file whole, of which `find` gave the id and the length. Each read gives a byte or ends the reading, so
/// there are at most as many as the length says.
pub fn read_whole<F: Files>(
    alloc: Global,
    files: &mut F,
    id: u64,
    len: u64,
) -> Result<Vec<u8>, ReadError>
    requires { IfSome (F.world files.old).held (λ held. len ≡ length (contents_at id held)) }
    ensures whole { IfOk result (λ bytes. IfSome (F.world files.old).held (λ held. bytes.items ≡ contents_at id held)) }
    ensures len { IfOk result (λ bytes. vec_len bytes ≡ len) }
    ensures damage { IsErrOf result ReadError.Damage → IsNone (F.world files.old).held }
    ensures cause { Caused (F.world files.old).file_faults (F.world files.new).file_faults (IsErrOf result ReadError.Failed) }
    ensures held { (F.world files.new).held ≡ (F.world files.old).held }
{
    let Ok(mut piece) = make_piece(alloc) else {
        return Err(ReadError::Memory);
    };
    let mut bytes = Vec::new(alloc);
    'pieces: while (bytes.len() as u64) < len {
        read_more(files, id, len, piece.as_mut_slice(), &mut bytes)?;
    }
    Ok(bytes)
}
