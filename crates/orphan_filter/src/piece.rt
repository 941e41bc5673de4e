//! Reading of files in pieces.

ghost use Rattle.std.specs.Prelude.{◌≡◌, ◌+◌, ◌-◌, ◌<◌, ◌≤◌, ◌⊎◌, IfOk, IfSome, IsErrOf, IsNone, OnOk, length, drop, vec_len};
ghost use Rattle.bson_codec.specs.Fronts.{needed};
ghost use Rattle.mq_ports.specs.Causes.{Caused};
ghost use Rattle.mq_ports.specs.World.{OnlyFileCounts, contents_at};
ghost use Rattle.orphan_filter.specs.Reading.{IsAlong};

use crate::errors::ReadError;
use bson_codec::needed_of;
use bson_value::NoMemory;
use mq_ports::{Files, IoError};
use std::alloc::Global;

const PIECE: usize = 65536;

/// Room for a piece of a file.
pub fn make_piece(alloc: Global) -> Result<Vec<u8>, NoMemory>
    ensures { IfOk result (λ piece. 0 < vec_len piece) }
{
    match vec![in alloc; 0; PIECE] {
        Ok(piece) => Ok(piece),
        Err(_) => Err(NoMemory),
    }
}

/// Drops that many bytes at the front.
pub fn drop_front(bytes: &mut Vec<u8>, n: usize)
    requires { n ≤ vec_len bytes.old }
    ensures items { bytes.new.items ≡ drop n bytes.old.items }
    ensures len { vec_len bytes.new ≡ vec_len bytes.old - n }
{
    let len = bytes.len();
    bytes.as_mut_slice().copy_within(n..len, 0);
    bytes.truncate(len - n);
}

// Reads a piece behind what was read of the bytes at a place.
fn read_more<F: Files>(
    files: &mut F,
    id: u64,
    len: u64,
    place: u64,
    piece: &mut [u8],
    ahead: &mut Vec<u8>,
) -> Result<(), ReadError>
    requires room { 0 < length piece.old }
    requires before { place + vec_len ahead.old < len }
    requires along { IfSome (F.world files.old).held (λ held. IsAlong len place ahead.old.items (contents_at id held)) }

    ensures more { OnOk result (vec_len ahead.old < vec_len ahead.new) }
    ensures within { place + vec_len ahead.new ≤ len }
    ensures along { OnOk result (IfSome (F.world files.new).held (λ held. IsAlong len place ahead.new.items (contents_at id held))) }
    ensures damage { IsErrOf result ReadError.Damage → IsNone (F.world files.old).held }
    ensures cause { Caused (F.world files.old).file_faults (F.world files.new).file_faults (IsErrOf result ReadError.Failed) }
    ensures alone { OnlyFileCounts (F.world files.old) (F.world files.new) }
{
    let at = place + ahead.len() as u64;
    let want = (len - at).min(piece.len() as u64) as usize;
    let buf = &mut piece[..want];
    let count = match files.read_at(id, at, buf) {
        Ok(count) => count,
        Err(IoError::Failed) => return Err(ReadError::Failed),
        Err(IoError::Memory) => return Err(ReadError::Memory),
    };
    if count == 0 {
        return Err(ReadError::Damage);
    }
    match ahead.extend_from_slice(&buf[..count]) {
        Ok(()) => Ok(()),
        Err(_) => Err(ReadError::Memory),
    }
}

/// Reads on until what was read of the bytes at a place has the record there whole, or the file has ended.
pub fn read_on<F: Files>(
    files: &mut F,
    id: u64,
    len: u64,
    place: u64,
    piece: &mut [u8],
    ahead: &mut Vec<u8>,
) -> Result<(), ReadError>
    requires room { 0 < length piece.old }
    requires within { place + vec_len ahead.old ≤ len }
    requires along { IfSome (F.world files.old).held (λ held. IsAlong len place ahead.old.items (contents_at id held)) }

    ensures enough { OnOk result ((needed ahead.new.items ≤ vec_len ahead.new) ⊎ (place + vec_len ahead.new ≡ len)) }
    ensures within { place + vec_len ahead.new ≤ len }
    ensures along { OnOk result (IfSome (F.world files.new).held (λ held. IsAlong len place ahead.new.items (contents_at id held))) }
    ensures damage { IsErrOf result ReadError.Damage → IsNone (F.world files.old).held }
    ensures cause { Caused (F.world files.old).file_faults (F.world files.new).file_faults (IsErrOf result ReadError.Failed) }
    ensures alone { OnlyFileCounts (F.world files.old) (F.world files.new) }
{
    'pieces: while ahead.len() < needed_of(ahead.as_slice()) {
        if place + ahead.len() as u64 == len {
            return Ok(());
        }
        read_more(files, id, len, place, piece, ahead)?;
    }
    Ok(())
}
