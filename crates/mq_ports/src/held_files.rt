ghost use Rattle.std.specs.Prelude.{◌≡◌, ◌<◌, ◌≤◌, length, drop, IfSome, IfNone, OnOk, OnErr};
ghost use Rattle.mq_ports.specs.World.{contents_at, id_of, with_file};
ghost use Rattle.mq_ports.specs.Reads.{GivesFront};

use crate::FoundFile;
use bson_value::{Bytes, NoMemory, Text};

fn place_in(files: &[(Text, Bytes)], name: &[u8]) -> Option<usize>
    ensures place { result ≡ id_of name.now files.now }
    ensures bound { IfSome result (λ id. id < length files.now) }
{
    files.iter().position(|file| file.0.bytes() == name)
}

// The file of this name.
pub(crate) fn find_in(files: &[(Text, Bytes)], name: &[u8]) -> Option<FoundFile>
    ensures found { IfSome result (λ f. (id_of name.now files.now ≡ Some f.id) × (f.len ≡ length (contents_at f.id files.now))) }
    ensures absent { IfNone result (id_of name.now files.now ≡ None) }
{
    let id = place_in(files, name)? as u64;
    Some(FoundFile {
        id,
        len: contents(files, id).len() as u64,
    })
}

fn contents(files: &[(Text, Bytes)], id: u64) -> &[u8]
    ensures { result.now ≡ contents_at id files.now }
{
    match files.get(id as usize) {
        Some(file) => file.1.bytes(),
        None => &[],
    }
}

fn copy_front(bytes: &[u8], at: u64, buf: &mut [u8]) -> usize
    ensures bound { result ≤ length buf.new }
    ensures front { GivesFront (drop at bytes.now) result buf.new }
{
    if at >= bytes.len() as u64 {
        return 0;
    }
    let rest = &bytes[at as usize..];
    let count = rest.len().min(buf.len());
    buf[..count].copy_from_slice(&rest[..count]);
    count
}

// Copies a front of the bytes that the file of this id has at the place.
pub(crate) fn read_in(files: &[(Text, Bytes)], id: u64, at: u64, buf: &mut [u8]) -> usize
    ensures bound { result ≤ length buf.new }
    ensures front { GivesFront (drop at (contents_at id files.now)) result buf.new }
{
    copy_front(contents(files, id), at, buf)
}

// Puts a file there, in place of what an equal name had.
pub(crate) fn put_in(
    files: &mut Vec<(Text, Bytes)>,
    name: Text,
    contents: Bytes,
) -> Result<(), NoMemory>
    ensures ok { OnOk result (files.new.items ≡ with_file name contents files.old.items) }
    ensures err { OnErr result (files.new.items ≡ files.old.items) }
{
    match place_in(files, name.bytes()) {
        Some(id) => files[id] = (name, contents),
        None => files.push((name, contents))?,
    }
    Ok(())
}
