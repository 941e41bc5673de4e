//! Strict reading of BSON: reads the documents of a file into owned trees, and counts them and their fields; or reads
//! many small cases, and tells the answer to each.

use bson_codec::{DecodeError, decode};
use std::alloc::Global;
use std::rt::Files;
use std::{fs, io};

#[derive(Drop)]
struct Tally {
    docs: u64,
    fields: u64,
}

fn count(alloc: Global, bytes: &[u8]) -> Result<Tally, DecodeError> {
    let mut docs = 0u64;
    let mut fields = 0u64;
    let mut at = 0;
    for _ in 0..bytes.len() {
        if at == bytes.len() {
            break;
        }
        let (doc, end) = decode(alloc, bytes, at)?;
        docs = docs.wrapping_add(1);
        fields = fields.wrapping_add(doc.len() as u64);
        at = end;
    }
    Ok(Tally { docs, fields })
}

/// Reads the documents of the file of that path.
pub fn run(rt: &(impl Files + Print + AllocGlobal), path: &str) -> Result<(), io::Error> {
    let bytes = fs::read(rt, path)?;
    match count(rt.alloc(), bytes.as_slice()) {
        Ok(count) => println!(rt; "{} documents, {} fields", count.docs, count.fields),
        Err(DecodeError::Bad(bad)) => println!(rt; "bad at {}", bad.at),
        Err(DecodeError::Memory) => println!(rt; "no memory"),
    }
}

/// Reads the pieces of the file of that path, which are so long each, and tells the answer to each.
pub fn cases(
    rt: &(impl Files + Print + AllocGlobal),
    path: &str,
    len: usize,
) -> Result<(), io::Error> {
    let bytes = fs::read(rt, path)?;
    let mut rest = bytes.as_slice();
    for _ in 0..bytes.len() {
        if len == 0 || rest.len() < len {
            break;
        }
        let (piece, after) = rest.split_at(len);
        match decode(rt.alloc(), piece, 0) {
            Ok((_doc, end)) => println!(rt; "ok {end}")?,
            Err(DecodeError::Bad(bad)) => println!(rt; "{} {:?}", bad.at, bad.why)?,
            Err(DecodeError::Memory) => println!(rt; "no memory")?,
        }
        rest = after;
    }
    Ok(())
}
