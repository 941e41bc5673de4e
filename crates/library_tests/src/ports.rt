use bson_value::{Bytes, Text};
use mq_ports::{
    DiskFiles, Files, FindError, FoundFile, IoError, MemFiles, MemSink, MemSpill, MemTarget,
    OutSink, Sink, SpillStore, SureFiles, SureSink, Target,
};
use std::alloc::Global;
use std::fs;
use std::process::Abort;
use std::test::Fail;

// The contents, read whole through a buffer of three bytes.
fn read_all<F: Files>(alloc: Global, files: &mut F, id: u64, len: u64) -> Result<Vec<u8>, IoError> {
    let mut bytes = Vec::new(alloc);
    let mut buf = [0; 3];
    for _ in 0..len {
        let count = files.read_at(id, bytes.len() as u64, &mut buf)?;
        if count == 0 {
            break;
        }
        if count <= 3 && bytes.extend_from_slice(&buf[..count]).is_err() {
            return Err(IoError::Memory);
        }
    }
    Ok(bytes)
}

fn held(alloc: Global) -> Result<(Text, Bytes), Fail> {
    let name = Text::read(alloc, b"a.bson")?;
    let mut contents = Bytes::new(alloc);
    contents.add(b"seven b")?;
    Ok((name, contents))
}

const FOUND: FoundFile = FoundFile { id: 0, len: 7 };

const OTHER: FoundFile = FoundFile { id: 1, len: 5 };

// Whether the first file's contents, read whole, are those that it is given here.
fn is_held<F: Files>(alloc: Global, files: &mut F) -> bool {
    match read_all(alloc, files, 0, 7) {
        Ok(read) => read.as_slice() == b"seven b".as_slice(),
        Err(_) => false,
    }
}

// Whether the first file is found and read in pieces, up to its end, and another isn't there.
fn is_alone<F: Files>(files: &mut F) -> bool {
    let mut buf = [0; 3];
    files.find(b"b.bson") == Err(FindError::Absent)
        && files.find(b"a.bson") == Ok(FOUND)
        && files.read_at(0, 0, &mut buf) == Ok(3)
        && files.read_at(0, 7, &mut buf) == Ok(0)
}

#[test]
fn files_in_memory(rt: HostRuntime) -> Result<(), Fail> {
    let alloc = rt.alloc();
    let mut files = MemFiles::new(alloc);
    let (name, contents) = held(alloc)?;
    files.add(name, contents)?;
    assert!(rt; is_alone(&mut files));
    for name in 1..128u8 {
        files.add(Text::read(alloc, &[name])?, Bytes::new(alloc))?;
    }
    Ok(())
}

#[test]
fn files_with_failures(rt: HostRuntime) -> Result<(), Fail> {
    let alloc = rt.alloc();
    // one find and four reads: each of these calls fails once, and the sixth is none of them
    for failing in 1..7 {
        let mut files = MemFiles::new(alloc);
        let (name, contents) = held(alloc)?;
        files.add(name, contents)?;
        files.fail_at(failing)?;
        let found = files.find(b"a.bson");
        assert!(rt; (found == Err(FindError::Failed)) == (failing == 1));
        let read = read_all(alloc, &mut files, 0, 7);
        assert!(rt; read.is_err() == (failing > 1 && failing < 6), "{failing}");
    }
    Ok(())
}

#[test]
fn files_without_failures(rt: HostRuntime) -> Result<(), Fail> {
    let alloc = rt.alloc();
    let mut files = SureFiles::new(alloc);
    let (name, contents) = held(alloc)?;
    files.add(name, contents)?;
    assert!(rt; is_alone(&mut files));
    assert!(rt; is_held(alloc, &mut files));
    files.add(Text::read(alloc, b"a.bson")?, Bytes::new(alloc))?;
    assert!(rt; files.find(b"a.bson") == Ok(FoundFile { id: 0, len: 0 }));
    Ok(())
}

#[test]
fn sinks_in_memory(rt: HostRuntime) -> Result<(), Fail> {
    let mut sink = MemSink::new(rt.alloc());
    sink.fail_at(2)?;
    assert!(rt; sink.put(b"one") == Ok(3));
    assert!(rt; sink.put(b"two") == Err(IoError::Failed));
    assert!(rt; sink.put(b"three") == Ok(5));
    assert!(rt; sink.bytes() == b"onethree".as_slice());
    let mut sink = SureSink::new(rt.alloc());
    assert!(rt; sink.put(b"one") == Ok(3));
    assert!(rt; sink.bytes() == b"one".as_slice());
    let large = vec![in rt.alloc(); 7; 2_097_152]?;
    assert!(rt; sink.put(large.as_slice()) == Ok(2_097_152));
    assert!(rt; sink.put(b"end") == Ok(3));
    Ok(())
}

#[test]
fn stores_and_targets_in_memory(rt: HostRuntime) -> Result<(), Fail> {
    let mut spill = MemSpill::new(rt.alloc());
    spill.fail_at(1)?;
    assert!(rt; spill.begin() == Err(IoError::Failed));
    let mut target = MemTarget::new(rt.alloc());
    target.fail_at(1)?;
    assert!(rt; target.select(b"t") == Err(IoError::Failed));
    Ok(())
}

#[test]
fn files_of_the_system(rt: HostRuntime) -> Result<(), Fail> {
    let alloc = rt.alloc();
    fs::write(&rt, "a.bson", b"seven b")?;
    fs::write(&rt, "c.bson", b"other")?;
    fs::create_dir(&rt, "folder")?;
    let mut files = DiskFiles::new(alloc, &rt);
    for (name, answer) in [
        (b"b.bson".as_slice(), Err(FindError::Absent)),
        (b"\xff", Err(FindError::Absent)),
        (b"", Err(FindError::Absent)),
        (b"folder", Err(FindError::Failed)),
        (b"a.bson/b", Err(FindError::Failed)),
        (b"a.bson", Ok(FOUND)),
        (b"c.bson", Ok(OTHER)),
        (b"a.bson", Ok(FOUND)),
        (b"c.bson", Ok(OTHER)),
    ] {
        assert!(rt; files.find(name) == answer);
    }
    assert!(rt; is_held(alloc, &mut files));
    let mut buf = [0; 3];
    assert!(rt; files.read_at(1, 2, &mut buf) == Ok(3));
    assert!(rt; buf.as_slice() == b"her".as_slice());
    assert!(rt; files.read_at(2, 0, &mut buf) == Ok(0));
    fs::remove_file(&rt, "a.bson")?;
    assert!(rt; files.read_at(0, 0, &mut buf) == Err(IoError::Failed));
    Ok(())
}

#[test]
fn sinks_of_the_system(rt: HostRuntime) -> Result<(), Fail> {
    let mut sink = OutSink::new(fs::create(&rt, "out.bson")?);
    assert!(rt; sink.put(b"seven b") == Ok(7));
    assert!(rt; sink.put(b"") == Ok(0));
    let mut full = OutSink::new(fs::OpenOptions::new().write(true).open(&rt, "/dev/full")?);
    assert!(rt; full.put(b"x") == Err(IoError::Failed));
    Ok(())
}
