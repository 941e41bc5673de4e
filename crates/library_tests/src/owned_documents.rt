ghost use Rattle.std.specs.Prelude.{◌<◌, length};

use bson_value::{BadWhy, Bytes, Doc, Text, Value};
use chunk_map::{Cluster, Collection, read_cluster};
use mq_ports::{Files, FindError, FoundFile, IoError, MemFiles, Outside};
use orphan_filter::{OwnedReader, ShardWhy, SurveyError, survey};
use std::alloc::Global;
use std::test::Fail;

// {cluster: 1, collections: [{name: "c", shards: [{name: "a", file: "a.bson"}]}]}
const CLUSTER: &[u8] =
    b"j\0\0\0\x10cluster\0\x01\0\0\0\x04collections\0K\0\0\0\x030\0C\0\0\0\x02name\0\x02\0\0\0c\0\x04shards\0*\0\0\0\x030\0\x22\0\0\0\x02name\0\x02\0\0\0a\0\x02file\0\x07\0\0\0a.bson\0\0\0\0\0\0";

// {_id: 3, k: 12, t: "x"}
const WHOLE: &[u8] = b"\x1e\0\0\0\x10_id\0\x03\0\0\0\x10k\0\x0c\0\0\0\x02t\0\x02\0\0\0x\0\0";

// What is wrong with a file: the contents, and the bad record's number, its place and why, if one is.
const FILES: [(&[&[u8]], Option<(u64, u64, BadWhy)>); 5] = [
    (&[], None),
    (&[WHOLE, WHOLE], None),
    // the second record lacks its last byte
    (
        &[
            WHOLE,
            b"\x1e\0\0\0\x10_id\0\x03\0\0\0\x10k\0\x0c\0\0\0\x02t\0\x02\0\0\0x\0",
        ],
        Some((2, 30, BadWhy::Truncated)),
    ),
    // {v: 1.5}
    (
        &[b"\x10\0\0\0\x01v\0\0\0\0\0\0\0\xf8\x3f\0"],
        Some((1, 4, BadWhy::TypeRefused(1))),
    ),
    // a length that no document has, behind two records
    (
        &[WHOLE, WHOLE, b"\x04\0\0\0\0"],
        Some((3, 60, BadWhy::BadLength)),
    ),
];

// Collection c with key {k: 1}, shards b and a, and the chunks [MinKey, 10) on a, [10, MaxKey) on b.
const SHARDED: &[u8] =
    b"\x13\x01\0\0\x10cluster\0\x01\0\0\0\x04collections\0\xf4\0\0\0\x030\0\xec\0\0\0\x02name\0\x02\0\0\0c\0\x03key\0\x0c\0\0\0\x10k\0\x01\0\0\0\0\x04shards\0O\0\0\0\x030\0\"\0\0\0\x02name\0\x02\0\0\0b\0\x02file\0\x07\0\0\0b.bson\0\0\x031\0\"\0\0\0\x02name\0\x02\0\0\0a\0\x02file\0\x07\0\0\0a.bson\0\0\0\x04chunks\0k\0\0\0\x030\00\0\0\0\x03min\0\x08\0\0\0\xffk\0\0\x03max\0\x0c\0\0\0\x10k\0\x0a\0\0\0\0\x02shard\0\x02\0\0\0a\0\0\x031\00\0\0\0\x03min\0\x0c\0\0\0\x10k\0\x0a\0\0\0\0\x03max\0\x08\0\0\0\x7fk\0\0\x02shard\0\x02\0\0\0b\0\0\0\0\0\0";

// What the files a and b have, and the `_id`s that their shards own. The document of `_id` 5 lies at the border of the
// chunks on both shards; one without a key counts as null; MaxKey is of the last chunk.
const SHARDS: [(&[u8], &[&[u8]], &[i32]); 2] = [
    (
        b"a.bson",
        &[
            b"\x15\0\0\0\x10_id\0\x05\0\0\0\x10k\0\x0a\0\0\0\0",
            b"\x15\0\0\0\x10_id\0\x01\0\0\0\x10k\0\x03\0\0\0\0",
            b"\x0e\0\0\0\x10_id\0\x02\0\0\0\0",
            b"\x15\0\0\0\x10_id\0\x04\0\0\0\x10k\0\x0f\0\0\0\0",
        ],
        &[1, 2],
    ),
    (
        b"b.bson",
        &[
            b"\x15\0\0\0\x10_id\0\x05\0\0\0\x10k\0\x0a\0\0\0\0",
            b"\x15\0\0\0\x10_id\0\x06\0\0\0\x10k\0\x09\0\0\0\0",
            b"\x11\0\0\0\x10_id\0\x07\0\0\0\x7fk\0\0",
        ],
        &[5, 7],
    ),
];

// A record behind another whose key is an array, and bytes behind it that no record begins with.
const ARRAY: &[&[u8]] = &[
    b"\x15\0\0\0\x10_id\0\x01\0\0\0\x10k\0\x03\0\0\0\0",
    b"\x1d\0\0\0\x10_id\0\x01\0\0\0\x04k\0\x0c\0\0\0\x100\0\x03\0\0\0\0\0",
    b"\x04\0\0\0\0",
];

fn add_file(alloc: Global, files: &mut MemFiles, name: &[u8], parts: &[&[u8]]) -> Result<(), Fail> {
    let mut contents = Bytes::new(alloc);
    for part in parts {
        contents.add(part)?;
    }
    files.add(Text::read(alloc, name)?, contents)?;
    Ok(())
}

fn files_of(alloc: Global, parts: &[&[u8]]) -> Result<MemFiles, Fail> {
    let mut files = MemFiles::new(alloc);
    add_file(alloc, &mut files, b"a.bson", parts)?;
    Ok(files)
}

fn cluster(alloc: Global, bytes: &[u8]) -> Result<Cluster, Fail> {
    Ok(read_cluster(alloc, bytes)?)
}

fn id_of(doc: &Doc) -> Option<i32> {
    match doc.get(b"_id") {
        Some(Value::Int(id)) => Some(*id),
        _ => None,
    }
}

// Ten thousand records {_id: i} of 14 bytes: 140,000 bytes, which are three pieces.
fn many_in(alloc: Global) -> Result<MemFiles, Fail> {
    let mut contents = Bytes::new(alloc);
    for i in 0..10_000u32 {
        contents.add(b"\x0e\0\0\0\x10_id\0")?;
        contents.add(&i.to_le_bytes())?;
        contents.add(b"\0")?;
    }
    let mut files = MemFiles::new(alloc);
    files.add(Text::read(alloc, b"a.bson")?, contents)?;
    Ok(files)
}

// Files in memory that tell nothing, and may say of each that it has another length.
#[derive(Drop)]
struct Quiet {
    files: MemFiles,
    said: Option<u64>,
}

impl Outside for Quiet {
    ghost use Rattle.std.specs.Prelude.{None, Some, []};

    ghost Rest = { Unit {0} };

    ghost world = { λ s. record {
      held = None;
      file_faults = s.files.faults;
      file_calls = s.files.calls;
      runs = Some [];
      spill_faults = 0;
      begun = 0;
      rest = tt;
      loans = [];
    } };
}

impl Files for Quiet {
    fn find(&mut self, name: &[u8]) -> Result<FoundFile, FindError> {
        let found = self.files.find(name)?;
        Ok(FoundFile {
            id: found.id,
            len: self.said.unwrap_or(found.len),
        })
    }

    fn read_at(&mut self, id: u64, at: u64, buf: &mut [u8]) -> Result<usize, IoError> {
        self.files.read_at(id, at, buf)
    }
}

// Whether the documents that the shard owns have just these `_id`s.
fn gives_ids(
    alloc: Global,
    collection: &Collection,
    shard: u32,
    ids: &[i32],
    files: &mut Quiet,
) -> bool
    requires { shard < length collection.now.shards }
{
    let mut reader = OwnedReader::new(shard);
    for id in ids {
        let found = match reader.next(alloc, collection, files) {
            Ok(Some(doc)) => id_of(&doc),
            _ => None,
        };
        if found != Some(*id) {
            return false;
        }
    }
    matches!(reader.next(alloc, collection, files), Ok(None))
}

// The bad record of the shard, if one is.
fn bad_in(answer: Result<(), SurveyError>) -> Result<Option<(u64, u64, ShardWhy)>, Fail> {
    match answer {
        Ok(()) => Ok(None),
        Err(SurveyError::Bad(bad)) => {
            if bad.collection.bytes() != b"c".as_slice() || bad.shard.bytes() != b"a".as_slice() {
                return Err(Fail::from("names"));
            }
            Ok(Some((bad.number, bad.at, bad.why)))
        }
        Err(_error) => Err(Fail::from("another answer")),
    }
}

#[test]
fn surveys_files(rt: HostRuntime) -> Result<(), Fail> {
    let alloc = rt.alloc();
    let cluster = cluster(alloc, CLUSTER)?;
    let collection = cluster.collection(b"c").ok_or("not named")?;
    for (parts, bad) in FILES {
        let mut files = files_of(alloc, parts)?;
        let seen = bad_in(survey(alloc, collection, &mut files))?;
        let wanted = bad.map(|(number, at, why)| (number, at, ShardWhy::Bson(why)));
        assert!(rt; seen == wanted);
    }
    Ok(())
}

#[test]
fn surveys_no_file_and_a_long_one(rt: HostRuntime) -> Result<(), Fail> {
    let alloc = rt.alloc();
    let cluster = cluster(alloc, CLUSTER)?;
    let collection = cluster.collection(b"c").ok_or("not named")?;
    let absent = survey(alloc, collection, &mut MemFiles::new(alloc));
    assert!(rt;
        matches!(&absent, Err(SurveyError::NoFile(name)) if name.bytes() == b"a.bson".as_slice())
    );
    let mut long = Quiet {
        files: files_of(alloc, &[])?,
        said: Some(4_294_967_296),
    };
    let too_long = survey(alloc, collection, &mut long);
    assert!(rt;
        matches!(&too_long, Err(SurveyError::FileTooLong(name, 4_294_967_296)) if name.bytes() == b"a.bson".as_slice())
    );
    Ok(())
}

// A file that says one byte more than it has.
#[test]
fn damage_is_told(rt: HostRuntime) -> Result<(), Fail> {
    let alloc = rt.alloc();
    let cluster = cluster(alloc, CLUSTER)?;
    let collection = cluster.collection(b"c").ok_or("not named")?;
    let mut files = Quiet {
        files: files_of(alloc, &[WHOLE])?,
        said: Some(31),
    };
    let answer = survey(alloc, collection, &mut files);
    assert!(rt; matches!(answer, Err(SurveyError::Damage)));
    Ok(())
}

#[test]
fn reads_in_pieces(rt: HostRuntime) -> Result<(), Fail> {
    let alloc = rt.alloc();
    let cluster = cluster(alloc, CLUSTER)?;
    let collection = cluster.collection(b"c").ok_or("not named")?;
    assert!(rt; collection.shards().len() == 1);
    let mut files = Quiet {
        files: many_in(alloc)?,
        said: None,
    };
    assert!(rt; survey(alloc, collection, &mut files).is_ok());
    let mut reader = OwnedReader::new(0);
    for i in 0..10_000 {
        let id = match reader.next(alloc, collection, &mut files) {
            Ok(Some(doc)) => id_of(&doc),
            _ => None,
        };
        assert!(rt; id == Some(i));
    }
    assert!(rt; matches!(reader.next(alloc, collection, &mut files), Ok(None)));
    assert!(rt; matches!(reader.next(alloc, collection, &mut files), Ok(None)));
    Ok(())
}

#[test]
fn each_call_fails_once(rt: HostRuntime) -> Result<(), Fail> {
    let alloc = rt.alloc();
    let cluster = cluster(alloc, CLUSTER)?;
    let collection = cluster.collection(b"c").ok_or("not named")?;
    // one find and three reads: each of these calls fails once, and the fifth is none of them
    for failing in 1..6 {
        let mut files = many_in(alloc)?;
        files.fail_at(failing)?;
        let answer = survey(alloc, collection, &mut files);
        assert!(rt;
            matches!(answer, Err(SurveyError::ReadFault)) == (failing < 5),
            "{failing}"
        );
    }
    Ok(())
}

#[test]
fn gives_what_shards_own(rt: HostRuntime) -> Result<(), Fail> {
    let alloc = rt.alloc();
    let cluster = cluster(alloc, SHARDED)?;
    let collection = cluster.collection(b"c").ok_or("not named")?;
    assert!(rt; collection.shards().len() == 2);
    let mut told = MemFiles::new(alloc);
    for (name, parts, _) in SHARDS {
        add_file(alloc, &mut told, name, parts)?;
    }
    let mut files = Quiet {
        files: told,
        said: None,
    };
    assert!(rt; survey(alloc, collection, &mut files).is_ok());
    assert!(rt; gives_ids(alloc, collection, 0, SHARDS[0].2, &mut files));
    assert!(rt; gives_ids(alloc, collection, 1, SHARDS[1].2, &mut files));
    add_file(alloc, &mut files.files, b"b.bson", ARRAY)?;
    let seen = survey(alloc, collection, &mut files);
    assert!(rt;
        matches!(&seen, Err(SurveyError::Bad(bad)) if bad.shard.bytes() == b"b".as_slice() && bad.number == 2 && bad.at == 21 && bad.why == ShardWhy::ArrayInKey(1))
    );
    Ok(())
}
