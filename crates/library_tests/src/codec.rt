ghost use Rattle.std.specs.Prelude.{◌<◌, ◌≤◌, ◌^◌, length};

use bson_codec::{DecodeError, decode, encode, encoded_len};
use bson_value::{BadBson, BadWhy, Bytes};
use std::test::Fail;

// Bytes, and the place and cause of their leftmost fault: at least two for each line of the table of faults.
const FAULTS: [(&[u8], usize, BadWhy); 54] = [
    // fewer than 4 bytes for a length
    (b"", 0, BadWhy::Truncated),
    (b"\x05\0\0", 0, BadWhy::Truncated),
    (b"\x08\0\0\0\x04a\0\0", 7, BadWhy::BadLength),
    (b"\x0a\0\0\0\x03a\0\x05\0\0", 7, BadWhy::BadLength),
    // a length below 5
    (b"\x04\0\0\0", 0, BadWhy::BadLength),
    (b"\xff\xff\xff\xff\0", 0, BadWhy::BadLength),
    (b"\x0c\0\0\0\x03a\0\x04\0\0\0\0", 7, BadWhy::BadLength),
    (b"\x0d\0\0\0\x04a\0\0\0\0\x80\0\0", 7, BadWhy::BadLength),
    // a document of more than 16,777,216 bytes
    (b"\x01\0\0\x01\0", 0, BadWhy::TooLong),
    (b"\xff\xff\xff\x7f\0", 0, BadWhy::TooLong),
    // a length passes the end
    (b"\x06\0\0\0\0", 0, BadWhy::Truncated),
    (b"\0\0\0\x01\0", 0, BadWhy::Truncated),
    (b"\x0d\0\0\0\x03a\0\x06\0\0\0\0\0", 7, BadWhy::BadLength),
    (
        b"\x0d\0\0\0\x04a\0\xff\xff\xff\x7f\0\0",
        7,
        BadWhy::BadLength,
    ),
    // a type byte 0 before the end, or a last byte that isn't 0
    (b"\x06\0\0\0\0\0", 4, BadWhy::BadLength),
    (b"\x09\0\0\0\x0aa\0\0\0", 7, BadWhy::BadLength),
    (b"\x05\0\0\0\x01", 4, BadWhy::BadLength),
    (b"\x08\0\0\0\x0aa\0\x0a", 7, BadWhy::BadLength),
    (b"\x0d\0\0\0\x03a\0\x05\0\0\0\x07\0", 11, BadWhy::BadLength),
    // an unknown type byte
    (
        b"\x10\0\0\0\x01v\0\0\0\0\0\0\0\xf8\x3f\0",
        4,
        BadWhy::TypeRefused(1),
    ),
    (b"\x0b\0\0\0\x0aa\0\x06b\0\0", 7, BadWhy::TypeRefused(6)),
    (b"\x06\0\0\0\x13\0", 4, BadWhy::TypeRefused(0x13)),
    // a name without a 0
    (b"\x06\0\0\0\x0a\0", 5, BadWhy::BadLength),
    (b"\x0a\0\0\0\x0aa\0\x0ab\0", 8, BadWhy::BadLength),
    // a name that isn't UTF-8
    (b"\x08\0\0\0\x0a\xff\0\0", 5, BadWhy::NotText),
    (b"\x0c\0\0\0\x0aa\0\x0a\xc3(\0\0", 8, BadWhy::NotText),
    (
        b"\x10\0\0\0\x04a\0\x08\0\0\0\x0a\x80\0\0\0",
        12,
        BadWhy::NotText,
    ),
    // an array's name that isn't its member's index
    (
        b"\x10\0\0\0\x04a\0\x08\0\0\0\x0a1\0\0\0",
        12,
        BadWhy::ArrayName,
    ),
    (
        b"\x11\0\0\0\x04a\0\x09\0\0\0\x0a00\0\0\0",
        12,
        BadWhy::ArrayName,
    ),
    (
        b"\x13\0\0\0\x04a\0\x0b\0\0\0\x0a0\0\x0a0\0\0\0",
        15,
        BadWhy::ArrayName,
    ),
    // a name for the second time
    (b"\x0b\0\0\0\x0aa\0\x0aa\0\0", 8, BadWhy::TwiceNamed),
    (b"\x0e\0\0\0\x0aa\0\x0ab\0\x7fa\0\0", 11, BadWhy::TwiceNamed),
    (b"\x09\0\0\0\x0a\0\xff\0\0", 7, BadWhy::TwiceNamed),
    // a value passes the end of its document
    (b"\x0b\0\0\0\x10a\0\x01\0\0\0", 7, BadWhy::BadLength),
    (b"\x0f\0\0\0\x12a\0\x01\0\0\0\0\0\0\0", 7, BadWhy::BadLength),
    (
        b"\x13\0\0\0\x07a\0\0\0\0\0\0\0\0\0\0\0\0\0",
        7,
        BadWhy::BadLength,
    ),
    (b"\x08\0\0\0\x08a\0\0", 7, BadWhy::BadLength),
    (b"\x08\0\0\0\x09a\0\0", 7, BadWhy::BadLength),
    (b"\x08\0\0\0\x11a\0\0", 7, BadWhy::BadLength),
    // the length of a text or of binary data is wrong
    (b"\x0d\0\0\0\x02a\0\0\0\0\0\0\0", 7, BadWhy::BadLength),
    (b"\x0e\0\0\0\x02a\0\x03\0\0\0x\0\0", 7, BadWhy::BadLength),
    (
        b"\x0e\0\0\0\x02a\0\xff\xff\xff\xffx\0\0",
        7,
        BadWhy::BadLength,
    ),
    (b"\x0a\0\0\0\x02a\0\x02\0\0", 7, BadWhy::BadLength),
    (b"\x0c\0\0\0\x05a\0\0\0\0\0\0", 7, BadWhy::BadLength),
    (b"\x0e\0\0\0\x05a\0\x02\0\0\0\0x\0", 7, BadWhy::BadLength),
    (b"\x0e\0\0\0\x05a\0\0\0\0\x80\0x\0", 7, BadWhy::BadLength),
    // a text doesn't end with a byte 0
    (b"\x0e\0\0\0\x02a\0\x02\0\0\0xy\0", 7, BadWhy::BadLength),
    (b"\x0d\0\0\0\x02a\0\x01\0\0\0\xff\0", 7, BadWhy::BadLength),
    // a text that isn't UTF-8
    (b"\x0e\0\0\0\x02a\0\x02\0\0\0\xff\0\0", 7, BadWhy::NotText),
    (
        b"\x0f\0\0\0\x02a\0\x03\0\0\0\xed\xa0\0\0",
        7,
        BadWhy::NotText,
    ),
    // a boolean that is neither 0 nor 1
    (b"\x09\0\0\0\x08f\0\x02\0", 7, BadWhy::BadFlag),
    (b"\x0d\0\0\0\x08f\0\x01\x08g\0\xff\0", 11, BadWhy::BadFlag),
    (
        b"\x11\0\0\0\x04a\0\x09\0\0\0\x080\0\x02\0\0",
        14,
        BadWhy::BadFlag,
    ),
    (
        b"\x10\0\0\0\x03a\0\x08\0\0\0\x08\0\x80\0\0",
        13,
        BadWhy::BadFlag,
    ),
];

// Pieces of a document's body with one fault each, the place of the fault where the piece comes first, and its cause.
const PIECES: [(&[u8], usize, BadWhy); 12] = [
    (b"\0", 4, BadWhy::BadLength),
    (b"\x01a\0", 4, BadWhy::TypeRefused(1)),
    (b"\x0a\xff\0", 5, BadWhy::NotText),
    (b"\x0aa\0\x0aa\0", 8, BadWhy::TwiceNamed),
    (b"\x08b\0\x02", 7, BadWhy::BadFlag),
    (b"\x02c\0\0\0\0\0", 7, BadWhy::BadLength),
    (b"\x02d\0\x02\0\0\0xy", 7, BadWhy::BadLength),
    (b"\x02e\0\x02\0\0\0\xff\0", 7, BadWhy::NotText),
    (b"\x03g\0\x04\0\0\0\0", 7, BadWhy::BadLength),
    (b"\x04h\0\x08\0\0\0\x0a1\0\0", 12, BadWhy::ArrayName),
    (b"\x03i\0\x05\0\0\0\x01", 11, BadWhy::BadLength),
    (b"\x05j\0\xff\xff\xff\xff\0", 7, BadWhy::BadLength),
];

// A document of three levels with a value of each type.
const ALL: &[u8] =
    b"t\0\0\0\xff\0\x02s\0\x03\0\0\0\xc3\xa9\0\x03d\0G\0\0\0\x04l\0\x1b\0\0\0\x100\0\xfe\xff\xff\xff\x121\0\xfd\xff\xff\xff\xff\xff\xff\xff\x082\0\x01\0\x07i\0\x01\x02\x03\x04\x05\x06\x07\x08\x09\x0a\x0b\x0c\x09t\0\xff\xff\xff\xff\xff\xff\xff\xff\x05b\0\x02\0\0\0\x80\0\xff\0\x11u\0\0\0\0\0\0\0\0\x80\x0an\0\x7fz\0\x04e\0\x05\0\0\0\0\0";

fn fault_at(rt: &HostRuntime, bytes: &[u8], start: usize) -> Option<(usize, BadWhy)>
    requires { start ≤ length bytes.now }
{
    match decode(rt.alloc(), bytes, start) {
        Err(DecodeError::Bad(BadBson { at, why })) => Some((at, why)),
        _ => None,
    }
}

fn fault(rt: &HostRuntime, bytes: &[u8]) -> Option<(usize, BadWhy)> {
    fault_at(rt, bytes, 0)
}

// A body of two pieces, with its length before it and the last byte behind it.
fn document(rt: &HostRuntime, first: &[u8], second: &[u8], last: u8) -> Result<Bytes, Fail> {
    let mut out = Bytes::new(rt.alloc());
    out.add(&[0, 0, 0, 0])?;
    out.add(first)?;
    out.add(second)?;
    out.add(&[last])?;
    let len = u32::try_from(out.bytes().len()).ok().ok_or("too long")?;
    out.patch(0, &len.to_le_bytes());
    Ok(out)
}

// So many documents, or arrays in a document, one in the other.
fn nested(rt: &HostRuntime, kind: u8, levels: u32) -> Result<Bytes, Fail>
    requires low { 1 ≤ levels }
    requires high { levels < 2 ^ 16 }
{
    let mut out = Bytes::new(rt.alloc());
    for inner in (1..levels).rev() {
        out.add(&(8 * inner + 5).to_le_bytes())?;
        out.add(&[kind, b'0', 0])?;
    }
    out.add(&[5, 0, 0, 0, 0])?;
    for _ in 1..levels {
        out.add(&[0])?;
    }
    Ok(out)
}

// Nulls under so many names of one byte, and then under one more name.
fn wide(rt: &HostRuntime, names: u8, last: u8) -> Result<Bytes, Fail> {
    let mut pieces = Bytes::new(rt.alloc());
    for i in 0..names {
        pieces.add(&[0x0A, i | 0x40, 0])?;
    }
    document(rt, pieces.bytes(), &[0x0A, last | 0x40, 0], 0)
}

#[test]
fn the_leftmost_fault_stands(rt: HostRuntime) -> Result<(), Fail> {
    for (bytes, at, why) in FAULTS {
        assert!(rt; fault(&rt, bytes) == Some((at, why)));
    }
    for (first, at, why) in PIECES {
        for (second, _, _) in PIECES {
            let bytes = document(&rt, first, second, 1)?;
            assert!(rt; fault(&rt, bytes.bytes()) == Some((at, why)));
        }
    }
    Ok(())
}

#[test]
fn faults_of_short_deep_and_wide_documents(rt: HostRuntime) -> Result<(), Fail> {
    for len in 0..ALL.len() {
        assert!(rt; fault(&rt, &ALL[..len]) == Some((0, BadWhy::Truncated)));
    }
    for kind in [3, 4] {
        let bytes = nested(&rt, kind, 101)?;
        assert!(rt; fault(&rt, bytes.bytes()) == Some((700, BadWhy::TooDeep)));
    }
    for name in 0..40 {
        let bytes = wide(&rt, 40, name)?;
        assert!(rt; fault(&rt, bytes.bytes()) == Some((125, BadWhy::TwiceNamed)));
    }
    Ok(())
}

const SMALL: &[u8] = b"\x1e\0\0\0\x10_id\0\x01\0\0\0\x10k\0\x03\0\0\0\x02t\0\x02\0\0\0x\0\0";

// Whether the bytes are one document, which is written again as they are, behind what stood there, and which is as
// long as they are.
fn comes_back(rt: &HostRuntime, bytes: &[u8]) -> Result<bool, Fail> {
    let (doc, end) = decode(rt.alloc(), bytes, 0)?;
    let len = bytes.len() as u64;
    let measured = encoded_len(&doc, len) == Some(len) && encoded_len(&doc, len - 1).is_none();
    let mut out = Bytes::new(rt.alloc());
    out.add(b"kept")?;
    encode(&doc, &mut out)?;
    let (kept, written) = out.bytes().split_at(4);
    Ok(end == bytes.len() && measured && kept == b"kept".as_slice() && written == bytes)
}

#[test]
fn what_was_read_is_written_again(rt: HostRuntime) -> Result<(), Fail> {
    for bytes in [b"\x05\0\0\0\0".as_slice(), SMALL, ALL] {
        assert!(rt; comes_back(&rt, bytes)?);
    }
    for kind in [3, 4] {
        assert!(rt; comes_back(&rt, nested(&rt, kind, 100)?.bytes())?);
    }
    assert!(rt; comes_back(&rt, wide(&rt, 40, 40)?.bytes())?);
    Ok(())
}

#[test]
fn places_count_from_the_beginning(rt: HostRuntime) -> Result<(), Fail> {
    let mut file = Bytes::new(rt.alloc());
    file.add(SMALL)?;
    file.add(ALL)?;
    let (_, end) = decode(rt.alloc(), file.bytes(), 30)?;
    assert!(rt; end == 146);
    file.add(b"\x05\0\0\0\x01")?;
    assert!(rt; fault_at(&rt, file.bytes(), 146) == Some((150, BadWhy::BadLength)));
    Ok(())
}
