use bson_value::{Bytes, Doc, Docs, EvalCode, List, Name, Path, PathError, Text, Value, depth_of};
use std::alloc::Global;
use std::test::Fail;

// Texts of paths, with the number of their steps, or 0 where they are none.
const PATHS: [(&[u8], usize); 14] = [
    (b"a", 1),
    (b"a.b", 2),
    (b"a.$b", 0),
    (b"$a", 0),
    (b"a$", 1),
    (b"", 0),
    (b".", 0),
    (b"a.", 0),
    (b".a", 0),
    (b"a..b", 0),
    (b"a\0", 0),
    (b"\xc3\xa9.0", 2),
    (b"a.\xc3", 0),
    (b"\xc3.\xa9", 0),
];

// The number of steps of a text, of whose path a copy has the same first step, or 0 where it is no path.
fn steps_of(alloc: Global, text: &[u8]) -> Option<usize> {
    match Path::read(alloc, text) {
        Ok(path) => {
            let copy = path.copy(alloc).ok()?;
            (copy.step(0) == path.step(0)).then_some(path.len())
        }
        Err(error) => (error == PathError::Bad).then_some(0),
    }
}

// Texts of the table, and at the limit of steps.
#[test]
fn paths_have_steps(rt: HostRuntime) -> Result<(), Fail> {
    for (text, steps) in PATHS {
        assert!(rt; steps_of(rt.alloc(), text) == Some(steps));
    }
    let mut text = Bytes::new(rt.alloc());
    text.add(b"a")?;
    for _ in 1..100 {
        text.add(b".a")?;
    }
    assert!(rt; steps_of(rt.alloc(), text.bytes()) == Some(100));
    text.add(b".a")?;
    assert!(rt; Path::read(rt.alloc(), text.bytes()).is_err());
    Ok(())
}

// How deep the brackets of a list within lists go, as `depth_of` counts it: one for the innermost too.
fn nested(alloc: Global, levels: u32) -> Option<Value> {
    let mut value = Value::Null;
    for _ in 0..levels {
        let mut list = List::new(alloc);
        list.add(Value::Null).ok()?;
        list.add(value).ok()?;
        value = Value::List(list);
    }
    Some(value)
}

#[test]
fn values_have_depths(rt: HostRuntime) -> Result<(), Fail> {
    for levels in [0, 1, 2, 3] {
        let value = nested(rt.alloc(), levels).ok_or("memory")?;
        assert!(rt; depth_of(&value, levels) == Some(levels));
        assert!(rt; depth_of(&value, 2).is_some() == (levels <= 2));
    }
    let empty = Value::Doc(Doc::new(rt.alloc()));
    assert!(rt; depth_of(&empty, 1) == Some(1));
    assert!(rt; depth_of(&empty, 0) == None);
    Ok(())
}

#[test]
fn texts_and_names(rt: HostRuntime) -> Result<(), Fail> {
    let text = Text::read(rt.alloc(), b"\xc3\xa9\0")?;
    assert!(rt; text.copy(rt.alloc())?.as_str() == "\u{e9}\0");
    assert!(rt; Text::read(rt.alloc(), b"\xff").is_err());
    assert!(rt; Name::read(rt.alloc(), b"a\0").is_err());
    Ok(())
}

// Numbers that are put under names one after another.
fn numbers(alloc: Global, fields: &[(&[u8], i32)]) -> Result<Doc, Fail> {
    let mut doc = Doc::new(alloc);
    for (name, number) in fields {
        let name = Name::read(alloc, name)?;
        doc.put(name.copy(alloc)?, Value::Int(*number))?;
    }
    Ok(doc)
}

fn number_in(value: Option<&Value>) -> Option<i32> {
    match value {
        Some(Value::Int(number)) => Some(*number),
        _ => None,
    }
}

#[test]
fn fields_are_found_and_taken(rt: HostRuntime) -> Result<(), Fail> {
    let mut doc = numbers(rt.alloc(), &[(b"a", 1), (b"b", 2), (b"a", 3), (b"c", 4)])?;
    assert!(rt; doc.len() == 3);
    assert!(rt; number_in(doc.get(b"a")) == Some(3));
    assert!(rt; doc.get(b"d").is_none());
    assert!(rt; number_in(doc.take(b"a").as_ref()) == Some(3));
    assert!(rt; doc.get(b"a").is_none());
    assert!(rt; doc.len() == 2);
    assert!(rt; doc.name(0) == b"b".as_slice());
    assert!(rt; number_in(Some(doc.value(0))) == Some(2));
    Ok(())
}

#[test]
fn fields_change_in_place(rt: HostRuntime) -> Result<(), Fail> {
    let mut doc = Doc::new(rt.alloc());
    doc.append(Name::read(rt.alloc(), b"z")?, Value::Null)?;
    assert!(rt; doc.len() == 1);
    assert!(rt; doc.place(b"z") == Some(0));
    assert!(rt; matches!(doc.replace(0, Value::Flag(true)), Value::Null));
    assert!(rt; matches!(doc.get(b"z"), Some(Value::Flag(true))));
    let mut fields = doc.into_fields();
    assert!(rt; matches!(fields.next(), Some((_, Value::Flag(true)))));
    assert!(rt; fields.next().is_none());
    Ok(())
}

#[test]
fn documents_in_order(rt: HostRuntime) -> Result<(), Fail> {
    let mut docs = Docs::new(rt.alloc());
    docs.add(numbers(rt.alloc(), &[(b"b", 2), (b"c", 4)])?)?;
    docs.add(Doc::new(rt.alloc()))?;
    let mut copy = docs.copy(rt.alloc())?;
    assert!(rt; copy.len() == 2);
    let first = copy.take_first().ok_or("empty")?;
    assert!(rt; first.len() == 2);
    assert!(rt; copy.len() == 1);
    assert!(rt; copy.replace(0, first).len() == 0);
    assert!(rt; number_in(copy.doc(0).get(b"c")) == Some(4));
    Ok(())
}

#[test]
fn lists_and_bytes_change_in_place(rt: HostRuntime) -> Result<(), Fail> {
    let mut list = List::new(rt.alloc());
    list.add(Value::Int(1))?;
    assert!(rt; list.len() == 1);
    assert!(rt; matches!(list.replace(0, Value::Int(2)), Value::Int(1)));
    assert!(rt; number_in(Some(list.value(0))) == Some(2));
    let mut bytes = Bytes::new(rt.alloc());
    bytes.add(b"abcd")?;
    assert!(rt; bytes.bytes().len() == 4);
    bytes.patch(1, b"xy");
    bytes.truncate(3);
    assert!(rt; bytes.copy(rt.alloc())?.bytes() == b"axy".as_slice());
    Ok(())
}

#[test]
fn codes_have_numbers(rt: HostRuntime) {
    for (code, number) in [
        (EvalCode::WrongType, 1),
        (EvalCode::NotDocument, 8),
        (EvalCode::NotMatched, 17),
    ] {
        assert!(rt; code.number() == number);
    }
}
