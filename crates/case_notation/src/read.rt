use crate::case::{Case, Item};
use crate::token::{NoToken, Token, first_token};
use bson_value::{Bytes, Doc, List, Name, Text, Value};
use hex::FromHex;
use std::alloc::Global;

/// A document or an array whose end is still to come.
#[derive(Drop)]
enum Open {
    /// A document, before a name or its end.
    Doc(Doc),
    /// A document, before the colon of a name.
    Name(Doc, Name),
    /// A document, before the value of a name.
    Value(Doc, Name),
    /// An array.
    List(List),
}

/// What was read of a line.
#[derive(Drop)]
struct Reading {
    open: Vec<Open>,
    question: Option<Vec<Item>>,
    items: Vec<Item>,
}

fn number_in(digits: &[u8]) -> Option<i64> {
    str::from_utf8(digits).ok()?.parse::<i64>().ok()
}

fn binary(alloc: Global, subtype: &[u8], digits: &[u8]) -> Option<Value> {
    let subtype = u8::try_from(number_in(subtype)?).ok()?;
    let decoded = hex::decode(alloc, str::from_utf8(digits).ok()?).ok()?;
    let mut bytes = Bytes::new(alloc);
    bytes.add(decoded.as_slice()).ok()?;
    Some(Value::Bin(subtype, bytes))
}

fn object_id(digits: &[u8]) -> Option<Value> {
    let id = <[u8; 12] as FromHex>::from_hex(str::from_utf8(digits).ok()?).ok()?;
    Some(Value::Id(id))
}

fn number(word: &[u8]) -> Option<Value> {
    match word {
        [digits @ .., b'L'] => Some(Value::Long(number_in(digits)?)),
        [digits @ .., b'D'] => Some(Value::Date(number_in(digits)?)),
        [digits @ .., b'S'] => Some(Value::Stamp(number_in(digits)?.cast_unsigned())),
        _ => Some(Value::Int(i32::try_from(number_in(word)?).ok()?)),
    }
}

// The value that a word stands for, if it is one.
fn scalar(alloc: Global, word: &[u8]) -> Option<Value> {
    match word {
        b"null" => return Some(Value::Null),
        b"min" => return Some(Value::Least),
        b"max" => return Some(Value::Greatest),
        b"true" => return Some(Value::Flag(true)),
        b"false" => return Some(Value::Flag(false)),
        [b'#', digits @ ..] => return object_id(digits),
        _ => {}
    }
    match word.iter().position(|byte| *byte == b'x') {
        Some(at) => binary(alloc, word.get(..at)?, word.get(at.checked_add(1)?..)?),
        None => number(word),
    }
}

impl Reading {
    fn add(&mut self, value: Value) -> Option<()> {
        match self.open.pop() {
            None => self.items.push(Item::Value(value)).ok(),
            Some(Open::Value(doc, name)) => {
                let mut doc = doc;
                doc.put(name, value).ok()?;
                self.open.push(Open::Doc(doc)).ok()
            }
            Some(Open::List(list)) => {
                let mut list = list;
                list.add(value).ok()?;
                self.open.push(Open::List(list)).ok()
            }
            Some(_) => None,
        }
    }

    // Takes the piece as the name of the next value, where one is due, and says whether it did. None where the document has
    // the name already.
    fn names(&mut self, alloc: Global, piece: &[u8]) -> Option<bool> {
        match self.open.pop() {
            None => Some(false),
            Some(Open::Doc(doc)) => {
                if doc.get(piece).is_some() {
                    return None;
                }
                let name = Name::read(alloc, piece).ok()?;
                self.open.push(Open::Name(doc, name)).ok()?;
                Some(true)
            }
            Some(open) => {
                self.open.push(open).ok()?;
                Some(false)
            }
        }
    }

    fn sign(&mut self, alloc: Global, sign: u8) -> Option<()> {
        match sign {
            b'{' => self.open.push(Open::Doc(Doc::new(alloc))).ok(),
            b'[' => self.open.push(Open::List(List::new(alloc))).ok(),
            _ => match (sign, self.open.pop()?) {
                (b':', Open::Name(doc, name)) => self.open.push(Open::Value(doc, name)).ok(),
                (b'}', Open::Doc(doc)) => self.add(Value::Doc(doc)),
                (b']', Open::List(list)) => self.add(Value::List(list)),
                _ => None,
            },
        }
    }

    fn word(&mut self, alloc: Global, word: &[u8]) -> Option<()> {
        if self.names(alloc, word)? {
            return Some(());
        }
        if let Some(value) = scalar(alloc, word) {
            return self.add(value);
        }
        if !self.open.is_empty() {
            return None;
        }
        if word == b"->".as_slice() && self.question.is_none() {
            let items = std::mem::replace(&mut self.items, Vec::new(alloc));
            self.question = Some(items);
            return Some(());
        }
        self.items
            .push(Item::Word(Text::read(alloc, word).ok()?))
            .ok()
    }

    fn token(&mut self, alloc: Global, token: Token) -> Option<()> {
        match token {
            Token::Sign(sign) => self.sign(alloc, sign),
            Token::Quoted(bytes) => {
                if self.names(alloc, bytes.bytes())? {
                    return Some(());
                }
                self.add(Value::Text(Text::read(alloc, bytes.bytes()).ok()?))
            }
            Token::Word(word) => self.word(alloc, word),
        }
    }
}

// What the line's pieces give. None where they are no items, or memory was refused.
fn read_line(alloc: Global, line: &str) -> Option<Reading> {
    let mut reading = Reading {
        open: Vec::new(alloc),
        question: None,
        items: Vec::new(alloc),
    };
    let mut rest = line.as_bytes();
    for _ in 0..=line.len() {
        match first_token(alloc, rest) {
            Ok((token, after)) => {
                reading.token(alloc, token)?;
                rest = after;
            }
            Err(NoToken::End) => break,
            Err(NoToken::Bad) => return None,
        }
    }
    if reading.open.is_empty() {
        Some(reading)
    } else {
        None
    }
}

/// The case that a line is. None where it is none: there is no arrow; a quote or bracket isn't closed, or is closed by another
/// one; a name has no colon or no value, or stands twice in a document; or memory was refused.
pub fn read_case(alloc: Global, line: &str) -> Option<Case> {
    let reading = read_line(alloc, line)?;
    Some(Case {
        question: reading.question?,
        answer: reading.items,
    })
}

/// The items of a line without an arrow. None where it isn't one, or memory was refused.
pub fn read_items(alloc: Global, line: &str) -> Option<Vec<Item>> {
    let reading = read_line(alloc, line)?;
    match reading.question {
        None => Some(reading.items),
        Some(_) => None,
    }
}
