use bson_value::{Bytes, NoMemory};
use std::alloc::Global;

/// A piece of a line.
#[derive(Debug, Drop)]
pub(crate) enum Token<'a> {
    /// One of the brackets, or a colon.
    Sign(u8),
    /// A piece in quotes, without them.
    Quoted(Bytes),
    /// Any other piece.
    Word(&'a [u8]),
}

/// Why no piece comes.
#[derive(Debug, Drop)]
pub(crate) enum NoToken {
    /// The line is at its end.
    End,
    /// A quote is not closed, or memory was refused.
    Bad,
}

impl From<NoMemory> for NoToken {
    fn from(_: NoMemory) -> NoToken {
        NoToken::Bad
    }
}

fn is_between(byte: u8) -> bool {
    byte == b' ' || byte == b','
}

fn is_sign(byte: u8) -> bool {
    matches!(byte, b'{' | b'}' | b'[' | b']' | b':')
}

fn ends_word(byte: u8) -> bool {
    is_between(byte) || is_sign(byte) || byte == b'"'
}

// What a byte stands for behind a backslash.
fn escaped(byte: u8) -> u8 {
    match byte {
        b'n' => b'\n',
        b'0' => 0,
        b'1' => 1,
        other => other,
    }
}

// A piece in quotes, from behind the first of them, and what follows it.
fn quoted<'a>(alloc: Global, line: &'a [u8]) -> Result<(Bytes, &'a [u8]), NoToken> {
    let mut bytes = Bytes::new(alloc);
    let mut rest = line;
    for _ in 0..line.len() {
        match rest {
            [b'"', after @ ..] => return Ok((bytes, after)),
            [b'\\', byte, after @ ..] => {
                bytes.add(&[escaped(*byte)])?;
                rest = after;
            }
            [byte, after @ ..] => {
                bytes.add(&[*byte])?;
                rest = after;
            }
            [] => return Err(NoToken::Bad),
        }
    }
    Err(NoToken::Bad)
}

// The line without the spaces and commas at its front.
fn without_spaces(line: &[u8]) -> &[u8] {
    let spaces = line
        .iter()
        .position(|byte| !is_between(*byte))
        .unwrap_or(line.len());
    line.get(spaces..).unwrap_or(&[])
}

/// The first piece of the line, and what follows it.
pub(crate) fn first_token<'a>(
    alloc: Global,
    line: &'a [u8],
) -> Result<(Token<'a>, &'a [u8]), NoToken> {
    let line = without_spaces(line);
    match line {
        [] => Err(NoToken::End),
        [b'"', after @ ..] => {
            let (bytes, rest) = quoted(alloc, after)?;
            Ok((Token::Quoted(bytes), rest))
        }
        [sign, after @ ..] if is_sign(*sign) => Ok((Token::Sign(*sign), after)),
        _ => {
            let len = line
                .iter()
                .position(|byte| ends_word(*byte))
                .unwrap_or(line.len());
            match line.split_at_checked(len) {
                Some((word, rest)) => Ok((Token::Word(word), rest)),
                None => Err(NoToken::Bad),
            }
        }
    }
}
