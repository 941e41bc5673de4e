//! The bytes of numbers, texts and binary data.

ghost use Rattle.std.specs.Prelude.{◌≡◌, ◌++◌, ◌∷◌, ◌-◌, ◌≤◌, map, length, OnOk, not, ◌==◌};
ghost use Rattle.std.specs.List.{list_all};
ghost use Rattle.key_codec.specs.Keyed.{significant, magnitude_key, signed_key, text_key, length_key};
ghost use Rattle.key_codec.specs.Seen.{seen_text};

use crate::collation::Collation;
use bson_value::NoMemory;

// The bytes from the first on that is not 0. It goes down at most the eight bytes of a number.
fn significant_in(bytes: &[u8]) -> &[u8]
    ensures value { result.now ≡ significant bytes.now }
    ensures len { length result.now ≤ length bytes.now }
{
    match bytes {
        [0, rest @ ..] => significant_in(rest),
        _ => bytes,
    }
}

fn put_magnitude(out: &mut Vec<u8>, number: u64) -> Result<(), NoMemory>
    ensures { OnOk result (out.new.items ≡ out.old.items ++ magnitude_key number) }
{
    let bytes = number.to_be_bytes();
    let digits = significant_in(&bytes);
    out.push(128 + digits.len() as u8)?;
    out.extend_from_slice(digits)?;
    Ok(())
}

fn put_turned(out: &mut Vec<u8>, bytes: &[u8]) -> Result<(), NoMemory>
    ensures { OnOk result (out.new.items ≡ out.old.items ++ map (λ b. 255 - b) bytes.now) }
{
    for b in bytes {
        out.push(255 - *b)?;
    }
    Ok(())
}

fn put_turned_magnitude(out: &mut Vec<u8>, number: u64) -> Result<(), NoMemory>
    ensures { OnOk result (out.new.items ≡ out.old.items ++ map (λ b. 255 - b) (magnitude_key number)) }
{
    let bytes = number.to_be_bytes();
    let digits = significant_in(&bytes);
    out.push(127 - digits.len() as u8)?;
    put_turned(out, digits)
}

/// Appends a signed number. In two's complement, u64::MAX less a negative n is -1 - n.
pub(crate) fn put_signed(out: &mut Vec<u8>, number: i64) -> Result<(), NoMemory>
    ensures { OnOk result (out.new.items ≡ out.old.items ++ signed_key number) }
{
    if number < 0 {
        put_turned_magnitude(out, u64::MAX - number.cast_unsigned())
    } else {
        put_magnitude(out, number.cast_unsigned())
    }
}

fn has_no_zero(bytes: &[u8]) -> bool
    ensures { result ≡ list_all (λ b. not (b == 0)) bytes.now }
{
    bytes.iter().all(|b| *b != 0)
}

// A text that may hold byte 0.
fn put_escaped(out: &mut Vec<u8>, text: &[u8]) -> Result<(), NoMemory>
    ensures { OnOk result (out.new.items ≡ out.old.items ++ text_key text.now) }
{
    for b in text {
        out.push(*b)?;
        if *b == 0 {
            out.push(1)?;
        }
    }
    out.extend_from_slice(&[0, 0])?;
    Ok(())
}

// A text without byte 0, as most are, is copied in one piece.
fn put_plain(out: &mut Vec<u8>, text: &[u8]) -> Result<(), NoMemory>
    ensures { OnOk result (out.new.items ≡ out.old.items ++ text_key text.now) }
{
    if !has_no_zero(text) {
        return put_escaped(out, text);
    }
    out.extend_from_slice(text)?;
    out.extend_from_slice(&[0, 0])?;
    Ok(())
}

/// Appends a text as the collation sees it.
pub(crate) fn put_text(out: &mut Vec<u8>, collation: Collation, text: &[u8]) -> Result<(), NoMemory>
    ensures { OnOk result (out.new.items ≡ out.old.items ++ text_key (seen_text collation text.now)) }
{
    match collation {
        Collation::Simple => put_plain(out, text),
    }
}

fn put_length(out: &mut Vec<u8>, len: usize) -> Result<(), NoMemory>
    ensures { OnOk result (out.new.items ≡ out.old.items ++ length_key len) }
{
    for _i in 0..len / 255 {
        out.push(255)?;
    }
    out.push((len % 255) as u8)?;
    Ok(())
}

/// Appends binary data.
pub(crate) fn put_binary(out: &mut Vec<u8>, subtype: u8, bytes: &[u8]) -> Result<(), NoMemory>
    ensures { OnOk result (out.new.items ≡ out.old.items ++ (length_key (length bytes.now) ++ subtype ∷ bytes.now)) }
{
    put_length(out, bytes.len())?;
    out.push(subtype)?;
    out.extend_from_slice(bytes)?;
    Ok(())
}
