//! Numbers of the command line.

ghost use Rattle.std.specs.Prelude.{◌≡◌};
ghost use Rattle.std.specs.List.{list_all};
ghost use Rattle.std.specs.Char.{is_ascii_digit};
ghost use Rattle.command_words.specs.Numbers as spec;

fn are_digits(text: &[u8]) -> bool
    ensures { result ≡ list_all is_ascii_digit text.now }
{
    text.iter().all(|byte| byte.is_ascii_digit())
}

// Decimal digits, without a leading zero unless it is alone.
fn is_number(text: &[u8]) -> bool
    ensures { result ≡ spec.is_number text.now }
{
    match text {
        [] => false,
        [_] => are_digits(text),
        [first, ..] => are_digits(text) && *first != b'0',
    }
}

/// The number that a text spells, where it is from `low` to `high`.
pub fn number_in(low: u64, high: u64, text: &str) -> Option<u64>
    ensures { result ≡ spec.number_in low high text.now }
{
    if !is_number(text.as_bytes()) {
        return None;
    }
    match text.parse::<u64>() {
        Ok(number) if low <= number && number <= high => Some(number),
        _ => None,
    }
}

/// The same for numbers of 32 bits.
pub fn small_number_in(low: u32, high: u32, text: &str) -> Option<u32>
    ensures { result ≡ spec.number_in low high text.now }
{
    let number = number_in(u64::from(low), u64::from(high), text)?;
    u32::try_from(number).ok()
}
