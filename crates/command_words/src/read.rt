//! The mode of the words.

ghost use Rattle.std.specs.Prelude.{◌≡◌, IfOk, IfErr, map, true};
ghost use Rattle.std.specs.List.{list_all};
ghost use Rattle.clap.specs.Words.{kind_of};
ghost use Rattle.clap.specs.declared.error.ErrorKind.TheVariants.{OutOfMemory};
ghost use Rattle.command_words.specs.declared.errors.WordsError.TheVariants.{Memory, Usage};
ghost use Rattle.command_words.specs.Answers.{Answers};
ghost use Rattle.command_words.specs.Given.{is_word};
ghost use Rattle.command_words.specs.Words.{mode_of};

use crate::errors::WordsError;
use crate::given::given_by;
use crate::mode::Mode;
use crate::modes::mode_in;
use crate::parse::parse;
use bson_value::Text;
use clap::Error;
use clap::error::ErrorKind;
use std::alloc::{AllocError, Global};

// The word is nonempty, and where it begins with a hyphen there are two and a byte more.
fn is_word(word: &[u8]) -> bool
    ensures { result ≡ is_word word.now }
{
    match word {
        [] => false,
        [b'-', b'-', more @ ..] => !more.is_empty(),
        [first, ..] => *first != b'-',
    }
}

fn are_words(words: &[Text]) -> bool
    ensures { result ≡ list_all is_word words.now }
{
    words.iter().all(|word| is_word(word.bytes()))
}

// The words as string slices.
fn slices_of<'a>(alloc: Global, words: &'a [Text]) -> Result<Vec<&'a str>, AllocError>
    ensures { IfOk result (λ slices. map (λ s. s.now) slices.items ≡ words.entry.now) }
{
    let mut slices = Vec::with_capacity(alloc, words.len())?;
    for word in words {
        slices.push(word.as_str())?;
    }
    Ok(slices)
}

fn error_of(error: &Error) -> WordsError
    ensures memory { kind_of error.now ≡ OutOfMemory → result ≡ Memory }
    ensures usage { (kind_of error.now ≡ OutOfMemory → ⊥) → result ≡ Usage }
{
    if error.kind() == ErrorKind::OutOfMemory {
        WordsError::Memory
    } else {
        WordsError::Usage
    }
}

// The mode of words that may stand on a command line.
fn read_slices(alloc: Global, words: &[&str]) -> Result<Mode, WordsError>
    requires { list_all is_word (map (λ s. s.now) words.now) ≡ true }
    ensures { Answers (mode_of (map (λ s. s.now) words.now)) result }
{
    let matches = match parse(alloc, words) {
        Ok(matches) => matches,
        Err(error) => return Err(error_of(&error)),
    };
    let given = given_by(&matches);
    mode_in(alloc, &given)
}

/// The mode that the words of a command line ask for, after the program's own name. Options stand anywhere among the
/// other words. `Usage` comes exactly where the words have no reading.
pub fn read_words(alloc: Global, words: &[Text]) -> Result<Mode, WordsError>
    ensures { Answers (mode_of words.now) result }
{
    if !are_words(words) {
        return Err(WordsError::Usage);
    }
    let slices = slices_of(alloc, words)?;
    read_slices(alloc, slices.as_slice())
}
