ghost use Rattle.std.specs.Prelude.{◌≡◌, IfOk, not, ◌==◌};
ghost use Rattle.std.specs.List.{list_all};
ghost use Rattle.bson_value.specs.Proper.{HasNoZero, IsName};
ghost use Rattle.bson_value.specs.Texts.{ReadsName};

use crate::no_memory::NoMemory;
use crate::text::TextError;
use std::alloc::Global;
use std::marker::Model;

/// The name of a field: a text in UTF-8 without byte 0 (BSON 1.1, cstring), seen as its bytes.
#[derive(Debug, Drop)]
pub struct Name {
    text: String,
}

impl Model for Name {
    ghost use Rattle.std.specs.Prelude.{List, ℕ};
    ghost use Rattle.std.specs.String.{string_bytes};
    ghost use Rattle.bson_value.specs.Proper.{HasNoZero};

    ghost Value = { List ℕ };

    ghost view = { λ n. string_bytes n.text };

    ghost invariant = { λ n. HasNoZero (string_bytes n.text) };
}

pub(crate) fn has_no_zero(bytes: &[u8]) -> bool
    ensures { result ≡ list_all (λ b. not (b == 0)) bytes.now }
{
    bytes.iter().all(|b| *b != 0)
}

impl Name {
    // The name that a text without byte 0 is.
    pub(crate) fn of(alloc: Global, text: &str) -> Result<Name, NoMemory>
        requires { HasNoZero text.now }
        ensures { IfOk result (λ n. n ≡ text.now) }
    {
        Ok(Name {
            text: String::from_str(alloc, text)?,
        })
    }

    /// The name of these bytes. It is refused as none exactly where the bytes are not UTF-8 or hold a 0.
    pub fn read(alloc: Global, bytes: &[u8]) -> Result<Name, TextError>
        ensures { ReadsName bytes.now result }
    {
        match str::from_utf8(bytes) {
            Err(_) => Err(TextError::NotText),
            Ok(text) => {
                if !has_no_zero(bytes) {
                    return Err(TextError::NotText);
                }
                match String::from_str(alloc, text) {
                    Err(_) => Err(TextError::Memory),
                    Ok(text) => Ok(Name { text }),
                }
            }
        }
    }

    /// The name's bytes.
    pub fn bytes(&self) -> &[u8]
        ensures same { result.now ≡ self.now }
        ensures name { IsName self.now }
    {
        self.text.as_str().as_bytes()
    }

    /// An equal name.
    pub fn copy(&self, alloc: Global) -> Result<Name, NoMemory>
        ensures { IfOk result (λ n. n ≡ self.now) }
    {
        Ok(Name {
            text: String::from_str(alloc, self.text.as_str())?,
        })
    }
}
