ghost use Rattle.std.specs.Prelude.{◌≡◌, IfOk};
ghost use Rattle.std.specs.Str.{IsUtf8};
ghost use Rattle.bson_value.specs.Texts.{ReadsText};

use crate::no_memory::NoMemory;
use std::alloc::Global;
use std::marker::Model;

/// Why there is no text, or no name.
#[derive(Clone, Copy, Debug, PartialEq, Eq)]
pub enum TextError {
    /// The bytes are none.
    NotText,
    /// Memory was refused.
    Memory,
}

/// A text in UTF-8, which may hold bytes 0 (BSON 1.1, string), seen as its bytes.
#[derive(Debug, Drop)]
pub struct Text {
    text: String,
}

impl Model for Text {
    ghost use Rattle.std.specs.Prelude.{List, ℕ};
    ghost use Rattle.std.specs.String.{string_bytes};

    ghost Value = { List ℕ };

    ghost view = { λ t. string_bytes t.text };
}

impl Text {
    /// The text of these bytes. It is refused as no text exactly where the bytes are not UTF-8.
    pub fn read(alloc: Global, bytes: &[u8]) -> Result<Text, TextError>
        ensures { ReadsText bytes.now result }
    {
        match str::from_utf8(bytes) {
            Err(_) => Err(TextError::NotText),
            Ok(text) => match String::from_str(alloc, text) {
                Err(_) => Err(TextError::Memory),
                Ok(text) => Ok(Text { text }),
            },
        }
    }

    /// The text that a string slice is.
    pub fn of(alloc: Global, text: &str) -> Result<Text, NoMemory>
        ensures { IfOk result (λ t. t ≡ text.now) }
    {
        Ok(Text {
            text: String::from_str(alloc, text)?,
        })
    }

    /// The text's bytes.
    pub fn bytes(&self) -> &[u8]
        ensures same { result.now ≡ self.now }
        ensures text { IsUtf8 self.now }
    {
        self.text.as_str().as_bytes()
    }

    /// The text as a string slice.
    pub fn as_str(&self) -> &str
        ensures { result.now ≡ self.now }
    {
        self.text.as_str()
    }

    /// An equal text.
    pub fn copy(&self, alloc: Global) -> Result<Text, NoMemory>
        ensures { IfOk result (λ t. t ≡ self.now) }
    {
        Ok(Text {
            text: String::from_str(alloc, self.text.as_str())?,
        })
    }
}
