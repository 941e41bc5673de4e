use bson_value::{EvalCode, Text, Value};
use std::alloc::Global;

/// A word or a value of a case.
#[derive(Debug, Drop)]
pub enum Item {
    /// A bare word.
    Word(Text),
    /// A value.
    Value(Value),
}

impl Item {
    /// The bare word of that spelling. None where memory was refused.
    pub fn of_word(alloc: Global, word: &str) -> Option<Item> {
        Some(Item::Word(Text::of(alloc, word).ok()?))
    }

    /// The value that was found, or the word `missing`. None where memory was refused.
    pub fn of_found(alloc: Global, found: Option<Value>) -> Option<Item> {
        match found {
            Some(value) => Some(Item::Value(value)),
            None => Item::of_word(alloc, "missing"),
        }
    }

    /// The word of an evaluation error, as `!4` for the code 4. None where memory was refused.
    pub fn of_code(alloc: Global, code: EvalCode) -> Option<Item> {
        let word = format!(in alloc; "!{}", code.number()).ok()?;
        Item::of_word(alloc, word.as_str())
    }

    /// The number as an int32. None where it is none.
    pub fn of_number(number: u64) -> Option<Item> {
        Some(Item::Value(Value::Int(i32::try_from(number).ok()?)))
    }

    /// A row of this item alone. None where memory was refused.
    pub fn alone(self, alloc: Global) -> Option<Vec<Item>> {
        let mut items = Vec::new(alloc);
        items.push(self).ok()?;
        Some(items)
    }

    /// The bytes of the word, if it is one.
    pub fn word(&self) -> Option<&[u8]> {
        match self {
            Item::Word(word) => Some(word.bytes()),
            Item::Value(_) => None,
        }
    }

    /// The value, if it is one.
    pub fn value(&self) -> Option<&Value> {
        match self {
            Item::Word(_) => None,
            Item::Value(value) => Some(value),
        }
    }

    /// A copy of the value, or no value where the item is that word, as `missing`. None where it is another word, or memory
    /// was refused.
    pub fn operand(&self, alloc: Global, absent: &[u8]) -> Option<Option<Value>> {
        match self {
            Item::Value(value) => Some(Some(value.copy(alloc).ok()?)),
            Item::Word(word) if word.bytes() == absent => Some(None),
            Item::Word(_) => None,
        }
    }
}

/// A line of a table: what is asked, and what has to come out.
#[derive(Debug, Drop)]
pub struct Case {
    /// The items before the arrow.
    pub question: Vec<Item>,
    /// The items behind the arrow.
    pub answer: Vec<Item>,
}
