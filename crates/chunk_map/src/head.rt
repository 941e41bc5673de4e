//! The heads of keys, by which most comparisons of two keys are decided without a look at their parts.

ghost use Rattle.std.specs.Prelude.{◌≡◌, []};
ghost use Rattle.bson_value.specs.View.{tree_of};
ghost use Rattle.chunk_map.specs.Heads.{lead, head_of, key_head, heads_order};

use bson_value::{List, Value, class_of};
use std::cmp::Ordering;

/// The head of a key: the class of its first part, and the number that this part is, if it is a number or a date. Keys
/// whose heads differ are in the order of their heads.
#[derive(Clone, Copy, Debug)]
pub struct Head {
    class: u8,
    // 0 of what is neither a number nor a date
    number: i64,
}

fn lead_of(value: &Value) -> i64
    ensures { result ≡ lead (tree_of value.now) }
{
    match value {
        Value::Int(number) => i64::from(*number),
        Value::Long(number) => *number,
        Value::Date(number) => *number,
        Value::Least | Value::Null | Value::Greatest => 0,
        Value::Text(_) | Value::Doc(_) | Value::List(_) => 0,
        Value::Bin(_, _) | Value::Id(_) | Value::Flag(_) | Value::Stamp(_) => 0,
    }
}

impl Head {
    /// The head of a key without parts.
    pub fn of_none() -> Head
        ensures { result ≡ key_head [] }
    {
        Head {
            class: 0,
            number: 0,
        }
    }

    /// The head of a key that begins with the value.
    pub fn of(value: &Value) -> Head
        ensures { result ≡ head_of (tree_of value.now) }
    {
        Head {
            class: class_of(value),
            number: lead_of(value),
        }
    }

    /// The head of the key that these values are.
    pub fn of_key(key: &List) -> Head
        ensures { result ≡ key_head key.now }
    {
        if key.len() == 0 {
            Head::of_none()
        } else {
            Head::of(key.value(0))
        }
    }

    /// By class, and then by number.
    pub fn compare(&self, other: &Head) -> Ordering
        ensures { result ≡ heads_order self.now other.now }
    {
        match self.class.cmp(&other.class) {
            Ordering::Equal => self.number.cmp(&other.number),
            by_class => by_class,
        }
    }
}
