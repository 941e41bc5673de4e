ghost use Rattle.std.specs.Prelude.{◌≡◌};
ghost use Rattle.std.specs.Int.{cast_unsigned, w64};
ghost use Rattle.bson_value.specs.Order.{number, text_in};
ghost use Rattle.bson_value.specs.Tree.{leaf, long as a_long, pairs_of, trees_of};
ghost use Rattle.bson_value.specs.View.{tree_of};
ghost use Rattle.value_sets.specs.Digest.{mixed as is_mixed, mixed_bytes as are_mixed, head_digest as head, digest as the_digest, pairs_digest as the_pairs, trees_digest as the_trees};

use bson_value::{Doc, List, Value, class_of};

// The class of Ints and Longs, as `class_of` counts it.
const NUMBERS: u64 = 3;

#[tactic(auto, unfolding(crate::specs::Digest::mixed))]
fn mixed(so_far: u64, more: u64) -> u64
    ensures { result ≡ is_mixed so_far more }
{
    so_far
        .wrapping_add(more)
        .wrapping_mul(11_400_714_819_323_198_485)
}

fn mixed_bytes(so_far: u64, bytes: &[u8]) -> u64
    ensures { result ≡ are_mixed so_far bytes.now }
{
    let mut number = so_far;
    for byte in bytes {
        number = mixed(number, u64::from(*byte));
    }
    number
}

fn number_of(value: &Value) -> u64
    ensures { result ≡ cast_unsigned w64 (number (tree_of value.now)) }
{
    match value {
        Value::Int(number) => i64::from(*number).cast_unsigned(),
        Value::Long(number) => number.cast_unsigned(),
        Value::Bin(_, bytes) => bytes.bytes().len() as u64,
        Value::Flag(true) => 1,
        Value::Flag(false) => 0,
        Value::Date(number) => number.cast_unsigned(),
        Value::Stamp(number) => *number,
        Value::Least => 0,
        Value::Null => 0,
        Value::Text(_) => 0,
        Value::Doc(_) => 0,
        Value::List(_) => 0,
        Value::Id(_) => 0,
        Value::Greatest => 0,
    }
}

fn text_of(value: &Value) -> &[u8]
    ensures { result.now ≡ text_in (tree_of value.now) }
{
    match value {
        Value::Text(text) => text.bytes(),
        Value::Bin(_, bytes) => bytes.bytes(),
        Value::Id(id) => id.as_slice(),
        Value::Least => &[],
        Value::Null => &[],
        Value::Int(_) => &[],
        Value::Long(_) => &[],
        Value::Doc(_) => &[],
        Value::List(_) => &[],
        Value::Flag(_) => &[],
        Value::Date(_) => &[],
        Value::Stamp(_) => &[],
        Value::Greatest => &[],
    }
}

fn head_digest(value: &Value) -> u64
    ensures { result ≡ head (tree_of value.now) }
{
    mixed_bytes(
        mixed(u64::from(class_of(value)), number_of(value)),
        text_of(value),
    )
}

/// The number by which a set looks an Int or a Long up.
pub(crate) fn number_digest(number: i64) -> u64
    ensures { result ≡ the_digest (leaf (a_long number)) }
{
    mixed(NUMBERS, number.cast_unsigned())
}

/// The number by which a set looks the value up.
#[cycle(digest)]
pub(crate) fn digest(value: &Value) -> u64
    ensures { result ≡ the_digest (tree_of value.now) }
{
    let head = head_digest(value);
    match value {
        Value::Doc(doc) => pairs_digest(head, doc),
        Value::List(list) => trees_digest(head, list),
        Value::Least => head,
        Value::Null => head,
        Value::Int(_) => head,
        Value::Long(_) => head,
        Value::Text(_) => head,
        Value::Bin(_, _) => head,
        Value::Id(_) => head,
        Value::Flag(_) => head,
        Value::Date(_) => head,
        Value::Stamp(_) => head,
        Value::Greatest => head,
    }
}

#[cycle(digest)]
fn pairs_digest(so_far: u64, doc: &Doc) -> u64
    ensures { result ≡ the_pairs so_far (pairs_of doc.now) }
{
    let mut number = so_far;
    for i in 0..doc.len() {
        number = mixed(mixed_bytes(number, doc.name(i)), digest(doc.value(i)));
    }
    number
}

#[cycle(digest)]
fn trees_digest(so_far: u64, list: &List) -> u64
    ensures { result ≡ the_trees so_far (trees_of list.now) }
{
    let mut number = so_far;
    for i in 0..list.len() {
        number = mixed(number, digest(list.value(i)));
    }
    number
}
