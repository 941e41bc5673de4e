//! The comparison order of values.

ghost use Rattle.std.specs.Prelude.{◌≡◌, map};
ghost use Rattle.std.specs.Option.{option_map};
ghost use Rattle.std.specs.Cmp.{IsTotalOrder};
ghost use Rattle.std.specs.Cmp.Lexicographic.{slice_cmp};
ghost use Rattle.bson_value.specs.Tree.{entries, members};
ghost use Rattle.bson_value.specs.View.{tree_of, trees_in};
ghost use Rattle.bson_value.specs.Laws.{IsTotalPreorder, IsComparisonOrder};
ghost use Rattle.bson_value.specs.Order.{class, number, subtype, text_in, pairs_in, members_in, head_order, order, pair_order, found_order};

use crate::name::Name;
use crate::value::{Value, members_of, pairs_in_value};
use std::cmp::Ordering;

/// The class of a value, by which values of different types are ordered (the manual, Comparison and Sort
/// Order): MinKey 1, Null 2, numbers 3, texts 4, documents 5, arrays 6, binary data 7, ObjectIds 8,
/// booleans 9, dates 10, timestamps 11, MaxKey 12.
pub fn class_of(value: &Value) -> u8
    ensures { result ≡ class (tree_of value.now) }
{
    match value {
        Value::Least => 1,
        Value::Null => 2,
        Value::Int(_) => 3,
        Value::Long(_) => 3,
        Value::Text(_) => 4,
        Value::Doc(_) => 5,
        Value::List(_) => 6,
        Value::Bin(_, _) => 7,
        Value::Id(_) => 8,
        Value::Flag(_) => 9,
        Value::Date(_) => 10,
        Value::Stamp(_) => 11,
        Value::Greatest => 12,
    }
}

fn number_of(value: &Value) -> i128
    ensures { result ≡ number (tree_of value.now) }
{
    match value {
        Value::Int(number) => i128::from(*number),
        Value::Long(number) => i128::from(*number),
        Value::Bin(_, bytes) => bytes.bytes().len() as i128,
        Value::Flag(true) => 1,
        Value::Flag(false) => 0,
        Value::Date(number) => i128::from(*number),
        Value::Stamp(number) => i128::from(*number),
        Value::Least => 0,
        Value::Null => 0,
        Value::Text(_) => 0,
        Value::Doc(_) => 0,
        Value::List(_) => 0,
        Value::Id(_) => 0,
        Value::Greatest => 0,
    }
}

fn subtype_of(value: &Value) -> u8
    ensures { result ≡ subtype (tree_of value.now) }
{
    match value {
        Value::Bin(subtype, _) => *subtype,
        Value::Least => 0,
        Value::Null => 0,
        Value::Int(_) => 0,
        Value::Long(_) => 0,
        Value::Text(_) => 0,
        Value::Doc(_) => 0,
        Value::List(_) => 0,
        Value::Id(_) => 0,
        Value::Flag(_) => 0,
        Value::Date(_) => 0,
        Value::Stamp(_) => 0,
        Value::Greatest => 0,
    }
}

fn text_of(value: &Value) -> &[u8]
    ensures { result.now ≡ text_in (tree_of value.now) }
{
    match value {
        Value::Text(text) => text.bytes(),
        Value::Bin(_, bytes) => bytes.bytes(),
        Value::Id(id) => id.as_slice(),
        Value::Least => &[],
        Value::Null => &[],
        Value::Int(_) => &[],
        Value::Long(_) => &[],
        Value::Doc(_) => &[],
        Value::List(_) => &[],
        Value::Flag(_) => &[],
        Value::Date(_) => &[],
        Value::Stamp(_) => &[],
        Value::Greatest => &[],
    }
}

// By class, number, subtype and bytes, each looked at only where those before it are equal.
fn compare_heads(a: &Value, b: &Value) -> Ordering
    ensures { result ≡ head_order (tree_of a.now) (tree_of b.now) }
{
    match class_of(a).cmp(&class_of(b)) {
        Ordering::Equal => {}
        by_class => return by_class,
    }
    match number_of(a).cmp(&number_of(b)) {
        Ordering::Equal => {}
        by_number => return by_number,
    }
    match subtype_of(a).cmp(&subtype_of(b)) {
        Ordering::Equal => text_of(a).cmp(text_of(b)),
        by_subtype => by_subtype,
    }
}

#[cycle(compare)]
fn compare_pair(a: &(Name, Value), b: &(Name, Value)) -> Ordering
    ensures { result ≡ pair_order (a.now.0, tree_of a.now.1) (b.now.0, tree_of b.now.1) }
{
    match class_of(&a.1).cmp(&class_of(&b.1)) {
        Ordering::Equal => {}
        by_class => return by_class,
    }
    match a.0.bytes().cmp(b.0.bytes()) {
        Ordering::Equal => compare(&a.1, &b.1),
        by_name => by_name,
    }
}

// Pair by pair as far as both go, up to the first difference.
#[cycle(compare)]
fn compare_pairs(a_pairs: &[(Name, Value)], b_pairs: &[(Name, Value)]) -> Ordering
    ensures { result ≡ slice_cmp pair_order (trees_in a_pairs.now) (trees_in b_pairs.now) }
{
    for i in 0..a_pairs.len().min(b_pairs.len()) {
        match compare_pair(&a_pairs[i], &b_pairs[i]) {
            Ordering::Equal => {}
            by_pair => return by_pair,
        }
    }
    a_pairs.len().cmp(&b_pairs.len())
}

// Member by member as far as both go, up to the first difference.
#[cycle(compare)]
fn compare_members(a_values: &[Value], b_values: &[Value]) -> Ordering
    ensures { result ≡ slice_cmp order (map tree_of a_values.now) (map tree_of b_values.now) }
{
    for i in 0..a_values.len().min(b_values.len()) {
        match compare(&a_values[i], &b_values[i]) {
            Ordering::Equal => {}
            by_member => return by_member,
        }
    }
    a_values.len().cmp(&b_values.len())
}

/// The comparison order of values (the manual, Comparison and Sort Order): first the class; then numbers
/// by value, texts and ObjectIds by bytes, false before true, dates as signed and timestamps as unsigned
/// numbers, binary data by length, subtype and bytes, documents pair by pair (class, name, value) and
/// arrays member by member, the one that ends first being less. It stops at the first difference.
#[cycle(compare)]
pub fn compare(a: &Value, b: &Value) -> Ordering
    ensures { result ≡ order (tree_of a.now) (tree_of b.now) }
{
    match compare_heads(a, b) {
        Ordering::Equal => {}
        by_head => return by_head,
    }
    match compare_pairs(pairs_in_value(a), pairs_in_value(b)) {
        Ordering::Equal => compare_members(members_of(a), members_of(b)),
        by_pairs => by_pairs,
    }
}

/// The comparison order is a total one.
pub fn order_is_total()
    ensures { IsTotalOrder order }
{}

/// The order of values that may be missing is a total one too.
pub fn found_order_is_total()
    ensures { IsTotalOrder found_order }
{}

/// Both orders are total preorders: reflexive, connected and transitive, and what is equal in them is an
/// equivalence.
pub fn order_is_preorder()
    ensures order { IsTotalPreorder order }
    ensures found { IsTotalPreorder found_order }
{}

/// What the order says of the classes, and of two values of each class.
pub fn order_goes_by_class()
    ensures { IsComparisonOrder order }
{}

/// The order of values that may be missing: a missing value stands between MinKey and Null.
pub fn compare_found(a: Option<&Value>, b: Option<&Value>) -> Ordering
    ensures { result ≡ found_order (option_map (λ v. tree_of v.now) a.entry) (option_map (λ v. tree_of v.now) b.entry) }
{
    match (a, b) {
        (Some(a), Some(b)) => compare(a, b),
        (Some(a), None) => {
            if class_of(a) == 1 {
                Ordering::Less
            } else {
                Ordering::Greater
            }
        }
        (None, Some(b)) => {
            if class_of(b) == 1 {
                Ordering::Greater
            } else {
                Ordering::Less
            }
        }
        (None, None) => Ordering::Equal,
    }
}
