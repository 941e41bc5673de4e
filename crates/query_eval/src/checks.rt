//! Tests of one candidate or end, and of some among the candidates.

ghost use Rattle.std.specs.Prelude.{◌≡◌, Some, map};
ghost use Rattle.std.specs.List.{list_any, list_all};
ghost use Rattle.std.specs.Option.{option_map};
ghost use Rattle.bson_value.specs.View.{tree_of};
ghost use Rattle.expr_tree.specs.QueryNode.{equal};
ghost use Rattle.expr_tree.specs.Holds.{related as the_related, relates as the_relates, some_relates, one_of as the_one_of, all_of as the_all_of, has_type as the_has_type, has_size as the_has_size};
ghost use Rattle.query_eval.specs.Places.{candidates_in};
ghost use Rattle.query_eval.specs.Checks.{relation_of, passes as the_passes};

use crate::places::{Candidates, element_at, found_at};
use bson_value::{List, Value, class_of, compare};
use doc_path::Found;
use std::cmp::Ordering;

/// How a value is compared with an operand.
#[derive(Clone, Copy)]
pub(crate) enum Relation {
    /// `$eq`
    Equal,
    /// `$gt`
    Greater,
    /// `$gte`
    GreaterOrEqual,
    /// `$lt`
    Less,
    /// `$lte`
    LessOrEqual,
}

/// A test of one candidate or end.
#[derive(Clone, Copy)]
pub(crate) enum Check<'a> {
    /// It is of the operand's class and compares so, missing counting as null.
    Relates(Relation, &'a Value),
    /// It isn't missing.
    IsThere,
    /// It has the type of this BSON number, 255 standing for MinKey.
    HasType(u8),
    /// It is an array of this many elements.
    HasSize(u64),
}

fn related(relation: Relation, order: Ordering) -> bool
    ensures { result ≡ the_related (relation_of relation) order }
{
    match relation {
        Relation::Equal => order.is_eq(),
        Relation::Greater => order.is_gt(),
        Relation::GreaterOrEqual => order.is_ge(),
        Relation::Less => order.is_lt(),
        Relation::LessOrEqual => order.is_le(),
    }
}

fn value_relates(relation: Relation, operand: &Value, value: &Value) -> bool
    ensures { result ≡ the_relates (relation_of relation) (tree_of operand.now) (Some (tree_of value.now)) }
{
    class_of(value) == class_of(operand) && related(relation, compare(value, operand))
}

fn relates(relation: Relation, operand: &Value, candidate: Option<&Value>) -> bool
    ensures { result ≡ the_relates (relation_of relation) (tree_of operand.now) (option_map (λ v. tree_of v.now) candidate.entry) }
{
    match candidate {
        Some(value) => value_relates(relation, operand, value),
        None => value_relates(relation, operand, &Value::Null),
    }
}

fn value_has_type(number: u8, value: &Value) -> bool
    ensures { result ≡ the_has_type number (Some (tree_of value.now)) }
{
    match value {
        Value::Least => 255 == number,
        Value::Null => 10 == number,
        Value::Int(_) => 16 == number,
        Value::Long(_) => 18 == number,
        Value::Text(_) => 2 == number,
        Value::Doc(_) => 3 == number,
        Value::List(_) => 4 == number,
        Value::Bin(_, _) => 5 == number,
        Value::Id(_) => 7 == number,
        Value::Flag(_) => 8 == number,
        Value::Date(_) => 9 == number,
        Value::Stamp(_) => 17 == number,
        Value::Greatest => 127 == number,
    }
}

fn has_type(number: u8, candidate: Option<&Value>) -> bool
    ensures { result ≡ the_has_type number (option_map (λ v. tree_of v.now) candidate.entry) }
{
    match candidate {
        Some(value) => value_has_type(number, value),
        None => false,
    }
}

fn value_has_size(size: u64, value: &Value) -> bool
    ensures { result ≡ the_has_size size (Some (tree_of value.now)) }
{
    match value {
        Value::List(list) => list.len() as u64 == size,
        _ => false,
    }
}

fn has_size(size: u64, end: Option<&Value>) -> bool
    ensures { result ≡ the_has_size size (option_map (λ v. tree_of v.now) end.entry) }
{
    match end {
        Some(value) => value_has_size(size, value),
        None => false,
    }
}

/// Whether the value passes, which may be missing.
pub(crate) fn passes(check: Check<'_>, value: Option<&Value>) -> bool
    ensures { result ≡ the_passes check.entry (option_map (λ v. tree_of v.now) value.entry) }
{
    match check {
        Check::Relates(relation, operand) => relates(relation, operand, value),
        Check::IsThere => value.is_some(),
        Check::HasType(number) => has_type(number, value),
        Check::HasSize(size) => has_size(size, value),
    }
}

/// Whether one of the values of a list passes.
pub(crate) fn some_found(check: Check<'_>, found: &Found<'_>) -> bool
    ensures { result ≡ list_any (the_passes check.entry) found.now }
{
    for i in 0..found.len() {
        if passes(check, found_at(found, i)) {
            return true;
        }
    }
    false
}

// Whether one of the elements passes.
fn some_member(check: Check<'_>, list: &List) -> bool
    ensures { result ≡ list_any (the_passes check.entry) (map Some list.now) }
{
    for i in 0..list.len() {
        if passes(check, Some(element_at(list, i))) {
            return true;
        }
    }
    false
}

/// Whether one of the candidates passes.
pub(crate) fn some_passes(check: Check<'_>, candidates: &Candidates<'_>) -> bool
    ensures { result ≡ list_any (the_passes check.entry) (candidates_in candidates.now) }
{
    match candidates {
        Candidates::One(value) => passes(check, *value),
        Candidates::Array(value, list) => passes(check, Some(*value)) || some_member(check, *list),
        Candidates::Many(found) => some_found(check, found),
    }
}

fn some_equals(operand: &Value, candidates: &Candidates<'_>) -> bool
    ensures { result ≡ some_relates equal (tree_of operand.now) (candidates_in candidates.now) }
{
    some_passes(Check::Relates(Relation::Equal, operand), candidates)
}

/// Whether one of the candidates equals one of the operands (the manual, `$in`).
pub(crate) fn one_of(operands: &List, candidates: &Candidates<'_>) -> bool
    ensures { result ≡ the_one_of operands.now (candidates_in candidates.now) }
{
    for i in 0..operands.len() {
        if some_equals(element_at(operands, i), candidates) {
            return true;
        }
    }
    false
}

// Whether for each operand one of the candidates equals it.
fn each_of(operands: &List, candidates: &Candidates<'_>) -> bool
    ensures { result ≡ list_all (λ t. some_relates equal t (candidates_in candidates.now)) operands.now }
{
    for i in 0..operands.len() {
        if !some_equals(element_at(operands, i), candidates) {
            return false;
        }
    }
    true
}

/// Whether there are operands, and for each of them one of the candidates equals it (the manual, `$all`).
pub(crate) fn all_of(operands: &List, candidates: &Candidates<'_>) -> bool
    ensures { result ≡ the_all_of operands.now (candidates_in candidates.now) }
{
    operands.len() != 0 && each_of(operands, candidates)
}
