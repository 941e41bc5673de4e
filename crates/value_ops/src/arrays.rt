//! Arrays (the manual, Array Expression Operators).

ghost use Rattle.std.specs.Prelude.{◌≡◌, ◌≤◌, ◌++◌, [], Some, min, length, map, fold, slice_get, slice_range, reverse, IfOk, option_copied};
ghost use Rattle.std.specs.Option.{option_map};
ghost use Rattle.std.specs.List.{list_any};
ghost use Rattle.bson_value.specs.View.{tree_of, founds};
ghost use Rattle.bson_value.specs.Gives.{Gives};
ghost use Rattle.bson_value.specs.Operands.{operand_map, all, alike, array_in};
ghost use Rattle.bson_value.specs.ArrayRows.{size_row, in_row, array_elem_at_row, first_row, last_row, concat_arrays_row, slice_row, reverse_array_row, item_at as the_item, start_in, end_items as the_end, middle_items as the_middle};
ghost use Rattle.value_ops.specs.Folded.{with_operand};

use bson_value::{EvalCode, EvalError, List, NoMemory, Value, compare_found};
use std::alloc::Global;
use value_sets::{as_array, as_whole};

/// `$size`: the number of items, or the greatest Int where there are more.
pub(crate) fn size(args: &[Option<Value>]) -> Result<Option<Value>, EvalError>
    ensures { Gives (option_map tree_of) result (size_row (founds args.now)) }
{
    match args {
        [operand] => match as_array(operand)? {
            Some(list) => Ok(Some(Value::Int(list.len().min(2_147_483_647) as i32))),
            None => Err(EvalError::Code(EvalCode::NotArray)),
        },
        _ => Err(EvalError::Code(EvalCode::WrongType)),
    }
}

// Whether an item equals the operand in the comparison order.
fn has(list: &List, operand: &Option<Value>) -> bool
    ensures { result ≡ list_any (λ t. alike (option_map tree_of operand.now) (Some t)) list.now }
{
    for i in 0..list.len() {
        if compare_found(operand.as_ref(), Some(list.value(i))).is_eq() {
            return true;
        }
    }
    false
}

/// `$in`: whether an item of the second operand equals the first, which may be anything.
pub(crate) fn is_in(args: &[Option<Value>]) -> Result<Option<Value>, EvalError>
    ensures { Gives (option_map tree_of) result (in_row (founds args.now)) }
{
    match args {
        [operand, array] => match as_array(array)? {
            Some(list) => Ok(Some(Value::Flag(has(list, operand)))),
            None => Err(EvalError::Code(EvalCode::NotArray)),
        },
        _ => Err(EvalError::Code(EvalCode::WrongType)),
    }
}

// A copy of the item at that place, which may be beyond the end.
fn copied(alloc: Global, list: &List, i: usize) -> Result<Option<Value>, NoMemory>
    ensures { IfOk result (λ v. option_map tree_of v ≡ slice_get list.now i) }
{
    if i < list.len() {
        Ok(Some(list.value(i).copy(alloc)?))
    } else {
        Ok(None)
    }
}

// A copy of the item at that place, from the end where it is negative; the place may be beyond either end.
fn item_at(alloc: Global, list: &List, place: i64) -> Result<Option<Value>, NoMemory>
    ensures { IfOk result (λ v. option_map tree_of v ≡ the_item place list.now) }
{
    if place >= 0 {
        return copied(alloc, list, place as usize);
    }
    let from_end = place.unsigned_abs() as usize;
    if from_end > list.len() {
        return Ok(None);
    }
    copied(alloc, list, list.len() - from_end)
}

/// `$arrayElemAt`: the item at a place, from the end where it is negative; missing beyond either end.
pub(crate) fn array_elem_at(
    alloc: Global,
    args: &[Option<Value>],
) -> Result<Option<Value>, EvalError>
    ensures { Gives (option_map tree_of) result (array_elem_at_row (founds args.now)) }
{
    match args {
        [array, place] => match (as_array(array)?, as_whole(place)?) {
            (Some(list), Some(place)) => Ok(item_at(alloc, list, place)?),
            _ => Ok(Some(Value::Null)),
        },
        _ => Err(EvalError::Code(EvalCode::WrongType)),
    }
}

/// `$first`: the first item, missing where there is none.
pub(crate) fn first(alloc: Global, args: &[Option<Value>]) -> Result<Option<Value>, EvalError>
    ensures { Gives (option_map tree_of) result (first_row (founds args.now)) }
{
    match args {
        [array] => match as_array(array)? {
            Some(list) => Ok(item_at(alloc, list, 0)?),
            None => Ok(Some(Value::Null)),
        },
        _ => Err(EvalError::Code(EvalCode::WrongType)),
    }
}

/// `$last`: the last item, missing where there is none.
pub(crate) fn last(alloc: Global, args: &[Option<Value>]) -> Result<Option<Value>, EvalError>
    ensures { Gives (option_map tree_of) result (last_row (founds args.now)) }
{
    match args {
        [array] => match as_array(array)? {
            Some(list) => Ok(item_at(alloc, list, -1)?),
            None => Ok(Some(Value::Null)),
        },
        _ => Err(EvalError::Code(EvalCode::WrongType)),
    }
}

// Appends copies of the items of a list.
fn append(alloc: Global, joined: List, list: &List) -> Result<List, NoMemory>
    ensures { IfOk result (λ l. l ≡ joined ++ list.now) }
{
    let mut joined = joined;
    for i in 0..list.len() {
        joined.add(list.value(i).copy(alloc)?)?;
    }
    Ok(joined)
}

// The items so far with those of one more operand, where none was null or missing.
fn append_operand(
    alloc: Global,
    joined: Option<List>,
    list: Option<&List>,
) -> Result<Option<List>, NoMemory>
    ensures { IfOk result (λ l. l ≡ with_operand ◌++◌ joined (option_copied list.entry)) }
{
    match (joined, list) {
        (Some(joined), Some(list)) => Ok(Some(append(alloc, joined, list)?)),
        _ => Ok(None),
    }
}

// The items of all operands.
fn joined(alloc: Global, args: &[Option<Value>]) -> Result<Option<List>, EvalError>
    ensures { Gives (λ l. l) result (operand_map (fold ◌++◌ []) (all (map array_in (founds args.now)))) }
{
    let mut joined = Some(List::new(alloc));
    for operand in args {
        joined = append_operand(alloc, joined, as_array(operand)?)?;
    }
    Ok(joined)
}

/// `$concatArrays`: the items of all operands, in order.
pub(crate) fn concat_arrays(
    alloc: Global,
    args: &[Option<Value>],
) -> Result<Option<Value>, EvalError>
    ensures { Gives (option_map tree_of) result (concat_arrays_row (founds args.now)) }
{
    match joined(alloc, args)? {
        Some(list) => Ok(Some(Value::List(list))),
        None => Ok(Some(Value::Null)),
    }
}

// Copies of the items from one place up to another.
fn part(alloc: Global, list: &List, from: usize, to: usize) -> Result<List, NoMemory>
    requires { to ≤ length list.now }
    ensures { IfOk result (λ l. l ≡ slice_range list.now from to) }
{
    let mut items = List::new(alloc);
    for i in from..to {
        items.add(list.value(i).copy(alloc)?)?;
    }
    Ok(items)
}

// Where the items from a place on begin, at most at the end.
fn start_of(len: usize, place: i64) -> usize
    ensures { result ≡ min (start_in len place) len }
{
    let far = place.unsigned_abs() as usize;
    if place >= 0 {
        far.min(len)
    } else {
        len - far.min(len)
    }
}

// The first items or, for a negative number, the last.
fn end_items(alloc: Global, list: &List, count: i64) -> Result<List, NoMemory>
    ensures { IfOk result (λ l. l ≡ the_end count list.now) }
{
    let edge = start_of(list.len(), count);
    if count >= 0 {
        part(alloc, list, 0, edge)
    } else {
        part(alloc, list, edge, list.len())
    }
}

// At most so many items from a place on.
fn middle_items(
    alloc: Global,
    list: &List,
    place: i64,
    count: i64,
) -> Result<Option<Value>, EvalError>
    ensures { Gives (option_map tree_of) result (the_middle place count list.now) }
{
    if count <= 0 {
        return Err(EvalError::Code(EvalCode::BadCount));
    }
    let from = start_of(list.len(), place);
    let to = from + (count as usize).min(list.len() - from);
    Ok(Some(Value::List(part(alloc, list, from, to)?)))
}

/// `$slice`: the first or last items, or some from a place on.
pub(crate) fn slice(alloc: Global, args: &[Option<Value>]) -> Result<Option<Value>, EvalError>
    ensures { Gives (option_map tree_of) result (slice_row (founds args.now)) }
{
    match args {
        [array, count] => match (as_array(array)?, as_whole(count)?) {
            (Some(list), Some(count)) => Ok(Some(Value::List(end_items(alloc, list, count)?))),
            _ => Ok(Some(Value::Null)),
        },
        [array, place, count] => match (as_array(array)?, as_whole(place)?, as_whole(count)?) {
            (Some(list), Some(place), Some(count)) => middle_items(alloc, list, place, count),
            _ => Ok(Some(Value::Null)),
        },
        _ => Err(EvalError::Code(EvalCode::WrongType)),
    }
}

fn reversed(alloc: Global, list: &List) -> Result<List, NoMemory>
    ensures { IfOk result (λ l. l ≡ reverse list.now) }
{
    let mut items = List::new(alloc);
    for i in 0..list.len() {
        items.add(list.value(list.len() - 1 - i).copy(alloc)?)?;
    }
    Ok(items)
}

/// `$reverseArray`: the items from the last to the first.
pub(crate) fn reverse_array(
    alloc: Global,
    args: &[Option<Value>],
) -> Result<Option<Value>, EvalError>
    ensures { Gives (option_map tree_of) result (reverse_array_row (founds args.now)) }
{
    match args {
        [array] => match as_array(array)? {
            Some(list) => Ok(Some(Value::List(reversed(alloc, list)?))),
            None => Ok(Some(Value::Null)),
        },
        _ => Err(EvalError::Code(EvalCode::WrongType)),
    }
}
