//! Sets (the manual, Set Expression Operators). Members are looked up by their digests, so that each member of the
//! operands is looked at a few times at most; only what is given is copied.

ghost use Rattle.std.specs.Prelude.{◌≡◌, [], ◌∷◌, ◌++◌, map, not, ◌&&◌, if◌then◌else◌, IfOk, OnOk};
ghost use Rattle.std.specs.Option.{option_map};
ghost use Rattle.std.specs.List.{filter, flat_map, list_all};
ghost use Rattle.indexmap.specs.IndexSet.{contains, insert_all};
ghost use Rattle.bson_value.specs.View.{tree_of, founds};
ghost use Rattle.bson_value.specs.Gives.{Gives};
ghost use Rattle.bson_value.specs.Operands.{operand_map, both, all, array_in};
ghost use Rattle.bson_value.specs.SetRows.{same, has, firsts, in_all, intersection as the_intersection, is_subset as a_subset, are_equal as all_equal, set_union_row, set_intersection_row, set_difference_row, set_is_subset_row, set_equals_row};

use crate::arrays_so_far::{Arrays, with_array};
use crate::member::Member;
use crate::operand::as_array;
use bson_value::{EvalCode, EvalError, List, NoMemory, Value};
use indexmap::IndexSet;
use std::alloc::Global;

// Adds the members of the array that the set hasn't, in their order.
fn add_members<'a>(set: &mut IndexSet<Member<'a>>, array: &'a List) -> Result<(), NoMemory>
    ensures { OnOk result (set.new.keys ≡ insert_all same set.old.keys array.now) }
{
    for i in 0..array.len() {
        set.insert(Member::new(array.value(i)))?;
    }
    Ok(())
}

// The members of the array, each once.
fn members_of<'a>(alloc: Global, array: &'a List) -> Result<IndexSet<Member<'a>>, NoMemory>
    ensures { IfOk result (λ set. set.keys ≡ firsts array.now) }
{
    let mut set = IndexSet::with_capacity(alloc, array.len())?;
    add_members(&mut set, array)?;
    Ok(set)
}

// The members as an array.
fn array_of(alloc: Global, members: &[Member]) -> Result<List, NoMemory>
    ensures { IfOk result (λ array. array ≡ members.now) }
{
    let mut array = List::new(alloc);
    for member in members {
        array.add(member.to_value(alloc)?)?;
    }
    Ok(array)
}

// The members of all the arrays.
fn union(alloc: Global, arrays: &[&List]) -> Result<List, NoMemory>
    ensures { IfOk result (λ array. array ≡ firsts (flat_map (λ ts. ts) (map (λ l. l.now) arrays.now))) }
{
    let mut set = IndexSet::new(alloc);
    for array in arrays {
        set.reserve(array.len())?;
        add_members(&mut set, *array)?;
    }
    array_of(alloc, set.as_slice())
}

// The members as a list that can be narrowed.
fn listed<'a>(alloc: Global, members: &[Member<'a>]) -> Result<Vec<Member<'a>>, NoMemory>
    ensures { IfOk result (λ list. list.items ≡ members.now) }
{
    let mut list = Vec::with_capacity(alloc, members.len())?;
    for member in members {
        list.push(member.again())?;
    }
    Ok(list)
}

fn keep_shared<'a>(
    kept: &mut Vec<Member<'a>>,
    member: &Member<'a>,
    set: &IndexSet<Member<'a>>,
) -> Result<(), NoMemory>
    ensures { OnOk result (kept.new.items ≡ kept.old.items ++ (if contains same set.now member.now then member.now ∷ [] else [])) }
{
    if set.contains(member) {
        kept.push(member.again())?;
    }
    Ok(())
}

// The members that stand in the array too.
fn narrowed<'a>(
    alloc: Global,
    members: &[Member<'a>],
    array: &'a List,
) -> Result<Vec<Member<'a>>, NoMemory>
    ensures { IfOk result (λ kept. kept.items ≡ filter (has array.now) members.now) }
{
    let set = members_of(alloc, array)?;
    let mut kept = Vec::new(alloc);
    for member in members {
        keep_shared(&mut kept, member, &set)?;
    }
    Ok(kept)
}

// The members of the first array that stand in all others.
fn shared<'a>(alloc: Global, first: &'a List, others: &[&'a List]) -> Result<List, NoMemory>
    ensures { IfOk result (λ array. array ≡ filter (in_all (map (λ l. l.now) others.now)) (firsts first.now)) }
{
    let set = members_of(alloc, first)?;
    let mut kept = listed(alloc, set.as_slice())?;
    for other in others {
        kept = narrowed(alloc, kept.as_slice(), *other)?;
    }
    array_of(alloc, kept.as_slice())
}

fn intersection(alloc: Global, arrays: &[&List]) -> Result<List, NoMemory>
    ensures { IfOk result (λ array. array ≡ the_intersection (map (λ l. l.now) arrays.now)) }
{
    match arrays {
        [] => Ok(List::new(alloc)),
        [first, others @ ..] => shared(alloc, *first, others),
    }
}

fn keep_other<'a>(
    alloc: Global,
    kept: &mut List,
    member: &Member<'a>,
    set: &IndexSet<Member<'a>>,
) -> Result<(), NoMemory>
    ensures { OnOk result (kept.new ≡ kept.old ++ (if contains same set.now member.now then [] else member.now ∷ [])) }
{
    if set.contains(member) {
        Ok(())
    } else {
        kept.add(member.to_value(alloc)?)
    }
}

// The members of the array that don't stand in the other.
fn difference<'a>(alloc: Global, array: &'a List, other: &'a List) -> Result<List, NoMemory>
    ensures { IfOk result (λ kept. kept ≡ filter (λ t. not (has other.now t)) (firsts array.now)) }
{
    let members = members_of(alloc, array)?;
    let set = members_of(alloc, other)?;
    let mut kept = List::new(alloc);
    for member in members.as_slice() {
        keep_other(alloc, &mut kept, member, &set)?;
    }
    Ok(kept)
}

// Whether each of the members stands in the set.
fn are_in<'a>(members: &[Member<'a>], set: &IndexSet<Member<'a>>) -> bool
    ensures { result ≡ list_all (contains same set.now) members.now }
{
    for member in members {
        if !set.contains(member) {
            return false;
        }
    }
    true
}

fn is_subset<'a>(alloc: Global, array: &'a List, other: &'a List) -> Result<bool, NoMemory>
    ensures { IfOk result (λ b. b ≡ a_subset array.now other.now) }
{
    let members = members_of(alloc, array)?;
    let set = members_of(alloc, other)?;
    Ok(are_in(members.as_slice(), &set))
}

fn has_members_of<'a>(
    alloc: Global,
    set: &IndexSet<Member<'a>>,
    array: &'a List,
) -> Result<bool, NoMemory>
    ensures { IfOk result (λ b. b ≡ (list_all (has array.now) set.now.keys && list_all (contains same set.now) (firsts array.now))) }
{
    let other = members_of(alloc, array)?;
    if !are_in(set.as_slice(), &other) {
        return Ok(false);
    }
    Ok(are_in(other.as_slice(), set))
}

// Whether all the arrays have the members of the first and no others.
fn are_equal<'a>(alloc: Global, first: &'a List, others: &[&'a List]) -> Result<bool, NoMemory>
    ensures { IfOk result (λ b. b ≡ all_equal (first.now ∷ map (λ l. l.now) others.now)) }
{
    let set = members_of(alloc, first)?;
    for other in others {
        if !has_members_of(alloc, &set, *other)? {
            return Ok(false);
        }
    }
    Ok(true)
}

// The arrays that the operands are.
fn arrays_in<'a>(alloc: Global, args: &'a [Option<Value>]) -> Result<Option<Arrays<'a>>, EvalError>
    ensures { Gives (λ o. o) result (all (map array_in (founds args.now))) }
{
    let mut arrays = Some(Arrays::new(alloc));
    for operand in args {
        arrays = with_array(arrays, as_array(operand)?)?;
    }
    Ok(arrays)
}

// The arrays that two operands are.
fn two_arrays<'a>(
    a: &'a Option<Value>,
    b: &'a Option<Value>,
) -> Result<Option<(&'a List, &'a List)>, EvalCode>
    ensures { operand_map (λ p. (p.0.now, p.1.now)) result ≡ both (array_in (option_map tree_of a.now)) (array_in (option_map tree_of b.now)) }
{
    let a = as_array(a)?;
    let b = as_array(b)?;
    Ok(a.zip(b))
}

/// `$setUnion`: the members of all the arrays, each once, where it is first met. Null where an operand is null or
/// missing; `NotArray` where one is no array.
pub fn set_union(alloc: Global, args: &[Option<Value>]) -> Result<Option<Value>, EvalError>
    ensures { Gives (option_map tree_of) result (set_union_row (founds args.now)) }
{
    match arrays_in(alloc, args)? {
        None => Ok(Some(Value::Null)),
        Some(arrays) => Ok(Some(Value::List(union(alloc, arrays.lists())?))),
    }
}

/// `$setIntersection`: the members of the first array that stand in all others, each once. Null where an operand is
/// null or missing; `NotArray` where one is no array.
pub fn set_intersection(alloc: Global, args: &[Option<Value>]) -> Result<Option<Value>, EvalError>
    ensures { Gives (option_map tree_of) result (set_intersection_row (founds args.now)) }
{
    match arrays_in(alloc, args)? {
        None => Ok(Some(Value::Null)),
        Some(arrays) => Ok(Some(Value::List(intersection(alloc, arrays.lists())?))),
    }
}

/// `$setDifference`: the members of the first array that don't stand in the second, each once. Null where an operand
/// is null or missing; `NotArray` where one is no array, `WrongType` where they aren't two.
pub fn set_difference(alloc: Global, args: &[Option<Value>]) -> Result<Option<Value>, EvalError>
    ensures { Gives (option_map tree_of) result (set_difference_row (founds args.now)) }
{
    match args {
        [a, b] => match two_arrays(a, b)? {
            None => Ok(Some(Value::Null)),
            Some((array, other)) => Ok(Some(Value::List(difference(alloc, array, other)?))),
        },
        _ => Err(EvalError::Code(EvalCode::WrongType)),
    }
}

/// `$setIsSubset`: whether each member of the first array stands in the second. `NotArray` where an operand is no
/// array, `WrongType` where they aren't two.
pub fn set_is_subset(alloc: Global, args: &[Option<Value>]) -> Result<Option<Value>, EvalError>
    ensures { Gives (option_map tree_of) result (set_is_subset_row (founds args.now)) }
{
    match args {
        [a, b] => match two_arrays(a, b)? {
            None => Err(EvalError::Code(EvalCode::NotArray)),
            Some((array, other)) => Ok(Some(Value::Flag(is_subset(alloc, array, other)?))),
        },
        _ => Err(EvalError::Code(EvalCode::WrongType)),
    }
}

/// `$setEquals`: whether all the arrays, two or more, have the same members. `NotArray` where an operand is no array,
/// `WrongType` where they are fewer than two.
pub fn set_equals(alloc: Global, args: &[Option<Value>]) -> Result<Option<Value>, EvalError>
    ensures { Gives (option_map tree_of) result (set_equals_row (founds args.now)) }
{
    match args {
        [] | [_] => Err(EvalError::Code(EvalCode::WrongType)),
        [_, _, ..] => match arrays_in(alloc, args)? {
            None => Err(EvalError::Code(EvalCode::NotArray)),
            Some(arrays) => Ok(Some(Value::Flag(all_alike(alloc, arrays.lists())?))),
        },
    }
}

fn all_alike(alloc: Global, arrays: &[&List]) -> Result<bool, NoMemory>
    ensures { IfOk result (λ b. b ≡ all_equal (map (λ l. l.now) arrays.now)) }
{
    match arrays {
        [] => Ok(true),
        [first, others @ ..] => are_equal(alloc, *first, others),
    }
}
