//! Objects (the manual, Object Expression Operators). Names are looked up by their hashes, and only the values that are
//! given are copied.

ghost use Rattle.std.specs.Prelude.{◌≡◌, [], Some, IfOk, OnOk, map};
ghost use Rattle.std.specs.Option.{option_map, unwrap_or};
ghost use Rattle.bson_value.specs.Pairs.{put};
ghost use Rattle.bson_value.specs.Tree.{leaf, text as a_text, doc as a_doc, pairs_of};
ghost use Rattle.bson_value.specs.View.{tree_of, founds};
ghost use Rattle.bson_value.specs.Gives.{Gives};
ghost use Rattle.bson_value.specs.ObjectRows.{array_to_object_row, object_to_array_row, merge_objects_row, merged, named as is_named, field as the_field, doc_field as the_doc_field, list_field as the_list_field, element_field as the_element_field, pair_object as the_pair, object_of, element_fields};
ghost use Rattle.value_sets.specs.Seen.{fields_seen, field_seen};

use crate::member::Member;
use crate::operand::{as_array, as_doc};
use bson_value::{Doc, EvalCode, EvalError, List, Name, NoMemory, Text, Value};
use indexmap::IndexMap;
use std::alloc::Global;

// A name. The bytes are those of one, so that memory alone can be wanting.
fn name_of(alloc: Global, bytes: &[u8]) -> Result<Name, NoMemory>
    ensures { IfOk result (λ n. n ≡ bytes.now) }
{
    match Name::read(alloc, bytes) {
        Ok(name) => Ok(name),
        Err(_) => Err(NoMemory),
    }
}

// A name as a text.
fn text_from(alloc: Global, name: &[u8]) -> Result<Value, NoMemory>
    ensures { IfOk result (λ v. tree_of v ≡ leaf (a_text name.now)) }
{
    match Text::read(alloc, name) {
        Ok(text) => Ok(Value::Text(text)),
        Err(_) => Err(NoMemory),
    }
}

fn put_field<'a>(
    fields: &mut IndexMap<&'a [u8], Member<'a>>,
    name: &'a [u8],
    value: &'a Value,
) -> Result<(), NoMemory>
    ensures { OnOk result (fields_seen fields.new.entries ≡ put name.now (tree_of value.now) (fields_seen fields.old.entries)) }
{
    fields.insert(name, Member::new(value))?;
    Ok(())
}

// Puts each field of the document in the place of that of its name, or at the end.
fn put_fields<'a>(fields: &mut IndexMap<&'a [u8], Member<'a>>, doc: &'a Doc) -> Result<(), NoMemory>
    ensures { OnOk result (fields_seen fields.new.entries ≡ merged (fields_seen fields.old.entries) doc.now) }
{
    for i in 0..doc.len() {
        put_field(fields, doc.name(i), doc.value(i))?;
    }
    Ok(())
}

// The fields as a document.
fn doc_of<'a>(alloc: Global, fields: &IndexMap<&'a [u8], Member<'a>>) -> Result<Doc, NoMemory>
    ensures { IfOk result (λ doc. doc ≡ fields_seen fields.now.entries) }
{
    let mut doc = Doc::new(alloc);
    for i in 0..fields.len() {
        match fields.get_index(i) {
            None => return Ok(doc), // each place has one
            Some((name, value)) => {
                doc.append(name_of(alloc, *name)?, value.to_value(alloc)?)?;
            }
        }
    }
    Ok(doc)
}

fn named<'a>(name: &'a [u8], value: &'a Value) -> Result<(&'a [u8], &'a Value), EvalCode>
    ensures { field_seen result ≡ is_named (Some (name.now, tree_of value.now)) }
{
    if name.contains(&0) {
        Err(EvalCode::BadName)
    } else {
        Ok((name, value))
    }
}

// The field of that name and value.
fn field<'a>(name: &'a Value, value: &'a Value) -> Result<(&'a [u8], &'a Value), EvalCode>
    ensures { field_seen result ≡ is_named (the_field (tree_of name.now) (tree_of value.now)) }
{
    match name {
        Value::Text(text) => named(text.bytes(), value),
        Value::Least => Err(EvalCode::WrongType),
        Value::Null => Err(EvalCode::WrongType),
        Value::Int(_) => Err(EvalCode::WrongType),
        Value::Long(_) => Err(EvalCode::WrongType),
        Value::Doc(_) => Err(EvalCode::WrongType),
        Value::List(_) => Err(EvalCode::WrongType),
        Value::Bin(_, _) => Err(EvalCode::WrongType),
        Value::Id(_) => Err(EvalCode::WrongType),
        Value::Flag(_) => Err(EvalCode::WrongType),
        Value::Date(_) => Err(EvalCode::WrongType),
        Value::Stamp(_) => Err(EvalCode::WrongType),
        Value::Greatest => Err(EvalCode::WrongType),
    }
}

// The field that a document of `k` and `v` spells.
fn doc_field(doc: &Doc) -> Result<(&[u8], &Value), EvalCode>
    ensures { field_seen result ≡ is_named (the_doc_field doc.now) }
{
    if doc.len() != 2 {
        return Err(EvalCode::WrongType);
    }
    match doc.get(b"k") {
        None => Err(EvalCode::WrongType),
        Some(name) => match doc.get(b"v") {
            None => Err(EvalCode::WrongType),
            Some(value) => field(name, value),
        },
    }
}

// The field that an array of a name and a value spells.
fn list_field(list: &List) -> Result<(&[u8], &Value), EvalCode>
    ensures { field_seen result ≡ is_named (the_list_field list.now) }
{
    if list.len() != 2 {
        return Err(EvalCode::WrongType);
    }
    field(list.value(0), list.value(1))
}

// The field that an element of an array spells.
fn element_field(element: &Value) -> Result<(&[u8], &Value), EvalCode>
    ensures { field_seen result ≡ is_named (the_element_field (tree_of element.now)) }
{
    match element {
        Value::Doc(doc) => doc_field(doc),
        Value::List(list) => list_field(list),
        Value::Least => Err(EvalCode::WrongType),
        Value::Null => Err(EvalCode::WrongType),
        Value::Int(_) => Err(EvalCode::WrongType),
        Value::Long(_) => Err(EvalCode::WrongType),
        Value::Text(_) => Err(EvalCode::WrongType),
        Value::Bin(_, _) => Err(EvalCode::WrongType),
        Value::Id(_) => Err(EvalCode::WrongType),
        Value::Flag(_) => Err(EvalCode::WrongType),
        Value::Date(_) => Err(EvalCode::WrongType),
        Value::Stamp(_) => Err(EvalCode::WrongType),
        Value::Greatest => Err(EvalCode::WrongType),
    }
}

// The document of the fields that the elements spell.
fn object_from(alloc: Global, list: &List) -> Result<Doc, EvalError>
    ensures { Gives (λ d. Some (a_doc (pairs_of d))) result (object_of (element_fields list.now)) }
{
    let mut fields = IndexMap::new(alloc);
    for i in 0..list.len() {
        let (name, value) = element_field(list.value(i))?;
        put_field(&mut fields, name, value)?;
    }
    Ok(doc_of(alloc, &fields)?)
}

/// `$arrayToObject`: the document of the fields that the elements spell. Null where the operand is null or missing;
/// `NotArray`, `WrongType` for an element that spells none, `BadName` for a name with a byte 0.
pub fn array_to_object(alloc: Global, args: &[Option<Value>]) -> Result<Option<Value>, EvalError>
    ensures { Gives (option_map tree_of) result (array_to_object_row (founds args.now)) }
{
    match args {
        [operand] => match as_array(operand)? {
            None => Ok(Some(Value::Null)),
            Some(list) => Ok(Some(Value::Doc(object_from(alloc, list)?))),
        },
        _ => Err(EvalError::Code(EvalCode::WrongType)),
    }
}

// A field as a document of `k` and `v`.
fn pair_object(alloc: Global, name: &[u8], value: &Value) -> Result<Value, NoMemory>
    ensures { IfOk result (λ v. tree_of v ≡ the_pair (name.now, tree_of value.now)) }
{
    let mut pair = Doc::new(alloc);
    pair.append(name_of(alloc, b"k")?, text_from(alloc, name)?)?;
    pair.append(name_of(alloc, b"v")?, value.copy(alloc)?)?;
    Ok(Value::Doc(pair))
}

fn array_from(alloc: Global, doc: &Doc) -> Result<List, NoMemory>
    ensures { IfOk result (λ list. list ≡ map the_pair doc.now) }
{
    let mut list = List::new(alloc);
    for i in 0..doc.len() {
        list.add(pair_object(alloc, doc.name(i), doc.value(i))?)?;
    }
    Ok(list)
}

/// `$objectToArray`: a document of `k` and `v` for each field. Null where the operand is null or missing;
/// `NotDocument`.
pub fn object_to_array(alloc: Global, args: &[Option<Value>]) -> Result<Option<Value>, EvalError>
    ensures { Gives (option_map tree_of) result (object_to_array_row (founds args.now)) }
{
    match args {
        [operand] => match as_doc(operand)? {
            None => Ok(Some(Value::Null)),
            Some(doc) => Ok(Some(Value::List(array_from(alloc, doc)?))),
        },
        _ => Err(EvalError::Code(EvalCode::WrongType)),
    }
}

fn put_operand<'a>(
    fields: &mut IndexMap<&'a [u8], Member<'a>>,
    doc: Option<&'a Doc>,
) -> Result<(), NoMemory>
    ensures { OnOk result (fields_seen fields.new.entries ≡ merged (fields_seen fields.old.entries) (unwrap_or (option_map (λ d. d.now) doc.entry) [])) }
{
    match doc {
        None => Ok(()),
        Some(doc) => put_fields(fields, doc),
    }
}

/// `$mergeObjects`: the fields of all the documents, a later one in the place of an earlier one of its name. Null and
/// missing operands count as empty; `NotDocument` for another.
pub fn merge_objects(alloc: Global, args: &[Option<Value>]) -> Result<Option<Value>, EvalError>
    ensures { Gives (option_map tree_of) result (merge_objects_row (founds args.now)) }
{
    let mut fields = IndexMap::new(alloc);
    for operand in args {
        put_operand(&mut fields, as_doc(operand)?)?;
    }
    Ok(Some(Value::Doc(doc_of(alloc, &fields)?)))
}
