//! Texts (the manual, String Expression Operators). Characters are code points.

ghost use Rattle.std.specs.Prelude.{◌≡◌, ◌<◌, ◌++◌, [], min, map, fold, take, drop, length, pos, option_copied, IfOk};
ghost use Rattle.std.specs.Option.{option_map};
ghost use Rattle.std.specs.String.{string_bytes};
ghost use Rattle.std.specs.Str.{chars, encode_utf8_all};
ghost use Rattle.bson_value.specs.Tree.{leaf, int as an_int, text as a_text};
ghost use Rattle.bson_value.specs.declared.eval_code.EvalCode.TheVariants.{WrongType};
ghost use Rattle.bson_value.specs.View.{tree_of, founds};
ghost use Rattle.bson_value.specs.Gives.{Gives};
ghost use Rattle.bson_value.specs.Operands.{operand_map, both, all, needed, text_in, whole_in};
ghost use Rattle.bson_value.specs.TextRows.{concat_row, str_len_bytes_row, str_len_cp_row, substr_cp_row, split_row, parts as the_parts, part_of as the_part, split_by as the_split};
ghost use Rattle.value_ops.specs.Folded.{with_operand};

use bson_value::{EvalCode, EvalError, List, NoMemory, Text, Value};
use std::alloc::Global;
use value_sets::{as_text, as_whole};

/// A text as a value.
pub(crate) fn text_of(alloc: Global, text: &str) -> Result<Value, NoMemory>
    ensures { IfOk result (λ v. tree_of v ≡ leaf (a_text text.now)) }
{
    Ok(Value::Text(Text::of(alloc, text)?))
}

// A length, as an Int.
fn length_of(len: usize) -> Value
    ensures { tree_of result ≡ leaf (an_int (pos (min len 2_147_483_647))) }
{
    Value::Int(len.min(2_147_483_647) as i32)
}

// The text so far with one more, where none of the operands was null or missing.
fn with_text(joined: Option<String>, text: Option<&Text>) -> Result<Option<String>, NoMemory>
    ensures { IfOk result (λ more. option_map string_bytes more ≡ with_operand ◌++◌ (option_map string_bytes joined) (option_copied text.entry)) }
{
    match joined {
        None => Ok(None),
        Some(mut joined) => match text {
            None => Ok(None),
            Some(text) => {
                joined.push_str(text.as_str())?;
                Ok(Some(joined))
            }
        },
    }
}

// The texts that the operands are, one after another.
fn joined(alloc: Global, args: &[Option<Value>]) -> Result<Option<String>, EvalError>
    ensures { Gives (option_map string_bytes) result (operand_map (fold ◌++◌ []) (all (map text_in (founds args.now)))) }
{
    let mut text = Some(String::new(alloc));
    for operand in args {
        text = with_text(text, as_text(operand)?)?;
    }
    Ok(text)
}

/// `$concat`: the texts, one after another.
pub(crate) fn concat(alloc: Global, args: &[Option<Value>]) -> Result<Option<Value>, EvalError>
    ensures { Gives (option_map tree_of) result (concat_row (founds args.now)) }
{
    match joined(alloc, args)? {
        None => Ok(Some(Value::Null)),
        Some(text) => Ok(Some(text_of(alloc, text.as_str())?)),
    }
}

/// `$strLenBytes`: the number of bytes.
pub(crate) fn str_len_bytes(args: &[Option<Value>]) -> Result<Option<Value>, EvalError>
    ensures { Gives (option_map tree_of) result (str_len_bytes_row (founds args.now)) }
{
    match args {
        [operand] => match as_text(operand)? {
            None => Err(EvalError::Code(EvalCode::WrongType)),
            Some(text) => Ok(Some(length_of(text.bytes().len()))),
        },
        _ => Err(EvalError::Code(EvalCode::WrongType)),
    }
}

// The number of code points.
fn count_of(text: &str) -> usize
    ensures { result ≡ length (chars text.now) }
{
    text.chars().count()
}

/// `$strLenCP`: the number of code points.
pub(crate) fn str_len_cp(args: &[Option<Value>]) -> Result<Option<Value>, EvalError>
    ensures { Gives (option_map tree_of) result (str_len_cp_row (founds args.now)) }
{
    match args {
        [operand] => match as_text(operand)? {
            None => Err(EvalError::Code(EvalCode::WrongType)),
            Some(text) => Ok(Some(length_of(count_of(text.as_str())))),
        },
        _ => Err(EvalError::Code(EvalCode::WrongType)),
    }
}

// What follows so many code points.
fn past(text: &str, count: u64) -> &str
    ensures { chars result.now ≡ drop count (chars text.now) }
{
    let mut rest = text.chars();
    for _i in 0..count {
        match rest.next() {
            None => return "",
            Some(_) => {}
        }
    }
    rest.as_str()
}

// The code points from a place on, at most so many.
fn part(alloc: Global, text: &str, start: i64, count: i64) -> Result<Option<Value>, EvalError>
    ensures { Gives (option_map tree_of) result (the_part text.now start count) }
{
    if start < 0 || count < 0 {
        return Err(EvalError::Code(EvalCode::BadCount));
    }
    let from = past(text, start.cast_unsigned());
    Ok(Some(text_of(alloc, front(from, count.cast_unsigned()))?))
}

// The first so many code points.
fn front(text: &str, count: u64) -> &str
    ensures { result.now ≡ encode_utf8_all (take count (chars text.now)) }
{
    let after = past(text, count);
    &text[..text.len() - after.len()]
}

// An operand that has to be a whole number.
fn needed_whole(operand: &Option<Value>) -> Result<Option<i64>, EvalCode>
    ensures { result ≡ needed WrongType (whole_in (option_map tree_of operand.now)) }
{
    match as_whole(operand)? {
        Some(number) => Ok(Some(number)),
        None => Err(EvalCode::WrongType),
    }
}

fn two_wholes(a: &Option<Value>, b: &Option<Value>) -> Result<Option<(i64, i64)>, EvalCode>
    ensures { result ≡ both (needed WrongType (whole_in (option_map tree_of a.now))) (needed WrongType (whole_in (option_map tree_of b.now))) }
{
    let a = needed_whole(a)?;
    let b = needed_whole(b)?;
    Ok(a.zip(b))
}

fn text_and_place<'a>(
    text: &'a Option<Value>,
    start: &Option<Value>,
    count: &Option<Value>,
) -> Result<Option<(&'a Text, (i64, i64))>, EvalCode>
    ensures { operand_map (λ p. (p.0.now, p.1)) result ≡ both (text_in (option_map tree_of text.now)) (both (needed WrongType (whole_in (option_map tree_of start.now))) (needed WrongType (whole_in (option_map tree_of count.now)))) }
{
    let text = as_text(text)?;
    let place = two_wholes(start, count)?;
    Ok(text.zip(place))
}

/// `$substrCP`: the code points from a place on, counted from 0, at most so many.
pub(crate) fn substr_cp(alloc: Global, args: &[Option<Value>]) -> Result<Option<Value>, EvalError>
    ensures { Gives (option_map tree_of) result (substr_cp_row (founds args.now)) }
{
    match args {
        [text, start, count] => match text_and_place(text, start, count)? {
            None => Ok(Some(text_of(alloc, "")?)),
            Some((text, (start, count))) => part(alloc, text.as_str(), start, count),
        },
        _ => Err(EvalError::Code(EvalCode::WrongType)),
    }
}

// The parts of the text between the separators that are met from the left.
fn parts(alloc: Global, text: &str, separator: &str) -> Result<List, NoMemory>
    requires { 0 < length separator.now }
    ensures { IfOk result (λ list. list ≡ map (λ part. leaf (a_text part)) (the_parts separator.now 0 text.now)) }
{
    let mut list = List::new(alloc);
    let mut rest = text;
    while let Some((part, after)) = rest.split_once(separator) {
        list.add(text_of(alloc, part)?)?;
        rest = after;
    }
    list.add(text_of(alloc, rest)?)?;
    Ok(list)
}

fn two_texts<'a>(
    a: &'a Option<Value>,
    b: &'a Option<Value>,
) -> Result<Option<(&'a Text, &'a Text)>, EvalCode>
    ensures { operand_map (λ p. (p.0.now, p.1.now)) result ≡ both (text_in (option_map tree_of a.now)) (text_in (option_map tree_of b.now)) }
{
    let a = as_text(a)?;
    let b = as_text(b)?;
    Ok(a.zip(b))
}

fn split_by(alloc: Global, text: &str, separator: &str) -> Result<Option<Value>, EvalError>
    ensures { Gives (option_map tree_of) result (the_split text.now separator.now) }
{
    if separator.is_empty() {
        return Err(EvalError::Code(EvalCode::BadCount));
    }
    Ok(Some(Value::List(parts(alloc, text, separator)?)))
}

/// `$split`: the parts of a text between the separators.
pub(crate) fn split(alloc: Global, args: &[Option<Value>]) -> Result<Option<Value>, EvalError>
    ensures { Gives (option_map tree_of) result (split_row (founds args.now)) }
{
    match args {
        [text, separator] => match two_texts(text, separator)? {
            None => Ok(Some(Value::Null)),
            Some((text, separator)) => split_by(alloc, text.as_str(), separator.as_str()),
        },
        _ => Err(EvalError::Code(EvalCode::WrongType)),
    }
}
