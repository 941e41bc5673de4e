//! Calls of `value_ops`: `$add 1 2 -> 3`.

use bson_value::{EvalError, Op, Value};
use case_notation::{Item, Table};
use std::alloc::Global;
use value_ops::apply;

const OPERATORS: [(&[u8], Op); 41] = [
    (b"$add", Op::Add),
    (b"$subtract", Op::Subtract),
    (b"$multiply", Op::Multiply),
    (b"$mod", Op::Mod),
    (b"$abs", Op::Abs),
    (b"$cmp", Op::Cmp),
    (b"$eq", Op::Eq),
    (b"$ne", Op::Ne),
    (b"$gt", Op::Gt),
    (b"$gte", Op::Gte),
    (b"$lt", Op::Lt),
    (b"$lte", Op::Lte),
    (b"$not", Op::Not),
    (b"$size", Op::Size),
    (b"$in", Op::In),
    (b"$arrayElemAt", Op::ArrayElemAt),
    (b"$first", Op::First),
    (b"$last", Op::Last),
    (b"$concatArrays", Op::ConcatArrays),
    (b"$slice", Op::Slice),
    (b"$reverseArray", Op::ReverseArray),
    (b"$range", Op::Range),
    (b"$isArray", Op::IsArray),
    (b"$isNumber", Op::IsNumber),
    (b"$type", Op::Type),
    (b"$setUnion", Op::SetUnion),
    (b"$setIntersection", Op::SetIntersection),
    (b"$setDifference", Op::SetDifference),
    (b"$setIsSubset", Op::SetIsSubset),
    (b"$setEquals", Op::SetEquals),
    (b"$arrayToObject", Op::ArrayToObject),
    (b"$objectToArray", Op::ObjectToArray),
    (b"$mergeObjects", Op::MergeObjects),
    (b"$concat", Op::Concat),
    (b"$strLenBytes", Op::StrLenBytes),
    (b"$strLenCP", Op::StrLenCp),
    (b"$substrCP", Op::SubstrCp),
    (b"$split", Op::Split),
    (b"$toInt", Op::ToInt),
    (b"$toLong", Op::ToLong),
    (b"$toString", Op::ToString),
];

/// The table of operators.
pub(crate) struct Operators;

fn operator(word: &[u8]) -> Option<Op> {
    for (name, op) in OPERATORS {
        if name == word {
            return Some(op);
        }
    }
    None
}

fn operands(alloc: Global, items: &[Item]) -> Option<Vec<Option<Value>>> {
    let mut operands = Vec::new(alloc);
    for item in items {
        operands.push(item.operand(alloc, b"missing")?).ok()?;
    }
    Some(operands)
}

impl Table for Operators {
    fn answer(&self, alloc: Global, question: &[Item]) -> Option<Vec<Item>> {
        let [word, items @ ..] = question else {
            return None;
        };
        let op = operator(word.word()?)?;
        match apply(alloc, op, operands(alloc, items)?.as_slice()) {
            Ok(found) => Item::of_found(alloc, found)?.alone(alloc),
            Err(EvalError::Code(code)) => Item::of_code(alloc, code)?.alone(alloc),
            Err(EvalError::Memory) => None,
        }
    }
}
