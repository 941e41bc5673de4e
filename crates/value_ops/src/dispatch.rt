ghost use Rattle.std.specs.Option.{option_map};
ghost use Rattle.bson_value.specs.View.{tree_of, founds};
ghost use Rattle.bson_value.specs.Gives.{Gives};
ghost use Rattle.bson_value.specs.Operators.{operator};

use crate::{arrays, comparisons, conversions, numbers, ranges, texts, types};
use bson_value::{EvalError, Op, Value};
use std::alloc::Global;

/// What the operator gives on the values of its operands, `None` being a missing one, as the manual's page of the
/// operator has it: a value, missing, or the code of an evaluation error. A number of operands that the operator doesn't
/// take gives `WrongType`. Each operand is looked at once or a few times, and only what is given is copied.
pub fn apply(alloc: Global, op: Op, args: &[Option<Value>]) -> Result<Option<Value>, EvalError>
    ensures { Gives (option_map tree_of) result (operator op (founds args.now)) }
{
    match op {
        Op::Add => numbers::add(args),
        Op::Subtract => numbers::subtract(args),
        Op::Multiply => numbers::multiply(args),
        Op::Mod => numbers::modulo(args),
        Op::Abs => numbers::abs(args),
        Op::Cmp => comparisons::cmp(args),
        Op::Eq => comparisons::eq(args),
        Op::Ne => comparisons::ne(args),
        Op::Gt => comparisons::gt(args),
        Op::Gte => comparisons::gte(args),
        Op::Lt => comparisons::lt(args),
        Op::Lte => comparisons::lte(args),
        Op::Not => comparisons::not(args),
        Op::Size => arrays::size(args),
        Op::In => arrays::is_in(args),
        Op::ArrayElemAt => arrays::array_elem_at(alloc, args),
        Op::First => arrays::first(alloc, args),
        Op::Last => arrays::last(alloc, args),
        Op::ConcatArrays => arrays::concat_arrays(alloc, args),
        Op::Slice => arrays::slice(alloc, args),
        Op::ReverseArray => arrays::reverse_array(alloc, args),
        Op::Range => ranges::range(alloc, args),
        Op::IsArray => types::is_array(args),
        Op::IsNumber => types::is_number(args),
        Op::Type => types::type_name(alloc, args),
        Op::SetUnion => value_sets::set_union(alloc, args),
        Op::SetIntersection => value_sets::set_intersection(alloc, args),
        Op::SetDifference => value_sets::set_difference(alloc, args),
        Op::SetIsSubset => value_sets::set_is_subset(alloc, args),
        Op::SetEquals => value_sets::set_equals(alloc, args),
        Op::ArrayToObject => value_sets::array_to_object(alloc, args),
        Op::ObjectToArray => value_sets::object_to_array(alloc, args),
        Op::MergeObjects => value_sets::merge_objects(alloc, args),
        Op::Concat => texts::concat(alloc, args),
        Op::StrLenBytes => texts::str_len_bytes(args),
        Op::StrLenCp => texts::str_len_cp(args),
        Op::SubstrCp => texts::substr_cp(alloc, args),
        Op::Split => texts::split(alloc, args),
        Op::ToInt => conversions::to_int(args),
        Op::ToLong => conversions::to_long(args),
        Op::ToString => conversions::to_string(alloc, args),
    }
}
