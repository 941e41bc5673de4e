//! The names of operators, and what each takes.

ghost use Rattle.std.specs.Prelude.{◌≡◌, map};
ghost use Rattle.std.specs.Option.{option_map};
ghost use Rattle.bson_value.specs.Pairs.{find};
ghost use Rattle.expr_read.specs.Rows.{row_of};
ghost use Rattle.expr_tree.specs.Forms.{row_named, unit_named};

use Kind::{And, Apply, IfNull, Or};
use Row::{Has, PartOf, Takes};
use bson_value::{Op, Part, Unit};

/// An expression that is made of a list of operands.
#[derive(Clone, Copy, Debug, PartialEq, Eq)]
pub enum Kind {
    /// An operator on the values of its operands.
    Apply(Op),
    /// `$and`
    And,
    /// `$or`
    Or,
    /// `$ifNull`
    IfNull,
}

/// An operator whose operands are the fields of a document.
#[derive(Clone, Copy, Debug, PartialEq, Eq)]
pub enum Shape {
    /// `$switch`
    Cases,
    /// `$let`
    Variables,
    /// `$map`
    Mapped,
    /// `$filter`
    Filtered,
    /// `$reduce`
    Reduced,
    /// `$dateAdd`, or `$dateSubtract` where the flag is true
    Moved(bool),
    /// `$dateDiff`
    Between,
    /// `$dateTrunc`
    Cut,
}

/// What stands behind the name of an operator.
#[derive(Clone, Copy, Debug, PartialEq, Eq)]
pub enum Row {
    /// Any value, which stands for itself.
    AsItIs,
    /// Operands: so many at least and, where there is a bound, so many at most.
    Takes(Kind, usize, Option<usize>),
    /// The three operands of `$cond`, with or without names.
    Condition,
    /// One date.
    PartOf(Part),
    /// Operands with names.
    Has(Shape),
}

const OPERATORS: [(&[u8], Row); 67] = [
    // numbers and comparison
    (b"$add", Takes(Apply(Op::Add), 0, None)),
    (b"$subtract", Takes(Apply(Op::Subtract), 2, Some(2))),
    (b"$multiply", Takes(Apply(Op::Multiply), 0, None)),
    (b"$mod", Takes(Apply(Op::Mod), 2, Some(2))),
    (b"$abs", Takes(Apply(Op::Abs), 1, Some(1))),
    (b"$cmp", Takes(Apply(Op::Cmp), 2, Some(2))),
    (b"$eq", Takes(Apply(Op::Eq), 2, Some(2))),
    (b"$ne", Takes(Apply(Op::Ne), 2, Some(2))),
    (b"$gt", Takes(Apply(Op::Gt), 2, Some(2))),
    (b"$gte", Takes(Apply(Op::Gte), 2, Some(2))),
    (b"$lt", Takes(Apply(Op::Lt), 2, Some(2))),
    (b"$lte", Takes(Apply(Op::Lte), 2, Some(2))),
    // literals, truth, choice, variables
    (b"$literal", Row::AsItIs),
    (b"$and", Takes(And, 0, None)),
    (b"$or", Takes(Or, 0, None)),
    (b"$not", Takes(Apply(Op::Not), 1, Some(1))),
    (b"$cond", Row::Condition),
    (b"$ifNull", Takes(IfNull, 2, None)),
    (b"$switch", Has(Shape::Cases)),
    (b"$let", Has(Shape::Variables)),
    (b"$map", Has(Shape::Mapped)),
    (b"$filter", Has(Shape::Filtered)),
    (b"$reduce", Has(Shape::Reduced)),
    // arrays and documents
    (b"$size", Takes(Apply(Op::Size), 1, Some(1))),
    (b"$in", Takes(Apply(Op::In), 2, Some(2))),
    (b"$arrayElemAt", Takes(Apply(Op::ArrayElemAt), 2, Some(2))),
    (b"$first", Takes(Apply(Op::First), 1, Some(1))),
    (b"$last", Takes(Apply(Op::Last), 1, Some(1))),
    (b"$concatArrays", Takes(Apply(Op::ConcatArrays), 0, None)),
    (b"$slice", Takes(Apply(Op::Slice), 2, Some(3))),
    (b"$reverseArray", Takes(Apply(Op::ReverseArray), 1, Some(1))),
    (b"$range", Takes(Apply(Op::Range), 2, Some(3))),
    (b"$isArray", Takes(Apply(Op::IsArray), 1, Some(1))),
    (b"$setUnion", Takes(Apply(Op::SetUnion), 0, None)),
    (
        b"$setIntersection",
        Takes(Apply(Op::SetIntersection), 0, None),
    ),
    (
        b"$setDifference",
        Takes(Apply(Op::SetDifference), 2, Some(2)),
    ),
    (b"$setIsSubset", Takes(Apply(Op::SetIsSubset), 2, Some(2))),
    (b"$setEquals", Takes(Apply(Op::SetEquals), 2, None)),
    (
        b"$arrayToObject",
        Takes(Apply(Op::ArrayToObject), 1, Some(1)),
    ),
    (
        b"$objectToArray",
        Takes(Apply(Op::ObjectToArray), 1, Some(1)),
    ),
    (b"$mergeObjects", Takes(Apply(Op::MergeObjects), 0, None)),
    // texts and types
    (b"$concat", Takes(Apply(Op::Concat), 0, None)),
    (b"$strLenBytes", Takes(Apply(Op::StrLenBytes), 1, Some(1))),
    (b"$strLenCP", Takes(Apply(Op::StrLenCp), 1, Some(1))),
    (b"$substrCP", Takes(Apply(Op::SubstrCp), 3, Some(3))),
    (b"$split", Takes(Apply(Op::Split), 2, Some(2))),
    (b"$isNumber", Takes(Apply(Op::IsNumber), 1, Some(1))),
    (b"$type", Takes(Apply(Op::Type), 1, Some(1))),
    (b"$toInt", Takes(Apply(Op::ToInt), 1, Some(1))),
    (b"$toLong", Takes(Apply(Op::ToLong), 1, Some(1))),
    (b"$toString", Takes(Apply(Op::ToString), 1, Some(1))),
    // dates
    (b"$year", PartOf(Part::Year)),
    (b"$month", PartOf(Part::Month)),
    (b"$dayOfMonth", PartOf(Part::DayOfMonth)),
    (b"$dayOfYear", PartOf(Part::DayOfYear)),
    (b"$dayOfWeek", PartOf(Part::DayOfWeek)),
    (b"$isoDayOfWeek", PartOf(Part::IsoDayOfWeek)),
    (b"$isoWeek", PartOf(Part::IsoWeek)),
    (b"$isoWeekYear", PartOf(Part::IsoWeekYear)),
    (b"$hour", PartOf(Part::Hour)),
    (b"$minute", PartOf(Part::Minute)),
    (b"$second", PartOf(Part::Second)),
    (b"$millisecond", PartOf(Part::Millisecond)),
    (b"$dateAdd", Has(Shape::Moved(false))),
    (b"$dateSubtract", Has(Shape::Moved(true))),
    (b"$dateDiff", Has(Shape::Between)),
    (b"$dateTrunc", Has(Shape::Cut)),
];

const UNITS: [(&[u8], Unit); 9] = [
    (b"year", Unit::Year),
    (b"quarter", Unit::Quarter),
    (b"month", Unit::Month),
    (b"week", Unit::Week),
    (b"day", Unit::Day),
    (b"hour", Unit::Hour),
    (b"minute", Unit::Minute),
    (b"second", Unit::Second),
    (b"millisecond", Unit::Millisecond),
];

fn find_row(rows: &[(&[u8], Row)], name: &[u8]) -> Option<Row>
    ensures { option_map row_of result ≡ find name.now (map (λ r. (r.0.now, row_of r.1)) rows.now) }
{
    match rows {
        [] => None,
        [first, rest @ ..] => {
            if first.0 == name {
                Some(first.1)
            } else {
                find_row(rest, name)
            }
        }
    }
}

fn find_unit(units: &[(&[u8], Unit)], name: &[u8]) -> Option<Unit>
    ensures { result ≡ find name.now (map (λ r. (r.0.now, r.1)) units.now) }
{
    match units {
        [] => None,
        [first, rest @ ..] => {
            if first.0 == name {
                Some(first.1)
            } else {
                find_unit(rest, name)
            }
        }
    }
}

/// What the operator of that name takes. None exactly where there is no such operator.
pub fn row_named(name: &[u8]) -> Option<Row>
    ensures { option_map row_of result ≡ row_named name.now }
{
    find_row(&OPERATORS, name)
}

/// The unit of that name.
pub fn unit_named(name: &[u8]) -> Option<Unit>
    ensures { result ≡ unit_named name.now }
{
    find_unit(&UNITS, name)
}
