//! Calls of `date_ops`: `part year 0D -> 1970`.

use bson_value::Value::{self, Date, Int, Long};
use bson_value::{EvalCode, Part, Unit};
use case_notation::{Item, Table};
use date_ops::{date_add, date_diff, date_part, date_trunc};
use std::alloc::Global;

/// The table of dates.
pub(crate) struct Dates;

fn part(word: &[u8]) -> Option<Part> {
    match word {
        b"year" => Some(Part::Year),
        b"month" => Some(Part::Month),
        b"dayOfMonth" => Some(Part::DayOfMonth),
        b"dayOfYear" => Some(Part::DayOfYear),
        b"dayOfWeek" => Some(Part::DayOfWeek),
        b"isoDayOfWeek" => Some(Part::IsoDayOfWeek),
        b"isoWeek" => Some(Part::IsoWeek),
        b"isoWeekYear" => Some(Part::IsoWeekYear),
        b"hour" => Some(Part::Hour),
        b"minute" => Some(Part::Minute),
        b"second" => Some(Part::Second),
        b"millisecond" => Some(Part::Millisecond),
        _ => None,
    }
}

fn unit(word: &[u8]) -> Option<Unit> {
    match word {
        b"year" => Some(Unit::Year),
        b"quarter" => Some(Unit::Quarter),
        b"month" => Some(Unit::Month),
        b"week" => Some(Unit::Week),
        b"day" => Some(Unit::Day),
        b"hour" => Some(Unit::Hour),
        b"minute" => Some(Unit::Minute),
        b"second" => Some(Unit::Second),
        b"millisecond" => Some(Unit::Millisecond),
        _ => None,
    }
}

fn date(item: &Item) -> Option<i64> {
    match item.value()? {
        Date(ms) => Some(*ms),
        _ => None,
    }
}

fn amount(item: &Item) -> Option<i64> {
    match item.value()? {
        Long(amount) => Some(*amount),
        _ => None,
    }
}

fn asked(call: &[u8], items: &[Item]) -> Option<Result<Value, EvalCode>> {
    match (call, items) {
        (b"part", [name, of]) => Some(date_part(part(name.word()?)?, date(of)?).map(Int)),
        (b"add", [to, name, by]) => {
            Some(date_add(date(to)?, unit(name.word()?)?, amount(by)?).map(Date))
        }
        (b"trunc", [of, name]) => Some(date_trunc(date(of)?, unit(name.word()?)?).map(Date)),
        (b"difference", [from, to, name]) => {
            Some(date_diff(date(from)?, date(to)?, unit(name.word()?)?).map(Long))
        }
        _ => None,
    }
}

impl Table for Dates {
    fn answer(&self, alloc: Global, question: &[Item]) -> Option<Vec<Item>> {
        let [call, items @ ..] = question else {
            return None;
        };
        match asked(call.word()?, items)? {
            Ok(value) => Item::Value(value).alone(alloc),
            Err(code) => Item::of_code(alloc, code)?.alone(alloc),
        }
    }
}
