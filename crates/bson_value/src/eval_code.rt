ghost use Rattle.std.specs.Prelude.{◌≡◌};

/// Why the evaluation of a stage failed.
#[derive(Clone, Copy, Debug, PartialEq, Eq)]
pub enum EvalCode {
    /// An operand is of a kind that its operator does not take.
    WrongType,
    /// A number leaves the 64 bits of a long.
    Overflow,
    /// A division by zero.
    ZeroDivisor,
    /// An operand that has to be an array is none.
    NotArray,
    /// A count or a step is out of its range.
    BadCount,
    /// A `$switch` without a default has no true case.
    NoBranch,
    /// A date is outside the years 1 to 9999.
    DateRange,
    /// A value that has to be a document is none.
    NotDocument,
    /// A name holds a byte 0.
    BadName,
    /// A value has no conversion to the wanted type.
    BadConversion,
    /// A `$range` has more than 1,048,576 items.
    RangeTooLong,
    /// A value within `$reduce` is nested deeper than 200.
    NestTooDeep,
    /// A result is longer than 16,777,216 bytes.
    ResultTooLong,
    /// A result is nested deeper than 100.
    ResultTooDeep,
    /// A result for `$merge` has no `_id`.
    MissingId,
    /// A result for `$merge` has an `_id` that the target holds.
    Matched,
    /// A result for `$merge` has an `_id` that the target does not hold.
    NotMatched,
}

impl EvalCode {
    ghost use Rattle.bson_value.specs.Codes.{code_number};

    /// The number of the code, from 1 to 17, as error lines print it.
    pub fn number(&self) -> u8
        ensures { result ≡ code_number self.now }
    {
        match self {
            EvalCode::WrongType => 1,
            EvalCode::Overflow => 2,
            EvalCode::ZeroDivisor => 3,
            EvalCode::NotArray => 4,
            EvalCode::BadCount => 5,
            EvalCode::NoBranch => 6,
            EvalCode::DateRange => 7,
            EvalCode::NotDocument => 8,
            EvalCode::BadName => 9,
            EvalCode::BadConversion => 10,
            EvalCode::RangeTooLong => 11,
            EvalCode::NestTooDeep => 12,
            EvalCode::ResultTooLong => 13,
            EvalCode::ResultTooDeep => 14,
            EvalCode::MissingId => 15,
            EvalCode::Matched => 16,
            EvalCode::NotMatched => 17,
        }
    }
}
