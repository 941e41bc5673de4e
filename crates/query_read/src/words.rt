//! The names of queries: what joins queries, the tests of a path, and the types.

ghost use Rattle.std.specs.Prelude.{◌≡◌, map};
ghost use Rattle.bson_value.specs.Pairs.{find};
ghost use Rattle.query_read.specs.Words.{word_named, operator_named, type_named, type_numbered, among_numbers};

/// What joins queries.
#[derive(Clone, Copy, Debug, PartialEq, Eq)]
pub enum Connective {
    /// `$and`
    And,
    /// `$or`
    Or,
    /// `$nor`
    Nor,
}

/// What stands for a name of a query document that is no path.
#[derive(Clone, Copy, Debug, PartialEq, Eq)]
pub enum Word {
    /// Queries that are joined.
    Joins(Connective),
    /// `$expr`
    Counts,
}

/// A test of what a path ends at.
#[derive(Clone, Copy, Debug, PartialEq, Eq)]
pub enum Operator {
    /// `$eq`
    Eq,
    /// `$ne`
    Ne,
    /// `$gt`
    Gt,
    /// `$gte`
    Gte,
    /// `$lt`
    Lt,
    /// `$lte`
    Lte,
    /// `$in`
    In,
    /// `$nin`
    Nin,
    /// `$exists`
    Exists,
    /// `$type`
    Type,
    /// `$size`
    Size,
    /// `$all`
    All,
    /// `$elemMatch`
    ElemMatch,
    /// `$not`
    Not,
}

const WORDS: [(&[u8], Word); 4] = [
    (b"$and", Word::Joins(Connective::And)),
    (b"$or", Word::Joins(Connective::Or)),
    (b"$nor", Word::Joins(Connective::Nor)),
    (b"$expr", Word::Counts),
];

const OPERATORS: [(&[u8], Operator); 14] = [
    (b"$eq", Operator::Eq),
    (b"$ne", Operator::Ne),
    (b"$gt", Operator::Gt),
    (b"$gte", Operator::Gte),
    (b"$lt", Operator::Lt),
    (b"$lte", Operator::Lte),
    (b"$in", Operator::In),
    (b"$nin", Operator::Nin),
    (b"$exists", Operator::Exists),
    (b"$type", Operator::Type),
    (b"$size", Operator::Size),
    (b"$all", Operator::All),
    (b"$elemMatch", Operator::ElemMatch),
    (b"$not", Operator::Not),
];

const TYPES: [(&[u8], u8); 13] = [
    (b"minKey", 255),
    (b"string", 2),
    (b"object", 3),
    (b"array", 4),
    (b"binData", 5),
    (b"objectId", 7),
    (b"bool", 8),
    (b"date", 9),
    (b"null", 10),
    (b"int", 16),
    (b"timestamp", 17),
    (b"long", 18),
    (b"maxKey", 127),
];

// The numbers of the types but MinKey.
const TYPE_NUMBERS: [u8; 12] = [2, 3, 4, 5, 7, 8, 9, 10, 16, 17, 18, 127];

fn find_word(words: &[(&[u8], Word)], name: &[u8]) -> Option<Word>
    ensures { result ≡ find name.now (map (λ r. (r.0.now, r.1)) words.now) }
{
    match words {
        [] => None,
        [first, rest @ ..] => {
            if first.0 == name {
                Some(first.1)
            } else {
                find_word(rest, name)
            }
        }
    }
}

fn find_operator(operators: &[(&[u8], Operator)], name: &[u8]) -> Option<Operator>
    ensures { result ≡ find name.now (map (λ r. (r.0.now, r.1)) operators.now) }
{
    match operators {
        [] => None,
        [first, rest @ ..] => {
            if first.0 == name {
                Some(first.1)
            } else {
                find_operator(rest, name)
            }
        }
    }
}

fn find_type(types: &[(&[u8], u8)], alias: &[u8]) -> Option<u8>
    ensures { result ≡ find alias.now (map (λ r. (r.0.now, r.1)) types.now) }
{
    match types {
        [] => None,
        [first, rest @ ..] => {
            if first.0 == alias {
                Some(first.1)
            } else {
                find_type(rest, alias)
            }
        }
    }
}

fn find_number(numbers: &[u8], number: u64) -> Option<u8>
    ensures { result ≡ among_numbers number numbers.now }
{
    match numbers {
        [] => None,
        [first, rest @ ..] => {
            if u64::from(*first) == number {
                Some(*first)
            } else {
                find_number(rest, number)
            }
        }
    }
}

/// What the name stands for in a query document. None where it is none of the words.
pub fn word_named(name: &[u8]) -> Option<Word>
    ensures { result ≡ word_named name.now }
{
    find_word(&WORDS, name)
}

/// The test of that name.
pub fn operator_named(name: &[u8]) -> Option<Operator>
    ensures { result ≡ operator_named name.now }
{
    find_operator(&OPERATORS, name)
}

/// The BSON number of the type of that alias, 255 for MinKey (the manual, `$type`).
pub fn type_named(alias: &[u8]) -> Option<u8>
    ensures { result ≡ type_named alias.now }
{
    find_type(&TYPES, alias)
}

/// The type of that BSON number, which is -1 for MinKey.
pub fn type_numbered(number: i64) -> Option<u8>
    ensures { result ≡ type_numbered number }
{
    let size = number.unsigned_abs();
    if number >= 0 {
        find_number(&TYPE_NUMBERS, size)
    } else if size == 1 {
        Some(255)
    } else {
        None
    }
}
