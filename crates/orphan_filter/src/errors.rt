use bson_value::{BadBson, BadWhy, Text};

/// Why a record of a shard is bad.
#[derive(Clone, Copy, Debug, PartialEq, Eq)]
pub enum ShardWhy {
    /// Its bytes spell no document.
    Bson(BadWhy),
    /// The path of this part of the key, counted from 1, meets an array in it.
    ArrayInKey(u32),
}

/// A bad record: its number, counted from 1, and the place in the file where it is bad.
#[derive(Debug, Drop)]
pub struct BadShard {
    pub collection: Text,
    pub shard: Text,
    pub number: u64,
    pub at: u64,
    pub why: ShardWhy,
}

/// Why a survey found a collection's files other than they must be, or didn't end.
#[derive(Debug, Drop)]
pub enum SurveyError {
    /// A record is bad.
    Bad(BadShard),
    /// A file isn't there.
    NoFile(Text),
    /// A file has more than 4,294,967,295 bytes: its name and its length.
    FileTooLong(Text, u64),
    /// A call of the files failed, and they have counted it.
    ReadFault,
    /// What was read contradicts what was read before.
    Damage,
    /// Memory was refused.
    Memory,
}

// Why a piece of a file wasn't read.
#[derive(Clone, Copy, Debug, PartialEq, Eq)]
pub enum ReadError {
    Failed,
    Damage,
    Memory,
}

// Why a record of a file wasn't given.
#[derive(Clone, Copy, Debug, PartialEq, Eq)]
pub enum RecordError {
    Bad(BadBson),
    Failed,
    Damage,
    Memory,
}

// A bad record of a file by its number, a record that has no key, or why the file wasn't read.
#[derive(Clone, Copy, Debug, PartialEq, Eq)]
pub enum FileError {
    Bad(u64, BadBson),
    // the record's number, where it begins, and the part of the key that meets an array
    Array(u64, u64, u32),
    Failed,
    Damage,
    Memory,
}
