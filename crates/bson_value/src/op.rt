/// An operator of expressions that takes the values of its operands (the manual, Aggregation Operators).
#[derive(Clone, Copy, Debug, PartialEq, Eq)]
pub enum Op {
    /// `$add`
    Add,
    /// `$subtract`
    Subtract,
    /// `$multiply`
    Multiply,
    /// `$mod`
    Mod,
    /// `$abs`
    Abs,
    /// `$cmp`
    Cmp,
    /// `$eq`
    Eq,
    /// `$ne`
    Ne,
    /// `$gt`
    Gt,
    /// `$gte`
    Gte,
    /// `$lt`
    Lt,
    /// `$lte`
    Lte,
    /// `$not`
    Not,
    /// `$size`
    Size,
    /// `$in`
    In,
    /// `$arrayElemAt`
    ArrayElemAt,
    /// `$first`
    First,
    /// `$last`
    Last,
    /// `$concatArrays`
    ConcatArrays,
    /// `$slice`
    Slice,
    /// `$reverseArray`
    ReverseArray,
    /// `$range`
    Range,
    /// `$isArray`
    IsArray,
    /// `$isNumber`
    IsNumber,
    /// `$type`
    Type,
    /// `$setUnion`
    SetUnion,
    /// `$setIntersection`
    SetIntersection,
    /// `$setDifference`
    SetDifference,
    /// `$setIsSubset`
    SetIsSubset,
    /// `$setEquals`
    SetEquals,
    /// `$arrayToObject`
    ArrayToObject,
    /// `$objectToArray`
    ObjectToArray,
    /// `$mergeObjects`
    MergeObjects,
    /// `$concat`
    Concat,
    /// `$strLenBytes`
    StrLenBytes,
    /// `$strLenCP`
    StrLenCp,
    /// `$substrCP`
    SubstrCp,
    /// `$split`
    Split,
    /// `$toInt`
    ToInt,
    /// `$toLong`
    ToLong,
    /// `$toString`
    ToString,
}
