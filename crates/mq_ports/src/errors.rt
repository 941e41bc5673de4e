use bson_value::EvalCode;

/// Why a call of a sink, a store of runs or a target gave nothing, or a read of a file.
#[derive(Clone, Copy, Debug, PartialEq, Eq)]
pub enum IoError {
    /// The device failed, and the object has counted it.
    Failed,
    /// Memory was refused.
    Memory,
}

/// Why a file was not found.
#[derive(Clone, Copy, Debug, PartialEq, Eq)]
pub enum FindError {
    /// There is no file of this name.
    Absent,
    /// The device failed, and the object has counted it.
    Failed,
    /// Memory was refused.
    Memory,
}

/// Why an operator of a pipeline stopped.
#[derive(Clone, Copy, Debug, PartialEq, Eq)]
pub enum OpError {
    /// An expression has no value, with the code of its error.
    Code(EvalCode),
    /// A call of the files failed, and they have counted it.
    ReadFault,
    /// A call of the store of runs failed, and it has counted it.
    SpillFault,
    /// What was read back contradicts what was read or written before.
    Damage,
    /// Memory was refused.
    Memory,
}
