//! How a run ends.

ghost use Rattle.std.specs.Prelude.{◌≡◌};

use bson_value::{Failure, Text};
use chunk_map::BadCluster;
use orphan_filter::BadShard;
use stage_tree::BadCommand;

/// How a call of the program ended.
#[derive(Debug, Drop)]
pub enum Status {
    /// What was asked for was done.
    Done,
    /// The words or the command are not of a form that is built.
    NotBuilt,
    /// The words have no reading.
    Usage,
    /// The command file spells no command.
    BadCommand(BadCommand),
    /// The cluster file spells no routing table.
    BadCluster(BadCluster),
    /// A shard file has a bad record, which is the first.
    BadShard(BadShard),
    /// The file of this name isn't held.
    NoFile(Text),
    /// The file of this name is too long, with this number of bytes.
    FileTooLong(Text, u64),
    /// A stage failed, or the check of the results, which counts as one stage more.
    EvalError(Failure),
    /// A list has more documents than are counted.
    TooManyDocuments,
    /// A call of the files failed, and was counted.
    ReadFault,
    /// A call of the store of runs failed, and was counted.
    SpillFault,
    /// A call of the target failed, and was counted.
    TargetFault,
    /// A call of the output failed, and was counted.
    WriteFault,
    /// A file ended before the length that was told of it.
    Damage,
    /// Memory was refused.
    Memory,
}

impl Status {
    ghost use Rattle.aggregate_command.specs.Status.{code_of};

    /// The exit status of the program.
    pub fn code(&self) -> u8
        ensures { result ≡ code_of self.now }
    {
        match self {
            Status::Done => 0,
            Status::NotBuilt => 1,
            Status::Usage => 2,
            Status::BadCommand(_) => 3,
            Status::BadCluster(_) => 4,
            Status::BadShard(_) => 5,
            Status::NoFile(_) => 6,
            Status::FileTooLong(_, _) => 7,
            Status::EvalError(_) => 8,
            Status::TooManyDocuments => 9,
            Status::ReadFault => 10,
            Status::SpillFault => 11,
            Status::TargetFault => 12,
            Status::WriteFault => 13,
            Status::Damage => 14,
            Status::Memory => 15,
        }
    }
}
