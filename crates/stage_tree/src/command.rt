ghost use Rattle.std.specs.Prelude.{◌≡◌, IfOk};

use crate::stage::Pipeline;
use bson_value::{BadBson, NoMemory, Text};
use std::alloc::Global;

/// The command `aggregate` (the manual, `aggregate`).
#[derive(Drop)]
pub struct Command {
    /// The name of the collection.
    pub collection: Text,
    /// The stages as they were written.
    pub pipeline: Pipeline,
}

impl Command {
    /// An equal command.
    pub fn copy(&self, alloc: Global) -> Result<Command, NoMemory>
        ensures { IfOk result (λ c. c ≡ self.now) }
    {
        Ok(Command {
            collection: self.collection.copy(alloc)?,
            pipeline: self.pipeline.copy(alloc)?,
        })
    }
}

/// Why there is no command.
#[derive(Clone, Copy, Debug, PartialEq, Eq)]
pub enum CommandWhy {
    /// The file doesn't begin with a document.
    Bytes(BadBson),
    /// More bytes follow behind the document, from this place on.
    Trailing(usize),
    /// The document spells no command.
    Form,
    /// There are more than 100 stages, those of inner pipelines among them.
    Stages,
    /// A document behind the stage could be nested deeper than 1,000 levels.
    StaticDepth,
    /// The target of a `$merge` is a collection of the cluster.
    IntoInCluster,
}

/// Why a file is no command, and at which written stage, counted from 1; 0 for what is in no stage.
#[derive(Clone, Copy, Debug, PartialEq, Eq)]
pub struct BadCommand {
    /// The written stage, counted from 1, or 0.
    pub stage: u32,
    /// What is wrong.
    pub why: CommandWhy,
}
