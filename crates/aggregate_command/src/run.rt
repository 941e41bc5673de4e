//! A run of a pipeline's stages.

ghost use Rattle.std.specs.Prelude.{◌≡◌, ◌<◌, ◌-◌, ◌^◌, true, IfOk, OnOk};
ghost use Rattle.stage_tree.specs.Stage.{stages_of};
ghost use Rattle.stage_chain.specs.Chain.{is_built};
ghost use Rattle.aggregate_command.specs.Running.{begun, with_document, ended};

use crate::results::Results;
use bson_value::{Bytes, Doc, Docs, Failure, NoMemory};
use stage_chain::Chain;
use stage_tree::Pipeline;
use std::alloc::Global;

/// The stages of a pipeline that runs, and the results that have come out of them.
#[derive(Drop)]
pub struct Run {
    chain: Chain,
    results: Results,
}

impl Run {
    /// A run of these stages, which has no document yet.
    pub fn new(alloc: Global, pipeline: Pipeline) -> Result<Run, NoMemory>
        requires { is_built (stages_of pipeline) ≡ true }
        ensures { IfOk result (λ r. r ≡ begun (stages_of pipeline)) }
    {
        Ok(Run {
            chain: Chain::new(alloc, pipeline)?,
            results: Results::new(alloc),
        })
    }

    /// Pushes a document through the stages, and adds what comes out of them to the results. After a refusal the run
    /// is only dropped.
    pub fn push(&mut self, alloc: Global, doc: Doc) -> Result<(), NoMemory>
        ensures { OnOk result (self.new ≡ with_document self.old doc) }
    {
        let mut given = Docs::new(alloc);
        self.chain.push(alloc, doc, &mut given)?;
        self.results.add_all(&given)
    }

    /// Ends a run of so many stages: the spellings of the results, or the failure of a stage, or else that of the check
    /// of the results, which counts as one stage more.
    pub fn finish(mut self, alloc: Global, stages: u32) -> Result<Result<Bytes, Failure>, NoMemory>
        requires { stages < 2 ^ 32 - 1 }
        ensures { IfOk result (λ end. end ≡ ended stages self) }
    {
        let mut given = Docs::new(alloc);
        self.chain.finish(alloc, &mut given)?;
        self.results.add_all(&given)?;
        match self.chain.failure() {
            Some(failure) => Ok(Err(failure)),
            None => Ok(self.results.finish(stages)),
        }
    }
}
