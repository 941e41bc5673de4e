//! A stage of a chain.

ghost use Rattle.std.specs.Prelude.{◌≡◌, ◌++◌, [], OnOk};
ghost use Rattle.std.specs.Option.{option_map};
ghost use Rattle.reshape_stage.specs.Work.{ends};
ghost use Rattle.stage_chain.specs.Chain.{begun, let_on, fed_step, ended_step};
ghost use Rattle.stage_chain.specs.Seen.{taken};

use crate::docs::clear;
use bson_value::{Doc, Docs, EvalCode, EvalError, Failure, NoMemory};
use reshape_stage::{ReshapeOp, lesser};
use std::alloc::Global;
use std::marker::Model;
use std::mem;

/// A stage's operator, the number of its written stage, and the least code with which it has failed.
#[derive(Drop)]
pub(crate) struct Step {
    op: ReshapeOp,
    origin: u32,
    failed: Option<EvalCode>,
}

impl Model for Step {
    ghost use Rattle.stage_chain.specs.Chain.{Step as Seen};
    ghost use Rattle.stage_chain.specs.ChainCode.{step_code};

    ghost Value = { Seen };

    ghost coded = { step_code };

    ghost view = { λ s. record { work = s.op; origin = s.origin; failed = s.failed } };
}

impl Step {
    /// The stage before the first document.
    pub(crate) fn new(op: ReshapeOp, origin: u32) -> Step
        ensures { result ≡ begun origin op }
    {
        Step {
            op,
            origin,
            failed: None,
        }
    }

    /// The failure of the stage.
    pub(crate) fn failure(&self) -> Option<Failure>
        ensures { result ≡ option_map (λ c. record { stage = self.now.origin; code = c }) self.now.failed }
    {
        match self.failed {
            Some(code) => Some(Failure {
                stage: self.origin,
                code,
            }),
            None => None,
        }
    }

    /// Takes the documents, in whose place it leaves what it lets on: nothing, once it has failed. `spare` is another
    /// list to work with; what it holds is dropped.
    pub(crate) fn feed(
        &mut self,
        alloc: Global,
        docs: &mut Docs,
        spare: &mut Docs,
    ) -> Result<(), NoMemory>
        ensures { OnOk result ((self.new, docs.new) ≡ fed_step self.old docs.old) }
    {
        clear(spare);
        while let Some(doc) = docs.take_first() {
            self.take(alloc, doc, spare)?;
        }
        drop_failed(self.failed, spare);
        mem::swap(docs, spare);
        Ok(())
    }

    /// The same with the last documents, behind which it leaves what the stage gives at the end.
    pub(crate) fn drain(
        &mut self,
        alloc: Global,
        docs: &mut Docs,
        spare: &mut Docs,
    ) -> Result<(), NoMemory>
        ensures { OnOk result ((self.new, docs.new) ≡ ended_step self.old docs.old) }
    {
        self.feed(alloc, docs, spare)?;
        self.op.finish(alloc, docs)
    }

    // A code is noted, and nothing comes of its document.
    fn take(&mut self, alloc: Global, doc: Doc, out: &mut Docs) -> Result<(), NoMemory>
        ensures { OnOk result ((self.new, out.new) ≡ taken self.old out.old doc) }
    {
        match self.op.push(alloc, doc, out) {
            Ok(()) => Ok(()),
            Err(EvalError::Code(code)) => {
                self.failed = Some(lesser(self.failed, code));
                Ok(())
            }
            Err(EvalError::Memory) => Err(NoMemory),
        }
    }
}

// Nothing comes of a stage that has failed.
fn drop_failed(failed: Option<EvalCode>, given: &mut Docs)
    ensures { given.new ≡ let_on failed (Ok given.old) }
{
    if failed.is_some() {
        clear(given);
    }
}
