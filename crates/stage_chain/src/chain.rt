//! A chain of stages.

ghost use Rattle.std.specs.Prelude.{◌≡◌, ◌∷◌, ◌++◌, [], true, IfOk, OnOk};
ghost use Rattle.stage_tree.specs.Stage.{stages_of};
ghost use Rattle.stage_tree.specs.StageView.{stage_of, items_in};
ghost use Rattle.stage_tree.specs.Outcome.{least_of, least_origin as the_least_origin};
ghost use Rattle.stage_chain.specs.Chain.{is_built, started, stage_steps, item_steps, fed, drained, pushed, finished, failure_of};

use crate::docs::{clear, move_all};
use crate::step::Step;
use bson_value::{Doc, Docs, Failure, NoMemory};
use reshape_stage::ReshapeOp;
use stage_tree::{Item, Pipeline, Placed, Row, Stage};
use std::alloc::Global;
use std::marker::Model;

/// The stages of a pipeline, one after another. Seen as the list of the stages, each with what it has still to do, its
/// number and the least code with which it has failed.
#[derive(Drop)]
pub struct Chain {
    steps: Vec<Step>,
    docs: Docs,
    spare: Docs,
}

impl Model for Chain {
    ghost use Rattle.std.specs.Prelude.{List};
    ghost use Rattle.std.specs.Coded.{coded_list};
    ghost use Rattle.stage_chain.specs.Chain.{Step as Seen};
    ghost use Rattle.stage_chain.specs.ChainCode.{step_code};

    ghost Value = { List Seen };

    ghost coded = { coded_list step_code };

    ghost view = { λ c. c.steps.items };
}

impl Chain {
    /// The chain of the pipeline, before the first document. Each item of a Match is a stage of its own.
    pub fn new(alloc: Global, pipeline: Pipeline) -> Result<Chain, NoMemory>
        requires { is_built (stages_of pipeline) ≡ true }
        ensures { IfOk result (λ c. c ≡ started (stages_of pipeline)) }
    {
        Ok(Chain {
            steps: steps_of(alloc, pipeline.stages())?,
            docs: Docs::new(alloc),
            spare: Docs::new(alloc),
        })
    }

    /// Pushes one more document through the stages, and appends what comes out to `out`. A stage's failure is noted,
    /// and nothing goes on from there.
    pub fn push(&mut self, alloc: Global, doc: Doc, out: &mut Docs) -> Result<(), NoMemory>
        ensures state { OnOk result (self.new ≡ (pushed self.old doc).0) }
        ensures given { OnOk result (out.new ≡ out.old ++ (pushed self.old doc).1) }
    {
        clear(&mut self.docs);
        self.docs.add(doc)?;
        feed_all(alloc, &mut self.steps, &mut self.docs, &mut self.spare)?;
        move_all(&mut self.docs, out)
    }

    /// Appends what comes when there are no more documents to `out`.
    pub fn finish(&mut self, alloc: Global, out: &mut Docs) -> Result<(), NoMemory>
        ensures state { OnOk result (self.new ≡ (finished self.old).0) }
        ensures given { OnOk result (out.new ≡ out.old ++ (finished self.old).1) }
    {
        clear(&mut self.docs);
        drain_all(alloc, &mut self.steps, &mut self.docs, &mut self.spare)?;
        move_all(&mut self.docs, out)
    }

    /// The failure of the first stage that has failed: its number and the least of its codes.
    pub fn failure(&self) -> Option<Failure>
        ensures { result ≡ failure_of self.now }
    {
        for step in &self.steps {
            if let Some(failure) = step.failure() {
                return Some(failure);
            }
        }
        None
    }
}

fn steps_of(alloc: Global, stages: &[Placed]) -> Result<Vec<Step>, NoMemory>
    ensures { IfOk result (λ v. v.items ≡ started (stages_of stages.now)) }
{
    let mut steps = Vec::new(alloc);
    for placed in stages {
        add_stage(alloc, &mut steps, placed.stage(), placed.origins())?;
    }
    Ok(steps)
}

fn add_stage(
    alloc: Global,
    steps: &mut Vec<Step>,
    stage: &Stage,
    origins: &Row<u32>,
) -> Result<(), NoMemory>
    ensures { OnOk result (steps.new.items ≡ steps.old.items ++ stage_steps (stage_of stage.now) origins.now) }
{
    match stage {
        Stage::Match(items) => add_items(alloc, steps, items.items()),
        _ => {
            if let Some(op) = ReshapeOp::new(alloc, stage)? {
                steps.push(Step::new(op, least_origin(origins.items())))?;
            }
            Ok(())
        }
    }
}

fn add_items(alloc: Global, steps: &mut Vec<Step>, items: &[Item]) -> Result<(), NoMemory>
    ensures { OnOk result (steps.new.items ≡ steps.old.items ++ item_steps (items_in items.now)) }
{
    for item in items {
        let op = ReshapeOp::matching(alloc, &item.query)?;
        steps.push(Step::new(op, item.origin))?;
    }
    Ok(())
}

// The least of the numbers, or 0 where there is none.
fn least_origin(origins: &[u32]) -> u32
    ensures { result ≡ the_least_origin origins.now }
{
    match origins {
        [] => 0,
        [first, rest @ ..] => {
            let mut least = *first;
            for origin in rest {
                least = least.min(*origin);
            }
            least
        }
    }
}

fn feed_all(
    alloc: Global,
    steps: &mut Vec<Step>,
    docs: &mut Docs,
    spare: &mut Docs,
) -> Result<(), NoMemory>
    ensures { OnOk result ((steps.new.items, docs.new) ≡ fed steps.old.items docs.old) }
{
    for i in 0..steps.len() {
        steps[i].feed(alloc, docs, spare)?;
    }
    Ok(())
}

fn drain_all(
    alloc: Global,
    steps: &mut Vec<Step>,
    docs: &mut Docs,
    spare: &mut Docs,
) -> Result<(), NoMemory>
    ensures { OnOk result ((steps.new.items, docs.new) ≡ drained steps.old.items docs.old) }
{
    for i in 0..steps.len() {
        steps[i].drain(alloc, docs, spare)?;
    }
    Ok(())
}
