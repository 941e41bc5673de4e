//! Commands.

ghost use Rattle.std.specs.Prelude.{◌≡◌, [], Result, Err, IfOk};
ghost use Rattle.bson_value.specs.Tree.{trees_of};
ghost use Rattle.stage_tree.specs.Stage.{stages_of};
ghost use Rattle.stage_tree.specs.declared.command.BadCommand.{BadCommand};
ghost use Rattle.stage_read.specs.Answers.{Answers, command_of};
ghost use Rattle.stage_read.specs.Commands.{command_read, top_from, with_stages};
ghost use Rattle.stage_read.specs.Faults.{IsFirstFault};
ghost use Rattle.stage_read.specs.Reading.{Placings};
ghost use Rattle.stage_read.specs.Written.{SpellsCommand};
ghost use Rattle.stage_read.specs.declared.errors.CommandError.TheVariants.{Bad};

use crate::errors::{CommandError, form_at};
use crate::made::{numbered, origins};
use crate::parts::command_parts;
use crate::place::place_of;
use crate::stages::read_stage;
use bson_value::{Doc, List, Text};
use pipeline_limits::over_limits;
use stage_tree::{Command, Pipeline, Placed};
use std::alloc::Global;

// The stages of a command, numbered from 1. More than a u32 counts don't fit in memory.
fn read_top(alloc: Global, list: &List) -> Result<Pipeline, CommandError>
    ensures { Answers (λ p. p) result (top_from [] 1 (trees_of list.now)) }
{
    let mut pipeline = Pipeline::new(alloc);
    for i in 0..list.len() {
        if u32::MAX as usize <= i {
            return Err(CommandError::Memory);
        }
        let number = i as u32 + 1;
        let origins = origins(alloc, number)?;
        let place = place_of(list, i);
        let stage = numbered(number, read_stage(alloc, place, number, list.value(i)))?;
        pipeline.add(Placed::new(stage, origins))?;
    }
    Ok(pipeline)
}

// The command over these stages, where no limit is passed.
fn limited(
    alloc: Global,
    name: &Text,
    stages: Result<Pipeline, CommandError>,
) -> Result<Command, CommandError>
    ensures { (r : Result Placings BadCommand) → Answers (λ p. p) stages r → Answers command_of result (with_stages name.now r) }
{
    let pipeline = stages?;
    match over_limits(&pipeline) {
        Some(bad) => Err(CommandError::Bad(bad)),
        None => {
            let collection = name.copy(alloc)?;
            Ok(Command {
                collection,
                pipeline,
            })
        }
    }
}

fn read_whole(alloc: Global, doc: &Doc) -> Result<Command, CommandError>
    ensures { Answers command_of result (command_read doc.now) }
{
    match command_parts(doc) {
        Some(parts) => limited(alloc, parts.0, read_top(alloc, parts.1)),
        None => Err(form_at(0)),
    }
}

/// The command that the document spells (the manual, `aggregate`). What is wrong outside the stages is answered as
/// `Form` at 0, also where it stands behind them; else the least written stage that is none as `Form`, whatever is
/// wrong in a pipeline within it; else a limit that is passed.
pub fn read_command(alloc: Global, doc: &Doc) -> Result<Command, CommandError>
    ensures found { IfOk result (λ c. SpellsCommand doc.now c.collection (stages_of c.pipeline)) }
    ensures refused { (b : BadCommand) → result ≡ Err (Bad b) → IsFirstFault doc.now b }
    ensures read { Answers command_of result (command_read doc.now) }
{
    read_whole(alloc, doc)
}
