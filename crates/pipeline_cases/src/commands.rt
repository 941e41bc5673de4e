//! Commands as users write them, and what they are read as: `{collection: "c", stages: [{numbers: [1], limit: 5L}]}`, or
//! the written stage and what is wrong with it, `3 Form`.

use crate::fields::{common, doc_of};
use crate::outline::command_outline;
use case_notation::{Item, Table};
use stage_read::{CommandError, read_command};
use stage_tree::{BadCommand, Command};
use std::alloc::Global;

/// The table of commands.
pub(crate) struct Commands;

fn read_as(alloc: Global, command: &Command) -> Option<Item> {
    let copy = command.copy(alloc).ok()?;
    common(
        alloc,
        command_outline(alloc, command),
        command_outline(alloc, &copy),
    )
}

/// The stage and the cause.
pub(crate) fn refusal(alloc: Global, bad: BadCommand) -> Option<Vec<Item>> {
    let why = format!(in alloc; "{:?}", bad.why).ok()?;
    let mut items = Item::of_number(u64::from(bad.stage))?.alone(alloc)?;
    items.push(Item::of_word(alloc, why.as_str())?).ok()?;
    Some(items)
}

fn found(alloc: Global, command: Result<Command, CommandError>) -> Option<Vec<Item>> {
    match command {
        Ok(command) => read_as(alloc, &command)?.alone(alloc),
        Err(CommandError::Bad(bad)) => refusal(alloc, bad),
        Err(CommandError::Memory) => None,
    }
}

impl Table for Commands {
    fn answer(&self, alloc: Global, question: &[Item]) -> Option<Vec<Item>> {
        let [item] = question else {
            return None;
        };
        found(alloc, read_command(alloc, doc_of(item)?))
    }
}
