use bson_value::NoMemory;
use stage_tree::{BadCommand, CommandWhy};

/// Why there is no command.
#[derive(Clone, Copy, Debug, PartialEq, Eq)]
pub enum CommandError {
    /// The document spells none, or passes a limit.
    Bad(BadCommand),
    /// Memory was refused.
    Memory,
}

impl From<NoMemory> for CommandError {
    ghost use Rattle.std.specs.Prelude.{◌≡◌};
    ghost use Rattle.stage_read.specs.declared.errors.CommandError.TheVariants.{Memory};

    ghost from_gives = { λ _ e. e ≡ Memory };

    fn from(_e: NoMemory) -> CommandError {
        CommandError::Memory
    }
}

ghost use Rattle.std.specs.Prelude.{◌≡◌};
ghost use Rattle.stage_read.specs.Commands.{form_at};
ghost use Rattle.stage_read.specs.declared.errors.CommandError.TheVariants.{Bad};

/// There is no reading at this written stage, 0 being outside the stages.
pub fn form_at(stage: u32) -> CommandError
    ensures { result ≡ Bad (form_at stage) }
{
    CommandError::Bad(BadCommand {
        stage,
        why: CommandWhy::Form,
    })
}
