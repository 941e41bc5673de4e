//! What holds of the forms of files, whoever reads them. Each function here does nothing: it is its contract.

ghost use Rattle.std.specs.Prelude.{◌≡◌, ◌↔◌, List, ℕ, Ok, Err};
ghost use Rattle.mq_ports.specs.World.{Held};
ghost use Rattle.aggregate_command.specs.Verdict.{verdict};
ghost use Rattle.bson_value.specs.declared.errors.Failure.{Failure};
ghost use Rattle.aggregate_command.specs.declared.status.Status.TheVariants.{EvalError};
ghost use Rattle.aggregate_command.specs.Meaning.{Fails, Writes};

use stage_read::command_is;

/// A run writes bytes exactly where the words and the files mean these bytes.
pub fn verdict_is()
    ensures { (words : List (List ℕ)) (held : Held) (written : List ℕ) → (verdict words held ≡ Ok written) ↔ Writes words held written }
{
    command_is();
}

/// A run is an evaluation error exactly where the words and the files mean that a stage fails so, or the check of its
/// results.
pub fn failure_is()
    ensures { (words : List (List ℕ)) (held : Held) (failure : Failure) → (verdict words held ≡ Err (EvalError failure)) ↔ Fails words held failure }
{
    command_is();
}
