//! What commands are, said from outside. The functions here do nothing: each is its contract.

ghost use Rattle.std.specs.Prelude.{◌≡◌, ◌↔◌, List, ℕ, Ok, Err};
ghost use Rattle.expr_tree.specs.Spells.{Fields};
ghost use Rattle.stage_tree.specs.Stage.{Stages};
ghost use Rattle.stage_tree.specs.declared.command.BadCommand.{BadCommand};
ghost use Rattle.stage_read.specs.Commands.{command_read};
ghost use Rattle.stage_read.specs.Faults.{IsFirstFault};
ghost use Rattle.stage_read.specs.Written.{SpellsCommand};

/// A document is read as a command exactly where it spells that command, and is refused with a fault exactly where this
/// is its first.
pub fn command_is()
    ensures good { (fields : Fields) (name : List ℕ) (ss : Stages) → (command_read fields ≡ Ok (name, ss)) ↔ SpellsCommand fields name ss }
    ensures bad { (fields : Fields) (b : BadCommand) → (command_read fields ≡ Err b) ↔ IsFirstFault fields b }
{}

/// At most one command belongs to a document.
pub fn one_command()
    ensures { (fields : Fields) (m n : List ℕ) (ss ts : Stages) → SpellsCommand fields m ss → SpellsCommand fields n ts → (m ≡ n) × (ss ≡ ts) }
{}
