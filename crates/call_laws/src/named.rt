//! What the file of a name is. The function here does nothing: it is its contract.

ghost use Rattle.std.specs.Prelude.{◌≡◌, ◌↔◌, ℕ, Some, None, List as Seq};
ghost use Rattle.mq_ports.specs.World.{Held, file_of};
ghost use Rattle.call_laws.specs.Named.{HaveOtherNames, IsFirstNamed};

/// Among held files the file of a name is the first that has it, and there is none exactly where all have other names.
pub fn files_are()
    ensures held { (held : Held) (name bytes : Seq ℕ) → (file_of name held ≡ Some bytes) ↔ IsFirstNamed held name bytes }
    ensures absent { (held : Held) (name : Seq ℕ) → (file_of name held ≡ None) ↔ HaveOtherNames name held }
{}
