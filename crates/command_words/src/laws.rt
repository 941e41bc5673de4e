//! What the reading of a command line stands for. The function here does nothing: it is its contract.

ghost use Rattle.std.specs.Prelude.{◌≡◌, ◌↔◌, ◌<◌, ◌^◌, ℕ, List, Some, decimal};
ghost use Rattle.command_words.specs.Numbers.{number};
ghost use Rattle.command_words.specs.Words.{mode_of};
ghost use Rattle.command_words.specs.Written.{IsMode};
ghost use Rattle.command_words.specs.declared.mode.Mode as declared;

/// Words ask for a mode exactly where they are a command line, written so, that gives what the mode asks for. So they
/// ask for one at most. A word is a number exactly where it is the number's decimal digits.
pub fn modes_are_written()
    ensures modes { (words : List (List ℕ)) (m : declared.Mode) → (mode_of words ≡ Some m) ↔ IsMode words m }
    ensures numbers { (word : List ℕ) (n : ℕ) → n < 2 ^ 64 → (number word ≡ Some n) ↔ (word ≡ decimal n) }
{}
