//! The mode that is asked for by what is given.

ghost use Rattle.std.specs.Prelude.{◌≡◌, [], ◌∷◌, Some, IfOk, IfErr, length, option_map, option_and_then};
ghost use Rattle.command_words.specs.Words as spec;
ghost use Rattle.command_words.specs.Answers.{Answers};
ghost use Rattle.command_words.specs.Views.{given_of};
ghost use Rattle.command_words.specs.declared.errors.WordsError.TheVariants.{Memory};
ghost use Rattle.command_words.specs.declared.mode.Mode.TheVariants.{Run, Explain, Check};

use crate::errors::WordsError;
use crate::given::Given;
use crate::make_part::MakePart;
use crate::mode::Mode;
use crate::numbers::{number_in, small_number_in};
use crate::options::{is_bare, options_in};
use crate::run_options::RunOptions;
use bson_value::{Text, TextError};
use std::alloc::Global;

/// The most documents that a workload makes.
const MOST: u32 = 100_000;

fn text_of(alloc: Global, word: &str) -> Result<Text, WordsError>
    ensures same { IfOk result (λ t. t ≡ word.now) }
    ensures refused { IfErr result (λ e. e ≡ Memory) }
{
    match Text::read(alloc, word.as_bytes()) {
        Ok(text) => Ok(text),
        Err(TextError::NotText) => Err(WordsError::Usage),
        Err(TextError::Memory) => Err(WordsError::Memory),
    }
}

fn part_of(name: &str) -> Option<MakePart>
    ensures { result ≡ spec.part_of name.now }
{
    match name {
        "cluster" => Some(MakePart::Cluster),
        "command" => Some(MakePart::Command),
        "a" => Some(MakePart::A),
        "b" => Some(MakePart::B),
        "c" => Some(MakePart::C),
        _ => None,
    }
}

fn make(name: &str, number: &str, count: &str) -> Option<Mode>
    ensures { result ≡ spec.make name.now number.now count.now }
{
    let part = part_of(name)?;
    let number = number_in(0, u64::MAX, number)?;
    let count = small_number_in(1, MOST, count)?;
    Some(Mode::Make(part, number, count))
}

fn work(number: &str, count: &str, options: RunOptions) -> Option<Mode>
    ensures { result ≡ spec.work number.now count.now options }
{
    let number = number_in(0, u64::MAX, number)?;
    let count = small_number_in(1, MOST, count)?;
    Some(Mode::Work(number, count, options))
}

fn run(
    alloc: Global,
    given: &Given<'_, '_>,
    cluster: &str,
    command: &str,
) -> Result<Mode, WordsError>
    ensures { Answers (option_map (Run cluster.now command.now) (spec.options_in (given_of given.now))) result }
{
    match options_in(given) {
        None => Err(WordsError::Usage),
        Some(options) => {
            let cluster = text_of(alloc, cluster)?;
            let command = text_of(alloc, command)?;
            Ok(Mode::Run(cluster, command, options))
        }
    }
}

fn explain(alloc: Global, cluster: &str, command: &str) -> Result<Mode, WordsError>
    ensures { Answers (Some (Explain cluster.now command.now)) result }
{
    let cluster = text_of(alloc, cluster)?;
    let command = text_of(alloc, command)?;
    Ok(Mode::Explain(cluster, command))
}

fn check(alloc: Global, cluster: &str, command: &str) -> Result<Mode, WordsError>
    ensures { Answers (Some (Check cluster.now command.now)) result }
{
    let cluster = text_of(alloc, cluster)?;
    let command = text_of(alloc, command)?;
    Ok(Mode::Check(cluster, command))
}

fn or_usage(mode: Option<Mode>) -> Result<Mode, WordsError>
    ensures { Answers mode result }
{
    match mode {
        Some(mode) => Ok(mode),
        None => Err(WordsError::Usage),
    }
}

fn work_as_given(given: &Given<'_, '_>, number: &str, count: &str) -> Option<Mode>
    ensures { result ≡ option_and_then (spec.work number.now count.now) (spec.options_in (given_of given.now)) }
{
    work(number, count, options_in(given)?)
}

// The mode of a command with two words more.
fn with_two(
    alloc: Global,
    given: &Given<'_, '_>,
    command: &str,
    first: &str,
    second: &str,
) -> Result<Mode, WordsError>
    ensures { Answers (spec.command_mode (given_of given.now) command.now (first.now ∷ second.now ∷ [])) result }
{
    if command == "run" {
        return run(alloc, given, first, second);
    }
    if command == "explain" && is_bare(given) {
        return explain(alloc, first, second);
    }
    if command == "check" && is_bare(given) {
        return check(alloc, first, second);
    }
    if command == "work" && !given.stats {
        return or_usage(work_as_given(given, first, second));
    }
    Err(WordsError::Usage)
}

// The mode of a command with three words more.
fn with_three(
    given: &Given<'_, '_>,
    command: &str,
    name: &str,
    number: &str,
    count: &str,
) -> Result<Mode, WordsError>
    ensures { Answers (spec.command_mode (given_of given.now) command.now (name.now ∷ number.now ∷ count.now ∷ [])) result }
{
    if command == "make" && is_bare(given) {
        or_usage(make(name, number, count))
    } else {
        Err(WordsError::Usage)
    }
}

// The mode where there are four positional words.
fn of_four(given: &Given<'_, '_>) -> Result<Mode, WordsError>
    requires { length given.now.places.now ≡ 3 → ⊥ }
    ensures { Answers (spec.mode_in (given_of given.now)) result }
{
    match given.places {
        [command, name, number, count] => with_three(given, command, name, number, count),
        _ => Err(WordsError::Usage),
    }
}

/// The mode that is asked for by what is given.
pub fn mode_in(alloc: Global, given: &Given<'_, '_>) -> Result<Mode, WordsError>
    ensures { Answers (spec.mode_in (given_of given.now)) result }
{
    match given.places {
        [command, first, second] => with_two(alloc, given, command, first, second),
        _ => of_four(given),
    }
}
