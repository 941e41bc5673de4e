//! The words read by `clap`.

ghost use Rattle.std.specs.Prelude.{◌≡◌, IfOk, IfErr, map, true, false, Some, None};
ghost use Rattle.std.specs.List.{list_all};
ghost use Rattle.clap.specs.Words.{rows_of, found_of, app_of, rule_of, with_rule, kind_of};
ghost use Rattle.clap.specs.declared.error.ErrorKind.TheVariants.{OutOfMemory};
ghost use Rattle.command_words.specs.App.{the_app, bare_app, option_rule, place_rule, flag_rule, Holds};
ghost use Rattle.command_words.specs.Given.{Given, given, is_word};

use clap::{Arg, ArgAction, ArgMatches, Command, Error};
use std::alloc::{AllocError, Global};

// The positional words.
fn places<'a>(alloc: Global) -> Arg<'a>
    ensures rule { rule_of result ≡ place_rule }
    ensures local { result.global ≡ false }
{
    Arg::new(alloc, "words").action(ArgAction::Append)
}

// An option with one value.
fn option<'a>(alloc: Global, name: &'a str) -> Arg<'a>
    ensures rule { rule_of result ≡ option_rule name.entry.now }
    ensures local { result.global ≡ false }
{
    Arg::new(alloc, name).long(name)
}

fn flag<'a>(alloc: Global, name: &'a str) -> Arg<'a>
    ensures rule { rule_of result ≡ flag_rule name.entry.now }
    ensures local { result.global ≡ false }
{
    Arg::new(alloc, name).long(name).action(ArgAction::SetTrue)
}

// The program without its arguments.
fn bare<'a>(alloc: Global) -> Command<'a>
    ensures { app_of result ≡ bare_app }
{
    Command::new(alloc, "mongopipe")
        .no_binary_name(true)
        .disable_help_flag(true)
}

fn with<'a>(command: Command<'a>, arg: Arg<'a>) -> Result<Command<'a>, AllocError>
    requires { arg.global ≡ false }
    ensures { IfOk result (λ c. app_of c ≡ with_rule (app_of command.entry) (rule_of arg.entry)) }
{
    command.arg(arg)
}

fn command<'a>(alloc: Global) -> Result<Command<'a>, AllocError>
    ensures { IfOk result (λ c. app_of c ≡ the_app) }
{
    let with_places = with(bare(alloc), places(alloc))?;
    let with_budget = with(with_places, option(alloc, "budget"))?;
    let with_batch = with(with_budget, option(alloc, "batch"))?;
    let with_cache = with(with_batch, option(alloc, "cache"))?;
    let with_arrival = with(with_cache, option(alloc, "arrival"))?;
    with(with_arrival, flag(alloc, "stats"))
}

/// What `clap` finds in the words, each of which is one that may stand on a command line. It fails only where they
/// give nothing, or memory is refused.
pub fn parse<'a>(alloc: Global, words: &'a [&'a str]) -> Result<ArgMatches<'a>, Error>
    requires { list_all is_word (map (λ w. w.now) words.now) ≡ true }
    ensures found { IfOk result (λ m. (g : Given) × (given (map (λ w. w.now) words.entry.now) ≡ Some g) × Holds (rows_of (found_of m)) g) }
    ensures refused { IfErr result (λ e. (kind_of e ≡ OutOfMemory → ⊥) → given (map (λ w. w.now) words.entry.now) ≡ None) }
{
    let command = command(alloc)?;
    command.try_get_matches_from(words)
}
