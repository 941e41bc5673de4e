//! The options of a run.

ghost use Rattle.std.specs.Prelude.{◌≡◌, option_map};
ghost use Rattle.command_words.specs.Words as spec;
ghost use Rattle.command_words.specs.Views.{given_of};

use crate::arrive::Arrive;
use crate::given::Given;
use crate::numbers::{number_in, small_number_in};
use crate::run_options::RunOptions;
use mq_ports::Settings;

/// The documents past which every list is refused.
const DOCUMENTS: u64 = 1 << 40;

// The number that an option gives, or its default.
fn number_or(default: u32, low: u32, high: u32, text: Option<&str>) -> Option<u32>
    ensures { result ≡ spec.number_or default low high (option_map (λ w. w.now) text.entry) }
{
    match text {
        None => Some(default),
        Some(text) => small_number_in(low, high, text),
    }
}

fn arrival_of(text: &str) -> Option<Arrive>
    ensures { result ≡ spec.arrival_of text.now }
{
    if text == "name" {
        return Some(Arrive::Name);
    }
    if text == "turns" {
        return Some(Arrive::Turns);
    }
    let number = text.strip_prefix("mix:")?;
    Some(Arrive::Mix(number_in(0, u64::MAX, number)?))
}

fn arrival_or(text: Option<&str>) -> Option<Arrive>
    ensures { result ≡ spec.arrival_or (option_map (λ w. w.now) text.entry) }
{
    match text {
        None => Some(Arrive::Name),
        Some(text) => arrival_of(text),
    }
}

/// The options that are given, and the defaults of the others.
pub fn options_in(given: &Given<'_, '_>) -> Option<RunOptions>
    ensures { result ≡ spec.options_in (given_of given.now) }
{
    let kibibytes = number_or(1_024, 4, 262_144, given.budget)?;
    let batch = number_or(101, 1, 10_000, given.batch)?;
    let cache = number_or(100, 1, 10_000, given.cache)?;
    let arrival = arrival_or(given.arrival)?;
    Some(RunOptions {
        settings: Settings {
            budget: 1_024 * kibibytes as usize,
            cache: cache as usize,
            documents: DOCUMENTS,
        },
        batch,
        arrival,
        stats: given.stats,
    })
}

/// No option is there.
pub fn is_bare(given: &Given<'_, '_>) -> bool
    ensures { result ≡ spec.is_bare (given_of given.now) }
{
    given.budget.is_none()
        && given.batch.is_none()
        && given.cache.is_none()
        && given.arrival.is_none()
        && !given.stats
}
