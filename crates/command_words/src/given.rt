//! What is given on the command line.

ghost use Rattle.std.specs.Prelude.{◌≡◌, map};
ghost use Rattle.clap.specs.Words.{rows_of, found_of};
ghost use Rattle.command_words.specs.App.{Holds};
ghost use Rattle.command_words.specs.Views.{given_of};
ghost use Rattle.command_words.specs.Given as spec;

use clap::ArgMatches;

/// The positional words in order, the value of each option, and whether the flag is there.
#[derive(Clone, Copy)]
pub struct Given<'m, 'a> {
    pub places: &'m [&'a str],
    pub budget: Option<&'a str>,
    pub batch: Option<&'a str>,
    pub cache: Option<&'a str>,
    pub arrival: Option<&'a str>,
    pub stats: bool,
}

// The text of a flag that is there is `true`, by `clap`.
fn has_stats(matches: &ArgMatches<'_>) -> bool
    ensures { (g : spec.Given) → Holds (rows_of (found_of matches.now)) g → result ≡ g.stats }
{
    match matches.get_str("stats") {
        Some(text) => text == "true",
        None => false,
    }
}

fn places_of<'m, 'a>(matches: &'m ArgMatches<'a>) -> &'m [&'a str]
    ensures { (g : spec.Given) → Holds (rows_of (found_of matches.entry.now)) g → map (λ w. w.now) result.now ≡ g.places }
{
    matches.get_raw("words").unwrap_or_default()
}

/// What a parse found.
pub fn given_by<'m, 'a>(matches: &'m ArgMatches<'a>) -> Given<'m, 'a>
    ensures { (g : spec.Given) → Holds (rows_of (found_of matches.entry.now)) g → given_of result ≡ g }
{
    Given {
        places: places_of(matches),
        budget: matches.get_str("budget"),
        batch: matches.get_str("batch"),
        cache: matches.get_str("cache"),
        arrival: matches.get_str("arrival"),
        stats: has_stats(matches),
    }
}
