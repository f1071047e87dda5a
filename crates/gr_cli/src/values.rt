//! The values of the matched words.
ghost use Rattle.std.specs.Prelude.{◌≡◌, codes, option_map};
ghost use Rattle.clap.specs.Words.{found_of, rows_of};
ghost use Rattle.gr_cli.specs.ClapWords.{word_in};
ghost use Rattle.gr_cli.specs.Values as spec;

use crate::numbers::{BLOCK, Bounds, CORES, EVENTS, LIMIT, SEED, SIZE, SLICE, STEPS, number_in};
use crate::settings::{Command, Options};
use clap::ArgMatches;
use gr_gen::BenchKind;

/// The value of the first use of an argument, or its default.
fn word_of<'a>(matches: &ArgMatches<'a>, name: &str) -> Option<&'a str>
    ensures { option_map (λ word. word.now) result ≡ word_in matches.now name.now }
{
    matches.get_str(name)
}

/// The number of this option, `None` where its word is no such number.
fn number_of(matches: &ArgMatches, name: &str, bounds: Bounds) -> Option<u64>
    ensures { result ≡ spec.number_of bounds (word_in matches.now name.now) }
{
    match word_of(matches, name) {
        Some(word) => number_in(word, bounds),
        None => Some(bounds.default),
    }
}

/// Whether this flag is used.
fn is_used(matches: &ArgMatches, name: &str) -> bool
    ensures { result ≡ spec.is_used (word_in matches.now name.now) }
{
    word_of(matches, name).is_some_and(|word| word == "true")
}

/// The command that is spelled so.
fn command_named(text: &str) -> Option<Command>
    ensures { result ≡ spec.command_named text.now }
{
    match text {
        "run" => Some(Command::Run),
        "check" => Some(Command::Check),
        "replay" => Some(Command::Replay),
        "bench" => Some(Command::Bench),
        _ => None,
    }
}

/// The command of the positional.
fn command_of(matches: &ArgMatches) -> Option<Command>
    ensures { result ≡ spec.command_of (word_in matches.now (codes "command")) }
{
    let word = word_of(matches, "command")?;
    command_named(word)
}

/// The kind of program that is spelled so.
fn kind_named(text: &str) -> Option<BenchKind>
    ensures { result ≡ spec.kind_named text.now }
{
    match text {
        "words" => Some(BenchKind::Words),
        "sets" => Some(BenchKind::Sets),
        "queue" => Some(BenchKind::Queue),
        _ => None,
    }
}

/// The kind of program of the option, `None` where its word is no kind.
fn kind_of(matches: &ArgMatches) -> Option<BenchKind>
    ensures { result ≡ spec.kind_of (word_in matches.now (codes "kind")) }
{
    match word_of(matches, "kind") {
        Some(word) => kind_named(word),
        None => Some(BenchKind::Words),
    }
}

/// The options of the matches, `None` where a word is no value of its option.
pub(crate) fn values(matches: &ArgMatches) -> Option<Options>
    ensures { result ≡ spec.values_of (rows_of (found_of matches.now)) }
{
    let command = command_of(matches)?;
    let cores = number_of(matches, "cores", CORES)?;
    let block = number_of(matches, "block", BLOCK)?;
    let limit = number_of(matches, "limit", LIMIT)?;
    let steps = number_of(matches, "steps", STEPS)?;
    let slice = number_of(matches, "slice", SLICE)?;
    let events = number_of(matches, "events", EVENTS)?;
    let kind = kind_of(matches)?;
    let size = number_of(matches, "size", SIZE)?;
    let seed = number_of(matches, "seed", SEED)?;
    let history = is_used(matches, "history");
    let counts = is_used(matches, "counts");
    Some(Options {
        command,
        cores,
        block,
        limit,
        steps,
        slice,
        events,
        history,
        counts,
        kind,
        size,
        seed,
    })
}
