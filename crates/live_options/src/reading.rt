// The program's words, read by clap.
ghost use Rattle.std.specs.Prelude.{◌≡◌, IfOk, map, option_map, string_bytes};
ghost use Rattle.clap.specs.Words.{app_of, found_of, rows_of};
ghost use Rattle.live_options.specs.Words.{livesim_app, load_of, options, options_in, options_of, value_of};

use crate::Options;
use crate::values::{choice_within, value_within};
use clap::error::ErrorKind;
use clap::{Arg, ArgMatches, Command};
use ls_text::NoMemory;
use std::alloc::Global;

// Four options, each with one value and none repeated; no request for help.
fn command<'a>(alloc: Global) -> Result<Command<'a>, NoMemory>
    ensures { IfOk result (λ command. app_of command ≡ livesim_app) }
{
    let workers = Arg::new(alloc, "workers").long("workers");
    let interval = Arg::new(alloc, "interval").long("interval");
    let lookback = Arg::new(alloc, "lookback").long("lookback");
    let load = Arg::new(alloc, "load").long("load");
    let command = Command::new(alloc, "livesim")
        .disable_help_flag(true)
        .arg(workers)?
        .arg(interval)?
        .arg(lookback)?
        .arg(load)?;
    Ok(command)
}

// The value of an option that was found, from the least to the most: the default where it isn't given, and none where it isn't such a number.
fn value_of(
    matches: &ArgMatches<'_>,
    name: &str,
    default: u64,
    least: u64,
    most: u64,
) -> Option<u64>
    ensures { result ≡ value_of name.now default least most (rows_of (found_of matches.now)) }
{
    value_within(matches.get_str(name), default, least, most)
}

// Of how many stages a script is to be made, where one is asked for; none where the value isn't such a number.
fn load_of(matches: &ArgMatches<'_>) -> Option<Option<u32>>
    ensures { result ≡ load_of (rows_of (found_of matches.now)) }
{
    choice_within(matches.get_str("load"), 1, 4096)
}

// The options that were found, where each value is of its form and within its bounds.
fn options_in(matches: &ArgMatches<'_>) -> Option<Options>
    ensures { option_map options_of result ≡ options_in (rows_of (found_of matches.now)) }
{
    let workers = value_of(matches, "workers", 2, 0, 64)?;
    let interval = value_of(matches, "interval", 10_000, 1, 1_000_000_000)?;
    let lookback = value_of(matches, "lookback", 10_000, 0, 1_099_511_627_776)?;
    let load = load_of(matches)?;
    Some(Options {
        workers: workers as u8,
        interval,
        lookback,
        load,
    })
}

/// The options that the program's words ask for, of which the first is its name. It is none for faulty words: where there is no word at all,
/// where a word is unknown (so also at a request for help), where an option is repeated or lacks its value, and where a value isn't 1 to 13
/// decimal digits or isn't within its bounds.
///
/// `NoMemory`: memory ran out. No words at all take none.
pub fn read_options(alloc: Global, words: &[String]) -> Result<Option<Options>, NoMemory>
    ensures { IfOk result (λ read. option_map options_of read ≡ options (map string_bytes words.now)) }
{
    if words.is_empty() {
        return Ok(None);
    }
    match command(alloc)?.try_get_matches_from(words) {
        Ok(matches) => Ok(options_in(&matches)),
        Err(error) => match error.kind() {
            ErrorKind::OutOfMemory => Err(NoMemory),
            _ => Ok(None),
        },
    }
}
