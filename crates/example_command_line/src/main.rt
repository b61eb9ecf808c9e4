//! Prints the options of a command line. `--help` shows their defaults as canonical strings, and a
//! wrong value has carets under the error.
//!
//! The exit status is 0, or 2 for wrong arguments, or 1 if writing fails or an allocation fails.
#![tactic(auto)]

use clap::error::ErrorKind;
use clap::{ArgMatches, Command, Error, arg};
use humantime::{Duration, Timestamp};
use humantime_clap::{optional_value_of, value_of};
use humantime_std::located::{parse_duration, parse_rfc3339_weak};
use std::alloc::{AllocError, Global};
use std::env;
use std::io::{self, Write};
use std::process::ExitCode;

/// The options of the command line.
#[derive(Clone, Copy, Debug, PartialEq)]
pub struct Options {
    pub timeout: Duration,
    pub window: Duration,
    pub since: Option<Timestamp>,
}

fn main(rt: HostRuntime) -> io::Result<ExitCode> {
    let words = env::args(&rt)?.collect::<Vec<String>>(rt.alloc())?;
    let status = run(rt.alloc(), &words, &mut rt.stdout(), &mut rt.stderr())?;
    Ok(ExitCode::from(status))
}

/// Writes the options of a command line, or help, or what is wrong, and returns the exit status.
pub fn run(
    alloc: Global,
    words: &[String],
    out: &mut impl Write,
    err: &mut impl Write,
) -> io::Result<u8> {
    match options_of(alloc, words) {
        Ok(options) => {
            let (timeout, window) = (options.timeout, options.window);
            writeln!(out, "timeout {timeout}, window {window}")?;
            if let Some(since) = options.since {
                writeln!(out, "since {since}")?;
            }
            Ok(0)
        }
        Err(error) if error.kind() == ErrorKind::OutOfMemory => Err(AllocError.into()),
        Err(error) if error.use_stderr() => {
            write!(err, "{error}")?;
            Ok(2)
        }
        Err(help) => {
            write!(out, "{help}")?;
            Ok(0)
        }
    }
}

/// Returns the options of a command line, whose first word is the program.
pub fn options_of(alloc: Global, words: &[String]) -> Result<Options, Error> {
    let mut command = command(alloc)?;
    let matches = command.try_get_matches_from_mut(words)?;
    options_in(alloc, &mut command, &matches)
}

/// Returns the options in the matches of a command line.
fn options_in(
    alloc: Global,
    command: &mut Command<'_>,
    matches: &ArgMatches<'_>,
) -> Result<Options, Error> {
    let timeout = value_of(alloc, command, matches, "timeout", parse_duration)?;
    let window = value_of(alloc, command, matches, "window", parse_duration)?;
    let since = optional_value_of(alloc, command, matches, "since", parse_rfc3339_weak)?;
    Ok(Options {
        timeout: Duration::new(timeout),
        window: Duration::new(window),
        since: since.map(|time| Timestamp::from(time)),
    })
}

/// Creates the command.
fn command<'a>(alloc: Global) -> Result<Command<'a>, AllocError> {
    let command = with_durations(Command::new(alloc, "example_command_line"), alloc)?;
    command.arg(arg!(in alloc; --since <TIMESTAMP> "Where to begin"))
}

/// Adds the options that are durations. They may begin with a hyphen, so that the library says what
/// is wrong with `-1s`.
fn with_durations<'a>(command: Command<'a>, alloc: Global) -> Result<Command<'a>, AllocError> {
    let timeout = arg!(in alloc; --timeout <DURATION> "How long to wait").default_value("30s");
    let window = arg!(in alloc; --window <DURATION> "How far to go").default_value("1year");
    command
        .arg(timeout.allow_hyphen_values(true))?
        .arg(window.allow_hyphen_values(true))
}
