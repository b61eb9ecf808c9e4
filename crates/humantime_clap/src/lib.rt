//! Durations and timestamps as options of `clap`, with errors that show where a string is wrong.
#![tactic(auto)]

ghost use Rattle.humantime_clap.specs.Values.{IsOptionalValue, IsValue, LeavesCommand, string_of};

use clap::error::ErrorKind;
use clap::{ArgMatches, Command, Error};
use humantime_std::Located;
use std::alloc::Global;
use std::fmt::Display;

/// Parses the first value of an option that is required or has a default. The id of the option has
/// to be its long name.
///
/// # Errors
///
/// Those of [`optional_value_of`], and `MissingRequiredArgument` if the option has no value.
///
/// # Examples
///
/// ```
/// let wait = clap::arg!(in rt.alloc(); --wait <DURATION>).default_value("30s");
/// let command = &mut clap::Command::new(rt.alloc(), "app").arg(wait)?;
/// let matches = command.try_get_matches_from_mut(&["app"])?;
/// let parse = humantime_std::located::parse_duration;
/// let wait = humantime_clap::value_of(rt.alloc(), command, &matches, "wait", parse)?;
/// assert_eq!(rt; wait.as_secs(), 30);
/// ```
#[tactic(auto, using(crate::proofs::Leaves::unbuilt))]
pub fn value_of<'a, T, E: Display + Drop, F: FnOnce(&'a str) -> Result<T, Located<E>>>(
    alloc: Global,
    command: &mut Command<'_>,
    matches: &ArgMatches<'a>,
    id: &str,
    parse: F,
) -> Result<T, Error>
    requires { F.IsAlwaysCallable parse }
    ensures value { IsValue F.FnOnce parse (string_of matches.now id.now) result }
    ensures command { LeavesCommand command.old command.new result }
{
    if let Some(value) = optional_value_of(alloc, command, matches, id, parse)? {
        return Ok(value);
    }
    let text = format!(in alloc; "the following required arguments were not provided:\n  --{id}")?;
    Err(command.error(ErrorKind::MissingRequiredArgument, &text)?)
}

/// Parses the first value of an option, or returns `None` if it has none. The id of the option has
/// to be its long name.
///
/// # Errors
///
/// `ValueValidation` if the parser rejects the string. The error displays the option, the message,
/// the line, and carets under what is wrong. `OutOfMemory` if an allocation fails.
///
/// # Examples
///
/// ```
/// let since = clap::arg!(in rt.alloc(); --since <TIMESTAMP>);
/// let command = &mut clap::Command::new(rt.alloc(), "app").arg(since)?;
/// let matches = command.try_get_matches_from_mut(&["app", "--since=1970-01-01T00:00:01Z"])?;
/// let parse = humantime_std::located::parse_rfc3339;
/// let since = humantime_clap::optional_value_of(rt.alloc(), command, &matches, "since", parse)?;
/// assert_eq!(rt; since.map(|time| time.unix_seconds()), Some(1));
/// ```
pub fn optional_value_of<'a, T, E: Display + Drop, F: FnOnce(&'a str) -> Result<T, Located<E>>>(
    alloc: Global,
    command: &mut Command<'_>,
    matches: &ArgMatches<'a>,
    id: &str,
    parse: F,
) -> Result<Option<T>, Error>
    requires { F.IsAlwaysCallable parse }
    ensures value { IsOptionalValue F.FnOnce parse (string_of matches.now id.now) result }
    ensures command { LeavesCommand command.old command.new result }
{
    let Some(value) = matches.get_str(id) else {
        return Ok(None);
    };
    let error = match parse(value) {
        Ok(parsed) => return Ok(Some(parsed)),
        Err(error) => error,
    };
    let text = format!(in alloc; "--{id}: {}", error.report(value))?;
    Err(command.error(ErrorKind::ValueValidation, &text)?)
}
