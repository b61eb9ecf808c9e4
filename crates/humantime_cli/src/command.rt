//! Runs one command: parses its argument, and writes the result or an error message.

ghost use Rattle.std.specs.Prelude.{ℕ, List, [], ◌∷◌, Option, Some, Ok, Err, IsSome, IfOk, IfErr};
ghost use Rattle.std.specs.Prelude.{codes, unwrap_or};
ghost use Rattle.std.specs.Result.{result_map_both, result_unwrap_or};
ghost use Rattle.humantime.specs.Prelude.{IsStrictAnswer};
ghost use Rattle.humantime_cli.specs.Answers.{texts, streams, Ends, EndsWith, OneAnswer};

use crate::writing::write_line;
use humantime::{Duration, Timestamp, TimestampError, parse_rfc3339};
use std::fmt::{self, Display};
use std::io::Write;
use std::str::FromStr;

mod callers;

/// The exit status if the string was parsed.
const ACCEPTED: u8 = 0;

/// The exit status if the string could not be parsed.
const REJECTED: u8 = 1;

/// The exit status if the arguments are not a command and its string.
const MISUSED: u8 = 2;

/// The exit status if a write failed or, in `main`, the arguments cannot be collected or standard
/// output cannot be flushed.
pub(crate) const FAILED: u8 = 3;

const USAGE: &str = "usage: humantime duration|strict|weak TEXT";

/// Runs the command given by `words`, the arguments after the program's name, and returns the exit
/// status.
///
/// - `duration TEXT` writes the canonical string of the duration to `out` and returns 0.
/// - `strict TEXT` and `weak TEXT` write the time, as `format_rfc3339` prints it, to `out` and
///   return 0.
/// - If one of these cannot parse `TEXT`, it writes the error message to `err` and returns 1.
/// - For any other arguments, it writes the usage line to `err` and returns 2.
///
/// Each output ends with a line feed. A write fails if it returns an error or writes no bytes: it
/// is not retried, nothing more is written, and the status is 3. Nothing is allocated.
///
/// # Examples
///
/// ```
/// use humantime_cli::run;
/// use std::io::Cursor;
///
/// let (mut out, mut err) = (Cursor::new([0; 7]), Cursor::new([0; 21]));
/// assert_eq!(rt; run(&["duration", "2h 37min"], &mut out, &mut err), 0);
/// assert_eq!(rt; out.get_ref().as_slice(), b"2h 37m\n".as_slice());
/// assert_eq!(rt; run(&["duration", "2 hours  min"], &mut out, &mut err), 1);
/// assert_eq!(rt; err.get_ref().as_slice(), b"expected number at 9\n".as_slice());
/// ```
///
/// If a writer has no room for the whole line, it keeps the bytes that fit:
///
/// ```
/// use humantime_cli::run;
/// use std::io::Cursor;
///
/// let (mut out, mut err) = (Cursor::new([0; 20]), Cursor::new([0; 20]));
/// assert_eq!(rt; run(&["strict", "1970-01-01T00:00:00.5Z"], &mut out, &mut err), 3);
/// assert_eq!(rt; out.get_ref().as_slice(), b"1970-01-01T00:00:00.".as_slice());
/// assert_eq!(rt; err.position(), 0);
/// ```
#[tactic(auto, using(crate::proofs::AnswerLemmas::one_answer))]
pub fn run<O: Write, E: Write>(words: &[&str], out: &mut O, err: &mut E) -> u8
    ensures ends { Ends (texts words.now) result (streams (O.contents out.old) (E.contents err.old))
        (streams (O.contents out.new) (E.contents err.new)) }
    ensures one { OneAnswer (texts words.now) }
{
    answer(words, out, err).unwrap_or(FAILED)
}

/// Writes the answer to the arguments, and returns the status if no write fails.
#[inline(always)]
fn answer<O: Write, E: Write>(words: &[&str], out: &mut O, err: &mut E) -> Result<u8, fmt::Error>
    ensures { Ends (texts words.now) (result_unwrap_or result 3)
        (streams (O.contents out.old) (E.contents err.old))
        (streams (O.contents out.new) (E.contents err.new)) }
{
    match words {
        ["duration", text] => write_duration(text, out, err),
        ["strict", text] => write_strict(text, out, err),
        ["weak", text] => write_weak(text, out, err),
        _ => write_line(err, USAGE).and(Ok(MISUSED)),
    }
}

/// Parses a duration, and writes its canonical string to `out`, or the error message to `err`.
/// Returns the status if no write fails.
#[inline(always)]
fn write_duration<O: Write, E: Write>(
    text: &str,
    out: &mut O,
    err: &mut E,
) -> Result<u8, fmt::Error>
    ensures { Ends (codes "duration" ∷ text.now ∷ []) (result_unwrap_or result 3)
        (streams (O.contents out.old) (E.contents err.old))
        (streams (O.contents out.new) (E.contents err.new)) }
{
    write_result(&Duration::from_str(text), out, err)
}

/// Parses a timestamp in the strict format, and writes it to `out`, or the error message to `err`.
/// Returns the status if no write fails.
#[inline(always)]
fn write_strict<O: Write, E: Write>(text: &str, out: &mut O, err: &mut E) -> Result<u8, fmt::Error>
    ensures { Ends (codes "strict" ∷ text.now ∷ []) (result_unwrap_or result 3)
        (streams (O.contents out.old) (E.contents err.old))
        (streams (O.contents out.new) (E.contents err.new)) }
{
    write_result(&parse_strict(text), out, err)
}

/// Parses a timestamp in the weak format, and writes it to `out`, or the error message to `err`.
/// Returns the status if no write fails.
#[inline(always)]
fn write_weak<O: Write, E: Write>(text: &str, out: &mut O, err: &mut E) -> Result<u8, fmt::Error>
    ensures { Ends (codes "weak" ∷ text.now ∷ []) (result_unwrap_or result 3)
        (streams (O.contents out.old) (E.contents err.old))
        (streams (O.contents out.new) (E.contents err.new)) }
{
    write_result(&Timestamp::from_str(text), out, err)
}

/// Parses a timestamp in the strict format.
#[inline(always)]
fn parse_strict(text: &str) -> Result<Timestamp, TimestampError>
    ensures { IsStrictAnswer text.now result }
{
    Ok(Timestamp::from(parse_rfc3339(text)?))
}

/// Writes the value to `out`, or the error message to `err`, and returns the status if no write
/// fails.
///
/// It takes a reference, because the prover does not accept a call with a
/// `Result<Duration, DurationError<'_>>` by value.
#[inline(always)]
fn write_result<O: Write, E: Write, V: Display + Copy, F: Display + Copy>(
    parsed: &Result<V, F>,
    out: &mut O,
    err: &mut E,
) -> Result<u8, fmt::Error>
    requires value { IfOk parsed.now (λ v. IsSome (V.output v)) }
    requires error { IfErr parsed.now (λ e. IsSome (F.output e)) }
    ensures { EndsWith (Some (result_map_both (λ v. unwrap_or (V.output v) [])
        (λ e. unwrap_or (F.output e) []) parsed.now))
        (result_unwrap_or result 3) (streams (O.contents out.old) (E.contents err.old))
        (streams (O.contents out.new) (E.contents err.new)) }
{
    match parsed {
        Ok(value) => write_output(out, *value),
        Err(error) => write_error(err, *error),
    }
}

/// Writes a value to `out`, and returns the status if no write fails.
#[inline(always)]
fn write_output<O: Write, V: Display + Copy>(out: &mut O, value: V) -> Result<u8, fmt::Error>
    requires { IsSome (V.output value) }
    ensures { (other : Option (List ℕ)) → EndsWith (Some (Ok (unwrap_or (V.output value) [])))
        (result_unwrap_or result 3) (streams (O.contents out.old) other)
        (streams (O.contents out.new) other) }
{
    write_line(out, value).and(Ok(ACCEPTED))
}

/// Writes an error message to `err`, and returns the status if no write fails.
#[inline(always)]
fn write_error<E: Write, F: Display + Copy>(err: &mut E, error: F) -> Result<u8, fmt::Error>
    requires { IsSome (F.output error) }
    ensures { (other : Option (List ℕ)) → EndsWith (Some (Err (unwrap_or (F.output error) [])))
        (result_unwrap_or result 3) (streams other (E.contents err.old))
        (streams other (E.contents err.new)) }
{
    write_line(err, error).and(Ok(REJECTED))
}
