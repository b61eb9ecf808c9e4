//! Callers that write values by `Display`. Width, fill and precision do not change the strings.

ghost use Rattle.std.specs.Prelude.{◌≡◌, ◌++◌, Err, IsOk, IfErr, IfOk, OnOk, codes};
ghost use Rattle.std.specs.Fmt.{DisplaysOnOk, DisplaysStyledOnOk, WritesInCalls, WritesStyledOnOk, fmt_error};
ghost use Rattle.humantime.specs.Prelude.{IsPrintable, duration_text, fault_message, fault_of, printed_text, shortest_text, timestamp_message};

use humantime::{
    Duration, DurationError, FormattedDuration, Rfc3339Timestamp, Timestamp, TimestampError,
};
use std::fmt::{self, Display, Write};

/// Writes a line with the time that something took and its limit.
pub fn write_limit<W: Write>(took: &FormattedDuration, limit: Duration, out: &mut W) -> fmt::Result
    ensures { OnOk result (WritesInCalls W.write_str_gives out.old
        (duration_text took.now ++ (codes " of " ++ duration_text limit)) out.new) }
{
    write!(out, "{took} of {limit}")
}

/// Writes a limit or its error, in whatever format: `f` may have any width, fill and precision.
pub fn write_limit_or_error<W: Write>(
    limit: &Result<Duration, DurationError<'_>>,
    f: &mut fmt::Formatter<W>,
) -> fmt::Result
    ensures limit { IfOk limit.now
        (λ d. WritesStyledOnOk W.write_str_gives f.old result (duration_text d) f.new) }
    ensures error { IfErr limit.now
        (λ e. WritesStyledOnOk W.write_str_gives f.old result (fault_message (fault_of e)) f.new) }
{
    match limit {
        Ok(limit) => limit.fmt(f),
        Err(error) => error.fmt(f),
    }
}

/// Writes how long something took, or why its start was not known, in whatever format.
pub fn write_took_or_error<W: Write>(
    took: &Result<FormattedDuration, TimestampError>,
    f: &mut fmt::Formatter<W>,
) -> fmt::Result
    ensures took { IfOk took.now
        (λ d. WritesStyledOnOk W.write_str_gives f.old result (duration_text d) f.new) }
    ensures error { IfErr took.now
        (λ e. WritesStyledOnOk W.write_str_gives f.old result (timestamp_message e) f.new) }
{
    match took {
        Ok(took) => took.fmt(f),
        Err(error) => error.fmt(f),
    }
}

/// Writes a timestamp. It writes nothing for a time outside 1970 to 9999.
pub fn write_timestamp<W: Write>(at: Timestamp, f: &mut fmt::Formatter<W>) -> fmt::Result
    ensures writes { DisplaysOnOk W.write_str_gives f.old result (shortest_text at) f.new }
    ensures styled { DisplaysStyledOnOk W.write_str_gives f.old result (shortest_text at) f.new }
    ensures within { IsOk result → IsPrintable at }
    ensures refused { ¬ (IsPrintable at) → result ≡ Err fmt_error }
    ensures untouched { ¬ (IsPrintable at) → f.new ≡ f.old }
{
    at.fmt(f)
}

/// Writes what a printer of a timestamp prints. It writes nothing for a time outside 1970 to 9999.
pub fn write_stamp<W: Write>(stamp: &Rfc3339Timestamp, f: &mut fmt::Formatter<W>) -> fmt::Result
    ensures writes { DisplaysOnOk W.write_str_gives f.old result (printed_text stamp.now) f.new }
    ensures styled { DisplaysStyledOnOk W.write_str_gives f.old result (printed_text stamp.now)
        f.new }
    ensures within { IsOk result → IsPrintable stamp.now.moment }
    ensures refused { ¬ (IsPrintable stamp.now.moment) → result ≡ Err fmt_error }
    ensures untouched { ¬ (IsPrintable stamp.now.moment) → f.new ≡ f.old }
{
    stamp.fmt(f)
}
