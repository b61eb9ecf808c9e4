//! The calls that rows may have, and the library's result of each.

use crate::row::Row;
use crate::values::{compare, moment_parts, parts};
use crate::writing::{write_message, write_value};
use crate::{durations, timestamps};
use humantime::{
    Date, Duration, StdDuration, SystemTime, Timestamp, Turns, UNIX_EPOCH, date_of_day, day_number,
    parse_duration, parse_rfc3339, parse_rfc3339_weak,
};
use std::fmt::{self, Formatter, Write};
use std::str::{FromStr, SplitWhitespace};

/// Writes the result of a row's call, or returns `None` if it has none: no call has this name and
/// argument, or the string has no error.
pub(crate) fn write_call<W: Write>(f: &mut Formatter<W>, row: Row<'_>) -> Option<fmt::Result> {
    let text = row.text();
    Some(match row.call {
        "duration" => durations::parse(f, text),
        "canonical" => durations::print_canonical(f, text),
        "spans" => durations::split(f, text),
        "message" => write_message(f, parse_duration(text).err()?, row.wanted, 5),
        "strict" => timestamps::write_parsed(f, parse_rfc3339(text)),
        "weak" => timestamps::write_parsed(f, parse_rfc3339_weak(text)),
        "refusal" => write_message(f, parse_rfc3339_weak(text).err()?, row.wanted, 1),
        "Duration::from_str" => durations::parse_wrapper(f, text),
        "Timestamp::from_str" => timestamps::parse_wrapper(f, text),
        _ => return write_numbered(f, row, &mut row.argument.split_whitespace()),
    })
}

/// Writes the result of a call with numbers, or returns `None` if no call has this name and these
/// numbers.
fn write_numbered<W: Write>(
    f: &mut Formatter<W>,
    row: Row<'_>,
    numbers: &mut SplitWhitespace<'_>,
) -> Option<fmt::Result> {
    match row.call.split_once("::") {
        Some(("StdDuration", name)) => write_duration(f, name, numbers),
        Some(("SystemTime", name)) => write_moment(f, name, numbers),
        _ => write_plain(f, row, numbers),
    }
}

/// Writes the result of a call of no type, or returns `None` if none has this name and these
/// numbers.
fn write_plain<W: Write>(
    f: &mut Formatter<W>,
    row: Row<'_>,
    numbers: &mut SplitWhitespace<'_>,
) -> Option<fmt::Result> {
    Some(match row.call {
        "print" => durations::print(f, duration(numbers)?),
        "misplaced" => durations::misplace(f, number(numbers)?, row.wanted),
        "day" => write_value(f, day_number(date(numbers)?, &mut Turns::new())),
        "date" => {
            let date = date_of_day(number(numbers)?, &mut Turns::new());
            write_value(f, date.map(|date| (date.year, date.month, date.day)))
        }
        "UNIX_EPOCH" => write_value(f, moment_parts(UNIX_EPOCH)),
        call => timestamps::print(f, call, moment(numbers)?)?,
    })
}

/// Writes the result of a call of `SystemTime`, or returns `None` if none has this name and these
/// numbers.
fn write_moment<W: Write>(
    f: &mut Formatter<W>,
    name: &str,
    numbers: &mut SplitWhitespace<'_>,
) -> Option<fmt::Result> {
    if name == "from_parts" {
        let made = SystemTime::from_parts(number(numbers)?, number(numbers)?);
        return Some(write_value(f, made.map(|moment| moment_parts(moment))));
    }
    let first = moment(numbers)?;
    Some(match name {
        "checked_add" => {
            let sum = first.checked_add(duration(numbers)?);
            write_value(f, sum.map(|moment| moment_parts(moment)))
        }
        "duration_since" => timestamps::subtract(f, first, moment(numbers)?),
        "cmp" => compare::<_, _, Timestamp>(f, first, moment(numbers)?),
        _ => return None,
    })
}

/// Writes the result of a call of `StdDuration`, or returns `None` if none has this name and these
/// numbers.
fn write_duration<W: Write>(
    f: &mut Formatter<W>,
    name: &str,
    numbers: &mut SplitWhitespace<'_>,
) -> Option<fmt::Result> {
    Some(match name {
        "checked_new" => {
            let made = StdDuration::checked_new(number(numbers)?, number(numbers)?);
            write_value(f, made.map(|value| parts(value)))
        }
        "checked_add" => {
            let sum = duration(numbers)?.checked_add(duration(numbers)?);
            write_value(f, sum.map(|value| parts(value)))
        }
        "cmp" => compare::<_, _, Duration>(f, duration(numbers)?, duration(numbers)?),
        _ => write_value(f, parts(new_duration(name, numbers)?)),
    })
}

/// Returns a constant, or the duration of one number, or `None` if none has this name and these
/// numbers.
fn new_duration(name: &str, numbers: &mut SplitWhitespace<'_>) -> Option<StdDuration> {
    Some(match name {
        "ZERO" => StdDuration::ZERO,
        "MAX" => StdDuration::MAX,
        "default" => StdDuration::default(),
        "from_secs" => StdDuration::from_secs(number(numbers)?),
        "from_micros" => StdDuration::from_micros(number(numbers)?),
        _ => return None,
    })
}

/// Parses the next number.
fn number<N: FromStr + Drop>(numbers: &mut SplitWhitespace<'_>) -> Option<N>
where
    N::Err: Drop,
{
    numbers.next()?.parse().ok()
}

/// Parses the seconds and nanoseconds of a duration.
fn duration(numbers: &mut SplitWhitespace<'_>) -> Option<StdDuration> {
    StdDuration::checked_new(number(numbers)?, number(numbers)?)
}

/// Parses the seconds and nanoseconds of a time.
fn moment(numbers: &mut SplitWhitespace<'_>) -> Option<SystemTime> {
    SystemTime::from_parts(number(numbers)?, number(numbers)?)
}

/// Parses the year, the month and the day of a date.
fn date(numbers: &mut SplitWhitespace<'_>) -> Option<Date> {
    Some(Date {
        year: number(numbers)?,
        month: number(numbers)?,
        day: number(numbers)?,
    })
}
