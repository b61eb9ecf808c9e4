//! The library's results of calls about durations.

use crate::display::compare_formats;
use crate::values::parts;
use crate::writing::{Compared, agree, write_result, write_value};
use humantime::{
    Duration, DurationError, Span, StdDuration, canonical, format_duration, parse_duration, spans,
};
use std::fmt::{self, Formatter, Write};

/// What a buffer holds before a call.
const FILLED: &[u8; 64] = b"ABCDEFGHIJKLMNOPQRSTUVWXYZabcdefghijklmnopqrstuvwxyz0123456789+-";

/// Writes the seconds and nanoseconds of the string, or its error, which is also that of
/// `canonical`. That leaves the buffer unchanged.
pub(crate) fn parse<W: Write>(f: &mut Formatter<W>, text: &str) -> fmt::Result {
    let mut buf = *FILLED;
    match parse_duration(text) {
        Ok(value) => {
            let compared = compare_prints(value, canonical(text, &mut buf).unwrap_or_default());
            write_result(f, Ok::<_, ()>(parts(value)), compared)
        }
        Err(error) => {
            let is_agreed = canonical(text, &mut buf).err() == Some(error);
            let compared = agree("canonical", is_agreed).and(agree("its buffer", buf == *FILLED));
            write_result(f, Err::<(), _>(error), compared)
        }
    }
}

/// Writes the canonical string of a string, or its error.
pub(crate) fn print_canonical<W: Write>(f: &mut Formatter<W>, text: &str) -> fmt::Result {
    write_value(f, canonical(text, &mut [0; 64]))
}

/// Writes the duration that the wrapper parses, also as it prints it, or the error.
pub(crate) fn parse_wrapper<W: Write>(f: &mut Formatter<W>, text: &str) -> fmt::Result {
    match Duration::from_str(text) {
        Ok(value) => write!(f, "Ok({:?}), {value}", parts(*value.as_ref())),
        Err(error) => write!(f, "Err({error:?})"),
    }
}

/// Writes the messages of the two kinds of error that have an offset, with this offset.
pub(crate) fn misplace<W: Write>(f: &mut Formatter<W>, at: usize, wanted: &str) -> fmt::Result {
    let invalid = DurationError::InvalidCharacter(at);
    let expected = DurationError::NumberExpected(at);
    let (first, second) = wanted.split_once(", ").unwrap_or_default();
    let compared = compare_formats(&invalid, first, 2).and(compare_formats(&expected, second, 2));
    write_result(f, format_args!("{invalid}, {expected}"), compared)
}

/// Writes the printed string of a duration.
pub(crate) fn print<W: Write>(f: &mut Formatter<W>, value: StdDuration) -> fmt::Result {
    let (printed, mut buf) = (format_duration(value), [0; 64]);
    let text = printed.text(&mut buf);
    write_result(f, text, compare_prints(value, text))
}

/// Compares whether every call that prints the duration prints this string, and the string is
/// parsed to the duration.
fn compare_prints(value: StdDuration, text: &str) -> Compared {
    let (printed, mut buf) = (format_duration(value), [b'x'; 64]);
    agree("text", printed.text(&mut buf) == text)?;
    agree("its buffer", buf.starts_with(text.as_bytes()))?;
    agree("parse_duration", parse_duration(text) == Ok(value))?;
    compare_formats(&printed, text, 1)?;
    let wrapped = compare_formats(&Duration::from(value), text, 1);
    agree("Duration", wrapped.is_ok())
}

/// Writes the items of the string, and what three more calls return after the last one.
pub(crate) fn split<W: Write>(f: &mut Formatter<W>, text: &str) -> fmt::Result {
    let mut items = spans(text);
    for item in items.by_ref() {
        write_item(f, item)?;
    }
    let (first, second, third) = (items.next(), items.next(), items.next());
    write!(f, "{first:?}, {second:?}, {third:?}")
}

/// Writes an item, and a comma.
fn write_item<W: Write>(
    f: &mut Formatter<W>,
    item: Result<Span<'_>, DurationError<'_>>,
) -> fmt::Result {
    match item {
        Ok(span) => write_span(f, span),
        Err(error) => write!(f, "{:?}, ", Err::<(), _>(error)),
    }
}

/// Writes `Ok((NUMBER, FRACTION, UNIT, START, END, VALUE)), ` for a span, with its strings as they
/// are: `{:?}` would write escapes.
fn write_span<W: Write>(f: &mut Formatter<W>, span: Span<'_>) -> fmt::Result {
    write!(f, "Ok((\"{}\", ", span.number())?;
    write_fraction(f, span.fraction())?;
    let (start, end, value) = (span.start(), span.end(), span.value());
    write!(f, ", \"{}\", {start}, {end}, {value})), ", span.unit())
}

/// Writes `Some(FRACTION)`, or `None`.
fn write_fraction<W: Write>(f: &mut Formatter<W>, fraction: Option<&str>) -> fmt::Result {
    match fraction {
        Some(digits) => write!(f, "Some(\"{digits}\")"),
        None => f.write_str("None"),
    }
}
