//! [`DurationError`]: the error of parsing a duration, and its messages.

ghost use Rattle.std.specs.Prelude.{◌++◌, Some, decimal};
ghost use Rattle.std.specs.Fmt.{WritesOnOk, WritesStyledOnOk};
ghost use Rattle.humantime.specs.DurationErrors.{fault_of, fault_message, unit_message};

use itoa::Buffer;
use std::error::Error;
use std::fmt;

/// The error returned when parsing a duration fails.
///
/// Offsets are in bytes, and lie on `char` boundaries of the string. `Display` writes the message
/// of the Rust crate `humantime`, with the unit as written in the string. Two errors are equal if
/// their variants and fields are equal; units are compared as strings.
///
/// # Examples
///
/// ```
/// use humantime::{DurationError, parse_duration};
///
/// let error = parse_duration("10nights").expect_err(&rt, "no such unit");
/// assert_eq!(rt; error, DurationError::UnknownUnit { start: 2, end: 8, unit: "nights", value: 10 });
/// let error = parse_duration("2 hours  min").expect_err(&rt, "no number");
/// assert_eq!(rt; error.to_string(rt.alloc())?.as_str(), "expected number at 9");
/// ```
#[derive(Clone, Copy, PartialEq, Eq, Debug)]
pub enum DurationError<'a> {
    /// The character at this offset is not allowed there, or is a decimal point without a digit
    /// after it.
    InvalidCharacter(usize),
    /// A number was expected, but the character at this offset is not a digit.
    NumberExpected(usize),
    /// The letters after a number (ASCII, `µ` or `μ`) do not name a unit, or the string ends
    /// without a unit.
    UnknownUnit {
        /// The offset of the unit's first letter, or the string's length if the unit is missing.
        start: usize,
        /// The offset after the unit's last letter, or the string's length if the unit is missing.
        end: usize,
        /// The unit, borrowed from the string; empty if it is missing.
        unit: &'a str,
        /// The number before the unit, without its fraction.
        value: u64,
    },
    /// A number, its product with the size of its unit, or the sum overflows; or a fraction cannot
    /// be represented, as [`parse_duration`](crate::parse_duration) describes.
    ///
    /// The product of a number and its unit is in nanoseconds for units up to milliseconds, and
    /// otherwise in seconds. A product in nanoseconds, plus the subsecond nanoseconds of the sum so
    /// far, must also fit in a `u64`.
    NumberOverflow,
    /// The string is empty or consists of whitespace only.
    Empty,
}

/// Writes the message. Width, fill and alignment are ignored.
impl fmt::Display for DurationError<'_> {
    ghost output = { λ e. Some (fault_message (fault_of e)) };

    ghost styled_output = { λ e _. Some (fault_message (fault_of e)) };

    fn fmt<W: fmt::Write>(&self, f: &mut fmt::Formatter<W>) -> fmt::Result {
        match self {
            Self::InvalidCharacter(at) => write_number("invalid character at ", *at as u64, f),
            Self::NumberExpected(at) => write_number("expected number at ", *at as u64, f),
            Self::UnknownUnit { unit, value, .. } => write_unit(unit, *value, f),
            Self::NumberOverflow => f.write_str(
                "number is too large or cannot be represented without a lack of precision (values below 1ns are not supported)",
            ),
            Self::Empty => f.write_str("value was empty"),
        }
    }
}

impl Error for DurationError<'_> {}

/// Writes `text`, followed by `number` in decimal.
#[tactic(auto, using(crate::proofs::Messages::texts_written))]
fn write_number<W: fmt::Write>(text: &str, number: u64, f: &mut fmt::Formatter<W>) -> fmt::Result
    ensures writes { WritesOnOk W.write_str_gives f.old result (text.now ++ decimal number) f.new }
    ensures styled { WritesStyledOnOk W.write_str_gives f.old result
        (text.now ++ decimal number) f.new }
{
    f.write_str(text)?;
    f.write_str(Buffer::new().format(number))
}

/// Writes the message for an unknown unit, or for a missing one if `unit` is empty. `value` is the
/// number before it.
#[tactic(auto, using(crate::proofs::Messages::texts_written))]
fn write_unit<W: fmt::Write>(unit: &str, value: u64, f: &mut fmt::Formatter<W>) -> fmt::Result
    ensures writes { WritesOnOk W.write_str_gives f.old result (unit_message unit.now value) f.new }
    ensures styled { WritesStyledOnOk W.write_str_gives f.old result
        (unit_message unit.now value) f.new }
{
    if unit.is_empty() {
        write_number("time unit needed, for example ", value, f)?;
        write_number("sec or ", value, f)?;
        return f.write_str("ms");
    }
    f.write_str("unknown time unit \"")?;
    f.write_str(unit)?;
    f.write_str(
        "\", supported units: ns, us/µs, ms, sec, min, hours, days, weeks, months, years (and few variations)",
    )
}
