//! Writes results.

use crate::display::compare_formats;
use std::fmt::{self, Debug, Display, Formatter, Write};

/// The name of a comparison that does not hold, as an error.
pub(crate) type Compared = Result<(), &'static str>;

/// Returns the name of a comparison as an error, unless it holds.
pub(crate) fn agree(name: &'static str, holds: bool) -> Compared {
    if holds { Ok(()) } else { Err(name) }
}

/// Writes a value as `{:?}` does.
pub(crate) fn write_value<W: Write, T: Debug + Drop>(
    f: &mut Formatter<W>,
    value: T,
) -> fmt::Result {
    write!(f, "{value:?}")
}

/// Writes a value as `{:?}` does, followed by the name of a comparison with another call or format
/// that does not hold, if there is one.
pub(crate) fn write_result<W: Write, T: Debug + Drop>(
    f: &mut Formatter<W>,
    value: T,
    compared: Result<(), &str>,
) -> fmt::Result {
    match compared {
        Ok(()) => write!(f, "{value:?}"),
        Err(name) => write!(f, "{value:?}, but not by {name}"),
    }
}

/// Writes the message of an error, followed by a format that changes it or needs more than `most`
/// writes, if there is one.
pub(crate) fn write_message<W: Write, E: Display + Copy>(
    f: &mut Formatter<W>,
    error: E,
    wanted: &str,
    most: u32,
) -> fmt::Result {
    let compared = compare_formats(&error, wanted, most);
    write_result(f, format_args!("{error}"), compared)
}
