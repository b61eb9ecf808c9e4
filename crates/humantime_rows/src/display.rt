//! The string that `Display` writes with various formats.

use crate::writing::{Compared, agree};
use std::fmt::{self, Display, Write};

/// A writer that expects one string. It compares what is written with it, stores nothing, counts
/// the writes, and fails after a write that differs.
#[derive(Drop)]
struct Wanted<'a> {
    /// The rest of the expected string, until a write differs from it.
    rest: Option<&'a [u8]>,
    requests: u32,
}

impl fmt::Write for Wanted<'_> {
    fn write_str(&mut self, s: &str) -> fmt::Result {
        self.requests = self.requests.saturating_add(1);
        let Some(rest) = self.rest else {
            return Err(fmt::Error);
        };
        self.rest = rest.strip_prefix(s.as_bytes());
        Ok(())
    }
}

/// Returns whether the value is written as this string, in at most `most` writes.
pub fn is_written<D: Display + Drop>(value: D, text: &str, most: u32) -> bool {
    let mut writer = Wanted {
        rest: Some(text.as_bytes()),
        requests: 0,
    };
    match (writer.write(value), writer.rest) {
        (Ok(()), Some([])) => writer.requests <= most,
        _ => false,
    }
}

/// Compares whether a value is written as a string, in at most so many writes, with each of some
/// formats.
macro_rules! compare_each {
    ($value:ident, $text:ident, $most:ident, $($format:literal)+) => {
        $(agree($format, is_written(format_args!($format, $value), $text, $most))?;)+
    };
}

/// Compares whether the value is written as this string in at most `most` writes with any format,
/// and stops at the first write that fails.
pub(crate) fn compare_formats<T: Display>(value: &T, text: &str, most: u32) -> Compared {
    agree("a writer that fails", refused_requests(value) == 1)?;
    compare_each!(value, text, most, "{}" "{:>80}" "{:*<200}" "{:.3}" "{:+}" "{:#}");
    compare_other_formats(value, text, most)
}

/// Compares the same with more formats.
fn compare_other_formats<T: Display>(value: &T, text: &str, most: u32) -> Compared {
    compare_each!(value, text, most, "{:030}" "{:5}" "{:.0}" "{:^90}" "{:é^90.12}" "{:µ^+#0400.3}");
    Ok(())
}

/// Returns the number of writes that `Display` makes to a writer that always fails, or `u32::MAX`
/// if it returns `Ok`.
pub(crate) fn refused_requests<T: Display>(value: &T) -> u32 {
    let mut writer = Wanted {
        rest: None,
        requests: 0,
    };
    match write!(writer, "{value}") {
        Ok(()) => u32::MAX,
        Err(_) => writer.requests,
    }
}
