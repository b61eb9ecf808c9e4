//! A row: a call, its argument and its result.

use crate::calls::write_call;
use crate::display::is_written;
use std::alloc::AllocError;
use std::fmt::{self, Display, Formatter, Write};

/// A row. Its `Display` writes the result that the library gives for its call.
#[derive(Clone, Copy)]
pub struct Row<'a> {
    pub(crate) call: &'a str,
    /// A string in quotes, or numbers with spaces between them.
    pub(crate) argument: &'a str,
    /// The result that the row says.
    pub(crate) wanted: &'a str,
}

impl<'a> Row<'a> {
    /// Returns the row of a call, of an argument and of a result with escapes, which `room` holds
    /// without them.
    pub fn new(
        call: &'a str,
        argument: &str,
        wanted: &str,
        room: &'a mut String,
    ) -> Result<Row<'a>, AllocError> {
        room.clear();
        unescape(argument, room)?;
        let end = room.len();
        unescape(wanted, room)?;
        Ok(Row {
            call,
            argument: room.get(..end).unwrap_or_default(),
            wanted: room.get(end..).unwrap_or_default(),
        })
    }

    /// Returns the string between the quotes of the argument.
    pub fn text(self) -> &'a str {
        let end = self.argument.len().saturating_sub(1);
        self.argument.get(1..end).unwrap_or_default()
    }

    /// Returns whether the library gives the result that the row says.
    pub fn holds(self) -> bool {
        is_written(self, self.wanted, u32::MAX)
    }
}

impl Display for Row<'_> {
    fn fmt<W: Write>(&self, f: &mut Formatter<W>) -> fmt::Result {
        match write_call(f, *self) {
            Some(written) => written,
            None => f.write_str("no result"),
        }
    }
}

/// Returns the calls of a line, their arguments and their result: each call has it with each
/// argument.
pub fn split_line(line: &str) -> (&str, &str, &str) {
    let (head, wanted) = line.rsplit_once(" = ").unwrap_or_default();
    let (calls, arguments) = head.split_once(' ').unwrap_or((head, ""));
    (calls, arguments, wanted)
}

/// Appends the string with each `\u{HEX}` replaced by its character.
fn unescape(text: &str, out: &mut String) -> Result<(), AllocError> {
    let mut parts = text.split("\\u{");
    out.push_str(parts.next().unwrap_or_default())?;
    for part in parts {
        let (number, after) = part.split_once('}').unwrap_or_default();
        let number = u32::from_str_radix(number, 16).unwrap_or(u32::MAX);
        let character = char::from_u32(number).unwrap_or(char::REPLACEMENT_CHARACTER);
        write!(out, "{character}{after}")?;
    }
    Ok(())
}
