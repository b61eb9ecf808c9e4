//! Compares the results of the library with the rows of a table, each of which has a call, its
//! argument and its result.
//!
//! A line of standard input has rows with one result, such as
//! `strict|weak "1970-01-01", "" = Err(InvalidFormat)`: one for each of its calls and each of its
//! arguments. Empty lines and those that begin with `#` are skipped. Rows after `wrong: ` are wrong
//! on purpose: they have to differ, and are printed with the library's result, which shows that
//! rows are compared. Any other row that differs is printed, too, and so is a wrong one that does
//! not. The last line counts the rows that hold.
#![tactic(auto)]

mod calls;
mod display;
mod durations;
mod row;
mod timestamps;
mod values;
mod writing;

// Tests use these modules as a library.
pub use crate::display::is_written;
pub use crate::row::{Row, split_line};
use std::io;
use std::process::ExitCode;

fn main(rt: HostRuntime) -> io::Result<ExitCode> {
    let table = io::read_to_string(rt.alloc(), rt.stdin())?;
    let mut room = String::new(rt.alloc());
    let mut tally = Tally::default();
    for line in table.as_str().lines() {
        if !line.is_empty() && !line.starts_with('#') {
            tally.try_line(&rt, line, &mut room)?;
        }
    }
    let Tally {
        holds,
        differs,
        found,
    } = tally;
    println!(rt; "{holds} rows hold, {differs} do not, {found} wrong ones differ")?;
    Ok(ExitCode::from(u8::from(differs > 0)))
}

/// The rows that were tried.
#[derive(Clone, Copy, Default)]
struct Tally {
    /// How many rows hold.
    holds: u64,
    /// How many rows differ, or are wrong on purpose and do not.
    differs: u64,
    /// How many rows are wrong on purpose and differ.
    found: u64,
}

impl Tally {
    /// Tries the rows of a line, in a room for the strings of each.
    fn try_line(&mut self, rt: &impl Print, line: &str, room: &mut String) -> io::Result<()> {
        let (mark, rows) = match line.strip_prefix("wrong: ") {
            Some(rows) => ("wrong: ", rows),
            None => ("", line),
        };
        let (calls, arguments, wanted) = split_line(rows);
        for call in calls.split('|') {
            for argument in arguments.split(", ") {
                let row = Row::new(call, argument, wanted, room)?;
                if let Some(link) = self.count(row.holds(), mark.is_empty()) {
                    let gap = if argument.is_empty() { "" } else { " " };
                    println!(rt;
                        "{mark}{call}{gap}{argument} = {wanted}{link} the result is {row}"
                    )?;
                }
            }
        }
        Ok(())
    }

    /// Counts a row. Returns what links it with the library's result in the line that is printed,
    /// or `None` if no line is.
    fn count(&mut self, holds: bool, is_right: bool) -> Option<&'static str> {
        match (holds, is_right) {
            (true, true) => {
                self.holds = self.holds.saturating_add(1);
                None
            }
            (false, false) => {
                self.found = self.found.saturating_add(1);
                Some(";")
            }
            _ => {
                self.differs = self.differs.saturating_add(1);
                Some(", but")
            }
        }
    }
}
