//! Prints the lines `NAME<TAB>DURATION` of standard input as a table, with each share of the total,
//! the total, the mean and the longest.
//!
//! The exit status is 0, or 2 if a line is wrong, or 1 if reading or writing fails or an allocation
//! fails.
#![tactic(auto)]

use humantime::{DurationError, StdDuration, format_duration};
use humantime_std::located::parse_duration;
use humantime_std::{Located, MarkedLine, StdDurationExt};
use std::alloc::{AllocError, Global};
use std::io::{self, Write};
use std::process::ExitCode;
use thiserror::Error;
use unicode_width::UnicodeWidthStr;

/// A row of the table.
#[derive(Clone, Copy, Debug)]
struct Row<'a> {
    name: &'a str,
    duration: StdDuration,
}

/// What is wrong with a line.
#[derive(Clone, Copy, Debug, Error)]
enum Wrong<'a> {
    #[error("a tab and a duration are missing")]
    NoTab,
    #[error("{0}")]
    Duration(Located<DurationError<'a>>),
    #[error("the total is longer than any duration")]
    TotalTooLong,
}

fn main(rt: HostRuntime) -> io::Result<ExitCode> {
    let text = io::read_to_string(rt.alloc(), rt.stdin())?;
    let status = run(rt.alloc(), &text, &mut rt.stdout(), &mut rt.stderr())?;
    Ok(ExitCode::from(status))
}

/// Writes the table of an input, or what is wrong with its first wrong line, and returns the exit
/// status.
pub fn run(
    alloc: Global,
    text: &str,
    out: &mut impl Write,
    err: &mut impl Write,
) -> io::Result<u8> {
    let mut rows = Vec::new(alloc);
    let mut total = StdDuration::ZERO;
    for (index, line) in text.lines().enumerate() {
        match row_of(line, total) {
            Ok((row, sum)) => {
                if rows.push(row).is_err() {
                    return Err(AllocError.into());
                }
                total = sum;
            }
            Err(wrong) => return write_wrong(err, index + 1, line, wrong),
        }
    }
    let table = table_of(alloc, &rows, total)?;
    out.write_all(table.as_bytes()).map(|()| 0)
}

/// Writes a line with what is wrong with it, and returns the exit status.
fn write_wrong(
    err: &mut impl Write,
    number: usize,
    line: &str,
    wrong: Wrong<'_>,
) -> io::Result<u8> {
    let marked = marked_line(line, wrong);
    writeln!(err, "example_table: line {number}: {wrong}\n{marked}").map(|()| 2)
}

/// Returns the row of a line, and the sum of its duration and the total so far. The bytes of an
/// error are counted from the character after the tab.
fn row_of(line: &str, total: StdDuration) -> Result<(Row<'_>, StdDuration), Wrong<'_>> {
    let Some((name, text)) = line.split_once('\t') else {
        return Err(Wrong::NoTab);
    };
    let duration = match parse_duration(text) {
        Ok(duration) => duration,
        Err(error) => return Err(Wrong::Duration(error)),
    };
    match total.checked_add(duration) {
        Some(sum) => Ok((Row { name, duration }, sum)),
        None => Err(Wrong::TotalTooLong),
    }
}

/// Returns a line with what is wrong with it.
fn marked_line<'a>(line: &'a str, wrong: Wrong<'_>) -> MarkedLine<'a> {
    let start = line.find('\t').map_or(line.len(), |tab| tab + 1);
    match wrong {
        Wrong::Duration(error) => error.after(start).marked_line(line),
        _ => MarkedLine::new(line, start..start),
    }
}

/// Returns the table as a string. A share is a whole number of percent, truncated. Of several rows
/// that are the longest, the last one is named.
fn table_of(alloc: Global, rows: &[Row<'_>], total: StdDuration) -> Result<String, AllocError> {
    let mut width = "longest".len();
    for row in rows {
        width = width.max(row.name.width());
    }
    let mut table = String::new(alloc);
    for row in rows {
        let share = row.duration.as_nanos() * 100;
        let percent = share.checked_div(total.as_nanos()).unwrap_or(0);
        let duration = format_duration(row.duration);
        let padding = width.saturating_sub(row.name.width());
        writeln!(
            table,
            "{}{:padding$}  {percent:>3}%  {duration}",
            row.name, ""
        )?;
    }
    write_sums(&mut table, rows, total, width)?;
    Ok(table)
}

/// Writes the total, the mean and the longest row below the table, whose names have this width.
fn write_sums(
    table: &mut String,
    rows: &[Row<'_>],
    total: StdDuration,
    width: usize,
) -> Result<(), AllocError> {
    writeln!(
        table,
        "{:<width$}        {}",
        "total",
        format_duration(total)
    )?;
    if let Some(mean) = total.checked_div(rows.len() as u64) {
        writeln!(table, "{:<width$}        {}", "mean", format_duration(mean))?;
    }
    if let Some(row) = rows.iter().max_by_key(|row| row.duration) {
        writeln!(table, "{:<width$}        {}", "longest", row.name)?;
    }
    Ok(())
}
