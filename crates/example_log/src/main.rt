//! Prints the lines of a log on standard input whose times are in a range: `example_log FROM TO`,
//! where TO is not in the range.
//!
//! A line has its timestamp at the front. A line without one goes with the line before it, and is
//! left out if there is none.
//!
//! The exit status is 0, or 2 for wrong arguments, or 1 if reading or writing fails or an
//! allocation fails.
#![tactic(auto)]

use humantime::{SystemTime, TimestampError};
use humantime_std::{Located, located, split_leading_time};
use std::alloc::Global;
use std::env;
use std::io::{self, BufRead, BufReader, BufWriter, Read, Write};
use std::ops::Range;
use std::process::ExitCode;

/// The most bytes of a line that are in memory. A longer line is copied in pieces.
const PIECE: u64 = 65_536;

fn main(rt: HostRuntime) -> io::Result<ExitCode> {
    let words = env::args(&rt)?.skip(1).collect::<Vec<String>>(rt.alloc())?;
    let mut log = BufReader::new(rt.alloc(), rt.stdin())?;
    let mut out = BufWriter::new(rt.alloc(), rt.stdout())?;
    let status = run(rt.alloc(), &words, &mut log, &mut out, &mut rt.stderr())?;
    Ok(ExitCode::from(status))
}

/// Copies the lines of a log between the times of two words, or writes what is wrong with the
/// words, and returns the exit status.
pub fn run<R: BufRead, W: Write>(
    alloc: Global,
    words: &[String],
    log: &mut R,
    out: &mut W,
    err: &mut impl Write,
) -> io::Result<u8> {
    let [from, to] = words else {
        writeln!(err, "usage: example_log FROM TO")?;
        return Ok(2);
    };
    match range_of(from, to) {
        Ok(range) => copy_lines(alloc, &range, log, out).map(|()| 0),
        Err((name, text, error)) => {
            writeln!(err, "example_log: {name}: {}", error.report(text))?;
            Ok(2)
        }
    }
}

/// A wrong argument: its name, its string and what is wrong with it.
type Wrong<'a> = (&'static str, &'a str, Located<TimestampError>);

/// Returns the range between two timestamps, or the first one that is wrong.
fn range_of<'a>(from: &'a str, to: &'a str) -> Result<Range<SystemTime>, Wrong<'a>> {
    match (
        located::parse_rfc3339_weak(from),
        located::parse_rfc3339_weak(to),
    ) {
        (Ok(from), Ok(to)) => Ok(from..to),
        (Err(error), _) => Err(("FROM", from, error)),
        (_, Err(error)) => Err(("TO", to, error)),
    }
}

/// Copies the lines of a log whose times are in a range, each with the lines without a timestamp
/// that follow it.
fn copy_lines<R: BufRead, W: Write>(
    alloc: Global,
    range: &Range<SystemTime>,
    log: &mut R,
    out: &mut W,
) -> io::Result<()> {
    let mut piece = Vec::new(alloc);
    let (mut is_first, mut is_kept) = (true, false);
    for _ in 0..u64::MAX {
        piece.clear();
        if log.by_ref().take(PIECE).read_until(b'\n', &mut piece)? == 0 {
            break;
        }
        if is_first {
            // What is not UTF-8 becomes U+FFFD, which is in no timestamp.
            let text = String::from_utf8_lossy(alloc, &piece)?;
            if let Some((time, _)) = split_leading_time(&text) {
                is_kept = range.contains(&time);
            }
        }
        if is_kept {
            out.write_all(&piece)?;
        }
        is_first = piece.ends_with(b"\n");
    }
    out.flush()
}
