//! Prints when each job of a file runs next, how long it is until then, and when a failed job runs
//! again: `schedule FILE NOW RETRY`.
//!
//! A line of the file is a job's name, the time of its last run and its interval, with spaces or
//! tabs between them. RETRY is `FIRST..MOST xN`: the delay after the first failure, the longest
//! delay, and how many times as long each delay is as the one before. The exit status is 0, or 2 if
//! an argument or a line is wrong, or 1 if reading or writing fails or an allocation fails.
#![tactic(auto)]

use humantime::{
    DurationError, StdDuration, SystemTime, TimestampError, format_duration, format_rfc3339,
};
use humantime_std::located::{parse_duration, parse_rfc3339};
use humantime_std::{Located, next_delay, next_run};
use std::io::{self, Write};
use std::process::ExitCode;
use std::{env, fmt, fs};

#[derive(Clone, Copy)]
struct Job<'a> {
    name: &'a str,
    last: SystemTime,
    every: StdDuration,
}

/// How a failed job runs again.
#[derive(Clone, Copy)]
struct Retry {
    first: StdDuration,
    most: StdDuration,
    factor: u64,
}

/// A wrong string, and what is wrong with it.
#[derive(Clone, Copy)]
enum Wrong<'a> {
    Time(&'a str, Located<TimestampError>),
    Duration(&'a str, Located<DurationError<'a>>),
    Retry(&'a str),
}

impl fmt::Display for Wrong<'_> {
    fn fmt<W: fmt::Write>(&self, f: &mut fmt::Formatter<W>) -> fmt::Result {
        match self {
            Wrong::Time(text, error) => error.report(text).fmt(f),
            Wrong::Duration(text, error) => error.report(text).fmt(f),
            Wrong::Retry(text) => write!(f, "not in the format FIRST..MOST xN\n  {text}"),
        }
    }
}

/// Splits a string after its first word.
fn split_word(text: &str) -> (&str, &str) {
    let text = text.trim_start();
    text.split_once(|c: char| c.is_whitespace())
        .unwrap_or((text, ""))
}

fn read_time(text: &str) -> Result<SystemTime, Wrong<'_>> {
    parse_rfc3339(text).map_err(|error| Wrong::Time(text, error))
}

fn read_duration(text: &str) -> Result<StdDuration, Wrong<'_>> {
    parse_duration(text).map_err(|error| Wrong::Duration(text, error))
}

/// Reads a line with a name, the time of the last run, and an interval, which is the rest of the
/// line. The error of the time comes first.
fn read_job(line: &str) -> Result<Job<'_>, Wrong<'_>> {
    let (name, rest) = split_word(line);
    let (last, every) = split_word(rest);
    match (read_time(last), read_duration(every.trim())) {
        (Ok(last), Ok(every)) => Ok(Job { name, last, every }),
        (Err(wrong), _) | (_, Err(wrong)) => Err(wrong),
    }
}

fn read_retry(text: &str) -> Result<Retry, Wrong<'_>> {
    let Some((first, most, factor)) = split_retry(text) else {
        return Err(Wrong::Retry(text));
    };
    match (read_duration(first), read_duration(most), factor.parse()) {
        (Ok(first), Ok(most), Ok(factor)) => Ok(Retry {
            first,
            most,
            factor,
        }),
        (Err(wrong), _, _) | (_, Err(wrong), _) => Err(wrong),
        _ => Err(Wrong::Retry(text)),
    }
}

/// Returns FIRST, MOST and N of `FIRST..MOST xN`.
fn split_retry(text: &str) -> Option<(&str, &str, &str)> {
    let (delays, factor) = text.split_once(" x")?;
    let (first, most) = delays.split_once("..")?;
    Some((first, most, factor))
}

/// Writes the delays after the first failures of a job.
fn write_delays(out: &mut impl Write, retry: Retry) -> io::Result<()> {
    let mut delay = retry.first.min(retry.most);
    for failures in 1..=5 {
        let again = format_duration(delay);
        writeln!(out, "after failure {failures}: again in {again}")?;
        delay = next_delay(delay, retry.factor, retry.most);
    }
    Ok(())
}

fn write_next(out: &mut impl Write, job: Job<'_>, now: SystemTime) -> io::Result<()> {
    let name = job.name;
    let Some(next) = next_run(job.last, job.every, now) else {
        return writeln!(out, "{name}: no next run");
    };
    // The contract of `next_run` says that the run is not before `now`.
    let wait = format_duration(next.duration_since(now).unwrap());
    match format_rfc3339(next).text(&mut [0; 30]) {
        Some(time) => writeln!(out, "{name}: {time}, in {wait}"),
        None => writeln!(out, "{name}: after the year 9999, in {wait}"),
    }
}

/// Writes what [`write_runs`] writes for the words FILE, NOW and RETRY, and what the file contains,
/// or what is wrong with the first wrong one. Returns the exit status.
pub fn run(
    words: &[String],
    file: io::Result<String>,
    out: &mut impl Write,
    err: &mut impl Write,
) -> io::Result<u8> {
    let [path, now, retry] = words else {
        return writeln!(err, "usage: schedule FILE NOW RETRY").map(|()| 2);
    };
    match file {
        Ok(text) => write_runs(&text, now, retry, out, err),
        Err(error) => writeln!(err, "{path}: {error}").map(|()| 1),
    }
}

/// Writes the next run of each job in an input, the errors of the other lines, and the delays.
/// Returns the exit status.
fn write_runs(
    text: &str,
    now: &str,
    retry: &str,
    out: &mut impl Write,
    err: &mut impl Write,
) -> io::Result<u8> {
    match (read_time(now), read_retry(retry)) {
        (Ok(now), Ok(retry)) => {
            let status = write_jobs(text, now, out, err)?;
            write_delays(out, retry).map(|()| status)
        }
        (Err(wrong), _) | (_, Err(wrong)) => writeln!(err, "schedule: {wrong}").map(|()| 2),
    }
}

/// Writes the next run of each job in an input, and the errors of the other lines. Returns the exit
/// status.
fn write_jobs(
    text: &str,
    now: SystemTime,
    out: &mut impl Write,
    err: &mut impl Write,
) -> io::Result<u8> {
    let mut status = 0;
    for (index, line) in text.lines().enumerate() {
        match read_job(line) {
            Ok(job) => write_next(out, job, now)?,
            Err(wrong) => {
                writeln!(err, "line {}: {wrong}", index + 1)?;
                status = 2;
            }
        }
    }
    Ok(status)
}

fn main(rt: HostRuntime) -> io::Result<ExitCode> {
    let words = env::args(&rt)?.skip(1).collect::<Vec<String>>(rt.alloc())?;
    let file = match words.first() {
        Some(path) => fs::read_to_string(&rt, path.as_str()),
        None => Ok(String::new(rt.alloc())),
    };
    let status = run(&words, file, &mut rt.stdout(), &mut rt.stderr())?;
    Ok(ExitCode::from(status))
}
