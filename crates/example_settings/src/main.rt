//! Checks a settings file and prints it with canonical strings: `example_settings FILE`, with a
//! file in TOML.
//!
//! The exit status is 0 if the settings are valid, 2 unless there is exactly one argument, and 1
//! for any other error. If the settings have an error, standard error has the name of the file, the
//! line, the column, what is wrong, and the line with a caret under the error. A wrong string, a
//! misspelled key and a wrong tag:
//!
//! ```text
//! settings.toml: line 3, column 24: time unit needed, for example 60sec or 60ms
//! retries = ['500ms', '60']
//!                        ^
//! settings.toml: line 6, column 1: unknown field `evry`, expected one of `every`, `since`, `keep`, `target`
//! evry = '36h'
//! ^
//! settings.toml: line 9, column 19: unknown variant `sever`, expected `directory` or `server`
//! target = { kind = 'sever', address = '10.0.0.7', timeout = '5s' }
//!                   ^
//! ```
#![tactic(auto)]

use humantime::{Duration, StdDuration, SystemTime};
use humantime_settings::{SettingsError, from_toml, to_toml};
use serde::{Deserialize, Serialize};
use std::alloc::Global;
use std::collections::BTreeMap;
use std::io::{self, Write};
use std::process::ExitCode;
use std::{env, fs, time};

/// The settings of a program.
#[derive(Drop, Serialize, Deserialize)]
#[serde(deny_unknown_fields)]
struct Settings {
    /// How long a request may take.
    #[serde(with = "humantime_settings")]
    timeout: time::Duration,
    /// How long to wait before each further request.
    #[serde(with = "humantime_settings")]
    retries: Vec<StdDuration>,
    backup: Backup,
    /// When the program is switched off, by the name of the occasion.
    #[serde(with = "humantime_settings")]
    breaks: BTreeMap<String, SystemTime>,
}

/// The settings of backups.
#[derive(Drop, Serialize, Deserialize)]
#[serde(deny_unknown_fields)]
struct Backup {
    #[serde(with = "humantime_settings")]
    every: StdDuration,
    #[serde(with = "humantime_settings")]
    since: SystemTime,
    /// How long a backup is kept: for ever, if there is no such line.
    #[serde(default, with = "humantime_settings")]
    keep: Option<Duration>,
    target: Target,
}

/// Where backups are kept.
#[derive(Drop, Serialize, Deserialize)]
#[serde(tag = "kind", rename_all = "lowercase")]
enum Target {
    Directory {
        path: String,
    },
    Server {
        address: String,
        #[serde(with = "humantime_settings")]
        timeout: StdDuration,
    },
}

/// Returns settings with canonical strings.
fn canonical(alloc: Global, text: &str) -> Result<String, SettingsError> {
    let settings: Settings = from_toml(alloc, text)?;
    to_toml(alloc, &settings)
}

/// Writes the settings of a file, which the only word names, with canonical strings, or what is
/// wrong. Returns the exit status.
pub fn run(
    alloc: Global,
    words: &[String],
    file: io::Result<String>,
    out: &mut impl Write,
    err: &mut impl Write,
) -> io::Result<u8> {
    let [path] = words else {
        return writeln!(err, "usage: example_settings FILE").map(|()| 2);
    };
    let text = match file {
        Ok(text) => text,
        Err(error) => return writeln!(err, "{path}: {error}").map(|()| 1),
    };
    match canonical(alloc, &text) {
        Ok(settings) => write!(out, "{settings}").map(|()| 0),
        Err(error) => writeln!(err, "{path}: {error}").map(|()| 1),
    }
}

fn main(rt: HostRuntime) -> io::Result<ExitCode> {
    let words = env::args(&rt)?.skip(1).collect::<Vec<String>>(rt.alloc())?;
    let file = match words.first() {
        Some(path) => fs::read_to_string(&rt, path.as_str()),
        None => Ok(String::new(rt.alloc())),
    };
    let (mut out, mut err) = (rt.stdout(), rt.stderr());
    let status = run(rt.alloc(), &words, file, &mut out, &mut err)?;
    Ok(ExitCode::from(status))
}
