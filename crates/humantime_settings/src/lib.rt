//! Settings with durations and timestamps as strings: `serde` reads and writes them in JSON, TOML
//! or another format.
//!
//! - [`#[serde(with = "humantime_settings")]`](Field) marks a field of a type that derives
//!   `Serialize` or `Deserialize`: a duration, a timestamp, or a list or a map of these. An
//!   `Option` also needs `default`, as in `#[serde(default, with = "humantime_settings")]`, to be
//!   `None` if it is missing.
//! - [`AsText`] wraps the key of a map, or an item of another collection.
//! - [`from_json`] and [`from_toml`] read settings. Their error, [`SettingsError`], has a line and
//!   a column, unless memory runs out, and prints the message, the line, and carets under what is
//!   wrong.
//! - [`to_json`] and [`to_toml`] write settings, each marked value as its canonical string.
//!
//! # Examples
//!
//! ```
//! use humantime::{StdDuration, SystemTime};
//! use humantime_settings::{from_json, to_json};
//! use serde::{Deserialize, Serialize};
//! use std::test::Fail;
//! use std::time::Duration;
//!
//! #[derive(Drop, Serialize, Deserialize)]
//! struct Settings {
//!     #[serde(with = "humantime_settings")]
//!     timeout: Duration,
//!     #[serde(with = "humantime_settings")]
//!     retries: Vec<StdDuration>,
//!     #[serde(default, with = "humantime_settings")]
//!     since: Option<SystemTime>,
//! }
//!
//! fn main(rt: HostRuntime) -> Result<(), Fail> {
//!     let text = r#"{"since": "2024-01-02"}"#;
//!     let error = from_json::<Settings>(rt.alloc(), text).err().ok_or("read")?;
//!     let wanted = r#"line 1, column 22: timestamp format is invalid
//! {"since": "2024-01-02"}
//!                      ^"#;
//!     assert_eq!(rt; error.to_string(rt.alloc())?.as_str(), wanted);
//!
//!     let text = r#"{"timeout": "90s", "retries": ["500ms"]}"#;
//!     let settings: Settings = from_json(rt.alloc(), text)?;
//!     assert!(rt; to_json(rt.alloc(), &settings)?.contains("\"timeout\": \"1m 30s\""));
//!     Ok(())
//! }
//! ```
#![tactic(auto)]

mod error;
mod error_range;
mod fields;
mod json_settings;
mod json_syntax;
mod raw_strings;
mod text;
mod toml_positions;
mod toml_settings;

pub use error::SettingsError;
pub use fields::{AsText, Field, deserialize, serialize};
pub use json_settings::{from_json, to_json};
pub use toml_settings::{from_toml, to_toml};
