//! Parses and prints durations such as `2h 37m` and UTC timestamps such as `2018-02-14T00:28:07Z`.
//!
//! Contracts cite the definitions in `specs/`. Those that most callers need are in
//! `specs/Prelude.antt`.
//!
//! # Examples
//!
//! Each example in this crate is the body of a test: `rt` is the test's `HostRuntime`, and `?` ends
//! the test with the error.
//!
//! ```
//! use humantime::{StdDuration, format_rfc3339, parse_duration, parse_rfc3339};
//!
//! let duration = parse_duration("2h 37min")?;
//! assert_eq!(rt; duration, StdDuration::from_secs(9420));
//! let time = parse_rfc3339("2018-02-14T00:28:07Z")?;
//! let later = time.checked_add(duration).ok_or("out of range")?;
//! let mut buf = [0; 30];
//! assert_eq!(rt; format_rfc3339(later).text(&mut buf), Some("2018-02-14T03:05:07Z"));
//! ```
#![tactic(auto)]

mod buffer;
mod calendar;
mod date;
mod duration;
pub mod laws;
mod unit;
mod value;
mod wrapper;

pub use calendar::{Date, Turns, date_of_day, day_number};
pub use date::{
    Rfc3339Timestamp, TimestampError, format_rfc3339, format_rfc3339_micros, format_rfc3339_millis,
    format_rfc3339_nanos, format_rfc3339_seconds, parse_rfc3339, parse_rfc3339_weak,
};
pub use duration::{
    DurationError, FormattedDuration, Span, SpanIter, canonical, format_duration, parse_duration,
    spans,
};
pub use value::{StdDuration, SystemTime, SystemTimeError, UNIX_EPOCH};
pub use wrapper::{Duration, Timestamp};
