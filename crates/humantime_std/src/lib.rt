//! `humantime` with std's `Duration`, `SystemTime` and `Instant`: conversions, the current time,
//! sleep, deadlines, differences, the next run of a job, the time of a line of a log, and parsers
//! whose errors contain the range of the wrong bytes ([`located`]).
//!
//! `humantime`, the port of the Rust crate, does not use this crate. For `clock`, pass `&rt`.
//!
//! # Examples
//!
//! ```
//! use humantime::{StdDuration, parse_duration};
//! use humantime_std::{deadline, sleep, time_left};
//! use std::time::Instant;
//!
//! let limit = parse_duration("2ms 500us")?;
//! let end = deadline(Instant::now(&rt)?, limit).ok_or("too late")?;
//! sleep(&rt, time_left(Instant::now(&rt)?, end));
//! assert_eq!(rt; time_left(Instant::now(&rt)?, end), StdDuration::ZERO);
//! ```
#![tactic(auto)]

mod clocks;
mod durations;
pub mod located;
mod logs;
mod times;

pub use clocks::{deadline, elapsed, now, sleep, time_left};
pub use durations::{StdDurationExt, error_offset, next_delay};
pub use located::{Escaped, Located, MarkedLine, Report};
pub use logs::split_leading_time;
pub use times::{SystemTimeExt, next_monthly_run, next_run};
