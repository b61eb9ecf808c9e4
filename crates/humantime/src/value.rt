//! [`StdDuration`] and [`SystemTime`], the counterparts of `Duration` and `SystemTime` in
//! `std::time`.

mod std_duration;
mod system_time;

pub use std_duration::StdDuration;
pub use system_time::{SystemTime, SystemTimeError, UNIX_EPOCH};
