//! The current time, sleep, and deadlines. No contract can say which time a clock returns.

ghost use Rattle.std.specs.Prelude.{◌≡◌, ◌+◌, ◌-◌, ◌↔◌, ◌≤ℤ◌, pos, IfOk, IfSome, IsSome};
ghost use Rattle.std.specs.Time.{FitsClock, instant_nanos};

use crate::durations::StdDurationExt;
use crate::times::SystemTimeExt;
use humantime::{StdDuration, SystemTime};
use std::time::{self, Clock, Instant};
use std::{io, thread};

/// Returns the current time, which is not before 1970.
///
/// # Errors
///
/// Returns an error if the clock cannot be read, or reads a time before 1970, or one 2^63 seconds
/// after 1970 or later.
///
/// # Examples
///
/// ```
/// use humantime::parse_rfc3339;
/// use humantime_std::now;
///
/// assert!(rt; now(&rt)? > parse_rfc3339("2018-02-14T00:28:07Z")?);
/// ```
pub fn now(clock: &impl Clock) -> io::Result<SystemTime>
    ensures { IfOk result (λ time. pos 0 ≤ℤ time) }
{
    Ok(SystemTime::from_std(time::SystemTime::now(clock)?).unwrap())
}

/// Puts the current thread to sleep for at least a duration, if `clock` is the runtime. Another
/// `Clock` may return at any time. No contract can say how long it sleeps.
///
/// # Examples
///
/// ```
/// use humantime::parse_duration;
/// use humantime_std::{elapsed, sleep};
/// use std::time::Instant;
///
/// let pause = parse_duration("1ms")?;
/// let start = Instant::now(&rt)?;
/// sleep(&rt, pause);
/// assert!(rt; elapsed(&rt, start)? >= pause);
/// ```
pub fn sleep(clock: &impl Clock, duration: StdDuration) {
    thread::sleep(clock, duration.to_std())
}

/// Returns the time since an instant, less than 2^63 seconds, or zero if the clock reads an earlier
/// instant.
///
/// # Errors
///
/// Returns an error if the clock cannot be read, or reads 2^63 seconds or more.
///
/// # Examples
///
/// ```
/// use humantime::parse_duration;
/// use humantime_std::elapsed;
/// use std::time::Instant;
///
/// let start = Instant::now(&rt)?;
/// assert!(rt; elapsed(&rt, start)? < parse_duration("1h")?);
/// ```
pub fn elapsed(clock: &impl Clock, start: Instant) -> io::Result<StdDuration>
    ensures { IfOk result FitsClock }
{
    Ok(time_left(start, Instant::now(clock)?))
}

/// Returns the end of a time limit that begins at `now`, or `None` if it is too late for an
/// `Instant`: 2^63 seconds or more after the start of std's clock.
///
/// # Examples
///
/// ```
/// use humantime::{StdDuration, parse_duration};
/// use humantime_std::{deadline, time_left};
/// use std::time::Instant;
///
/// let start = Instant::now(&rt)?;
/// let limit = parse_duration("1m 30s")?;
/// let end = deadline(start, limit).ok_or("too late")?;
/// assert_eq!(rt; time_left(start, end), limit);
/// assert_eq!(rt; deadline(start, StdDuration::MAX), None);
/// ```
pub fn deadline(now: Instant, limit: StdDuration) -> Option<Instant>
    ensures within { IsSome result ↔ FitsClock (instant_nanos now + limit) }
    ensures end { IfSome result (λ end. instant_nanos end ≡ instant_nanos now + limit) }
{
    now.checked_add(limit.to_std())
}

/// Returns the time from `now` to a deadline, or zero if it has passed.
///
/// # Examples
///
/// ```
/// use humantime::StdDuration;
/// use humantime_std::{deadline, time_left};
/// use std::time::Instant;
///
/// let start = Instant::now(&rt)?;
/// let end = deadline(start, StdDuration::from_secs(90)).ok_or("too late")?;
/// assert_eq!(rt; time_left(start, end), StdDuration::from_secs(90));
/// assert_eq!(rt; time_left(end, start), StdDuration::ZERO);
/// ```
pub fn time_left(now: Instant, deadline: Instant) -> StdDuration
    ensures { result ≡ instant_nanos deadline - instant_nanos now }
{
    StdDuration::from_std(deadline.saturating_duration_since(now))
}
