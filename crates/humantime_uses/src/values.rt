//! Callers of the values: their parts and differences, and their wrappers and printers.

ghost use Rattle.std.specs.Prelude.{◌≡◌, ◌+◌, ◌*◌, ◌/◌, ◌%◌, ◌^◌, ◌<◌, ◌≤ℤ◌, ◌+ℤ◌, ◌<ℤ◌, ◌↔◌, pos, true, IsTrue, Some, SomeIff};
ghost use Rattle.humantime.specs.Prelude.{duration_end, moment, moment_end, nano_of, nanos_per_second, second_of};

use humantime::{
    Duration, FormattedDuration, Rfc3339Timestamp, StdDuration, SystemTime, SystemTimeError,
    Timestamp, parse_duration, parse_rfc3339_weak,
};

/// Returns the limit and the duration of any seconds and nanoseconds, which are carried, or `None`
/// if they are too long.
pub fn carried(secs: u64, nanos: u32) -> Option<(Duration, StdDuration)>
    ensures { SomeIff result (secs + nanos / nanos_per_second < 2 ^ 64)
        (secs * nanos_per_second + nanos, secs * nanos_per_second + nanos) }
{
    let limit = StdDuration::checked_new(secs, nanos)?;
    Some((Duration::from(limit), StdDuration::new(secs, nanos)))
}

/// Returns a timestamp of seconds and nanoseconds after 1970-01-01, or `None` if the nanoseconds
/// are a second or more.
pub fn timestamp_of_parts(secs: i64, nanos: u32) -> Option<Timestamp>
    ensures { SomeIff result (nanos < nanos_per_second) (moment secs nanos) }
{
    Some(Timestamp::from(SystemTime::from_parts(secs, nanos)?))
}

/// Returns the seconds and the nanoseconds of a duration, which meet the precondition of
/// `StdDuration::new`, and what it returns for them.
pub fn parts_and_duration(duration: StdDuration) -> (u64, u32, StdDuration)
    ensures seconds { result.0 ≡ duration / nanos_per_second }
    ensures nanoseconds { result.1 ≡ duration % nanos_per_second }
    ensures same { result.2 ≡ duration }
{
    let (secs, nanos) = (duration.as_secs(), duration.subsec_nanos());
    (secs, nanos, StdDuration::new(secs, nanos))
}

/// Returns the seconds and the nanoseconds of a time, and the time of these parts, which is the
/// same.
pub fn parts_and_moment(moment: SystemTime) -> (i64, u32, Option<SystemTime>)
    ensures second { result.0 ≡ second_of moment }
    ensures nano { result.1 ≡ nano_of moment }
    ensures same { result.2 ≡ Some moment }
{
    let (secs, nanos) = (moment.unix_seconds(), moment.subsec_nanos());
    (secs, nanos, SystemTime::from_parts(secs, nanos))
}

/// Returns `true` if a time is not before another, and the duration between them.
pub fn distance(moment: SystemTime, other: SystemTime) -> (bool, StdDuration)
    ensures order { IsTrue result.0 ↔ (other ≤ℤ moment) }
    ensures later { other ≤ℤ moment → moment ≡ other +ℤ pos result.1 }
    ensures earlier { moment ≤ℤ other → other ≡ moment +ℤ pos result.1 }
{
    match moment.duration_since(other) {
        Ok(time) => (true, time),
        Err(error) => (false, apart(error)),
    }
}

/// Returns the duration between two times, of which one is before the other.
fn apart(error: SystemTimeError) -> StdDuration
    ensures { result ≡ error }
{
    error.duration()
}

/// Returns the sum of a limit and an extension of it, or `None` if that is too long.
pub fn extended(limit: Duration, by: Duration) -> Option<Duration>
    ensures { SomeIff result (limit + by < duration_end) (limit + by) }
{
    let longer = limit.as_ref().checked_add(StdDuration::from(by))?;
    Some(Duration::new(longer))
}

/// Returns the timestamp `by` after another, or `None` if no time represents it.
pub fn postponed(stamp: Timestamp, by: Duration) -> Option<Timestamp>
    ensures { SomeIff result ((stamp +ℤ pos by) <ℤ moment_end) (stamp +ℤ pos by) }
{
    let later = stamp.as_ref().checked_add(*by.as_ref())?;
    Some(Timestamp::from(later))
}

/// Returns the values that two printers print.
pub fn printed_values(
    duration: &FormattedDuration,
    stamp: &Rfc3339Timestamp,
) -> (StdDuration, SystemTime)
    ensures { result ≡ (duration.now, stamp.now.moment) }
{
    (*duration.get_ref(), *stamp.get_ref())
}

/// Returns `true` if the wrappers parse a string as the functions do, which they always do.
pub fn is_parsed_alike(text: &str) -> bool
    ensures { result ≡ true }
{
    let duration = Duration::from_str(text).map(|limit| StdDuration::from(limit));
    let moment = text.parse::<Timestamp>().map(SystemTime::from);
    duration == parse_duration(text) && moment == parse_rfc3339_weak(text)
}
