//! Times of std, a time minus a duration, and the next run of a job.

ghost use Rattle.std.specs.Prelude.{◌≡◌, ◌+◌, ◌*◌, ◌<◌, ◌↔◌, ◌+ℤ◌, ◌-ℤ◌, ◌≤ℤ◌, ◌<ℤ◌, ℤ, Some, pos};
ghost use Rattle.std.specs.Prelude.{neg_ℤ, option_map, IfSome, IsNone, IsSome, SomeIff};
ghost use Rattle.std.specs.Prelude.{◌≤◌, ℕ};
ghost use Rattle.std.specs.Int.{div_ceil};
ghost use Rattle.std.specs.Time.{FitsClock, system_time_nanos};
ghost use Rattle.humantime.specs.Prelude.{moment_end, IsDate};
ghost use Rattle.humantime_std.specs.Schedule.{IsDue, IsNextRun};
ghost use Rattle.humantime_std.specs.Schedule.{BeginsMonth, IsNextMonthlyRun, december_9999};
ghost use Rattle.humantime_std.specs.Schedule.{midnight};

use crate::durations::StdDurationExt;
use humantime::{Date, StdDuration, SystemTime, Turns, UNIX_EPOCH, date_of_day, day_number};
use std::time;

const NANOS_PER_SECOND: u32 = 1_000_000_000;

const SECONDS_PER_DAY: u64 = 86_400;

const NANOS_PER_DAY: u128 = 86_400_000_000_000;

/// Methods of std's `SystemTime` that [`SystemTime`] does not have, and conversions from and to it.
///
/// # Examples
///
/// ```
/// use humantime::{parse_duration, parse_rfc3339};
/// use humantime_std::SystemTimeExt;
///
/// let time = parse_rfc3339("2018-02-14T00:28:07Z")?;
/// let hour_before = parse_rfc3339("2018-02-13T23:28:07Z")?;
/// assert_eq!(rt; time.checked_sub(parse_duration("1h")?), Some(hour_before));
/// ```
pub trait SystemTimeExt: Sized {
    // The number of nanoseconds from 1970 to a time.
    ghost moment: { Self → ℤ };

    /// Converts a time of std, or returns `None` if it is 2^63 seconds or more after 1970. No clock
    /// of std returns such a time.
    ///
    /// # Examples
    ///
    /// ```
    /// use humantime::SystemTime;
    /// use humantime_std::SystemTimeExt;
    /// use std::time::{Duration, UNIX_EPOCH};
    ///
    /// let time = UNIX_EPOCH + Duration::new(1_518_568_087, 5);
    /// assert_eq!(rt; SystemTime::from_std(time), SystemTime::from_parts(1_518_568_087, 5));
    /// ```
    fn from_std(time: time::SystemTime) -> Option<Self>
        ensures { SomeIff (option_map moment result) (FitsClock (system_time_nanos time))
            (pos (system_time_nanos time)) };

    /// Converts this time to one of std, or returns `None` if it is before 1970, where std's
    /// `SystemTime` begins in Rattle.
    ///
    /// # Examples
    ///
    /// ```
    /// use humantime::{SystemTime, parse_rfc3339};
    /// use humantime_std::SystemTimeExt;
    /// use std::time::{Duration, UNIX_EPOCH};
    ///
    /// let time = parse_rfc3339("2018-02-14T00:28:07.000000005Z")?;
    /// assert_eq!(rt; time.to_std(), Some(UNIX_EPOCH + Duration::new(1_518_568_087, 5)));
    /// let before = SystemTime::from_parts(-1, 999_999_999).ok_or("too many nanoseconds")?;
    /// assert_eq!(rt; before.to_std(), None);
    /// ```
    fn to_std(self) -> Option<time::SystemTime>
        ensures { SomeIff (option_map (λ t. pos (system_time_nanos t)) result)
            (pos 0 ≤ℤ moment self) (moment self) };

    /// Subtracts a duration, or returns `None` if the difference is more than 2^63 seconds before
    /// 1970.
    ///
    /// # Examples
    ///
    /// ```
    /// use humantime::{StdDuration, SystemTime};
    /// use humantime_std::SystemTimeExt;
    ///
    /// let first = SystemTime::from_parts(i64::MIN, 0).ok_or("too many nanoseconds")?;
    /// assert_eq!(rt; first.checked_sub(StdDuration::new(0, 1)), None);
    /// ```
    fn checked_sub(self, duration: StdDuration) -> Option<Self>
        ensures { let t = moment self -ℤ pos duration in
            SomeIff (option_map moment result) (neg_ℤ moment_end ≤ℤ t) t };
}

impl SystemTimeExt for SystemTime {
    ghost moment = { λ t. t };

    fn from_std(time: time::SystemTime) -> Option<SystemTime>
        ensures { SomeIff result (FitsClock (system_time_nanos time))
            (pos (system_time_nanos time)) }
    {
        let since = time.duration_since(time::UNIX_EPOCH).ok()?;
        UNIX_EPOCH.checked_add(StdDuration::from_std(since))
    }

    fn to_std(self) -> Option<time::SystemTime>
        ensures within { IsSome result ↔ (pos 0 ≤ℤ self) }
        ensures time { IfSome result (λ found. pos (system_time_nanos found) ≡ self) }
    {
        let secs = u64::try_from(self.unix_seconds()).ok()?;
        time::UNIX_EPOCH.checked_add(time::Duration::new(secs, self.subsec_nanos()))
    }

    fn checked_sub(self, duration: StdDuration) -> Option<SystemTime>
        ensures { let t = self -ℤ pos duration in SomeIff result (neg_ℤ moment_end ≤ℤ t) t }
    {
        let (nanos, other) = (self.subsec_nanos(), duration.subsec_nanos());
        let secs = self
            .unix_seconds()
            .checked_sub_unsigned(duration.as_secs())?;
        if other <= nanos {
            SystemTime::from_parts(secs, nanos - other)
        } else {
            SystemTime::from_parts(secs.checked_sub(1)?, nanos + NANOS_PER_SECOND - other)
        }
    }
}

/// Returns when a job runs next: the first of the times `last + every`, `last + 2 * every` and so
/// on that is not before `now`, or `None` if no `SystemTime` is such a time.
///
/// If `every` is zero, the only run is at `last`, so the result is `None` for a later `now`.
///
/// # Examples
///
/// ```
/// use humantime::{StdDuration, parse_duration, parse_rfc3339};
/// use humantime_std::next_run;
///
/// let last = parse_rfc3339("2018-02-14T00:28:07Z")?;
/// let now = parse_rfc3339("2018-02-16T09:00:00Z")?;
/// let next = parse_rfc3339("2018-02-17T00:28:07Z")?;
/// let day = parse_duration("1day")?;
/// assert_eq!(rt; next_run(last, day, now), Some(next));
/// assert_eq!(rt; next_run(last, day, next), Some(next));
/// assert_eq!(rt; next_run(next, day, now), next.checked_add(day));
/// assert_eq!(rt; next_run(last, StdDuration::ZERO, now), None);
/// ```
pub fn next_run(last: SystemTime, every: StdDuration, now: SystemTime) -> Option<SystemTime>
    ensures next { IfSome result (IsNextRun last every now) }
    ensures none { IsNone result ↔ ((t : ℤ) → IsDue last every now t → moment_end ≤ℤ t) }
{
    let gap = now.duration_since(last).unwrap_or(StdDuration::ZERO);
    run_after(last, gap, every)
}

/// Returns the first of the times `last + every`, `last + 2 * every` and so on that is not before
/// `last + gap`, if it is a `SystemTime`.
#[tactic(auto, using(std::proofs::lemmas::Grind::div_ceil_times, std::proofs::lemmas::Int::ints))]
fn run_after(last: SystemTime, gap: StdDuration, every: StdDuration) -> Option<SystemTime>
    ensures first { let t = last +ℤ pos every in gap ≡ 0 → SomeIff result (t <ℤ moment_end) t }
    ensures never { 0 < gap → every ≡ 0 → IsNone result }
    ensures later { let t = last +ℤ pos (div_ceil gap every * every) in
        0 < gap → 0 < every → SomeIff result (t <ℤ moment_end) t }
{
    let (gap, every) = (gap.as_nanos(), every.as_nanos());
    let wait = match gap {
        0 => every,
        _ if every == 0 => return None,
        _ => gap.div_ceil(every) * every,
    };
    last.checked_add(StdDuration::checked_from_nanos_u128(wait)?)
}

/// Returns when a job that runs on the first of each month runs next: the first midnight (UTC) that
/// begins a month, is after `last` and is not before `now`, or `None` if that is after the year
/// 9999, or if `now` is before 1970.
///
/// If the job has not run yet, `last` is the time at which it was added.
///
/// # Examples
///
/// ```
/// use humantime::parse_rfc3339;
/// use humantime_std::next_monthly_run;
///
/// let last = parse_rfc3339("2018-12-01T00:00:00Z")?;
/// let now = parse_rfc3339("2018-12-31T23:59:59Z")?;
/// let next = parse_rfc3339("2019-01-01T00:00:00Z")?;
/// assert_eq!(rt; next_monthly_run(last, now), Some(next));
/// assert_eq!(rt; next_monthly_run(last, next), Some(next));
/// assert_eq!(rt; next_monthly_run(next, next), Some(parse_rfc3339("2019-02-01T00:00:00Z")?));
/// assert_eq!(rt; next_monthly_run(last, parse_rfc3339("9999-12-01T00:00:01Z")?), None);
/// ```
pub fn next_monthly_run(last: SystemTime, now: SystemTime) -> Option<SystemTime>
    ensures next { IfSome result (IsNextMonthlyRun last now) }
    ensures within { IsSome result ↔ ((pos 0 ≤ℤ now)
        × (now ≤ℤ midnight december_9999) × (last <ℤ midnight december_9999)) }
{
    let day = month_start(first_midnight(last, now)?)?;
    UNIX_EPOCH.checked_add(StdDuration::from_secs(u64::from(day) * SECONDS_PER_DAY))
}

/// Returns the day of the first midnight that is after `last` and not before `now`, or `None` if
/// `now` is before 1970. Days are counted from 1970-01-01.
#[tactic(auto, using(std::proofs::lemmas::Grind::div_ceil_times, std::proofs::lemmas::Int::ints))]
fn first_midnight(last: SystemTime, now: SystemTime) -> Option<u128>
    ensures within { IsSome result ↔ (pos 0 ≤ℤ now) }
    ensures after_last { IfSome result (λ day. last <ℤ midnight day) }
    ensures not_before_now { IfSome result (λ day. now ≤ℤ midnight day) }
    ensures least { (n : ℕ) → last <ℤ midnight n → now ≤ℤ midnight n
        → IfSome result (λ day. day ≤ n) }
{
    let now = now.duration_since(UNIX_EPOCH).ok()?.as_nanos();
    let after_last = match last.duration_since(UNIX_EPOCH) {
        Ok(since) => since.as_nanos() / NANOS_PER_DAY + 1,
        Err(_) => 0,
    };
    Some(now.div_ceil(NANOS_PER_DAY).max(after_last))
}

/// Returns the first day not before `day` that begins a month, or `None` after 9999-12-01. Days are
/// counted from 1970-01-01.
fn month_start(day: u128) -> Option<u32>
    ensures within { IsSome result ↔ (day ≤ december_9999) }
    ensures month { IfSome result BeginsMonth }
    ensures from { IfSome result (λ first. day ≤ first) }
    ensures least { (n : ℕ) → BeginsMonth n → day ≤ n → IfSome result (λ first. first ≤ n) }
{
    let mut turns = Turns::new();
    let date = date_of_day(u32::try_from(day).ok()?, &mut turns)?;
    day_number(first_from(date), &mut turns)
}

/// Returns a date if it is the first of its month, or else the first of the next month.
fn first_from(date: Date) -> Date
    requires { IsDate date }
    ensures same { date.day ≡ 1 → result ≡ date }
    ensures month { 1 < date.day → date.month < 12
        → result ≡ record date { month = date.month + 1; day = 1 } }
    ensures year { 1 < date.day → date.month ≡ 12
        → result ≡ record { year = date.year + 1; month = 1; day = 1 } }
{
    match (date.month, date.day) {
        (_, 1) => date,
        (12, _) => Date {
            year: date.year + 1,
            month: 1,
            day: 1,
        },
        (month, _) => Date {
            month: month + 1,
            day: 1,
            ..date
        },
    }
}
