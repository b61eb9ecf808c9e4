//! Callers of `humantime_std`, whose results are known up to the limits of the types.

ghost use Rattle.std.specs.Prelude.{◌≡◌, ◌≢◌, ◌+◌, ◌*◌, ◌/◌, ◌%◌, ◌<◌, ◌≤◌, ◌⊎◌, ◌↔◌, ◌+ℤ◌, ◌≤ℤ◌, ℤ, chars, pos, slice_range, option_map, Err, IfSome, IsNone, IsOk, IsTrue, Some, SomeIff};
ghost use Rattle.std.specs.Prelude.{ℕ};
ghost use Rattle.std.specs.Time.{FitsClock, instant_nanos};
ghost use Rattle.humantime.specs.Prelude.{Fault, duration_answer, fault_of, moment_end, fault_offset};
ghost use Rattle.humantime.specs.Prelude.{duration_end};
ghost use Rattle.humantime_std.specs.Located.{IsFaultRange, IsRangeIn, weak_error};
ghost use Rattle.humantime_std.specs.Schedule.{IsDue, IsNextRun, IsMonthlyDue, IsNextMonthlyRun};
ghost use Rattle.humantime_uses.specs.CaretColumns.{part_of_line};

use humantime::{DurationError, StdDuration, SystemTime};
use humantime_std::located::{self, parse_rfc3339_weak};
use humantime_std::{
    StdDurationExt, SystemTimeExt, deadline, error_offset, next_delay, next_monthly_run, next_run,
    time_left,
};
use std::time::Instant;

/// Returns `true` if a duration minus another is `rest`: if the other plus `rest` is the duration.
pub fn is_rest(duration: StdDuration, other: StdDuration, rest: StdDuration) -> bool
    ensures { IsTrue result ↔ (duration ≡ other + rest) }
{
    duration.checked_sub(other) == Some(rest)
}

/// Returns `true` if a time minus a duration is `earlier`: if `earlier` plus the duration is the
/// time.
pub fn is_earlier(time: SystemTime, duration: StdDuration, earlier: SystemTime) -> bool
    ensures { IsTrue result ↔ (time ≡ earlier +ℤ pos duration) }
{
    match time.checked_sub(duration) {
        Some(found) => found == earlier,
        None => false,
    }
}

/// Returns how much of a limit is left, and by how much it is exceeded. One of them is zero.
pub fn balance(limit: StdDuration, used: StdDuration) -> (StdDuration, StdDuration)
    ensures same { used + result.0 ≡ limit + result.1 }
    ensures zero { (result.0 ≡ 0) ⊎ (result.1 ≡ 0) }
{
    (limit.saturating_sub(used), used.saturating_sub(limit))
}

/// Converts a time to one of std and back, or returns `None` if it is before 1970.
pub fn time_through_std(time: SystemTime) -> Option<SystemTime>
    ensures { SomeIff result (pos 0 ≤ℤ time) time }
{
    SystemTime::from_std(time.to_std()?)
}

/// Returns what is left of a limit when it begins, which is the limit, or `None` if the clock of
/// std ends before it.
pub fn left_at_start(start: Instant, limit: StdDuration) -> Option<StdDuration>
    ensures { SomeIff result (FitsClock (instant_nanos start + limit)) limit }
{
    Some(time_left(start, deadline(start, limit)?))
}

/// Returns how long to wait for the next run of a job, or `None` if no `SystemTime` is a time at
/// which a run is due.
pub fn wait_for(last: SystemTime, every: StdDuration, now: SystemTime) -> Option<StdDuration>
    ensures next { IfSome result (λ wait. IsNextRun last every now (now +ℤ pos wait)) }
    ensures none { IsNone result → (t : ℤ) → IsDue last every now t → moment_end ≤ℤ t }
{
    next_run(last, every, now)?.duration_since(now).ok()
}

/// Returns how long to wait for the next monthly run of a job, or `None` if no midnight before the
/// year 10000 is a time at which one is due, or if `now` is before 1970.
pub fn wait_for_month(last: SystemTime, now: SystemTime) -> Option<StdDuration>
    ensures next { IfSome result (λ wait. IsNextMonthlyRun last now (now +ℤ pos wait)) }
    ensures none { IsNone result → pos 0 ≤ℤ now → (t : ℤ) → ¬ (IsMonthlyDue last now t) }
{
    next_monthly_run(last, now)?.duration_since(now).ok()
}

/// Returns the delay before one more try, `factor` times as long as the one before it, but not
/// longer than `most`.
pub fn grown(delay: StdDuration, factor: u64, most: StdDuration) -> StdDuration
    ensures within { delay * factor ≤ most → result ≡ delay * factor }
    ensures most { most ≤ delay * factor → result ≡ most }
{
    next_delay(delay, factor, most)
}

/// Returns the delay before one more try if the factor is zero, which is no delay at all.
pub fn vanished(delay: StdDuration, most: StdDuration) -> StdDuration
    ensures { result ≡ 0 }
{
    next_delay(delay, 0, most)
}

/// Returns the delay before one more try, twice as long as the one before it, but not longer than
/// `most`.
pub fn doubled(delay: StdDuration, most: StdDuration) -> StdDuration
    ensures most { result ≤ most }
    ensures longer { delay ≤ most → delay ≤ result }
    ensures twice { delay + delay ≤ most → result ≡ delay + delay }
{
    next_delay(delay, 2, most)
}

/// Returns a duration without what is below a step, and that remainder, or `None` if the step is
/// zero.
pub fn split_at_step(duration: StdDuration, step: StdDuration) -> Option<(StdDuration, StdDuration)>
    ensures none { IsNone result ↔ (step ≡ 0) }
    ensures sum { IfSome result (λ parts. duration ≡ parts.0 + parts.1) }
    ensures multiple { IfSome result (λ parts. parts.0 % step ≡ 0) }
    ensures below { IfSome result (λ parts. parts.1 < step) }
{
    let whole = duration.checked_trunc_to(step)?;
    Some((whole, duration.saturating_sub(whole)))
}

/// Returns the multiple of a step that is nearest to a duration, or of two the one above it, or
/// `None` if it is longer than any duration or the step is zero.
#[tactic(auto, using(crate::proofs::RoundingFacts::nearest_facts))]
pub fn nearest(duration: StdDuration, step: StdDuration) -> Option<StdDuration>
    ensures multiple { IfSome result (λ near. near % step ≡ 0) }
    ensures above { IfSome result (λ near. near * 2 ≤ duration * 2 + step) }
    ensures below { IfSome result (λ near. duration * 2 < near * 2 + step) }
    ensures tie { (k : ℕ) → duration * 2 ≡ k * step * 2 + step
        → IfSome result (λ near. near ≡ (k + 1) * step) }
    ensures none { IsNone result → step ≢ 0
        → (k : ℕ) → duration * 2 < k * step * 2 + step → duration_end ≤ k * step }
{
    duration.checked_round_to(step)
}

/// Returns how many percent of a whole a part is, rounded down, or `None` if the whole is zero.
pub fn share(part: StdDuration, whole: StdDuration) -> Option<u128>
    ensures { SomeIff result (whole ≢ 0) (part * 100 / whole) }
{
    (part.as_nanos() * 100).checked_div(whole.as_nanos())
}

/// Returns the part of a line that is wrong by the error of the weak parser, or `None` if there is
/// no error.
pub fn wrong_part(text: &str) -> Option<&str>
    ensures { option_map (λ part. part.now) result
        ≡ option_map (part_of_line text.now) (weak_error text.now) }
{
    let error = parse_rfc3339_weak(text).err()?;
    Some(error.marked_line(text).part)
}

/// Returns the offset of an error, if it has one.
pub fn offset_of_error(error: &DurationError<'_>) -> Option<usize>
    ensures { result ≡ fault_offset (fault_of error.now) }
{
    error_offset(error)
}

/// Returns the range of the error of a duration, or `None` if there is no error.
pub fn wrong_range(text: &str) -> Option<(usize, usize)>
    ensures none { IsNone result ↔ IsOk (duration_answer (chars text.now)) }
    ensures range { (e : Fault) → duration_answer (chars text.now) ≡ Err e
        → IfSome result (λ range. IsFaultRange text.now e range.0 range.1) }
    ensures boundaries { IfSome result (λ range. IsRangeIn text.now range.0 range.1) }
{
    let error = located::parse_duration(text).err()?;
    Some((error.start, error.end))
}
