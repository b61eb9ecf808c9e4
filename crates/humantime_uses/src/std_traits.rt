//! Callers of the traits of `humantime_std`, for any type that has these methods.

ghost use Rattle.std.specs.Prelude.{◌≡◌, ◌≢◌, ◌+◌, ◌-◌, ◌*◌, ◌/◌, ◌<◌, ◌≤◌, ◌↔◌, ◌+ℤ◌, ◌-ℤ◌, ◌≤ℤ◌, option_map, pos, IfSome, IsNone, IsSome, IsTrue, SomeIff};
ghost use Rattle.std.specs.Duration.{as_nanos};
ghost use Rattle.std.specs.Time.{FitsClock, system_time_nanos};
ghost use Rattle.humantime.specs.Prelude.{duration_end};
ghost use Rattle.humantime_std.specs.Rounding.{nearest_multiple};

use humantime::StdDuration;
use humantime_std::{StdDurationExt, SystemTimeExt};
use std::time;

/// Returns a duration that std measured, as any type of durations.
pub fn measured<D: StdDurationExt>(duration: time::Duration) -> D
    ensures { D.total_nanos result ≡ as_nanos duration }
{
    D::from_std(duration)
}

/// Returns how much of a limit is left after a number of equal steps, or `None` if they are longer
/// than any duration.
pub fn left_after<D: StdDurationExt + Copy>(limit: D, step: D, steps: u64) -> Option<D>
    ensures none { IsNone result → duration_end ≤ D.total_nanos step * steps }
    ensures left { IfSome result
        (λ left. D.total_nanos left ≡ D.total_nanos limit - D.total_nanos step * steps) }
{
    Some(limit.saturating_sub(step.checked_mul(steps)?))
}

/// Returns the mean of a number of durations, in whole milliseconds and as one of std, or `None` if
/// there is none.
pub fn mean_of<D: StdDurationExt + Copy>(total: D, count: u64) -> Option<(u128, time::Duration)>
    ensures none { IsNone result ↔ (count ≡ 0) }
    ensures millis { IfSome result (λ mean. mean.0 ≡ D.total_nanos total / count / 1_000_000) }
    ensures whole { IfSome result (λ mean. as_nanos mean.1 ≡ D.total_nanos total / count) }
{
    let mean = total.checked_div(count)?;
    Some((mean.as_millis(), mean.to_std()))
}

/// Returns the steps of a duration, without what is below a step, or `None` if it is shorter than
/// one, or if the step is zero.
pub fn whole_steps<D: StdDurationExt + Copy>(duration: D, step: D) -> Option<u128>
    ensures { IfSome result (λ nanos.
        (nanos ≡ D.total_nanos duration / D.total_nanos step * D.total_nanos step) × (nanos ≢ 0)) }
{
    let whole = duration.checked_trunc_to(step)?;
    if whole.is_zero() {
        return None;
    }
    Some(whole.as_nanos())
}

/// Returns the nearest multiple of a step in nanoseconds, or `None` if the step is zero, or if no
/// duration is that long.
pub fn rounded_nanos<D: StdDurationExt>(duration: D, step: D) -> Option<u128>
    ensures { let nanos = nearest_multiple (D.total_nanos step) (D.total_nanos duration) in
        SomeIff result ((D.total_nanos step ≢ 0) × (nanos < duration_end)) nanos }
{
    Some(duration.checked_round_to(step)?.as_nanos())
}

/// Returns `true` if a duration is longer than another by a number of nanoseconds.
pub fn exceeds_by<D: StdDurationExt + Copy>(longer: D, shorter: D, nanos: u128) -> bool
    ensures { IsTrue result ↔ (D.total_nanos longer ≡ D.total_nanos shorter + nanos) }
{
    match longer.checked_sub(shorter) {
        Some(rest) => rest.as_nanos() == nanos,
        None => false,
    }
}

/// Returns a duration of any type, if it is not too long.
pub fn of_nanos<D: StdDurationExt>(nanos: u128) -> Option<D>
    ensures { SomeIff (option_map D.total_nanos result) (nanos < duration_end) nanos }
{
    D::checked_from_nanos_u128(nanos)
}

/// Returns the time of std that is a duration before one of std, or `None` if it is before 1970.
#[tactic(auto, using(std::proofs::lemmas::Int::ints))]
pub fn before<T: SystemTimeExt + Copy>(
    time: time::SystemTime,
    duration: StdDuration,
) -> Option<time::SystemTime>
    ensures some { IsSome result → FitsClock (system_time_nanos time) }
    ensures time { IfSome result
        (λ earlier. system_time_nanos time ≡ system_time_nanos earlier + duration) }
{
    T::from_std(time)?.checked_sub(duration)?.to_std()
}
