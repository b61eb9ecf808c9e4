//! Methods of std's `Duration` for [`StdDuration`], conversions from and to it, and the offset of a
//! duration's error.

ghost use Rattle.std.specs.Prelude.{◌≡◌, ◌≢◌, ◌-◌, ◌*◌, ◌/◌, ◌<◌, ◌≤◌, ◌↔◌, ℕ, min, option_map};
ghost use Rattle.std.specs.Prelude.{IsTrue, SomeIff};
ghost use Rattle.std.specs.Duration.{as_nanos};
ghost use Rattle.humantime.specs.Prelude.{duration_end, fault_of, fault_offset};
ghost use Rattle.humantime_std.specs.Rounding.{nearest_multiple};

use humantime::{DurationError, StdDuration};
use std::time;

const NANOS_PER_SECOND: u128 = 1_000_000_000;

/// Further methods of [`StdDuration`], most of them named as in std's `Duration`, and conversions
/// from and to that.
///
/// # Examples
///
/// ```
/// use humantime::parse_duration;
/// use humantime_std::StdDurationExt;
///
/// let limit = parse_duration("1m 30s")?;
/// let left = limit.saturating_sub(parse_duration("80s")?);
/// assert_eq!(rt; left.as_millis(), 10_000);
/// ```
pub trait StdDurationExt: Sized {
    // The number of nanoseconds of a duration.
    ghost total_nanos: { Self → ℕ };

    /// Converts a duration of std.
    ///
    /// # Examples
    ///
    /// ```
    /// use humantime::StdDuration;
    /// use humantime_std::StdDurationExt;
    /// use std::time::Duration;
    ///
    /// let duration = StdDuration::from_std(Duration::from_millis(9_420_500));
    /// assert_eq!(rt; duration, StdDuration::new(9420, 500_000_000));
    /// ```
    fn from_std(duration: time::Duration) -> Self
        ensures { total_nanos result ≡ as_nanos duration };

    /// Converts this duration to one of std.
    ///
    /// # Examples
    ///
    /// ```
    /// use humantime::parse_duration;
    /// use humantime_std::StdDurationExt;
    /// use std::time::Duration;
    ///
    /// let timeout = parse_duration("2h 37min 500ms")?.to_std();
    /// assert_eq!(rt; timeout, Duration::from_millis(9_420_500));
    /// ```
    fn to_std(self) -> time::Duration
        ensures { as_nanos result ≡ total_nanos self };

    /// Creates a duration of a number of nanoseconds, or returns `None` if it is longer than `MAX`.
    ///
    /// # Examples
    ///
    /// ```
    /// use humantime::StdDuration;
    /// use humantime_std::StdDurationExt;
    ///
    /// let duration = StdDuration::checked_from_nanos_u128(90_000_000_005);
    /// assert_eq!(rt; duration, Some(StdDuration::new(90, 5)));
    /// let too_long = 18_446_744_073_709_551_616_000_000_000;
    /// assert_eq!(rt; StdDuration::checked_from_nanos_u128(too_long), None);
    /// ```
    fn checked_from_nanos_u128(nanos: u128) -> Option<Self>
        ensures { SomeIff (option_map total_nanos result) (nanos < duration_end) nanos };

    /// Returns this duration in nanoseconds.
    ///
    /// A share in percent is `(part.as_nanos() * 100).checked_div(whole.as_nanos())`, where no
    /// product overflows.
    ///
    /// # Examples
    ///
    /// ```
    /// use humantime::StdDuration;
    /// use humantime_std::StdDurationExt;
    ///
    /// assert_eq!(rt; StdDuration::MAX.as_nanos(), 18_446_744_073_709_551_615_999_999_999);
    /// let (part, whole) = (StdDuration::from_secs(25), StdDuration::from_secs(60));
    /// assert_eq!(rt; (part.as_nanos() * 100).checked_div(whole.as_nanos()), Some(41));
    /// ```
    fn as_nanos(self) -> u128
        ensures { result ≡ total_nanos self };

    /// Returns the whole milliseconds of this duration.
    ///
    /// # Examples
    ///
    /// ```
    /// use humantime::parse_duration;
    /// use humantime_std::StdDurationExt;
    ///
    /// assert_eq!(rt; parse_duration("1s 2ms 999us")?.as_millis(), 1002);
    /// ```
    fn as_millis(self) -> u128
        ensures { result ≡ total_nanos self / 1_000_000 };

    /// Returns `true` if this duration is zero.
    ///
    /// # Examples
    ///
    /// ```
    /// use humantime::StdDuration;
    /// use humantime_std::StdDurationExt;
    ///
    /// assert!(rt; StdDuration::ZERO.is_zero());
    /// assert!(rt; !StdDuration::new(0, 1).is_zero());
    /// ```
    fn is_zero(self) -> bool
        ensures { IsTrue result ↔ (total_nanos self ≡ 0) };

    /// Subtracts another duration, or returns `None` if the difference is negative.
    ///
    /// # Examples
    ///
    /// ```
    /// use humantime::StdDuration;
    /// use humantime_std::StdDurationExt;
    ///
    /// let long = StdDuration::from_secs(90);
    /// let rest = StdDuration::new(29, 999_999_999);
    /// assert_eq!(rt; long.checked_sub(StdDuration::new(60, 1)), Some(rest));
    /// assert_eq!(rt; StdDuration::ZERO.checked_sub(long), None);
    /// ```
    fn checked_sub(self, other: Self) -> Option<Self>
        ensures { SomeIff (option_map total_nanos result) (total_nanos other ≤ total_nanos self)
            (total_nanos self - total_nanos other) };

    /// Subtracts another duration, or returns zero if the difference is negative.
    ///
    /// # Examples
    ///
    /// ```
    /// use humantime::StdDuration;
    /// use humantime_std::StdDurationExt;
    ///
    /// let (short, long) = (StdDuration::from_secs(60), StdDuration::from_secs(90));
    /// assert_eq!(rt; short.saturating_sub(long), StdDuration::ZERO);
    /// ```
    fn saturating_sub(self, other: Self) -> Self
        ensures { total_nanos result ≡ total_nanos self - total_nanos other };

    /// Multiplies this duration by a number, or returns `None` if the product is longer than `MAX`.
    ///
    /// # Examples
    ///
    /// ```
    /// use humantime::{StdDuration, parse_duration};
    /// use humantime_std::StdDurationExt;
    ///
    /// assert_eq!(rt; parse_duration("1m 30s")?.checked_mul(3), Some(parse_duration("4m 30s")?));
    /// assert_eq!(rt; StdDuration::MAX.checked_mul(2), None);
    /// ```
    fn checked_mul(self, factor: u64) -> Option<Self>
        ensures { SomeIff (option_map total_nanos result) (total_nanos self * factor < duration_end)
            (total_nanos self * factor) };

    /// Divides this duration by a number and truncates to nanoseconds, or returns `None` if the
    /// number is zero.
    ///
    /// # Examples
    ///
    /// ```
    /// use humantime::parse_duration;
    /// use humantime_std::StdDurationExt;
    ///
    /// let total = parse_duration("10s")?;
    /// assert_eq!(rt; total.checked_div(3), Some(parse_duration("3.333333333s")?));
    /// assert_eq!(rt; total.checked_div(0), None);
    /// ```
    fn checked_div(self, divisor: u64) -> Option<Self>
        ensures { SomeIff (option_map total_nanos result) (divisor ≢ 0)
            (total_nanos self / divisor) };

    /// Truncates this duration to a multiple of a step, or returns `None` if the step is zero.
    ///
    /// # Examples
    ///
    /// ```
    /// use humantime::{StdDuration, parse_duration};
    /// use humantime_std::StdDurationExt;
    ///
    /// let (mean, second) = (parse_duration("1m 2s 333ms")?, StdDuration::from_secs(1));
    /// assert_eq!(rt; mean.checked_trunc_to(second), Some(parse_duration("1m 2s")?));
    /// assert_eq!(rt; mean.checked_trunc_to(StdDuration::ZERO), None);
    /// ```
    fn checked_trunc_to(self, step: Self) -> Option<Self>
        ensures { SomeIff (option_map total_nanos result) (total_nanos step ≢ 0)
            (total_nanos self / total_nanos step * total_nanos step) };

    /// Rounds this duration to the nearest multiple of a step, or up if two are equally near, or
    /// returns `None` if the step is zero or that multiple is longer than `MAX`.
    ///
    /// # Examples
    ///
    /// ```
    /// use humantime::{StdDuration, parse_duration};
    /// use humantime_std::StdDurationExt;
    ///
    /// let step = parse_duration("1s")?;
    /// let (below, half) = (parse_duration("62s 499ms")?, parse_duration("62s 500ms")?);
    /// assert_eq!(rt; below.checked_round_to(step), Some(parse_duration("62s")?));
    /// assert_eq!(rt; half.checked_round_to(step), Some(parse_duration("63s")?));
    /// assert_eq!(rt; half.checked_round_to(StdDuration::ZERO), None);
    /// assert_eq!(rt; StdDuration::MAX.checked_round_to(step), None);
    /// ```
    fn checked_round_to(self, step: Self) -> Option<Self>
        ensures { let nanos = nearest_multiple (total_nanos step) (total_nanos self) in
            SomeIff (option_map total_nanos result)
            ((total_nanos step ≢ 0) × (nanos < duration_end)) nanos };
}

// In contracts a `StdDuration` is its number of nanoseconds. So the clauses below are those of the
// trait without `total_nanos`, and that this number is in the range of the type.
impl StdDurationExt for StdDuration {
    ghost total_nanos = { λ d. d };

    fn from_std(duration: time::Duration) -> StdDuration
        ensures nanos { result ≡ as_nanos duration }
        ensures within { result < duration_end }
    {
        StdDuration::new(duration.as_secs(), duration.subsec_nanos())
    }

    fn to_std(self) -> time::Duration
        ensures nanos { as_nanos result ≡ self }
        ensures within { self < duration_end }
    {
        time::Duration::new(self.as_secs(), self.subsec_nanos())
    }

    fn checked_from_nanos_u128(nanos: u128) -> Option<StdDuration>
        ensures { SomeIff result (nanos < duration_end) nanos }
    {
        let secs = u64::try_from(nanos / NANOS_PER_SECOND).ok()?;
        Some(StdDuration::new(secs, (nanos % NANOS_PER_SECOND) as u32))
    }

    fn as_nanos(self) -> u128
        ensures nanos { result ≡ self }
        ensures within { result < duration_end }
    {
        self.to_std().as_nanos()
    }

    fn as_millis(self) -> u128
        ensures { result ≡ self / 1_000_000 }
    {
        self.to_std().as_millis()
    }

    fn is_zero(self) -> bool
        ensures { IsTrue result ↔ (self ≡ 0) }
    {
        self == StdDuration::ZERO
    }

    fn checked_sub(self, other: StdDuration) -> Option<StdDuration>
        ensures { SomeIff result (other ≤ self) (self - other) }
    {
        Some(StdDuration::from_std(self.to_std().checked_sub(other.to_std())?))
    }

    fn saturating_sub(self, other: StdDuration) -> StdDuration
        ensures { result ≡ self - other }
    {
        StdDuration::from_std(self.to_std().saturating_sub(other.to_std()))
    }

    fn checked_mul(self, factor: u64) -> Option<StdDuration>
        ensures { SomeIff result (self * factor < duration_end) (self * factor) }
    {
        StdDuration::checked_from_nanos_u128(self.as_nanos().checked_mul(factor as u128)?)
    }

    fn checked_div(self, divisor: u64) -> Option<StdDuration>
        ensures { SomeIff result (divisor ≢ 0) (self / divisor) }
    {
        StdDuration::checked_from_nanos_u128(self.as_nanos().checked_div(divisor as u128)?)
    }

    fn checked_trunc_to(self, step: StdDuration) -> Option<StdDuration>
        ensures { SomeIff result (step ≢ 0) (self / step * step) }
    {
        let steps = self.as_nanos().checked_div(step.as_nanos())?;
        StdDuration::checked_from_nanos_u128(steps * step.as_nanos())
    }

    #[tactic(auto, using(crate::proofs::Multiples::half_added))]
    fn checked_round_to(self, step: StdDuration) -> Option<StdDuration>
        ensures { let nanos = nearest_multiple step self in
            SomeIff result ((step ≢ 0) × (nanos < duration_end)) nanos }
    {
        let step = step.as_nanos();
        let steps = (self.as_nanos() + step / 2).checked_div(step)?;
        StdDuration::checked_from_nanos_u128(steps * step)
    }
}

/// Returns the delay before the next try: `factor` times `delay`, but at most `most`. `delay` is
/// the one before the last try.
///
/// # Examples
///
/// ```
/// use humantime::StdDuration;
/// use humantime_std::next_delay;
///
/// let [first, second, most] = [60, 120, 150].map(|secs| StdDuration::from_secs(secs));
/// assert_eq!(rt; (next_delay(first, 2, most), next_delay(second, 2, most)), (second, most));
/// ```
pub fn next_delay(delay: StdDuration, factor: u64, most: StdDuration) -> StdDuration
    ensures { result ≡ min (delay * factor) most }
{
    match delay.checked_mul(factor) {
        Some(longer) => longer.min(most),
        None => most,
    }
}

/// Returns the byte offset of an error in the string that was parsed, or `None` for
/// `NumberOverflow`, which has none.
///
/// The offset is that of the character that is wrong, or of the first letter of the unit. It is 0
/// for `Empty`, and the string's length if a unit is missing.
///
/// # Examples
///
/// ```
/// use humantime::{DurationError, parse_duration};
/// use humantime_std::error_offset;
///
/// let error = parse_duration("2h 37mi").expect_err(&rt, "no such unit");
/// assert_eq!(rt; error_offset(&error), Some(5));
/// assert_eq!(rt; error_offset(&DurationError::NumberOverflow), None);
/// ```
pub fn error_offset(error: &DurationError<'_>) -> Option<usize>
    ensures { result ≡ fault_offset (fault_of error.now) }
{
    match error {
        DurationError::InvalidCharacter(at) | DurationError::NumberExpected(at) => Some(*at),
        DurationError::UnknownUnit { start, .. } => Some(*start),
        DurationError::NumberOverflow => None,
        DurationError::Empty => Some(0),
    }
}
